//! Abbreviation tables, as they are read (DWARF 5, 7.5.3).

ghost use Rattle.std.specs.Prelude.{◌≡◌, ◌↔◌, ℕ, [], ◌∷◌, ◌++◌, IsTrue};
ghost use Rattle.std.specs.Prelude.{IfSome, IfNone, IfOk, IfErr, OnErr, None};
ghost use Rattle.dw_base.specs.Abbreviations.{table_at, shape_of_code};
ghost use Rattle.dw_read.specs.declared.error.ReadError.TheVariants.{NoMemory};
ghost use Rattle.dw_read.specs.Declarations.{declaration_read, table_read};
ghost use Rattle.dw_read.specs.Reading.{Reads};
ghost use Rattle.dw_read.specs.Took.{Took, RefusesOrFull};
ghost use Rattle.dw_read.specs.Index.{IsIndexed, StandsAt};
ghost use Rattle.dw_read.specs.Tables.{Finds, RefusesTable};

use crate::abbreviation::Abbreviation;
use crate::declaration::read_shape;
use crate::error::{ReadError, ReadResult};
use crate::reader::Reader;
use std::alloc::Global;
use std::collections::BTreeMap;
use std::marker::Model;

/// A table of declarations, each found by its code.
///
/// Writers give the codes 1, 2, 3 and so on: the declaration of such a code stands at its place
/// in the table. The places of all others are kept beside it, in the order of their codes.
///
/// ```
/// let mut input = EndianSlice::new(b"\x01\x11\x00\x00\x00\x00", LittleEndian);
/// let table = Abbreviations::parse(alloc, &mut input)?;
/// let unit = table.get(1); // the declaration of a compile unit
/// ```
#[derive(Drop)]
pub struct Abbreviations {
    declarations: Vec<Abbreviation>,
    others: BTreeMap<u64, usize>,
    ghost indexed: { IsIndexed declarations.items others },
}

impl Model for Abbreviations {
    ghost use Rattle.std.specs.Prelude.{List};
    ghost use Rattle.dw_base.specs.Abbreviations.{Declaration};

    ghost Value = { List Declaration };

    ghost view = { λ t. t.declarations.items };
}

impl Abbreviations {
    /// An empty table.
    pub(crate) fn new(alloc: Global) -> Abbreviations
        ensures { result ≡ [] }
    {
        Abbreviations {
            declarations: Vec::new(alloc),
            others: BTreeMap::new(alloc),
        }
    }

    /// Reads a table, up to the code zero that closes it. It allocates as much as was read.
    pub fn parse<R: Reader>(alloc: Global, input: &mut R) -> ReadResult<Abbreviations>
        ensures ok { IfOk result (Reads _ table_at (R.reading input.old) (R.reading input.new)) }
        ensures err { IfErr result (RefusesTable (R.reading input.old)) }
        ensures kept { OnErr result (R.reading input.new ≡ R.reading input.old) }
    {
        let mut after = input.duplicate();
        let table = read_table(alloc, &mut after)?;
        *input = after;
        Ok(table)
    }

    /// The declaration of a code.
    pub fn get(&self, code: u64) -> Option<&Abbreviation>
        ensures { Finds self.now code result }
    {
        let place = self.place_of(code)?;
        Some(&self.declarations[place])
    }

    /// The table with a declaration more, whose code stands in none before it.
    fn with(self, abbreviation: Abbreviation) -> ReadResult<Abbreviations>
        requires { shape_of_code self abbreviation.code ≡ None }
        ensures ok { IfOk result (λ t. t ≡ self ++ abbreviation ∷ []) }
        ensures err { IfErr result (λ e. e ≡ NoMemory) }
    {
        let Abbreviations {
            mut declarations,
            mut others,
        } = self;
        let place = declarations.len();
        let code = abbreviation.code();
        if code != place as u64 + 1 {
            others.insert(code, place)?;
        }
        declarations.push(abbreviation)?;
        Ok(Abbreviations {
            declarations,
            others,
        })
    }

    /// The place of the declaration of a code.
    fn place_of(&self, code: u64) -> Option<usize>
        ensures found { IfSome result (StandsAt self.now code) }
        ensures none { IfNone result ((i : ℕ) → StandsAt self.now code i → ⊥) }
    {
        let own = code.wrapping_sub(1) as usize;
        if self.stands_at(code, own) {
            return Some(own);
        }
        self.others.get(&code).copied()
    }

    /// Whether the declaration of a code stands at a place.
    fn stands_at(&self, code: u64, place: usize) -> bool
        ensures { IsTrue result ↔ StandsAt self.now code place }
    {
        match self.declarations.get(place) {
            Some(abbreviation) => abbreviation.code() == code,
            None => false,
        }
    }
}

/// Reads the declarations of a table.
fn read_table<R: Reader>(alloc: Global, input: &mut R) -> ReadResult<Abbreviations>
    ensures ok { IfOk result (Took _ table_read (R.reading input.old) (R.reading input.new)) }
    ensures err { IfErr result (RefusesOrFull _ table_read (R.reading input.old)) }
{
    let mut table = Abbreviations::new(alloc);
    'declarations: loop {
        let Some(abbreviation) = read_declaration(alloc, input, &table)? else {
            return Ok(table);
        };
        table = table.with(abbreviation)?;
    }
}

/// Reads a declaration after those of a table, or None for the zero that closes the table.
fn read_declaration<R: Reader>(
    alloc: Global,
    input: &mut R,
    before: &Abbreviations,
) -> ReadResult<Option<Abbreviation>>
    ensures ok { IfOk result (Took _ (declaration_read before.now)
        (R.reading input.old) (R.reading input.new)) }
    ensures new { IfOk result (λ a. IfSome a (λ d. shape_of_code before.now d.code ≡ None)) }
    ensures err { IfErr result (RefusesOrFull _ (declaration_read before.now)
        (R.reading input.old)) }
{
    let code = input.read_uleb128()?;
    if code == 0 {
        return Ok(None);
    }
    let abbreviation = read_shape(alloc, input, code)?;
    if before.get(code).is_some() {
        return Err(ReadError::DuplicateAbbreviationCode(code));
    }
    Ok(Some(abbreviation))
}
