//! The abbreviation table of a unit.

ghost use Rattle.std.specs.Prelude.{◌≡◌, [], length, Some, IfSome, OnOk, OnErr, IfOk, IfErr};
ghost use Rattle.std.specs.List.{flat_map};
ghost use Rattle.dw_base.specs.declared.error.Error.TheVariants.{NoMemory};
ghost use Rattle.dw_base.specs.Abbreviations.{shape_of_code};
ghost use Rattle.dw_base.specs.Spelling.{declaration_bytes, table_bytes};
ghost use Rattle.dw_base.specs.Spellable.{AreDeclarations};
ghost use Rattle.dw_writer.specs.Meaning.{IsSameWriter, Adds, AddsSome};
ghost use Rattle.dw_writer.specs.Causes.{BytesRefused};
ghost use Rattle.dw_abbrev.specs.Codes.{code_in, with_shape, declarations, AllDiffer, KeepsCodes, IsReadAgain};

use crate::abbreviation::Abbreviation;
use dw_base::Result;
use dw_writer::{DebugAbbrev, Writer};
use indexmap::IndexSet;
use std::alloc::Global;
use std::marker::Model;

/// Abbreviations that differ, each with its place, counted from 1, as its code.
#[derive(Drop)]
pub struct AbbreviationTable {
    abbreviations: IndexSet<Abbreviation>,

    // The code that was looked up last, or 0: entries of one shape often follow each other, and
    // need no hash then.
    last: u64,
}

impl Model for AbbreviationTable {
    ghost use Rattle.std.specs.Prelude.{List};
    ghost use Rattle.dw_base.specs.Abbreviations.{Shape};

    ghost Value = { List Shape };

    ghost use Rattle.dw_abbrev.specs.Codes.{AllDiffer};

    ghost view = { λ t. t.abbreviations.keys };

    ghost invariant = { λ t. AllDiffer t.abbreviations.keys };
}

impl AbbreviationTable {
    /// A table of no abbreviations.
    pub fn new(alloc: Global) -> AbbreviationTable
        ensures { result ≡ [] }
    {
        AbbreviationTable {
            abbreviations: IndexSet::new(alloc),
            last: 0,
        }
    }

    /// The code of an abbreviation, which is added if none equals it. One that is there already is
    /// dropped.
    pub fn add(&mut self, abbrev: Abbreviation) -> Result<u64>
        ensures code { IfOk result (λ code. code ≡ code_in self.old «abbrev») }
        ensures ok { OnOk result (self.new ≡ with_shape self.old «abbrev») }
        ensures err { IfErr result (λ e. e ≡ NoMemory) }
        ensures kept { OnErr result (self.new ≡ self.old) }

        // The code stands for the abbreviation, and codes that were given stand for what they did.
        ensures declared { IfOk result
            (λ code. shape_of_code (declarations self.new) code ≡ Some «abbrev») }
        ensures stays { KeepsCodes self.old self.new }
    {
        let (index, _) = self.abbreviations.insert_full(abbrev)?;
        // A set's length is far below the largest number, so the code doesn't wrap.
        prove!(index < self.abbreviations.len());
        Ok(index as u64 + 1)
    }

    /// The code of an abbreviation that equals this one, if there is one.
    fn code_of(&self, abbrev: &Abbreviation) -> Option<u64>
        ensures code { IfSome result (λ code. code ≡ code_in self.now «abbrev».now) }
        ensures there { IfSome result (λ code. with_shape self.now «abbrev».now ≡ self.now) }
    {
        let index = self.abbreviations.get_index_of(abbrev)?;
        prove!(index < self.abbreviations.len());
        Some(index as u64 + 1)
    }

    /// The code that was looked up last, if its abbreviation equals this one.
    fn code_again(&self, abbrev: &Abbreviation) -> Option<u64>
        ensures code { IfSome result (λ code. code ≡ code_in self.now «abbrev».now) }
        ensures there { IfSome result (λ code. with_shape self.now «abbrev».now ≡ self.now) }
    {
        let place = (self.last as usize).checked_sub(1)?;
        let abbreviations = self.abbreviations.as_slice();
        if place < abbreviations.len() && &abbreviations[place] == abbrev {
            Some(self.last)
        } else {
            None
        }
    }

    /// The code of an abbreviation, of which a copy is added if none equals it. So one abbreviation
    /// serves for many look-ups.
    pub fn add_copy(&mut self, abbrev: &Abbreviation) -> Result<u64>
        ensures code { IfOk result (λ code. code ≡ code_in self.old «abbrev».now) }
        ensures ok { OnOk result (self.new ≡ with_shape self.old «abbrev».now) }
        ensures err { IfErr result (λ e. e ≡ NoMemory) }
        ensures kept { OnErr result (self.new ≡ self.old) }
    {
        if let Some(code) = self.code_again(abbrev) {
            return Ok(code);
        }
        let code = match self.code_of(abbrev) {
            Some(code) => code,
            None => self.add(abbrev.try_clone()?)?,
        };
        self.last = code;
        Ok(code)
    }

    /// How many abbreviations there are. No two of them are equal.
    pub fn count(&self) -> usize
        ensures len { result ≡ length self.now }
        ensures differ { AllDiffer self.now }
    {
        self.abbreviations.len()
    }

    /// Writes the table, with the zero that closes it.
    pub fn write<W: Writer>(&self, w: &mut DebugAbbrev<W>) -> Result<()>
        ensures ok { OnOk result
            (Adds (W.meaning w.old.0) (W.meaning w.new.0) (table_bytes (declarations self.now))) }
        ensures err { IfErr result (BytesRefused (W.meaning w.old.0) (W.meaning w.new.0)) }
        ensures partly { OnErr result
            (AddsSome (W.meaning w.old.0) (W.meaning w.new.0)
            (table_bytes (declarations self.now))) }
        ensures same { IsSameWriter (W.meaning w.old.0) (W.meaning w.new.0) }
        ensures spelled { OnOk result (AreDeclarations (declarations self.now)) }
        ensures again { OnOk result (IsReadAgain self.now) }
    {
        write_declarations(self.abbreviations.as_slice(), &mut w.0)?;
        w.0.write_u8(0)
    }
}

/// Writes abbreviations, each after its code.
fn write_declarations<W: Writer>(abbreviations: &[Abbreviation], w: &mut W) -> Result<()>
    ensures ok { OnOk result
        (Adds (W.meaning w.old) (W.meaning w.new)
        (flat_map declaration_bytes (declarations abbreviations.now))) }
    ensures err { IfErr result (BytesRefused (W.meaning w.old) (W.meaning w.new)) }
    ensures partly { OnErr result
        (AddsSome (W.meaning w.old) (W.meaning w.new)
        (flat_map declaration_bytes (declarations abbreviations.now))) }
    ensures same { IsSameWriter (W.meaning w.old) (W.meaning w.new) }
    ensures spelled { OnOk result (AreDeclarations (declarations abbreviations.now)) }
{
    for (index, abbreviation) in abbreviations.iter().enumerate() {
        w.write_uleb128(index as u64 + 1)?;
        abbreviation.write(w)?;
    }
    Ok(())
}
