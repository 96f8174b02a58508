//! The rows of a unit: entries, and the zeros that close lists of children (DWARF 5, 7.5.2).

ghost use Rattle.std.specs.Prelude.{◌≡◌, ◌↔◌, ◌-◌, IfOk, IfErr, IsTrue, length};
ghost use Rattle.dw_read.specs.Reading.{left};
ghost use Rattle.dw_read.specs.Rows.{BeginsAt, BeginsIn, IsOutside, deeper, shown_depth};
ghost use Rattle.dw_read.specs.Rows.{HasCode, NoCode};
ghost use Rattle.dw_read.specs.Rows.{ReadsAbbreviation, SkipsAttributes, ReadsRow};

use crate::abbreviation::Abbreviation;
use crate::abbreviations::Abbreviations;
use crate::attributes::{pass_attributes, read_attributes};
use crate::entry::DebuggingInformationEntry;
use crate::error::{ReadError, ReadResult};
use crate::fields::Fields;
use crate::reader::Reader;
use crate::unit_header::UnitHeader;
use dw_base::UnitOffset;

/// The rows of a unit, one after the other. After an error it stands where it stood.
///
/// ```
/// let mut rows = EntriesRaw::new(&header, &abbreviations);
/// let mut entry = DebuggingInformationEntry::new(alloc);
/// while !rows.is_empty() {
///     if rows.read_entry(&mut entry)? {
///         let depth = entry.depth; // 0 for the root
///     }
/// }
/// ```
#[derive(Drop)]
pub struct EntriesRaw<'a, R: Reader> {
    pub(crate) input: R,
    pub(crate) abbreviations: &'a Abbreviations,
    pub(crate) fields: &'a Fields,
    /// The place of the unit in its section.
    pub(crate) start: usize,
    /// How many lists of children are open.
    pub(crate) open_lists: usize,
}

impl<'a, R: Reader> EntriesRaw<'a, R> {
    /// The rows of a unit, from the first on.
    pub fn new(header: &'a UnitHeader<R>, abbreviations: &'a Abbreviations) -> EntriesRaw<'a, R>
        ensures { BeginsAt R.reading header.now abbreviations.now result }
    {
        EntriesRaw {
            input: header.body.duplicate(),
            abbreviations,
            fields: &header.fields,
            start: header.offset.0,
            open_lists: 0,
        }
    }

    /// The rows of a unit from an offset on, at which a row is to begin. It is an offset into the
    /// unit, behind its header.
    pub fn at(
        header: &'a UnitHeader<R>,
        abbreviations: &'a Abbreviations,
        offset: UnitOffset,
    ) -> ReadResult<EntriesRaw<'a, R>>
        ensures ok { IfOk result
            (BeginsIn R.reading header.now abbreviations.now offset.0) }
        ensures err { IfErr result (IsOutside R.reading header.now offset.0) }
    {
        let begin = header.size();
        if offset.0 < begin {
            return Err(ReadError::OffsetOutOfBounds(offset.0 as u64));
        }
        let mut input = header.body.duplicate();
        match input.skip(offset.0 - begin) {
            Ok(()) => Ok(EntriesRaw {
                input,
                abbreviations,
                fields: &header.fields,
                start: header.offset.0,
                open_lists: 0,
            }),
            Err(_) => Err(ReadError::OffsetOutOfBounds(offset.0 as u64)),
        }
    }

    /// Whether all rows were read.
    pub fn is_empty(&self) -> bool
        ensures { IsTrue result ↔ (length (left (R.reading self.now.input)) ≡ 0) }
    {
        self.input.len() == 0
    }

    /// The place in the unit of the next row.
    pub fn next_offset(&self) -> UnitOffset
        ensures { result.0 ≡ (R.reading self.now.input).place - self.now.start }
    {
        UnitOffset(self.input.place().saturating_sub(self.start))
    }

    /// The declaration of the next row's entry, or None for a null entry. Its attributes are next:
    /// `skip_attributes` passes them.
    pub fn read_abbreviation(&mut self) -> ReadResult<Option<&'a Abbreviation>>
        ensures { ReadsAbbreviation R.reading self.old self.new result }
    {
        let mut after = self.input.duplicate();
        let abbreviations = self.abbreviations;
        match read_code(abbreviations, &mut after)? {
            Some(abbreviation) => {
                self.open_lists = deeper(abbreviation.has_children(), self.open_lists);
                self.input = after;
                Ok(Some(abbreviation))
            }
            None => {
                self.open_lists = shallower(self.open_lists);
                self.input = after;
                Ok(None)
            }
        }
    }

    /// Passes the attributes of an entry whose declaration was read.
    pub fn skip_attributes(&mut self, abbreviation: &Abbreviation) -> ReadResult<()>
        ensures { SkipsAttributes R.reading self.old self.new abbreviation.now result }
    {
        let mut after = self.input.duplicate();
        pass_attributes(&mut after, self.fields.encoding, abbreviation.attributes())?;
        self.input = after;
        Ok(())
    }

    /// Reads the next row. False tells that it is a null entry, and the entry is as before. After
    /// an error the entry may have lost its attributes.
    pub fn read_entry(&mut self, entry: &mut DebuggingInformationEntry<R>) -> ReadResult<bool>
        ensures { ReadsRow R.reading self.old self.new entry.old entry.new result }
    {
        let offset = self.next_offset();
        let mut after = self.input.duplicate();
        let Some(abbreviation) = read_code(self.abbreviations, &mut after)? else {
            self.open_lists = shallower(self.open_lists);
            self.input = after;
            return Ok(false);
        };
        let encoding = self.fields.encoding;
        read_attributes(
            &mut after,
            encoding,
            abbreviation.attributes(),
            &mut entry.attrs,
        )?;
        entry.offset = offset;
        entry.depth = shown_depth(self.open_lists);
        entry.tag = abbreviation.tag();
        entry.has_children = abbreviation.has_children();
        self.open_lists = deeper(abbreviation.has_children(), self.open_lists);
        self.input = after;
        Ok(true)
    }
}

/// Reads the code of a row, and looks its declaration up. None is a null entry.
fn read_code<'a, R: Reader>(
    abbreviations: &'a Abbreviations,
    input: &mut R,
) -> ReadResult<Option<&'a Abbreviation>>
    ensures ok { IfOk result (HasCode abbreviations.now
        (R.reading input.old) (R.reading input.new)) }
    ensures err { IfErr result (NoCode abbreviations.now (R.reading input.old)) }
{
    let code = input.read_uleb128()?;
    if code == 0 {
        return Ok(None);
    }
    let Some(abbreviation) = abbreviations.get(code) else {
        return Err(ReadError::UnknownAbbreviation(code));
    };
    Ok(Some(abbreviation))
}

/// How many lists of children are open after an entry.
fn deeper(has_children: bool, lists: usize) -> usize
    ensures { result ≡ deeper has_children lists }
{
    if has_children {
        lists.saturating_add(1)
    } else {
        lists
    }
}

/// How many lists of children are open after the zero that closes one.
fn shallower(lists: usize) -> usize
    ensures { result ≡ lists - 1 }
{
    lists.saturating_sub(1)
}

/// The depth of a row as callers see it.
fn shown_depth(lists: usize) -> isize
    ensures { result ≡ shown_depth lists }
{
    lists.min(isize::MAX as usize) as isize
}
