//! The headers of a section's units, one after the other (DWARF 5, 7.5.1).

ghost use Rattle.std.specs.Prelude.{◌≡◌, ◌↔◌, IsTrue, IfOk, IfErr, Err, unwrap_or};
ghost use Rattle.dw_base.specs.declared.constants.TheConstants.{DW_UT_compile};
ghost use Rattle.dw_read.specs.Reading.{left};
ghost use Rattle.dw_read.specs.Headers.{header_read};
ghost use Rattle.dw_read.specs.UnitHeaders.{IsHeaderRead, ReadsHeader, starts_at};
ghost use Rattle.dw_read.specs.UnitHeaders.{header_size, IsInside};

use crate::error::{ReadError, ReadResult};
use crate::fields::Fields;
use crate::header::read_fields;
use crate::reader::Reader;
use dw_base::constants::DW_UT_compile;
use dw_base::{DebugAbbrevOffset, DebugInfoOffset, DwUt, Encoding, UnitOffset};

/// The header of a unit, with what follows it in the unit.
///
/// ```
/// if header.unit_type() == DW_UT_type {
///     let signature = header.identity(); // `Some`
/// }
/// ```
#[derive(Drop)]
pub struct UnitHeader<R: Reader> {
    pub(crate) offset: DebugInfoOffset,
    pub(crate) fields: Fields,
    pub(crate) body: R,
}

impl<R: Reader> UnitHeader<R> {
    /// The place of the unit in `.debug_info`.
    pub fn offset(&self) -> DebugInfoOffset
        ensures { result ≡ self.now.offset }
    {
        self.offset
    }

    /// How the unit's values are encoded.
    pub fn encoding(&self) -> Encoding
        ensures { result ≡ self.now.fields.encoding }
    {
        self.fields.encoding
    }

    /// The bytes of the header, which are the offset of the unit's first row.
    pub fn size(&self) -> usize
        ensures { result ≡ header_size R.reading self.now }
    {
        self.body.place().saturating_sub(self.offset.0)
    }

    /// Whether an offset lies behind the header, and in the unit.
    pub fn contains(&self, offset: UnitOffset) -> bool
        ensures { IsTrue result ↔ IsInside R.reading self.now offset.0 }
    {
        let begin = self.size();
        offset.0 >= begin && offset.0 - begin < self.body.len()
    }

    /// The place of the unit's abbreviation table in `.debug_abbrev`.
    pub fn debug_abbrev_offset(&self) -> DebugAbbrevOffset
        ensures { result.0 ≡ self.now.fields.table_offset }
    {
        DebugAbbrevOffset(self.fields.table_offset)
    }

    /// The eight bytes after the offset that some types of unit have: the id of a skeleton or a
    /// split compile unit, or a type unit's signature.
    pub fn identity(&self) -> Option<u64>
        ensures { result ≡ self.now.fields.identity }
    {
        self.fields.identity
    }

    /// The unit's type. Below version 5 a header tells none, and it is compile.
    pub fn unit_type(&self) -> DwUt
        ensures { result ≡ unwrap_or self.now.fields.unit_type DW_UT_compile }
    {
        self.fields.unit_type.unwrap_or(DW_UT_compile)
    }
}

/// The headers of the units of `.debug_info`, without their entries.
///
/// ```
/// let mut headers = UnitHeadersIter::new(debug_info);
/// while let Some(header) = headers.next()? {
///     let version = header.encoding().version;
/// }
/// ```
#[derive(Drop)]
pub struct UnitHeadersIter<R: Reader> {
    pub(crate) input: R,
    pub(crate) has_failed: bool,
}

impl<R: Reader> UnitHeadersIter<R> {
    /// The headers of the units of a section, from the reader's place on.
    pub fn new(section: R) -> UnitHeadersIter<R>
        ensures { result ≡ starts_at section }
    {
        UnitHeadersIter {
            input: section,
            has_failed: false,
        }
    }

    /// The next header. None comes at the section's end, and once an error was answered.
    pub fn next(&mut self) -> ReadResult<Option<UnitHeader<R>>>
        ensures { ReadsHeader R.reading self.old self.new result }
    {
        if self.has_failed || self.input.len() == 0 {
            return Ok(None);
        }
        let mut after = self.input.duplicate();
        match read_header(&mut after) {
            Ok(header) => {
                self.input = after;
                Ok(Some(header))
            }
            Err(error) => {
                self.has_failed = true;
                Err(error)
            }
        }
    }
}

/// Reads the header of the unit at the reader's place, and passes the unit.
fn read_header<R: Reader>(input: &mut R) -> ReadResult<UnitHeader<R>>
    ensures ok { IfOk result (IsHeaderRead R.reading (R.reading input.old) (R.reading input.new)) }
    ensures err { IfErr result (λ e. header_read (R.reading input.old).is_big
        (left (R.reading input.old)) ≡ Err e) }
{
    let offset = DebugInfoOffset(input.place());
    let (length, format) = input.read_initial_length()?;
    let mut body = input.split(length)?;
    let fields = read_fields(&mut body, format)?;
    Ok(UnitHeader {
        offset,
        fields,
        body,
    })
}
