//! What stands at offsets of sections.

ghost use Rattle.std.specs.Prelude.{◌≡◌, ◌-◌, ◌^◌, min, IfOk, IfErr};
ghost use Rattle.dw_base.specs.Numbers.{number_at, word_of};
ghost use Rattle.dw_base.specs.Forms.{text_at};
ghost use Rattle.dw_read.specs.Reading.{left};
ghost use Rattle.dw_read.specs.Reasons.{text_read, number_read, address_at, address_read};
ghost use Rattle.dw_read_units.specs.Lookups.{IsFrom, StandsAt, IsMissing};
ghost use Rattle.dw_read_units.specs.Lookups.{indexed, FindsList, MissesList};

use dw_base::Format;
use dw_read::{ReadError, ReadResult, Reader};

/// A reader of a section from an offset on; past its end it reads nothing.
pub(crate) fn section_from<R: Reader>(section: &R, offset: usize) -> R
    ensures { IsFrom offset (R.reading section.now) (R.reading result) }
{
    let mut input = section.duplicate();
    let passed = offset.min(input.len());
    match input.skip(passed) {
        Ok(()) => input,
        Err(_) => input,
    }
}

/// The text at an offset of a section.
pub(crate) fn text_from<R: Reader>(section: &R, offset: usize) -> ReadResult<R>
    ensures ok { IfOk result (λ r.
        StandsAt _ text_at offset (R.reading section.now) (left (R.reading r))) }
    ensures err { IfErr result (IsMissing _ text_at text_read offset (R.reading section.now)) }
{
    let mut input = section_from(section, offset);
    let text = input.read_null_terminated()?;
    Ok(text)
}

/// The word at an offset of a section.
pub(crate) fn word_from<R: Reader>(section: &R, offset: usize, format: Format) -> ReadResult<usize>
    ensures ok { IfOk result (StandsAt _
        (number_at (R.reading section.now).is_big (word_of format))
        offset (R.reading section.now)) }
    ensures err { IfErr result (IsMissing _
        (number_at (R.reading section.now).is_big (word_of format))
        (number_read (R.reading section.now).is_big (word_of format))
        offset (R.reading section.now)) }
{
    let mut input = section_from(section, offset);
    let word = input.read_word(format)?;
    Ok(word)
}

/// The address at an offset of a section.
pub(crate) fn address_from<R: Reader>(section: &R, offset: usize, size: u8) -> ReadResult<u64>
    ensures ok { IfOk result (StandsAt _
        (address_at (R.reading section.now).is_big size) offset (R.reading section.now)) }
    ensures err { IfErr result (IsMissing _
        (address_at (R.reading section.now).is_big size)
        (address_read (R.reading section.now).is_big size)
        offset (R.reading section.now)) }
{
    let mut input = section_from(section, offset);
    let address = input.read_address(size)?;
    Ok(address)
}

/// The word of an index behind a base.
pub(crate) fn indexed_word<R: Reader>(
    section: &R,
    base: usize,
    index: u64,
    format: Format,
) -> ReadResult<usize>
    ensures ok { IfOk result (StandsAt _
        (number_at (R.reading section.now).is_big (word_of format))
        (indexed base index (word_of format)) (R.reading section.now)) }
    ensures err { IfErr result (IsMissing _
        (number_at (R.reading section.now).is_big (word_of format))
        (number_read (R.reading section.now).is_big (word_of format))
        (indexed base index (word_of format)) (R.reading section.now)) }
{
    let word = word_from(
        section,
        indexed_place(base, index, format.word_size()),
        format,
    )?;
    Ok(word)
}

/// The address of an index behind a base.
pub(crate) fn indexed_address<R: Reader>(
    section: &R,
    base: usize,
    index: u64,
    size: u8,
) -> ReadResult<u64>
    ensures ok { IfOk result (StandsAt _
        (address_at (R.reading section.now).is_big size)
        (indexed base index size) (R.reading section.now)) }
    ensures err { IfErr result (IsMissing _
        (address_at (R.reading section.now).is_big size)
        (address_read (R.reading section.now).is_big size)
        (indexed base index size) (R.reading section.now)) }
{
    let address = address_from(section, indexed_place(base, index, size), size)?;
    Ok(address)
}

/// The place of the list of an index: the offset that stands there counts from the base.
pub(crate) fn indexed_list<R: Reader>(
    section: &R,
    base: usize,
    index: u64,
    format: Format,
) -> ReadResult<usize>
    ensures ok { IfOk result
        (FindsList (word_of format) base index (R.reading section.now)) }
    ensures err { IfErr result
        (MissesList (word_of format) base index (R.reading section.now)) }
{
    let offset = indexed_word(section, base, index, format)?;
    match base.checked_add(offset) {
        Some(place) => Ok(place),
        None => Err(ReadError::OffsetOutOfBounds(offset as u64)),
    }
}

/// The place of an index behind a base, where items have a width; at most the greatest number.
fn indexed_place(base: usize, index: u64, width: u8) -> usize
    ensures { result ≡ min (indexed base index width) (2 ^ 64 - 1) }
{
    let distance = index.saturating_mul(width as u64) as usize;
    distance.saturating_add(base)
}
