//! How the entries of call frame sections begin (DWARF 5, 6.4.1 and 7.24).

ghost use Rattle.std.specs.Prelude.{◌≡◌, IfOk, IfErr, IfSome, OnOk, Err, ◌<◌};
ghost use Rattle.dw_read.specs.Reading.{left};
ghost use Rattle.dw_read.specs.Took.{Took, option_of};
ghost use Rattle.dw_read_frames.specs.Heads.{head_read, owner_read, cie_number, id_width};
ghost use Rattle.dw_read_frames.specs.HeadViews.{head_of, IsBody};

use dw_base::Format;
use dw_read::{ReadError, ReadResult, Reader};

/// An entry up to the field that tells a CIE from an FDE.
#[derive(Drop)]
pub(crate) struct Head<R: Reader> {
    /// The entry's place in the section.
    pub(crate) offset: usize,
    pub(crate) format: Format,
    /// The place of the CIE that an FDE belongs to; a CIE has none.
    pub(crate) cie: Option<usize>,
    /// What follows the field in the entry.
    pub(crate) body: R,
}

/// Reads how the entry at the reader's place begins, and passes the entry. None is the zero length
/// that ends `.eh_frame`.
pub(crate) fn read_head<R: Reader>(input: &mut R, is_eh: bool) -> ReadResult<Option<Head<R>>>
    ensures ok { IfOk result (λ h. Took _
        (head_read is_eh (R.reading input.old).is_big (R.reading input.old).place)
        (R.reading input.old) (R.reading input.new) (option_of (head_of R.reading) h)) }
    ensures offset { IfOk result (λ h. IfSome h
        (λ x. x.offset ≡ (R.reading input.old).place)) }
    ensures body { IfOk result (λ h. IfSome h
        (λ x. IsBody (R.reading input.old) (R.reading input.new) (R.reading x.body))) }
    ensures progress { OnOk result
        ((R.reading input.old).place < (R.reading input.new).place) }
    ensures err { IfErr result (λ e.
        head_read is_eh (R.reading input.old).is_big (R.reading input.old).place
        (left (R.reading input.old)) ≡ Err e) }
{
    let offset = input.place();
    let (length, format) = input.read_initial_length()?;
    if is_eh && length == 0 {
        return Ok(None);
    }
    let mut body = input.split(length)?;
    let cie = read_owner(&mut body, is_eh, format)?;
    Ok(Some(Head {
        offset,
        format,
        cie,
        body,
    }))
}

/// Reads the field that is a CIE's id, or that leads from an FDE to its CIE.
fn read_owner<R: Reader>(input: &mut R, is_eh: bool, format: Format) -> ReadResult<Option<usize>>
    ensures ok { IfOk result (λ c. Took _
        (owner_read is_eh (R.reading input.old).is_big format (R.reading input.old).place)
        (R.reading input.old) (R.reading input.new) c) }
    ensures err { IfErr result (λ e.
        owner_read is_eh (R.reading input.old).is_big format (R.reading input.old).place
        (left (R.reading input.old)) ≡ Err e) }
{
    let place = input.place();
    let field = input.read_uint(id_width(is_eh, format))?;
    if field == cie_number(is_eh, format) {
        return Ok(None);
    }
    if !is_eh {
        return Ok(Some(field as usize));
    }
    if field > place as u64 {
        return Err(ReadError::InvalidCiePointer(field));
    }
    Ok(Some(place - field as usize))
}

/// The bytes of that field.
fn id_width(is_eh: bool, format: Format) -> usize
    ensures { result ≡ id_width is_eh format }
{
    if is_eh {
        return 4;
    }
    match format {
        Format::Dwarf32 => 4,
        Format::Dwarf64 => 8,
    }
}

/// The number that a CIE has there.
fn cie_number(is_eh: bool, format: Format) -> u64
    ensures { result ≡ cie_number is_eh format }
{
    if is_eh {
        return 0;
    }
    match format {
        Format::Dwarf32 => 0xffff_ffff,
        Format::Dwarf64 => u64::MAX,
    }
}
