//! Texts in sections of strings (DWARF 5, 7.26).

ghost use Rattle.std.specs.Prelude.{◌≡◌, ◌==◌, IfOk, IfErr, Ok, Err, position};
ghost use Rattle.dw_base.specs.Spellable.{IsText};
ghost use Rattle.dw_read.specs.Reading.{left};
ghost use Rattle.dw_convert_lines.specs.EntryNames.{text_in, ended};

use dw_read::{ReadResult, Reader};

/// The text at an offset of a section, without the zero that closes it.
pub(crate) fn text_in<R: Reader>(section: &R, offset: usize) -> ReadResult<R>
    ensures ok { IfOk result
        (λ text. text_in (left (R.reading section.now)) offset ≡ Ok (left (R.reading text))) }
    ensures text { IfOk result (λ text. IsText (left (R.reading text))) }
    ensures err { IfErr result (λ e. text_in (left (R.reading section.now)) offset ≡ Err e) }
{
    let mut input = section.duplicate();
    input.skip(offset)?;
    input.read_null_terminated()
}

/// The bytes before the first zero.
pub(crate) fn ended(bytes: &[u8]) -> &[u8]
    ensures is { result.now ≡ ended bytes.now }
    ensures text { IsText result.now }
{
    match first_zero(bytes) {
        Some(end) => &bytes[..end],
        None => bytes,
    }
}

/// Where the first zero is.
fn first_zero(bytes: &[u8]) -> Option<usize>
    ensures { result ≡ position (λ b. b == 0) bytes.now }
{
    bytes.iter().position(|byte| *byte == 0)
}
