//! The fields of a line, each taken from the front of those that are left. After an error the
//! fields are not read on.

ghost use Rattle.std.specs.Prelude.{◌≡◌, ◌^◌, Ok, Err, MatchResult, option_map};
ghost use Rattle.dw_ends.specs.Fields.{all_printable, byte_order_field, end_of_fields, line_fields, next_field, number_field, passed_over, with_rest};
ghost use Rattle.dw_ends.specs.Pieces.{pieces_left};

use crate::digits::number;
use crate::pieces::Pieces;
use crate::reason::Reason;
use dw_base::RunTimeEndian;

/// The fields of a line, cut at each space, or `None` where it is passed over: it is empty, or a
/// remark. A byte outside printable ASCII is `BadByte`.
pub fn line_fields(line: &[u8]) -> Result<Option<Pieces<'_>>, Reason>
    ensures { MatchResult result
        (λ fields. line_fields line.now ≡ Ok (option_map pieces_left fields))
        (λ reason. line_fields line.now ≡ Err reason) }
{
    if is_passed_over(line) {
        return Ok(None);
    }
    if !is_printable(line) {
        return Err(Reason::BadByte);
    }
    Ok(Some(Pieces::new(line, b' ')))
}

// Whether a line is empty or a remark.
fn is_passed_over(line: &[u8]) -> bool
    ensures { result ≡ passed_over line.now }
{
    match line {
        [] => true,
        [first, ..] => *first == b'#',
    }
}

// Whether all bytes are of printable ASCII. It goes on past a bad one, so that the processor can
// look at several bytes at once.
fn is_printable(line: &[u8]) -> bool
    ensures { result ≡ all_printable line.now }
{
    let mut printable = true;
    for byte in line {
        printable &= 0x20 <= *byte && *byte <= 0x7e;
    }
    printable
}

/// Any field, as it stands; `WrongFields` where none is left.
pub fn next_field<'a>(fields: &mut Pieces<'a>) -> Result<&'a [u8], Reason>
    ensures { MatchResult result
        (λ field. next_field (pieces_left fields.old) ≡ Ok (field.now, pieces_left fields.new))
        (λ reason. next_field (pieces_left fields.old) ≡ Err reason) }
{
    fields.next().ok_or(Reason::WrongFields)
}

/// A number below 2^64, or else `BadNumber`; `WrongFields` where no field is left.
pub fn next_u64(fields: &mut Pieces<'_>) -> Result<u64, Reason>
    ensures { with_rest result (pieces_left fields.new) ≡
        number_field (2 ^ 64) (pieces_left fields.old) }
{
    number(next_field(fields)?).ok_or(Reason::BadNumber)
}

/// A byte order, by its word, or else `UnknownWord`; `WrongFields` where no field is left.
pub fn next_byte_order(fields: &mut Pieces<'_>) -> Result<RunTimeEndian, Reason>
    ensures { with_rest result (pieces_left fields.new) ≡
        byte_order_field (pieces_left fields.old) }
{
    match next_field(fields)? {
        b"little" => Ok(RunTimeEndian::Little),
        b"big" => Ok(RunTimeEndian::Big),
        _ => Err(Reason::UnknownWord),
    }
}

/// The end of the line: no field is left over, or else `WrongFields`.
pub fn expect_end(fields: &mut Pieces<'_>) -> Result<(), Reason>
    ensures { result ≡ end_of_fields (pieces_left fields.old) }
{
    match fields.next() {
        None => Ok(()),
        Some(_) => Err(Reason::WrongFields),
    }
}
