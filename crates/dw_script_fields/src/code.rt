//! Tags, names of attributes and codes of operations: numbers, or names that the standard gives
//! numbers.

ghost use Rattle.std.specs.Prelude.{◌≡◌, ◌^◌};
ghost use Rattle.dw_script_fields.specs.Codes.{attribute_of, begins_with_digit, code_in, opcode_of, tag_of};
ghost use Rattle.dw_script_fields.specs.Spelled.{spelled};

use crate::names::{ATTRIBUTE_NAMES, OPCODE_NAMES, TAG_NAMES};
use crate::number::{parse_u8, parse_u16};
use crate::table::find_name;
use dw_ends::Reason;

/// The tag that a field says.
pub(crate) fn parse_tag(field: &[u8]) -> Result<u16, Reason>
    ensures { result ≡ tag_of field.now }
{
    parse_code(&TAG_NAMES, field)
}

/// The name of an attribute that a field says.
pub(crate) fn parse_attribute(field: &[u8]) -> Result<u16, Reason>
    ensures { result ≡ attribute_of field.now }
{
    parse_code(&ATTRIBUTE_NAMES, field)
}

/// The code of an operation without operands that a field says.
pub(crate) fn parse_opcode(field: &[u8]) -> Result<u8, Reason>
    ensures { result ≡ opcode_of field.now }
{
    parse_byte_code(&OPCODE_NAMES, field)
}

fn parse_code(names: &[(&[u8], u16)], field: &[u8]) -> Result<u16, Reason>
    ensures { result ≡ code_in (2 ^ 16) (spelled names.now) field.now }
{
    if is_number(field) {
        return parse_u16(field).ok_or(Reason::BadNumber);
    }
    find_name(names, field).ok_or(Reason::UnknownWord)
}

fn parse_byte_code(names: &[(&[u8], u8)], field: &[u8]) -> Result<u8, Reason>
    ensures { result ≡ code_in (2 ^ 8) (spelled names.now) field.now }
{
    if is_number(field) {
        return parse_u8(field).ok_or(Reason::BadNumber);
    }
    find_name(names, field).ok_or(Reason::UnknownWord)
}

// Whether a field begins with a digit.
fn is_number(field: &[u8]) -> bool
    ensures { result ≡ begins_with_digit field.now }
{
    match field {
        [] => false,
        [first, ..] => b'0' <= *first && *first <= b'9',
    }
}
