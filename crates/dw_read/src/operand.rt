//! What stands for attributes in entries, as it is read by their forms (DWARF 5, 7.5.6).

ghost use Rattle.std.specs.Prelude.{◌≡◌, ◌≤◌, IfOk, IfErr, Err};
ghost use Rattle.dw_read.specs.Reading.{left};
ghost use Rattle.dw_read.specs.Took.{Took};
ghost use Rattle.dw_read.specs.Kinds.{kind_in_grammar, width_of};
ghost use Rattle.dw_read.specs.Operands.{operand_of, formed};
ghost use Rattle.dw_read.specs.Orders.{operand_order, IsInOrder};
ghost use Rattle.dw_read.specs.FormReasons.{direct_read, indirect_read, form_read};

use crate::declaration::read_uleb16;
use crate::error::{ReadError, ReadResult};
use crate::kind::{Kind, kind_of};
use crate::reader::Reader;
use dw_base::constants::{DW_FORM_implicit_const, DW_FORM_indirect};
use dw_base::{DwForm, Encoding};

/// What stands for an attribute. Bytes are parts of the section.
#[derive(Drop)]
pub(crate) enum Operand<R: Reader> {
    Absent,
    /// A number of at most sixteen bytes.
    Number(u128),
    Signed(i64),
    Bytes(R),
    Text(R),
}

/// Reads the operand of a form, with the form in which it stands: the declared one, or the one
/// that indirect leads to.
pub(crate) fn read_form<R: Reader>(
    input: &mut R,
    encoding: Encoding,
    form: DwForm,
) -> ReadResult<(DwForm, Operand<R>)>
    requires { encoding.address_size ≤ 8 }
    ensures ok { IfOk result (λ x. Took _ (form_read (R.reading input.old).is_big encoding form.0)
        (R.reading input.old) (R.reading input.new) (formed R.reading x)) }
    ensures order { IfOk result (λ x.
        IsInOrder (R.reading input.old).is_big (operand_order R.reading x.1)) }
    ensures err { IfErr result (λ e. form_read (R.reading input.old).is_big encoding form.0
        (left (R.reading input.old)) ≡ Err e) }
{
    let Some(kind) = kind_of(encoding, form) else {
        return Err(ReadError::UnknownForm(form));
    };
    match kind {
        Kind::Indirect => read_indirect(input, encoding),
        _ => {
            let operand = read_operand(input, kind)?;
            Ok((form, operand))
        }
    }
}

/// Reads a form, and the operand that stands in it.
fn read_indirect<R: Reader>(input: &mut R, encoding: Encoding) -> ReadResult<(DwForm, Operand<R>)>
    requires { encoding.address_size ≤ 8 }
    ensures ok { IfOk result (λ x. Took _ (indirect_read (R.reading input.old).is_big encoding)
        (R.reading input.old) (R.reading input.new) (formed R.reading x)) }
    ensures order { IfOk result (λ x.
        IsInOrder (R.reading input.old).is_big (operand_order R.reading x.1)) }
    ensures err { IfErr result (λ e. indirect_read (R.reading input.old).is_big encoding
        (left (R.reading input.old)) ≡ Err e) }
{
    let code = read_uleb16(input)?;
    let form = DwForm(code);
    if code == DW_FORM_implicit_const.0 {
        return Err(ReadError::UnknownForm(form));
    }
    let Some(kind) = kind_of(encoding, form) else {
        return Err(ReadError::UnknownForm(form));
    };
    let operand = read_operand(input, kind)?;
    Ok((form, operand))
}

/// Reads an operand that is laid out in one of the kinds but indirect.
fn read_operand<R: Reader>(input: &mut R, kind: Kind) -> ReadResult<Operand<R>>
    requires { width_of kind ≤ 8 }
    ensures ok { IfOk result (λ o. Took _
        (direct_read (R.reading input.old).is_big (kind_in_grammar kind))
        (R.reading input.old) (R.reading input.new) (operand_of R.reading o)) }
    ensures order { IfOk result (λ o.
        IsInOrder (R.reading input.old).is_big (operand_order R.reading o)) }
    ensures err { IfErr result (λ e. direct_read (R.reading input.old).is_big (kind_in_grammar kind)
        (left (R.reading input.old)) ≡ Err e) }
{
    match kind {
        Kind::Empty => Ok(Operand::Absent),
        Kind::Fixed(width) => {
            let number = input.read_uint(width as usize)?;
            Ok(Operand::Number(number as u128))
        }
        Kind::Wide => {
            let number = input.read_u128()?;
            Ok(Operand::Number(number))
        }
        Kind::Uleb => {
            let number = input.read_uleb128()?;
            Ok(Operand::Number(number as u128))
        }
        Kind::Sleb => {
            let number = input.read_sleb128()?;
            Ok(Operand::Signed(number))
        }
        Kind::Block(width) => {
            let length = input.read_uint(width as usize)?;
            let bytes = input.split(length as usize)?;
            Ok(Operand::Bytes(bytes))
        }
        Kind::UlebBlock => {
            let length = input.read_uleb128()?;
            let bytes = input.split(length as usize)?;
            Ok(Operand::Bytes(bytes))
        }
        Kind::Zeroed => {
            let text = input.read_null_terminated()?;
            Ok(Operand::Text(text))
        }
        Kind::Indirect => Err(ReadError::UnknownForm(DW_FORM_indirect)),
    }
}
