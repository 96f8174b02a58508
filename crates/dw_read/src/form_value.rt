//! Values outside of entries (DWARF 5, 6.2.4.1).

ghost use Rattle.std.specs.Prelude.{◌≡◌, ◌≤◌, IfOk, IfErr, Err};
ghost use Rattle.dw_read.specs.Reading.{left};
ghost use Rattle.dw_read.specs.Took.{Took};
ghost use Rattle.dw_read.specs.FormValues.{value_read};
ghost use Rattle.dw_read.specs.Values.{value_of};
ghost use Rattle.dw_read.specs.Orders.{value_order, IsInOrder};

use crate::attribute::Attribute;
use crate::error::ReadResult;
use crate::operand::read_form;
use crate::reader::Reader;
use crate::value::AttributeValue;
use dw_base::{DwAt, DwForm, Encoding};

/// Reads the value of a form, and passes it, where no name and no declaration goes along with it.
/// After an error the reader may have passed bytes.
pub fn read_value<R: Reader>(
    input: &mut R,
    encoding: Encoding,
    form: DwForm,
) -> ReadResult<AttributeValue<R>>
    requires { encoding.address_size ≤ 8 }
    ensures ok { IfOk result (λ v. Took _
        (value_read (R.reading input.old).is_big encoding form.0)
        (R.reading input.old) (R.reading input.new) (value_of R.reading v)) }
    ensures order { IfOk result (λ v.
        IsInOrder (R.reading input.old).is_big (value_order R.reading v)) }
    ensures err { IfErr result (λ e. value_read (R.reading input.old).is_big encoding form.0
        (left (R.reading input.old)) ≡ Err e) }
{
    let (form, operand) = read_form(input, encoding, form)?;
    let attribute = Attribute {
        name: DwAt(0),
        form,
        constant: None,
        encoding,
        operand,
    };
    Ok(attribute.raw_value())
}
