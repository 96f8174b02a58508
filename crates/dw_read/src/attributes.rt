//! Reads the attributes of entries, in the order of their declarations (DWARF 5, 7.5.3).

ghost use Rattle.std.specs.Prelude.{◌≡◌, ◌≤◌, IfOk, IfErr, OnOk, Err, map, All, List};
ghost use Rattle.dw_base.specs.Entries.{ReadAttribute};
ghost use Rattle.dw_read.specs.Reading.{left};
ghost use Rattle.dw_read.specs.Took.{Took, RefusesOrFull};
ghost use Rattle.dw_read.specs.Attributes.{attribute_of};
ghost use Rattle.dw_read.specs.Orders.{attribute_order, IsInOrder};
ghost use Rattle.dw_read.specs.Specifications.{specification_of};
ghost use Rattle.dw_read.specs.FormReasons.{attribute_read, attributes_read};

use crate::abbreviation::AttributeSpecification;
use crate::attribute::Attribute;
use crate::error::ReadResult;
use crate::operand::read_form;
use crate::reader::Reader;
use dw_base::Encoding;

/// Reads the attribute of a specification.
pub(crate) fn read_attribute<R: Reader>(
    input: &mut R,
    encoding: Encoding,
    specification: AttributeSpecification,
) -> ReadResult<Attribute<R>>
    requires { encoding.address_size ≤ 8 }
    ensures ok { IfOk result (λ a. Took _ (attribute_read
        (R.reading input.old).is_big encoding (specification_of specification))
        (R.reading input.old) (R.reading input.new) (attribute_of R.reading a)) }
    ensures encoded { IfOk result (λ a. a.encoding ≡ encoding) }
    ensures order { IfOk result (λ a.
        IsInOrder (R.reading input.old).is_big (attribute_order R.reading a)) }
    ensures err { IfErr result (λ e. attribute_read
        (R.reading input.old).is_big encoding (specification_of specification)
        (left (R.reading input.old)) ≡ Err e) }
{
    let (form, operand) = read_form(input, encoding, specification.form)?;
    Ok(Attribute {
        name: specification.name,
        form,
        constant: specification.implicit_const_value,
        encoding,
        operand,
    })
}

/// Reads attributes in place of those that are there.
pub(crate) fn read_attributes<R: Reader>(
    input: &mut R,
    encoding: Encoding,
    specifications: &[AttributeSpecification],
    attrs: &mut Vec<Attribute<R>>,
) -> ReadResult<()>
    requires { encoding.address_size ≤ 8 }
    ensures ok { OnOk result (Took _ (attributes_read
        (R.reading input.old).is_big encoding (map specification_of specifications.now))
        (R.reading input.old) (R.reading input.new)
        (map (attribute_of R.reading) attrs.new.items)) }
    ensures encoded { OnOk result (All (λ a. a.encoding ≡ encoding) attrs.new.items) }
    ensures order { OnOk result (All (λ a.
        IsInOrder (R.reading input.old).is_big (attribute_order R.reading a)) attrs.new.items) }
    ensures err { IfErr result (RefusesOrFull _ (attributes_read
        (R.reading input.old).is_big encoding (map specification_of specifications.now))
        (R.reading input.old)) }
{
    attrs.clear();
    for specification in specifications {
        let attribute = read_attribute(input, encoding, *specification)?;
        attrs.push(attribute)?;
    }
    Ok(())
}

/// Passes attributes.
pub(crate) fn pass_attributes<R: Reader>(
    input: &mut R,
    encoding: Encoding,
    specifications: &[AttributeSpecification],
) -> ReadResult<()>
    requires { encoding.address_size ≤ 8 }
    ensures ok { OnOk result ((xs : List ReadAttribute) × Took _ (attributes_read
        (R.reading input.old).is_big encoding (map specification_of specifications.now))
        (R.reading input.old) (R.reading input.new) xs) }
    ensures err { IfErr result (λ e. attributes_read
        (R.reading input.old).is_big encoding (map specification_of specifications.now)
        (left (R.reading input.old)) ≡ Err e) }
{
    for specification in specifications {
        read_attribute(input, encoding, *specification)?;
    }
    Ok(())
}
