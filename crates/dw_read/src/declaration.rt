//! Reads the declarations of abbreviation tables (DWARF 5, 7.5.3).

ghost use Rattle.std.specs.Prelude.{◌≡◌, ◌⊎◌, IfOk, IfErr, Ok, Err, map};
ghost use Rattle.dw_base.specs.Abbreviations.{Declaration, Shape, Specification};
ghost use Rattle.dw_read.specs.Reading.{left};
ghost use Rattle.dw_read.specs.Took.{Took, RefusesOrFull, option_of};
ghost use Rattle.dw_read.specs.Reasons.{uleb16_read};
ghost use Rattle.dw_read.specs.Declarations.{constant_read, specification_read};
ghost use Rattle.dw_read.specs.Declarations.{specifications_read};
ghost use Rattle.dw_read.specs.Declarations.{children_read, shape_read};
ghost use Rattle.dw_read.specs.Specifications.{specification_of};

use crate::abbreviation::{Abbreviation, AttributeSpecification};
use crate::error::{ReadError, ReadResult};
use crate::reader::Reader;
use dw_base::constants::DW_FORM_implicit_const;
use dw_base::{DwAt, DwForm, DwTag};
use std::alloc::Global;

/// Reads a number of 16 bits: a tag, a name or a form.
pub(crate) fn read_uleb16<R: Reader>(input: &mut R) -> ReadResult<u16>
    ensures ok { IfOk result (Took _ uleb16_read
        (R.reading input.old) (R.reading input.new)) }
    ensures err { IfErr result (λ e. uleb16_read (left (R.reading input.old)) ≡ Err e) }
{
    let value = input.read_uleb128()?;
    if value > 0xffff {
        return Err(ReadError::BadLeb128);
    }
    Ok(value as u16)
}

/// Reads the constant that the form implicit_const alone has.
fn read_constant<R: Reader>(input: &mut R, form: DwForm) -> ReadResult<Option<i64>>
    ensures ok { IfOk result (Took _ (constant_read form.0)
        (R.reading input.old) (R.reading input.new)) }
    ensures err { IfErr result (λ e. constant_read form.0 (left (R.reading input.old)) ≡ Err e) }
{
    if form.0 != DW_FORM_implicit_const.0 {
        return Ok(None);
    }
    let constant = input.read_sleb128()?;
    Ok(Some(constant))
}

/// Reads an attribute of a declaration, or None for the two zeros that close it.
fn read_specification<R: Reader>(input: &mut R) -> ReadResult<Option<AttributeSpecification>>
    ensures ok { IfOk result (λ s. Took _ specification_read
        (R.reading input.old) (R.reading input.new) (option_of specification_of s)) }
    ensures err { IfErr result (λ e. specification_read (left (R.reading input.old)) ≡ Err e) }
{
    let name = read_uleb16(input)?;
    let form = read_uleb16(input)?;
    if name == 0 {
        if form != 0 {
            return Err(ReadError::AttributeNameZero);
        }
        return Ok(None);
    }
    let constant = read_constant(input, DwForm(form))?;
    Ok(Some(AttributeSpecification {
        name: DwAt(name),
        form: DwForm(form),
        implicit_const_value: constant,
    }))
}

/// Reads the attributes of a declaration.
fn read_specifications<R: Reader>(
    alloc: Global,
    input: &mut R,
) -> ReadResult<Vec<AttributeSpecification>>
    ensures ok { IfOk result (λ s. Took _ specifications_read
        (R.reading input.old) (R.reading input.new) (map specification_of s.items)) }
    ensures err { IfErr result (RefusesOrFull _ specifications_read (R.reading input.old)) }
{
    let mut specifications = Vec::new(alloc);
    'attributes: loop {
        let Some(specification) = read_specification(input)? else {
            return Ok(specifications);
        };
        specifications.push(specification)?;
    }
}

/// Reads the byte that says whether entries have children.
fn read_has_children<R: Reader>(input: &mut R) -> ReadResult<bool>
    ensures ok { IfOk result (Took _ children_read
        (R.reading input.old) (R.reading input.new)) }
    ensures err { IfErr result (λ e. children_read (left (R.reading input.old)) ≡ Err e) }
{
    let byte = input.read_u8()?;
    match byte {
        0 => Ok(false),
        1 => Ok(true),
        _ => Err(ReadError::BadHasChildren(byte)),
    }
}

/// Reads what stands in a declaration after its code.
pub(crate) fn read_shape<R: Reader>(
    alloc: Global,
    input: &mut R,
    code: u64,
) -> ReadResult<Abbreviation>
    ensures ok { IfOk result (λ a. Took _ shape_read
        (R.reading input.old) (R.reading input.new) a.shape) }
    ensures code { IfOk result (λ a. a.code ≡ code) }
    ensures err { IfErr result (RefusesOrFull _ shape_read (R.reading input.old)) }
{
    let tag = read_uleb16(input)?;
    if tag == 0 {
        return Err(ReadError::AbbreviationTagZero);
    }
    let has_children = read_has_children(input)?;
    let attributes = read_specifications(alloc, input)?;
    Ok(Abbreviation {
        code,
        tag: DwTag(tag),
        has_children,
        attributes,
    })
}
