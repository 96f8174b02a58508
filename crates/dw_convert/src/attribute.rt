//! What an attribute becomes, by its form and its value.

ghost use Rattle.std.specs.Prelude.{◌≡◌, ◌⊎◌, IfOk, IfErr, OnErr};
ghost use Rattle.dw_sources.specs.declared.convert_error.ConvertError.TheVariants.{NoMemory};
ghost use Rattle.dw_convert.specs.Attributes.{IsImage, IsRefused, AttributeImage, seen, declared_in};
ghost use Rattle.dw_convert.specs.Images.{image_of, HoldsText};
ghost use Rattle.dw_convert.specs.Tables.{tables};

use crate::file::declared_image;
use crate::image::{Image, store};
use crate::references::ConvertDebugInfoRef;
use crate::value::convert_value;
use dw_base::constants::{DW_FORM_flag_present, DW_FORM_implicit_const};
use dw_base::{Address, FileId};
use dw_entries::AttributeValue;
use dw_lists::{LocationListTable, RangeListTable};
use dw_read::{Attribute, AttributeValue as ReadValue, Reader};
use dw_read_units::UnitRef;
use dw_sources::ConvertResult;
use dw_strings::{LineStringTable, StringTable};
use std::alloc::Global;

/// Converts the value of an attribute of a unit that is read. `files` has the ids of the files of
/// the unit's line program by the numbers that were read. Addresses become what `convert_address`
/// answers for them, and entries what `refs` knows of their places. A string goes into its table,
/// and a list of the unit into that of the unit, where it isn't there yet.
///
/// A number that the declaration holds stays one (`ImplicitConst`), with the number that its file
/// then has where it names one; so does a flag without a byte (`FlagPresent`). An expression under
/// `DW_AT_vtable_elem_location` that begins with `DW_OP_constu` is kept as it is spelled.
///
/// Refused are an address without an answer (`InvalidAddress`), a place of which `refs` knows
/// nothing, a line program that isn't the unit's (`InvalidLineRef`), a file that isn't in the list
/// (`InvalidFileIndex`), a declared number of a file that a constant has no room for
/// (`IntegerOverflow`), a place in a section that isn't known (`InvalidAttributeValue`), and what
/// expressions and lists are refused for. After an error, also for want of memory, the tables are
/// as before.
///
/// ```
/// let value = convert_attribute_value(
///     alloc, unit, &files, attribute, &address, &refs,
///     &mut strings, &mut line_strings, &mut ranges, &mut locations,
/// )?;
/// ```
pub fn convert_attribute_value<R: Reader, C: ConvertDebugInfoRef, F: Fn(u64) -> Option<Address>>(
    alloc: Global,
    unit: UnitRef<'_, R>,
    files: &[FileId],
    attribute: &Attribute<R>,
    convert_address: &F,
    refs: &C,
    strings: &mut StringTable,
    line_strings: &mut LineStringTable,
    ranges: &mut RangeListTable,
    locations: &mut LocationListTable,
) -> ConvertResult<AttributeValue>
    requires { F.IsAlwaysCallable convert_address.now }
    ensures ok { IfOk result (λ v. IsImage R.reading (F.post convert_address.now)
        (C.entries refs.now) (C.infos refs.now) unit.entry files.now
        (seen R.reading attribute.now)
        (tables strings.old line_strings.old ranges.old locations.old) v
        (tables strings.new line_strings.new ranges.new locations.new)) }
    ensures err { IfErr result (λ e. (e ≡ NoMemory) ⊎ IsRefused R.reading
        (F.post convert_address.now) (C.entries refs.now) (C.infos refs.now) unit.entry files.now
        (seen R.reading attribute.now) e) }
    ensures kept { OnErr result (tables strings.new line_strings.new ranges.new locations.new
        ≡ tables strings.old line_strings.old ranges.old locations.old) }
{
    let image = convert_attribute(alloc, unit, files, attribute, convert_address, refs)?;
    store(image, strings, line_strings, ranges, locations)
}

/// What an attribute becomes before strings and lists have their ids.
fn convert_attribute<R: Reader, C: ConvertDebugInfoRef, F: Fn(u64) -> Option<Address>>(
    alloc: Global,
    unit: UnitRef<'_, R>,
    files: &[FileId],
    attribute: &Attribute<R>,
    convert_address: &F,
    refs: &C,
) -> ConvertResult<Image<R>>
    requires { F.IsAlwaysCallable convert_address.now }
    ensures ok { IfOk result (λ i. AttributeImage R.reading (F.post convert_address.now)
        (C.entries refs.now) (C.infos refs.now) unit.entry files.now
        (seen R.reading attribute.now) (image_of R.reading i)) }
    ensures text { IfOk result (λ i. HoldsText (image_of R.reading i)) }
    ensures err { IfErr result (λ e. (e ≡ NoMemory) ⊎ IsRefused R.reading
        (F.post convert_address.now) (C.entries refs.now) (C.infos refs.now) unit.entry files.now
        (seen R.reading attribute.now) e) }
{
    let name = attribute.name();
    if attribute.form().0 == DW_FORM_flag_present.0 {
        return Ok(Image::Value(AttributeValue::FlagPresent));
    }
    match declared_number(attribute) {
        Some(number) => {
            let number = declared_image(unit.encoding().version, files, name, number)?;
            Ok(Image::Value(AttributeValue::ImplicitConst(number)))
        }
        None => {
            let value = attribute.value();
            convert_value(alloc, unit, files, name, value, convert_address, refs)
        }
    }
}

/// The number that the declaration holds for an attribute, where its form says so.
fn declared_number<R: Reader>(attribute: &Attribute<R>) -> Option<i64>
    ensures { result ≡ declared_in (seen R.reading attribute.now) }
{
    if attribute.form().0 != DW_FORM_implicit_const.0 {
        return None;
    }
    match attribute.raw_value() {
        ReadValue::Sdata(number) => Some(number),
        _ => None,
    }
}
