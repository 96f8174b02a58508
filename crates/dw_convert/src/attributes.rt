//! The attributes of an entry.

ghost use Rattle.std.specs.Prelude.{◌≡◌, ◌⊎◌, IfOk, IfErr, map};
ghost use Rattle.dw_sources.specs.declared.convert_error.ConvertError.TheVariants.{NoMemory};
ghost use Rattle.dw_convert.specs.Attributes.{seen};
ghost use Rattle.dw_convert.specs.AttributeLists.{AreConverted, RefusesAttribute};
ghost use Rattle.dw_convert.specs.Tables.{tables};

use crate::attribute::convert_attribute_value;
use crate::once::once;
use crate::references::ConvertDebugInfoRef;
use dw_base::{Address, DwAt, FileId};
use dw_entries::AttributeValue;
use dw_lists::{LocationListTable, RangeListTable};
use dw_read::{Attribute, Reader};
use dw_read_units::UnitRef;
use dw_sources::{ConvertResult, is_dropped};
use dw_strings::{LineStringTable, StringTable};
use std::alloc::Global;

/// Converts the attributes of an entry of a unit that is read, in their order, each as
/// `convert_attribute_value` does. Those of dropped names are left out, and of several of one name
/// the last value stands, in the place of the first. An error of one attribute ends all; the tables
/// may then have what those before it named.
///
/// ```
/// for (name, value) in convert_attributes(
///     alloc, unit, &files, &entry.attrs, &address, &refs,
///     &mut strings, &mut line_strings, &mut ranges, &mut locations,
/// )? {
///     written.set(name, value)?;
/// }
/// ```
pub fn convert_attributes<R: Reader, C: ConvertDebugInfoRef, F: Fn(u64) -> Option<Address>>(
    alloc: Global,
    unit: UnitRef<'_, R>,
    files: &[FileId],
    attributes: &[Attribute<R>],
    convert_address: &F,
    refs: &C,
    strings: &mut StringTable,
    line_strings: &mut LineStringTable,
    ranges: &mut RangeListTable,
    locations: &mut LocationListTable,
) -> ConvertResult<Vec<(DwAt, AttributeValue)>>
    requires { F.IsAlwaysCallable convert_address.now }
    ensures ok { IfOk result (λ v. AreConverted R.reading (F.post convert_address.now)
        (C.entries refs.now) (C.infos refs.now) unit.entry files.now
        (map (seen R.reading) attributes.now)
        (tables strings.old line_strings.old ranges.old locations.old) v.items
        (tables strings.new line_strings.new ranges.new locations.new)) }
    ensures err { IfErr result (λ e. (e ≡ NoMemory) ⊎ RefusesAttribute R.reading
        (F.post convert_address.now) (C.entries refs.now) (C.infos refs.now) unit.entry files.now
        (map (seen R.reading) attributes.now)
        (tables strings.old line_strings.old ranges.old locations.old) e) }
{
    let mut converted = Vec::new(alloc);
    'attributes: for attribute in attributes {
        if is_dropped(attribute.name()) {
            continue;
        }
        let value = convert_attribute_value(
            alloc,
            unit,
            files,
            attribute,
            convert_address,
            refs,
            strings,
            line_strings,
            ranges,
            locations,
        )?;
        converted.push((attribute.name(), value))?;
    }
    once(alloc, converted)
}
