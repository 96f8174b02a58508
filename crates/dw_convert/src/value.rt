//! What a value becomes, by its kind.

ghost use Rattle.std.specs.Prelude.{◌≡◌, ◌⊎◌, IfOk, IfErr, Ok, Err};
ghost use Rattle.dw_read.specs.Orders.{value_order};
ghost use Rattle.dw_read.specs.Values.{value_of};
ghost use Rattle.dw_sources.specs.declared.convert_error.ConvertError.TheVariants.{NoMemory};
ghost use Rattle.dw_convert.specs.Images.{image_of, HoldsText};
ghost use Rattle.dw_convert.specs.PlainValues.{PlainOutcome};
ghost use Rattle.dw_convert.specs.Values.{ValueOutcome, order_or_little, program_image};

use crate::address::{converted, indexed};
use crate::constant::same_value;
use crate::exprloc::convert_exprloc;
use crate::file::convert_file_index;
use crate::image::Image;
use crate::references::ConvertDebugInfoRef;
use crate::source::{
    indexed_locations, indexed_ranges, indexed_string, line_string_at, locations_at, ranges_at,
    string_at,
};
use dw_base::{Address, DebugLineOffset, DwAt, FileId};
use dw_entries::AttributeValue;
use dw_read::{AttributeValue as ReadValue, Reader};
use dw_read_units::UnitRef;
use dw_sources::{ConvertError, ConvertResult};
use std::alloc::Global;

/// What a value under a name becomes, by the table of the values that were read.
pub(crate) fn convert_value<R: Reader, C: ConvertDebugInfoRef, F: Fn(u64) -> Option<Address>>(
    alloc: Global,
    unit: UnitRef<'_, R>,
    files: &[FileId],
    name: DwAt,
    value: ReadValue<R>,
    convert_address: &F,
    refs: &C,
) -> ConvertResult<Image<R>>
    requires { F.IsAlwaysCallable convert_address.now }
    ensures ok { IfOk result (λ i. ValueOutcome R.reading (F.post convert_address.now)
        (C.entries refs.now) (C.infos refs.now) unit.entry files.now
        (order_or_little (value_order R.reading value)) name.0 (value_of R.reading value)
        (Ok (image_of R.reading i))) }
    ensures text { IfOk result (λ i. HoldsText (image_of R.reading i)) }
    ensures err { IfErr result (λ e. (e ≡ NoMemory) ⊎ ValueOutcome R.reading
        (F.post convert_address.now) (C.entries refs.now) (C.infos refs.now) unit.entry files.now
        (order_or_little (value_order R.reading value)) name.0 (value_of R.reading value) (Err e)) }
{
    match value {
        ReadValue::DebugStrRef(offset) => string_at(unit, offset),
        ReadValue::DebugStrOffsetsIndex(index) => indexed_string(unit, index),
        ReadValue::DebugLineStrRef(offset) => line_string_at(unit, offset),
        ReadValue::RangeListsRef(offset) => ranges_at(alloc, unit, offset, convert_address),
        ReadValue::DebugRngListsIndex(index) => indexed_ranges(alloc, unit, index, convert_address),
        ReadValue::LocationListsRef(offset) => {
            locations_at(alloc, unit, offset, convert_address, refs)
        }
        ReadValue::DebugLocListsIndex(index) => {
            indexed_locations(alloc, unit, index, convert_address, refs)
        }
        ReadValue::Exprloc(read) => {
            let read = convert_exprloc(alloc, unit, name, read, convert_address, refs)?;
            Ok(Image::Value(AttributeValue::Exprloc(read)))
        }
        other => {
            let value = plain_value(alloc, unit, files, &other, convert_address, refs)?;
            Ok(Image::Value(value))
        }
    }
}

/// What a value becomes that leads to no string, no list and no expression.
fn plain_value<R: Reader, C: ConvertDebugInfoRef, F: Fn(u64) -> Option<Address>>(
    alloc: Global,
    unit: UnitRef<'_, R>,
    files: &[FileId],
    value: &ReadValue<R>,
    convert_address: &F,
    refs: &C,
) -> ConvertResult<AttributeValue>
    requires { F.IsAlwaysCallable convert_address.now }
    ensures { (result ≡ Err NoMemory) ⊎ PlainOutcome R.reading (F.post convert_address.now)
        (C.entries refs.now) (C.infos refs.now) unit.entry files.now (value_of R.reading value.now)
        result }
{
    match value {
        ReadValue::Addr(address) => {
            converted(*address, convert_address).map(AttributeValue::Address)
        }
        ReadValue::DebugAddrIndex(index) => {
            indexed(unit, *index, convert_address).map(AttributeValue::Address)
        }
        ReadValue::UnitRef(entry) => refs.convert_unit_ref(*entry).map(AttributeValue::UnitRef),
        ReadValue::DebugInfoRef(entry) => {
            refs.convert_debug_info_ref(*entry)
                .map(AttributeValue::DebugInfoRef)
        }
        ReadValue::FileIndex(index) => {
            let version = unit.encoding().version;
            convert_file_index(version, files, *index).map(AttributeValue::FileIndex)
        }
        ReadValue::DebugLineRef(offset) => program_image(unit.unit.line_program, *offset),
        other => same_value(alloc, other),
    }
}

/// The line program at an offset, which has to be the unit's own.
fn program_image(
    own: Option<DebugLineOffset>,
    offset: DebugLineOffset,
) -> ConvertResult<AttributeValue>
    ensures { result ≡ program_image own offset.0 }
{
    match own {
        Some(own) if own.0 == offset.0 => Ok(AttributeValue::LineProgramRef),
        _ => Err(ConvertError::InvalidLineRef),
    }
}
