//! Strings and lists that values lead to.

ghost use Rattle.std.specs.Prelude.{◌≡◌, ◌⊎◌, IfOk, IfErr, Ok, Err};
ghost use Rattle.dw_sources.specs.declared.convert_error.ConvertError.TheVariants.{NoMemory};
ghost use Rattle.dw_convert.specs.Images.{image_of, HoldsText};
ghost use Rattle.dw_convert.specs.SourceImages.{StringOutcome, LineStringOutcome};
ghost use Rattle.dw_convert.specs.SourceImages.{IndexedStringOutcome};
ghost use Rattle.dw_convert.specs.SourceImages.{RangesFound, IndexedRangesFound};
ghost use Rattle.dw_convert.specs.SourceImages.{LocationsFound, IndexedLocationsFound};

use crate::image::Image;
use crate::locations::location_list;
use crate::ranges::range_list;
use crate::references::ConvertDebugInfoRef;
use dw_base::{Address, DebugLineStrOffset, DebugStrOffset, LocationListsOffset, RangeListsOffset};
use dw_read::Reader;
use dw_read_units::UnitRef;
use dw_sources::ConvertResult;
use std::alloc::Global;

/// The string at an offset of `.debug_str`.
pub(crate) fn string_at<R: Reader>(
    unit: UnitRef<'_, R>,
    offset: DebugStrOffset,
) -> ConvertResult<Image<R>>
    ensures ok { IfOk result
        (λ i. StringOutcome R.reading unit.entry offset.0 (Ok (image_of R.reading i))) }
    ensures text { IfOk result (λ i. HoldsText (image_of R.reading i)) }
    ensures err { IfErr result (λ e. StringOutcome R.reading unit.entry offset.0 (Err e)) }
{
    let text = unit.string(offset)?;
    Ok(Image::String(text))
}

/// The string at an offset of `.debug_line_str`.
pub(crate) fn line_string_at<R: Reader>(
    unit: UnitRef<'_, R>,
    offset: DebugLineStrOffset,
) -> ConvertResult<Image<R>>
    ensures ok { IfOk result
        (λ i. LineStringOutcome R.reading unit.entry offset.0 (Ok (image_of R.reading i))) }
    ensures text { IfOk result (λ i. HoldsText (image_of R.reading i)) }
    ensures err { IfErr result (λ e. LineStringOutcome R.reading unit.entry offset.0 (Err e)) }
{
    let text = unit.line_string(offset)?;
    Ok(Image::LineString(text))
}

/// The string of an index in the unit's part of `.debug_str_offsets`.
pub(crate) fn indexed_string<R: Reader>(unit: UnitRef<'_, R>, index: u64) -> ConvertResult<Image<R>>
    ensures ok { IfOk result
        (λ i. IndexedStringOutcome R.reading unit.entry index (Ok (image_of R.reading i))) }
    ensures text { IfOk result (λ i. HoldsText (image_of R.reading i)) }
    ensures err { IfErr result (λ e. IndexedStringOutcome R.reading unit.entry index (Err e)) }
{
    let offset = unit.string_offset(index)?;
    string_at(unit, offset)
}

/// What the range list at an offset becomes.
pub(crate) fn ranges_at<R: Reader, F: Fn(u64) -> Option<Address>>(
    alloc: Global,
    unit: UnitRef<'_, R>,
    offset: RangeListsOffset,
    convert_address: &F,
) -> ConvertResult<Image<R>>
    requires { F.IsAlwaysCallable convert_address.now }
    ensures ok { IfOk result (λ i. RangesFound R.reading (F.post convert_address.now) unit.entry
        offset.0 (Ok (image_of R.reading i))) }
    ensures text { IfOk result (λ i. HoldsText (image_of R.reading i)) }
    ensures err { IfErr result (λ e. (e ≡ NoMemory) ⊎ RangesFound R.reading
        (F.post convert_address.now) unit.entry offset.0 (Err e)) }
{
    let list = range_list(alloc, unit, offset, convert_address)?;
    Ok(Image::Ranges(list))
}

/// What the range list of an index in the unit's part of `.debug_rnglists` becomes.
pub(crate) fn indexed_ranges<R: Reader, F: Fn(u64) -> Option<Address>>(
    alloc: Global,
    unit: UnitRef<'_, R>,
    index: u64,
    convert_address: &F,
) -> ConvertResult<Image<R>>
    requires { F.IsAlwaysCallable convert_address.now }
    ensures ok { IfOk result (λ i. IndexedRangesFound R.reading (F.post convert_address.now)
        unit.entry index (Ok (image_of R.reading i))) }
    ensures text { IfOk result (λ i. HoldsText (image_of R.reading i)) }
    ensures err { IfErr result (λ e. (e ≡ NoMemory) ⊎ IndexedRangesFound R.reading
        (F.post convert_address.now) unit.entry index (Err e)) }
{
    let offset = unit.ranges_offset(index)?;
    ranges_at(alloc, unit, offset, convert_address)
}

/// What the location list at an offset becomes.
pub(crate) fn locations_at<R: Reader, C: ConvertDebugInfoRef, F: Fn(u64) -> Option<Address>>(
    alloc: Global,
    unit: UnitRef<'_, R>,
    offset: LocationListsOffset,
    convert_address: &F,
    refs: &C,
) -> ConvertResult<Image<R>>
    requires { F.IsAlwaysCallable convert_address.now }
    ensures ok { IfOk result (λ i. LocationsFound R.reading (F.post convert_address.now)
        (C.entries refs.now) (C.infos refs.now) unit.entry offset.0
        (Ok (image_of R.reading i))) }
    ensures text { IfOk result (λ i. HoldsText (image_of R.reading i)) }
    ensures err { IfErr result (λ e. (e ≡ NoMemory) ⊎ LocationsFound R.reading
        (F.post convert_address.now) (C.entries refs.now) (C.infos refs.now) unit.entry offset.0
        (Err e)) }
{
    let list = location_list(alloc, unit, offset, convert_address, refs)?;
    Ok(Image::Locations(list))
}

/// What the location list of an index in the unit's part of `.debug_loclists` becomes.
pub(crate) fn indexed_locations<R: Reader, C: ConvertDebugInfoRef, F: Fn(u64) -> Option<Address>>(
    alloc: Global,
    unit: UnitRef<'_, R>,
    index: u64,
    convert_address: &F,
    refs: &C,
) -> ConvertResult<Image<R>>
    requires { F.IsAlwaysCallable convert_address.now }
    ensures ok { IfOk result (λ i. IndexedLocationsFound R.reading (F.post convert_address.now)
        (C.entries refs.now) (C.infos refs.now) unit.entry index
        (Ok (image_of R.reading i))) }
    ensures text { IfOk result (λ i. HoldsText (image_of R.reading i)) }
    ensures err { IfErr result (λ e. (e ≡ NoMemory) ⊎ IndexedLocationsFound R.reading
        (F.post convert_address.now) (C.entries refs.now) (C.infos refs.now) unit.entry index
        (Err e)) }
{
    let offset = unit.locations_offset(index)?;
    locations_at(alloc, unit, offset, convert_address, refs)
}
