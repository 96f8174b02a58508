//! Location lists (DWARF 5, 2.6.2).

ghost use Rattle.std.specs.Prelude.{◌≡◌, ◌⊎◌, ◌++◌, [], ◌∷◌, IfOk, IfErr};
ghost use Rattle.dw_sources.specs.declared.convert_error.ConvertError.TheVariants.{NoMemory};
ghost use Rattle.dw_convert.specs.Locations.{kept_locations};
ghost use Rattle.dw_convert.specs.LocationLists.{IsLocationList, RefusesLocationList};
ghost use Rattle.dw_convert.specs.WrittenLists.{IsWrittenLocationList};

use crate::location::{convert_location, is_base, is_nowhere, parts_of};
use crate::references::ConvertDebugInfoRef;
use dw_base::{Address, LocationListsOffset};
use dw_lists::{Location, LocationList};
use dw_read::Reader;
use dw_read_units::UnitRef;
use dw_sources::{ConvertResult, raw_locations};
use std::alloc::Global;

/// Converts the location list at an offset of `.debug_loclists`, or up to version 4 of
/// `.debug_loc`. Addresses become what `convert_address` answers for them and expressions what
/// `expression` makes of them; items that are for no address then are left out. Refused is what
/// `range_list` and `expression` refuse.
///
/// ```
/// let address = |address| Some(Address::Constant(address));
/// let list = location_list(alloc, unit, offset, &address, &refs)?;
/// ```
pub fn location_list<R: Reader, C: ConvertDebugInfoRef, F: Fn(u64) -> Option<Address>>(
    alloc: Global,
    unit: UnitRef<'_, R>,
    offset: LocationListsOffset,
    convert_address: &F,
    refs: &C,
) -> ConvertResult<LocationList>
    requires { F.IsAlwaysCallable convert_address.now }
    ensures ok { IfOk result (IsLocationList R.reading (F.post convert_address.now)
        (C.entries refs.now) (C.infos refs.now) unit.entry offset.0) }
    ensures written { IfOk result (IsWrittenLocationList R.reading (F.post convert_address.now)
        (C.entries refs.now) (C.infos refs.now) unit.entry offset.0) }
    ensures err { IfErr result (λ e. (e ≡ NoMemory) ⊎ RefusesLocationList R.reading
        (F.post convert_address.now) (C.entries refs.now) (C.infos refs.now) unit.entry offset.0
        e) }
{
    let mut items = raw_locations(unit, offset)?;
    let mut has_base = unit.unit.low_pc != 0;
    let mut locations = Vec::new(alloc);
    'items: while let Some(item) = items.next()? {
        let parts = parts_of(item);
        let is_base = is_base(&parts);
        let location = convert_location(alloc, parts, unit, has_base, convert_address, refs)?;
        has_base |= is_base;
        keep(&mut locations, location)?;
    }
    Ok(LocationList(locations))
}

/// Adds a location to others where it is for some address.
fn keep(locations: &mut Vec<Location>, location: Location) -> ConvertResult<()>
    ensures ok { IfOk result
        (λ _. locations.new.items ≡ locations.old.items ++ kept_locations (location ∷ [])) }
    ensures err { IfErr result (λ e. e ≡ NoMemory) }
{
    if is_nowhere(&location) {
        return Ok(());
    }
    locations.push(location)?;
    Ok(())
}
