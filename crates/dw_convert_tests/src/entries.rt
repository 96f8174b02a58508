//! What addresses and entries become.

use dw_base::{
    Address, DebugInfoOffset, DebugInfoRef, Error, Result, RunTimeEndian, UnitEntryId, UnitId,
    UnitOffset,
};
use dw_convert::ConvertDebugInfoRef;
use dw_expr::EntryPlaces;
use dw_sources::{ConvertError, ConvertResult};
use dw_writer::{EndianVec, FixupList, Writer};

/// An entry of a unit at the begin of `.debug_info`: the second behind the root, which stands at 4.
pub(crate) const ENTRY: UnitEntryId = UnitEntryId(2);

/// The entry by its place in `.debug_info`.
pub(crate) const REFERENCE: DebugInfoRef = DebugInfoRef::Entry(UnitId(0), UnitEntryId(2));

/// Knows an entry at each even place but the first, and the place of one of them.
pub(crate) struct Evens;

impl EntryPlaces for Evens {
    ghost use Rattle.std.specs.Prelude.{◌==◌, Some, None, if◌then◌else◌};

    ghost places = { λ _ i. if i == 2 then Some 4 else None };

    fn unit_place(&self, id: UnitEntryId) -> Option<u64> {
        if id.0 == 2 { Some(4) } else { None }
    }
}

impl ConvertDebugInfoRef for Evens {
    ghost use Rattle.std.specs.Prelude.{◌==◌, ◌||◌, ◌%◌, ◌/◌, Some, None, if◌then◌else◌};
    ghost use Rattle.dw_base.specs.declared.address.DebugInfoRef.TheVariants.{Entry};

    ghost entries = { λ _ n.
        if (n == 0) || (n % 2 == 1) then None else Some (record { 0 = n / 2 }) };

    ghost infos = { λ _ n. if (n == 0) || (n % 2 == 1) then None
        else Some (Entry (record { 0 = 0 }) (record { 0 = n / 2 })) };

    fn convert_unit_ref(&self, entry: UnitOffset) -> ConvertResult<UnitEntryId> {
        if entry.0 == 0 || entry.0 % 2 == 1 {
            return Err(ConvertError::InvalidUnitRef);
        }
        Ok(UnitEntryId::new(entry.0 / 2))
    }

    fn convert_debug_info_ref(&self, entry: DebugInfoOffset) -> ConvertResult<DebugInfoRef> {
        if entry.0 == 0 || entry.0 % 2 == 1 {
            return Err(ConvertError::InvalidDebugInfoRef);
        }
        Ok(DebugInfoRef::Entry(UnitId::new(0), UnitEntryId::new(entry.0 / 2)))
    }
}

/// Fills the places in `.debug_info` in.
pub(crate) fn fill(fixups: &FixupList, w: &mut EndianVec<RunTimeEndian>) -> Result<()> {
    for index in 0..fixups.len() {
        if let Some(fixup) = fixups.get(index) {
            let place = Evens
                .unit_place(fixup.entry)
                .ok_or(Error::InvalidReference)?;
            w.write_udata_at(fixup.offset, place, fixup.size)?;
        }
    }
    Ok(())
}

/// An address below 0x8000 stays, one of 0x8000 is a symbol's, and none above has an image.
pub(crate) fn moved(address: u64) -> Option<Address> {
    if address < 0x8000 {
        Some(Address::Constant(address))
    } else if address == 0x8000 {
        Some(Address::Symbol {
            symbol: 7,
            addend: 0,
        })
    } else {
        None
    }
}
