//! The codes of the items of lists of version 5.

ghost use Rattle.std.specs.Prelude.{◌≡◌};
ghost use Rattle.dw_lists.specs.Kinds.{range_kinds, location_kinds};

use dw_base::constants::{
    DW_LLE_base_address, DW_LLE_end_of_list, DW_LLE_offset_pair, DW_LLE_start_end,
    DW_LLE_start_length, DW_RLE_base_address, DW_RLE_end_of_list, DW_RLE_offset_pair,
    DW_RLE_start_end, DW_RLE_start_length,
};

/// The codes of what range lists and location lists both have (DWARF 5, 7.25 and 7.7.3).
#[derive(Clone, Copy)]
pub(crate) struct Kinds {
    pub(crate) end_of_list: u8,
    pub(crate) offset_pair: u8,
    pub(crate) base_address: u8,
    pub(crate) start_end: u8,
    pub(crate) start_length: u8,
}

impl Kinds {
    /// Those of range lists.
    pub(crate) fn of_ranges() -> Kinds
        ensures { result ≡ range_kinds }
    {
        Kinds {
            end_of_list: DW_RLE_end_of_list.0,
            offset_pair: DW_RLE_offset_pair.0,
            base_address: DW_RLE_base_address.0,
            start_end: DW_RLE_start_end.0,
            start_length: DW_RLE_start_length.0,
        }
    }

    /// Those of location lists.
    pub(crate) fn of_locations() -> Kinds
        ensures { result ≡ location_kinds }
    {
        Kinds {
            end_of_list: DW_LLE_end_of_list.0,
            offset_pair: DW_LLE_offset_pair.0,
            base_address: DW_LLE_base_address.0,
            start_end: DW_LLE_start_end.0,
            start_length: DW_LLE_start_length.0,
        }
    }
}
