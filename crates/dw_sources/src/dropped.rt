//! The attributes of an entry that what is written has of its own.

ghost use Rattle.std.specs.Prelude.{◌≡◌};
ghost use Rattle.dw_sources.specs.Dropped.{is_dropped, is_left_out};

use dw_base::DwAt;
use dw_base::constants::*;

/// Whether an attribute of a name isn't converted: what is written anew has bases, siblings and
/// split files of its own. Zero is the name of none.
pub fn is_dropped(name: DwAt) -> bool
    ensures { result ≡ is_dropped name.0 }
{
    match name {
        DwAt(0) | DW_AT_sibling | DW_AT_str_offsets_base | DW_AT_addr_base => true,
        DW_AT_rnglists_base | DW_AT_loclists_base | DW_AT_dwo_name | DW_AT_GNU_addr_base => true,
        DW_AT_GNU_ranges_base | DW_AT_GNU_dwo_name | DW_AT_GNU_dwo_id => true,
        DW_AT_GNU_locviews => true,
        _ => false,
    }
}

/// Whether an attribute of a name is left out as soon as its entry is read: what conversions drop,
/// but for the views of locations, which only `ConvertUnit::convert` drops.
pub fn is_left_out(name: DwAt) -> bool
    ensures { result ≡ is_left_out name.0 }
{
    name != DW_AT_GNU_locviews && is_dropped(name)
}
