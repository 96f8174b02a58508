//! The address ranges of entries that are read: those of range lists, of a low and a high address,
//! and of locations that begin with an address; and the entries that have a live address.
#![tactic(auto)]

mod attribute;
mod bounds;
mod entry;
mod item;
mod list;
mod live;
mod location;
mod range;
mod required;

pub use bounds::low_high;
pub use entry::entry_ranges;
pub use list::{list_ranges, ranges_at};
pub use live::{LiveRange, LiveRanges};
pub use location::location_address;
pub use range::{AddressRange, CodeAddresses};
pub use required::required_entries;
