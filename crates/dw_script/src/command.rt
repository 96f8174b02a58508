//! What a line of a script asks for.

use crate::change::Change;
use crate::line_change::LineChange;
use dw_base::{Encoding, RunTimeEndian};
use dw_ends::HexBytes;
use dw_script_fields::{LocationFields, RangeFields};

/// One line's request.
#[derive(Drop)]
pub enum Command<'a> {
    /// The byte order of everything that is written.
    Order(RunTimeEndian),
    /// A new unit, encoded so.
    Unit(Encoding),
    /// A string of `.debug_str`.
    String(HexBytes<'a>),
    /// A string of `.debug_line_str`.
    LineString(HexBytes<'a>),
    /// A change of the unit at an index.
    Change {
        unit: u64,
        change: Change<'a>,
    },
    /// A change of the line program of the unit at an index.
    Line {
        unit: u64,
        change: LineChange<'a>,
    },
    /// A range list of the unit at an index.
    RangeList {
        unit: u64,
        ranges: RangeFields<'a>,
    },
    /// A location list of the unit at an index.
    LocationList {
        unit: u64,
        locations: LocationFields<'a>,
    },
}
