//! A file whose units name each other, strings, lines and expressions, written into sections of
//! which calls fail.

use crate::converting::{Way, convert};
use crate::filtered_files::File;
use crate::filtering::holds;
use crate::line_programs::{READ, READ_STRINGS};
use crate::plans::{Plan, ROOT, Told, are_as_planned};
use crate::writing::{Written, refusal};
use dw_dwarf::{Dwarf, Result, UnitEntryId, UnitTable};
use std::alloc::Global;

/// What is written. Declarations of the first unit: 1, a root with its producer, language, name,
/// directory, addresses and line program; 2, a base type with its name, encoding and size; 3, a
/// function with a sibling, a name, its file and line, a type, addresses and a frame base; 4, a
/// parameter with its name, type and location. At 65 those of the second unit: a root with its
/// name, and a variable whose type stands in another unit (DWARF 5, 7.5).
const WRITTEN: File = File {
    abbrev: b"\x01\x11\x01\x25\x0e\x13\x0f\x03\x1f\x1b\x1f\x11\x01\x12\x06\x10\x17\x00\x00\
\x02\x24\x00\x03\x08\x3e\x0f\x0b\x0b\x00\x00\
\x03\x2e\x01\x01\x13\x03\x08\x3f\x19\x3a\x0f\x3b\x0b\x49\x13\x11\x01\x12\x06\x40\x18\x00\x00\
\x04\x05\x00\x03\x08\x49\x13\x02\x18\x00\x00\x00\
\x01\x11\x01\x03\x08\x00\x00\x02\x34\x00\x03\x08\x49\x10\x00\x00\x00",
    // The base type comes first, at 42, then the function at 49 and its parameter at 76. The second
    // unit is at 88.
    info: b"\x54\x00\x00\x00\x05\x00\x01\x08\x00\x00\x00\x00\
\x01\x00\x00\x00\x00\x0c\x05\x00\x00\x00\x00\x00\x00\x00\
\x00\x10\x00\x00\x00\x00\x00\x00\x10\x00\x00\x00\x00\x00\x00\x00\
\x02int\x00\x05\x04\
\x03\x57\x00\x00\x00f\x00\x00\x03\x2a\x00\x00\x00\
\x00\x10\x00\x00\x00\x00\x00\x00\x10\x00\x00\x00\x01\x9c\
\x04x\x00\x2a\x00\x00\x00\x02\x91\x6c\x00\x00\
\x13\x00\x00\x00\x05\x00\x01\x08\x41\x00\x00\x00\x01b\x00\x02y\x00\x2a\x00\x00\x00\x00",
    lists: b"",
    strings: b"gcc\x00",
    line_strings: READ_STRINGS,
    line: READ,
    addresses: b"",
};

/// The same as it is read: the base type comes last, at 80.
const UNSETTLED: File = File {
    info: b"\x54\x00\x00\x00\x05\x00\x01\x08\x00\x00\x00\x00\
\x01\x00\x00\x00\x00\x0c\x05\x00\x00\x00\x00\x00\x00\x00\
\x00\x10\x00\x00\x00\x00\x00\x00\x10\x00\x00\x00\x00\x00\x00\x00\
\x03\x50\x00\x00\x00f\x00\x00\x03\x50\x00\x00\x00\
\x00\x10\x00\x00\x00\x00\x00\x00\x10\x00\x00\x00\x01\x9c\
\x04x\x00\x50\x00\x00\x00\x02\x91\x6c\x00\
\x02int\x00\x05\x04\x00\
\x13\x00\x00\x00\x05\x00\x01\x08\x41\x00\x00\x00\x01b\x00\x02y\x00\x50\x00\x00\x00\x00",
    ..WRITTEN
};

const FIRST: Plan = Plan {
    children: &[UnitEntryId(3), UnitEntryId(1)],
    places: &[
        (0, Some((12, 12))),
        (3, Some((42, 42))),
        (1, Some((49, 49))),
        (2, Some((76, 76))),
    ],
    ..ROOT
};

const SECOND: Plan = Plan {
    children: &[UnitEntryId(1)],
    places: &[(0, Some((12, 100))), (1, Some((15, 103)))],
    ..ROOT
};

const SETTLED_FIRST: Plan = Plan {
    is_written: false,
    places: &[(0, None), (3, None)],
    ..FIRST
};

const UNSETTLED_FIRST: Plan = Plan {
    children: &[UnitEntryId(1), UnitEntryId(3)],
    ..SETTLED_FIRST
};

const UNWRITTEN_SECOND: Plan = Plan {
    is_written: false,
    places: &[(0, None), (1, None)],
    ..SECOND
};

const BOTH: &[Plan] = &[FIRST, SECOND];

/// The states in which a write may stop: the first unit as it was or settled, the second one as it
/// was, which settling leaves alone, or both written.
const STOPPED: &[&[Plan]] = &[
    &[UNSETTLED_FIRST, UNWRITTEN_SECOND],
    &[SETTLED_FIRST, UNWRITTEN_SECOND],
    &[FIRST, UNWRITTEN_SECOND],
    BOTH,
];

/// Tells whether a write may have stopped at these units.
fn are_stopped(units: &UnitTable) -> bool {
    for plans in STOPPED {
        if are_as_planned(units, plans) {
            return true;
        }
    }
    false
}

/// Tells whether the units are as a write leaves them, whole or not.
fn are_left(units: &UnitTable, sections: &Written, is_whole: bool) -> bool {
    if is_whole {
        are_as_planned(units, BOTH) && holds(sections, &WRITTEN)
    } else {
        are_stopped(units)
    }
}

/// Tells whether all but the units is as the file has it.
fn is_kept(dwarf: &Dwarf) -> bool {
    dwarf.strings.count() == 1 && dwarf.line_strings.count() == 2 && dwarf.line_programs.is_empty()
}

/// Converts the file and writes it. Tells whether its units are written then, or else in a state in
/// which a write may stop, and whether all else is as before.
pub(crate) fn write_failing(
    alloc: Global,
    dwarf: &mut Dwarf,
    sections: &mut Written,
) -> Result<Told> {
    let is_converted = convert(alloc, Way::AtOnce, &UNSETTLED, dwarf).is_ok();
    let refused = refusal(dwarf, sections);
    let are_left = are_left(&dwarf.units, sections, refused.is_none());
    Ok((refused, is_converted && are_left && is_kept(dwarf)))
}
