//! Units that are written behind others.

use crate::building::{Call, How, Value};
use crate::plans::{ONE_ROOT, Plan, ROOT, Told, VERSION_4, VERSION_5, write_plans};
use crate::writing::Written;
use dw_base::constants::{
    DW_AT_name, DW_AT_producer, DW_AT_type, DW_TAG_base_type, DW_TAG_subprogram, DW_TAG_variable,
};
use dw_dwarf::{
    DebugInfoRef, Encoding, Error, Format, Result, RunTimeEndian, UnitEntryId, UnitId, Writer,
};
use dw_writer::DebugInfoFixup;
use std::alloc::Global;

/// The units of two `Dwarf`s that are written into the same sections, and all that `.debug_info`
/// and `.debug_abbrev` then hold.
pub(crate) struct Units {
    before: &'static [Plan],
    units: &'static [Plan],
    bytes: Option<(&'static [u8], &'static [u8])>,
}

const VERSION_6: Encoding = Encoding {
    version: 6,
    ..VERSION_5
};

/// A variable, a base type, and an id without an entry. Once they are written the base type comes
/// first, behind the root, which has one byte.
const TYPES: Plan = Plan {
    calls: &[
        Call::Add(0, DW_TAG_variable),
        Call::Add(0, DW_TAG_base_type),
        Call::Reserve,
    ],
    children: &[UnitEntryId(2), UnitEntryId(1)],
    ..ROOT
};

/// Two functions: the first one's name is replaced by a walk, the second one's by its name.
const FUNCTIONS: Plan = Plan {
    encoding: VERSION_4,
    calls: &[
        Call::Put(How::Set, 0, DW_AT_producer, Value::Text(b"root")),
        Call::Add(0, DW_TAG_subprogram),
        Call::Add(0, DW_TAG_subprogram),
        Call::Put(How::Set, 2, DW_AT_name, Value::Text(b"tmp")),
        Call::Put(How::Set, 2, DW_AT_name, Value::Text(b"child2")),
        Call::Put(How::Set, 1, DW_AT_name, Value::Text(b"tmp")),
        Call::Put(How::ReplaceFirst, 1, DW_AT_name, Value::Text(b"child1")),
    ],
    children: &[UnitEntryId(1), UnitEntryId(2)],
    places: &[
        (0, Some((11, 11))),
        (1, Some((17, 17))),
        (2, Some((25, 25))),
    ],
    ..ROOT
};

/// A variable whose number was handed out before that of its child, with a name and a type that are
/// replaced.
const CHANGED: Plan = Plan {
    calls: &[
        Call::Reserve,
        Call::Add(1, DW_TAG_base_type),
        Call::AddReserved(1, 0, DW_TAG_variable),
        Call::Put(How::Set, 1, DW_AT_name, Value::Text(b"a")),
        Call::Put(How::Set, 1, DW_AT_type, Value::Data1(0)),
        Call::Put(How::Replace, 1, DW_AT_type, Value::UnitRef(UnitEntryId(0))),
        Call::Put(How::ReplaceFirst, 1, DW_AT_name, Value::Text(b"b")),
    ],
    children: &[UnitEntryId(1)],
    ..ROOT
};

const FIRST_ROOT: DebugInfoRef = DebugInfoRef::Entry(UnitId(0), UnitEntryId(0));

const NO_ENTRY: DebugInfoRef = DebugInfoRef::Entry(UnitId(1), UnitEntryId(1));

/// Each with its name, and why the second `Dwarf` is refused.
const ROWS: &[(&str, Units, Option<Error>)] = &[
    // No type of the unit, and the address size last (DWARF 4, 7.5.1.1). The second unit tells that
    // its table stands behind the first.
    (
        "behind what stands, in a changed encoding",
        Units {
            before: ONE_ROOT,
            units: &[Plan {
                encoding: VERSION_4,
                ..ROOT
            }],
            bytes: Some((
                &[
                    9, 0, 0, 0, 5, 0, 1, 8, 0, 0, 0, 0, 1, 8, 0, 0, 0, 4, 0, 6, 0, 0, 0, 8, 1,
                ],
                &[1, 0x11, 0, 0, 0, 0, 1, 0x11, 0, 0, 0, 0],
            )),
        },
        None,
    ),
    // A unit whose root has one child, with a name and the root as its type, and with a child.
    (
        "entries that are changed",
        Units {
            before: &[],
            units: &[CHANGED],
            bytes: Some((
                &[
                    19, 0, 0, 0, 5, 0, 1, 8, 0, 0, 0, 0, 1, 2, b'b', 0, 12, 0, 0, 0, 3, 0, 0,
                ],
                &[
                    1, 0x11, 1, 0, 0, 2, 0x34, 1, 3, 8, 0x49, 0x13, 0, 0, 3, 0x24, 0, 0, 0, 0,
                ],
            )),
        },
        None,
    ),
    // Behind the 13 bytes of a root.
    (
        "places behind what stands",
        Units {
            before: ONE_ROOT,
            units: &[Plan {
                places: &[
                    (0, Some((12, 25))),
                    (2, Some((13, 26))),
                    (1, Some((14, 27))),
                    (3, None),
                    (9, None),
                ],
                ..TYPES
            }],
            bytes: None,
        },
        None,
    ),
    (
        "places in three units",
        Units {
            before: &[],
            units: &[
                FUNCTIONS,
                Plan {
                    encoding: Encoding {
                        address_size: 4,
                        format: Format::Dwarf64,
                        version: 2,
                    },
                    places: &[(0, Some((23, 57)))],
                    ..ROOT
                },
                Plan {
                    encoding: Encoding {
                        address_size: 4,
                        ..VERSION_5
                    },
                    places: &[(0, Some((12, 70)))],
                    ..ROOT
                },
            ],
            bytes: None,
        },
        None,
    ),
    // In a unit that isn't looked at the variable still comes first.
    (
        "a refused unit between two",
        Units {
            before: &[],
            units: &[
                Plan {
                    places: &[(2, Some((13, 13)))],
                    ..TYPES
                },
                Plan {
                    encoding: VERSION_6,
                    is_written: false,
                    places: &[(0, None)],
                    ..ROOT
                },
                Plan {
                    encoding: VERSION_4,
                    is_written: false,
                    children: &[UnitEntryId(1), UnitEntryId(2)],
                    places: &[(0, None)],
                    ..TYPES
                },
            ],
            bytes: None,
        },
        Some(Error::UnsupportedVersion(6)),
    ),
    // Every unit is written, and no later call takes the reference for filled in.
    (
        "a reference that leads nowhere",
        Units {
            before: &[],
            units: &[
                Plan {
                    calls: &[Call::Put(How::Set, 0, DW_AT_type, Value::InfoRef(NO_ENTRY))],
                    ..ROOT
                },
                ROOT,
            ],
            bytes: None,
        },
        Some(Error::InvalidReference),
    ),
    (
        "a reference to a unit that was skipped",
        Units {
            before: &[],
            units: &[
                Plan {
                    calls: &[Call::Skip],
                    places: &[(0, None)],
                    ..ROOT
                },
                Plan {
                    calls: &[Call::Put(How::Set, 0, DW_AT_type, Value::InfoRef(FIRST_ROOT))],
                    ..ROOT
                },
            ],
            bytes: None,
        },
        Some(Error::InvalidReference),
    ),
];

/// The table, into which no other proof looks.
pub(crate) fn rows() -> &'static [(&'static str, Units, Option<Error>)] {
    ROWS
}

/// Leaves room for an offset in each of the two sections of location lists, and a reference to be
/// fixed up there.
fn push_fixups(sections: &mut Written) -> Result<()> {
    let fixup = DebugInfoFixup {
        offset: 0,
        size: 4,
        unit: UnitId(0),
        entry: UnitEntryId(0),
    };
    sections.debug_loc.0.write_u32(0)?;
    sections.debug_loc_fixups.push(fixup)?;
    sections.debug_loclists.0.write_u32(0)?;
    sections.debug_loclists_fixups.push(fixup)
}

/// Tells whether no reference is left to be fixed up.
fn are_fixed_up(sections: &Written) -> bool {
    sections.debug_info_fixups.is_empty()
        && sections.debug_loc_fixups.is_empty()
        && sections.debug_loclists_fixups.is_empty()
}

/// Tells whether `.debug_info` and `.debug_abbrev` hold these bytes.
pub(crate) fn holds(sections: &Written, bytes: Option<(&[u8], &[u8])>) -> bool {
    match bytes {
        Some((info, abbrevs)) => {
            sections.debug_info.0.slice() == info && sections.debug_abbrev.0.slice() == abbrevs
        }
        None => true,
    }
}

/// Writes the units of both `Dwarf`s. Where the second is written no reference is left to be fixed
/// up, also none that was there before.
pub(crate) fn write_units(alloc: Global, job: &Units, sections: &mut Written) -> Result<Told> {
    let before = write_plans(alloc, job.before, sections)?;
    push_fixups(sections)?;
    let (refusal, is_planned) = write_plans(alloc, job.units, sections)?;
    let is_fixed_up = refusal.is_some() || are_fixed_up(sections);
    let is_all = before == (None, true) && is_planned && is_fixed_up;
    Ok((refusal, is_all && holds(sections, job.bytes)))
}
