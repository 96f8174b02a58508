//! Files whose units are written, or skipped, and freed as soon as they are converted. The places
//! of entries of other units that they name are filled in at last (DWARF 5, 7.5.1.1 and 7.5.6).

use crate::converting::{ONE_PROGRAM, Slice};
use crate::filtered_files::{ALONE, File, LOCATION, NONE};
use crate::filtering::{convert_unit, holds, sections_of};
use crate::plans::{Plan, ROOT, Told, VERSION_5, are_as_planned};
use crate::writing::{Written, drop, refusal};
use dw_dwarf::{
    ConvertUnit, ConvertUnitEntry, ConvertUnitSection, Dwarf, Encoding, Error, Result,
    RunTimeEndian,
};

/// What becomes of a unit as soon as it is converted.
#[derive(Clone, Copy, PartialEq, Eq)]
pub(crate) enum Fate {
    /// It is written, and freed.
    Written,
    /// It is left out, and freed.
    Skipped,
    /// It stays until the file is written.
    Kept,
}

/// A file, what becomes of its units, what they are to tell at last, and what is written.
pub(crate) struct Freeing {
    file: &'static File,
    fates: &'static [Fate],
    units: &'static [Plan],
    written: &'static File,
}

/// Two units of a root each, at 12 and at 29. The type of the first root is the second one.
const AHEAD: File = File {
    abbrev: b"\x01\x11\x00\x49\x10\x00\x00\x00\x01\x11\x00\x00\x00\x00",
    info: b"\x0d\x00\x00\x00\x05\x00\x01\x08\x00\x00\x00\x00\x01\x1d\x00\x00\x00\
\x09\x00\x00\x00\x05\x00\x01\x08\x08\x00\x00\x00\x01",
    ..NONE
};

/// The roots stand at 12 and at 25. The type of the second one is the first.
const BACK: File = File {
    abbrev: b"\x01\x11\x00\x00\x00\x00\x01\x11\x00\x49\x10\x00\x00\x00",
    info: b"\x09\x00\x00\x00\x05\x00\x01\x08\x00\x00\x00\x00\x01\
\x0d\x00\x00\x00\x05\x00\x01\x08\x06\x00\x00\x00\x01\x0c\x00\x00\x00",
    ..NONE
};

/// The unit whose root names another, which isn't there: the place stays open.
const OPEN: File = File {
    abbrev: b"\x01\x11\x00\x49\x10\x00\x00\x00",
    info: b"\x0d\x00\x00\x00\x05\x00\x01\x08\x00\x00\x00\x00\x01\x00\x00\x00\x00",
    ..NONE
};

/// The first root is named "a", the second has the producer "b" and the name "a", by their places
/// in `.debug_str`, where "b" stands first.
const NAMED: File = File {
    abbrev: b"\x01\x11\x00\x03\x0e\x00\x00\x00\x01\x11\x00\x25\x0e\x03\x0e\x00\x00\x00",
    strings: b"b\x00a\x00",
    info: b"\x0d\x00\x00\x00\x05\x00\x01\x08\x00\x00\x00\x00\x01\x02\x00\x00\x00\
\x11\x00\x00\x00\x05\x00\x01\x08\x08\x00\x00\x00\x01\x00\x00\x00\x00\x02\x00\x00\x00",
    ..NONE
};

/// The strings stand as they come: "a" at 0, and "b", which came once the first unit was written,
/// at 2.
const RENAMED: File = File {
    strings: b"a\x00b\x00",
    info: b"\x0d\x00\x00\x00\x05\x00\x01\x08\x00\x00\x00\x00\x01\x00\x00\x00\x00\
\x11\x00\x00\x00\x05\x00\x01\x08\x08\x00\x00\x00\x01\x02\x00\x00\x00\x00\x00\x00\x00",
    ..NAMED
};

/// A unit at 0, whose root stands behind a header of 12 bytes.
const FIRST: Plan = Plan {
    places: &[(0, Some((12, 12)))],
    ..ROOT
};

/// A unit behind one of 13 bytes.
const AT_13: Plan = Plan {
    places: &[(0, Some((12, 25)))],
    ..ROOT
};

/// A unit behind one of 17 bytes.
const AT_17: Plan = Plan {
    places: &[(0, Some((12, 29)))],
    ..ROOT
};

/// A unit that was skipped has no place.
const NOWHERE: Plan = Plan {
    places: &[(0, None)],
    ..ROOT
};

/// A unit at 0 with addresses of 4 bytes, whose root has 5 bytes. The base type comes first.
const TYPED: Plan = Plan {
    encoding: Encoding {
        address_size: 4,
        ..VERSION_5
    },
    places: &[
        (0, Some((12, 12))),
        (1, Some((17, 17))),
        (2, Some((22, 22))),
    ],
    ..ROOT
};

/// A file whose units are written one by one.
const BOTH: Freeing = Freeing {
    file: &AHEAD,
    fates: &[Fate::Written, Fate::Written],
    units: &[FIRST, AT_17],
    written: &AHEAD,
};

/// The same, for all tests to see.
pub(crate) const EACH_WRITTEN: &Freeing = &BOTH;

const ROWS: &[(&str, Freeing, Option<Error>)] = &[
    ("a type ahead", BOTH, None),
    (
        "a type ahead in a unit that is skipped",
        Freeing {
            fates: &[Fate::Written, Fate::Skipped],
            units: &[FIRST, NOWHERE],
            written: &OPEN,
            ..BOTH
        },
        Some(Error::InvalidReference),
    ),
    (
        "a type that the unit skipped names",
        Freeing {
            fates: &[Fate::Skipped, Fate::Written],
            units: &[NOWHERE, FIRST],
            written: &ALONE,
            ..BOTH
        },
        None,
    ),
    (
        "a type ahead in a unit that stays",
        Freeing {
            fates: &[Fate::Written, Fate::Kept],
            ..BOTH
        },
        None,
    ),
    // Units stand as they were written.
    (
        "a type ahead of a unit that stays",
        Freeing {
            fates: &[Fate::Kept, Fate::Written],
            units: &[AT_13, FIRST],
            written: &BACK,
            ..BOTH
        },
        None,
    ),
    (
        "a type back",
        Freeing {
            file: &BACK,
            units: &[FIRST, AT_13],
            written: &BACK,
            ..BOTH
        },
        None,
    ),
    (
        "a type back in a unit that is skipped",
        Freeing {
            file: &BACK,
            fates: &[Fate::Skipped, Fate::Written],
            units: &[NOWHERE, FIRST],
            written: &OPEN,
        },
        Some(Error::InvalidReference),
    ),
    (
        "strings",
        Freeing {
            file: &NAMED,
            written: &RENAMED,
            ..BOTH
        },
        None,
    ),
    (
        "a line program",
        Freeing {
            file: &ONE_PROGRAM,
            fates: &[Fate::Written],
            units: &[FIRST],
            written: &ONE_PROGRAM,
        },
        None,
    ),
    (
        "a location list",
        Freeing {
            file: &LOCATION,
            fates: &[Fate::Written],
            units: &[TYPED],
            written: &LOCATION,
        },
        None,
    ),
];

/// The table, into which no other proof looks.
pub(crate) fn rows() -> &'static [(&'static str, Freeing, Option<Error>)] {
    ROWS
}

/// Writes a unit, which gives its entries up. One that is refused is neither marked nor freed.
fn is_written(unit: &mut ConvertUnit<'_, Slice>, sections: &mut Written) -> Result<bool> {
    if unit.unit.is_written() {
        return Ok(false);
    }
    match unit.write(sections) {
        Ok(()) => Ok(unit.unit.is_freed() && unit.unit.count() == 0),
        Err(_) if unit.unit.is_written() || unit.unit.is_freed() => Ok(false),
        Err(error) => Err(error),
    }
}

/// Skips a unit, which gives its entries up.
fn is_skipped(unit: &mut ConvertUnit<'_, Slice>) -> bool {
    if unit.unit.is_written() {
        return false;
    }
    unit.skip();
    unit.unit.is_freed() && unit.unit.count() == 0
}

/// Converts a unit and does with it what is to become of it. Tells whether it is so then.
fn is_done<'a>(
    unit: &mut ConvertUnit<'a, Slice>,
    root: ConvertUnitEntry<'a, Slice>,
    fate: Fate,
    sections: &mut Written,
) -> Result<bool> {
    if convert_unit(unit, root).is_err() {
        return Ok(false);
    }
    match fate {
        Fate::Written => is_written(unit, sections),
        Fate::Skipped => Ok(is_skipped(unit)),
        Fate::Kept => Ok(!unit.unit.is_freed()),
    }
}

/// The same of the next unit, which there has to be.
fn is_next_done(
    section: &mut ConvertUnitSection<'_, Slice>,
    fate: Fate,
    sections: &mut Written,
) -> Result<bool> {
    match section.read_unit() {
        Ok(Some((mut unit, root))) => {
            let is_done = is_done(&mut unit, root, fate, sections);
            drop(unit);
            is_done
        }
        _ => Ok(false),
    }
}

/// The same of the units of a file, one by one.
fn are_done(
    section: &mut ConvertUnitSection<'_, Slice>,
    fates: &[Fate],
    sections: &mut Written,
) -> Result<bool> {
    for fate in fates {
        if !is_next_done(section, *fate, sections)? {
            return Ok(false);
        }
    }
    Ok(true)
}

/// The same of a file that is read.
fn is_file_done(job: &Freeing, dwarf: &mut Dwarf, sections: &mut Written) -> Result<bool> {
    let read = sections_of(job.file, RunTimeEndian::Little);
    match dwarf.convert(&read) {
        Ok(mut section) => {
            let are_done = are_done(&mut section, job.fates, sections);
            drop(section);
            are_done
        }
        Err(_) => Ok(false),
    }
}

/// Converts a file unit by unit, and writes what is left of it.
pub(crate) fn write_freed(
    job: &Freeing,
    dwarf: &mut Dwarf,
    sections: &mut Written,
) -> Result<Told> {
    match is_file_done(job, dwarf, sections) {
        Ok(true) => {
            let refused = refusal(dwarf, sections);
            let are_so = are_as_planned(&dwarf.units, job.units);
            Ok((refused, are_so && holds(sections, job.written)))
        }
        Ok(false) => Ok((None, false)),
        Err(error) => Ok((Some(error), false)),
    }
}
