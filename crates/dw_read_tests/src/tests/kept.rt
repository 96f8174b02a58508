//! Which entries are kept of those that were read (DWARF 5, 2.2 and 2.3).

ghost use Rattle.std.specs.Prelude.{◌≤◌, All, IfOk};

use crate::tests::named::are;
use crate::tests::sections::{Bytes, NONE, sections};
use dw_base::UnitSectionOffset;
use dw_filter::kept_entries;
use dw_read::{ReadResult, Reader};
use dw_read_units::{Dwarf, Unit};
use std::alloc::Global;

/// A root; a namespace; functions, with children, without and declared; a variable with an
/// expression; a type; a variable with a type in its unit; a structure; a member; variables with a
/// sibling, with a specification in the section and with a location list.
const ABBREV: &[u8] = &[
    0x01, 0x11, 0x01, 0, 0, 0x02, 0x39, 0x01, 0, 0, 0x03, 0x2e, 0x01, 0, 0, 0x04, 0x2e, 0x00, 0, 0,
    0x05, 0x34, 0x00, 0x02, 0x18, 0, 0, 0x06, 0x24, 0x00, 0, 0, 0x07, 0x34, 0x00, 0x49, 0x13, 0, 0,
    0x08, 0x2e, 0x00, 0x3c, 0x19, 0, 0, 0x09, 0x13, 0x01, 0, 0, 0x0a, 0x0d, 0x00, 0, 0, 0x0b, 0x34,
    0x00, 0x01, 0x13, 0, 0, 0x0c, 0x34, 0x00, 0x47, 0x10, 0, 0, 0x0d, 0x34, 0x00, 0x02, 0x17, 0, 0,
    0,
];

/// Two units. In the first a namespace at 13 holds functions at 14 and 22, and the first of them a
/// variable at 15, within whose expression one converts to the type at 24; one at 25 is beside it.
/// The variables at 26 and 31 name each other, and that at 36 itself. The structure at 41 holds a
/// member, a type, a declared function and another one. The sibling of that at 47 is at 24. In the
/// second unit the variable at 66 names that at 15, and that at 71 has a list that isn't there.
const INFO: &[u8] = &[
    0x31, 0, 0, 0, 0x05, 0, 0x01, 0x08, 0, 0, 0, 0, 0x01, 0x02, 0x03, 0x05, 0x04, 0xa3, 0x02, 0xa8,
    0x18, 0, 0x04, 0, 0x06, 0x06, 0x07, 0x1f, 0, 0, 0, 0x07, 0x1a, 0, 0, 0, 0x07, 0x24, 0, 0, 0,
    0x09, 0x0a, 0x06, 0x08, 0x04, 0, 0x0b, 0x18, 0, 0, 0, 0, 0x14, 0, 0, 0, 0x05, 0, 0x01, 0x08, 0,
    0, 0, 0, 0x01, 0x0c, 0x0f, 0, 0, 0, 0x0d, 0, 0, 0, 0, 0,
];

/// A required place; how many entries behind the root were read of each unit; the places that are
/// kept, where none of the entries is refused.
type Row = (usize, &'static [usize], Option<&'static [usize]>);

const ROWS: &[Row] = &[
    (15, &[15, 1], Some(&[13, 14, 15, 24])),
    (14, &[15, 1], Some(&[13, 14, 15, 24])),
    (13, &[15, 1], Some(&[13])),
    (16, &[15, 1], Some(&[])),
    (26, &[15, 1], Some(&[26, 31])),
    (36, &[15, 1], Some(&[36])),
    (41, &[15, 1], Some(&[41, 42, 44])),
    (43, &[15, 1], Some(&[41, 42, 43, 44])),
    (47, &[15, 1], Some(&[47])),
    (47, &[14, 1], Some(&[])),
    (15, &[4, 1], Some(&[13, 14, 15])),
    (66, &[15, 1], Some(&[13, 14, 15, 24, 66])),
    (66, &[0, 1], Some(&[66])),
    (66, &[15], Some(&[])),
    (66, &[15, 2], None),
];

/// They, of which no other proof sees more.
fn rows() -> &'static [Row] {
    ROWS
}

/// The units of a file.
fn units_of<R: Reader>(alloc: Global, dwarf: &Dwarf<R>) -> ReadResult<Vec<Unit<R>>>
    ensures { IfOk result (λ v. All
        (λ u. u.header.offset.0 ≤ (R.reading u.header.body).place) v.items) }
{
    let mut units = Vec::new(alloc);
    let mut headers = dwarf.units();
    'units: while let Some(header) = headers.next()? {
        let unit = dwarf.unit(alloc, header)?;
        units.push(unit)?;
    }
    Ok(units)
}

/// Tells whether a row's entries are kept, and no others.
fn is_met<R: Reader>(alloc: Global, dwarf: &Dwarf<R>, units: &[Unit<R>], row: &Row) -> bool
    requires { All (λ u. u.header.offset.0 ≤ (R.reading u.header.body).place) units.now }
{
    let (required, counts, wanted) = *row;
    let kept = kept_entries(alloc, dwarf, units, counts, &[UnitSectionOffset(required)]);
    match (&kept, wanted) {
        (Ok(kept), Some(wanted)) => are(kept, wanted),
        (kept, _) => kept.is_err() && wanted.is_none(),
    }
}

/// The index of the first row that isn't met.
fn first_missed<R: Reader>(alloc: Global, dwarf: &Dwarf<R>) -> ReadResult<Option<usize>> {
    let units = units_of(alloc, dwarf)?;
    for (index, row) in rows().iter().enumerate() {
        if !is_met(alloc, dwarf, &units, row) {
            return Ok(Some(index));
        }
    }
    Ok(None)
}

#[test]
fn keeps_what_is_required_and_led_to(rt: HostRuntime) {
    let dwarf = sections(&Bytes {
        info: INFO,
        abbrev: ABBREV,
        ..NONE
    });
    match first_missed(rt.alloc(), &dwarf) {
        Ok(None) => {}
        Ok(Some(index)) => panic!(rt; "row {index}"),
        Err(error) => panic!(rt; "the units aren't read: {error}"),
    }
}
