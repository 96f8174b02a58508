//! What the root of a unit tells (DWARF 5, 3.1).

use crate::tests::sections::{Bytes, NONE, Slice, sections};
use crate::tests::told::number_of;
use dw_base::{DebugLineOffset, DwoId};
use dw_read::{ReadError, ReadResult, Reader};
use dw_read_units::{Dwarf, Unit};
use std::alloc::Global;

/// The first unit.
pub(crate) fn first<'a>(alloc: Global, dwarf: &Dwarf<Slice<'a>>) -> ReadResult<Unit<Slice<'a>>> {
    let Some(header) = dwarf.units().next()? else {
        return Err(ReadError::UnexpectedEof);
    };
    dwarf.unit(alloc, header)
}

/// The name and the directory as numbers whose first byte is the highest.
type Names = (Option<u128>, Option<u128>);

/// The bases of strings, addresses, location lists and range lists.
type Bases = (usize, usize, usize, usize);

/// The names; the address; the bases; the line program; the id.
type Facts = (Names, u64, Bases, Option<DebugLineOffset>, Option<DwoId>);

fn text_of(text: &Option<Slice<'_>>) -> Option<u128> {
    match text {
        Some(text) => Some(number_of(text.to_slice())),
        None => None,
    }
}

fn facts_of(unit: &Unit<Slice<'_>>) -> Facts {
    (
        (text_of(&unit.name), text_of(&unit.comp_dir)),
        unit.low_pc,
        (
            unit.str_offsets_base,
            unit.addr_base,
            unit.loclists_base,
            unit.rnglists_base,
        ),
        unit.line_program,
        unit.dwo_id,
    )
}

/// What the first unit tells.
fn facts(alloc: Global, bytes: &Bytes<'_>) -> ReadResult<Facts> {
    match first(alloc, &sections(bytes)) {
        Ok(unit) => Ok(facts_of(&unit)),
        Err(reason) => Err(reason),
    }
}

/// `.debug_info`, `.debug_abbrev`, `.debug_str`, `.debug_str_offsets`, `.debug_addr`.
type Root = [&'static [u8]; 5];

fn bytes_of(root: &Root) -> Bytes<'static> {
    let [info, abbrev, strings, offsets, addresses] = *root;
    Bytes {
        info,
        abbrev,
        strings,
        offsets,
        addresses,
        ..NONE
    }
}

// Version 5: a root with its name as strx1, its low_pc as addrx1, both bases as sec_offset.
const THROUGH_BASES: Root = [
    b"\x13\x00\x00\x00\x05\x00\x01\x04\x00\x00\x00\x00\
    \x01\x01\x00\x08\x00\x00\x00\x08\x00\x00\x00",
    b"\x01\x11\x00\x03\x25\x11\x29\x72\x17\x73\x17\x00\x00\x00",
    b"a\x00bc\x00",
    b"\x0c\x00\x00\x00\x05\x00\x00\x00\x00\x00\x00\x00\x02\x00\x00\x00",
    b"\x08\x00\x00\x00\x05\x00\x04\x00\x78\x56\x34\x12",
];

// Version 5: a root with the bases of range lists and of location lists.
const OF_LISTS: Root = [
    b"\x11\x00\x00\x00\x05\x00\x01\x08\x00\x00\x00\x00\
    \x01\x0c\x00\x00\x00\x0d\x00\x00\x00",
    b"\x01\x11\x00\x74\x17\x8c\x01\x17\x00\x00\x00",
    b"",
    b"",
    b"",
];

// Version 4: a root with an index as its address, and the bases of the GNU extension.
const OLD_INFO: &[u8] = b"\x11\x00\x00\x00\x04\x00\x00\x00\x00\x00\x04\
    \x01\x01\x08\x00\x00\x00\x30\x00\x00\x00";

const OLD_ABBREV: &[u8] = b"\x01\x11\x00\x11\x29\xb3\x42\x17\xb2\x42\x17\x00\x00\x00";

const OLDER: Root = [
    OLD_INFO,
    OLD_ABBREV,
    b"",
    b"",
    b"........\x01\x00\x00\x00\x78\x56\x34\x12",
];

const CUT: Root = [
    OLD_INFO,
    OLD_ABBREV,
    b"",
    b"",
    b"........\x01\x00\x00\x00\x78\x56\x34",
];

// The last of doubled names counts; a directory and a line program.
const DOUBLED: Root = [
    b"\x1c\x00\x00\x00\x05\x00\x01\x04\x00\x00\x00\x00\
    \x01a\x00b\x00\x01\x00\x00\x00\x02\x00\x00\x00/d\x00\x07\x00\x00\x00",
    b"\x01\x11\x00\x03\x08\x03\x08\x11\x01\x11\x01\x1b\x08\x10\x17\x00\x00\x00",
    b"",
    b"",
    b"",
];

const ROOT: &[u8] = b"\x01\x11\x00\x00\x00\x00";

// Split compile units of both formats without bases: their parts are the first, behind their
// headers.
const SPLIT: Root = [
    b"\x11\x00\x00\x00\x05\x00\x05\x08\x00\x00\x00\x00\
    \x07\x00\x00\x00\x00\x00\x00\x00\x01",
    ROOT,
    b"",
    b"",
    b"",
];

const LONG_SPLIT: Root = [
    b"\xff\xff\xff\xff\x15\x00\x00\x00\x00\x00\x00\x00\
    \x05\x00\x05\x08\x00\x00\x00\x00\x00\x00\x00\x00\
    \x07\x00\x00\x00\x00\x00\x00\x00\x01",
    ROOT,
    b"",
    b"",
    b"",
];

const CASES: &[(Root, ReadResult<Facts>)] = &[
    (
        THROUGH_BASES,
        Ok(((Some(0x6263), None), 0x1234_5678, (8, 8, 0, 0), None, None)),
    ),
    (OF_LISTS, Ok(((None, None), 0, (0, 0, 13, 12), None, None))),
    (
        OLDER,
        Ok(((None, None), 0x1234_5678, (0, 8, 0, 0x30), None, None)),
    ),
    (CUT, Err(ReadError::UnexpectedEof)),
    (
        DOUBLED,
        Ok((
            (Some(0x62), Some(0x2f64)),
            2,
            (0, 0, 0, 0),
            Some(DebugLineOffset(7)),
            None,
        )),
    ),
    (
        SPLIT,
        Ok(((None, None), 0, (8, 0, 12, 12), None, Some(DwoId(7)))),
    ),
    (
        LONG_SPLIT,
        Ok(((None, None), 0, (16, 0, 20, 20), None, Some(DwoId(7)))),
    ),
];

fn cases() -> &'static [(Root, ReadResult<Facts>)] {
    CASES
}

#[test]
fn reads_what_roots_tell(rt: HostRuntime) {
    for (root, wanted) in cases() {
        let told = facts(rt.alloc(), &bytes_of(root));
        assert!(rt; told == *wanted, "of {:?}", root[0]);
    }
}

/// `.debug_str`, and the name that stands at 2 in it, as a number whose first byte is the highest:
/// each cut, and each byte with bits turned.
const NAMES: &[(&[u8], Option<u128>)] = &[
    (b"", None),
    (b"a", None),
    (b"a\x00", None),
    (b"a\x00b", None),
    (b"a\x00bc", None),
    (b"a\x00bc\x00", Some(0x6263)),
    (b"`\x00bc\x00", Some(0x6263)),
    (b"\x9e\x00bc\x00", Some(0x6263)),
    (b"\x00\x00bc\x00", Some(0x6263)),
    (b"a\x01bc\x00", Some(0x6263)),
    (b"a\xffbc\x00", Some(0x6263)),
    (b"a\x00cc\x00", Some(0x6363)),
    (b"a\x00Bc\x00", Some(0x4263)),
    (b"a\x00\x00c\x00", Some(0)),
    (b"a\x00bb\x00", Some(0x6262)),
    (b"a\x00bC\x00", Some(0x6243)),
    (b"a\x00b\x00\x00", Some(0x62)),
    (b"a\x00bc\x01", None),
    (b"a\x00bc\x80", None),
    (b"a\x00bc\xff", None),
];

/// The name of a root whose name stands at 2 in `.debug_str`.
fn name_in(alloc: Global, strings: &[u8]) -> ReadResult<Option<u128>> {
    let bytes = Bytes {
        info: b"\x0d\x00\x00\x00\x05\x00\x01\x08\x00\x00\x00\x00\x01\x02\x00\x00\x00",
        abbrev: b"\x01\x11\x00\x03\x0e\x00\x00\x00",
        strings,
        ..NONE
    };
    let (names, _, _, _, _) = facts(alloc, &bytes)?;
    Ok(names.0)
}

fn names() -> &'static [(&'static [u8], Option<u128>)] {
    NAMES
}

#[test]
fn misses_names_that_have_no_end(rt: HostRuntime) {
    for (strings, name) in names() {
        assert!(rt; name_in(rt.alloc(), strings) == Ok(*name), "of {strings:?}");
    }
}

/// What a unit tells once it has taken over what its skeleton has.
fn relocated(alloc: Global, bytes: &Bytes<'_>, skeleton: &Bytes<'_>) -> ReadResult<Facts> {
    match (
        first(alloc, &sections(bytes)),
        first(alloc, &sections(skeleton)),
    ) {
        (Ok(mut unit), Ok(skeleton)) => {
            unit.copy_relocated_attributes(&skeleton);
            Ok(facts_of(&unit))
        }
        (Ok(_), Err(reason)) | (Err(reason), _) => Err(reason),
    }
}

// The address and its base come along, and below version 5 the base of range lists.
const RELOCATED: &[(Root, Bases)] = &[
    (OF_LISTS, (0, 8, 13, 12)),
    (
        [
            b"\x08\x00\x00\x00\x04\x00\x00\x00\x00\x00\x04\x01",
            ROOT,
            b"",
            b"",
            b"",
        ],
        (0, 8, 0, 0x30),
    ),
];

fn relocations() -> &'static [(Root, Bases)] {
    RELOCATED
}

#[test]
fn takes_over_from_a_skeleton(rt: HostRuntime) {
    let skeleton = bytes_of(&OLDER);
    for (root, bases) in relocations() {
        let wanted = Ok(((None, None), 0x1234_5678, *bases, None, None));
        let told = relocated(rt.alloc(), &bytes_of(root), &skeleton);
        assert!(rt; told == wanted, "of {:?}", root[0]);
    }
}
