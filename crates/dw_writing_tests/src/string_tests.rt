//! The tables of strings: their ids, and the bytes of their sections by hand.

use dw_base::{BigEndian, LineStringId, LittleEndian, Result, StringId};
use dw_strings::{LineStringTable, StringTable};
use dw_writer::{DebugLineStr, DebugStr, EndianVec};
use std::alloc::Global;

fn add_each(strings: &mut StringTable) -> [Result<StringId>; 5] {
    [
        strings.add(b"ab"),
        strings.add(b""),
        strings.add(b"abc"),
        strings.add(b""),
        strings.add(b"ab"),
    ]
}

const IDS: [Result<StringId>; 5] = [
    Ok(StringId(0)),
    Ok(StringId(1)),
    Ok(StringId(2)),
    Ok(StringId(1)),
    Ok(StringId(0)),
];

/// Whether a table writes these bytes.
fn writes(alloc: Global, strings: &StringTable, bytes: &[u8]) -> bool {
    let mut section = DebugStr::from(EndianVec::new(alloc, LittleEndian));
    strings.write(&mut section) == Ok(()) && section.0.slice() == bytes
}

/// Whether the ids are those that are wanted, and the bytes.
fn keeps_strings(alloc: Global) -> [bool; 2] {
    let mut strings = StringTable::new(alloc);
    let has_ids = add_each(&mut strings) == IDS;
    [has_ids, writes(alloc, &strings, b"ab\0\0abc\0")]
}

fn add_each_line(strings: &mut LineStringTable) -> [Result<LineStringId>; 3] {
    [strings.add(b"/"), strings.add(b"a.c"), strings.add(b"/")]
}

const LINE_IDS: [Result<LineStringId>; 3] = [
    Ok(LineStringId(0)),
    Ok(LineStringId(1)),
    Ok(LineStringId(0)),
];

fn writes_line(alloc: Global, strings: &LineStringTable, bytes: &[u8]) -> bool {
    let mut section = DebugLineStr::from(EndianVec::new(alloc, BigEndian));
    strings.write(&mut section) == Ok(()) && section.0.slice() == bytes
}

fn keeps_line_strings(alloc: Global) -> [bool; 2] {
    let mut strings = LineStringTable::new(alloc);
    let has_ids = add_each_line(&mut strings) == LINE_IDS;
    [has_ids, writes_line(alloc, &strings, b"/\0a.c\0")]
}

#[test]
fn writes_each_string_once(rt: HostRuntime) {
    let kept = [keeps_strings(rt.alloc()), keeps_line_strings(rt.alloc())];
    assert_eq!(rt; kept, [[true; 2]; 2]);
}
