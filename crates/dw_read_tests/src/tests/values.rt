//! Values of attributes by their forms, their names and their unit's version (DWARF 5, 7.5.5).

use crate::tests::joined::Joined;
use crate::tests::sections::{Bytes, NONE};
use crate::tests::told::Told;
use crate::tests::trees::rows_of;
use dw_base::RunTimeEndian;
use std::alloc::Global;

// A row has the first and the last version; where numbers begin with their lowest byte and words
// have 4 bytes, or with their highest and words have 8; the name and the form as they are declared;
// the operand; and the value's kind and number: of bytes as a number whose first byte is the
// highest, of signed ones modulo 2^64. In place of a kind stands why the value can't be read. All
// but the versions is in hex.

// Forms with an operand of each (DWARF 5, table 7.5 and 7.5.5).
const FORMS: &str = "2 5 little 2501 7856341200000000 addr 12345678
2 5 little 2503 0200aabb block aabb
2 5 little 2504 02000000aabb block aabb
2 5 little 2505 3412 data2 1234
2 5 little 2506 78563412 data4 12345678
2 5 little 2507 efcdab8967452301 data8 123456789abcdef
2 5 little 2508 616200 string 6162
2 5 little 2509 02aabb block aabb
2 5 little 250a 02aabb block aabb
2 5 little 250b 12 data1 12
2 5 little 250c 01 flag 1
2 5 little 250d 7e sdata fffffffffffffffe
2 5 little 250e 44000000 str_ref 44
2 5 little 250f ac02 udata 12c
2 5 little 2511 0c unit_ref c
2 5 little 2512 0c00 unit_ref c
2 5 little 2513 0c000000 unit_ref c
2 5 little 2514 0c00000000000000 unit_ref c
2 5 little 2515 0c unit_ref c
2 5 little 2516 0b12 data1 12
2 5 little 2517 22000000 sec_offset 22
2 5 little 2518 0196 exprloc 96
2 5 little 2519 - flag 1
2 5 little 251a 8101 str_index 81
2 5 little 251b 8101 addr_index 81
2 5 little 251c 11000000 info_ref_sup 11
2 5 little 251d 44000000 str_ref_sup 44
2 5 little 251e 00000000000000000100000000000000 data16 10000000000000000
2 5 little 251f 44000000 line_str_ref 44
2 5 little 2520 8877665544332211 types_ref 1122334455667788
2 5 little 25217d - sdata fffffffffffffffd
2 5 little 2522 05 loc_index 5
2 5 little 2523 05 range_index 5
2 5 little 2524 1100000000000000 info_ref_sup 11
2 5 little 2525 05 str_index 5
2 5 little 2526 0500 str_index 5
2 5 little 2527 050000 str_index 5
2 5 little 2528 05000000 str_index 5
2 5 little 2529 05 addr_index 5
2 5 little 252a 0500 addr_index 5
2 5 little 252b 050000 addr_index 5
2 5 little 252c 05000000 addr_index 5";

// Forms whose operands differ where numbers begin with their highest byte and words have 8 bytes.
const LONG_FORMS: &str = "2 5 big 2501 0000000012345678 addr 12345678
2 5 big 2503 0002aabb block aabb
2 5 big 2505 1234 data2 1234
2 5 big 250e 0000000000000044 str_ref 44
2 5 big 2510 0000000000000022 info_ref 22
2 5 big 2513 0000000c unit_ref c
2 5 big 2517 0000000000000022 sec_offset 22
2 5 big 251d 0000000000000044 str_ref_sup 44
2 5 big 251e 00000000000000010000000000000000 data16 10000000000000000
2 5 big 251f 0000000000000044 line_str_ref 44
2 5 big 2527 000005 str_index 5
2 5 big 252b 000005 addr_index 5";

// Expressions, sections and types by the name.
const NAMED: &str = "2 5 little 020a 0196 exprloc 96
2 5 little 250a 0196 block 96
2 5 little 380a 0196 exprloc 96
2 5 little b3420a 0196 block 96
2 5 little 91420a 0196 exprloc 96
2 5 little 1017 22000000 line_ref 22
2 5 little 4317 22000000 macinfo_ref 22
2 5 little 7917 22000000 macro_ref 22
2 5 little 994217 22000000 macro_ref 22
2 5 little 5517 22000000 range_ref 22
2 5 little 2c17 22000000 range_ref 22
2 5 little 0217 22000000 loc_ref 22
2 5 little 3817 22000000 loc_ref 22
2 5 little 2517 22000000 sec_offset 22
2 5 little 3e0b 05 encoding 5
2 5 little 3e05 3412 data2 1234
2 5 little 3e0d 05 encoding 5
2 5 little 3e0d 7f sdata ffffffffffffffff
2 5 little 130f 8c8002 language 800c
2 5 little 130f 808004 udata 10000
2 5 little 330f 05 address_class 5
2 5 little 3a0f 05 file_index 5
2 5 little 580b 05 file_index 5
2 5 little 3a0d 7f sdata ffffffffffffffff
2 5 little b14207 0807060504030201 dwo_id 102030405060708
2 5 little 0b0b 05 data1 5";

// A place in .debug_info has the width of an address, which is 8 bytes here, in version 2.
// Versions 2 and 3 have places in other sections as numbers as wide as a word, but for a start
// scope (DWARF 3, figure 20).
const BY_VERSION: &str = "2 2 little 4910 2200000000000000 info_ref 22
3 5 little 4910 22000000 info_ref 22
3 3 little 2c06 22000000 data4 22
2 3 little 1006 22000000 line_ref 22
2 3 little 1007 2200000000000000 data8 22
2 3 big 1007 0000000000000022 line_ref 22
4 5 little 1006 22000000 data4 22
2 3 little 4306 22000000 macinfo_ref 22
2 3 little 4307 2200000000000000 data8 22
2 3 big 4307 0000000000000022 macinfo_ref 22
4 5 little 4306 22000000 data4 22
2 3 little 5506 22000000 range_ref 22
2 3 little 5507 2200000000000000 data8 22
2 3 big 5507 0000000000000022 range_ref 22
4 5 little 5506 22000000 data4 22
2 3 little 0206 22000000 loc_ref 22
2 3 little 0207 2200000000000000 data8 22
2 3 big 0207 0000000000000022 loc_ref 22
4 5 little 0206 22000000 data4 22
2 3 little 3806 22000000 loc_ref 22
2 3 little 3807 2200000000000000 data8 22
2 3 big 3807 0000000000000022 loc_ref 22
4 5 little 3806 22000000 data4 22";

// Operands that promise more than there is.
const PROMISES: &str = "5 5 little 2509 808080808080808010 UnexpectedEof 0
5 5 little 250a ff00 UnexpectedEof 0
5 5 little 2503 ffff00 UnexpectedEof 0
5 5 little 2504 ffffffff00 UnexpectedEof 0
5 5 little 2518 ffffffff7f00 UnexpectedEof 0
5 5 little 2508 61 UnexpectedEof 0
5 5 little 2501 01020304050607 UnexpectedEof 0
5 5 little 251e 0102030405060708090a0b0c0d0e0f UnexpectedEof 0
5 5 little 250f 808080 UnexpectedEof 0
5 5 little 250d ffffff UnexpectedEof 0
5 5 little 2516 - UnexpectedEof 0
5 5 little 2516 0b UnexpectedEof 0";

fn cases() -> [&'static str; 5] {
    [FORMS, LONG_FORMS, NAMED, BY_VERSION, PROMISES]
}

fn field(row: &str, index: usize) -> &str {
    row.split(' ').nth(index).unwrap_or("")
}

fn digit(byte: u8) -> u8 {
    match byte {
        b'0'..=b'9' => byte - b'0',
        b'a'..=b'f' => byte - b'a' + 10,
        _ => 0,
    }
}

fn number(hex: &str) -> u128 {
    let mut number = 0u128;
    for byte in hex.as_bytes() {
        number = number.wrapping_mul(16).wrapping_add(digit(*byte) as u128);
    }
    number
}

fn push_hex(joined: &mut Joined, hex: &str) {
    let mut high = 0u8;
    for (index, byte) in hex.as_bytes().iter().enumerate() {
        if index % 2 == 0 {
            high = digit(*byte).wrapping_mul(16);
        } else {
            joined.push(&[high.wrapping_add(digit(*byte))]);
        }
    }
}

/// The fields of a unit's header behind its length, and its root. Addresses have 8 bytes.
fn fields(version: u8, is_big: bool, operand: &str) -> Joined {
    let word = if is_big { 8 } else { 4 };
    let zeros = [0; 8];
    let order = if is_big { [0, version] } else { [version, 0] };
    let mut fields = Joined::new();
    fields.push(&order);
    if version == 5 {
        fields.push(b"\x01\x08");
        fields.push(&zeros[..word]);
    } else {
        fields.push(&zeros[..word]);
        fields.push(b"\x08");
    }
    fields.push(b"\x01");
    push_hex(&mut fields, operand);
    fields
}

/// A unit whose root has these bytes behind its code.
fn unit(version: u8, is_big: bool, operand: &str) -> Joined {
    let fields = fields(version, is_big, operand);
    let mut info = Joined::new();
    if is_big {
        info.push(b"\xff\xff\xff\xff\x00\x00\x00\x00\x00\x00\x00");
        info.push(&[fields.length()]);
    } else {
        info.push(&[fields.length(), 0, 0, 0]);
    }
    info.push(fields.as_slice());
    info
}

/// The value of the root's attribute.
fn value_of(alloc: Global, version: u8, row: &str) -> Option<Told> {
    let is_big = field(row, 2) == "big";
    let info = unit(version, is_big, field(row, 4));
    let mut abbrev = Joined::new();
    abbrev.push(b"\x01\x11\x00");
    push_hex(&mut abbrev, field(row, 3));
    abbrev.push(b"\x00\x00\x00");
    let bytes = Bytes {
        endian: if is_big {
            RunTimeEndian::Big
        } else {
            RunTimeEndian::Little
        },
        info: info.as_slice(),
        abbrev: abbrev.as_slice(),
        ..NONE
    };
    match rows_of(alloc, &bytes) {
        Ok(rows) => rows.first().map(|row| (row.5, row.6)),
        Err(reason) => Some((reason.name(), 0)),
    }
}

/// Whether the value is so in each version.
fn is_read(alloc: Global, row: &str) -> bool {
    let wanted = Some((field(row, 5), number(field(row, 6))));
    for version in 2..=5 {
        let is_between = version as u128 >= number(field(row, 0))
            && version as u128 <= number(field(row, 1));
        if is_between && value_of(alloc, version, row) != wanted {
            return false;
        }
    }
    true
}

#[test]
fn reads_values(rt: HostRuntime) {
    for table in cases() {
        for row in table.lines() {
            assert!(rt; is_read(rt.alloc(), row), "{row}");
        }
    }
}
