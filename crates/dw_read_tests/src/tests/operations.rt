//! Each operation in versions 2 to 5, with its bytes by hand (DWARF 5, table 7.9).

use crate::tests::sections::{Slice, narrow};
use crate::tests::told::number_of;
use dw_base::{Encoding, Format, RunTimeEndian};
use dw_read::{EndianSlice, Expression, ReadResult, Reader};
use dw_sources::{Operation, OperationIter};

/// Bytes, and the variant that they are with its first two numbers: of signed ones modulo 2^64, of
/// bytes one whose first byte is the highest.
type Case = (&'static [u8], &'static str, u128, u128);

// The codes of operations without operands that are kept by their codes.
const SIMPLE: &[u8] = b"\x13\x16\x17\x19\x1a\x1b\x1c\x1d\x1e\x1f\x20\x21\x22\x24\x25\x26\x27\
    \x29\x2a\x2b\x2c\x2d\x2e\x96\x97\x9b\x9c\x9f\xe0\xf0";

// Operations that push a number or an address.
const LITERALS: &[Case] = &[
    (b"\x03\x78\x56\x34\x12", "Address", 0x1234_5678, 0),
    (b"\x08\xff", "UnsignedConstant", 0xff, 0),
    (b"\x09\xff", "SignedConstant", 0xffff_ffff_ffff_ffff, 0),
    (b"\x0a\x01\x80", "UnsignedConstant", 0x8001, 0),
    (b"\x0b\x01\x80", "SignedConstant", 0xffff_ffff_ffff_8001, 0),
    (b"\x0c\x01\x00\x00\x80", "UnsignedConstant", 0x8000_0001, 0),
    (
        b"\x0d\x01\x00\x00\x80",
        "SignedConstant",
        0xffff_ffff_8000_0001,
        0,
    ),
    (
        b"\x0e\x01\x00\x00\x00\x00\x00\x00\x80",
        "UnsignedConstant",
        0x8000_0000_0000_0001,
        0,
    ),
    (
        b"\x0f\xfe\xff\xff\xff\xff\xff\xff\xff",
        "SignedConstant",
        0xffff_ffff_ffff_fffe,
        0,
    ),
    (b"\x10\x80\x01", "UnsignedConstant", 0x80, 0),
    (b"\x11\x40", "SignedConstant", 0xffff_ffff_ffff_ffc0, 0),
    (b"\x30", "UnsignedConstant", 0, 0),
    (b"\x4f", "UnsignedConstant", 0x1f, 0),
    (b"\xa1\x80\x01", "AddressIndex", 0x80, 0),
    (b"\xa2\x05", "ConstantIndex", 0x5, 0),
];

// Operations on the stack, and branches.
const ON_STACK: &[Case] = &[
    (b"\x06", "Deref", 0, 0),
    (b"\x18", "Deref", 0x1, 0),
    (b"\x12", "Pick", 0, 0),
    (b"\x14", "Pick", 0x1, 0),
    (b"\x15\x07", "Pick", 0x7, 0),
    (b"\x94\x02", "DerefSize", 0, 0x2),
    (b"\x95\x02", "DerefSize", 0x1, 0x2),
    (b"\x23\x80\x01", "PlusConstant", 0x80, 0),
    (b"\x28\xfe\xff", "Branch", 0xffff_ffff_ffff_fffe, 0),
    (b"\x2f\x02\x01", "Skip", 0x102, 0),
];

// Operations that name an entry, where a place in `.debug_info` has 4 bytes.
const OF_ENTRIES: &[Case] = &[
    (b"\x98\x34\x12", "Call", 0x1234, 0),
    (b"\x99\x78\x56\x34\x12", "Call", 0x1234_5678, 0),
    (b"\x9a\x05\x00\x00\x00", "CallRef", 0x5, 0),
    (
        b"\xa0\x05\x00\x00\x00\x7f",
        "ImplicitPointer",
        0x5,
        0xffff_ffff_ffff_ffff,
    ),
    (b"\xf2\x05\x00\x00\x00\x01", "ImplicitPointer", 0x5, 0x1),
    (b"\xfa\x05\x00\x00\x00", "ParameterRef", 0x5, 0),
    (b"\xfd\x05\x00\x00\x00", "VariableValue", 0x5, 0),
];

// Operations on values of base types.
const TYPED: &[Case] = &[
    (b"\xa4\x2a\x02\xaa\xbb", "ConstantType", 0x2a, 0xaabb),
    (b"\xf4\x2a\x00", "ConstantType", 0x2a, 0),
    (b"\xa5\x21\x2a", "RegisterType", 0x21, 0x2a),
    (b"\xf5\x21\x2a", "RegisterType", 0x21, 0x2a),
    (b"\xa6\x04\x2a", "DerefType", 0x4, 0x2a),
    (b"\xf6\x04\x2a", "DerefType", 0x4, 0x2a),
    (b"\xa7\x04\x2a", "DerefType in space", 0x4, 0x2a),
    (b"\xa8\x2a", "Convert", 0x1, 0x2a),
    (b"\xf7\x00", "Convert", 0, 0),
    (b"\xa9\x00", "Reinterpret", 0, 0),
    (b"\xf9\x2a", "Reinterpret", 0x1, 0x2a),
];

// Registers, pieces and other locations.
const LOCATIONS: &[Case] = &[
    (b"\x50", "Register", 0, 0),
    (b"\x6f", "Register", 0x1f, 0),
    (b"\x90\x80\x02", "Register", 0x100, 0),
    (b"\x91\x70", "FrameOffset", 0xffff_ffff_ffff_fff0, 0),
    (b"\x70\x01", "RegisterOffset", 0, 0x1),
    (b"\x8f\x7f", "RegisterOffset", 0x1f, 0xffff_ffff_ffff_ffff),
    (
        b"\x92\x80\x02\x7f",
        "RegisterOffset",
        0x100,
        0xffff_ffff_ffff_ffff,
    ),
    (b"\x93\x04", "Piece", 0x4, 0),
    (b"\x9d\x09\x03", "BitPiece", 0x9, 0x3),
    (b"\x9e\x02\xff\xfe", "ImplicitValue", 0xfffe, 0),
    (b"\xa3\x01\xff", "EntryValue", 0xff, 0),
    (b"\xf3\x00", "EntryValue", 0, 0),
    (b"\xed\x00\x05", "WasmLocal", 0x5, 0),
    (b"\xed\x01\x05", "WasmGlobal", 0x5, 0),
    (b"\xed\x02\x05", "WasmStack", 0x5, 0),
    (b"\xed\x03\x05\x00\x00\x00", "WasmGlobal", 0x5, 0),
];

fn cases() -> [&'static [Case]; 5] {
    [LITERALS, ON_STACK, OF_ENTRIES, TYPED, LOCATIONS]
}

/// The variant's name and its first two numbers.
pub(crate) type Told = (&'static str, u128, u128);

fn told(operation: &Operation<Slice<'_>>) -> Told {
    match operation {
        Operation::Simple(op) => ("Simple", op.0 as u128, 0),
        Operation::Address(n) => ("Address", *n as u128, 0),
        Operation::AddressIndex(n) => ("AddressIndex", *n as u128, 0),
        Operation::ConstantIndex(n) => ("ConstantIndex", *n as u128, 0),
        Operation::UnsignedConstant(n) => ("UnsignedConstant", *n as u128, 0),
        Operation::SignedConstant(z) => ("SignedConstant", modulo(*z), 0),
        Operation::FrameOffset(z) => ("FrameOffset", modulo(*z), 0),
        Operation::RegisterOffset(r, z) => ("RegisterOffset", r.0 as u128, modulo(*z)),
        Operation::Register(r) => ("Register", r.0 as u128, 0),
        Operation::Pick(n) => ("Pick", *n as u128, 0),
        Operation::Deref { space } => ("Deref", *space as u128, 0),
        Operation::DerefSize { space, size } => ("DerefSize", *space as u128, *size as u128),
        Operation::PlusConstant(n) => ("PlusConstant", *n as u128, 0),
        Operation::Skip(z) => ("Skip", modulo(*z as i64), 0),
        Operation::Branch(z) => ("Branch", modulo(*z as i64), 0),
        Operation::Piece { size_in_bytes } => ("Piece", *size_in_bytes as u128, 0),
        Operation::BitPiece {
            size_in_bits,
            bit_offset,
        } => ("BitPiece", *size_in_bits as u128, *bit_offset as u128),
        Operation::WasmLocal(n) => ("WasmLocal", *n as u128, 0),
        Operation::WasmGlobal(n) => ("WasmGlobal", *n as u128, 0),
        Operation::WasmStack(n) => ("WasmStack", *n as u128, 0),
        other => told_of_entries(other),
    }
}

/// A number modulo 2^64.
fn modulo(number: i64) -> u128 {
    number.cast_unsigned() as u128
}

/// An operation that names an entry or has bytes.
fn told_of_entries(operation: &Operation<Slice<'_>>) -> Told {
    match operation {
        Operation::Call(entry) => ("Call", entry.0 as u128, 0),
        Operation::CallRef(entry) => ("CallRef", entry.0 as u128, 0),
        Operation::VariableValue(entry) => ("VariableValue", entry.0 as u128, 0),
        Operation::ParameterRef(entry) => ("ParameterRef", entry.0 as u128, 0),
        Operation::ImplicitPointer { entry, byte_offset } => {
            ("ImplicitPointer", entry.0 as u128, modulo(*byte_offset))
        }
        Operation::Convert(None) => ("Convert", 0, 0),
        Operation::Convert(Some(base)) => ("Convert", 1, base.0 as u128),
        Operation::Reinterpret(None) => ("Reinterpret", 0, 0),
        Operation::Reinterpret(Some(base)) => ("Reinterpret", 1, base.0 as u128),
        Operation::RegisterType(r, base) => ("RegisterType", r.0 as u128, base.0 as u128),
        Operation::DerefType { space, size, base } => (
            if *space {
                "DerefType in space"
            } else {
                "DerefType"
            },
            *size as u128,
            base.0 as u128,
        ),
        Operation::ConstantType(base, value) => {
            ("ConstantType", base.0 as u128, number_of(value.to_slice()))
        }
        Operation::EntryValue(inner) => ("EntryValue", number_of(inner.0.to_slice()), 0),
        Operation::ImplicitValue(value) => ("ImplicitValue", number_of(value.to_slice()), 0),
        _ => ("", 0, 0),
    }
}

/// The operations of bytes.
pub(crate) fn operations(
    bytes: &[u8],
    endian: RunTimeEndian,
    encoding: Encoding,
) -> OperationIter<Slice<'_>> {
    OperationIter::new(Expression(EndianSlice::new(bytes, endian)), encoding)
}

/// The next operation.
pub(crate) fn next_operation(
    operations: &mut OperationIter<Slice<'_>>,
) -> ReadResult<Option<Told>> {
    match operations.next() {
        Ok(Some(operation)) => Ok(Some(told(&operation))),
        Ok(None) => Ok(None),
        Err(reason) => Err(reason),
    }
}

/// Whether the bytes are this one operation.
fn is_read(bytes: &[u8], endian: RunTimeEndian, encoding: Encoding, wanted: Told) -> bool {
    let mut rest = operations(bytes, endian, encoding);
    next_operation(&mut rest) == Ok(Some(wanted)) && rest.place() == bytes.len()
}

/// Whether the bytes are the operation of the case, where numbers begin with their lowest byte.
fn is_case(case: &Case, version: u16) -> bool {
    let wanted = (case.1, case.2, case.3);
    is_read(case.0, RunTimeEndian::Little, narrow(version), wanted)
}

fn is_simple(code: u8, version: u16) -> bool {
    let wanted = ("Simple", code as u128, 0);
    is_read(&[code], RunTimeEndian::Little, narrow(version), wanted)
}

/// The first case of a table that isn't read so.
fn first_missed(table: &[Case], version: u16) -> Option<usize> {
    for (row, case) in table.iter().enumerate() {
        if !is_case(case, version) {
            return Some(row);
        }
    }
    None
}

/// The first table, and the first case of it, that isn't read so.
fn first_missed_of_all(version: u16) -> Option<(usize, usize)> {
    for (number, table) in cases().iter().enumerate() {
        if let Some(row) = first_missed(table, version) {
            return Some((number, row));
        }
    }
    None
}

/// The first code of an operation without operands that isn't read so.
fn first_missed_code(version: u16) -> Option<u8> {
    for code in SIMPLE {
        if !is_simple(*code, version) {
            return Some(*code);
        }
    }
    None
}

#[test]
fn reads_operations(rt: HostRuntime) {
    for version in 2..=5 {
        let missed = (first_missed_code(version), first_missed_of_all(version));
        assert_eq!(rt; missed, (None, None), "in version {version}");
    }
}

// A place in `.debug_info` is an address wide in version 2, and has 8 bytes in the 64-bit format.
const OLD: Encoding = Encoding {
    address_size: 8,
    format: Format::Dwarf32,
    version: 2,
};

const LONG: Encoding = Encoding {
    address_size: 8,
    format: Format::Dwarf64,
    version: 4,
};

const LONG_FIVE: Encoding = Encoding {
    address_size: 8,
    format: Format::Dwarf64,
    version: 5,
};

const PLACES: &[(Encoding, &[u8], Told)] = &[
    (
        OLD,
        b"\xf2\x05\x00\x00\x00\x00\x00\x00\x00\x01",
        ("ImplicitPointer", 5, 1),
    ),
    (
        LONG,
        b"\xf2\x05\x00\x00\x00\x00\x00\x00\x00\x01",
        ("ImplicitPointer", 5, 1),
    ),
    (OLD, b"\x9a\x05\x00\x00\x00", ("CallRef", 5, 0)),
    (
        LONG_FIVE,
        b"\xfd\x05\x00\x00\x00\x00\x00\x00\x00",
        ("VariableValue", 5, 0),
    ),
];

// With the highest byte first.
const BIG: &[(&[u8], Told)] = &[
    (b"\x03\x12\x34\x56\x78", ("Address", 0x1234_5678, 0)),
    (b"\x2f\xff\xfe", ("Skip", 0xffff_ffff_ffff_fffe, 0)),
    (
        b"\x0d\x80\x00\x00\x01",
        ("SignedConstant", 0xffff_ffff_8000_0001, 0),
    ),
    (b"\xed\x03\x00\x00\x00\x05", ("WasmGlobal", 5, 0)),
];

fn of_places() -> &'static [(Encoding, &'static [u8], Told)] {
    PLACES
}

fn big() -> &'static [(&'static [u8], Told)] {
    BIG
}

#[test]
fn reads_operations_by_encoding(rt: HostRuntime) {
    for (encoding, bytes, wanted) in of_places() {
        let is_so = is_read(bytes, RunTimeEndian::Little, *encoding, *wanted);
        assert!(rt; is_so, "{bytes:?}");
    }
}

#[test]
fn reads_operations_of_the_other_order(rt: HostRuntime) {
    for (bytes, wanted) in big() {
        let is_so = is_read(bytes, RunTimeEndian::Big, narrow(5), *wanted);
        assert!(rt; is_so, "{bytes:?}");
    }
}

/// The place of the bytes that an operation has.
fn part_of(operation: &Operation<Slice<'_>>) -> usize {
    match operation {
        Operation::ConstantType(_, value) => value.place(),
        Operation::ImplicitValue(value) => value.place(),
        Operation::EntryValue(inner) => inner.0.place(),
        _ => 0,
    }
}

/// Bytes are parts of the section, each at its place, and nothing in them is read. For each
/// operation: where its part begins, and the place behind it, from which branches count.
const PARTS: &[(usize, usize)] = &[
    (3, 5),
    (8, 9),
    (11, 13),
    (15, 16),
    (18, 18),
    (0, 21),
    (0, 23),
];

fn parts() -> &'static [(usize, usize)] {
    PARTS
}

/// Where the part of the next operation begins, and the place behind the operation.
fn next_part(operations: &mut OperationIter<Slice<'_>>) -> (ReadResult<Option<usize>>, usize) {
    let begin = match operations.next() {
        Ok(Some(operation)) => Ok(Some(part_of(&operation))),
        Ok(None) => Ok(None),
        Err(reason) => Err(reason),
    };
    (begin, operations.place())
}

/// The first operation that has another part, or ends at another place.
fn first_other_part(operations: &mut OperationIter<Slice<'_>>) -> Option<usize> {
    for (row, (part, place)) in parts().iter().enumerate() {
        if next_part(operations) != (Ok(Some(*part)), *place) {
            return Some(row);
        }
    }
    None
}

#[test]
fn hands_out_parts_of_the_section(rt: HostRuntime) {
    let bytes = b"\xa4\x2a\x02\xaa\xbb\xf4\x2a\x01\xff\x9e\x02\xff\xfe\xa3\x01\xff\xf3\x00\
        \x2f\x02\x00\x10\x17";
    let mut rest = operations(bytes, RunTimeEndian::Little, narrow(4));
    let begin = rest.place();
    let other = first_other_part(&mut rest);
    let is_at_end = next_part(&mut rest) == (Ok(None), 23);
    assert_eq!(rt; (begin, other, is_at_end), (0, None, true));
}
