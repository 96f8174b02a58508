//! What a reader hands out at a place (DWARF 5, 7.4, 7.5.1 and 7.6).

use crate::tests::numbers::Call::{
    Address, Length, Sleb, Text, U8, U16, U32, U64, U128, Uint, Uleb, Word,
};
use crate::tests::sections::Slice;
use crate::tests::told::number_of;
use dw_base::RunTimeEndian::{Big, Little};
use dw_base::{Format, RunTimeEndian};
use dw_read::{EndianSlice, ReadError, ReadResult, Reader};

/// A call of a reader.
#[derive(Clone, Copy)]
enum Call {
    U8,
    U16,
    U32,
    U64,
    U128,
    /// Three bytes.
    Uint,
    Uleb,
    Sleb,
    Text,
    Address(u8),
    Word(Format),
    /// An initial length. One of the 64-bit format counts from 2^64 on.
    Length,
}

/// What a call answers, a signed number modulo 2^64 and a text as a number whose first byte is the
/// highest.
fn answer(reader: &mut Slice<'_>, call: Call) -> ReadResult<u128> {
    match call {
        Call::U128 => reader.read_u128(),
        Call::Sleb => Ok(reader.read_sleb128()?.cast_unsigned() as u128),
        Call::Text => Ok(number_of(reader.read_null_terminated()?.to_slice())),
        Call::Word(format) => Ok(reader.read_word(format)? as u128),
        Call::Length => length(reader),
        _ => Ok(narrower(reader, call)? as u128),
    }
}

fn length(reader: &mut Slice<'_>) -> ReadResult<u128> {
    match reader.read_initial_length()? {
        (length, Format::Dwarf32) => Ok(length as u128),
        (length, Format::Dwarf64) => Ok((1u128 << 64).wrapping_add(length as u128)),
    }
}

fn narrower(reader: &mut Slice<'_>, call: Call) -> ReadResult<u64> {
    match call {
        Call::U8 => Ok(reader.read_u8()? as u64),
        Call::U16 => Ok(reader.read_u16()? as u64),
        Call::U32 => Ok(reader.read_u32()? as u64),
        Call::U64 => reader.read_u64(),
        Call::Uint => reader.read_uint(3),
        Call::Address(size) => reader.read_address(size),
        _ => reader.read_uleb128(),
    }
}

const BYTES: &[u8] = b"\x01\x02\x03\x04\x05\x06\x07\x08\x09\x0a\x0b\x0c\x0d\x0e\x0f\x10";

const ADDRESSES: &[u8] = b"\x01\x02\x00\x03\x00\x00\x00";

const TEXTS: &[u8] = b"main\0\0end";

const CUT: ReadResult<u128> = Err(ReadError::UnexpectedEof);

const LARGE: ReadResult<u128> = Err(ReadError::BadLeb128);

/// Bytes, their order, how many are passed first, the call, its answer, and the place behind it.
type Case = (
    &'static [u8],
    RunTimeEndian,
    usize,
    Call,
    ReadResult<u128>,
    usize,
);

const CASES: &[Case] = &[
    (BYTES, Little, 0, U16, Ok(0x0201), 2),
    (BYTES, Big, 0, U16, Ok(0x0102), 2),
    (BYTES, Little, 0, Uint, Ok(0x0003_0201), 3),
    (BYTES, Big, 0, U8, Ok(1), 1),
    (BYTES, Big, 1, U32, Ok(0x0203_0405), 5),
    (BYTES, Big, 5, U64, Ok(0x0607_0809_0a0b_0c0d), 13),
    (BYTES, Big, 13, Word(Format::Dwarf64), CUT, 13),
    (
        BYTES,
        Little,
        12,
        Word(Format::Dwarf32),
        Ok(0x100f_0e0d),
        16,
    ),
    (
        BYTES,
        Big,
        0,
        U128,
        Ok(0x0102_0304_0506_0708_090a_0b0c_0d0e_0f10),
        16,
    ),
    (BYTES, Big, 1, U128, CUT, 1),
    (ADDRESSES, Little, 0, Address(1), Ok(1), 1),
    (ADDRESSES, Little, 1, Address(2), Ok(2), 3),
    (ADDRESSES, Little, 3, Address(4), Ok(3), 7),
    (ADDRESSES, Little, 0, Address(8), CUT, 0),
    (
        ADDRESSES,
        Little,
        0,
        Address(3),
        Err(ReadError::UnsupportedAddressSize(3)),
        0,
    ),
    (b"\x80\x80\x00", Little, 0, Uleb, Ok(0), 3),
    (b"\xe5\x8e\x26", Little, 0, Uleb, Ok(624485), 3),
    (
        b"\xff\xff\xff\xff\xff\xff\xff\xff\xff\x01",
        Little,
        0,
        Uleb,
        Ok(u64::MAX as u128),
        10,
    ),
    (
        b"\xff\xff\xff\xff\xff\xff\xff\xff\xff\x02\x00",
        Little,
        0,
        Uleb,
        LARGE,
        0,
    ),
    (b"\x00\x80\x80", Little, 1, Uleb, CUT, 1),
    (b"\x02", Little, 0, Sleb, Ok(2), 1),
    (b"\x7e", Little, 0, Sleb, Ok(0xffff_ffff_ffff_fffe), 1),
    (b"\xff\x00", Little, 0, Sleb, Ok(127), 2),
    (b"\x81\x7f", Little, 0, Sleb, Ok(0xffff_ffff_ffff_ff81), 2),
    (b"\x80\x01", Little, 0, Sleb, Ok(128), 2),
    (b"\x80\x7f", Little, 0, Sleb, Ok(0xffff_ffff_ffff_ff80), 2),
    (b"\xff\x7f", Little, 0, Sleb, Ok(0xffff_ffff_ffff_ffff), 2),
    (
        b"\x80\x80\x80\x80\x80\x80\x80\x80\x80\x7f",
        Little,
        0,
        Sleb,
        Ok(1 << 63),
        10,
    ),
    (
        b"\xff\xff\xff\xff\xff\xff\xff\xff\xff\x7e",
        Little,
        0,
        Sleb,
        LARGE,
        0,
    ),
    (b"\xef\xff\xff\xff", Little, 0, Length, Ok(0xffff_ffef), 4),
    (
        b"\xff\xff\xff\xff\x07\x00\x00\x00\x00\x00\x00\x00",
        Little,
        0,
        Length,
        Ok((1 << 64) + 7),
        12,
    ),
    (
        b"\xf0\xff\xff\xff",
        Little,
        0,
        Length,
        Err(ReadError::UnknownReservedLength),
        0,
    ),
    (b"\xff\xff\xff\xff\x07\x00", Little, 0, Length, CUT, 0),
    (TEXTS, Little, 0, Text, Ok(0x6d61_696e), 5),
    (TEXTS, Little, 5, Text, Ok(0), 6),
    (TEXTS, Little, 6, Text, CUT, 6),
];

fn cases() -> &'static [Case] {
    CASES
}

#[test]
fn reads_numbers_and_texts(rt: HostRuntime) {
    for (bytes, endian, passed, call, wanted, place) in cases() {
        let mut reader = EndianSlice::new(bytes, *endian);
        let was_passed = reader.skip(*passed).is_ok();
        let read = answer(&mut reader, *call);
        assert!(rt;
            was_passed && read == *wanted && reader.place() == *place,
            "{bytes:?}"
        );
    }
}

/// Numbers of 300 bytes: the first byte, those between and the last, and what they are without a
/// sign and with one. A number may have any length as far as its value fits.
type Long = (u8, u8, u8, ReadResult<u128>, ReadResult<u128>);

const LONG: &[Long] = &[
    (0x85, 0x80, 0x00, Ok(5), Ok(5)),
    (0x85, 0x80, 0x01, LARGE, LARGE),
    (0xff, 0xff, 0xff, CUT, CUT),
    (0xff, 0xff, 0x7f, LARGE, Ok(0xffff_ffff_ffff_ffff)),
];

fn long() -> &'static [Long] {
    LONG
}

/// What a call answers at the begin of bytes.
fn answer_at(bytes: &[u8], call: Call) -> ReadResult<u128> {
    answer(&mut EndianSlice::new(bytes, Little), call)
}

#[test]
fn reads_numbers_of_any_length(rt: HostRuntime) {
    for (first, middle, last, unsigned, signed) in long() {
        let mut bytes = [*middle; 300];
        bytes[0] = *first;
        bytes[299] = *last;
        let read = (answer_at(&bytes, Uleb), answer_at(&bytes, Sleb));
        assert!(rt; read == (*unsigned, *signed), "{first:#x} to {last:#x}");
    }
}
