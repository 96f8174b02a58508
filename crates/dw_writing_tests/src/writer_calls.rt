//! Calls of writers as values, so that tables can hold them.

use dw_base::{Address, DwEhPe, Endianity, Error, Format, Result, SectionId};
use dw_writer::{EndianVec, FaultVec, RelocVec, Relocation, Writer};

/// A call, with what it is given; a call that patches is given its place first.
#[derive(Clone, Copy)]
pub enum Call {
    Bytes(&'static [u8]),
    U8(u8),
    U16(u16),
    U32(u32),
    U64(u64),
    U128(u128),
    Udata(u64, u8),
    Sdata(i64, u8),
    Uleb128(u64),
    Sleb128(i64),
    /// A length that is left open, and put in where it is.
    Length(u64, Format),
    Address(Address, u8),
    Pointer(Address, DwEhPe, u8),
    Offset(usize, SectionId, u8),
    Reference(usize, u8),
    BytesAt(usize, &'static [u8]),
    U8At(usize, u8),
    U16At(usize, u16),
    U32At(usize, u32),
    U64At(usize, u64),
    UdataAt(usize, u64, u8),
    LengthAt(usize, u64, Format),
    OffsetAt(usize, usize, SectionId, u8),
}

/// A call, and what it is to answer.
pub type Answer = (Call, Result<()>);

pub const FAULT: Result<()> = Err(Error::WriteFault);

/// A symbol's address.
pub const SYMBOL: Address = Address::Symbol {
    symbol: 0,
    addend: 0,
};

fn add<W: Writer>(w: &mut W, call: Call) -> Result<()> {
    match call {
        Call::Bytes(bytes) => w.write(bytes),
        Call::U8(val) => w.write_u8(val),
        Call::U16(val) => w.write_u16(val),
        Call::U32(val) => w.write_u32(val),
        Call::U64(val) => w.write_u64(val),
        Call::U128(val) => w.write_u128(val),
        Call::Udata(val, size) => w.write_udata(val, size),
        Call::Sdata(val, size) => w.write_sdata(val, size),
        Call::Uleb128(val) => w.write_uleb128(val),
        Call::Sleb128(val) => w.write_sleb128(val),
        Call::Length(val, format) => {
            let place = w.write_initial_length(format)?;
            w.write_initial_length_at(place, val, format)
        }
        Call::Address(address, size) => w.write_address(address, size),
        Call::Pointer(address, encoding, size) => w.write_eh_pointer(address, encoding, size),
        Call::Offset(val, section, size) => w.write_offset(val, section, size),
        Call::Reference(symbol, size) => w.write_reference(symbol, size),
        _ => patch(w, call),
    }
}

fn patch<W: Writer>(w: &mut W, call: Call) -> Result<()> {
    match call {
        Call::BytesAt(place, bytes) => w.write_at(place, bytes),
        Call::U8At(place, val) => w.write_u8_at(place, val),
        Call::U16At(place, val) => w.write_u16_at(place, val),
        Call::U32At(place, val) => w.write_u32_at(place, val),
        Call::U64At(place, val) => w.write_u64_at(place, val),
        Call::UdataAt(place, val, size) => w.write_udata_at(place, val, size),
        Call::LengthAt(place, val, format) => w.write_initial_length_at(place, val, format),
        Call::OffsetAt(place, val, section, size) => w.write_offset_at(place, val, section, size),
        _ => Err(Error::OffsetOutOfBounds),
    }
}

/// The number of the first call that answers something else than it should.
pub fn first_wrong<W: Writer>(w: &mut W, answers: &[Answer]) -> Option<usize> {
    for (i, (call, answer)) in answers.iter().enumerate() {
        if add(w, *call) != *answer {
            return Some(i);
        }
    }
    None
}

/// Makes each of the calls.
fn run<W: Writer>(w: &mut W, calls: &[Call]) -> Result<()> {
    for call in calls {
        add(w, *call)?;
    }
    Ok(())
}

/// A vector whose bytes and records can be looked at.
pub trait Held {
    fn bytes(&self) -> &[u8];

    fn records(&self) -> &[Relocation];
}

impl<E: Endianity> Held for EndianVec<E> {
    fn bytes(&self) -> &[u8] {
        self.slice()
    }

    fn records(&self) -> &[Relocation] {
        &[]
    }
}

impl<E: Endianity> Held for FaultVec<E> {
    fn bytes(&self) -> &[u8] {
        self.slice()
    }

    fn records(&self) -> &[Relocation] {
        &[]
    }
}

impl<E: Endianity> Held for RelocVec<E> {
    fn bytes(&self) -> &[u8] {
        self.slice()
    }

    fn records(&self) -> &[Relocation] {
        self.relocations()
    }
}

/// Tells that a vector holds these bytes and these records.
pub fn holds<W: Held>(w: &W, bytes: &[u8], records: &[Relocation]) -> bool {
    w.bytes() == bytes && w.records() == records
}

/// Calls, and the bytes and records that they leave.
#[derive(Drop)]
pub struct Left {
    pub calls: &'static [Call],
    pub bytes: &'static [u8],
    pub records: &'static [Relocation],
}

/// Tells that calls are taken, and leave these bytes and these records.
pub fn leaves<W: Writer + Held>(w: &mut W, left: &Left) -> bool {
    run(w, left.calls).is_ok() && w.len() == left.bytes.len() && holds(w, left.bytes, left.records)
}

/// Calls with their answers, and the bytes and records that there are then.
#[derive(Drop)]
pub struct Answered {
    pub calls: &'static [Answer],
    pub bytes: &'static [u8],
    pub records: &'static [Relocation],
}

/// Tells that calls are answered so, and leave these bytes and these records.
pub fn answers<W: Writer + Held>(w: &mut W, wanted: &Answered) -> bool {
    first_wrong(w, wanted.calls).is_none() && holds(w, wanted.bytes, wanted.records)
}
