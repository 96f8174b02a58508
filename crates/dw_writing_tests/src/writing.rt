//! Programs as they are written, beside bytes that were put down by hand.

use crate::owned::drop;
use crate::programs::{Unit, encoding_of};
use dw_base::{Encoding, Error, Result, RunTimeEndian};
use dw_line::LineProgram;
use dw_strings::{LineStringTable, StringTable};
use dw_writer::{DebugLine, EndianVec, FaultVec, RelocVec, Relocation, Writer};
use std::alloc::Global;

/// What the writing of a program comes to.
pub enum Wanted {
    /// These bytes, in this order.
    Bytes(RunTimeEndian, &'static str),
    /// These bytes and records, by a writer that leaves places to a linker.
    Records(&'static str, &'static [Relocation]),
    /// This refusal, or none, for a unit of this encoding.
    Answer(Unit, Option<Error>),
    /// The writer's fault at this call, behind what stood there.
    FaultAt(u64),
}

/// The value of a hex digit.
fn digit(byte: u8) -> Option<u8> {
    match byte {
        b'0'..=b'9' => Some(byte - b'0'),
        b'a'..=b'f' => Some(byte - b'a' + 10),
        _ => None,
    }
}

/// Tells that a text of hex digits, in which spaces don't count, spells these bytes.
fn is_spelled(bytes: &[u8], hex: &str) -> bool {
    let mut digits = hex.bytes().filter_map(digit);
    for byte in bytes {
        if (digits.next(), digits.next()) != (Some(byte / 16), Some(byte % 16)) {
            return false;
        }
    }
    digits.next().is_none()
}

/// Adds strings of `.debug_str` at 0 and 2, and of `.debug_line_str` at 0 and 5.
fn add_strings(strings: &mut StringTable, line_strings: &mut LineStringTable) -> Result<()> {
    strings.add(b"s")?;
    strings.add(b"b.c")?;
    line_strings.add(b"/tmp")?;
    line_strings.add(b"a.c")?;
    Ok(())
}

/// Writes a program for a unit of an encoding, and gives its place.
fn write_over<W: Writer>(
    strings: &mut StringTable,
    line_strings: &mut LineStringTable,
    program: &LineProgram,
    unit: Encoding,
    w: &mut DebugLine<W>,
) -> Result<usize> {
    add_strings(strings, line_strings)?;
    let place = program.write(w, unit, line_strings, strings)?;
    Ok(place.0)
}

/// The same over tables that it owns, so that no `?` stands beside them.
fn write<W: Writer>(
    alloc: Global,
    program: &LineProgram,
    unit: Encoding,
    w: &mut DebugLine<W>,
) -> Result<usize> {
    let mut strings = StringTable::new(alloc);
    let mut line_strings = LineStringTable::new(alloc);
    let place = write_over(&mut strings, &mut line_strings, program, unit, w);
    drop(strings);
    drop(line_strings);
    place
}

/// Tells that a program is written as these bytes.
fn is_written(alloc: Global, program: &LineProgram, endian: RunTimeEndian, hex: &str) -> bool {
    let mut w = DebugLine::from(EndianVec::new(alloc, endian));
    let place = write(alloc, program, program.encoding(), &mut w);
    place == Ok(0) && is_spelled(w.0.slice(), hex)
}

/// Tells that a writer of relocations gets these bytes, and these relocations.
fn is_relocated(
    alloc: Global,
    program: &LineProgram,
    hex: &str,
    relocations: &[Relocation],
) -> bool {
    let mut w = DebugLine::from(RelocVec::new(alloc, RunTimeEndian::Little));
    let place = write(alloc, program, program.encoding(), &mut w);
    place == Ok(0) && is_spelled(w.0.slice(), hex) && w.0.relocations() == relocations
}

/// Why a program is refused for a unit of an encoding.
fn refusal(alloc: Global, program: &LineProgram, unit: Encoding) -> Option<Error> {
    let mut w = DebugLine::from(EndianVec::new(alloc, RunTimeEndian::Little));
    write(alloc, program, unit, &mut w).err()
}

/// What a write answers, if it leaves what stood before it.
fn answer_behind(
    alloc: Global,
    program: &LineProgram,
    w: &mut DebugLine<FaultVec<RunTimeEndian>>,
) -> Result<Option<Error>> {
    w.0.write(&[1, 2, 3])?;
    let answer = write(alloc, program, program.encoding(), w);
    if w.0.slice().starts_with(&[1, 2, 3]) {
        Ok(answer.err())
    } else {
        Ok(None)
    }
}

/// The same where this call of the writer fails.
fn fault(alloc: Global, program: &LineProgram, failing: u64) -> Result<Option<Error>> {
    let calls = vec![in alloc; failing]?;
    let mut w = DebugLine::from(FaultVec::new(alloc, RunTimeEndian::Little, calls));
    answer_behind(alloc, program, &mut w)
}

/// Tells that the writing of a program comes to what is wanted.
pub fn is_as(alloc: Global, program: &LineProgram, wanted: &Wanted) -> bool {
    match wanted {
        Wanted::Bytes(endian, hex) => is_written(alloc, program, *endian, hex),
        Wanted::Records(hex, records) => is_relocated(alloc, program, hex, records),
        Wanted::Answer(unit, why) => refusal(alloc, program, encoding_of(*unit)) == *why,
        Wanted::FaultAt(call) => fault(alloc, program, *call) == Ok(Some(Error::WriteFault)),
    }
}
