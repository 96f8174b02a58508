//! Sequences of line programs.

ghost use Rattle.std.specs.Prelude.{◌≡◌, ◌<◌, All, OnOk, IfErr, IsTrue, IsFalse};
ghost use Rattle.std.specs.List.{list_all, list_any};
ghost use Rattle.dw_base.specs.Numbers.{is_width};
ghost use Rattle.dw_base.specs.declared.error.Error.{Error as AnError};
ghost use Rattle.dw_writer.specs.Meaning.{IsSameWriter, Appends};
ghost use Rattle.dw_line.specs.LineRows.{built_sequence, written_header, last_offset, are_in_order, is_end_in_order};
ghost use Rattle.dw_line.specs.Parts.{KeepsFront, sizes, texts, Refused};
ghost use Rattle.dw_line.specs.Programs.{is_in_order, ended_size, ended_text, ended_fails, IsEndedAfter};
ghost use Rattle.dw_line.specs.RawRows.{row_before, AreRowsAfter};
ghost use Rattle.dw_line.specs.SequenceTexts.{set_address_size, set_address_model, address_fails, sequence_size, sequence_model, sequence_fails};

use crate::row::{LineRow, write_end, write_rows};
use dw_base::constants::DW_LNE_set_address;
use dw_base::{Address, Encoding, LineEncoding, Result};
use dw_writer::Writer;
use std::marker::Model;

/// Rows whose addresses rise from one address on.
#[derive(Drop)]
pub(crate) struct LineSequence {
    address: Option<Address>,
    rows: Vec<LineRow>,
    /// The address offset past the last instruction.
    end: u64,
}

impl Model for LineSequence {
    ghost use Rattle.dw_line.specs.Programs.{SequenceValue};

    ghost Value = { SequenceValue };

    ghost view = { λ s. record { address = s.address; rows = s.rows.items; end = s.end } };
}

impl LineSequence {
    /// Rows up to an address offset.
    pub(crate) fn new(address: Option<Address>, rows: Vec<LineRow>, end: u64) -> LineSequence
        ensures { result ≡ record { address = address; rows = rows.items; end = end } }
    {
        LineSequence { address, rows, end }
    }

    /// Writes the sequence.
    fn write<W: Writer>(
        &self,
        encoding: Encoding,
        line_encoding: LineEncoding,
        w: &mut W,
    ) -> Result<()>
        requires width { IsTrue (is_width encoding.address_size) }
        requires positive { 0 < line_encoding.minimum_instruction_length }
        requires order { IsTrue (is_in_order line_encoding.minimum_instruction_length self.now) }
        ensures ok { OnOk result
            (Appends (W.meaning w.old) (W.meaning w.new)
            (ended_size encoding line_encoding self.now)
            (ended_text encoding line_encoding self.now)) }
        ensures sound { OnOk result
            ((e : AnError) → IsFalse (ended_fails
            (W.meaning w.old).is_plain encoding line_encoding self.now e)) }
        ensures after { OnOk result (IsEndedAfter
            (W.meaning w.old).is_big encoding line_encoding self.now) }
        ensures err { IfErr result
            (Refused (W.meaning w.old) (W.meaning w.new)
            (ended_fails (W.meaning w.old).is_plain encoding line_encoding self.now)) }
        ensures same { IsSameWriter (W.meaning w.old) (W.meaning w.new) }
        ensures front { KeepsFront (W.meaning w.old) (W.meaning w.new) }
    {
        write_sequence(
            encoding,
            line_encoding,
            self.address,
            self.rows.as_slice(),
            Some(self.end),
            w,
        )
    }
}

/// Writes the instruction that sets the address of a sequence, where one is given.
fn write_set_address<W: Writer>(address: Option<Address>, size: u8, w: &mut W) -> Result<()>
    requires width { IsTrue (is_width size) }
    ensures ok { OnOk result
        (Appends (W.meaning w.old) (W.meaning w.new)
        (set_address_size size address) (set_address_model size address)) }
    ensures sound { OnOk result
        ((e : AnError) → IsFalse (address_fails (W.meaning w.old).is_plain size address e)) }
    ensures err { IfErr result
        (Refused (W.meaning w.old) (W.meaning w.new)
        (address_fails (W.meaning w.old).is_plain size address)) }
    ensures same { IsSameWriter (W.meaning w.old) (W.meaning w.new) }
    ensures front { KeepsFront (W.meaning w.old) (W.meaning w.new) }
{
    match address {
        Some(address) => {
            w.write_u8(0)?;
            w.write_uleb128(1 + size as u64)?;
            w.write_u8(DW_LNE_set_address.0)?;
            w.write_address(address, size)
        }
        None => Ok(()),
    }
}

/// Writes a sequence: its address, if one is given, its rows, and its end, if it was ended.
pub(crate) fn write_sequence<W: Writer>(
    encoding: Encoding,
    line_encoding: LineEncoding,
    address: Option<Address>,
    rows: &[LineRow],
    end: Option<u64>,
    w: &mut W,
) -> Result<()>
    requires width { IsTrue (is_width encoding.address_size) }
    requires positive { 0 < line_encoding.minimum_instruction_length }
    requires order { IsTrue (are_in_order line_encoding.minimum_instruction_length 0 rows.now) }
    requires end { IsTrue
        (is_end_in_order line_encoding.minimum_instruction_length (last_offset 0 rows.now) end) }
    ensures ok { OnOk result
        (Appends (W.meaning w.old) (W.meaning w.new)
        (sequence_size encoding.address_size line_encoding.minimum_instruction_length
        (row_before line_encoding.default_is_stmt)
        (built_sequence encoding.version address rows.now end))
        (sequence_model encoding.address_size line_encoding.minimum_instruction_length
        (row_before line_encoding.default_is_stmt)
        (built_sequence encoding.version address rows.now end))) }
    ensures sound { OnOk result
        ((e : AnError) → IsFalse (sequence_fails (W.meaning w.old).is_plain encoding.address_size
        (row_before line_encoding.default_is_stmt)
        (built_sequence encoding.version address rows.now end) e)) }
    ensures after { OnOk result
        (AreRowsAfter (written_header (W.meaning w.old).is_big line_encoding)
        (row_before line_encoding.default_is_stmt)
        (built_sequence encoding.version address rows.now end).rows end) }
    ensures err { IfErr result
        (Refused (W.meaning w.old) (W.meaning w.new)
        (sequence_fails (W.meaning w.old).is_plain encoding.address_size
        (row_before line_encoding.default_is_stmt)
        (built_sequence encoding.version address rows.now end))) }
    ensures same { IsSameWriter (W.meaning w.old) (W.meaning w.new) }
    ensures front { KeepsFront (W.meaning w.old) (W.meaning w.new) }
{
    let version = encoding.version;
    let minimum_length = line_encoding.minimum_instruction_length;
    write_set_address(address, encoding.address_size, w)?;
    let first = LineRow::before(version, line_encoding.default_is_stmt);
    let last = write_rows(first, rows, version, minimum_length, w)?;
    match end {
        Some(end) => write_end(last.address_offset, end, minimum_length, w),
        None => Ok(()),
    }
}

/// Writes sequences, one after another.
pub(crate) fn write_sequences<W: Writer>(
    encoding: Encoding,
    line_encoding: LineEncoding,
    sequences: &[LineSequence],
    w: &mut W,
) -> Result<()>
    requires width { IsTrue (is_width encoding.address_size) }
    requires positive { 0 < line_encoding.minimum_instruction_length }
    requires order { IsTrue
        (list_all (is_in_order line_encoding.minimum_instruction_length) sequences.now) }
    ensures ok { OnOk result
        (Appends (W.meaning w.old) (W.meaning w.new)
        (sizes (ended_size encoding line_encoding) sequences.now)
        (texts (ended_text encoding line_encoding) sequences.now)) }
    ensures sound { OnOk result
        ((e : AnError) → IsFalse (list_any (λ s. ended_fails
        (W.meaning w.old).is_plain encoding line_encoding s e) sequences.now)) }
    ensures after { OnOk result
        (All (IsEndedAfter (W.meaning w.old).is_big encoding line_encoding) sequences.now) }
    ensures err { IfErr result
        (Refused (W.meaning w.old) (W.meaning w.new)
        (λ e. list_any (λ s. ended_fails
        (W.meaning w.old).is_plain encoding line_encoding s e) sequences.now)) }
    ensures same { IsSameWriter (W.meaning w.old) (W.meaning w.new) }
    ensures front { KeepsFront (W.meaning w.old) (W.meaning w.new) }
{
    for sequence in sequences {
        sequence.write(encoding, line_encoding, w)?;
    }
    Ok(())
}
