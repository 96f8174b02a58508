//! Rows of line programs.

ghost use Rattle.std.specs.Prelude.{◌≡◌, ◌<◌, ◌≤◌, length, map, All, OnOk, IfOk, IfErr, Some, IsTrue};
ghost use Rattle.dw_base.specs.Leb128.{fits_i64};
ghost use Rattle.dw_writer.specs.Meaning.{IsSameWriter, Adds};
ghost use Rattle.dw_writer.specs.Causes.{BytesRefused};
ghost use Rattle.dw_line.specs.Parts.{KeepsFront};
ghost use Rattle.dw_line.specs.LineRows.{raw_row, first_line_row, last_offset, are_in_order, IsRanged};
ghost use Rattle.dw_line.specs.RawRows.{line_change, row_before};
ghost use Rattle.dw_line.specs.RowTexts.{row_text, rows_text, last_row, end_text, lines_fit, LineRefused, RowsRefused};

use crate::opcode::{write_discriminator, write_file, write_line, write_mark, write_number};
use dw_base::constants::{
    DW_LNE_end_sequence, DW_LNS_advance_pc, DW_LNS_copy, DW_LNS_negate_stmt,
    DW_LNS_set_basic_block, DW_LNS_set_column, DW_LNS_set_epilogue_begin, DW_LNS_set_isa,
    DW_LNS_set_prologue_end,
};
use dw_base::{FileId, Result};
use dw_writer::Writer;

/// A row of a line program (DWARF 5, 6.2.2).
#[derive(Clone, Copy, PartialEq, Eq)]
pub struct LineRow {
    /// The address of the instruction, in bytes from the sequence's address on.
    pub address_offset: u64,
    /// The source file.
    pub file: FileId,
    /// The line in the source, counted from 1, or 0 where the instruction comes from none.
    pub line: u64,
    /// The column in the line, counted from 1, or 0 for the line's begin.
    pub column: u64,
    /// Which block of the line it is, where the line has several.
    pub discriminator: u64,
    /// Whether a breakpoint is well set there.
    pub is_statement: bool,
    /// Whether it begins a basic block.
    pub basic_block: bool,
    /// Whether a breakpoint at the function is well set there.
    pub prologue_end: bool,
    /// Whether a breakpoint before the function's end is well set there.
    pub epilogue_begin: bool,
    /// The instruction set.
    pub isa: u64,
}

impl LineRow {
    ghost use Rattle.dw_line.specs.LinePrograms.{next_row};

    /// The row that stands before a sequence's first one (DWARF 5, 6.2.2): its file is the one
    /// with the number 1.
    pub(crate) fn before(version: u16, default_is_stmt: bool) -> LineRow
        ensures row { raw_row version result ≡ row_before default_is_stmt }
        ensures file { result.file.0 < 2 }
        ensures offset { result.address_offset ≡ 0 }
    {
        LineRow {
            file: FileId::new(if version <= 4 { 0 } else { 1 }),
            ..LineRow::first(default_is_stmt)
        }
    }

    /// The row as it stands after it was added.
    pub(crate) fn next(self) -> LineRow
        ensures { result ≡ next_row self }
    {
        LineRow {
            discriminator: 0,
            basic_block: false,
            prologue_end: false,
            epilogue_begin: false,
            ..self
        }
    }

    /// The row that a sequence begins with, until it is changed.
    pub(crate) fn first(default_is_stmt: bool) -> LineRow
        ensures { result ≡ first_line_row default_is_stmt }
    {
        LineRow {
            address_offset: 0,
            file: FileId::new(0),
            line: 1,
            column: 0,
            discriminator: 0,
            is_statement: default_is_stmt,
            basic_block: false,
            prologue_end: false,
            epilogue_begin: false,
            isa: 0,
        }
    }
}

/// Writes the row `new` after the row `old`.
pub(crate) fn write_row<W: Writer>(
    old: LineRow,
    new: LineRow,
    version: u16,
    minimum_length: u8,
    w: &mut W,
) -> Result<()>
    requires positive { 0 < minimum_length }
    requires reached { old.address_offset ≤ new.address_offset }
    requires old_file { old.file.0 < usize.MAX }
    requires new_file { new.file.0 < usize.MAX }
    ensures ok { OnOk result
        (Adds (W.meaning w.old) (W.meaning w.new)
        (row_text minimum_length (raw_row version old) (raw_row version new))) }
    ensures line { OnOk result (IsTrue (fits_i64 (line_change old.line new.line))) }
    ensures ranged { OnOk result (IsRanged (raw_row version new)) }
    ensures err { IfErr result
        (LineRefused (W.meaning w.old) (W.meaning w.new) old.line new.line) }
    ensures same { IsSameWriter (W.meaning w.old) (W.meaning w.new) }
    ensures front { KeepsFront (W.meaning w.old) (W.meaning w.new) }
{
    write_discriminator(new.discriminator, w)?;
    write_mark(new.basic_block, DW_LNS_set_basic_block.0, w)?;
    write_mark(new.prologue_end, DW_LNS_set_prologue_end.0, w)?;
    write_mark(new.epilogue_begin, DW_LNS_set_epilogue_begin.0, w)?;
    write_mark(
        new.is_statement != old.is_statement,
        DW_LNS_negate_stmt.0,
        w,
    )?;
    write_file(old.file, new.file, version, w)?;
    write_number(new.column != old.column, DW_LNS_set_column.0, new.column, w)?;
    write_number(new.isa != old.isa, DW_LNS_set_isa.0, new.isa, w)?;
    write_line(old.line, new.line, w)?;
    let advance = (new.address_offset - old.address_offset) / minimum_length as u64;
    write_number(
        new.address_offset != old.address_offset,
        DW_LNS_advance_pc.0,
        advance,
        w,
    )?;
    write_mark(true, DW_LNS_copy.0, w)
}

/// Writes rows after the row `first`. Returns the last one.
pub(crate) fn write_rows<W: Writer>(
    first: LineRow,
    rows: &[LineRow],
    version: u16,
    minimum_length: u8,
    w: &mut W,
) -> Result<LineRow>
    requires positive { 0 < minimum_length }
    requires file { first.file.0 < usize.MAX }
    requires order { IsTrue (are_in_order minimum_length first.address_offset rows.now) }
    ensures ok { OnOk result
        (Adds (W.meaning w.old) (W.meaning w.new)
        (rows_text minimum_length (raw_row version first) (map (raw_row version) rows.now))) }
    ensures last { IfOk result
        (λ r. raw_row version r ≡ last_row (raw_row version first) (map
        (raw_row version) rows.now)) }
    ensures offset { IfOk result
        (λ r. r.address_offset ≡ last_offset first.address_offset rows.now) }
    ensures lines { OnOk result
        (IsTrue (lines_fit (raw_row version first) (map (raw_row version) rows.now))) }
    ensures ranged { OnOk result (All IsRanged (map (raw_row version) rows.now)) }
    ensures err { IfErr result
        (RowsRefused (W.meaning w.old) (W.meaning w.new)
        (raw_row version first) (map (raw_row version) rows.now)) }
    ensures same { IsSameWriter (W.meaning w.old) (W.meaning w.new) }
    ensures front { KeepsFront (W.meaning w.old) (W.meaning w.new) }
{
    let mut last = first;
    for row in rows {
        write_row(last, *row, version, minimum_length, w)?;
        last = *row;
    }
    Ok(last)
}

/// Writes the end of a sequence after a row of this offset.
pub(crate) fn write_end<W: Writer>(last: u64, end: u64, minimum_length: u8, w: &mut W) -> Result<()>
    requires positive { 0 < minimum_length }
    requires order { last ≤ end }
    ensures ok { OnOk result
        (Adds (W.meaning w.old) (W.meaning w.new) (end_text minimum_length last (Some end))) }
    ensures err { IfErr result (BytesRefused (W.meaning w.old) (W.meaning w.new)) }
    ensures same { IsSameWriter (W.meaning w.old) (W.meaning w.new) }
    ensures front { KeepsFront (W.meaning w.old) (W.meaning w.new) }
{
    let advance = (end - last) / minimum_length as u64;
    write_number(end != last, DW_LNS_advance_pc.0, advance, w)?;
    w.write_u8(0)?;
    w.write_uleb128(1)?;
    w.write_u8(DW_LNE_end_sequence.0)
}
