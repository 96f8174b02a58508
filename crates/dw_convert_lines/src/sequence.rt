//! Sequences of rows (DWARF 5, 6.2.5).

ghost use Rattle.std.specs.Prelude.{◌≡◌, ◌⊎◌, OnOk, IfErr, IsSome};
ghost use Rattle.dw_line.specs.LinePrograms.{file_count_of};
ghost use Rattle.dw_sources.specs.declared.convert_error.ConvertError.TheVariants.{NoMemory};
ghost use Rattle.dw_convert_lines.specs.RegisterViews.{registers_of};
ghost use Rattle.dw_convert_lines.specs.RowImages.{AreFiles};
ghost use Rattle.dw_convert_lines.specs.RowOutcomes.{Begins, RefusesBegin, AddsRow, RefusesRow, AddsEnd, RefusesEnd, Changes, Refuses};

use crate::registers::Registers;
use crate::row::{convert_offset, convert_row};
use dw_base::{Address, FileId};
use dw_line::LineProgram;
use dw_sources::{ConvertError, ConvertResult};

/// Begins the sequence that isn't ended, unless it was begun, at what the caller makes of its base.
fn begin_sequence<F: Fn(u64) -> Option<Address>>(
    program: &mut LineProgram,
    base: Option<u64>,
    convert_address: &F,
) -> ConvertResult<()>
    requires callable { F.IsAlwaysCallable convert_address.now }
    requires there { IsSome program.old.program }
    ensures ok { OnOk result (Changes (Begins (F.post convert_address.now) base)
        program.old program.new) }
    ensures err { IfErr result (λ e. (e ≡ NoMemory) ⊎ Refuses
        (λ p. RefusesBegin (F.post convert_address.now) base p e) program.old) }
{
    if program.in_sequence() {
        return Ok(());
    }
    let address = match base {
        Some(base) => match convert_address(base) {
            Some(address) => Some(address),
            None => return Err(ConvertError::InvalidAddress),
        },
        None => None,
    };
    match program.begin_sequence(address) {
        Ok(()) => Ok(()),
        Err(_) => Err(ConvertError::NoMemory),
    }
}

/// Adds the row that the registers become to the sequence, which is begun for its first row.
pub(crate) fn add_row<F: Fn(u64) -> Option<Address>>(
    version: u16,
    files: &[FileId],
    base: Option<u64>,
    registers: Registers,
    program: &mut LineProgram,
    convert_address: &F,
) -> ConvertResult<()>
    requires callable { F.IsAlwaysCallable convert_address.now }
    requires there { IsSome program.old.program }
    requires files { AreFiles version files.now (file_count_of program.old.program) }
    ensures ok { OnOk result (Changes (AddsRow (F.post convert_address.now) base version files.now
        (registers_of registers)) program.old program.new) }
    ensures err { IfErr result (λ e. (e ≡ NoMemory) ⊎ Refuses
        (λ p. RefusesBegin (F.post convert_address.now) base p e
        ⊎ RefusesRow (F.post convert_address.now) base version files.now
        (registers_of registers) p e) program.old) }
{
    begin_sequence(program, base, convert_address)?;
    let minimum_length = program.line_encoding().minimum_instruction_length;
    let before = program.last_offset();
    let base = base.unwrap_or(0);
    let row = convert_row(version, files, minimum_length, base, before, registers)?;
    *program.row() = row;
    match program.generate_row() {
        Ok(()) => Ok(()),
        Err(_) => Err(ConvertError::NoMemory),
    }
}

/// Ends the sequence at an address. It is begun first where it has no row.
pub(crate) fn add_end<F: Fn(u64) -> Option<Address>>(
    base: Option<u64>,
    address: u64,
    program: &mut LineProgram,
    convert_address: &F,
) -> ConvertResult<()>
    requires callable { F.IsAlwaysCallable convert_address.now }
    requires there { IsSome program.old.program }
    ensures ok { OnOk result (Changes (AddsEnd (F.post convert_address.now) base address)
        program.old program.new) }
    ensures err { IfErr result (λ e. (e ≡ NoMemory) ⊎ Refuses
        (λ p. RefusesBegin (F.post convert_address.now) base p e
        ⊎ RefusesEnd (F.post convert_address.now) base address p e) program.old) }
{
    begin_sequence(program, base, convert_address)?;
    let minimum_length = program.line_encoding().minimum_instruction_length;
    let before = program.last_offset();
    let offset = convert_offset(minimum_length, base.unwrap_or(0), before, address)?;
    match program.end_sequence(offset) {
        Ok(()) => Ok(()),
        Err(_) => Err(ConvertError::NoMemory),
    }
}
