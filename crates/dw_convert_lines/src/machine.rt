//! One instruction of a line program after another (DWARF 5, 6.2.5).

ghost use Rattle.std.specs.Prelude.{◌≡◌, ◌⊎◌, Bool, IfOk, IfErr, IsSome};
ghost use Rattle.dw_line.specs.LinePrograms.{file_count_of};
ghost use Rattle.dw_read_lines.specs.LineHeaderViews.{machine_of};
ghost use Rattle.dw_read_lines.specs.LineInstructionViews.{instruction_of};
ghost use Rattle.dw_sources.specs.declared.convert_error.ConvertError.TheVariants.{NoMemory};
ghost use Rattle.dw_convert_lines.specs.Effects.{effect_of};
ghost use Rattle.dw_convert_lines.specs.RegisterViews.{registers_of};
ghost use Rattle.dw_convert_lines.specs.RowImages.{AreFiles};
ghost use Rattle.dw_convert_lines.specs.RowOutcomes.{Follows, RefusesInstruction, Changes, Refuses};

use crate::registers::Registers;
use crate::sequence::{add_end, add_row};
use crate::step::step;
use dw_base::{Address, FileId};
use dw_line::LineProgram;
use dw_read::Reader;
use dw_read_lines::{LineInstruction, LineProgramHeader};
use dw_sources::{ConvertError, ConvertResult};

/// Where the machine stands: its registers, and the address that was set last before the first row
/// of the sequence.
#[derive(Clone, Copy)]
pub(crate) struct Machine {
    pub(crate) registers: Registers,
    pub(crate) base: Option<u64>,
}

/// What an instruction does besides changing registers.
#[derive(Clone, Copy)]
pub(crate) enum Effect {
    Nothing,
    SetsAddress,
    ShowsRow,
    EndsSequence,
}

/// What an instruction does besides changing registers.
fn effect_of<R: Reader>(instruction: &LineInstruction<R>) -> Effect
    ensures { result ≡ effect_of (instruction_of R.reading instruction.now) }
{
    match instruction {
        LineInstruction::Copy | LineInstruction::Special(_) => Effect::ShowsRow,
        LineInstruction::EndSequence => Effect::EndsSequence,
        LineInstruction::SetAddress(_) => Effect::SetsAddress,
        _ => Effect::Nothing,
    }
}

/// Follows an instruction, and adds to the program what it shows.
pub(crate) fn convert_instruction<R: Reader, F: Fn(u64) -> Option<Address>>(
    header: &LineProgramHeader<R>,
    files: &[FileId],
    instruction: &LineInstruction<R>,
    machine: Machine,
    program: &mut LineProgram,
    convert_address: &F,
) -> ConvertResult<Machine>
    requires callable { F.IsAlwaysCallable convert_address.now }
    requires there { IsSome program.old.program }
    requires files { AreFiles header.now.encoding.encoding.version files.now
        (file_count_of program.old.program) }
    ensures ok { IfOk result (λ m. (big : Bool) → Changes (λ p q. Follows
        (machine_of R.reading big header.now.parameters) header.now.encoding.encoding.version
        files.now (F.post convert_address.now) (instruction_of R.reading instruction.now)
        (registers_of machine.registers) machine.base p (registers_of m.registers) m.base q)
        program.old program.new) }
    ensures err { IfErr result (λ e. (e ≡ NoMemory) ⊎ ((big : Bool) → Refuses
        (λ p. RefusesInstruction (machine_of R.reading big header.now.parameters)
        header.now.encoding.encoding.version files.now (F.post convert_address.now)
        (instruction_of R.reading instruction.now) (registers_of machine.registers)
        machine.base p e) program.old)) }
{
    let Some(registers) = step(header, instruction, machine.registers) else {
        return Err(ConvertError::IntegerOverflow);
    };
    let base = machine.base;
    match effect_of(instruction) {
        Effect::ShowsRow => {
            let version = header.encoding().version;
            add_row(version, files, base, registers, program, convert_address)?;
            Ok(Machine {
                registers: registers.cleared(),
                base,
            })
        }
        Effect::EndsSequence => {
            add_end(base, registers.address, program, convert_address)?;
            Ok(Machine {
                registers: Registers::begin(header.line_encoding().default_is_stmt),
                base: None,
            })
        }
        Effect::SetsAddress => {
            let base = if program.in_sequence() {
                base
            } else {
                Some(registers.address)
            };
            Ok(Machine { registers, base })
        }
        Effect::Nothing => Ok(Machine { registers, base }),
    }
}
