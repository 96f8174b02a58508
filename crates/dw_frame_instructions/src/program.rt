//! Lists of instructions: those of a CIE, and those of an FDE with the offsets at which they hold
//! (DWARF 5, 6.4.1).

ghost use Rattle.std.specs.Prelude.{◌≡◌, IfOk, IfErr};
ghost use Rattle.dw_base.specs.declared.error.Error.TheVariants.{NoMemory};
ghost use Rattle.dw_frame_instructions.specs.Causes.{Writes};
ghost use Rattle.dw_frame_instructions.specs.Programs.{instructions_piece, instructions_fail, program_piece, program_fails};

use crate::advance::write_advance;
use crate::instruction::CallFrameInstruction;
use dw_base::{Encoding, Result};
use dw_writer::Writer;
use std::alloc::Global;

/// An instruction, and from where on it holds, in bytes from the begin of the FDE's function.
#[derive(PartialEq, Eq, Drop)]
pub struct Step {
    pub offset: u32,
    pub instruction: CallFrameInstruction,
}

/// Writes the instructions of a CIE.
pub fn write_instructions<W: Writer>(
    instructions: &[CallFrameInstruction],
    w: &mut W,
    encoding: Encoding,
    data_factor: i8,
) -> Result<()>
    ensures { Writes result (W.meaning w.old) (W.meaning w.new)
        (instructions_piece encoding data_factor instructions.now)
        (instructions_fail encoding data_factor (W.meaning w.old).is_plain instructions.now) }
{
    for instruction in instructions {
        instruction.write(w, encoding, data_factor)?;
    }
    Ok(())
}

/// Writes the instructions of an FDE, with the advances between them.
pub fn write_steps<W: Writer>(
    steps: &[Step],
    w: &mut W,
    encoding: Encoding,
    code_factor: u8,
    data_factor: i8,
) -> Result<()>
    ensures { Writes result (W.meaning w.old) (W.meaning w.new)
        (program_piece encoding code_factor data_factor 0 steps.now)
        (program_fails encoding code_factor data_factor (W.meaning w.old).is_plain 0 steps.now) }
{
    let mut from = 0;
    for step in steps {
        write_advance(w, code_factor, from, step.offset)?;
        step.instruction.write(w, encoding, data_factor)?;
        from = step.offset;
    }
    Ok(())
}

/// Copies of instructions, in their order.
pub fn copy_instructions(
    alloc: Global,
    instructions: &[CallFrameInstruction],
) -> Result<Vec<CallFrameInstruction>>
    ensures ok { IfOk result (λ v. v.items ≡ instructions.now) }
    ensures err { IfErr result (λ e. e ≡ NoMemory) }
{
    let mut copies = Vec::with_capacity(alloc, instructions.len())?;
    for instruction in instructions {
        let copy = instruction.try_clone()?;
        copies.push(copy)?;
    }
    Ok(copies)
}

/// The same with their offsets.
pub fn copy_steps(alloc: Global, steps: &[Step]) -> Result<Vec<Step>>
    ensures ok { IfOk result (λ v. v.items ≡ steps.now) }
    ensures err { IfErr result (λ e. e ≡ NoMemory) }
{
    let mut copies = Vec::with_capacity(alloc, steps.len())?;
    for step in steps {
        let copy = copy_step(step)?;
        copies.push(copy)?;
    }
    Ok(copies)
}

fn copy_step(step: &Step) -> Result<Step>
    ensures ok { IfOk result (λ copy. copy ≡ step.now) }
    ensures err { IfErr result (λ e. e ≡ NoMemory) }
{
    let offset = step.offset;
    let instruction = step.instruction.try_clone()?;
    Ok(Step {
        offset,
        instruction,
    })
}
