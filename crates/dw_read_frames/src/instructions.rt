//! The instructions of an entry, one after the other (DWARF 5, 6.4.2 and 7.24).

ghost use Rattle.std.specs.Prelude.{◌≡◌, ◌<◌, IfOk, IfErr, OnOk, Err};
ghost use Rattle.dw_read.specs.Reading.{left};
ghost use Rattle.dw_read.specs.Took.{Took};
ghost use Rattle.dw_read_frames.specs.Instructions.{behind_read, instruction_read};
ghost use Rattle.dw_read_frames.specs.InstructionViews.{instruction_of, HoldsParts};
ghost use Rattle.dw_read_frames.specs.InstructionIters.{ReadsInstruction};

use crate::frame_rules::read_frame_rule;
use crate::instruction::CallFrameInstruction;
use crate::locations::{read_coded, read_location};
use crate::register_rules::read_register_rule;
use dw_base::{DwCfa, DwEhPe};
use dw_read::{ReadError, ReadResult, Reader};

/// The instructions of a CIE or an FDE.
///
/// ```
/// let mut instructions = fde.instructions();
/// let first = instructions.next()?;
/// ```
#[derive(Drop)]
pub struct CallFrameInstructionIter<R: Reader> {
    pub(crate) input: R,
    pub(crate) address_size: u8,
    pub(crate) address_encoding: DwEhPe,
    pub(crate) has_failed: bool,
}

impl<R: Reader> CallFrameInstructionIter<R> {
    /// The next instruction. None comes at the entry's end, and once an error was answered.
    pub fn next(&mut self) -> ReadResult<Option<CallFrameInstruction<R>>>
        ensures { ReadsInstruction R.reading self.old self.new result }
    {
        if self.has_failed || self.input.len() == 0 {
            return Ok(None);
        }
        let mut after = self.input.duplicate();
        match read_instruction(&mut after, self.address_size, self.address_encoding) {
            Ok(instruction) => {
                self.input = after;
                Ok(Some(instruction))
            }
            Err(error) => {
                self.has_failed = true;
                Err(error)
            }
        }
    }
}

/// Reads an instruction, and passes it.
fn read_instruction<R: Reader>(
    input: &mut R,
    size: u8,
    encoding: DwEhPe,
) -> ReadResult<CallFrameInstruction<R>>
    ensures ok { IfOk result (λ o. Took _
        (instruction_read (R.reading input.old).is_big size encoding (R.reading input.old).end)
        (R.reading input.old) (R.reading input.new) (instruction_of R.reading o)) }
    ensures parts { IfOk result (HoldsParts R.reading (R.reading input.old)) }
    ensures progress { OnOk result
        ((R.reading input.old).place < (R.reading input.new).place) }
    ensures err { IfErr result (λ e.
        instruction_read (R.reading input.old).is_big size encoding (R.reading input.old).end
        (left (R.reading input.old)) ≡ Err e) }
{
    let code = input.read_u8()?;
    let instruction = read_behind(input, size, encoding, DwCfa(code))?;
    Ok(instruction)
}

/// Reads what stands behind a code.
fn read_behind<R: Reader>(
    input: &mut R,
    size: u8,
    encoding: DwEhPe,
    code: DwCfa,
) -> ReadResult<CallFrameInstruction<R>>
    ensures ok { IfOk result (λ o. Took _
        (behind_read (R.reading input.old).is_big size encoding (R.reading input.old).place code.0)
        (R.reading input.old) (R.reading input.new) (instruction_of R.reading o)) }
    ensures parts { IfOk result (HoldsParts R.reading (R.reading input.old)) }
    ensures err { IfErr result (λ e.
        behind_read (R.reading input.old).is_big size encoding (R.reading input.old).place code.0
        (left (R.reading input.old)) ≡ Err e) }
{
    if let Some(instruction) = read_location(input, size, encoding, code)? {
        return Ok(instruction);
    }
    if let Some(instruction) = read_coded(input, code.0)? {
        return Ok(instruction);
    }
    if let Some(instruction) = read_frame_rule(input, code)? {
        return Ok(instruction);
    }
    if let Some(instruction) = read_register_rule(input, code)? {
        return Ok(instruction);
    }
    Err(ReadError::UnknownCallFrameInstruction(code.0))
}
