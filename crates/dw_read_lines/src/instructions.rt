//! The instructions of a line program, one after the other (DWARF 5, 6.2.5).

ghost use Rattle.std.specs.Prelude.{◌≡◌, false};
ghost use Rattle.dw_read_lines.specs.LineInstructionIters.{ReadsInstruction};

use crate::header::LineProgramHeader;
use crate::instruction::{LineInstruction, read_instruction};
use dw_read::{ReadResult, Reader};

/// The instructions of a line program, from the first on.
///
/// ```
/// let header = program.header();
/// let mut instructions = header.instructions();
/// let first = instructions.next_instruction(header)?;
/// ```
#[derive(Drop)]
pub struct LineInstructions<R: Reader> {
    pub(crate) input: R,
    pub(crate) has_failed: bool,
}

impl<R: Reader> LineProgramHeader<R> {
    /// The instructions behind the header.
    pub fn instructions(&self) -> LineInstructions<R>
        ensures input { R.reading result.input ≡ R.reading self.now.program }
        ensures begun { result.has_failed ≡ false }
    {
        LineInstructions {
            input: self.program.duplicate(),
            has_failed: false,
        }
    }
}

impl<R: Reader> LineInstructions<R> {
    /// The next instruction of the program with this header. None comes at the program's end, and
    /// once an error was answered.
    pub fn next_instruction(
        &mut self,
        header: &LineProgramHeader<R>,
    ) -> ReadResult<Option<LineInstruction<R>>>
        ensures { ReadsInstruction R.reading header.now self.old self.new result }
    {
        if self.has_failed || self.input.len() == 0 {
            return Ok(None);
        }
        let mut after = self.input.duplicate();
        match read_instruction(&mut after, &header.parameters) {
            Ok(instruction) => {
                self.input = after;
                Ok(Some(instruction))
            }
            Err(error) => {
                self.has_failed = true;
                Err(error)
            }
        }
    }
}
