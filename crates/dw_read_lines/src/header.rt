//! The header of a line program (DWARF 5, 6.2.4).

ghost use Rattle.std.specs.Prelude.{◌≡◌};

use crate::encoding::ProgramEncoding;
use crate::parameters::Parameters;
use dw_base::{DebugLineOffset, Encoding, LineEncoding};
use dw_read::Reader;

/// What the header of a line program tells.
///
/// ```
/// let program = IncompleteLineProgram::new(&dwarf, offset, 8)?;
/// let version = program.header().encoding().version;
/// ```
#[derive(Drop)]
pub struct LineProgramHeader<R: Reader> {
    pub(crate) offset: DebugLineOffset,
    pub(crate) encoding: ProgramEncoding,
    pub(crate) parameters: Parameters<R>,
    /// The directories and files.
    pub(crate) tables: R,
    /// The instructions.
    pub(crate) program: R,
}

impl<R: Reader> LineProgramHeader<R> {
    /// The place of the program in `.debug_line`.
    pub fn offset(&self) -> DebugLineOffset
        ensures { result ≡ self.now.offset }
    {
        self.offset
    }

    /// How the program's values are encoded. Up to version 4 the address size is the one that was
    /// given.
    pub fn encoding(&self) -> Encoding
        ensures { result ≡ self.now.encoding.encoding }
    {
        self.encoding.encoding
    }

    /// The parameters of the line machine.
    pub fn line_encoding(&self) -> LineEncoding
        ensures { result ≡ self.now.parameters.line_encoding }
    {
        self.parameters.line_encoding
    }

    /// The first opcode that is special. Those below it, from 1 on, are the standard ones.
    pub fn opcode_base(&self) -> u8
        ensures { result ≡ self.now.parameters.opcode_base }
    {
        self.parameters.opcode_base
    }

    /// How many operands the opcodes from 1 up to the base have, a byte each.
    pub fn standard_opcode_lengths(&self) -> R
        ensures { R.reading result ≡ R.reading self.now.parameters.operand_counts }
    {
        self.parameters.operand_counts.duplicate()
    }
}
