//! Programs of call frame instructions (DWARF 5, 6.4.1).

ghost use Rattle.std.specs.Prelude.{List};
ghost use Rattle.dw_frame_instructions.specs.declared.instruction.CallFrameInstruction.{CallFrameInstruction};
ghost use Rattle.dw_frame_instructions.specs.declared.program.Step.{Step};
ghost use Rattle.dw_read_back.specs.Programs.{FirstReadBack, ProgramReadsBack};

use dw_base::Encoding;

/// The bytes of each function's program, with any padding behind them, are read to the last one,
/// and what is read holds where it was built to hold: the advances lead there.
///
/// The factors are those of code offsets and of data offsets.
pub fn programs_read_back(encoding: Encoding, code_factor: u8, data_factor: i8)
    ensures { (steps : List Step) →
        ProgramReadsBack encoding code_factor data_factor steps }
{
    let _law = (encoding, code_factor, data_factor);
}

/// The same of the instructions of each common entry, which hold at a function's begin.
pub fn first_instructions_read_back(encoding: Encoding, code_factor: u8, data_factor: i8)
    ensures { (instructions : List CallFrameInstruction) →
        FirstReadBack encoding code_factor data_factor instructions }
{
    let _law = (encoding, code_factor, data_factor);
}
