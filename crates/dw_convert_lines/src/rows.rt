//! The instructions of a line program, up to its end (DWARF 5, 6.2.5).

ghost use Rattle.std.specs.Prelude.{◌≡◌, ◌⊎◌, ◌↔◌, Some, OnOk, IfErr, IsTrue};
ghost use Rattle.dw_base.specs.declared.constants.TheConstants.{DW_LNE_define_file};
ghost use Rattle.dw_line.specs.LinePrograms.{file_count_of};
ghost use Rattle.dw_read.specs.Reading.{left};
ghost use Rattle.dw_read_lines.specs.LineHeaderViews.{machine_of};
ghost use Rattle.dw_read_lines.specs.LineInstructionViews.{code_of};
ghost use Rattle.dw_sources.specs.declared.convert_error.ConvertError.TheVariants.{NoMemory};
ghost use Rattle.dw_convert_lines.specs.RowImages.{AreFiles};
ghost use Rattle.dw_convert_lines.specs.RowOutcomes.{AddsSequences, RefusesSequences, IsFresh, Changes, Refuses};

use crate::machine::{Machine, convert_instruction};
use crate::owned::drop;
use crate::registers::Registers;
use dw_base::constants::DW_LNE_define_file;
use dw_base::{Address, FileId};
use dw_line::LineProgram;
use dw_read::Reader;
use dw_read_lines::{LineInstruction, LineProgramHeader};
use dw_sources::{ConvertError, ConvertResult};

/// Whether an instruction would add a file to those of the header.
fn defines_file<R: Reader>(instruction: &LineInstruction<R>) -> bool
    ensures { IsTrue result ↔ (code_of instruction.now ≡ Some DW_LNE_define_file.0) }
{
    match instruction {
        LineInstruction::UnknownExtended(code, _) => *code == DW_LNE_define_file,
        _ => false,
    }
}

/// Adds the sequences that the instructions behind a header show to a program, whose files have
/// these ids by the numbers that were read.
pub(crate) fn convert_rows<R: Reader, F: Fn(u64) -> Option<Address>>(
    header: &LineProgramHeader<R>,
    files: &[FileId],
    program: &mut LineProgram,
    convert_address: &F,
) -> ConvertResult<()>
    requires callable { F.IsAlwaysCallable convert_address.now }
    requires fresh { IsFresh program.old }
    requires files { AreFiles header.now.encoding.encoding.version files.now
        (file_count_of program.old.program) }
    ensures ok { OnOk result (Changes (AddsSequences (machine_of R.reading
        (R.reading header.now.program).is_big header.now.parameters)
        header.now.encoding.encoding.version files.now (F.post convert_address.now)
        (left (R.reading header.now.program))) program.old program.new) }
    ensures err { IfErr result (λ e. (e ≡ NoMemory) ⊎ Refuses (λ p. RefusesSequences (machine_of
        R.reading (R.reading header.now.program).is_big header.now.parameters)
        header.now.encoding.encoding.version files.now (F.post convert_address.now)
        (left (R.reading header.now.program)) p e) program.old) }
{
    let mut instructions = header.instructions();
    let mut machine = Machine {
        registers: Registers::begin(header.line_encoding().default_is_stmt),
        base: None,
    };
    'instructions: while let Some(instruction) = instructions.next_instruction(header)? {
        if defines_file(&instruction) {
            return Err(ConvertError::UnsupportedLineProgram);
        }
        let followed = convert_instruction(
            header,
            files,
            &instruction,
            machine,
            program,
            convert_address,
        );
        drop(instruction);
        machine = followed?;
    }
    if program.in_sequence() {
        return Err(ConvertError::UnsupportedLineProgram);
    }
    Ok(())
}
