//! The instructions of the line machine (DWARF 5, 6.2.5 and 7.22).

ghost use Rattle.std.specs.Prelude.{◌≡◌, ◌-◌, ◌<◌, ◌≤◌, IfOk, IfErr, OnOk, Some, None, Ok, Err, slice_index};
ghost use Rattle.dw_read.specs.Reading.{left};
ghost use Rattle.dw_read.specs.Took.{Took};
ghost use Rattle.dw_base.specs.LineMachine.{Passed};
ghost use Rattle.dw_read_lines.specs.LineHeaderViews.{machine_of};
ghost use Rattle.dw_read_lines.specs.LineInstructions.{instruction_read, extended_read, extended_code, marked_code};
ghost use Rattle.dw_read_lines.specs.LineInstructions.{coded_read, standard_read, passed_read};
ghost use Rattle.dw_read_lines.specs.LineInstructionViews.{instruction_of, code_of};

use crate::parameters::Parameters;
use dw_base::constants::{
    DW_LNE_end_sequence, DW_LNE_set_address, DW_LNE_set_discriminator, DW_LNS_advance_line,
    DW_LNS_advance_pc, DW_LNS_const_add_pc, DW_LNS_copy, DW_LNS_fixed_advance_pc,
    DW_LNS_negate_stmt, DW_LNS_set_basic_block, DW_LNS_set_column, DW_LNS_set_epilogue_begin,
    DW_LNS_set_file, DW_LNS_set_isa, DW_LNS_set_prologue_end,
};
use dw_base::{DwLne, DwLns};
use dw_read::{ReadResult, Reader};

/// An instruction of the line machine. Bytes are parts of the section.
///
/// ```
/// if let LineInstruction::AdvancePc(operations) = instruction {
///     address += operations * minimum_instruction_length;
/// }
/// ```
#[derive(Drop)]
pub enum LineInstruction<R: Reader> {
    /// Moves address and line on, and shows a row: its opcode less the header's opcode base.
    Special(u8),
    /// Shows a row.
    Copy,
    /// Moves the address on, by so many operations.
    AdvancePc(u64),
    /// Moves the line on.
    AdvanceLine(i64),
    SetFile(u64),
    SetColumn(u64),
    /// Turns whether a row begins a statement.
    NegateStatement,
    SetBasicBlock,
    /// Moves the address on like the special opcode 255.
    ConstAddPc,
    /// Moves the address on, by so many bytes.
    FixedAddPc(u16),
    SetPrologueEnd,
    SetEpilogueBegin,
    SetIsa(u64),
    /// An opcode below the base that the standard doesn't have: its operands are passed.
    UnknownStandard(DwLns),
    /// Ends a sequence.
    EndSequence,
    /// Sets the address to the number of these bytes, in the section's byte order.
    SetAddress(R),
    SetDiscriminator(u64),
    /// Another extended opcode, and its bytes: `DW_LNE_define_file` too.
    UnknownExtended(DwLne, R),
}

/// Reads an instruction, and passes it.
pub(crate) fn read_instruction<R: Reader>(
    input: &mut R,
    parameters: &Parameters<R>,
) -> ReadResult<LineInstruction<R>>
    ensures ok { IfOk result (λ i. Took _
        (instruction_read (machine_of R.reading (R.reading input.old).is_big parameters.now))
        (R.reading input.old) (R.reading input.new) (instruction_of R.reading i)) }
    ensures code { IfOk result (λ i. extended_code (R.reading input.old).is_big
        (left (R.reading input.old)) ≡ Ok (code_of i)) }
    ensures progress { OnOk result
        ((R.reading input.old).place < (R.reading input.new).place) }
    ensures err { IfErr result (λ e. instruction_read
        (machine_of R.reading (R.reading input.old).is_big parameters.now)
        (left (R.reading input.old)) ≡ Err e) }
{
    let opcode = input.read_u8()?;
    if opcode == 0 {
        return read_extended(input);
    }
    if opcode >= parameters.opcode_base {
        return Ok(LineInstruction::Special(opcode - parameters.opcode_base));
    }
    let count = operand_count(parameters, opcode);
    read_standard(input, count, DwLns(opcode))
}

/// Reads an extended instruction after the zero that marks it.
fn read_extended<R: Reader>(input: &mut R) -> ReadResult<LineInstruction<R>>
    ensures ok { IfOk result (λ i. Took _ (extended_read (R.reading input.old).is_big)
        (R.reading input.old) (R.reading input.new) (instruction_of R.reading i)) }
    ensures code { IfOk result (λ i. marked_code (R.reading input.old).is_big
        (left (R.reading input.old)) ≡ Ok (code_of i)) }
    ensures err { IfErr result (λ e. extended_read (R.reading input.old).is_big
        (left (R.reading input.old)) ≡ Err e) }
{
    let length = input.read_uleb128()?;
    let mut body = input.split(length as usize)?;
    let code = body.read_u8()?;
    read_coded(&mut body, DwLne(code))
}

/// Reads an extended instruction after its code, of all its bytes.
fn read_coded<R: Reader>(body: &mut R, code: DwLne) -> ReadResult<LineInstruction<R>>
    ensures ok { IfOk result (λ i. coded_read (R.reading body.old).is_big code.0
        (left (R.reading body.old)) ≡ Ok (instruction_of R.reading i)) }
    ensures code { IfOk result (λ i. code_of i ≡ Some code.0) }
    ensures err { IfErr result (λ e. coded_read (R.reading body.old).is_big code.0
        (left (R.reading body.old)) ≡ Err e) }
{
    match code {
        DW_LNE_end_sequence => Ok(LineInstruction::EndSequence),
        DW_LNE_set_address => Ok(LineInstruction::SetAddress(body.duplicate())),
        DW_LNE_set_discriminator => {
            let discriminator = body.read_uleb128()?;
            Ok(LineInstruction::SetDiscriminator(discriminator))
        }
        _ => Ok(LineInstruction::UnknownExtended(code, body.duplicate())),
    }
}

/// Reads the operands of a standard instruction, or so many of an opcode that isn't known.
fn read_standard<R: Reader>(
    input: &mut R,
    count: u8,
    opcode: DwLns,
) -> ReadResult<LineInstruction<R>>
    ensures ok { IfOk result (λ i. Took _
        (standard_read (R.reading input.old).is_big count opcode.0)
        (R.reading input.old) (R.reading input.new) (instruction_of R.reading i)) }
    ensures code { IfOk result (λ i. code_of i ≡ None) }
    ensures err { IfErr result (λ e. standard_read (R.reading input.old).is_big count opcode.0
        (left (R.reading input.old)) ≡ Err e) }
{
    match opcode {
        DW_LNS_copy => Ok(LineInstruction::Copy),
        DW_LNS_advance_pc => Ok(LineInstruction::AdvancePc(input.read_uleb128()?)),
        DW_LNS_advance_line => Ok(LineInstruction::AdvanceLine(input.read_sleb128()?)),
        DW_LNS_set_file => Ok(LineInstruction::SetFile(input.read_uleb128()?)),
        DW_LNS_set_column => Ok(LineInstruction::SetColumn(input.read_uleb128()?)),
        DW_LNS_negate_stmt => Ok(LineInstruction::NegateStatement),
        DW_LNS_set_basic_block => Ok(LineInstruction::SetBasicBlock),
        DW_LNS_const_add_pc => Ok(LineInstruction::ConstAddPc),
        DW_LNS_fixed_advance_pc => Ok(LineInstruction::FixedAddPc(input.read_u16()?)),
        DW_LNS_set_prologue_end => Ok(LineInstruction::SetPrologueEnd),
        DW_LNS_set_epilogue_begin => Ok(LineInstruction::SetEpilogueBegin),
        DW_LNS_set_isa => Ok(LineInstruction::SetIsa(input.read_uleb128()?)),
        _ => {
            pass_operands(input, count)?;
            Ok(LineInstruction::UnknownStandard(opcode))
        }
    }
}

/// How many operands an opcode below the base has.
fn operand_count<R: Reader>(parameters: &Parameters<R>, opcode: u8) -> u8
    ensures { result
        ≡ slice_index (left (R.reading parameters.now.operand_counts)) (opcode - 1) }
{
    let index = opcode.saturating_sub(1) as usize;
    match parameters.operand_counts.to_slice().get(index) {
        Some(count) => *count,
        None => 0,
    }
}

/// Passes operands of an opcode that isn't known.
fn pass_operands<R: Reader>(input: &mut R, count: u8) -> ReadResult<()>
    ensures ok { OnOk result (Took _ (passed_read count)
        (R.reading input.old) (R.reading input.new) Passed) }
    ensures err { IfErr result (λ e. passed_read count (left (R.reading input.old)) ≡ Err e) }
{
    for _ in 0..count {
        input.read_uleb128()?;
    }
    Ok(())
}
