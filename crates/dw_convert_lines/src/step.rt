//! What instructions make of the registers of the line machine (DWARF 5, 6.2.5).

ghost use Rattle.std.specs.Prelude.{◌≡◌, Bool, false, Some};
ghost use Rattle.std.specs.Option.{option_map};
ghost use Rattle.dw_base.specs.Numbers.{value_of, high_first, low_first};
ghost use Rattle.dw_base.specs.LineMachine.{LineHeader, Special, ConstAddPc, changed};
ghost use Rattle.dw_read.specs.Reading.{left};
ghost use Rattle.dw_read_lines.specs.LineHeaderViews.{machine_of};
ghost use Rattle.dw_read_lines.specs.LineInstructionViews.{instruction_of};
ghost use Rattle.dw_convert_lines.specs.ReadRows.{stepped};
ghost use Rattle.dw_convert_lines.specs.RegisterSteps.{is_moving, in_64_bits, IsTold};
ghost use Rattle.dw_convert_lines.specs.RegisterViews.{registers_of};

use crate::registers::Registers;
use dw_base::{Endianity, LineEncoding};
use dw_read::Reader;
use dw_read_lines::{LineInstruction, LineProgramHeader};

/// What an instruction makes of the registers, before it leaves them to the next one. None comes
/// where a sum falls below 0 or passes 64 bits.
#[tactic(auto, unfolding(dw_base::specs::LineMachine::changed))]
pub(crate) fn step<R: Reader>(
    header: &LineProgramHeader<R>,
    instruction: &LineInstruction<R>,
    registers: Registers,
) -> Option<Registers>
    ensures { (big : Bool) → option_map registers_of result
        ≡ stepped (machine_of R.reading big header.now.parameters)
        (instruction_of R.reading instruction.now) (registers_of registers) }
{
    let parameters = header.line_encoding();
    let minimum_length = parameters.minimum_instruction_length;
    match instruction {
        LineInstruction::Special(opcode) => special(parameters, *opcode, registers),
        LineInstruction::AdvancePc(operations) => registers.advanced(minimum_length, *operations),
        LineInstruction::AdvanceLine(lines) => registers.line_moved(*lines),
        LineInstruction::ConstAddPc => const_added(parameters, header.opcode_base(), registers),
        LineInstruction::FixedAddPc(bytes) => registers.moved(u64::from(*bytes)),
        LineInstruction::SetAddress(bytes) => {
            let address = number_of(bytes)?;
            Some(Registers {
                address,
                ..registers
            })
        }
        _ => Some(marked(instruction, registers)),
    }
}

/// What an instruction makes of them that adds to no register and sets no address.
#[tactic(auto, unfolding(dw_base::specs::LineMachine::changed))]
fn marked<R: Reader>(instruction: &LineInstruction<R>, registers: Registers) -> Registers
    requires { is_moving (instruction_of R.reading instruction.now) ≡ false }
    ensures is { (h : LineHeader) → changed h (instruction_of R.reading instruction.now)
        (registers_of registers) ≡ Some (registers_of result) }
    ensures address { result.address ≡ registers.address }
    ensures line { result.line ≡ registers.line }
{
    let mut marked = registers;
    match instruction {
        LineInstruction::SetFile(file) => marked.file = *file,
        LineInstruction::SetColumn(column) => marked.column = *column,
        LineInstruction::SetIsa(isa) => marked.isa = *isa,
        LineInstruction::SetDiscriminator(discriminator) => marked.discriminator = *discriminator,
        LineInstruction::NegateStatement => marked.is_statement = !registers.is_statement,
        LineInstruction::SetBasicBlock => marked.basic_block = true,
        LineInstruction::SetPrologueEnd => marked.prologue_end = true,
        LineInstruction::SetEpilogueBegin => marked.epilogue_begin = true,
        _ => (),
    }
    marked
}

/// What a special opcode makes of them: it moves both the address and the line.
fn special(parameters: LineEncoding, opcode: u8, registers: Registers) -> Option<Registers>
    ensures { (h : LineHeader) → IsTold parameters h → option_map registers_of result
        ≡ stepped h (Special opcode) (registers_of registers) }
{
    let range = u64::from(parameters.line_range);
    let operations = u64::from(opcode).checked_div(range)?;
    let lines = i64::from(parameters.line_base) + i64::from(opcode % parameters.line_range);
    let moved = registers.advanced(parameters.minimum_instruction_length, operations)?;
    moved.line_moved(lines)
}

/// Moves the address like the special opcode 255.
fn const_added(parameters: LineEncoding, opcode_base: u8, registers: Registers) -> Option<Registers>
    ensures { (h : LineHeader) → IsTold parameters h → h.opcode_base ≡ opcode_base
        → option_map registers_of result ≡ stepped h ConstAddPc (registers_of registers) }
{
    let range = u64::from(parameters.line_range);
    let operations = u64::from(255 - opcode_base).checked_div(range)?;
    registers.advanced(parameters.minimum_instruction_length, operations)
}

/// The number of all bytes that are left, where it has 64 bits.
fn number_of<R: Reader>(bytes: &R) -> Option<u64>
    ensures { result ≡ in_64_bits
        (value_of (R.reading bytes.now).is_big (left (R.reading bytes.now))) }
{
    if bytes.endian().is_big_endian() {
        high_first(bytes.to_slice())
    } else {
        low_first(bytes.to_slice())
    }
}

/// The number of bytes, the highest of which stands first.
fn high_first(bytes: &[u8]) -> Option<u64>
    ensures { result ≡ in_64_bits (high_first 0 bytes.now) }
{
    let mut number = 0u64;
    for byte in bytes {
        number = number.checked_mul(256)?.checked_add(u64::from(*byte))?;
    }
    Some(number)
}

/// The number of bytes, the lowest of which stands first.
fn low_first(bytes: &[u8]) -> Option<u64>
    ensures { result ≡ in_64_bits (low_first bytes.now) }
{
    let mut number = 0u64;
    let mut end = bytes.len();
    while end > 0 {
        end -= 1;
        number = number.checked_mul(256)?.checked_add(u64::from(bytes[end]))?;
    }
    Some(number)
}
