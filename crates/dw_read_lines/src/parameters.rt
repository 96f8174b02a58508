//! The parameters of the line machine, as a header tells them (DWARF 5, 6.2.4).

ghost use Rattle.std.specs.Prelude.{◌≡◌, ◌-◌, nat_le, IfOk, IfErr, Err};
ghost use Rattle.dw_base.specs.LineReader.{signed_byte};
ghost use Rattle.dw_read.specs.Reading.{left};
ghost use Rattle.dw_read.specs.Took.{Took};
ghost use Rattle.dw_read_lines.specs.LineHeaders.{operations_read, parameters_read};
ghost use Rattle.dw_read_lines.specs.LineHeaderViews.{parameters_of};

use dw_base::LineEncoding;
use dw_read::{ReadResult, Reader};

/// What the line machine is told.
#[derive(Drop)]
pub(crate) struct Parameters<R: Reader> {
    pub(crate) line_encoding: LineEncoding,
    pub(crate) opcode_base: u8,
    /// How many operands the opcodes from 1 up to the base have, a byte each.
    pub(crate) operand_counts: R,
}

/// Reads the parameters of a program of a version.
pub(crate) fn read_parameters<R: Reader>(input: &mut R, version: u16) -> ReadResult<Parameters<R>>
    ensures ok { IfOk result (λ p. Took _
        (parameters_read (R.reading input.old).is_big version)
        (R.reading input.old) (R.reading input.new)
        (parameters_of R.reading (R.reading input.old).is_big p)) }
    ensures order { IfOk result (λ p.
        (R.reading p.operand_counts).is_big ≡ (R.reading input.old).is_big) }
    ensures err { IfErr result (λ e. parameters_read (R.reading input.old).is_big version
        (left (R.reading input.old)) ≡ Err e) }
{
    let minimum = input.read_u8()?;
    let operations = read_operations(input, version)?;
    let statement = input.read_u8()?;
    let line_base = input.read_u8()?;
    let line_range = input.read_u8()?;
    let opcode_base = input.read_u8()?;
    let operand_counts = input.split(standard_opcodes(opcode_base))?;
    Ok(Parameters {
        line_encoding: LineEncoding {
            minimum_instruction_length: minimum,
            maximum_operations_per_instruction: operations,
            default_is_stmt: statement != 0,
            line_base: signed_byte(line_base),
            line_range,
        },
        opcode_base,
        operand_counts,
    })
}

/// Reads how many operations the longest instruction has, which is 1 below version 4.
fn read_operations<R: Reader>(input: &mut R, version: u16) -> ReadResult<u8>
    ensures ok { IfOk result (Took _ (operations_read (R.reading input.old).is_big version)
        (R.reading input.old) (R.reading input.new)) }
    ensures err { IfErr result (λ e. operations_read (R.reading input.old).is_big version
        (left (R.reading input.old)) ≡ Err e) }
{
    if version >= 4 {
        return input.read_u8();
    }
    Ok(1)
}

/// How many opcodes are below a base, from 1 on.
fn standard_opcodes(opcode_base: u8) -> usize
    ensures { result ≡ opcode_base - 1 }
{
    opcode_base.saturating_sub(1) as usize
}

/// A byte as a signed number.
fn signed_byte(byte: u8) -> i8
    ensures { result ≡ signed_byte byte }
{
    byte.cast_signed()
}
