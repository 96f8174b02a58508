//! The operands of call frame instructions (DWARF 5, 6.4.2).

ghost use Rattle.std.specs.Prelude.{None};
ghost use Rattle.dw_frame_instructions.specs.Causes.{Writes};
ghost use Rattle.dw_frame_instructions.specs.Operands.{Block, operand_in, operand_piece, operand_fails};

use dw_base::{Encoding, Result, UnitEntryId};
use dw_expr::{EntryPlaces, Expression};
use dw_writer::Writer;

/// No entry has a place: frames belong to no unit.
struct NoPlaces;

impl EntryPlaces for NoPlaces {
    ghost places = { λ p i. None };

    fn unit_place(&self, _id: UnitEntryId) -> Option<u64> {
        None
    }
}

/// An operand of an instruction.
#[derive(Clone, Copy)]
pub enum Operand<'a> {
    Nothing,
    Uleb(u64),
    Sleb(i64),
    /// An expression behind its length.
    Block(&'a Expression),
}

impl<'a> Operand<'a> {
    /// Writes the operand.
    pub fn write<W: Writer>(self, w: &mut W, encoding: Encoding) -> Result<()>
        ensures { Writes result (W.meaning w.old) (W.meaning w.new)
            (operand_piece encoding (operand_in self.entry))
            (operand_fails encoding (W.meaning w.old).is_plain (operand_in self.entry)) }
    {
        match self {
            Operand::Nothing => Ok(()),
            Operand::Uleb(val) => w.write_uleb128(val),
            Operand::Sleb(val) => w.write_sleb128(val),
            Operand::Block(expression) => write_block(expression, w, encoding),
        }
    }
}

/// Writes an expression behind its length.
fn write_block<W: Writer>(expression: &Expression, w: &mut W, encoding: Encoding) -> Result<()>
    ensures { Writes result (W.meaning w.old) (W.meaning w.new)
        (operand_piece encoding (Block expression.now))
        (operand_fails encoding (W.meaning w.old).is_plain (Block expression.now)) }
{
    let none: Option<&NoPlaces> = None;
    let size = expression.size(encoding, none)?;
    w.write_uleb128(size as u64)?;
    expression.write(w, None, encoding, none)
}
