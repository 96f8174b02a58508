//! Operations of expressions, as lines spell them.

ghost use Rattle.std.specs.Prelude.{◌≡◌};
ghost use Rattle.dw_ends.specs.Fields.{with_rest};
ghost use Rattle.dw_script_fields.specs.Operations.{bit_piece_field, deref_type_field, operation_of_word, pair_of_word, target_of};
ghost use Rattle.dw_ends.specs.Pieces.{pieces_left};

use crate::field::{
    next_address, next_hex_bytes, next_i64, next_index_or_none, next_opcode, next_reference,
    next_target, next_u8, next_u16, next_u32, next_usize,
};
use crate::operation_word::{OperationWord, PairWord};
use dw_base::{Address, DebugInfoRef, DwOp, Register};
use dw_ends::{HexBytes, Pieces, Reason, next_u64};

/// An operation of an expression (DWARF 5, 2.5 and 2.6). Entries are named by their index in the
/// unit, and branches lead to the operation of an index, counted from 0 in the expression that
/// holds them; the index behind the last one is its end.
#[derive(Drop)]
pub enum ScriptOperation<'a> {
    /// Operations that are spelled already; they count as one.
    Raw(HexBytes<'a>),
    /// An operation without operands.
    Simple(DwOp),
    /// Pushes an address (2.5.1.1).
    Address(Address),
    /// Pushes an unsigned number (2.5.1.1).
    UnsignedConstant(u64),
    /// Pushes a signed number (2.5.1.1).
    SignedConstant(i64),
    /// Pushes the bytes of a value of a base type (2.5.1.1).
    ConstantType {
        base: usize,
        value: HexBytes<'a>,
    },
    /// Pushes the frame's base plus an offset in bytes (2.5.1.2).
    FrameOffset(i64),
    /// Pushes a register's content plus an offset in bytes (2.5.1.2).
    RegisterOffset {
        register: Register,
        offset: i64,
    },
    /// Pushes a register's content, read as a value of a base type (2.5.1.2).
    RegisterType {
        register: Register,
        base: usize,
    },
    /// Pushes a copy of the element of the stack at this index, 0 being its top (2.5.1.3).
    Pick(u8),
    /// Replaces an address by the word there (2.5.1.3). With `space`, here and below, an address
    /// space stands below the address.
    Deref {
        space: bool,
    },
    /// Replaces an address by so many bytes there (2.5.1.3).
    DerefSize {
        space: bool,
        size: u8,
    },
    /// Replaces an address by the value of a base type there, of so many bytes (2.5.1.3).
    DerefType {
        space: bool,
        size: u8,
        base: usize,
    },
    /// Adds a number to the top of the stack (2.5.1.4).
    PlusConstant(u64),
    /// Goes on at another operation, or has no target yet (2.5.1.5).
    Skip(Option<usize>),
    /// Does so where the top of the stack isn't zero (2.5.1.5).
    Branch(Option<usize>),
    /// Evaluates the location of an entry of this unit (2.5.1.5).
    Call(usize),
    /// Evaluates the location of an entry of any unit (2.5.1.5).
    CallRef(DebugInfoRef),
    /// Pushes the value of a variable, a GNU extension.
    VariableValue(DebugInfoRef),
    /// Converts the top of the stack to a base type, or to the generic type (2.5.1.6).
    Convert(Option<usize>),
    /// Reads the top of the stack as a value of a base type, or of the generic type (2.5.1.6).
    Reinterpret(Option<usize>),
    /// The value is in a register (2.6.1.1.3).
    Register(Register),
    /// The value is these bytes (2.6.1.1.4).
    ImplicitValue(HexBytes<'a>),
    /// The value points into the value of an entry, so many bytes from its begin (2.6.1.1.4).
    ImplicitPointer {
        entry: DebugInfoRef,
        byte_offset: i64,
    },
    /// What stands before locates so many bytes of the value (2.6.1.2).
    Piece(u64),
    /// What stands before locates so many bits of the value, from a bit on (2.6.1.2).
    BitPiece {
        size_in_bits: u64,
        bit_offset: u64,
    },
    /// Pushes the value of a parameter in a caller, a GNU extension.
    ParameterRef(usize),
    /// The value is in a local of WebAssembly.
    WasmLocal(u32),
    /// The value is in a global of WebAssembly.
    WasmGlobal(u32),
    /// The value is in an operand of WebAssembly's stack.
    WasmStack(u32),
}

impl<'a> ScriptOperation<'a> {
    /// Where the operation leads, if it is a branch with a target.
    pub(crate) fn target(&self) -> Option<usize>
        ensures { result ≡ target_of self.now }
    {
        match self {
            ScriptOperation::Skip(target) | ScriptOperation::Branch(target) => *target,
            _ => None,
        }
    }
}

/// The operand of a word that takes one or none, and what operation they are.
pub(crate) fn next_operation<'a>(
    word: OperationWord,
    fields: &mut Pieces<'a>,
) -> Result<ScriptOperation<'a>, Reason>
    ensures { with_rest result (pieces_left fields.new) ≡
        operation_of_word word (pieces_left fields.old) }
{
    let operation = match word {
        OperationWord::Simple => ScriptOperation::Simple(next_opcode(fields)?),
        OperationWord::Address => ScriptOperation::Address(next_address(fields)?),
        OperationWord::UnsignedConstant => ScriptOperation::UnsignedConstant(next_u64(fields)?),
        OperationWord::SignedConstant => ScriptOperation::SignedConstant(next_i64(fields)?),
        OperationWord::FrameOffset => ScriptOperation::FrameOffset(next_i64(fields)?),
        OperationWord::Pick => ScriptOperation::Pick(next_u8(fields)?),
        OperationWord::Deref => ScriptOperation::Deref { space: false },
        OperationWord::SpaceDeref => ScriptOperation::Deref { space: true },
        OperationWord::DerefSize => deref_size(false, next_u8(fields)?),
        OperationWord::SpaceDerefSize => deref_size(true, next_u8(fields)?),
        OperationWord::PlusConstant => ScriptOperation::PlusConstant(next_u64(fields)?),
        OperationWord::Skip => ScriptOperation::Skip(next_target(fields)?),
        OperationWord::Branch => ScriptOperation::Branch(next_target(fields)?),
        OperationWord::Call => ScriptOperation::Call(next_usize(fields)?),
        OperationWord::CallRef => ScriptOperation::CallRef(next_reference(fields)?),
        OperationWord::VariableValue => ScriptOperation::VariableValue(next_reference(fields)?),
        OperationWord::Convert => ScriptOperation::Convert(next_index_or_none(fields)?),
        OperationWord::Reinterpret => ScriptOperation::Reinterpret(next_index_or_none(fields)?),
        OperationWord::Register => ScriptOperation::Register(Register(next_u16(fields)?)),
        OperationWord::ImplicitValue => ScriptOperation::ImplicitValue(next_hex_bytes(fields)?),
        OperationWord::Piece => ScriptOperation::Piece(next_u64(fields)?),
        OperationWord::ParameterRef => ScriptOperation::ParameterRef(next_usize(fields)?),
        OperationWord::WasmLocal => ScriptOperation::WasmLocal(next_u32(fields)?),
        OperationWord::WasmGlobal => ScriptOperation::WasmGlobal(next_u32(fields)?),
        OperationWord::WasmStack => ScriptOperation::WasmStack(next_u32(fields)?),
    };
    Ok(operation)
}

fn deref_size<'a>(space: bool, size: u8) -> ScriptOperation<'a>
    ensures { result ≡ ScriptOperation.DerefSize space size }
{
    ScriptOperation::DerefSize { space, size }
}

/// The operands of a word that takes two, and what operation they are.
pub(crate) fn next_pair<'a>(
    word: PairWord,
    fields: &mut Pieces<'a>,
) -> Result<ScriptOperation<'a>, Reason>
    ensures { with_rest result (pieces_left fields.new) ≡
        pair_of_word word (pieces_left fields.old) }
{
    match word {
        PairWord::ConstantType => {
            let base = next_usize(fields)?;
            let value = next_hex_bytes(fields)?;
            Ok(ScriptOperation::ConstantType { base, value })
        }
        PairWord::RegisterOffset => {
            let register = Register(next_u16(fields)?);
            let offset = next_i64(fields)?;
            Ok(ScriptOperation::RegisterOffset { register, offset })
        }
        PairWord::RegisterType => {
            let register = Register(next_u16(fields)?);
            let base = next_usize(fields)?;
            Ok(ScriptOperation::RegisterType { register, base })
        }
        PairWord::DerefType => next_deref_type(false, fields),
        PairWord::SpaceDerefType => next_deref_type(true, fields),
        PairWord::ImplicitPointer => {
            let entry = next_reference(fields)?;
            let byte_offset = next_i64(fields)?;
            Ok(ScriptOperation::ImplicitPointer { entry, byte_offset })
        }
        PairWord::BitPiece => next_bit_piece(fields),
    }
}

fn next_deref_type<'a>(space: bool, fields: &mut Pieces<'a>) -> Result<ScriptOperation<'a>, Reason>
    ensures { with_rest result (pieces_left fields.new) ≡
        deref_type_field space (pieces_left fields.old) }
{
    let size = next_u8(fields)?;
    let base = next_usize(fields)?;
    Ok(ScriptOperation::DerefType { space, size, base })
}

fn next_bit_piece<'a>(fields: &mut Pieces<'a>) -> Result<ScriptOperation<'a>, Reason>
    ensures { with_rest result (pieces_left fields.new) ≡
        bit_piece_field (pieces_left fields.old) }
{
    let size_in_bits = next_u64(fields)?;
    let bit_offset = next_u64(fields)?;
    Ok(ScriptOperation::BitPiece {
        size_in_bits,
        bit_offset,
    })
}
