//! The table of operations: the code of each and the operands behind it (7.7.1).

ghost use Rattle.std.specs.Prelude.{◌≡◌, ◌≤◌, [], ◌∷◌, ◌++◌, length, if◌then◌else◌};
ghost use Rattle.dw_base.specs.Forms.{info_place_of};
ghost use Rattle.dw_expr.specs.OperandViews.{operand_in, operands_in};
ghost use Rattle.dw_expr.specs.Operands.{dense, code_by as code_in, short_or as short_in, picked as picked_in, base_or_generic as base_in, node_operands, typed_deref_code, Byte, Nothing};
ghost use Rattle.dw_expr.specs.Views.{node_of};

use super::Operation;
use dw_base::constants::*;
use dw_base::{Address, DebugInfoRef, DwOp, Encoding, UnitEntryId};

/// A part of an operation's spelling.
#[derive(Clone, Copy)]
pub enum Operand<'a> {
    Nothing,
    /// One byte.
    Byte(u8),
    /// Bytes as they are.
    Bytes(&'a [u8]),
    /// A number as ULEB128.
    Uleb(u64),
    /// A number as SLEB128.
    Sleb(i64),
    /// How many bytes follow, in one byte.
    Count(usize),
    /// An address of the target.
    Target(Address),
    /// An entry's place in its unit as ULEB128.
    Base(UnitEntryId),
    /// An entry's place in its unit in four bytes.
    Place(UnitEntryId),
    /// An entry's place in `.debug_info`, in so many bytes.
    Info(DebugInfoRef, u8),
    /// The distance to an operation.
    Distance(Option<usize>),
}

/// The code of an operation and up to three operands.
#[derive(Clone, Copy)]
pub struct Operands<'a> {
    pub code: Operand<'a>,
    pub first: Operand<'a>,
    pub second: Operand<'a>,
    pub third: Operand<'a>,
}

/// One operand alone.
fn one<'a>(code: Operand<'a>) -> Operands<'a>
    ensures { operands_in result
        ≡ dense (operand_in code.entry ∷ Nothing ∷ Nothing ∷ Nothing ∷ []) }
{
    two(code, Operand::Nothing)
}

/// Two of them.
fn two<'a>(code: Operand<'a>, first: Operand<'a>) -> Operands<'a>
    ensures { operands_in result
        ≡ dense (operand_in code.entry ∷ operand_in first.entry ∷ Nothing ∷ Nothing ∷ []) }
{
    three(code, first, Operand::Nothing)
}

/// Three of them.
fn three<'a>(code: Operand<'a>, first: Operand<'a>, second: Operand<'a>) -> Operands<'a>
    ensures { operands_in result
        ≡ dense
        (operand_in code.entry ∷ operand_in first.entry ∷ operand_in second.entry ∷ Nothing ∷ []) }
{
    Operands {
        code,
        first,
        second,
        third: Operand::Nothing,
    }
}

/// The code that an operation has from version 5 on, or that of the extension below.
fn code_by<'a>(encoding: Encoding, new: DwOp, old: DwOp) -> Operand<'a>
    ensures { operand_in result ≡ Byte (code_in encoding new old) }
{
    let code = if encoding.version >= 5 { new } else { old };
    Operand::Byte(code.0)
}

/// A number below 32 in the code, or any other behind a code of its own; and an operand.
fn short_or<'a>(short: DwOp, long: DwOp, number: u64, last: Operand<'a>) -> Operands<'a>
    requires { short.0 ≤ 200 }
    ensures { operands_in result
        ≡ short_in short long number ++ dense (operand_in last.entry ∷ Nothing ∷ []) }
{
    if number < 32 {
        Operands {
            code: Operand::Byte(short.0 + number as u8),
            first: Operand::Nothing,
            second: last,
            third: Operand::Nothing,
        }
    } else {
        three(Operand::Byte(long.0), Operand::Uleb(number), last)
    }
}

/// A copy of the element of this index.
fn picked<'a>(index: u8) -> Operands<'a>
    ensures { operands_in result ≡ picked_in index }
{
    match index {
        0 => one(Operand::Byte(DW_OP_dup.0)),
        1 => one(Operand::Byte(DW_OP_over.0)),
        _ => two(Operand::Byte(DW_OP_pick.0), Operand::Byte(index)),
    }
}

/// A conversion to a base type, or to the generic type.
fn conversion<'a>(
    encoding: Encoding,
    new: DwOp,
    old: DwOp,
    base: Option<UnitEntryId>,
) -> Operands<'a>
    ensures { operands_in result ≡ Byte (code_in encoding new old) ∷ base_in base ∷ [] }
{
    match base {
        Some(entry) => two(code_by(encoding, new, old), Operand::Base(entry)),
        None => two(code_by(encoding, new, old), Operand::Byte(0)),
    }
}

/// An operation with or without an address space.
fn spaced<'a>(space: bool, with: DwOp, without: DwOp) -> Operand<'a>
    ensures { operand_in result ≡ Byte (if space then with else without).0 }
{
    let code = if space { with } else { without };
    Operand::Byte(code.0)
}

/// The bytes of an entry's place in `.debug_info` in an implicit pointer: an address in version 2.
fn pointer_width(encoding: Encoding) -> u8
    ensures { result ≡ info_place_of encoding }
{
    if encoding.version == 2 {
        encoding.address_size
    } else {
        encoding.format.word_size()
    }
}

/// The code of a typed dereference, which was an extension without address spaces.
fn typed_deref<'a>(encoding: Encoding, space: bool) -> Operand<'a>
    ensures { operand_in result ≡ Byte (typed_deref_code encoding space) }
{
    if space {
        Operand::Byte(DW_OP_xderef_type.0)
    } else {
        code_by(encoding, DW_OP_deref_type, DW_OP_GNU_deref_type)
    }
}

impl Operation {
    /// The code and the operands, up to an expression in it.
    pub fn operands(&self, encoding: Encoding) -> Operands<'_>
        ensures { operands_in result ≡ node_operands encoding (node_of self.now) }
    {
        let word = encoding.format.word_size();
        match self {
            Operation::Raw(bytecode) => one(Operand::Bytes(bytecode.slice())),
            Operation::Simple(opcode) => one(Operand::Byte(opcode.0)),
            Operation::Address(address) => two(
                Operand::Byte(DW_OP_addr.0),
                Operand::Target(*address),
            ),
            Operation::UnsignedConstant(value) => short_or(
                DW_OP_lit0,
                DW_OP_constu,
                *value,
                Operand::Nothing,
            ),
            Operation::SignedConstant(value) => two(
                Operand::Byte(DW_OP_consts.0),
                Operand::Sleb(*value),
            ),
            Operation::ConstantType(base, value) => Operands {
                code: code_by(encoding, DW_OP_const_type, DW_OP_GNU_const_type),
                first: Operand::Base(*base),
                second: Operand::Count(value.len()),
                third: Operand::Bytes(value.slice()),
            },
            Operation::FrameOffset(offset) => two(
                Operand::Byte(DW_OP_fbreg.0),
                Operand::Sleb(*offset),
            ),
            Operation::RegisterOffset(register, offset) => short_or(
                DW_OP_breg0,
                DW_OP_bregx,
                register.0 as u64,
                Operand::Sleb(*offset),
            ),
            Operation::RegisterType(register, base) => three(
                code_by(encoding, DW_OP_regval_type, DW_OP_GNU_regval_type),
                Operand::Uleb(register.0 as u64),
                Operand::Base(*base),
            ),
            Operation::Pick(index) => picked(*index),
            Operation::Deref { space } => one(spaced(*space, DW_OP_xderef, DW_OP_deref)),
            Operation::DerefSize { space, size } => two(
                spaced(*space, DW_OP_xderef_size, DW_OP_deref_size),
                Operand::Byte(*size),
            ),
            Operation::DerefType { space, size, base } => three(
                typed_deref(encoding, *space),
                Operand::Byte(*size),
                Operand::Base(*base),
            ),
            Operation::PlusConstant(value) => two(
                Operand::Byte(DW_OP_plus_uconst.0),
                Operand::Uleb(*value),
            ),
            Operation::Skip(target) => two(Operand::Byte(DW_OP_skip.0), Operand::Distance(*target)),
            Operation::Branch(target) => two(
                Operand::Byte(DW_OP_bra.0),
                Operand::Distance(*target),
            ),
            Operation::Call(entry) => two(Operand::Byte(DW_OP_call4.0), Operand::Place(*entry)),
            Operation::CallRef(entry) => two(
                Operand::Byte(DW_OP_call_ref.0),
                Operand::Info(*entry, word),
            ),
            Operation::VariableValue(entry) => two(
                Operand::Byte(DW_OP_GNU_variable_value.0),
                Operand::Info(*entry, word),
            ),
            Operation::Convert(base) => conversion(
                encoding,
                DW_OP_convert,
                DW_OP_GNU_convert,
                *base,
            ),
            Operation::Reinterpret(base) => conversion(
                encoding,
                DW_OP_reinterpret,
                DW_OP_GNU_reinterpret,
                *base,
            ),
            Operation::Register(register) => short_or(
                DW_OP_reg0,
                DW_OP_regx,
                register.0 as u64,
                Operand::Nothing,
            ),
            Operation::ImplicitValue(bytes) => three(
                Operand::Byte(DW_OP_implicit_value.0),
                Operand::Uleb(bytes.len() as u64),
                Operand::Bytes(bytes.slice()),
            ),
            Operation::ImplicitPointer { entry, byte_offset } => three(
                code_by(encoding, DW_OP_implicit_pointer, DW_OP_GNU_implicit_pointer),
                Operand::Info(*entry, pointer_width(encoding)),
                Operand::Sleb(*byte_offset),
            ),
            Operation::Piece { size_in_bytes } => two(
                Operand::Byte(DW_OP_piece.0),
                Operand::Uleb(*size_in_bytes),
            ),
            Operation::BitPiece {
                size_in_bits,
                bit_offset,
            } => three(
                Operand::Byte(DW_OP_bit_piece.0),
                Operand::Uleb(*size_in_bits),
                Operand::Uleb(*bit_offset),
            ),
            Operation::ParameterRef(entry) => two(
                Operand::Byte(DW_OP_GNU_parameter_ref.0),
                Operand::Place(*entry),
            ),
            Operation::WasmLocal(index) => three(
                Operand::Byte(DW_OP_WASM_location.0),
                Operand::Byte(0),
                Operand::Uleb(*index as u64),
            ),
            Operation::WasmGlobal(index) => three(
                Operand::Byte(DW_OP_WASM_location.0),
                Operand::Byte(1),
                Operand::Uleb(*index as u64),
            ),
            Operation::WasmStack(index) => three(
                Operand::Byte(DW_OP_WASM_location.0),
                Operand::Byte(2),
                Operand::Uleb(*index as u64),
            ),
            Operation::EntryValue(_) => one(code_by(
                encoding,
                DW_OP_entry_value,
                DW_OP_GNU_entry_value,
            )),
        }
    }
}
