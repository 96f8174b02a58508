//! Operations, as they are read (DWARF 5, 2.5 and 2.6.1).

use dw_base::{DebugInfoOffset, DwOp, Register, UnitOffset};
use dw_read::{Expression, Reader};

/// An operation of an expression that was read. Bytes and expressions within it are parts of the
/// section.
///
/// ```
/// // The variable's place is 16 bytes below the frame's base.
/// let operation: Operation<R> = Operation::FrameOffset(-16);
/// ```
#[derive(Drop)]
pub enum Operation<R: Reader> {
    /// An operation without operands.
    Simple(DwOp),
    /// Pushes an address (2.5.1.1).
    Address(u64),
    /// Pushes the address of an index in the unit's part of `.debug_addr` (2.5.1.1).
    AddressIndex(u64),
    /// Pushes the constant of such an index (2.5.1.1).
    ConstantIndex(u64),
    /// Pushes an unsigned number (2.5.1.1).
    UnsignedConstant(u64),
    /// Pushes a signed number (2.5.1.1).
    SignedConstant(i64),
    /// Pushes the bytes of a value of a base type (2.5.1.1).
    ConstantType(UnitOffset, R),
    /// Pushes the frame's base plus an offset (2.5.1.2).
    FrameOffset(i64),
    /// Pushes a register's content plus an offset (2.5.1.2).
    RegisterOffset(Register, i64),
    /// Pushes a register's content, read as a value of a base type (2.5.1.2).
    RegisterType(Register, UnitOffset),
    /// Pushes a copy of the element of the stack at this index, 0 being its top (2.5.1.3).
    Pick(u8),
    /// Replaces an address by the word there (2.5.1.3).
    Deref {
        /// Whether an address space stands below the address.
        space: bool,
    },
    /// Replaces an address by so many bytes there (2.5.1.3).
    DerefSize {
        /// Whether an address space stands below the address.
        space: bool,
        /// How many bytes are read.
        size: u8,
    },
    /// Replaces an address by the value of a base type there (2.5.1.3).
    DerefType {
        /// Whether an address space stands below the address.
        space: bool,
        /// How many bytes are read.
        size: u8,
        /// The base type.
        base: UnitOffset,
    },
    /// Adds a number to the top of the stack (2.5.1.4).
    PlusConstant(u64),
    /// Goes on so many bytes behind this operation (2.5.1.5).
    Skip(i16),
    /// Does so where the top of the stack isn't zero (2.5.1.5).
    Branch(i16),
    /// Evaluates the location of an entry of this unit (2.5.1.5).
    Call(UnitOffset),
    /// Evaluates the location of an entry (2.5.1.5).
    CallRef(DebugInfoOffset),
    /// Pushes the value of a variable, a GNU extension.
    VariableValue(DebugInfoOffset),
    /// Converts the top of the stack to a base type, or to the generic type (2.5.1.6).
    Convert(Option<UnitOffset>),
    /// Reads the top of the stack as a value of a base type, or of the generic type (2.5.1.6).
    Reinterpret(Option<UnitOffset>),
    /// Pushes what an expression gave on entry to the function (2.5.1.7).
    EntryValue(Expression<R>),
    /// The value is in a register (2.6.1.1.3).
    Register(Register),
    /// The value is these bytes (2.6.1.1.4).
    ImplicitValue(R),
    /// The value is a pointer into the value of an entry (2.6.1.1.4).
    ImplicitPointer {
        /// The entry whose value it points into.
        entry: DebugInfoOffset,
        /// Where it points, from the begin of that value.
        byte_offset: i64,
    },
    /// What stands before locates so many bytes of the value (2.6.1.2).
    Piece {
        /// How many bytes.
        size_in_bytes: u64,
    },
    /// What stands before locates so many bits of the value (2.6.1.2).
    BitPiece {
        /// How many bits.
        size_in_bits: u64,
        /// Where they begin in what was located.
        bit_offset: u64,
    },
    /// Pushes the value of a parameter in a caller, a GNU extension.
    ParameterRef(UnitOffset),
    /// The value is in a local of WebAssembly.
    WasmLocal(u32),
    /// The value is in a global of WebAssembly.
    WasmGlobal(u32),
    /// The value is in an operand of WebAssembly's stack.
    WasmStack(u32),
}
