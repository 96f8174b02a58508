//! Call frame instructions, as they are read (DWARF 5, 6.4.2 and table 7.29).

use dw_base::Register;
use dw_read::{Expression, Reader};

/// A call frame instruction. Offsets are handed out as they stand: a factored one isn't multiplied.
///
/// ```
/// let moved = CallFrameInstruction::AdvanceLoc { delta: 4 };
/// ```
#[derive(Drop)]
pub enum CallFrameInstruction<R: Reader> {
    SetLoc {
        address: u64,
    },
    /// How far the location moves on, over the factor of code offsets.
    AdvanceLoc {
        delta: u32,
    },
    DefCfa {
        register: Register,
        offset: u64,
    },
    DefCfaSf {
        register: Register,
        factored_offset: i64,
    },
    DefCfaRegister {
        register: Register,
    },
    DefCfaOffset {
        offset: u64,
    },
    DefCfaOffsetSf {
        factored_offset: i64,
    },
    DefCfaExpression {
        expression: Expression<R>,
    },
    Undefined {
        register: Register,
    },
    SameValue {
        register: Register,
    },
    Offset {
        register: Register,
        factored_offset: u64,
    },
    OffsetExtendedSf {
        register: Register,
        factored_offset: i64,
    },
    ValOffset {
        register: Register,
        factored_offset: u64,
    },
    ValOffsetSf {
        register: Register,
        factored_offset: i64,
    },
    Register {
        dest_register: Register,
        src_register: Register,
    },
    Expression {
        register: Register,
        expression: Expression<R>,
    },
    ValExpression {
        register: Register,
        expression: Expression<R>,
    },
    Restore {
        register: Register,
    },
    RememberState,
    RestoreState,
    /// The bytes of arguments on the stack.
    ArgsSize {
        size: u64,
    },
    NegateRaState,
    Nop,
}
