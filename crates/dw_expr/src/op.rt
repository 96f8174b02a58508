//! Expressions and their operations (DWARF 5, 2.5).

ghost use Rattle.std.specs.Prelude.{◌≡◌, ◌≢◌, ◌↔◌, ◌+◌, ◌<◌, ◌≤◌, [], ◌∷◌, ◌++◌, length, Option, Some, None, true, false, IsTrue, IfOk, IfErr, slice_get};
ghost use Rattle.std.specs.Option.{option_map};
ghost use Rattle.dw_base.specs.declared.error.Error.TheVariants.{NoMemory};
ghost use Rattle.dw_expr.specs.Views.{node_of, nodes_in};
ghost use Rattle.dw_expr.specs.Calls.{Pushes, raw_in, is_branch, is_branch_at, led, targeted};

mod copy;
mod equality;
mod operands;
mod size;
mod write;

use dw_base::{Address, DebugInfoRef, DwOp, Register, Result, UnitEntryId};
use dw_writer::Bytes;
use std::alloc::Global;
use std::marker::Model;

/// A location or a value, as operations of a stack machine (2.5, 2.6). Contracts see the list of
/// its operations, in which an operation may hold an expression.
///
/// ```
/// // The variable's place is 16 bytes below the frame's base.
/// let mut expression = Expression::new(alloc);
/// expression.op_fbreg(-16)?;
/// ```
#[cycle(expression)]
#[derive(Drop)]
pub struct Expression {
    operations: Vec<Operation>,
}

/// An operation of an expression. Its spelling may depend on the unit's encoding: the typed
/// operations have codes of their own below version 5, as GNU extensions.
///
/// ```
/// let low = Operation::Register(Register(5));
/// let operations = vec![in alloc; low, Operation::Piece { size_in_bytes: 4 }]?;
/// let expression = Expression::from_operations(alloc, operations);
/// ```
#[cycle(expression)]
#[derive(Drop)]
pub enum Operation {
    /// Operations that are spelled already.
    Raw(Bytes),
    /// An operation without operands.
    Simple(DwOp),
    /// Pushes an address, which a linker may have to fill in (2.5.1.1).
    Address(Address),
    /// Pushes an unsigned number (2.5.1.1).
    UnsignedConstant(u64),
    /// Pushes a signed number (2.5.1.1).
    SignedConstant(i64),
    /// Pushes the bytes of a value of a base type (2.5.1.1).
    ConstantType(UnitEntryId, Bytes),
    /// Pushes the frame's base plus an offset (2.5.1.2).
    FrameOffset(i64),
    /// Pushes a register's content plus an offset (2.5.1.2).
    RegisterOffset(Register, i64),
    /// Pushes a register's content, read as a value of a base type (2.5.1.2).
    RegisterType(Register, UnitEntryId),
    /// Pushes a copy of the element of the stack at this index, 0 being its top (2.5.1.3).
    Pick(u8),
    /// Replaces an address by the word there (2.5.1.3).
    Deref {
        /// Whether an address space stands below the address.
        space: bool,
    },
    /// Replaces an address by so many bytes there (2.5.1.3).
    DerefSize {
        /// Whether an address space stands below the address.
        space: bool,
        /// How many bytes are read.
        size: u8,
    },
    /// Replaces an address by the value of a base type there (2.5.1.3).
    DerefType {
        /// Whether an address space stands below the address.
        space: bool,
        /// How many bytes are read.
        size: u8,
        /// The base type.
        base: UnitEntryId,
    },
    /// Adds a number to the top of the stack (2.5.1.4).
    PlusConstant(u64),
    /// Goes on at the operation of this index, or ends at the index behind the last (2.5.1.5).
    Skip(Option<usize>),
    /// Does so where the top of the stack isn't zero (2.5.1.5).
    Branch(Option<usize>),
    /// Evaluates the location of an entry of this unit (2.5.1.5).
    Call(UnitEntryId),
    /// Evaluates the location of an entry (2.5.1.5).
    CallRef(DebugInfoRef),
    /// Pushes the value of a variable, a GNU extension.
    VariableValue(DebugInfoRef),
    /// Converts the top of the stack to a base type, or to the generic type (2.5.1.6).
    Convert(Option<UnitEntryId>),
    /// Reads the top of the stack as a value of a base type, or of the generic type (2.5.1.6).
    Reinterpret(Option<UnitEntryId>),
    /// Pushes what an expression gave on entry to the function (2.5.1.7).
    EntryValue(Expression),
    /// The value is in a register (2.6.1.1.3).
    Register(Register),
    /// The value is these bytes (2.6.1.1.4).
    ImplicitValue(Bytes),
    /// The value is a pointer into the value of an entry (2.6.1.1.4).
    ImplicitPointer {
        /// The entry whose value it points into.
        entry: DebugInfoRef,
        /// Where it points, from the begin of that value.
        byte_offset: i64,
    },
    /// What stands before locates so many bytes of the value (2.6.1.2).
    Piece {
        /// How many bytes.
        size_in_bytes: u64,
    },
    /// What stands before locates so many bits of the value (2.6.1.2).
    BitPiece {
        /// How many bits.
        size_in_bits: u64,
        /// Where they begin in what was located.
        bit_offset: u64,
    },
    /// Pushes the value of a parameter in a caller, a GNU extension.
    ParameterRef(UnitEntryId),
    /// The value is in a local of WebAssembly.
    WasmLocal(u32),
    /// The value is in a global of WebAssembly.
    WasmGlobal(u32),
    /// The value is in an operand of WebAssembly's stack.
    WasmStack(u32),
}

impl Model for Expression {
    ghost use Rattle.std.specs.Prelude.{List};
    ghost use Rattle.dw_expr.specs.Trees.{Node, depth};
    ghost use Rattle.dw_expr.specs.Codes.{expression_code};

    ghost Value = { List Node };

    ghost coded = { expression_code };

    ghost use Rattle.dw_expr.specs.Views.{nodes_in};

    ghost view = { λ e. nodes_in e.operations.items };

    ghost size = { depth };

    ghost use Rattle.dw_expr.specs.Falls.{most_depth};

    ghost size_decreases = { λ e h. most_depth e.operations.items };
}

impl Expression {
    /// An expression without operations.
    pub fn new(alloc: Global) -> Expression
        ensures { result ≡ [] }
    {
        Expression {
            operations: Vec::new(alloc),
        }
    }

    /// An expression that is spelled already, and written as it is.
    pub fn raw(alloc: Global, bytecode: Bytes) -> Result<Expression>
        ensures ok { IfOk result (λ e. e ≡ node_of (Operation.Raw bytecode) ∷ []) }
        ensures memory { IfErr result (λ e. e ≡ NoMemory) }
    {
        let mut expression = Expression::new(alloc);
        expression.push(Operation::Raw(bytecode))?;
        Ok(expression)
    }

    /// The expression of these operations. A branch may lead past the end: it then counts as one
    /// without a target.
    pub fn from_operations(_alloc: Global, operations: Vec<Operation>) -> Expression
        ensures { result ≡ nodes_in operations.items }
    {
        Expression { operations }
    }

    /// The operations, in their order.
    pub fn operations(&self) -> &[Operation]
        ensures { nodes_in result.now ≡ self.now }
    {
        self.operations.as_slice()
    }

    /// The bytes, where the expression is one raw operation and no more.
    pub fn as_raw(&self) -> Option<&[u8]>
        ensures { option_map (λ b. b.now) result ≡ raw_in self.now }
    {
        match self.operations.as_slice() {
            [Operation::Raw(bytecode)] => Some(bytecode.slice()),
            _ => None,
        }
    }

    /// The index of the operation that is added next, by which a branch can lead to it.
    pub fn next_index(&self) -> usize
        ensures { result ≡ length self.now }
    {
        self.operations.len()
    }

    /// Adds an operation at the end.
    fn push(&mut self, operation: Operation) -> Result<()>
        ensures { Pushes result self.old self.new (node_of operation) }
    {
        self.operations.push(operation)?;
        Ok(())
    }

    /// Adds an operation that has no operands, by its code.
    pub fn op(&mut self, opcode: DwOp) -> Result<()>
        ensures { Pushes result self.old self.new (node_of (Operation.Simple opcode)) }
    {
        self.push(Operation::Simple(opcode))
    }

    /// Adds `DW_OP_addr`. The address takes the encoding's address size.
    pub fn op_addr(&mut self, address: Address) -> Result<()>
        ensures { Pushes result self.old self.new (node_of (Operation.Address address)) }
    {
        self.push(Operation::Address(address))
    }

    /// Adds `DW_OP_constu`, or `DW_OP_lit0` to `DW_OP_lit31` for a number below 32.
    pub fn op_constu(&mut self, value: u64) -> Result<()>
        ensures { Pushes result self.old self.new (node_of (Operation.UnsignedConstant value)) }
    {
        self.push(Operation::UnsignedConstant(value))
    }

    /// Adds `DW_OP_consts`.
    pub fn op_consts(&mut self, value: i64) -> Result<()>
        ensures { Pushes result self.old self.new (node_of (Operation.SignedConstant value)) }
    {
        self.push(Operation::SignedConstant(value))
    }

    /// Adds `DW_OP_const_type`. At most 255 bytes can be written.
    pub fn op_const_type(&mut self, base: UnitEntryId, value: Bytes) -> Result<()>
        ensures { Pushes result self.old self.new (node_of (Operation.ConstantType base value)) }
    {
        self.push(Operation::ConstantType(base, value))
    }

    /// Adds `DW_OP_fbreg`.
    pub fn op_fbreg(&mut self, offset: i64) -> Result<()>
        ensures { Pushes result self.old self.new (node_of (Operation.FrameOffset offset)) }
    {
        self.push(Operation::FrameOffset(offset))
    }

    /// Adds `DW_OP_bregx`, or `DW_OP_breg0` to `DW_OP_breg31` for a register below 32.
    pub fn op_breg(&mut self, register: Register, offset: i64) -> Result<()>
        ensures { Pushes result self.old self.new
            (node_of (Operation.RegisterOffset register offset)) }
    {
        self.push(Operation::RegisterOffset(register, offset))
    }

    /// Adds `DW_OP_regval_type`.
    pub fn op_regval_type(&mut self, register: Register, base: UnitEntryId) -> Result<()>
        ensures { Pushes result self.old self.new (node_of (Operation.RegisterType register base)) }
    {
        self.push(Operation::RegisterType(register, base))
    }

    /// Adds `DW_OP_pick`, or `DW_OP_dup` for 0 and `DW_OP_over` for 1.
    pub fn op_pick(&mut self, index: u8) -> Result<()>
        ensures { Pushes result self.old self.new (node_of (Operation.Pick index)) }
    {
        self.push(Operation::Pick(index))
    }

    /// Adds `DW_OP_deref`.
    pub fn op_deref(&mut self) -> Result<()>
        ensures { Pushes result self.old self.new (node_of (Operation.Deref false)) }
    {
        self.push(Operation::Deref { space: false })
    }

    /// Adds `DW_OP_xderef`.
    pub fn op_xderef(&mut self) -> Result<()>
        ensures { Pushes result self.old self.new (node_of (Operation.Deref true)) }
    {
        self.push(Operation::Deref { space: true })
    }

    /// Adds `DW_OP_deref_size`, of so many bytes.
    pub fn op_deref_size(&mut self, size: u8) -> Result<()>
        ensures { Pushes result self.old self.new (node_of (Operation.DerefSize false size)) }
    {
        self.push(Operation::DerefSize { space: false, size })
    }

    /// Adds `DW_OP_xderef_size`, of so many bytes.
    pub fn op_xderef_size(&mut self, size: u8) -> Result<()>
        ensures { Pushes result self.old self.new (node_of (Operation.DerefSize true size)) }
    {
        self.push(Operation::DerefSize { space: true, size })
    }

    /// Adds `DW_OP_deref_type`, of so many bytes.
    pub fn op_deref_type(&mut self, size: u8, base: UnitEntryId) -> Result<()>
        ensures { Pushes result self.old self.new (node_of (Operation.DerefType false size base)) }
    {
        self.push(Operation::DerefType {
            space: false,
            size,
            base,
        })
    }

    /// Adds `DW_OP_xderef_type`, of so many bytes.
    pub fn op_xderef_type(&mut self, size: u8, base: UnitEntryId) -> Result<()>
        ensures { Pushes result self.old self.new (node_of (Operation.DerefType true size base)) }
    {
        self.push(Operation::DerefType {
            space: true,
            size,
            base,
        })
    }

    /// Adds `DW_OP_plus_uconst`.
    pub fn op_plus_uconst(&mut self, value: u64) -> Result<()>
        ensures { Pushes result self.old self.new (node_of (Operation.PlusConstant value)) }
    {
        self.push(Operation::PlusConstant(value))
    }

    /// Adds `DW_OP_skip` without a target, and answers its index for `set_target`.
    pub fn op_skip(&mut self) -> Result<usize>
        ensures index { IfOk result (λ i. i ≡ length self.old) }
        ensures added { Pushes result self.old self.new (node_of (Operation.Skip None)) }
    {
        let index = self.next_index();
        self.push(Operation::Skip(None))?;
        Ok(index)
    }

    /// Adds `DW_OP_bra` without a target, and answers its index for `set_target`.
    pub fn op_bra(&mut self) -> Result<usize>
        ensures index { IfOk result (λ i. i ≡ length self.old) }
        ensures added { Pushes result self.old self.new (node_of (Operation.Branch None)) }
    {
        let index = self.next_index();
        self.push(Operation::Branch(None))?;
        Ok(index)
    }

    /// Adds `DW_OP_call4`. The entry's place in its unit takes four bytes.
    pub fn op_call(&mut self, entry: UnitEntryId) -> Result<()>
        ensures { Pushes result self.old self.new (node_of (Operation.Call entry)) }
    {
        self.push(Operation::Call(entry))
    }

    /// Adds `DW_OP_call_ref`. The entry's place in `.debug_info` takes a word.
    pub fn op_call_ref(&mut self, entry: DebugInfoRef) -> Result<()>
        ensures { Pushes result self.old self.new (node_of (Operation.CallRef entry)) }
    {
        self.push(Operation::CallRef(entry))
    }

    /// Adds `DW_OP_GNU_variable_value`, with the entry as in `op_call_ref`.
    pub fn op_variable_value(&mut self, entry: DebugInfoRef) -> Result<()>
        ensures { Pushes result self.old self.new (node_of (Operation.VariableValue entry)) }
    {
        self.push(Operation::VariableValue(entry))
    }

    /// Adds `DW_OP_convert`, to the generic type where no base type is given.
    pub fn op_convert(&mut self, base: Option<UnitEntryId>) -> Result<()>
        ensures { Pushes result self.old self.new (node_of (Operation.Convert base)) }
    {
        self.push(Operation::Convert(base))
    }

    /// Adds `DW_OP_reinterpret`, as the generic type where no base type is given.
    pub fn op_reinterpret(&mut self, base: Option<UnitEntryId>) -> Result<()>
        ensures { Pushes result self.old self.new (node_of (Operation.Reinterpret base)) }
    {
        self.push(Operation::Reinterpret(base))
    }

    /// Adds `DW_OP_entry_value`. Expressions that nest deeply take stack when they are dropped,
    /// sized or written, so a builder should bound their depth.
    pub fn op_entry_value(&mut self, expression: Expression) -> Result<()>
        ensures { Pushes result self.old self.new (node_of (Operation.EntryValue expression)) }
    {
        self.push(Operation::EntryValue(expression))
    }

    /// Adds `DW_OP_regx`, or `DW_OP_reg0` to `DW_OP_reg31` for a register below 32.
    pub fn op_reg(&mut self, register: Register) -> Result<()>
        ensures { Pushes result self.old self.new (node_of (Operation.Register register)) }
    {
        self.push(Operation::Register(register))
    }

    /// Adds `DW_OP_implicit_value`.
    pub fn op_implicit_value(&mut self, bytes: Bytes) -> Result<()>
        ensures { Pushes result self.old self.new (node_of (Operation.ImplicitValue bytes)) }
    {
        self.push(Operation::ImplicitValue(bytes))
    }

    /// Adds `DW_OP_implicit_pointer`. The entry's place in `.debug_info` takes a word, and in
    /// version 2 an address.
    pub fn op_implicit_pointer(&mut self, entry: DebugInfoRef, byte_offset: i64) -> Result<()>
        ensures { Pushes result self.old self.new
            (node_of (Operation.ImplicitPointer entry byte_offset)) }
    {
        self.push(Operation::ImplicitPointer { entry, byte_offset })
    }

    /// Adds `DW_OP_piece`.
    pub fn op_piece(&mut self, size_in_bytes: u64) -> Result<()>
        ensures { Pushes result self.old self.new (node_of (Operation.Piece size_in_bytes)) }
    {
        self.push(Operation::Piece { size_in_bytes })
    }

    /// Adds `DW_OP_bit_piece`.
    pub fn op_bit_piece(&mut self, size_in_bits: u64, bit_offset: u64) -> Result<()>
        ensures { Pushes result self.old self.new
            (node_of (Operation.BitPiece size_in_bits bit_offset)) }
    {
        self.push(Operation::BitPiece {
            size_in_bits,
            bit_offset,
        })
    }

    /// Adds `DW_OP_GNU_parameter_ref`. The entry's place in its unit takes four bytes.
    pub fn op_gnu_parameter_ref(&mut self, entry: UnitEntryId) -> Result<()>
        ensures { Pushes result self.old self.new (node_of (Operation.ParameterRef entry)) }
    {
        self.push(Operation::ParameterRef(entry))
    }

    /// Adds `DW_OP_WASM_location` of kind 0.
    pub fn op_wasm_local(&mut self, index: u32) -> Result<()>
        ensures { Pushes result self.old self.new (node_of (Operation.WasmLocal index)) }
    {
        self.push(Operation::WasmLocal(index))
    }

    /// Adds `DW_OP_WASM_location` of kind 1.
    pub fn op_wasm_global(&mut self, index: u32) -> Result<()>
        ensures { Pushes result self.old self.new (node_of (Operation.WasmGlobal index)) }
    {
        self.push(Operation::WasmGlobal(index))
    }

    /// Adds `DW_OP_WASM_location` of kind 2.
    pub fn op_wasm_stack(&mut self, index: u32) -> Result<()>
        ensures { Pushes result self.old self.new (node_of (Operation.WasmStack index)) }
    {
        self.push(Operation::WasmStack(index))
    }

    /// Lets the branch of this index lead to another operation, or behind the last. Takes no
    /// memory.
    pub fn set_target(&mut self, operation: usize, new_target: usize)
        requires branch { IsTrue (is_branch_at self.old operation) }
        requires other { new_target ≢ operation }
        requires within { new_target ≤ length self.old }
        ensures { self.new ≡ targeted self.old operation new_target }
    {
        self.operations[operation].lead_to(new_target);
    }

    /// Tells whether there is an operation of this index and it is a branch.
    pub fn is_branch(&self, operation: usize) -> bool
        ensures { result ≡ is_branch_at self.now operation }
    {
        match self.operations.get(operation) {
            Some(found) => found.is_branch(),
            None => false,
        }
    }
}

impl Operation {
    /// Tells whether it goes on elsewhere.
    fn is_branch(&self) -> bool
        ensures { result ≡ is_branch (node_of self.now) }
    {
        matches!(self, Operation::Skip(_) | Operation::Branch(_))
    }

    /// Lets a branch go on at the operation of an index.
    fn lead_to(&mut self, new_target: usize)
        ensures { node_of self.new ≡ led (node_of self.old) new_target }
    {
        match self {
            Operation::Skip(target) => *target = Some(new_target),
            Operation::Branch(target) => *target = Some(new_target),
            _ => {}
        }
    }
}
