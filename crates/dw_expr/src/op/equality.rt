//! Equality and hashes of expressions, by the values of their operations.

ghost use Rattle.std.specs.Prelude.{◌≡◌, ◌↔◌, IsTrue, pos, []};
ghost use Rattle.std.specs.Cmp.{partial_equiv_from_equiv, on_equiv};
ghost use Rattle.std.specs.List.{fold};
ghost use Rattle.dw_expr.specs.Keys.{key_by, key_eq, address_key, reference_key, index_key, base_key};
ghost use Rattle.dw_expr.specs.Equality.{node_eq, nodes_eq, node_equiv, nodes_equiv, node_hash, nodes_hash, node_hash_alike, nodes_hash_alike, key_hash, key_in, node_key};
ghost use Rattle.dw_expr.specs.Views.{node_of, nodes_in};

use super::{Expression, Operation};
use dw_base::{Address, DebugInfoRef, UnitEntryId};
use std::hash::{Hash, Hasher};

/// What tells an operation apart from others, but for an expression in it.
#[derive(Clone, Copy)]
struct Key<'a> {
    kind: u8,
    first: u64,
    second: u64,
    third: u64,
    signed: i64,
    bytes: &'a [u8],
}

impl<'a> Key<'a> {
    /// The key of a kind and three numbers.
    fn new(kind: u8, first: u64, second: u64, third: u64) -> Key<'a>
        ensures { key_in result ≡ key_by kind first second third (pos 0) [] }
    {
        Key {
            kind,
            first,
            second,
            third,
            signed: 0,
            bytes: &[],
        }
    }

    /// The key of a kind, a number and a signed number.
    fn signed(kind: u8, first: u64, signed: i64) -> Key<'a>
        ensures { key_in result ≡ key_by kind first 0 0 signed [] }
    {
        Key {
            kind,
            first,
            second: 0,
            third: 0,
            signed,
            bytes: &[],
        }
    }

    /// The key of a kind, a number and bytes.
    fn bytes(kind: u8, first: u64, bytes: &'a [u8]) -> Key<'a>
        ensures { key_in result ≡ key_by kind first 0 0 (pos 0) bytes.now }
    {
        Key {
            kind,
            first,
            second: 0,
            third: 0,
            signed: 0,
            bytes,
        }
    }

    /// The key of an address.
    fn address(address: Address) -> Key<'a>
        ensures { key_in result ≡ address_key address }
    {
        match address {
            Address::Constant(value) => Key::new(2, 0, value, 0),
            Address::Symbol { symbol, addend } => Key {
                kind: 2,
                first: 1,
                second: symbol as u64,
                third: 0,
                signed: addend,
                bytes: &[],
            },
        }
    }

    /// The key of a kind, an entry and an offset.
    fn entry(kind: u8, entry: DebugInfoRef, signed: i64) -> Key<'a>
        ensures { key_in result ≡ reference_key kind entry signed }
    {
        match entry {
            DebugInfoRef::Symbol(symbol) => Key {
                kind,
                first: 0,
                second: symbol as u64,
                third: 0,
                signed,
                bytes: &[],
            },
            DebugInfoRef::Entry(unit, entry) => Key {
                kind,
                first: 1,
                second: unit.0 as u64,
                third: entry.0 as u64,
                signed,
                bytes: &[],
            },
        }
    }

    /// The key of a kind and an index that may be missing.
    fn index(kind: u8, index: Option<usize>) -> Key<'a>
        ensures { key_in result ≡ index_key kind index }
    {
        match index {
            Some(index) => Key::new(kind, 1, index as u64, 0),
            None => Key::new(kind, 0, 0, 0),
        }
    }

    /// The key of a kind and an entry that may be missing.
    fn base(kind: u8, base: Option<UnitEntryId>) -> Key<'a>
        ensures { key_in result ≡ base_key kind base }
    {
        match base {
            Some(entry) => Key::new(kind, 1, entry.0 as u64, 0),
            None => Key::new(kind, 0, 0, 0),
        }
    }

    fn is(&self, other: &Key<'_>) -> bool
        ensures { result ≡ key_eq (key_in self.now) (key_in other.now) }
    {
        self.kind == other.kind
            && self.first == other.first
            && self.second == other.second
            && self.third == other.third
            && self.signed == other.signed
            && self.bytes == other.bytes
    }

    fn feed<H: Hasher>(&self, state: &mut H)
        ensures { state.new ≡ fold H.write state.old (key_hash (key_in self.now)) }
    {
        state.write_u8(self.kind);
        state.write_u64(self.first);
        state.write_u64(self.second);
        state.write_u64(self.third);
        state.write_i64(self.signed);
        state.write_usize(self.bytes.len());
        state.write(self.bytes);
    }
}

impl Operation {
    /// What tells it apart.
    fn key(&self) -> Key<'_>
        ensures { key_in result ≡ node_key (node_of self.now) }
    {
        match self {
            Operation::Raw(bytecode) => Key::bytes(0, 0, bytecode.slice()),
            Operation::Simple(opcode) => Key::new(1, opcode.0 as u64, 0, 0),
            Operation::Address(address) => Key::address(*address),
            Operation::UnsignedConstant(value) => Key::new(3, *value, 0, 0),
            Operation::SignedConstant(value) => Key::signed(4, 0, *value),
            Operation::ConstantType(base, value) => Key::bytes(5, base.0 as u64, value.slice()),
            Operation::FrameOffset(offset) => Key::signed(6, 0, *offset),
            Operation::RegisterOffset(register, offset) => Key::signed(
                7,
                register.0 as u64,
                *offset,
            ),
            Operation::RegisterType(register, base) => Key::new(
                8,
                register.0 as u64,
                base.0 as u64,
                0,
            ),
            Operation::Pick(index) => Key::new(9, *index as u64, 0, 0),
            Operation::Deref { space } => Key::new(10, *space as u64, 0, 0),
            Operation::DerefSize { space, size } => Key::new(11, *space as u64, *size as u64, 0),
            Operation::DerefType { space, size, base } => Key::new(
                12,
                *space as u64,
                *size as u64,
                base.0 as u64,
            ),
            Operation::PlusConstant(value) => Key::new(13, *value, 0, 0),
            Operation::Skip(target) => Key::index(14, *target),
            Operation::Branch(target) => Key::index(15, *target),
            Operation::Call(entry) => Key::new(16, entry.0 as u64, 0, 0),
            Operation::CallRef(entry) => Key::entry(17, *entry, 0),
            Operation::VariableValue(entry) => Key::entry(18, *entry, 0),
            Operation::Convert(base) => Key::base(19, *base),
            Operation::Reinterpret(base) => Key::base(20, *base),
            Operation::Register(register) => Key::new(21, register.0 as u64, 0, 0),
            Operation::ImplicitValue(bytes) => Key::bytes(22, 0, bytes.slice()),
            Operation::ImplicitPointer { entry, byte_offset } => Key::entry(
                23,
                *entry,
                *byte_offset,
            ),
            Operation::Piece { size_in_bytes } => Key::new(24, *size_in_bytes, 0, 0),
            Operation::BitPiece {
                size_in_bits,
                bit_offset,
            } => Key::new(25, *size_in_bits, *bit_offset, 0),
            Operation::ParameterRef(entry) => Key::new(26, entry.0 as u64, 0, 0),
            Operation::WasmLocal(index) => Key::new(27, *index as u64, 0, 0),
            Operation::WasmGlobal(index) => Key::new(28, *index as u64, 0, 0),
            Operation::WasmStack(index) => Key::new(29, *index as u64, 0, 0),
            Operation::EntryValue(_) => Key::new(30, 0, 0, 0),
        }
    }
}

#[cycle(same)]
fn same_operations(left: &[Operation], right: &[Operation]) -> bool
    ensures { result ≡ nodes_eq (nodes_in left.now) (nodes_in right.now) }
{
    if left.len() != right.len() {
        return false;
    }
    for i in 0..left.len() {
        if !same_operation(&left[i], &right[i]) {
            return false;
        }
    }
    true
}

#[cycle(same)]
fn same_operation(left: &Operation, right: &Operation) -> bool
    ensures { result ≡ node_eq (node_of left.now) (node_of right.now) }
{
    if let Operation::EntryValue(inner) = left {
        return match right {
            Operation::EntryValue(other) => {
                same_operations(inner.operations.as_slice(), other.operations.as_slice())
            }
            _ => false,
        };
    }
    left.key().is(&right.key())
}

#[cycle(feed)]
fn feed_operations<H: Hasher>(operations: &[Operation], state: &mut H)
    ensures { state.new ≡ fold H.write state.old (nodes_hash (nodes_in operations.now)) }
{
    for operation in operations {
        feed_operation(operation, state);
    }
    // What ends a list of operations.
    state.write_u8(0xff);
}

#[cycle(feed)]
fn feed_operation<H: Hasher>(operation: &Operation, state: &mut H)
    ensures { state.new ≡ fold H.write state.old (node_hash (node_of operation.now)) }
{
    operation.key().feed(state);
    if let Operation::EntryValue(expression) = operation {
        feed_operations(expression.operations.as_slice(), state);
    }
}

impl PartialEq for Expression {
    ghost eq = { nodes_eq };

    ghost laws = { partial_equiv_from_equiv nodes_equiv };

    fn eq(&self, other: &Expression) -> bool
        ensures gives { result ≡ nodes_eq self.now other.now }
        ensures value { IsTrue result ↔ (self.now ≡ other.now) }
    {
        same_operations(self.operations.as_slice(), other.operations.as_slice())
    }
}

impl Eq for Expression {
    ghost laws = { nodes_equiv };
}

impl Hash for Expression {
    ghost hash_input = { nodes_hash };

    ghost respects_eq = { nodes_hash_alike };

    fn hash<H: Hasher>(&self, state: &mut H) {
        feed_operations(self.operations.as_slice(), state);
    }
}

impl PartialEq for Operation {
    ghost eq = { λ o p. node_eq (node_of o) (node_of p) };

    ghost laws = { partial_equiv_from_equiv (on_equiv node_of node_equiv) };

    fn eq(&self, other: &Operation) -> bool {
        same_operation(self, other)
    }
}

impl Eq for Operation {
    ghost laws = { on_equiv node_of node_equiv };
}

impl Hash for Operation {
    ghost hash_input = { λ o. node_hash (node_of o) };

    ghost respects_eq = { λ o p. node_hash_alike (node_of o) (node_of p) };

    fn hash<H: Hasher>(&self, state: &mut H) {
        feed_operation(self, state);
    }
}
