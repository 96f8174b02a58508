//! Equality of values, by keys that tell them apart.

ghost use Rattle.std.specs.Prelude.{◌≡◌, ◌↔◌, IsTrue, pos, []};
ghost use Rattle.std.specs.Cmp.{partial_equiv_from_equiv};
ghost use Rattle.std.specs.Option.{option_eq};
ghost use Rattle.dw_expr.specs.Equality.{nodes_eq};
ghost use Rattle.dw_entries.specs.Keys.{key_by, key_eq, address_key, entry_key, expression_key, file_key, value_key};
ghost use Rattle.dw_entries.specs.Equality.{expression_in, key_in, value_eq, value_equiv};

use crate::value::AttributeValue;
use dw_base::{Address, DebugInfoRef, FileId};
use dw_expr::Expression;

/// What tells a value apart from others.
#[derive(Clone, Copy)]
struct Key<'a> {
    kind: u8,
    number: u128,
    unit: usize,
    signed: i64,
    bytes: &'a [u8],
    expression: Option<&'a Expression>,
}

impl<'a> Key<'a> {
    /// The key of a kind and a number.
    fn number(kind: u8, number: u128) -> Key<'a>
        ensures { key_in result ≡ key_by kind number (pos 0) [] }
    {
        Key {
            kind,
            number,
            unit: 0,
            signed: 0,
            bytes: &[],
            expression: None,
        }
    }

    /// The key of a kind and a signed number.
    fn signed(kind: u8, signed: i64) -> Key<'a>
        ensures { key_in result ≡ key_by kind 0 signed [] }
    {
        Key {
            kind,
            number: 0,
            unit: 0,
            signed,
            bytes: &[],
            expression: None,
        }
    }

    /// The key of a kind and bytes.
    fn bytes(kind: u8, bytes: &'a [u8]) -> Key<'a>
        ensures { key_in result ≡ key_by kind 0 (pos 0) bytes.now }
    {
        Key {
            kind,
            number: 0,
            unit: 0,
            signed: 0,
            bytes,
            expression: None,
        }
    }

    /// The key of an address, whose two variants have a kind each.
    fn address(address: Address) -> Key<'a>
        ensures { key_in result ≡ address_key address }
    {
        match address {
            Address::Constant(value) => Key::number(0, value as u128),
            Address::Symbol { symbol, addend } => Key {
                kind: 1,
                number: symbol as u128,
                unit: 0,
                signed: addend,
                bytes: &[],
                expression: None,
            },
        }
    }

    /// The key of an entry of any unit, whose two variants have a kind each.
    fn entry(entry: DebugInfoRef) -> Key<'a>
        ensures { key_in result ≡ entry_key entry }
    {
        match entry {
            DebugInfoRef::Symbol(symbol) => Key::number(32, symbol as u128),
            DebugInfoRef::Entry(unit, entry) => Key {
                kind: 33,
                number: entry.0 as u128,
                unit: unit.0,
                signed: 0,
                bytes: &[],
                expression: None,
            },
        }
    }

    /// The key of a file, or of none, which has a kind of its own.
    fn file(file: Option<FileId>) -> Key<'a>
        ensures { key_in result ≡ file_key file }
    {
        match file {
            None => Key::number(37, 0),
            Some(file) => Key::number(38, file.0 as u128),
        }
    }

    /// The key of an expression.
    fn expression(expression: &'a Expression) -> Key<'a>
        ensures { key_in result ≡ expression_key expression.now }
    {
        Key {
            kind: 39,
            number: 0,
            unit: 0,
            signed: 0,
            bytes: &[],
            expression: Some(expression),
        }
    }

    /// Tells that another key is equal, field by field.
    fn is(&self, other: &Key<'_>) -> bool
        ensures { result ≡ key_eq (key_in self.now) (key_in other.now) }
    {
        self.kind == other.kind
            && self.number == other.number
            && self.unit == other.unit
            && self.signed == other.signed
            && are_same(self.expression, other.expression)
            && self.bytes == other.bytes
    }
}

/// Tells that there are two equal expressions, or none.
fn are_same(left: Option<&Expression>, right: Option<&Expression>) -> bool
    ensures { result ≡ option_eq nodes_eq (expression_in left.entry) (expression_in right.entry) }
{
    match (left, right) {
        (Some(left), Some(right)) => left == right,
        (None, None) => true,
        _ => false,
    }
}

impl AttributeValue {
    /// What tells it apart.
    fn key(&self) -> Key<'_>
        ensures { key_in result ≡ value_key self.now }
    {
        match self {
            AttributeValue::Address(address) => Key::address(*address),
            AttributeValue::Block(bytes) => Key::bytes(2, bytes.slice()),
            AttributeValue::Data1(number) => Key::number(3, *number as u128),
            AttributeValue::Data2(number) => Key::number(4, *number as u128),
            AttributeValue::Data4(number) => Key::number(5, *number as u128),
            AttributeValue::Data8(number) => Key::number(6, *number as u128),
            AttributeValue::Data16(number) => Key::number(7, *number),
            AttributeValue::Sdata(number) => Key::signed(8, *number),
            AttributeValue::Udata(number) => Key::number(9, *number as u128),
            AttributeValue::ImplicitConst(number) => Key::signed(10, *number),
            AttributeValue::Exprloc(expression) => Key::expression(expression),
            AttributeValue::Flag(is_set) => Key::number(11, *is_set as u128),
            AttributeValue::FlagPresent => Key::number(12, 0),
            AttributeValue::UnitRef(entry) => Key::number(13, entry.0 as u128),
            AttributeValue::DebugInfoRef(entry) => Key::entry(*entry),
            AttributeValue::DebugInfoRefSup(offset) => Key::number(14, offset.0 as u128),
            AttributeValue::DebugMacinfoRef(offset) => Key::number(15, offset.0 as u128),
            AttributeValue::DebugMacroRef(offset) => Key::number(16, offset.0 as u128),
            AttributeValue::DebugTypesRef(signature) => Key::number(17, signature.0 as u128),
            AttributeValue::DebugStrRefSup(offset) => Key::number(18, offset.0 as u128),
            AttributeValue::String(text) => Key::bytes(19, text.slice()),
            AttributeValue::StringRef(string) => Key::number(34, string.0 as u128),
            AttributeValue::LineStringRef(string) => Key::number(35, string.0 as u128),
            AttributeValue::LineProgramRef => Key::number(36, 0),
            AttributeValue::FileIndex(file) => Key::file(*file),
            AttributeValue::RangeListRef(list) => Key::number(40, list.0 as u128),
            AttributeValue::RangeListsBase => Key::number(41, 0),
            AttributeValue::LocationListsBase => Key::number(42, 0),
            AttributeValue::LocationListRef(list) => Key::number(43, list.0 as u128),
            AttributeValue::Encoding(code) => Key::number(20, code.0 as u128),
            AttributeValue::DecimalSign(code) => Key::number(21, code.0 as u128),
            AttributeValue::Endianity(code) => Key::number(22, code.0 as u128),
            AttributeValue::Accessibility(code) => Key::number(23, code.0 as u128),
            AttributeValue::Visibility(code) => Key::number(24, code.0 as u128),
            AttributeValue::Virtuality(code) => Key::number(25, code.0 as u128),
            AttributeValue::Language(code) => Key::number(26, code.0 as u128),
            AttributeValue::AddressClass(code) => Key::number(27, code.0 as u128),
            AttributeValue::IdentifierCase(code) => Key::number(28, code.0 as u128),
            AttributeValue::CallingConvention(code) => Key::number(29, code.0 as u128),
            AttributeValue::Inline(code) => Key::number(30, code.0 as u128),
            AttributeValue::Ordering(code) => Key::number(31, code.0 as u128),
        }
    }
}

impl PartialEq for AttributeValue {
    ghost eq = { value_eq };

    ghost laws = { partial_equiv_from_equiv value_equiv };

    fn eq(&self, other: &AttributeValue) -> bool
        ensures gives { result ≡ value_eq self.now other.now }
        ensures value { IsTrue result ↔ (self.now ≡ other.now) }
    {
        self.key().is(&other.key())
    }
}

impl Eq for AttributeValue {
    ghost laws = { value_equiv };
}
