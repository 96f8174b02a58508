//! Addresses: numbers, or symbols with an addend. References: entries of any unit, or symbols.

ghost use Rattle.std.specs.Prelude.{◌≡◌};
ghost use Rattle.dw_script_fields.specs.Addresses.{address_of, address_or_none, symbol_address, reference_of, entry_reference};
ghost use Rattle.dw_ends.specs.Pieces.{pieces_left};

use crate::number::{parse_i64, parse_usize};
use dw_base::{Address, DebugInfoRef, UnitEntryId, UnitId};
use dw_ends::{Pieces, number};

/// The address that a field spells.
pub(crate) fn parse_address(field: &[u8]) -> Option<Address>
    ensures { result ≡ address_of field.now }
{
    match field {
        [b's', b'y', b'm', b':', parts @ ..] => parse_symbol(Pieces::new(parts, b':')),
        _ => Some(Address::Constant(number(field)?)),
    }
}

/// The address that a field spells, or none.
pub(crate) fn parse_address_or_none(field: &[u8]) -> Option<Option<Address>>
    ensures { result ≡ address_or_none field.now }
{
    match field {
        b"none" => Some(None),
        _ => Some(Some(parse_address(field)?)),
    }
}

// The address that a symbol's number and an addend are.
fn parse_symbol(mut parts: Pieces<'_>) -> Option<Address>
    ensures { result ≡ symbol_address (pieces_left parts.entry) }
{
    let symbol = parse_usize(parts.next()?)?;
    let addend = parse_i64(parts.next()?)?;
    match parts.next() {
        None => Some(Address::Symbol { symbol, addend }),
        Some(_) => None,
    }
}

/// The reference to an entry of any unit that a field spells.
pub(crate) fn parse_reference(field: &[u8]) -> Option<DebugInfoRef>
    ensures { result ≡ reference_of field.now }
{
    match field {
        [b's', b'y', b'm', b':', symbol @ ..] => Some(DebugInfoRef::Symbol(parse_usize(symbol)?)),
        _ => parse_entry(Pieces::new(field, b':')),
    }
}

// The entry that a unit's number and its own are.
fn parse_entry(mut parts: Pieces<'_>) -> Option<DebugInfoRef>
    ensures { result ≡ entry_reference (pieces_left parts.entry) }
{
    let unit = UnitId::new(parse_usize(parts.next()?)?);
    let entry = UnitEntryId::new(parse_usize(parts.next()?)?);
    match parts.next() {
        None => Some(DebugInfoRef::Entry(unit, entry)),
        Some(_) => None,
    }
}
