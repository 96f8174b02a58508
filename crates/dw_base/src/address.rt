//! Addresses and references that a linker may have to fill in.

use crate::ids::{UnitEntryId, UnitId};

/// An address of the target.
#[derive(Clone, Copy, PartialEq, Eq, Hash)]
pub enum Address {
    /// An address that is known.
    Constant(u64),
    /// A symbol's address plus an addend, which only a writer that records relocations takes.
    Symbol { symbol: usize, addend: i64 },
}

/// An entry that is named by its place in `.debug_info`.
#[derive(Clone, Copy, PartialEq, Eq)]
pub enum DebugInfoRef {
    /// An entry of another object, under a symbol.
    Symbol(usize),
    /// An entry of a unit.
    Entry(UnitId, UnitEntryId),
}

/// The name that earlier versions of gimli have for it.
pub type Reference = DebugInfoRef;
