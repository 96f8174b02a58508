//! Range lists and their items.

ghost use Rattle.std.specs.Prelude.{◌≡◌, IfOk, IfErr};
ghost use Rattle.std.specs.Cmp.Lexicographic.{pointwise};
ghost use Rattle.std.specs.Hash as fed;
ghost use Rattle.dw_base.specs.declared.error.Error.TheVariants.{NoMemory};
ghost use Rattle.dw_lists.specs.Equal.{range_eq, range_fed, range_per, range_equiv, range-fed};
ghost use Rattle.dw_lists.specs.Equal.{list_eq, list_fed, list_per, list_equiv, list-fed};

use crate::item_list::ItemList;
use crate::kinds::Kinds;
use dw_base::{Address, Result};
use dw_expr::Expression;
use std::hash::{Hash, Hasher};
use std::marker::Model;

/// An item of a range list: addresses that belong to it, from the first one up to the one behind
/// the last, or the base that offset pairs count from (DWARF 5, 2.17.3).
///
/// ```
/// let range = Range::StartLength {
///     begin: Address::Constant(0x1000),
///     length: 0x10,
/// };
/// ```
#[derive(Clone, Copy)]
pub enum Range {
    /// What the offset pairs that follow count from.
    BaseAddress { address: Address },
    /// Offsets from the base address.
    OffsetPair { begin: u64, end: u64 },
    /// The two ends as addresses.
    StartEnd { begin: Address, end: Address },
    /// The first address, and how many bytes follow it.
    StartLength { begin: Address, length: u64 },
}

impl Range {
    /// A second item that equals this one.
    pub fn try_clone(&self) -> Result<Range>
        ensures ok { IfOk result (λ copy. copy ≡ self.now) }
        ensures err { IfErr result (λ e. e ≡ NoMemory) }
    {
        Ok(*self)
    }
}

impl PartialEq for Range {
    ghost eq = { range_eq };

    ghost laws = { range_per };

    fn eq(&self, other: &Range) -> bool {
        match (self, other) {
            (Range::BaseAddress { address: a }, Range::BaseAddress { address: b }) => a == b,
            (Range::OffsetPair { begin: a, end: b }, Range::OffsetPair { begin: c, end: d }) => {
                a == c && b == d
            }
            (Range::StartEnd { begin: a, end: b }, Range::StartEnd { begin: c, end: d }) => {
                a == c && b == d
            }
            (
                Range::StartLength {
                    begin: a,
                    length: b,
                },
                Range::StartLength {
                    begin: c,
                    length: d,
                },
            ) => a == c && b == d,
            _ => false,
        }
    }
}

impl Eq for Range {
    ghost laws = { range_equiv };
}

impl Hash for Range {
    ghost hash_input = { range_fed };

    ghost respects_eq = { range-fed };

    fn hash<H: Hasher>(&self, state: &mut H) {
        match self {
            Range::BaseAddress { address } => {
                0u8.hash(state);
                address.hash(state);
            }
            Range::OffsetPair { begin, end } => {
                1u8.hash(state);
                begin.hash(state);
                end.hash(state);
            }
            Range::StartEnd { begin, end } => {
                2u8.hash(state);
                begin.hash(state);
                end.hash(state);
            }
            Range::StartLength { begin, length } => {
                3u8.hash(state);
                begin.hash(state);
                length.hash(state);
            }
        }
    }
}

/// The addresses of something that isn't in one piece, as a list of its pieces.
///
/// ```
/// let list = RangeList(vec![in alloc; Range::OffsetPair { begin: 0, end: 0x10 }]?);
/// ```
#[derive(Drop)]
pub struct RangeList(pub Vec<Range>);

impl Model for RangeList {
    ghost use Rattle.std.specs.Prelude.{List};
    ghost use Rattle.dw_lists.specs.declared.range.Range.{Range};

    ghost Value = { List Range };

    ghost view = { λ list. list.0.items };
}

impl RangeList {
    /// A second list that equals this one.
    pub fn try_clone(&self) -> Result<RangeList>
        ensures ok { IfOk result (λ copy. copy ≡ self.now) }
        ensures err { IfErr result (λ e. e ≡ NoMemory) }
    {
        Ok(RangeList(self.0.clone()?))
    }
}

impl PartialEq for RangeList {
    ghost eq = { list_eq };

    ghost laws = { list_per };

    fn eq(&self, other: &RangeList) -> bool {
        self.0 == other.0
    }
}

impl Eq for RangeList {
    ghost laws = { list_equiv };
}

impl Hash for RangeList {
    ghost hash_input = { list_fed };

    ghost respects_eq = { list-fed };

    fn hash<H: Hasher>(&self, state: &mut H) {
        self.0.hash(state);
    }
}

impl ItemList for RangeList {
    ghost use Rattle.std.specs.Prelude.{false};
    ghost use Rattle.dw_lists.specs.Parts.{ranges_parts};

    ghost is_location = { false };

    ghost parts = { λ list. ranges_parts list };

    fn kinds() -> Kinds {
        Kinds::of_ranges()
    }

    fn count(&self) -> usize {
        self.0.len()
    }

    fn range(&self, index: usize) -> Option<Range> {
        Some(self.0[index])
    }

    fn expression(&self, _index: usize) -> Option<&Expression> {
        None
    }
}
