//! Location lists and their items.

ghost use Rattle.std.specs.Prelude.{◌≡◌, IfOk, IfErr};
ghost use Rattle.std.specs.Option.{option_copied};
ghost use Rattle.dw_base.specs.declared.error.Error.TheVariants.{NoMemory};
ghost use Rattle.dw_lists.specs.Parts.{location_part};
ghost use Rattle.dw_lists.specs.EqualLocations.{location_eq, location_fed, location_per};
ghost use Rattle.dw_lists.specs.EqualLocations.{location_equiv, location-fed};
ghost use Rattle.dw_lists.specs.EqualLocations.{locations_eq, locations_fed, locations_per};
ghost use Rattle.dw_lists.specs.EqualLocations.{locations_equiv, locations-fed};

use crate::item_list::ItemList;
use crate::kinds::Kinds;
use crate::range::Range;
use dw_base::{Address, Result};
use dw_expr::Expression;
use std::hash::{Hash, Hasher};
use std::marker::Model;

/// An item of a location list: where an object is while the program counter is between two
/// addresses, the second of which doesn't belong to them, or the base that offset pairs count from
/// (DWARF 5, 2.6.2).
///
/// ```
/// let mut expression = Expression::new(alloc);
/// expression.op_fbreg(-16)?;
/// let location = Location::OffsetPair { begin: 0, end: 0x10, expression };
/// ```
#[derive(Drop)]
pub enum Location {
    /// What the offset pairs that follow count from.
    BaseAddress {
        address: Address,
    },
    /// Offsets from the base address.
    OffsetPair {
        begin: u64,
        end: u64,
        expression: Expression,
    },
    /// The two ends as addresses.
    StartEnd {
        begin: Address,
        end: Address,
        expression: Expression,
    },
    /// The first address, and how many bytes follow it.
    StartLength {
        begin: Address,
        length: u64,
        expression: Expression,
    },
    /// All addresses that no other item has. It exists in version 5 alone.
    DefaultLocation {
        expression: Expression,
    },
}

impl Location {
    /// The addresses of the item, which the default location has none of.
    fn range(&self) -> Option<Range>
        ensures { result ≡ (location_part self.now).range }
    {
        match *self {
            Location::BaseAddress { address } => Some(Range::BaseAddress { address }),
            Location::OffsetPair { begin, end, .. } => Some(Range::OffsetPair { begin, end }),
            Location::StartEnd { begin, end, .. } => Some(Range::StartEnd { begin, end }),
            Location::StartLength { begin, length, .. } => {
                Some(Range::StartLength { begin, length })
            }
            Location::DefaultLocation { .. } => None,
        }
    }

    /// Where the object is, which a base doesn't tell.
    fn expression(&self) -> Option<&Expression>
        ensures { option_copied result ≡ (location_part self.now).expression }
    {
        match self {
            Location::BaseAddress { .. } => None,
            Location::OffsetPair { expression, .. }
            | Location::StartEnd { expression, .. }
            | Location::StartLength { expression, .. }
            | Location::DefaultLocation { expression } => Some(expression),
        }
    }

    /// A second item that equals this one.
    pub fn try_clone(&self) -> Result<Location>
        ensures ok { IfOk result (λ copy. copy ≡ self.now) }
        ensures err { IfErr result (λ e. e ≡ NoMemory) }
    {
        match self {
            Location::BaseAddress { address } => Ok(Location::BaseAddress { address: *address }),
            Location::OffsetPair {
                begin,
                end,
                expression,
            } => Ok(Location::OffsetPair {
                begin: *begin,
                end: *end,
                expression: expression.try_clone()?,
            }),
            Location::StartEnd {
                begin,
                end,
                expression,
            } => Ok(Location::StartEnd {
                begin: *begin,
                end: *end,
                expression: expression.try_clone()?,
            }),
            Location::StartLength {
                begin,
                length,
                expression,
            } => Ok(Location::StartLength {
                begin: *begin,
                length: *length,
                expression: expression.try_clone()?,
            }),
            Location::DefaultLocation { expression } => Ok(Location::DefaultLocation {
                expression: expression.try_clone()?,
            }),
        }
    }
}

impl PartialEq for Location {
    ghost eq = { location_eq };

    ghost laws = { location_per };

    fn eq(&self, other: &Location) -> bool {
        self.range() == other.range() && self.expression() == other.expression()
    }
}

impl Eq for Location {
    ghost laws = { location_equiv };
}

impl Hash for Location {
    ghost hash_input = { location_fed };

    ghost respects_eq = { location-fed };

    fn hash<H: Hasher>(&self, state: &mut H) {
        self.range().hash(state);
        self.expression().hash(state);
    }
}

/// Where an object is that isn't always in one place.
///
/// ```
/// let list = LocationList(vec![in alloc; Location::DefaultLocation { expression }]?);
/// ```
#[derive(Drop)]
pub struct LocationList(pub Vec<Location>);

impl Model for LocationList {
    ghost use Rattle.std.specs.Prelude.{List};
    ghost use Rattle.dw_lists.specs.declared.location.Location.{Location};
    ghost use Rattle.dw_lists.specs.Codes.{list_code};

    ghost Value = { List Location };

    ghost coded = { list_code };

    ghost view = { λ list. list.0.items };
}

impl LocationList {
    /// A second list that equals this one.
    pub fn try_clone(&self) -> Result<LocationList>
        ensures ok { IfOk result (λ copy. copy ≡ self.now) }
        ensures err { IfErr result (λ e. e ≡ NoMemory) }
    {
        let alloc = *self.0.allocator();
        let mut copies = Vec::with_capacity(alloc, self.0.len())?;
        for location in &self.0 {
            copies.push(location.try_clone()?)?;
        }
        Ok(LocationList(copies))
    }
}

impl PartialEq for LocationList {
    ghost eq = { locations_eq };

    ghost laws = { locations_per };

    fn eq(&self, other: &LocationList) -> bool {
        self.0 == other.0
    }
}

impl Eq for LocationList {
    ghost laws = { locations_equiv };
}

impl Hash for LocationList {
    ghost hash_input = { locations_fed };

    ghost respects_eq = { locations-fed };

    fn hash<H: Hasher>(&self, state: &mut H) {
        self.0.hash(state);
    }
}

impl ItemList for LocationList {
    ghost use Rattle.std.specs.Prelude.{true};
    ghost use Rattle.dw_lists.specs.Parts.{locations_parts};

    ghost is_location = { true };

    ghost parts = { λ list. locations_parts list };

    fn kinds() -> Kinds {
        Kinds::of_locations()
    }

    fn count(&self) -> usize {
        self.0.len()
    }

    fn range(&self, index: usize) -> Option<Range> {
        self.0[index].range()
    }

    fn expression(&self, index: usize) -> Option<&Expression> {
        self.0[index].expression()
    }
}
