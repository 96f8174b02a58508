//! Which entries are kept.

ghost use Rattle.std.specs.Prelude.{◌≡◌, ◌==◌, ◌||◌, map, None, Some};
ghost use Rattle.std.specs.List.Sorted.{IsStrictlyIncreasing};
ghost use Rattle.dw_entry_ids.specs.KeptRows.{keep_of};

use dw_base::{UnitEntryId, UnitSectionOffset};
use std::marker::Model;

/// Which entries of a file are kept, by the places in `.debug_info` where they begin. Roots of
/// units are kept whatever it says.
///
/// ```
/// let mut places = Vec::new(alloc);
/// places.push(UnitSectionOffset(0x0c))?;
/// let kept = Kept::at(places);
/// let first = kept.keeps(UnitSectionOffset(0x0c)); // true
/// ```
#[derive(Drop)]
pub struct Kept {
    /// None tells that all are.
    places: Option<Vec<UnitSectionOffset>>,
}

impl Model for Kept {
    ghost use Rattle.std.specs.Prelude.{List, Option, MatchOption, ⊤, map};
    ghost use Rattle.std.specs.Option.{option_map};
    ghost use Rattle.std.specs.List.Sorted.{IsStrictlyIncreasing};
    ghost use Rattle.dw_base.specs.declared.offsets.UnitSectionOffset.{UnitSectionOffset};

    ghost Value = { Option (List UnitSectionOffset) };

    ghost view = { λ k. option_map (λ v. v.items) k.places };

    ghost invariant = { λ k. MatchOption k.places ⊤
        (λ v. IsStrictlyIncreasing (map (λ p. p.0) v.items)) };
}

impl Kept {
    /// All entries.
    pub fn all() -> Kept
        ensures { result ≡ None }
    {
        Kept { places: None }
    }

    /// The entries that begin at these places, which rise.
    pub fn at(places: Vec<UnitSectionOffset>) -> Kept
        requires { IsStrictlyIncreasing (map (λ p. p.0) places.items) }
        ensures { result ≡ Some places.items }
    {
        Kept {
            places: Some(places),
        }
    }

    /// Whether the entry that begins at a place is kept, if it isn't a root.
    pub fn keeps(&self, place: UnitSectionOffset) -> bool
        ensures { result ≡ keep_of self.now place.0 }
    {
        match &self.places {
            None => true,
            Some(places) => places.binary_search_by_key(&place.0, |kept| kept.0).is_ok(),
        }
    }

    /// Whether the entry of a number that begins at a place is kept, where the entries that are
    /// kept of its unit are numbered: the first is, since it is the root.
    pub fn keeps_numbered(&self, number: UnitEntryId, place: UnitSectionOffset) -> bool
        ensures { result ≡ (number.0 == 0 || keep_of self.now place.0) }
    {
        number.index() == 0 || self.keeps(place)
    }
}
