//! Where the entries of a unit stand.

ghost use Rattle.std.specs.Prelude.{◌≡◌, ◌≤◌, ◌-◌, ℕ, IsTrue, IsFalse, OnOk, IfErr};
ghost use Rattle.dw_base.specs.Numbers.{word_of, fits, length_size, length_fits};
ghost use Rattle.dw_base.specs.declared.common.Format.TheVariants.{Dwarf32};
ghost use Rattle.dw_base.specs.declared.error.Error.TheVariants.{InitialLengthOverflow};
ghost use Rattle.dw_tree.specs.Places.{placement_of, found};

use dw_base::{Error, Format, Result, UnitEntryId};
use dw_expr::EntryPlaces;

/// The first place past a unit whose length has no spelling in the 32-bit format: the four bytes of
/// the length, and 0xfffffff0 more (DWARF 5, 7.4).
const END_OF_32_BIT_UNIT: u64 = 0xffff_fff4;

/// The places of a unit's entries, each under its index, counted from the unit's first byte.
#[derive(Drop)]
pub struct Places {
    /// Where each entry of the tree stands, and 0 for the others.
    pub places: Vec<u64>,
    /// The place past each entry of the tree and its children.
    pub pasts: Vec<u64>,
    /// The place past the whole unit.
    pub end: u64,
}

impl EntryPlaces for Places {
    ghost places = { λ p. found (placement_of p).place };

    fn unit_place(&self, id: UnitEntryId) -> Option<u64> {
        self.place(id)
    }
}

impl Places {
    /// The place of an entry, if it stands in the tree.
    pub(crate) fn place(&self, entry: UnitEntryId) -> Option<u64>
        ensures { result ≡ found (placement_of self.now).place entry.0 }
    {
        match self.places.get(entry.index()) {
            Some(place) if *place != 0 => Some(*place),
            _ => None,
        }
    }

    /// The place past an entry and its children.
    pub(crate) fn past(&self, index: usize) -> u64
        ensures { result ≡ (placement_of self.now).past index }
    {
        match self.pasts.get(index) {
            Some(past) => *past,
            None => 0,
        }
    }

    /// Refuses a unit whose length the format has no spelling for.
    pub(crate) fn check_length(&self, format: Format) -> Result<()>
        ensures ok { OnOk result ((n : ℕ) → n ≤ self.now.end → IsTrue (fits (word_of format) n)) }
        ensures err { IfErr result
            (λ e. (e ≡ InitialLengthOverflow) × (format ≡ Dwarf32)
            × IsFalse (length_fits Dwarf32 (self.now.end - length_size Dwarf32))) }
    {
        let end = self.end;
        match format {
            Format::Dwarf32 if end >= END_OF_32_BIT_UNIT => Err(Error::InitialLengthOverflow),
            _ => Ok(()),
        }
    }
}
