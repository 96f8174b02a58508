//! The places of entries in their unit.

ghost use Rattle.std.specs.Prelude.{◌≡◌, ℕ, Option, IfOk, IfErr, OnOk, IsTrue, IsFalse};
ghost use Rattle.dw_base.specs.declared.error.Error.{Error as AnError};
ghost use Rattle.dw_expr.specs.Causes.{entry_fails};
ghost use Rattle.dw_expr.specs.Places.{known_by, place_by};

use dw_base::{Error, Result, UnitEntryId};

/// Where the entries of a unit stand, in bytes from the begin of its header (2.5.1).
///
/// ```
/// impl EntryPlaces for Places {
///     ghost places = { λ p i. slice_get p.places.items i };
///
///     fn unit_place(&self, id: UnitEntryId) -> Option<u64> {
///         self.places.get(id.index()).copied()
///     }
/// }
/// ```
pub trait EntryPlaces {
    ghost places: { Self → ℕ → Option ℕ };

    /// The place of an entry, where it has one.
    fn unit_place(&self, id: UnitEntryId) -> Option<u64>
        ensures { result ≡ places self.now id.0 };
}

/// The place of an entry that an expression names.
pub fn entry_place<P: EntryPlaces>(places: Option<&P>, id: UnitEntryId) -> Result<u64>
    ensures ok { let known = known_by P.places places.entry in
        IfOk result (λ n. place_by known id.0 ≡ Some n) }
    ensures sound { let known = known_by P.places places.entry in
        OnOk result ((e : AnError) → IsFalse (entry_fails known id.0 e)) }
    ensures err { let known = known_by P.places places.entry in
        IfErr result (λ e. IsTrue (entry_fails known id.0 e)) }
{
    let Some(known) = places else {
        return Err(Error::UnsupportedCfiExpressionReference);
    };
    match known.unit_place(id) {
        Some(place) => Ok(place),
        None => Err(Error::UnsupportedExpressionForwardReference),
    }
}
