//! What the places of entries become.

ghost use Rattle.std.specs.Prelude.{ℕ, Option, None};
ghost use Rattle.dw_base.specs.declared.address.DebugInfoRef.{DebugInfoRef as InfoRef};
ghost use Rattle.dw_base.specs.declared.ids.UnitEntryId.{UnitEntryId as EntryId};
ghost use Rattle.dw_read.specs.Took.{option_of};
ghost use Rattle.dw_convert.specs.References.{EntryOutcome, InfoOutcome, BaseOutcome};

use dw_base::{DebugInfoOffset, DebugInfoRef, UnitEntryId, UnitOffset};
use dw_sources::{ConvertError, ConvertResult};

/// Knows what the entries became that operations name by their places. It answers the same each
/// time that it is asked for a place.
///
/// ```
/// impl ConvertDebugInfoRef for Ids {
///     ghost entries = { λ ids n. id_at ids n };
///
///     ghost infos = { λ ids n. reference_at ids n };
///
///     fn convert_unit_ref(&self, entry: UnitOffset) -> ConvertResult<UnitEntryId> {
///         self.id_at(entry).ok_or(ConvertError::InvalidUnitRef)
///     }
///
///     fn convert_debug_info_ref(&self, entry: DebugInfoOffset) -> ConvertResult<DebugInfoRef> {
///         self.reference_at(entry).ok_or(ConvertError::InvalidDebugInfoRef)
///     }
/// }
/// ```
pub trait ConvertDebugInfoRef {
    ghost entries: { Self → ℕ → Option EntryId };

    ghost infos: { Self → ℕ → Option InfoRef };

    /// What the entry at a place in the unit became. `InvalidUnitRef` is the one error, where it
    /// became none.
    fn convert_unit_ref(&self, entry: UnitOffset) -> ConvertResult<UnitEntryId>
        ensures { EntryOutcome (entries self.now) entry.0 result };

    /// What the entry at a place in `.debug_info` became. `InvalidDebugInfoRef` is the one error,
    /// where it became none.
    fn convert_debug_info_ref(&self, entry: DebugInfoOffset) -> ConvertResult<DebugInfoRef>
        ensures { InfoOutcome (infos self.now) entry.0 result };
}

/// Knows no entry, as where the expressions of call frames are converted.
///
/// ```
/// let expression = expression(alloc, read, encoding, None, &address, &NoConvertDebugInfoRef)?;
/// ```
#[derive(Clone, Copy, Debug)]
pub struct NoConvertDebugInfoRef;

impl ConvertDebugInfoRef for NoConvertDebugInfoRef {
    ghost entries = { λ _ _. None };

    ghost infos = { λ _ _. None };

    fn convert_unit_ref(&self, _entry: UnitOffset) -> ConvertResult<UnitEntryId> {
        Err(ConvertError::InvalidUnitRef)
    }

    fn convert_debug_info_ref(&self, _entry: DebugInfoOffset) -> ConvertResult<DebugInfoRef> {
        Err(ConvertError::InvalidDebugInfoRef)
    }
}

/// What a base type became; the generic type has no place.
pub(crate) fn convert_base<C: ConvertDebugInfoRef>(
    base: Option<UnitOffset>,
    refs: &C,
) -> ConvertResult<Option<UnitEntryId>>
    ensures { BaseOutcome (C.entries refs.now) (option_of (λ b. b.0) base) result }
{
    let Some(base) = base else {
        return Ok(None);
    };
    let entry = refs.convert_unit_ref(base)?;
    Ok(Some(entry))
}
