//! The search for the entries that are kept.

ghost use Rattle.std.specs.Prelude.{◌↔◌, IfOk, IfErr, map, nat_eq, ◌≡◌};
ghost use Rattle.std.specs.List.{Contains, IsDistinct};
ghost use Rattle.dw_sources.specs.declared.convert_error.ConvertError.TheVariants.{NoMemory};
ghost use Rattle.dw_filter.specs.Dependencies.{KeptAmong, targets_at};

use dw_base::UnitSectionOffset;
use dw_sources::ConvertResult;
use std::alloc::Global;
use std::collections::HashMap;

/// The entries to which walks lead from those that are pending, each once. A known entry leaves
/// `edges` when it is reached, so what is there is what is left, and none is looked at twice.
pub(crate) fn reach(
    alloc: Global,
    mut edges: HashMap<usize, Vec<UnitSectionOffset>>,
    mut pending: Vec<UnitSectionOffset>,
) -> ConvertResult<Vec<UnitSectionOffset>>
    ensures ok { IfOk result (λ v. (q : UnitSectionOffset) → Contains v.items q
        ↔ KeptAmong (targets_at edges.entries) pending.items q) }
    ensures once { IfOk result (λ v. IsDistinct nat_eq (map (λ e. e.0) v.items)) }
    ensures err { IfErr result (λ e. e ≡ NoMemory) }
{
    let mut reached = Vec::new(alloc);
    'entries: while let Some(entry) = pending.pop() {
        if let Some(mut leads) = edges.remove(&entry.0) {
            reached.push(entry)?;
            pending.append(&mut leads)?;
        }
    }
    Ok(reached)
}
