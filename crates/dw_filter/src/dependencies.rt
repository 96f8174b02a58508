//! The graph of the entries of a file: which are known, where each leads, and which are required.

ghost use Rattle.std.specs.Prelude.{◌≡◌, ℕ, List, [], ◌∷◌, ◌++◌, map, ◌↔◌, None, Some};
ghost use Rattle.std.specs.Prelude.{IfOk, IfErr, OnOk, OnErr, IsSome};
ghost use Rattle.std.specs.Option.{is_some, option_map};
ghost use Rattle.std.specs.List.{Contains};
ghost use Rattle.std.specs.List.Sorted.{IsStrictlyIncreasing};
ghost use Rattle.dw_sources.specs.declared.convert_error.ConvertError.TheVariants.{NoMemory};
ghost use Rattle.dw_filter.specs.Dependencies.{targets, IsPut, Kept, IsLeastKept};

use crate::reach::reach;
use dw_base::UnitSectionOffset;
use dw_sources::ConvertResult;
use std::alloc::Global;
use std::collections::HashMap;
use std::marker::Model;

/// The entries of a file that are known, the entries to which each of them leads, and the entries
/// that are required. An entry is named by its place in `.debug_info`, in bytes from the section's
/// begin. All calls are refused for want of memory alone, as `NoMemory`, and then nothing has
/// changed.
///
/// ```
/// let mut dependencies = FilterDependencies::new(alloc);
/// dependencies.add_entry(UnitSectionOffset(0x0c), Vec::new(alloc))?;
/// dependencies.require_entry(UnitSectionOffset(0x0c))?;
/// let kept = dependencies.get_reachable()?; // the one at 0x0c
/// ```
#[derive(Drop)]
pub struct FilterDependencies {
    edges: HashMap<usize, Vec<UnitSectionOffset>>,
    required: Vec<UnitSectionOffset>,
    alloc: Global,
}

impl Model for FilterDependencies {
    ghost use Rattle.dw_filter.specs.Dependencies.{Dependencies, known_of};

    ghost Value = { Dependencies };

    ghost view = { λ d. record { known = known_of d.edges.entries; required = d.required.items } };
}

impl FilterDependencies {
    /// No entry is known, and none is required.
    pub fn new(alloc: Global) -> FilterDependencies
        ensures known { (place : ℕ) → targets result place ≡ None }
        ensures required { result.required ≡ [] }
    {
        FilterDependencies {
            edges: HashMap::new(alloc),
            required: Vec::new(alloc),
            alloc,
        }
    }

    /// Tells whether an entry is known.
    #[tactic(auto, using(crate::proofs::Views::lookup_plain))]
    pub fn is_known(&self, entry: UnitSectionOffset) -> bool
        ensures { result ≡ is_some (targets self.now entry.0) }
    {
        self.edges.contains_key(&entry.0)
    }

    /// Makes an entry known that isn't yet, with the entries that it leads to. These need not be
    /// known, now or later.
    #[tactic(auto, using(crate::proofs::Views::lookup_plain))]
    pub fn add_entry(
        &mut self,
        entry: UnitSectionOffset,
        deps: Vec<UnitSectionOffset>,
    ) -> ConvertResult<()>
        requires { targets self.old entry.0 ≡ None }
        ensures ok { OnOk result (IsPut self.old self.new entry.0 deps.items) }
        ensures err { IfErr result (λ e. e ≡ NoMemory) }
        ensures unchanged { OnErr result (self.new ≡ self.old) }
    {
        self.put_entry(entry, deps)?;
        Ok(())
    }

    /// Makes an entry known, which leads to these entries alone, and answers to which it led
    /// before, where it was known.
    #[tactic(auto, using(crate::proofs::Views::lookup_plain))]
    pub(crate) fn put_entry(
        &mut self,
        entry: UnitSectionOffset,
        deps: Vec<UnitSectionOffset>,
    ) -> ConvertResult<Option<Vec<UnitSectionOffset>>>
        ensures ok { OnOk result (IsPut self.old self.new entry.0 deps.items) }
        ensures earlier { IfOk result
            (λ v. targets self.old entry.0 ≡ option_map (λ v. v.items) v) }
        ensures err { IfErr result (λ e. e ≡ NoMemory) }
        ensures unchanged { OnErr result (self.new ≡ self.old) }
    {
        let earlier = self.edges.insert(entry.0, deps)?;
        Ok(earlier)
    }

    /// Adds an edge to those of a known entry. The entry to which it leads need not be known.
    #[tactic(auto, using(crate::proofs::Views::lookup_plain))]
    pub fn add_edge(&mut self, from: UnitSectionOffset, to: UnitSectionOffset) -> ConvertResult<()>
        requires { IsSome (targets self.old from.0) }
        ensures ok { OnOk result ((leads : List UnitSectionOffset) →
            targets self.old from.0 ≡ Some leads →
            IsPut self.old self.new from.0 (leads ++ to ∷ [])) }
        ensures err { IfErr result (λ e. e ≡ NoMemory) }
        ensures unchanged { OnErr result (self.new ≡ self.old) }
    {
        if let Some(leads) = self.edges.get_mut(&from.0) {
            leads.push(to)?;
        }
        Ok(())
    }

    /// Requires an entry. It counts once it is known, and may be required again.
    pub fn require_entry(&mut self, entry: UnitSectionOffset) -> ConvertResult<()>
        ensures ok { OnOk result
            (self.new ≡ record self.old { required = self.old.required ++ entry ∷ [] }) }
        ensures err { IfErr result (λ e. e ≡ NoMemory) }
        ensures unchanged { OnErr result (self.new ≡ self.old) }
    {
        self.required.push(entry)?;
        Ok(())
    }

    /// The entries that are kept, in the order of their places, each once: those to which a walk
    /// along edges leads from a required entry, where every entry of the walk is known.
    pub fn get_reachable(self) -> ConvertResult<Vec<UnitSectionOffset>>
        ensures sorted { IfOk result (λ v. IsStrictlyIncreasing (map (λ e. e.0) v.items)) }
        ensures kept { IfOk result
            (λ v. (q : UnitSectionOffset) → Contains v.items q ↔ Kept self q) }
        // They are the least set with the required known entries that is closed along edges.
        ensures least { IfOk result (λ v. IsLeastKept self v.items) }
        ensures err { IfErr result (λ e. e ≡ NoMemory) }
    {
        let mut reached = reach(self.alloc, self.edges, self.required)?;
        reached.sort_unstable_by_key(|entry| entry.0);
        Ok(reached)
    }
}
