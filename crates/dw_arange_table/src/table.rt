//! The address ranges of a file's units.

ghost use Rattle.std.specs.Prelude.{◌≡◌, [], ◌∷◌, ◌++◌, map, OnOk, OnErr, IfOk, IfErr};
ghost use Rattle.dw_base.specs.declared.error.Error.TheVariants as errors;
ghost use Rattle.dw_read.specs.declared.error.ReadError.TheVariants as reasons;
ghost use Rattle.dw_arange_table.specs.Find.{units_at};

use crate::set::ArangeSet;
use dw_base::{DebugInfoOffset, Result};
use dw_read::ReadResult;
use std::alloc::Global;
use std::collections::HashSet;
use std::marker::Model;

/// The section `.debug_aranges`: sets of address ranges, by which a debugger finds the unit of an
/// address without reading all units (DWARF 5, 6.1.2).
///
/// ```
/// let table = ArangeTable::read(alloc, EndianSlice::new(section, LittleEndian))?;
/// for unit in table.find(0x1008)?.as_slice() {
///     let place = unit.0; // where the unit's header stands in `.debug_info`
/// }
/// ```
#[derive(Drop)]
pub struct ArangeTable {
    pub(crate) sets: Vec<ArangeSet>,
}

impl Model for ArangeTable {
    ghost use Rattle.std.specs.Prelude.{List};
    ghost use Rattle.dw_arange_table.specs.Sets.{RangeSet};

    ghost Value = { List RangeSet };

    ghost view = { λ t. t.sets.items };
}

impl ArangeTable {
    /// A table without sets.
    pub fn new(alloc: Global) -> ArangeTable
        ensures { result ≡ [] }
    {
        ArangeTable {
            sets: Vec::new(alloc),
        }
    }

    /// Adds a set behind the others.
    pub fn add(&mut self, set: ArangeSet) -> Result<()>
        ensures ok { OnOk result (self.new ≡ self.old ++ set ∷ []) }
        ensures err { IfErr result (λ e. e ≡ errors.NoMemory) }
        ensures kept { OnErr result (self.new ≡ self.old) }
    {
        self.sets.push(set)?;
        Ok(())
    }

    /// The sets, in the order in which they stand in the section.
    pub fn sets(&self) -> &[ArangeSet]
        ensures { result.now ≡ self.now }
    {
        self.sets.as_slice()
    }

    /// The places in `.debug_info` of the units that have an address, each once, in the order of
    /// sets. Each set is looked at once.
    pub fn find(&self, address: u64) -> ReadResult<Vec<DebugInfoOffset>>
        ensures ok { IfOk result (λ units. map (λ u. u.0) units.items
            ≡ units_at address self.now) }
        ensures err { IfErr result (λ e. e ≡ reasons.NoMemory) }
    {
        find_in(*self.sets.allocator(), self.sets.as_slice(), address)
    }
}

/// The places of the units whose sets have an address.
fn find_in(alloc: Global, sets: &[ArangeSet], address: u64) -> ReadResult<Vec<DebugInfoOffset>>
    ensures ok { IfOk result (λ units. map (λ u. u.0) units.items ≡ units_at address sets.now) }
    ensures err { IfErr result (λ e. e ≡ reasons.NoMemory) }
{
    let mut found = Vec::new(alloc);
    let mut seen = HashSet::new(alloc);
    for set in sets {
        if set.contains(address) {
            let unit = set.unit();
            if seen.insert(unit.0)? {
                found.push(unit)?;
            }
        }
    }
    Ok(found)
}
