//! The call frames of a file.

ghost use Rattle.std.specs.Prelude.{◌≡◌, ◌<◌, ◌≤◌, [], ◌∷◌, ◌++◌, length, IsTrue, OnOk, OnErr, IfOk, IfErr, if◌then◌else◌};
ghost use Rattle.std.specs.List.{list_any, position_or_len};
ghost use Rattle.dw_base.specs.declared.error.Error.TheVariants.{NoMemory};
ghost use Rattle.dw_frame.specs.Owners.{have_cies};

mod write;

use crate::cie::CommonInformationEntry;
use crate::fde::FrameDescriptionEntry;
use dw_base::{CieId, Result};
use indexmap::IndexSet;
use std::alloc::Global;

/// The call frames of a file: common information entries, and the entries of functions, each with
/// the common one that it was built with (DWARF 5, 6.4.1).
///
/// ```
/// let mut frames = FrameTable::new(alloc);
/// let cie = frames.add_cie(cie)?;
/// frames.add_fde(cie, fde)?;
/// frames.write_eh_frame(&mut EhFrame(EndianVec::new(alloc, RunTimeEndian::Little)))?;
/// ```
#[derive(Drop)]
pub struct FrameTable {
    cies: IndexSet<CommonInformationEntry>,
    fdes: Vec<(CieId, FrameDescriptionEntry)>,
    // Each entry of a function has its common one here.
    ghost complete: { IsTrue (have_cies (length cies.keys) fdes.items) },
}

impl FrameTable {
    /// A table of no entries.
    pub fn new(alloc: Global) -> FrameTable
        ensures cies { result.cies.keys ≡ [] }
        ensures fdes { result.fdes.items ≡ [] }
    {
        FrameTable {
            cies: IndexSet::new(alloc),
            fdes: Vec::new(alloc),
        }
    }

    /// The id of a common entry, which is added if none equals it. One that is there already is
    /// dropped.
    pub fn add_cie(&mut self, cie: CommonInformationEntry) -> Result<CieId>
        ensures id { IfOk result (λ id. id.0 ≡ position_or_len
            (⟦<CommonInformationEntry as PartialEq>⟧.eq cie) self.old.cies.keys) }
        ensures ok { OnOk result (self.new.cies.keys ≡
            (if list_any (⟦<CommonInformationEntry as PartialEq>⟧.eq cie) self.old.cies.keys
            then self.old.cies.keys else self.old.cies.keys ++ cie ∷ [])) }
        ensures within { IfOk result (λ id. id.0 < length self.new.cies.keys) }
        // An id that was answered before is still within.
        ensures stay { length self.old.cies.keys ≤ length self.new.cies.keys }
        ensures err { IfErr result (λ e. e ≡ NoMemory) }
        ensures kept { OnErr result (self.new.cies.keys ≡ self.old.cies.keys) }
        ensures fdes { self.new.fdes ≡ self.old.fdes }
    {
        let (index, _) = self.cies.insert_full(cie)?;
        Ok(CieId::new(index))
    }

    /// How many common entries there are. No two of them are equal.
    pub fn cie_count(&self) -> usize
        ensures { result ≡ length self.now.cies.keys }
    {
        self.cies.len()
    }

    /// Adds the entry of a function, with the common entry that it is built with.
    pub fn add_fde(&mut self, cie: CieId, fde: FrameDescriptionEntry) -> Result<()>
        requires { cie.0 < length self.old.cies.keys }
        ensures ok { OnOk result
            (self.new.fdes.items ≡ self.old.fdes.items ++ (cie, fde) ∷ []) }
        ensures err { IfErr result (λ e. e ≡ NoMemory) }
        ensures kept { OnErr result (self.new.fdes.items ≡ self.old.fdes.items) }
        ensures cies { self.new.cies ≡ self.old.cies }
    {
        self.fdes.push((cie, fde))?;
        Ok(())
    }

    /// How many entries of functions there are.
    pub fn fde_count(&self) -> usize
        ensures { result ≡ length self.now.fdes.items }
    {
        self.fdes.len()
    }
}
