//! References into `.debug_info` that are written before the place of their entry is known.

ghost use Rattle.std.specs.Prelude.{◌≡◌, ◌==◌, [], ◌∷◌, ◌++◌, length, slice_get, OnOk, OnErr, IfErr};
ghost use Rattle.dw_base.specs.declared.error.Error.TheVariants.{NoMemory};

use dw_base::{Result, UnitEntryId, UnitId};
use std::alloc::Global;
use std::marker::Model;

/// A place that gets the offset of an entry in `.debug_info`, once that is known.
#[derive(Clone, Copy, PartialEq, Eq)]
pub struct DebugInfoFixup {
    /// Where the number stands, in the section that the list of fixups belongs to.
    pub offset: usize,
    /// How many bytes the number has.
    pub size: u8,
    /// The unit of the entry.
    pub unit: UnitId,
    /// The entry.
    pub entry: UnitEntryId,
}

/// The fixups of one section, in the order in which they were found.
#[derive(Drop)]
pub struct FixupList {
    fixups: Vec<DebugInfoFixup>,
}

impl Model for FixupList {
    ghost use Rattle.std.specs.Prelude.{List};
    ghost use Rattle.dw_writer.specs.declared.fixup.DebugInfoFixup.{DebugInfoFixup};

    ghost Value = { List DebugInfoFixup };

    ghost view = { λ list. list.fixups.items };
}

impl FixupList {
    /// A list of none.
    pub fn new(alloc: Global) -> FixupList
        ensures { result ≡ [] }
    {
        FixupList {
            fixups: Vec::new(alloc),
        }
    }

    /// Adds a fixup at the end.
    pub fn push(&mut self, fixup: DebugInfoFixup) -> Result<()>
        ensures ok { OnOk result (self.new ≡ self.old ++ fixup ∷ []) }
        ensures err { OnErr result (self.new ≡ self.old) }
        ensures memory { IfErr result (λ e. e ≡ NoMemory) }
    {
        self.fixups.push(fixup)?;
        Ok(())
    }

    /// How many fixups there are.
    pub fn len(&self) -> usize
        ensures { result ≡ length self.now }
    {
        self.fixups.len()
    }

    /// Tells that there is no fixup.
    pub fn is_empty(&self) -> bool
        ensures { result ≡ (length self.now == 0) }
    {
        self.fixups.is_empty()
    }

    /// The fixup at this index.
    pub fn get(&self, index: usize) -> Option<DebugInfoFixup>
        ensures { result ≡ slice_get self.now index }
    {
        self.fixups.get(index).copied()
    }

    /// Removes every fixup.
    pub fn clear(&mut self)
        ensures { self.new ≡ [] }
    {
        self.fixups.clear();
    }
}
