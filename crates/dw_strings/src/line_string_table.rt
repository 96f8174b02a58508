//! The strings of `.debug_line_str`.

ghost use Rattle.std.specs.Prelude.{◌≡◌, ◌<◌, [], length, slice_get, Some, All, OnOk, OnErr, IfOk, IfErr};
ghost use Rattle.dw_base.specs.Spellable.{IsText};
ghost use Rattle.dw_base.specs.declared.error.Error.TheVariants.{NoMemory};
ghost use Rattle.dw_writer.specs.Meaning.{IsSameWriter, Adds, AddsSome};
ghost use Rattle.dw_writer.specs.Causes.{BytesRefused};
ghost use Rattle.dw_strings.specs.Strings.{KeepStrings, string_at, string_bytes, string_index, string_place, with_string, AllDiffer};

use crate::string_list::StringList;
use dw_base::{DebugLineStrOffset, LineStringId, Result};
use dw_writer::{DebugLineStr, Writer};
use std::alloc::Global;
use std::marker::Model;

/// The strings of `.debug_line_str`, which line programs and values name by their ids. Equal
/// strings are kept once, and ids and offsets stay as strings are added.
///
/// ```
/// let mut strings = LineStringTable::new(alloc);
/// let id = strings.add(b"main.c")?;
/// let same = strings.add(b"main.c")?; // equals `id`
/// ```
#[derive(Drop)]
pub struct LineStringTable {
    strings: StringList,
}

impl Model for LineStringTable {
    ghost use Rattle.std.specs.Prelude.{ℕ, List};

    ghost Value = { List (List ℕ) };

    ghost view = { λ t. t.strings };
}

impl LineStringTable {
    /// A table of no strings.
    pub fn new(alloc: Global) -> LineStringTable
        ensures { result ≡ [] }
    {
        LineStringTable {
            strings: StringList::new(alloc),
        }
    }

    /// The id of a string, which is added if none equals it. A string ends at its first zero byte
    /// (DWARF 5, 7.5.5), so it may have none.
    pub fn add(&mut self, bytes: &[u8]) -> Result<LineStringId>
        requires { IsText bytes.now }
        ensures id { IfOk result (λ id. id.0 ≡ string_index self.old bytes.now) }
        ensures ok { OnOk result (self.new ≡ with_string self.old bytes.now) }
        ensures named { IfOk result (λ id. slice_get self.new id.0 ≡ Some bytes.now) }
        // Those that were there keep their ids and their places.
        ensures stay { KeepStrings self.old self.new }
        ensures err { IfErr result (λ e. e ≡ NoMemory) }
        ensures kept { OnErr result (self.new ≡ self.old) }
    {
        Ok(LineStringId::new(self.strings.add(bytes)?))
    }

    /// The bytes of a string, without the zero that closes it.
    pub fn get(&self, id: LineStringId) -> &[u8]
        requires { id.0 < length self.now }
        ensures { slice_get self.now id.0 ≡ Some result.now }
    {
        self.strings.get(id.index())
    }

    /// Where a string begins in the section, in bytes.
    pub fn offset(&self, id: LineStringId) -> DebugLineStrOffset
        requires { id.0 < length self.now }
        ensures place { result.0 ≡ string_place self.now id.0 }
        // The section has the string there.
        ensures read { string_at result.0 (string_bytes self.now) ≡ slice_get self.now id.0 }
    {
        DebugLineStrOffset(self.strings.offset(id.index()))
    }

    /// How many strings there are. No two of them are equal.
    pub fn count(&self) -> usize
        ensures len { result ≡ length self.now }
        ensures differ { AllDiffer self.now }
        ensures texts { All IsText self.now }
    {
        self.strings.len()
    }

    /// Writes the section: each string, closed by a zero byte.
    pub fn write<W: Writer>(&self, w: &mut DebugLineStr<W>) -> Result<()>
        ensures ok { OnOk result
            (Adds (W.meaning w.old.0) (W.meaning w.new.0) (string_bytes self.now)) }
        ensures err { IfErr result (BytesRefused (W.meaning w.old.0) (W.meaning w.new.0)) }
        ensures partly { OnErr result
            (AddsSome (W.meaning w.old.0) (W.meaning w.new.0) (string_bytes self.now)) }
        ensures same { IsSameWriter (W.meaning w.old.0) (W.meaning w.new.0) }
    {
        self.strings.write(&mut w.0)
    }
}
