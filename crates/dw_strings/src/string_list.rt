//! Strings that differ, in the order in which they first came.

ghost use Rattle.std.specs.Prelude.{◌≡◌, ◌<◌, [], length, take, slice_get, Some, All, OnOk, OnErr, IfOk, IfErr};
ghost use Rattle.dw_base.specs.Spellable.{IsText};
ghost use Rattle.dw_base.specs.declared.error.Error.TheVariants.{NoMemory};
ghost use Rattle.dw_writer.specs.Meaning.{IsSameWriter, Adds, AddsSome};
ghost use Rattle.dw_writer.specs.Causes.{BytesRefused};
ghost use Rattle.dw_strings.specs.Strings.{string_at, string_bytes, string_index, string_place, with_string, AllDiffer};

use dw_base::{Error, Result};
use dw_writer::{Bytes, Writer};
use indexmap::IndexSet;
use std::alloc::Global;
use std::marker::Model;

/// Strings that differ, with their places in a section of them.
#[derive(Drop)]
pub(crate) struct StringList {
    strings: IndexSet<Bytes>,
    /// Where each string begins.
    offsets: Vec<usize>,
    /// The bytes of all strings with the zeros that close them.
    size: usize,
}

impl Model for StringList {
    ghost use Rattle.std.specs.Prelude.{ℕ, List};
    ghost use Rattle.dw_strings.specs.Strings.{AreLaidOut};

    ghost Value = { List (List ℕ) };

    ghost view = { λ t. t.strings.keys };

    ghost invariant = { λ t. AreLaidOut t.strings.keys t.offsets.items t.size };
}

impl StringList {
    /// No string.
    pub(crate) fn new(alloc: Global) -> StringList
        ensures { result ≡ [] }
    {
        StringList {
            strings: IndexSet::new(alloc),
            offsets: Vec::new(alloc),
            size: 0,
        }
    }

    /// The index of a string, which is added if none equals it.
    pub(crate) fn add(&mut self, bytes: &[u8]) -> Result<usize>
        requires { IsText bytes.now }
        ensures index { IfOk result (λ i. i ≡ string_index self.old bytes.now) }
        ensures ok { OnOk result (self.new ≡ with_string self.old bytes.now) }
        ensures named { IfOk result (λ i. slice_get self.new i ≡ Some bytes.now) }
        ensures err { IfErr result (λ e. e ≡ NoMemory) }
        ensures kept { OnErr result (self.new ≡ self.old) }
    {
        let string = Bytes::new(*self.offsets.allocator(), bytes)?;
        // A section that is larger than the memory can't be had either.
        let size = match self.size.checked_add(bytes.len()) {
            Some(size) if size < usize::MAX => size + 1,
            _ => return Err(Error::NoMemory),
        };
        self.offsets.reserve(1)?;
        let (index, is_new) = self.strings.insert_full(string)?;
        if is_new {
            self.offsets.push(self.size)?;
            self.size = size;
        }
        Ok(index)
    }
}

impl StringList {
    /// How many strings there are.
    pub(crate) fn len(&self) -> usize
        ensures len { result ≡ length self.now }
        ensures differ { AllDiffer self.now }
        ensures texts { All IsText self.now }
    {
        self.strings.len()
    }

    /// The string of an index.
    pub(crate) fn get(&self, index: usize) -> &[u8]
        requires { index < length self.now }
        ensures { slice_get self.now index ≡ Some result.now }
    {
        self.strings.as_slice()[index].slice()
    }

    /// Where the string of an index begins in the section.
    pub(crate) fn offset(&self, index: usize) -> usize
        requires { index < length self.now }
        ensures place { result ≡ string_place self.now index }
        ensures read { string_at result (string_bytes self.now) ≡ slice_get self.now index }
    {
        self.offsets[index]
    }

    /// Adds all strings, each closed by a zero.
    pub(crate) fn write<W: Writer>(&self, w: &mut W) -> Result<()>
        ensures ok { OnOk result
            (Adds (W.meaning w.old) (W.meaning w.new) (string_bytes self.now)) }
        ensures err { IfErr result (BytesRefused (W.meaning w.old) (W.meaning w.new)) }
        ensures partly { OnErr result
            (AddsSome (W.meaning w.old) (W.meaning w.new) (string_bytes self.now)) }
        ensures same { IsSameWriter (W.meaning w.old) (W.meaning w.new) }
    {
        write_strings(self.strings.as_slice(), w)
    }
}

/// Adds strings, each closed by a zero.
fn write_strings<W: Writer>(strings: &[Bytes], w: &mut W) -> Result<()>
    ensures ok { OnOk result
        (Adds (W.meaning w.old) (W.meaning w.new) (string_bytes strings.now)) }
    ensures err { IfErr result (BytesRefused (W.meaning w.old) (W.meaning w.new)) }
    ensures partly { OnErr result
        (AddsSome (W.meaning w.old) (W.meaning w.new) (string_bytes strings.now)) }
    ensures same { IsSameWriter (W.meaning w.old) (W.meaning w.new) }
{
    for string in strings {
        w.write(string.slice())?;
        w.write_u8(0)?;
    }
    Ok(())
}
