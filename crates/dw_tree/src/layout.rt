//! The places of a unit's entries, found before the first byte is written.

ghost use Rattle.std.specs.Prelude.{◌≡◌, ◌+◌, ◌<◌, ◌≤◌, ◌^◌, ◌++◌, ◌∷◌, [], ℕ, Option, true, length, map, All, IsFalse, IfOk, OnOk, IfErr};
ghost use Rattle.dw_base.specs.Entries.{Open, Null, closes};
ghost use Rattle.dw_base.specs.Spelling.{header_size as size_of_header};
ghost use Rattle.dw_base.specs.declared.error.Error.{Error as AnError};
ghost use Rattle.dw_base.specs.declared.error.Error.TheVariants.{NoMemory};
ghost use Rattle.dw_entries.specs.Tree.{AreIn, IsIn, mark_of, marks, children_in, has_entry, are_entries_distinct};
ghost use Rattle.dw_entries.specs.Values.{KeepsPlaces};
ghost use Rattle.dw_tree.specs.Causes.{RoomRefused, LayoutRefused};
ghost use Rattle.dw_tree.specs.Coded.{shapes_of, code_at};
ghost use Rattle.dw_tree.specs.Laid.{values_size as size_of_values, entry_size as size_of_entry, sized, sizes_of, IsPlacement, HasNoRoom};
ghost use Rattle.dw_tree.specs.Early.{attributes_unplaced, mark_unplaced, is_forward, ValuesUnsized, EntryUnsized};
ghost use Rattle.dw_tree.specs.Places.{placement_of, known_at, has_place};

use crate::places::Places;
use dw_base::{Encoding, Result, uleb128_size};
use dw_entries::{Attribute, DebuggingInformationEntry, Item, sum};
use std::alloc::Global;

/// The bytes of a header: the length, with its escape in the 64-bit format, the version, the place
/// of the table and the address size; in version 5 the type of the unit, too (DWARF 5, 7.5.1.1).
fn header_size(encoding: Encoding) -> u64
    ensures { result ≡ size_of_header encoding }
{
    let word = encoding.format.word_size() as u64;
    let length = if word == 8 { 12 } else { 4 };
    let fields = if encoding.version == 5 { 4 } else { 3 };
    length + fields + word
}

/// The bytes of values.
fn values_size(encoding: Encoding, attributes: &[Attribute], places: &Places) -> Result<u64>
    ensures ok { IfOk result
        (λ n. (place : ℕ → Option ℕ) → KeepsPlaces (known_at places.now) place →
        n ≡ size_of_values encoding place attributes.now) }
    ensures sound { OnOk result
        ((e : AnError) →
        IsFalse (attributes_unplaced encoding (known_at places.now) attributes.now e)) }
    ensures err { IfErr result
        (ValuesUnsized encoding (known_at places.now) attributes.now) }
{
    let mut size: u64 = 0;
    for attribute in attributes {
        let more = attribute.get().size(encoding, places)?;
        size = sum(size, more)?;
    }
    Ok(size)
}

/// The bytes of an entry with its code.
fn entry_size(
    encoding: Encoding,
    entry: &DebuggingInformationEntry,
    code: u64,
    places: &Places,
) -> Result<u64>
    ensures ok { IfOk result
        (λ n. (place : ℕ → Option ℕ) → KeepsPlaces (known_at places.now) place →
        n ≡ size_of_entry encoding place code entry.now) }
    ensures sound { OnOk result
        ((e : AnError) →
        IsFalse (attributes_unplaced encoding (known_at places.now) entry.now.attributes e)) }
    ensures err { IfErr result
        (EntryUnsized encoding (known_at places.now) code entry.now) }
{
    let sibling = if entry.has_sibling() {
        encoding.format.word_size() as u64
    } else {
        0
    };
    let values = values_size(encoding, entry.attributes(), places)?;
    let behind_code = sum(sibling, values)?;
    sum(uleb128_size(code) as u64, behind_code)
}

/// Places so far, and the entries whose children aren't closed yet.
#[derive(Drop)]
pub(crate) struct Layout {
    places: Places,
    parents: Vec<usize>,
}

impl Layout {
    ghost use Rattle.dw_tree.specs.Laying.{layout_value, unlaid, begun, entered, closed_in, stepped, mark_size, known_in, Extends};

    /// Entries of which none has a place yet.
    fn new(alloc: Global, count: usize, start: u64) -> Result<Layout>
        ensures ok { IfOk result (λ l. layout_value l ≡ unlaid count start) }
        ensures err { IfErr result (λ e. e ≡ NoMemory) }
    {
        Ok(Layout {
            places: Places {
                places: vec![in alloc; 0; count]?,
                pasts: vec![in alloc; 0; count]?,
                end: start,
            },
            parents: Vec::new(alloc),
        })
    }

    /// Gives an entry its place, which its own size may hang on.
    fn begin(&mut self, index: usize)
        requires room { index < length (layout_value self.old).places }
        ensures { layout_value self.new ≡ begun (Open index) (layout_value self.old) }
    {
        self.places.places[index] = self.places.end;
    }

    /// Lays out the bytes of an entry that has its place.
    fn enter(&mut self, index: usize, size: u64, is_parent: bool) -> Result<()>
        requires room { index < length (layout_value self.old).pasts }
        ensures ok { OnOk result
            (layout_value self.new
            ≡ entered index ((layout_value self.old).end + size) is_parent
            (layout_value self.old)) }
        ensures err { IfErr result (RoomRefused (2 ^ 64 ≤ (layout_value self.old).end + size)) }
    {
        self.places.end = sum(self.places.end, size)?;
        if is_parent {
            self.parents.push(index)?;
        } else {
            self.places.pasts[index] = self.places.end;
        }
        Ok(())
    }

    /// Closes the innermost list of children, by one byte.
    fn close(&mut self) -> Result<()>
        requires { All (λ i. i < length (layout_value self.old).pasts)
            (layout_value self.old).parents }
        ensures ok { OnOk result
            (layout_value self.new
            ≡ closed_in (layout_value self.old).parents ((layout_value self.old).end + 1)
            (layout_value self.old)) }
        ensures err { IfErr result (RoomRefused (2 ^ 64 ≤ (layout_value self.old).end + 1)) }
    {
        self.places.end = sum(self.places.end, 1)?;
        if let Some(index) = self.parents.pop() {
            self.places.pasts[index] = self.places.end;
        }
        Ok(())
    }

    /// Lays an item out.
    fn step(
        &mut self,
        encoding: Encoding,
        entries: &[DebuggingInformationEntry],
        item: Item,
        code: u64,
    ) -> Result<()>
        requires within { IsIn (length entries.now) (mark_of item) }
        requires room { length (layout_value self.old).places ≡ length entries.now }
        requires past_room { length (layout_value self.old).pasts ≡ length entries.now }
        requires parents { All (λ i. i < length entries.now) (layout_value self.old).parents }
        ensures ok { OnOk result
            ((place : ℕ → ℕ) →
            Extends (begun (mark_of item) (layout_value self.old)) place →
            layout_value self.new ≡ stepped entries.now (mark_of item)
            ((layout_value self.old).end
            + mark_size encoding entries.now code (mark_of item) place)
            (layout_value self.old)) }
        ensures sound { OnOk result
            ((e : AnError) → IsFalse (mark_unplaced encoding entries.now
            (known_in (begun (mark_of item) (layout_value self.old))) (mark_of item) e)) }
        ensures err { IfErr result
            (LayoutRefused ((place : ℕ → ℕ) →
            Extends (begun (mark_of item) (layout_value self.old)) place →
            2 ^ 64 ≤ (layout_value self.old).end
            + mark_size encoding entries.now code (mark_of item) place)
            (mark_unplaced encoding entries.now
            (known_in (begun (mark_of item) (layout_value self.old))) (mark_of item))) }
    {
        match item {
            Item::Open(index) => {
                let entry = &entries[index];
                self.begin(index);
                let size = entry_size(encoding, entry, code, &self.places)?;
                self.enter(index, size, !entry.child_ids().is_empty())
            }
            Item::Null => self.close(),
        }
    }
}

/// Finds the place of each entry among items that are one tree. Refused as `ValueTooLarge` where
/// they come to no number of 64 bits, and as `UnsupportedExpressionForwardReference` where the size
/// of an entry hangs on the place of a later one.
pub(crate) fn lay_out(
    alloc: Global,
    encoding: Encoding,
    entries: &[DebuggingInformationEntry],
    items: &[Item],
    codes: &[u64],
) -> Result<Places>
    requires within { AreIn (length entries.now) (marks items.now) }
    requires distinct { are_entries_distinct (marks items.now) ≡ true }
    requires closed { closes 1 (map (children_in entries.now) (marks items.now) ++ Null ∷ [])
        ≡ true }
    requires codes { codes.now
        ≡ map (code_at encoding entries.now (shapes_of encoding entries.now [] (marks items.now)))
        (marks items.now) }
    ensures placed { IfOk result
        (λ p. IsPlacement
        (sized encoding entries.now (shapes_of encoding entries.now [] (marks items.now)))
        entries.now (size_of_header encoding) (marks items.now) (placement_of p)) }
    ensures end { IfOk result
        (λ p. p.end ≡ size_of_header encoding
        + sizes_of (sized encoding entries.now (shapes_of encoding entries.now [] (marks items.now))
        (placement_of p).place) entries.now (marks items.now)) }
    ensures inside { IfOk result
        (λ p. (i : ℕ) → has_place (placement_of p) i ≡ has_entry (marks items.now) i) }
    ensures bounded { IfOk result
        (λ p. (i : ℕ) → ((placement_of p).place i ≤ p.end) × ((placement_of p).past i ≤ p.end)) }
    ensures early { OnOk result
        ((e : AnError) → IsFalse (is_forward encoding entries.now [] (marks items.now) e)) }
    ensures err { IfErr result
        (LayoutRefused (HasNoRoom
        (sized encoding entries.now (shapes_of encoding entries.now [] (marks items.now)))
        entries.now (size_of_header encoding) (marks items.now))
        (is_forward encoding entries.now [] (marks items.now))) }
{
    let mut layout = Layout::new(alloc, entries.len(), header_size(encoding))?;
    for (k, item) in items.iter().enumerate() {
        layout.step(encoding, entries, *item, codes[k])?;
    }
    Ok(layout.places)
}
