//! The lists of a table, and what a table of version 5 has before them.

ghost use Rattle.std.specs.Prelude.{All, List, map, length, ◌≡◌, ◌+◌, ◌<◌, ◌^◌, true, false};
ghost use Rattle.std.specs.Prelude.{OnOk, IfOk, IfErr};
ghost use Rattle.dw_writer.specs.declared.fixup.DebugInfoFixup.{DebugInfoFixup};
ghost use Rattle.dw_writer.specs.Drafts.{Drafts};
ghost use Rattle.dw_writer.specs.Meaning.{IsSameWriter};
ghost use Rattle.dw_expr.specs.Places.{known_by, place_by, MemoryOr};
ghost use Rattle.dw_lists.specs.Items.{is_five};
ghost use Rattle.dw_lists.specs.Kinds.{kinds_of};
ghost use Rattle.dw_lists.specs.Pieces.{fields_size, head_draft};
ghost use Rattle.dw_lists.specs.Texts.{AreReadable, lists_draft, places_from};
ghost use Rattle.dw_lists.specs.Tables.{table_draft, table_head, new_table, base_from, new_offsets};
ghost use Rattle.dw_lists.specs.Tables.{offsets_from};
ghost use Rattle.dw_lists.specs.Causes.{Refused, Is, IsNone, lists_fail, lists_unsized_in};
ghost use Rattle.dw_lists.specs.Causes.{head_fails, header_fails, entries_fail};
ghost use Rattle.dw_lists.specs.Causes.{table_fails, table_fails_by};

use crate::address::sum;
use crate::item_list::ItemList;
use crate::list::{new_list_size, write_list};
use crate::offset_table::{write_fields, write_length, write_words};
use crate::offsets::ListPlaces;
use dw_base::{Encoding, Error, Result};
use dw_expr::EntryPlaces;
use dw_writer::{FixupList, Writer};
use std::alloc::Global;

/// The places of lists of version 5, the first at `start`, and where the last one ends.
fn entries<L: ItemList, P: EntryPlaces>(
    alloc: Global,
    start: u64,
    lists: &[L],
    encoding: Encoding,
    places: Option<&P>,
) -> Result<(Vec<u64>, u64)>
    ensures places { let place = place_by (known_by P.places places.entry) in
        let kinds = kinds_of L.is_location in
        IfOk result (λ r. r.0.items ≡
        places_from true encoding place kinds start (map L.parts lists.now)) }
    ensures end { let place = place_by (known_by P.places places.entry) in
        let kinds = kinds_of L.is_location in
        IfOk result (λ r. r.1 ≡
        start + (lists_draft true encoding place kinds (map L.parts lists.now)).size) }
    ensures err { let known = known_by P.places places.entry in
        let kinds = kinds_of L.is_location in
        let lists = map L.parts lists.now in
        let size = start + (lists_draft true encoding (place_by known) kinds lists).size in
        IfErr result (MemoryOr (lists_unsized_in encoding known size lists)) }
{
    let mut all = Vec::new(alloc);
    let mut at = start;
    for list in lists {
        all.push(at)?;
        let size = new_list_size(list, encoding, places)?;
        at = sum(at, size)?;
    }
    Ok((all, at))
}

/// Writes lists, and answers where each stands.
fn write_lists<W: Writer, L: ItemList, P: EntryPlaces>(
    alloc: Global,
    lists: &[L],
    encoding: Encoding,
    has_base: bool,
    places: Option<&P>,
    w: &mut W,
    fixups: &mut FixupList,
) -> Result<Vec<usize>>
    ensures ok { let place = place_by (known_by P.places places.entry) in
        let kinds = kinds_of L.is_location in
        OnOk result (Drafts (W.meaning w.old) (W.meaning w.new) fixups.old fixups.new
        (lists_draft (is_five encoding) encoding place kinds (map L.parts lists.now))) }
    ensures places { let place = place_by (known_by P.places places.entry) in
        let kinds = kinds_of L.is_location in
        IfOk result (λ r. r.items ≡ places_from (is_five encoding) encoding place kinds
        (W.meaning w.old).size (map L.parts lists.now)) }
    ensures readable { let place = place_by (known_by P.places places.entry) in
        OnOk result (All (AreReadable (is_five encoding) encoding place)
        (map L.parts lists.now)) }
    ensures sound { let known = known_by P.places places.entry in
        OnOk result (IsNone (lists_fail encoding known (W.meaning w.old).is_plain
        (is_five encoding) has_base (map L.parts lists.now))) }
    ensures err { let known = known_by P.places places.entry in
        IfErr result (Refused (W.meaning w.old) (W.meaning w.new)
        (Is (lists_fail encoding known (W.meaning w.old).is_plain
        (is_five encoding) has_base (map L.parts lists.now)))) }
    ensures same { IsSameWriter (W.meaning w.old) (W.meaning w.new) }
{
    let mut all = Vec::new(alloc);
    for list in lists {
        all.push(w.len())?;
        write_list(list, encoding, has_base, places, w, fixups)?;
    }
    Ok(all)
}

/// Writes the header of a table of version 5 and its offset entries, the first of which stands at
/// the answer; the lists end `end` bytes behind it.
fn write_head<W: Writer>(entries: &[u64], end: u64, encoding: Encoding, w: &mut W) -> Result<usize>
    requires { length entries.now < 2 ^ 32 }
    ensures ok { OnOk result
        ((kept : List DebugInfoFixup) → Drafts (W.meaning w.old) (W.meaning w.new) kept kept
        (head_draft encoding (fields_size + end) entries.now)) }
    ensures base { IfOk result (λ at. at ≡ base_from encoding.format (W.meaning w.old).size) }
    ensures sound { OnOk result
        (IsNone (head_fails encoding.format (fields_size + end) entries.now)) }
    ensures err { IfErr result
        (Refused (W.meaning w.old) (W.meaning w.new)
        (Is (head_fails encoding.format (fields_size + end) entries.now))) }
    ensures same { IsSameWriter (W.meaning w.old) (W.meaning w.new) }
{
    let size = sum(8, end)?;
    write_length(size, encoding.format, w)?;
    write_fields(encoding.address_size, entries.len() as u32, w)?;
    let base = w.len();
    write_words(entries, encoding.format, w)?;
    Ok(base)
}

/// Writes what a table of version 5 has before its lists, and answers where its first offset entry
/// stands.
fn write_entries<W: Writer, L: ItemList, P: EntryPlaces>(
    alloc: Global,
    lists: &[L],
    encoding: Encoding,
    places: Option<&P>,
    w: &mut W,
) -> Result<usize>
    ensures ok { let place = place_by (known_by P.places places.entry) in
        OnOk result
        ((kept : List DebugInfoFixup) → Drafts (W.meaning w.old) (W.meaning w.new) kept kept
        (table_head L.is_location encoding place (map L.parts lists.now))) }
    ensures base { IfOk result (λ at. at ≡ base_from encoding.format (W.meaning w.old).size) }
    ensures sound { let known = known_by P.places places.entry in
        OnOk result
        (IsNone (header_fails L.is_location encoding known (map L.parts lists.now))) }
    ensures err { let known = known_by P.places places.entry in
        IfErr result (Refused (W.meaning w.old) (W.meaning w.new)
        (Is (entries_fail L.is_location encoding known (map L.parts lists.now)))) }
    ensures same { IsSameWriter (W.meaning w.old) (W.meaning w.new) }
{
    let count = lists.len();
    if count > 0xffff_ffff {
        return Err(Error::ValueTooLarge);
    }
    let start = count as u64 * encoding.format.word_size() as u64;
    let (entries, end) = entries(alloc, start, lists, encoding, places)?;
    write_head(entries.as_slice(), end, encoding, w)
}

/// Writes a table of version 5: the header, an entry for each list, and the lists.
fn write_indexed<W: Writer, L: ItemList, P: EntryPlaces>(
    alloc: Global,
    lists: &[L],
    encoding: Encoding,
    has_base: bool,
    places: Option<&P>,
    w: &mut W,
    fixups: &mut FixupList,
) -> Result<ListPlaces>
    requires { is_five encoding ≡ true }
    ensures ok { let place = place_by (known_by P.places places.entry) in
        OnOk result (Drafts (W.meaning w.old) (W.meaning w.new) fixups.old fixups.new
        (new_table L.is_location encoding place (map L.parts lists.now))) }
    ensures offsets { let place = place_by (known_by P.places places.entry) in
        IfOk result (λ r. r ≡ new_offsets L.is_location encoding place
        (W.meaning w.old).size (map L.parts lists.now)) }
    ensures readable { let place = place_by (known_by P.places places.entry) in
        OnOk result (All (AreReadable true encoding place) (map L.parts lists.now)) }
    ensures sound { let known = known_by P.places places.entry in
        OnOk result (IsNone (table_fails_by L.is_location encoding known true has_base
        (W.meaning w.old).is_plain (map L.parts lists.now))) }
    ensures err { let known = known_by P.places places.entry in
        IfErr result (Refused (W.meaning w.old) (W.meaning w.new)
        (Is (table_fails_by L.is_location encoding known true has_base
        (W.meaning w.old).is_plain (map L.parts lists.now)))) }
    ensures same { IsSameWriter (W.meaning w.old) (W.meaning w.new) }
{
    let base = write_entries(alloc, lists, encoding, places, w)?;
    let places = write_lists(alloc, lists, encoding, has_base, places, w, fixups)?;
    let base = Some(base);
    Ok(ListPlaces { base, places })
}

/// Writes a table of a version; one without lists writes nothing.
pub(crate) fn write_table<W: Writer, L: ItemList, P: EntryPlaces>(
    alloc: Global,
    lists: &[L],
    encoding: Encoding,
    has_base: bool,
    places: Option<&P>,
    w: &mut W,
    fixups: &mut FixupList,
) -> Result<ListPlaces>
    ensures ok { let place = place_by (known_by P.places places.entry) in
        OnOk result (Drafts (W.meaning w.old) (W.meaning w.new) fixups.old fixups.new
        (table_draft L.is_location encoding place (map L.parts lists.now))) }
    ensures offsets { let place = place_by (known_by P.places places.entry) in
        IfOk result (λ r. r ≡ offsets_from L.is_location encoding place
        (W.meaning w.old).size (map L.parts lists.now)) }
    ensures readable { let place = place_by (known_by P.places places.entry) in
        OnOk result (All (AreReadable (is_five encoding) encoding place)
        (map L.parts lists.now)) }
    ensures sound { let known = known_by P.places places.entry in
        OnOk result (IsNone (table_fails L.is_location encoding known has_base
        (W.meaning w.old).is_plain (map L.parts lists.now))) }
    ensures err { let known = known_by P.places places.entry in
        IfErr result (Refused (W.meaning w.old) (W.meaning w.new)
        (Is (table_fails L.is_location encoding known has_base
        (W.meaning w.old).is_plain (map L.parts lists.now)))) }
    ensures same { IsSameWriter (W.meaning w.old) (W.meaning w.new) }
{
    if lists.is_empty() {
        return Ok(ListPlaces {
            base: None,
            places: Vec::new(alloc),
        });
    }
    match encoding.version {
        2..=4 => {
            let places = write_lists(alloc, lists, encoding, has_base, places, w, fixups)?;
            Ok(ListPlaces { base: None, places })
        }
        5 => write_indexed(alloc, lists, encoding, has_base, places, w, fixups),
        version => Err(Error::UnsupportedVersion(version)),
    }
}
