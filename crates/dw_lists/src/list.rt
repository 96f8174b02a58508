//! Lists, each with its close.

ghost use Rattle.std.specs.Prelude.{◌≡◌, true, false, OnOk, IfOk, IfErr};
ghost use Rattle.dw_base.specs.Numbers.{num};
ghost use Rattle.dw_writer.specs.Causes.{BytesRefused};
ghost use Rattle.dw_writer.specs.Drafts.{Drafts};
ghost use Rattle.dw_writer.specs.Meaning.{Adds, IsSameWriter};
ghost use Rattle.dw_expr.specs.Places.{known_by, place_by};
ghost use Rattle.dw_lists.specs.Items.{is_five};
ghost use Rattle.dw_lists.specs.Kinds.{kinds_of, range_kinds};
ghost use Rattle.dw_lists.specs.Pieces.{IsWritten};
ghost use Rattle.dw_lists.specs.Texts.{AreReadable, close_draft, list_draft};
ghost use Rattle.dw_lists.specs.Causes.{Refused, Is, IsNone, old_list_fails, new_list_fails};
ghost use Rattle.dw_lists.specs.Causes.{list_fails, parts_unsized, parts_unsized_in, width_fails};

use crate::address::sum;
use crate::item::has_base_after;
use crate::item_list::ItemList;
use crate::kinds::Kinds;
use crate::part::{part_size, write_new_part, write_old_part};
use dw_base::{Encoding, Result};
use dw_expr::EntryPlaces;
use dw_writer::{FixupList, Writer};

/// The bytes of a list of version 5.
pub(crate) fn new_list_size<L: ItemList, P: EntryPlaces>(
    list: &L,
    encoding: Encoding,
    places: Option<&P>,
) -> Result<u64>
    ensures ok { let place = place_by (known_by P.places places.entry) in
        let kinds = kinds_of L.is_location in
        IfOk result (λ n. n ≡ (list_draft true encoding place kinds (L.parts list.now)).size) }
    ensures sound { let known = known_by P.places places.entry in
        OnOk result (IsNone (parts_unsized encoding known (L.parts list.now))) }
    ensures err { let known = known_by P.places places.entry in
        let kinds = kinds_of L.is_location in
        let size = (list_draft true encoding (place_by known) kinds (L.parts list.now)).size in
        IfErr result (Is (parts_unsized_in encoding known size (L.parts list.now))) }
{
    let mut size: u64 = 1;
    for index in 0..list.count() {
        let more = part_size(list.range(index), list.expression(index), encoding, places)?;
        size = sum(size, more)?;
    }
    Ok(size)
}

/// Writes the kind that ends a list of version 5.
fn write_end<W: Writer>(kinds: Kinds, w: &mut W) -> Result<()>
    ensures ok { OnOk result (Adds (W.meaning w.old) (W.meaning w.new)
        (num (W.meaning w.old).is_big 1 kinds.end_of_list)) }
    ensures err { IfErr result (BytesRefused (W.meaning w.old) (W.meaning w.new)) }
    ensures same { IsSameWriter (W.meaning w.old) (W.meaning w.new) }
{
    w.write_u8(kinds.end_of_list)
}

/// Writes a list of version 5 (DWARF 5, 7.25 and 7.7.3).
fn write_new_list<W: Writer, L: ItemList, P: EntryPlaces>(
    list: &L,
    encoding: Encoding,
    places: Option<&P>,
    w: &mut W,
    fixups: &mut FixupList,
) -> Result<()>
    requires { is_five encoding ≡ true }
    ensures ok { let place = place_by (known_by P.places places.entry) in
        let kinds = kinds_of L.is_location in
        OnOk result (Drafts (W.meaning w.old) (W.meaning w.new) fixups.old fixups.new
        (list_draft true encoding place kinds (L.parts list.now))) }
    ensures readable { let place = place_by (known_by P.places places.entry) in
        OnOk result (AreReadable true encoding place (L.parts list.now)) }
    ensures sound { let known = known_by P.places places.entry in
        OnOk result (IsNone
        (new_list_fails encoding known (W.meaning w.old).is_plain (L.parts list.now))) }
    ensures err { let known = known_by P.places places.entry in
        IfErr result (Refused (W.meaning w.old) (W.meaning w.new)
        (Is (new_list_fails encoding known (W.meaning w.old).is_plain (L.parts list.now)))) }
    ensures same { IsSameWriter (W.meaning w.old) (W.meaning w.new) }
{
    let kinds = L::kinds();
    for index in 0..list.count() {
        let range = list.range(index);
        let expression = list.expression(index);
        write_new_part(range, expression, kinds, encoding, places, w, fixups)?;
    }
    write_end(kinds, w)
}

/// Writes the two zeros that close a list up to version 4.
fn write_close<W: Writer>(address_size: u8, w: &mut W) -> Result<()>
    ensures ok { OnOk result (IsWritten (W.meaning w.old) (W.meaning w.new)
        (close_draft false range_kinds address_size)) }
    ensures sound { OnOk result (IsNone (width_fails address_size)) }
    ensures err { IfErr result
        (Refused (W.meaning w.old) (W.meaning w.new) (Is (width_fails address_size))) }
    ensures same { IsSameWriter (W.meaning w.old) (W.meaning w.new) }
{
    w.write_udata(0, address_size)?;
    w.write_udata(0, address_size)
}

/// Writes a list up to version 4 (DWARF 4, 2.6.2 and 2.17.3).
fn write_old_list<W: Writer, L: ItemList, P: EntryPlaces>(
    list: &L,
    encoding: Encoding,
    has_base: bool,
    places: Option<&P>,
    w: &mut W,
    fixups: &mut FixupList,
) -> Result<()>
    requires { is_five encoding ≡ false }
    ensures ok { let place = place_by (known_by P.places places.entry) in
        let kinds = kinds_of L.is_location in
        OnOk result (Drafts (W.meaning w.old) (W.meaning w.new) fixups.old fixups.new
        (list_draft false encoding place kinds (L.parts list.now))) }
    ensures readable { let place = place_by (known_by P.places places.entry) in
        OnOk result (AreReadable false encoding place (L.parts list.now)) }
    ensures sound { let known = known_by P.places places.entry in
        OnOk result (IsNone (old_list_fails encoding known (W.meaning w.old).is_plain
        has_base (L.parts list.now))) }
    ensures err { let known = known_by P.places places.entry in
        IfErr result (Refused (W.meaning w.old) (W.meaning w.new)
        (Is (old_list_fails encoding known (W.meaning w.old).is_plain
        has_base (L.parts list.now)))) }
    ensures same { IsSameWriter (W.meaning w.old) (W.meaning w.new) }
{
    let mut base = has_base;
    for index in 0..list.count() {
        let range = list.range(index);
        let expression = list.expression(index);
        write_old_part(range, expression, encoding, base, places, w, fixups)?;
        base = has_base_after(range, base);
    }
    write_close(encoding.address_size, w)
}

/// Writes a list of a version.
pub(crate) fn write_list<W: Writer, L: ItemList, P: EntryPlaces>(
    list: &L,
    encoding: Encoding,
    has_base: bool,
    places: Option<&P>,
    w: &mut W,
    fixups: &mut FixupList,
) -> Result<()>
    ensures ok { let place = place_by (known_by P.places places.entry) in
        let kinds = kinds_of L.is_location in
        OnOk result (Drafts (W.meaning w.old) (W.meaning w.new) fixups.old fixups.new
        (list_draft (is_five encoding) encoding place kinds (L.parts list.now))) }
    ensures readable { let place = place_by (known_by P.places places.entry) in
        OnOk result (AreReadable (is_five encoding) encoding place (L.parts list.now)) }
    ensures sound { let known = known_by P.places places.entry in
        OnOk result (IsNone (list_fails encoding known (W.meaning w.old).is_plain
        (is_five encoding) has_base (L.parts list.now))) }
    ensures err { let known = known_by P.places places.entry in
        IfErr result (Refused (W.meaning w.old) (W.meaning w.new)
        (Is (list_fails encoding known (W.meaning w.old).is_plain
        (is_five encoding) has_base (L.parts list.now)))) }
    ensures same { IsSameWriter (W.meaning w.old) (W.meaning w.new) }
{
    if encoding.version == 5 {
        write_new_list(list, encoding, places, w, fixups)
    } else {
        write_old_list(list, encoding, has_base, places, w, fixups)
    }
}
