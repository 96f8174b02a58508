//! Items: their addresses, and the expressions of locations.

ghost use Rattle.std.specs.Prelude.{◌≡◌, ◌+◌, true, false, OnOk, IfOk, IfErr};
ghost use Rattle.std.specs.Option.{option_copied};
ghost use Rattle.dw_writer.specs.Drafts.{Drafts};
ghost use Rattle.dw_writer.specs.Meaning.{IsSameWriter};
ghost use Rattle.dw_expr.specs.Places.{known_by, place_by};
ghost use Rattle.dw_lists.specs.Kinds.{range_kinds, AreBytes};
ghost use Rattle.dw_lists.specs.Items.{is_five};
ghost use Rattle.dw_lists.specs.Parts.{Part};
ghost use Rattle.dw_lists.specs.Pieces.{IsWritten};
ghost use Rattle.dw_lists.specs.Texts.{IsRanged, IsSpelled, IsReadable};
ghost use Rattle.dw_lists.specs.Texts.{count_draft, located, part_draft, span_draft, span_size};
ghost use Rattle.dw_lists.specs.Causes.{Refused, Is, IsNone, count_of_fails, located_fails};
ghost use Rattle.dw_lists.specs.Causes.{old_fails, old_span_fails, new_part_fails, new_span_fails};
ghost use Rattle.dw_lists.specs.Causes.{unsized, unsized_in};

use crate::address::sum;
use crate::kinds::Kinds;
use crate::range::Range;
use dw_base::constants::DW_LLE_default_location;
use dw_base::{Encoding, Error, Result, uleb128_size};
use dw_expr::{EntryPlaces, Expression};
use dw_writer::{FixupList, Writer};

/// The bytes of an expression of version 5 behind its length.
fn located_size<P: EntryPlaces>(
    expression: Option<&Expression>,
    encoding: Encoding,
    places: Option<&P>,
) -> Result<u64>
    ensures ok { let place = place_by (known_by P.places places.entry) in
        IfOk result (λ n. n ≡ (located true encoding place (option_copied expression.entry)).size) }
    ensures sound { let known = known_by P.places places.entry in
        OnOk result (IsNone (unsized encoding known (option_copied expression.entry))) }
    ensures err { let known = known_by P.places places.entry in
        let size = (located true encoding (place_by known) (option_copied expression.entry)).size in
        IfErr result (Is (unsized_in encoding known size (option_copied expression.entry))) }
{
    let Some(expression) = expression else {
        return Ok(0);
    };
    let size = expression.size(encoding, places)?;
    sum(uleb128_size(size as u64) as u64, size as u64)
}

/// The bytes of an item of version 5.
pub(crate) fn part_size<P: EntryPlaces>(
    range: Option<Range>,
    expression: Option<&Expression>,
    encoding: Encoding,
    places: Option<&P>,
) -> Result<u64>
    ensures ok { let place = place_by (known_by P.places places.entry) in
        IfOk result (λ n. n ≡ span_size true encoding.address_size range
        + (located true encoding place (option_copied expression.entry)).size) }
    ensures sound { let known = known_by P.places places.entry in
        OnOk result (IsNone (unsized encoding known (option_copied expression.entry))) }
    ensures err { let known = known_by P.places places.entry in
        let size = span_size true encoding.address_size range
        + (located true encoding (place_by known) (option_copied expression.entry)).size in
        IfErr result (Is (unsized_in encoding known size (option_copied expression.entry))) }
{
    let first = match range {
        Some(range) => range.new_size(encoding.address_size),
        None => 1,
    };
    let rest = located_size(expression, encoding, places)?;
    sum(first, rest)
}

/// Writes the length of an expression, which has two bytes up to version 4 (DWARF 4, 2.6.2;
/// DWARF 5, 7.7.3).
fn write_count<W: Writer>(count: u64, encoding: Encoding, w: &mut W) -> Result<()>
    ensures ok { OnOk result
        (IsWritten (W.meaning w.old) (W.meaning w.new)
        (count_draft (is_five encoding) count)) }
    ensures sound { OnOk result (IsNone (count_of_fails (is_five encoding) count)) }
    ensures err { IfErr result
        (Refused (W.meaning w.old) (W.meaning w.new)
        (Is (count_of_fails (is_five encoding) count))) }
    ensures same { IsSameWriter (W.meaning w.old) (W.meaning w.new) }
{
    if encoding.version == 5 {
        w.write_uleb128(count)
    } else {
        w.write_udata(count, 2)
    }
}

/// Writes an expression behind its length.
fn write_located<W: Writer, P: EntryPlaces>(
    expression: Option<&Expression>,
    encoding: Encoding,
    places: Option<&P>,
    w: &mut W,
    fixups: &mut FixupList,
) -> Result<()>
    ensures ok { let place = place_by (known_by P.places places.entry) in
        OnOk result (Drafts (W.meaning w.old) (W.meaning w.new) fixups.old fixups.new
        (located (is_five encoding) encoding place (option_copied expression.entry))) }
    ensures spelled { let place = place_by (known_by P.places places.entry) in
        OnOk result (IsSpelled (is_five encoding) encoding place (option_copied expression.entry)) }
    ensures sound { let known = known_by P.places places.entry in
        OnOk result (IsNone (located_fails encoding known (W.meaning w.old).is_plain
        (is_five encoding) (option_copied expression.entry))) }
    ensures err { let known = known_by P.places places.entry in
        IfErr result (Refused (W.meaning w.old) (W.meaning w.new)
        (Is (located_fails encoding known (W.meaning w.old).is_plain (is_five encoding)
        (option_copied expression.entry)))) }
    ensures same { IsSameWriter (W.meaning w.old) (W.meaning w.new) }
{
    let Some(expression) = expression else {
        return Ok(());
    };
    let size = expression.size(encoding, places)?;
    write_count(size as u64, encoding, w)?;
    expression.write(w, Some(fixups), encoding, places)
}

/// Writes the addresses of an item up to version 4, where there is no default location.
fn write_old_span<W: Writer>(
    range: Option<Range>,
    has_base: bool,
    address_size: u8,
    w: &mut W,
) -> Result<()>
    ensures ok { OnOk result
        (IsWritten (W.meaning w.old) (W.meaning w.new)
        (span_draft false range_kinds address_size range)) }
    ensures sound { OnOk result
        (IsNone (old_span_fails has_base (W.meaning w.old).is_plain address_size range)) }
    ensures err { IfErr result
        (Refused (W.meaning w.old) (W.meaning w.new)
        (Is (old_span_fails has_base (W.meaning w.old).is_plain address_size range))) }
    ensures same { IsSameWriter (W.meaning w.old) (W.meaning w.new) }
{
    let Some(range) = range else {
        return Err(Error::InvalidRange);
    };
    range.check_form(address_size, has_base)?;
    range.write_old(address_size, w)
}

/// Writes an item up to version 4.
pub(crate) fn write_old_part<W: Writer, P: EntryPlaces>(
    range: Option<Range>,
    expression: Option<&Expression>,
    encoding: Encoding,
    has_base: bool,
    places: Option<&P>,
    w: &mut W,
    fixups: &mut FixupList,
) -> Result<()>
    requires { is_five encoding ≡ false }
    ensures ok { let place = place_by (known_by P.places places.entry) in
        let part : Part = record { range = range; expression = option_copied expression.entry } in
        OnOk result (Drafts (W.meaning w.old) (W.meaning w.new) fixups.old fixups.new
        (part_draft false encoding place range_kinds part)) }
    ensures readable { let place = place_by (known_by P.places places.entry) in
        let part : Part = record { range = range; expression = option_copied expression.entry } in
        OnOk result (IsReadable false encoding place part) }
    ensures sound { let known = known_by P.places places.entry in
        let part : Part = record { range = range; expression = option_copied expression.entry } in
        OnOk result (IsNone
        (old_fails encoding known (W.meaning w.old).is_plain has_base part)) }
    ensures err { let known = known_by P.places places.entry in
        let part : Part = record { range = range; expression = option_copied expression.entry } in
        IfErr result (Refused (W.meaning w.old) (W.meaning w.new)
        (Is (old_fails encoding known (W.meaning w.old).is_plain has_base part))) }
    ensures same { IsSameWriter (W.meaning w.old) (W.meaning w.new) }
{
    write_old_span(range, has_base, encoding.address_size, w)?;
    write_located(expression, encoding, places, w, fixups)
}

/// Writes the kind and the addresses of an item of version 5.
fn write_span<W: Writer>(
    range: Option<Range>,
    kinds: Kinds,
    address_size: u8,
    w: &mut W,
) -> Result<()>
    requires { AreBytes kinds }
    ensures ok { OnOk result
        (IsWritten (W.meaning w.old) (W.meaning w.new)
        (span_draft true kinds address_size range)) }
    ensures ranged { OnOk result (IsRanged range) }
    ensures sound { OnOk result
        (IsNone (new_span_fails (W.meaning w.old).is_plain address_size range)) }
    ensures err { IfErr result
        (Refused (W.meaning w.old) (W.meaning w.new)
        (Is (new_span_fails (W.meaning w.old).is_plain address_size range))) }
    ensures same { IsSameWriter (W.meaning w.old) (W.meaning w.new) }
{
    match range {
        Some(range) => range.write_new(kinds, address_size, w),
        None => w.write_u8(DW_LLE_default_location.0),
    }
}

/// Writes an item of version 5.
pub(crate) fn write_new_part<W: Writer, P: EntryPlaces>(
    range: Option<Range>,
    expression: Option<&Expression>,
    kinds: Kinds,
    encoding: Encoding,
    places: Option<&P>,
    w: &mut W,
    fixups: &mut FixupList,
) -> Result<()>
    requires five { is_five encoding ≡ true }
    requires bytes { AreBytes kinds }
    ensures ok { let place = place_by (known_by P.places places.entry) in
        let part : Part = record { range = range; expression = option_copied expression.entry } in
        OnOk result (Drafts (W.meaning w.old) (W.meaning w.new) fixups.old fixups.new
        (part_draft true encoding place kinds part)) }
    ensures readable { let place = place_by (known_by P.places places.entry) in
        let part : Part = record { range = range; expression = option_copied expression.entry } in
        OnOk result (IsReadable true encoding place part) }
    ensures sound { let known = known_by P.places places.entry in
        let part : Part = record { range = range; expression = option_copied expression.entry } in
        OnOk result (IsNone
        (new_part_fails encoding known (W.meaning w.old).is_plain part)) }
    ensures err { let known = known_by P.places places.entry in
        let part : Part = record { range = range; expression = option_copied expression.entry } in
        IfErr result (Refused (W.meaning w.old) (W.meaning w.new)
        (Is (new_part_fails encoding known (W.meaning w.old).is_plain part))) }
    ensures same { IsSameWriter (W.meaning w.old) (W.meaning w.new) }
{
    write_span(range, kinds, encoding.address_size, w)?;
    write_located(expression, encoding, places, w, fixups)
}
