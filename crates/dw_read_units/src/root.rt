//! What a unit's root says of other sections (DWARF 5, 3.1.1 and 7.26 to 7.29).

ghost use Rattle.std.specs.Prelude.{◌≡◌, map, IfOk, IfErr};
ghost use Rattle.dw_base.specs.declared.constants.TheConstants.{DW_AT_low_pc};
ghost use Rattle.dw_read.specs.Took.{option_of};
ghost use Rattle.dw_read.specs.Values.{value_of};
ghost use Rattle.dw_read_units.specs.Roots.{named_in, last_value, later, base_or, base_of};
ghost use Rattle.dw_read_units.specs.Roots.{program_in, id_in, first_part};
ghost use Rattle.dw_read_units.specs.RootFields.{bases_of, IsLowPc, MissesLowPc};

use crate::lookup::indexed_address;
use dw_base::constants::{
    DW_AT_GNU_addr_base, DW_AT_GNU_dwo_id, DW_AT_GNU_ranges_base, DW_AT_addr_base,
    DW_AT_loclists_base, DW_AT_low_pc, DW_AT_rnglists_base, DW_AT_stmt_list,
    DW_AT_str_offsets_base, DW_UT_split_compile,
};
use dw_base::{DebugLineOffset, DwAt, DwoId, Format};
use dw_read::{Attribute, AttributeValue, ReadResult, Reader, UnitHeader};

/// The value of the last attribute that has one of two names.
pub(crate) fn last_value<R: Reader>(
    attrs: &[Attribute<R>],
    name: DwAt,
    other: DwAt,
) -> Option<AttributeValue<R>>
    ensures { option_of (value_of R.reading) result
        ≡ last_value name.0 other.0 (map (named_in R.reading) attrs.now) }
{
    let mut found = None;
    for attribute in attrs {
        found = later(found, attribute, name, other);
    }
    found
}

/// The value of an attribute that has one of two names, or the one that was found before it.
fn later<R: Reader>(
    found: Option<AttributeValue<R>>,
    attribute: &Attribute<R>,
    name: DwAt,
    other: DwAt,
) -> Option<AttributeValue<R>>
    ensures { option_of (value_of R.reading) result ≡ later name.0 other.0
        (option_of (value_of R.reading) found) (named_in R.reading attribute.now) }
{
    if attribute.name().0 == name.0 || attribute.name().0 == other.0 {
        Some(attribute.value())
    } else {
        found
    }
}

/// The place in a section that the root names, or another where it names none.
fn base_or<R: Reader>(attrs: &[Attribute<R>], name: DwAt, other: DwAt, missing: usize) -> usize
    ensures { result ≡ base_or missing
        (last_value name.0 other.0 (map (named_in R.reading) attrs.now)) }
{
    match last_value(attrs, name, other) {
        Some(AttributeValue::SecOffset(place)) => place,
        _ => missing,
    }
}

/// The place in a section that the root names under one name or under an older one of the same
/// meaning: what has another form under the one hides no place under the other.
fn base_of<R: Reader>(attrs: &[Attribute<R>], name: DwAt, older: DwAt, missing: usize) -> usize
    ensures { result ≡ base_of missing name.0 older.0 (map (named_in R.reading) attrs.now) }
{
    let older_place = base_or(attrs, older, older, missing);
    let place = base_or(attrs, name, name, older_place);
    base_or(attrs, name, older, place)
}

/// The line program that the root names.
pub(crate) fn line_program<R: Reader>(attrs: &[Attribute<R>]) -> Option<DebugLineOffset>
    ensures { result ≡ program_in (map (named_in R.reading) attrs.now) }
{
    match last_value(attrs, DW_AT_stmt_list, DW_AT_stmt_list) {
        Some(AttributeValue::DebugLineRef(place)) => Some(place),
        _ => None,
    }
}

/// The id that the root has below version 5.
pub(crate) fn old_id<R: Reader>(attrs: &[Attribute<R>]) -> Option<DwoId>
    ensures { result ≡ id_in (map (named_in R.reading) attrs.now) }
{
    match last_value(attrs, DW_AT_GNU_dwo_id, DW_AT_GNU_dwo_id) {
        Some(AttributeValue::DwoId(id)) => Some(id),
        _ => None,
    }
}

/// Where the parts of other sections begin that belong to a unit.
#[derive(Clone, Copy)]
pub(crate) struct Bases {
    pub(crate) str_offsets: usize,
    pub(crate) addr: usize,
    pub(crate) loclists: usize,
    pub(crate) rnglists: usize,
}

/// The bases that the root names. A split compile unit needs none: its parts are the first.
pub(crate) fn root_bases<R: Reader>(header: &UnitHeader<R>, attrs: &[Attribute<R>]) -> Bases
    ensures { result ≡ bases_of header.now (map (named_in R.reading) attrs.now) }
{
    let is_split = header.unit_type().0 == DW_UT_split_compile.0;
    let format = header.encoding().format;
    let offsets = first_part(is_split, format, 8, 16);
    let lists = first_part(is_split, format, 12, 20);
    Bases {
        str_offsets: base_or(
            attrs,
            DW_AT_str_offsets_base,
            DW_AT_str_offsets_base,
            offsets,
        ),
        addr: base_of(attrs, DW_AT_addr_base, DW_AT_GNU_addr_base, 0),
        loclists: base_or(attrs, DW_AT_loclists_base, DW_AT_loclists_base, lists),
        rnglists: base_of(attrs, DW_AT_rnglists_base, DW_AT_GNU_ranges_base, lists),
    }
}

/// Where a split unit's part begins, which is the first: behind the header of the section.
fn first_part(is_split: bool, format: Format, short: usize, long: usize) -> usize
    ensures { result ≡ first_part is_split format short long }
{
    if !is_split {
        return 0;
    }
    match format {
        Format::Dwarf32 => short,
        Format::Dwarf64 => long,
    }
}

/// The address of the root's `DW_AT_low_pc`, through an index too.
pub(crate) fn low_pc<R: Reader>(
    addresses: &R,
    base: usize,
    size: u8,
    attrs: &[Attribute<R>],
) -> ReadResult<u64>
    ensures ok { IfOk result (IsLowPc (R.reading addresses.now) base size
        (last_value DW_AT_low_pc.0 DW_AT_low_pc.0 (map (named_in R.reading) attrs.now))) }
    ensures err { IfErr result (MissesLowPc (R.reading addresses.now) base size
        (last_value DW_AT_low_pc.0 DW_AT_low_pc.0 (map (named_in R.reading) attrs.now))) }
{
    match last_value(attrs, DW_AT_low_pc, DW_AT_low_pc) {
        Some(AttributeValue::Addr(address)) => Ok(address),
        Some(AttributeValue::DebugAddrIndex(index)) => {
            let address = indexed_address(addresses, base, index, size)?;
            Ok(address)
        }
        _ => Ok(0),
    }
}
