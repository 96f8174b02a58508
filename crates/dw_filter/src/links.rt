//! What an entry that is read adds to the graph of known entries.

ghost use Rattle.std.specs.Prelude.{◌≡◌, ◌⊎◌, ◌+◌, ◌<◌, ◌^◌, [], OnOk, IfOk, IfErr, IfSome};
ghost use Rattle.std.specs.List.{Contains};
ghost use Rattle.dw_sources.specs.declared.convert_error.ConvertError.TheVariants.{NoMemory};
ghost use Rattle.dw_filter.specs.AttributePlaces.{AddsAttributes};
ghost use Rattle.dw_filter.specs.Dependencies.{Known, Leads, targets};
ghost use Rattle.dw_filter.specs.Links.{Grows, Adds, AreLinks, RefusesLinks, counting_of, is_led_to, parent_at};

use crate::attribute_places::add_entry_places;
use crate::children::leads_to_child;
use crate::dependencies::FilterDependencies;
use dw_base::{DwTag, UnitEntryId, UnitSectionOffset};
use dw_read::{DebuggingInformationEntry, Reader};
use dw_read_units::UnitRef;
use dw_sources::{ConvertResult, is_left_out};
use std::alloc::Global;

/// An entry, as those under it see it.
#[derive(Clone, Copy)]
pub(crate) struct Parent {
    pub place: UnitSectionOffset,
    pub tag: DwTag,
}

/// Where an entry begins and leads.
#[derive(Drop)]
pub(crate) struct Links {
    pub place: UnitSectionOffset,
    /// Its parent, unless that is the root.
    pub parent: Option<UnitSectionOffset>,
    /// Whether its parent leads to it.
    pub is_led_to: bool,
    /// What its attributes name.
    pub named: Vec<UnitSectionOffset>,
}

/// An entry of a unit as those under it see it.
pub(crate) fn as_parent<R: Reader>(
    unit: UnitRef<'_, R>,
    entry: &DebuggingInformationEntry<R>,
) -> Parent
    requires { unit.unit.now.header.offset.0 + entry.now.offset.0 < 2 ^ 64 }
    ensures place { result.place.0 ≡ unit.entry.unit.now.header.offset.0 + entry.now.offset.0 }
    ensures tag { result.tag ≡ entry.now.tag }
{
    Parent {
        place: UnitSectionOffset(unit.unit.header.offset().0 + entry.offset.0),
        tag: entry.tag,
    }
}

/// The parent with a number, of the entries of a unit that were read; the root counts as none.
pub(crate) fn parent_at(read: &[Parent], parent: UnitEntryId) -> Option<Parent>
    ensures { result ≡ parent_at read.now parent.0 }
{
    if parent.index() == 0 {
        return None;
    }
    read.get(parent.index()).copied()
}

/// The links of an entry of a unit, which loses the attributes that conversions leave out: what a
/// sibling attribute names isn't needed.
pub(crate) fn links_of<R: Reader>(
    alloc: Global,
    unit: UnitRef<'_, R>,
    entry: &mut DebuggingInformationEntry<R>,
    place: UnitSectionOffset,
    parent: Option<Parent>,
) -> ConvertResult<Links>
    ensures ok { IfOk result (AreLinks R.reading unit.entry entry.old place parent) }
    ensures err { IfErr result (λ e. (e ≡ NoMemory) ⊎
        RefusesLinks R.reading unit.entry entry.old e) }
{
    let is_led_to = is_led_to(entry, parent);
    let named = named_places(alloc, unit, entry)?;
    Ok(Links {
        place,
        parent: parent.map(|parent| parent.place),
        is_led_to,
        named,
    })
}

/// Whether there is a parent that leads to an entry.
fn is_led_to<R: Reader>(entry: &DebuggingInformationEntry<R>, parent: Option<Parent>) -> bool
    ensures { result ≡ is_led_to R.reading entry.now parent }
{
    match parent {
        Some(parent) => leads_to_child(parent.tag, entry),
        None => false,
    }
}

/// The places of the entries that the attributes of an entry name.
fn named_places<R: Reader>(
    alloc: Global,
    unit: UnitRef<'_, R>,
    entry: &mut DebuggingInformationEntry<R>,
) -> ConvertResult<Vec<UnitSectionOffset>>
    ensures ok { IfOk result (λ v. AddsAttributes R.reading unit.entry
        (counting_of R.reading entry.old) [] v.items) }
    ensures err { IfErr result (λ e. (e ≡ NoMemory) ⊎
        RefusesLinks R.reading unit.entry entry.old e) }
{
    entry
        .attrs
        .retain(|attribute| !is_left_out(attribute.name()));
    // Room for a type and for the parent, which most entries lead to and no more.
    let mut places = Vec::with_capacity(alloc, 2)?;
    add_entry_places(alloc, unit, &entry.attrs, &mut places)?;
    Ok(places)
}

/// Makes an entry known, with the edges from it and from its parent to it.
pub(crate) fn add_links(dependencies: &mut FilterDependencies, links: Links) -> ConvertResult<()>
    requires { IfSome links.parent (λ p. Known (targets dependencies.old) p) }
    ensures ok { OnOk result
        (Grows dependencies.old dependencies.new (λ q. links.place ≡ q) (Adds links)) }
    ensures err { IfErr result (λ e. e ≡ NoMemory) }
{
    let place = links.place;
    let mut leads = links.named;
    match links.parent {
        None => add_known(dependencies, place, leads),
        Some(parent) => {
            leads.push(parent)?;
            add_known(dependencies, place, leads)?;
            if !links.is_led_to {
                return Ok(());
            }
            dependencies.add_edge(parent, place)
        }
    }
}

/// Makes an entry known and lets it lead to others, beside those to which it leads already where
/// another unit has an entry at its place.
fn add_known(
    dependencies: &mut FilterDependencies,
    place: UnitSectionOffset,
    leads: Vec<UnitSectionOffset>,
) -> ConvertResult<()>
    ensures ok { OnOk result (Grows dependencies.old dependencies.new
        (λ q. place ≡ q) (λ p q. (p ≡ place) × Contains leads.items q)) }
    ensures err { IfErr result (λ e. e ≡ NoMemory) }
{
    match dependencies.put_entry(place, leads)? {
        None => Ok(()),
        Some(earlier) => add_edges(dependencies, place, &earlier),
    }
}

/// Lets a known entry lead to others.
fn add_edges(
    dependencies: &mut FilterDependencies,
    place: UnitSectionOffset,
    leads: &[UnitSectionOffset],
) -> ConvertResult<()>
    requires { Known (targets dependencies.old) place }
    ensures ok { OnOk result (Grows dependencies.old dependencies.new
        (λ q. place ≡ q) (λ p q. (p ≡ place) × Contains leads.now q)) }
    ensures err { IfErr result (λ e. e ≡ NoMemory) }
{
    'leads: for lead in leads {
        dependencies.add_edge(place, *lead)?;
    }
    Ok(())
}
