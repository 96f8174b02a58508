//! The join.

ghost use Rattle.std.specs.Prelude.{◌≡◌, ◌⊎◌, ℕ, List, [], true, Some, None, Err, OnOk, IfOk, IfErr, IsErrAnd, position};
ghost use Rattle.dw_writer.specs.Meaning.{Adds};
ghost use Rattle.dw_writer.specs.Sections.{AllMean, NoFixups};
ghost use Rattle.dw_link.specs.declared.error.LinkError.{LinkError};
ghost use Rattle.dw_link.specs.declared.error.LinkError.TheVariants.{NoMemory, MixedByteOrder};
ghost use Rattle.dw_dwarf.specs.DwarfValue.{DwarfValue};
ghost use Rattle.dw_link.specs.Linked.{AreLeft, LinksDwarfs};
ghost use Rattle.dw_link.specs.Sets.{parts_of, sets_of};
ghost use Rattle.dw_link.specs.Outcome.{differs, is_mixed, first_mixed, IsFaultless, IsFirstFault, LinkRefused, Joins, JoinsParts, AllInOrder};
ghost use Rattle.dw_link.specs.Steps.{layout_at, lengths_of, layout_behind, is_section, is_below, HaveSameOrders, AllHaveOrders, AreEmpty, AddsSets, SetsRefused, AddsPart, AddsThese, PartRefused, SetRefused};

use crate::error::LinkError;
use crate::relocated::{Places, relocate};
use dw_base::{Endianity, SectionId};
use dw_writer::{EndianVec, RelocVec, Sections, Writer};
use std::alloc::Global;

/// The sections that are joined, in the order of their ids.
const JOINED: [SectionId; 11] = [
    SectionId::DebugAbbrev,
    SectionId::DebugStr,
    SectionId::DebugLineStr,
    SectionId::DebugLine,
    SectionId::DebugRanges,
    SectionId::DebugRngLists,
    SectionId::DebugLoc,
    SectionId::DebugLocLists,
    SectionId::DebugInfo,
    SectionId::DebugFrame,
    SectionId::EhFrame,
];

/// Joins sets of sections, in a byte order that each of their sections has. A joined section is
/// that section of all sets, one behind another. Then the number in the place of each relocation
/// is replaced, in the order of sets, sections and relocations, by its sum with the addend and the
/// relocation's value: that of a symbol, by its number in `symbols`, or where the set's own part
/// of the named section starts. A pointer of a call frame table puts the sum in by its encoding,
/// under `DW_EH_PE_pcrel` counted from where it comes to stand (Linux Standard Base Core 5.0,
/// 10.5.1).
///
/// The first set with a section of another byte order is refused as `MixedByteOrder`, and else the
/// first relocation whose number can't be put in, by its cause.
pub fn link<E: Endianity>(
    alloc: Global,
    endian: E,
    sets: &Vec<Sections<RelocVec<E>>>,
    symbols: &Vec<u64>,
) -> Result<Sections<EndianVec<E>>, LinkError>
    ensures join { IfOk result (Joins ⟦<EndianVec<E> as Writer>⟧.meaning (E.is_big endian)
        (sets_of ⟦<RelocVec<E> as Writer>⟧.meaning sets.now.items) symbols.now.items) }
    ensures parts { IfOk result (JoinsParts ⟦<EndianVec<E> as Writer>⟧.meaning
        (sets_of ⟦<RelocVec<E> as Writer>⟧.meaning sets.now.items) symbols.now.items) }
    // Where each set is as `Dwarf::write` left it over new sections of this byte order, the joined
    // sections are those of all.
    ensures dwarfs { IfOk result (λ joined. (ds : List DwarfValue) →
        AreLeft ⟦<RelocVec<E> as Writer>⟧.meaning (E.is_big endian) sets.now.items ds →
        LinksDwarfs ⟦<RelocVec<E> as Writer>⟧.meaning ⟦<EndianVec<E> as Writer>⟧.meaning
        (E.is_big endian) sets.now.items symbols.now.items ds joined) }
    ensures order { IfOk result
        (AllInOrder ⟦<EndianVec<E> as Writer>⟧.meaning (E.is_big endian)) }
    ensures fixups { IfOk result NoFixups }
    ensures in_order { OnOk result (first_mixed (E.is_big endian)
        (sets_of ⟦<RelocVec<E> as Writer>⟧.meaning sets.now.items) ≡ None) }
    ensures faultless { OnOk result (IsFaultless
        (sets_of ⟦<RelocVec<E> as Writer>⟧.meaning sets.now.items) symbols.now.items) }

    ensures mixed { (n : ℕ) → first_mixed (E.is_big endian)
        (sets_of ⟦<RelocVec<E> as Writer>⟧.meaning sets.now.items) ≡ Some n
        → result ≡ Err (MixedByteOrder n) }
    ensures err { IfErr result (LinkRefused (E.is_big endian)
        (sets_of ⟦<RelocVec<E> as Writer>⟧.meaning sets.now.items) symbols.now.items) }
    ensures first { (error : LinkError) → first_mixed (E.is_big endian)
        (sets_of ⟦<RelocVec<E> as Writer>⟧.meaning sets.now.items) ≡ None
        → IsFirstFault (sets_of ⟦<RelocVec<E> as Writer>⟧.meaning sets.now.items) symbols.now.items
        error → IsErrAnd result (λ e. (e ≡ error) ⊎ (e ≡ NoMemory)) }
    ensures complete { first_mixed (E.is_big endian)
        (sets_of ⟦<RelocVec<E> as Writer>⟧.meaning sets.now.items) ≡ None
        → IsFaultless (sets_of ⟦<RelocVec<E> as Writer>⟧.meaning sets.now.items) symbols.now.items
        → IfErr result (λ error. error ≡ NoMemory) }
{
    let sets = sets.as_slice();
    if let Some(set) = first_mixed(sets, endian.is_big_endian()) {
        return Err(LinkError::MixedByteOrder { set });
    }
    let mut joined = new_sections(alloc, endian)?;
    add_sets(&mut joined, sets, symbols.as_slice())?;
    Ok(joined)
}

/// The first set with a section of another byte order.
fn first_mixed<E: Endianity>(sets: &[Sections<RelocVec<E>>], big: bool) -> Option<usize>
    ensures { result ≡ position
        (λ set. is_mixed big (parts_of ⟦<RelocVec<E> as Writer>⟧.meaning set)) sets.now }
{
    sets.iter().position(|set| is_mixed(set, big))
}

fn is_mixed<E: Endianity>(set: &Sections<RelocVec<E>>, big: bool) -> bool
    ensures { result ≡ is_mixed big (parts_of ⟦<RelocVec<E> as Writer>⟧.meaning set.now) }
{
    JOINED.iter().any(|section| differs(set, *section, big))
}

/// Whether a section has another byte order.
fn differs<E: Endianity>(set: &Sections<RelocVec<E>>, section: SectionId, big: bool) -> bool
    ensures { result ≡ differs big (parts_of ⟦<RelocVec<E> as Writer>⟧.meaning set.now section) }
{
    match set.get(section) {
        Some(part) => part.endian().is_big_endian() != big,
        None => false,
    }
}

fn new_sections<E: Endianity>(alloc: Global, endian: E) -> Result<Sections<EndianVec<E>>, LinkError>
    ensures writers { IfOk result (λ sections. AllMean ⟦<EndianVec<E> as Writer>⟧.meaning sections
        record {
          bytes = Some [];
          size = 0;
          is_big = E.is_big endian;
          is_plain = true;
          records = [];
          faults = 0;
        }) }
    ensures fixups { IfOk result NoFixups }
    ensures err { IfErr result (λ error. error ≡ NoMemory) }
{
    match Sections::new(alloc, EndianVec::new(alloc, endian)) {
        Ok(sections) => Ok(sections),
        Err(_) => Err(LinkError::NoMemory),
    }
}

/// Adds the sections of all sets to the joined ones, which are empty.
fn add_sets<E: Endianity>(
    joined: &mut Sections<EndianVec<E>>,
    sets: &[Sections<RelocVec<E>>],
    symbols: &[u64],
) -> Result<(), LinkError>
    requires empty { AreEmpty (parts_of ⟦<EndianVec<E> as Writer>⟧.meaning joined.old) }
    requires orders { AllHaveOrders (parts_of ⟦<EndianVec<E> as Writer>⟧.meaning joined.old)
        (sets_of ⟦<RelocVec<E> as Writer>⟧.meaning sets.now) }
    ensures ok { OnOk result (AddsSets (parts_of ⟦<EndianVec<E> as Writer>⟧.meaning joined.old)
        (parts_of ⟦<EndianVec<E> as Writer>⟧.meaning joined.new)
        (sets_of ⟦<RelocVec<E> as Writer>⟧.meaning sets.now) symbols.now) }
    ensures err { IfErr result
        (SetsRefused (sets_of ⟦<RelocVec<E> as Writer>⟧.meaning sets.now) symbols.now) }
    ensures fixups { NoFixups joined.old → NoFixups joined.new }
{
    'each: for (number, set) in sets.iter().enumerate() {
        add_set(joined, number, set, symbols)?;
    }
    Ok(())
}

/// Adds a set's sections to the joined ones.
fn add_set<E: Endianity>(
    joined: &mut Sections<EndianVec<E>>,
    number: usize,
    set: &Sections<RelocVec<E>>,
    symbols: &[u64],
) -> Result<(), LinkError>
    requires { HaveSameOrders (parts_of ⟦<EndianVec<E> as Writer>⟧.meaning joined.old)
        (parts_of ⟦<RelocVec<E> as Writer>⟧.meaning set.now) }
    ensures ok { OnOk result (AddsThese (is_below 11)
        (parts_of ⟦<EndianVec<E> as Writer>⟧.meaning joined.old)
        (parts_of ⟦<EndianVec<E> as Writer>⟧.meaning joined.new)
        (parts_of ⟦<RelocVec<E> as Writer>⟧.meaning set.now)
        (layout_behind (lengths_of (parts_of ⟦<EndianVec<E> as Writer>⟧.meaning joined.old))
        symbols.now (parts_of ⟦<EndianVec<E> as Writer>⟧.meaning joined.old))) }
    ensures err { IfErr result (SetRefused (parts_of ⟦<RelocVec<E> as Writer>⟧.meaning set.now)
        (layout_behind (lengths_of (parts_of ⟦<EndianVec<E> as Writer>⟧.meaning joined.old))
        symbols.now (parts_of ⟦<EndianVec<E> as Writer>⟧.meaning joined.old)) number) }
    ensures fixups { NoFixups joined.old → NoFixups joined.new }
{
    let places = Places {
        starts: lengths(joined),
        symbols,
    };
    'each: for section in JOINED {
        add_section(joined, number, set, section, &places)?;
    }
    Ok(())
}

/// How long the sections are.
fn lengths<E: Endianity>(sections: &Sections<EndianVec<E>>) -> [usize; 11]
    ensures { result ≡ lengths_of (parts_of ⟦<EndianVec<E> as Writer>⟧.meaning sections.now) }
{
    [
        sections.debug_abbrev.0.len(),
        sections.debug_str.0.len(),
        sections.debug_line_str.0.len(),
        sections.debug_line.0.len(),
        sections.debug_ranges.0.len(),
        sections.debug_rnglists.0.len(),
        sections.debug_loc.0.len(),
        sections.debug_loclists.0.len(),
        sections.debug_info.0.len(),
        sections.debug_frame.0.len(),
        sections.eh_frame.0.len(),
    ]
}

/// Adds a section of a set to the joined one.
fn add_section<E: Endianity>(
    joined: &mut Sections<EndianVec<E>>,
    number: usize,
    set: &Sections<RelocVec<E>>,
    section: SectionId,
    places: &Places<'_>,
) -> Result<(), LinkError>
    requires { HaveSameOrders (parts_of ⟦<EndianVec<E> as Writer>⟧.meaning joined.old)
        (parts_of ⟦<RelocVec<E> as Writer>⟧.meaning set.now) }
    ensures ok { OnOk result (AddsThese (is_section section)
        (parts_of ⟦<EndianVec<E> as Writer>⟧.meaning joined.old)
        (parts_of ⟦<EndianVec<E> as Writer>⟧.meaning joined.new)
        (parts_of ⟦<RelocVec<E> as Writer>⟧.meaning set.now)
        (layout_behind places.now.starts places.now.symbols.now
        (parts_of ⟦<EndianVec<E> as Writer>⟧.meaning joined.old))) }
    ensures err { IfErr result (PartRefused
        (parts_of ⟦<RelocVec<E> as Writer>⟧.meaning set.now section)
        (layout_behind places.now.starts places.now.symbols.now
        (parts_of ⟦<EndianVec<E> as Writer>⟧.meaning joined.old) section) number section) }
    ensures fixups { NoFixups joined.old → NoFixups joined.new }
{
    let Some(part) = set.get(section) else {
        return Ok(());
    };
    match joined.get_mut(section) {
        Some(joined) => add_part(joined, number, section, part, places),
        None => Ok(()),
    }
}

/// Adds the bytes of a set's section, and puts its relocations' numbers into them.
fn add_part<E: Endianity>(
    joined: &mut EndianVec<E>,
    number: usize,
    section: SectionId,
    part: &RelocVec<E>,
    places: &Places<'_>,
) -> Result<(), LinkError>
    requires { (⟦<RelocVec<E> as Writer>⟧.meaning part.now).is_big
        ≡ (⟦<EndianVec<E> as Writer>⟧.meaning joined.old).is_big }
    ensures ok { OnOk result (AddsPart (⟦<EndianVec<E> as Writer>⟧.meaning joined.old)
        (⟦<EndianVec<E> as Writer>⟧.meaning joined.new)
        (⟦<RelocVec<E> as Writer>⟧.meaning part.now)
        (layout_at places.now.starts places.now.symbols.now
        (⟦<EndianVec<E> as Writer>⟧.meaning joined.old).size)) }
    ensures err { IfErr result (PartRefused (Some (⟦<RelocVec<E> as Writer>⟧.meaning part.now))
        (layout_at places.now.starts places.now.symbols.now
        (⟦<EndianVec<E> as Writer>⟧.meaning joined.old).size) number section) }
{
    let start = joined.len();
    append(joined, part.slice())?;
    let relocations = part.relocations();
    'each: for (index, relocation) in relocations.iter().enumerate() {
        match relocate(joined, start, relocation, places) {
            Ok(()) => {}
            Err(fault) => return Err(fault.at(number, section, index)),
        }
    }
    Ok(())
}

/// Adds bytes; a writer into memory refuses them for want of memory alone.
fn append<E: Endianity>(joined: &mut EndianVec<E>, bytes: &[u8]) -> Result<(), LinkError>
    ensures ok { OnOk result (Adds (⟦<EndianVec<E> as Writer>⟧.meaning joined.old)
        (⟦<EndianVec<E> as Writer>⟧.meaning joined.new) bytes.now) }
    ensures err { IfErr result (λ error. error ≡ NoMemory) }
{
    match joined.write(bytes) {
        Ok(()) => Ok(()),
        Err(_) => Err(LinkError::NoMemory),
    }
}
