//! Sections, the references that are fixed up in them, and lists of bytes.

use crate::trials::{Kind, Trial};
use crate::writer_calls::Call::{Offset, U8, U8At};
use crate::writer_calls::{Answered, FAULT, Held, answers};
use dw_base::RunTimeEndian::Little;
use dw_base::{Error, Result, SectionId, UnitEntryId, UnitId};
use dw_writer::{
    Bytes, DebugInfoFixup, FixupList, Relocation, RelocationTarget, Section, Sections, Writer,
};
use std::alloc::Global;

/// The sections that are written, in their order.
const WRITTEN: [SectionId; 11] = [
    SectionId::DebugAbbrev,
    SectionId::DebugStr,
    SectionId::DebugLineStr,
    SectionId::DebugLine,
    SectionId::DebugRanges,
    SectionId::DebugRngLists,
    SectionId::DebugLoc,
    SectionId::DebugLocLists,
    SectionId::DebugInfo,
    SectionId::DebugFrame,
    SectionId::EhFrame,
];

/// Their names in an ELF file.
const NAMES: [&str; 11] = [
    ".debug_abbrev",
    ".debug_str",
    ".debug_line_str",
    ".debug_line",
    ".debug_ranges",
    ".debug_rnglists",
    ".debug_loc",
    ".debug_loclists",
    ".debug_info",
    ".debug_frame",
    ".eh_frame",
];

/// Writes the number of a section, so often as that tells.
fn fill_one<W: Writer>(section: Option<&mut W>, id: SectionId) -> Result<()> {
    let own = [id as u8; 16];
    match section {
        Some(section) => section.write(own.get(..id as usize).unwrap_or(&[])),
        None => Ok(()),
    }
}

/// Gives each section its number: sections of different lengths.
fn fill<W: Writer>(sections: &mut Sections<W>) -> Result<()> {
    for id in WRITTEN {
        fill_one(sections.get_mut(id), id)?;
    }
    Ok(())
}

/// The first section that isn't filled, or of those before `visited` not with one byte more.
fn first_not_filled<W: Writer + Held>(sections: &Sections<W>, visited: usize) -> Option<SectionId> {
    for (i, id) in WRITTEN.iter().enumerate() {
        let own = [*id as u8; 16];
        let more = usize::from(i < visited);
        match sections.get(*id) {
            Some(section) if Some(section.bytes()) == own.get(..*id as usize + more) => {}
            _ => return Some(*id),
        }
    }
    None
}

fn fixup_at(offset: usize) -> DebugInfoFixup {
    DebugInfoFixup {
        offset,
        size: 4,
        unit: UnitId(0),
        entry: UnitEntryId(2),
    }
}

const INFO_PLACES: &[usize] = &[0, 1, 2, 3];

const LOC_PLACES: &[usize] = &[10, 11, 12, 13, 14];

const LOCLISTS_PLACES: &[usize] = &[20, 21, 22, 23, 24, 25];

/// Adds fixups at these places.
fn add_fixups(list: &mut FixupList, places: &[usize]) -> Result<()> {
    for place in places {
        list.push(fixup_at(*place))?;
    }
    Ok(())
}

/// Adds fixups to each list.
fn add_each_fixup<W: Writer>(sections: &mut Sections<W>) -> Result<()> {
    add_fixups(&mut sections.debug_info_fixups, INFO_PLACES)?;
    add_fixups(&mut sections.debug_loc_fixups, LOC_PLACES)?;
    add_fixups(&mut sections.debug_loclists_fixups, LOCLISTS_PLACES)
}

/// Tells that a list has fixups at these places, and no others.
fn has_fixups(list: &FixupList, places: &[usize]) -> bool {
    for (i, place) in places.iter().enumerate() {
        if list.get(i) != Some(fixup_at(*place)) {
            return false;
        }
    }
    list.len() == places.len()
}

/// Tells that each list has these fixups.
fn has_each_fixup<W: Writer>(sections: &Sections<W>) -> bool {
    has_fixups(&sections.debug_info_fixups, INFO_PLACES)
        && has_fixups(&sections.debug_loc_fixups, LOC_PLACES)
        && has_fixups(&sections.debug_loclists_fixups, LOCLISTS_PLACES)
}

/// Adds the number of each section to it, up to the one at which it fails.
fn visit_up_to<W: Writer>(sections: &mut Sections<W>, last: Option<SectionId>) -> Result<()> {
    sections.for_each_mut(|id, section| {
        if Some(id) == last {
            Err(Error::WriteFault)
        } else {
            section.write_u8(id as u8)
        }
    })
}

/// Tells that a visit of filled sections that fails at the one of this index leaves the others. No
/// clause can say what a section holds after the loan that a visit was given.
fn visits_up_to<W: Writer + Held>(sections: &mut Sections<W>, index: usize) -> bool {
    let is_filled = fill(sections).is_ok() && add_each_fixup(sections).is_ok();
    let last = WRITTEN.get(index).copied();
    let answer = visit_up_to(sections, last);
    let is_told = answer == if last.is_some() { FAULT } else { Ok(()) };
    is_filled && is_told && first_not_filled(sections, index).is_none() && has_each_fixup(sections)
}

/// Whether a section has the name of one at this place.
fn is_named(id: SectionId, place: usize) -> bool {
    match NAMES.get(place) {
        Some(name) => *name == id.name(),
        None => false,
    }
}

/// Tells that sections are looked at in their order, and that a look at one fails where it should.
fn looks_up_to<W: Writer>(sections: &Sections<W>, last: Option<SectionId>, wanted: usize) -> bool {
    let mut count = 0usize;
    let answer = sections.for_each(|id, section| {
        let is_next = is_named(id, count) && section.len() == 0;
        count = count.saturating_add(1);
        if is_next && Some(id) != last {
            Ok(())
        } else {
            Err(Error::WriteFault)
        }
    });
    let is_told = answer == if last.is_some() { FAULT } else { Ok(()) };
    is_told && count == wanted
}

/// What the sections are, by their types.
fn ids_of<W: Writer>(sections: &Sections<W>) -> [SectionId; 11] {
    [
        sections.debug_abbrev.id(),
        sections.debug_str.id(),
        sections.debug_line_str.id(),
        sections.debug_line.id(),
        sections.debug_ranges.id(),
        sections.debug_rnglists.id(),
        sections.debug_loc.id(),
        sections.debug_loclists.id(),
        sections.debug_info.id(),
        sections.debug_frame.id(),
        sections.eh_frame.id(),
    ]
}

/// What new sections are tried for.
#[derive(Drop)]
pub enum OfSections {
    /// They are those that are written, by their types.
    Written,
    Visit(usize),
    Look(Option<SectionId>, usize),
    /// What `.debug_line` and then `.debug_loc` answer.
    Answers(Answered, Answered),
}

/// Tells that new sections pass a trial.
pub fn sections_pass<W: Writer + Held>(sections: &mut Sections<W>, trial: &OfSections) -> bool {
    match trial {
        OfSections::Written => ids_of(sections) == WRITTEN,
        OfSections::Visit(index) => visits_up_to(sections, *index),
        OfSections::Look(last, count) => looks_up_to(sections, *last, *count),
        OfSections::Answers(line, loc) => {
            answers(sections.debug_line.section_mut(), line)
                && answers(sections.debug_loc.section_mut(), loc)
        }
    }
}

const RECORD: Relocation = Relocation {
    offset: 0,
    size: 4,
    target: RelocationTarget::Section(SectionId::DebugAbbrev),
    addend: 5,
    eh_pe: None,
};

/// A kind of writers, and what sections of it are tried for.
const TRIALS: &[(Kind, Trial)] = &[
    (Kind::Little, Trial::Sections(OfSections::Written)),
    (Kind::Little, Trial::Sections(OfSections::Look(None, 11))),
    (
        Kind::Little,
        Trial::Sections(OfSections::Look(Some(SectionId::DebugLine), 4)),
    ),
    (Kind::Little, Trial::Sections(OfSections::Visit(0))),
    (Kind::Little, Trial::Sections(OfSections::Visit(1))),
    (Kind::Little, Trial::Sections(OfSections::Visit(2))),
    (Kind::Little, Trial::Sections(OfSections::Visit(3))),
    (Kind::Little, Trial::Sections(OfSections::Visit(4))),
    (Kind::Little, Trial::Sections(OfSections::Visit(5))),
    (Kind::Little, Trial::Sections(OfSections::Visit(6))),
    (Kind::Little, Trial::Sections(OfSections::Visit(7))),
    (Kind::Little, Trial::Sections(OfSections::Visit(8))),
    (Kind::Little, Trial::Sections(OfSections::Visit(9))),
    (Kind::Little, Trial::Sections(OfSections::Visit(10))),
    (Kind::Little, Trial::Sections(OfSections::Visit(11))),
    // The other section has no byte to be patched.
    (
        Kind::Relocating(Little),
        Trial::Sections(OfSections::Answers(
            Answered {
                calls: &[
                    (Offset(5, SectionId::DebugAbbrev, 4), Ok(())),
                    (U8(8), Ok(())),
                ],
                bytes: b"\0\0\0\0\x08",
                records: &[RECORD],
            },
            Answered {
                calls: &[(U8At(0, 1), Err(Error::LengthOutOfBounds))],
                bytes: b"",
                records: &[],
            },
        )),
    ),
    // Each section counts its own calls, of which the second one that writes fails.
    (
        Kind::Failing(Little, &[1]),
        Trial::Sections(OfSections::Answers(
            Answered {
                calls: &[(U8(1), Ok(())), (U8(2), FAULT)],
                bytes: b"\x01",
                records: &[],
            },
            Answered {
                calls: &[(U8(3), Ok(()))],
                bytes: b"\x03",
                records: &[],
            },
        )),
    ),
];

/// The table, into which no other proof looks.
pub fn trials() -> &'static [(Kind, Trial)] {
    TRIALS
}

/// Tells that a copy of a copy of bytes holds them.
fn copies(alloc: Global, bytes: &[u8]) -> Result<bool> {
    let copy = Bytes::new(alloc, bytes)?.try_clone()?;
    Ok(copy.slice() == bytes)
}

#[test]
fn copies_bytes(rt: HostRuntime) {
    assert_eq!(rt; copies(rt.alloc(), b"abc"), Ok(true));
}
