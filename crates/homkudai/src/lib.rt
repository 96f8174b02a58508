//! What a user of gimli looks for, under one name, laid out as its modules `write` and `read` are:
//! `write` builds and writes DWARF, `read` reads it, `convert` makes of what is read what is
//! written, `frames` has call frames of both sides, `link` joins files, and `constants` are the
//! standard's. What both sides speak of stands right here. Contracts cite the definitions of the
//! crates that the names come from; docs/ARCHITECTURE.md tells which these are.
#![tactic(auto)]

pub mod convert;
pub mod frames;
pub mod link;
pub mod read;
pub mod write;

pub use dw_base::{
    BigEndian, DebugAbbrevOffset, DebugFrameOffset, DebugInfoOffset, DebugLineOffset,
    DebugLineStrOffset, DebugMacinfoOffset, DebugMacroOffset, DebugStrOffset, DebugTypeSignature,
    DwAccess, DwAddr, DwAt, DwAte, DwCc, DwCfa, DwDs, DwEhPe, DwEnd, DwForm, DwId, DwInl, DwLang,
    DwLle, DwLnct, DwLne, DwLns, DwOp, DwOrd, DwRle, DwTag, DwUt, DwVirtuality, DwVis, DwoId,
    EhFrameOffset, Encoding, Endianity, Format, LineEncoding, LittleEndian, LocationListsOffset,
    RangeListsOffset, Register, RunTimeEndian, SectionId, UnitOffset, UnitSectionOffset, constants,
};
