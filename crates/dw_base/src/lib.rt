//! What every other crate of the workspace speaks of: encodings, the standard's constants, ids,
//! offsets and errors. The grammar of `.debug_info` and `.debug_abbrev` stands in `specs/`.
#![tactic(auto)]

mod address;
mod common;
pub mod constants;
mod endianity;
mod error;
mod faults;
mod ids;
mod leb128;
mod offsets;
mod section_id;

pub use address::{Address, DebugInfoRef, Reference};
pub use common::{Encoding, Format, LineEncoding, Register};
pub use constants::{
    DwAccess, DwAddr, DwAt, DwAte, DwCc, DwCfa, DwDs, DwEhPe, DwEnd, DwForm, DwId, DwInl, DwLang,
    DwLle, DwLnct, DwLne, DwLns, DwOp, DwOrd, DwRle, DwTag, DwUt, DwVirtuality, DwVis,
};
pub use endianity::{BigEndian, Endianity, LittleEndian, RunTimeEndian};
pub use error::{Error, Result};
pub use faults::{FaultPlan, one_fault_more};
pub use ids::{
    CieId, DirectoryId, FileId, LineStringId, LocationListId, RangeListId, StringId, UnitEntryId,
    UnitId,
};
pub use leb128::{sleb128_size, uleb128_size};
pub use offsets::{
    DebugAbbrevOffset, DebugFrameOffset, DebugInfoOffset, DebugLineOffset, DebugLineStrOffset,
    DebugMacinfoOffset, DebugMacroOffset, DebugStrOffset, DebugTypeSignature, DwoId, EhFrameOffset,
    LocationListsOffset, RangeListsOffset, UnitOffset, UnitSectionOffset,
};
pub use section_id::SectionId;
