//! Writers of sections, with their calls for bytes, numbers, offsets and addresses, a writer into
//! memory, the sections of a file, and lists of bytes that values own.
#![tactic(auto)]

mod bytes;
mod endian_vec;
mod fault_vec;
mod fixup;
mod leb128;
mod number;
mod pointer;
mod reloc_vec;
mod relocate;
mod section;
mod sections;
mod writer;

pub use bytes::Bytes;
pub use endian_vec::EndianVec;
pub use fault_vec::FaultVec;
pub use fixup::{DebugInfoFixup, FixupList};
pub use reloc_vec::RelocVec;
pub use relocate::{RelocateWriter, Relocation, RelocationTarget};
pub use section::{
    DebugAbbrev, DebugFrame, DebugInfo, DebugLine, DebugLineStr, DebugLoc, DebugLocLists,
    DebugRanges, DebugRngLists, DebugStr, EhFrame, Section,
};
pub use sections::Sections;
pub use writer::Writer;
