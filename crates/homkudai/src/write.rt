//! Units, their parts and whole files, built and written.

pub use dw_abbrev::{Abbreviation, AbbreviationTable, AttributeSpecification};
pub use dw_arange_table::{ArangeSet, ArangeTable, RangeDescriptor};
pub use dw_base::{
    Address, DebugInfoRef, DirectoryId, Error, FaultPlan, FileId, LineStringId, LocationListId,
    RangeListId, Reference, Result, StringId, UnitEntryId, UnitId,
};
pub use dw_dwarf::{Dwarf, DwarfUnit};
pub use dw_entries::{
    AttrMut, Attribute, AttributeValue, AttributeWalk, AttrsMut, DebuggingInformationEntry,
};
pub use dw_expr::{EntryPlaces, Expression, Operation};
pub use dw_line::{FileInfo, LineProgram, LineRow, LineString};
pub use dw_lists::{
    Location, LocationList, LocationListOffsets, LocationListTable, Range, RangeList,
    RangeListOffsets, RangeListTable,
};
pub use dw_strings::{LineStringTable, StringTable};
pub use dw_unit::{EntryMut, Unit, UnitIter, UnitOffsets, UnitTable};
pub use dw_writer::{
    Bytes, DebugAbbrev, DebugFrame, DebugInfo, DebugInfoFixup, DebugLine, DebugLineStr, DebugLoc,
    DebugLocLists, DebugRanges, DebugRngLists, DebugStr, EhFrame, EndianVec, FaultVec, FixupList,
    RelocVec, RelocateWriter, Relocation, RelocationTarget, Section, Sections, Writer,
};
