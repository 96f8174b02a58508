//! Sections, their units and what units lead to, read.

pub use dw_entry_ids::{
    EntryIds, Kept, KeptRows, NumberedUnit, NumberedUnits, UnitRows, first_units, number_kept,
    number_units,
};
pub use dw_entry_ranges::{
    AddressRange, CodeAddresses, LiveRange, LiveRanges, entry_ranges, list_ranges,
    location_address, low_high, ranges_at, required_entries,
};
pub use dw_read::{
    Abbreviation, Abbreviations, Attribute, AttributeSpecification, AttributeValue,
    DebuggingInformationEntry, EndianSlice, EntriesRaw, Expression, ReadError, ReadResult, Reader,
    UnitHeader, UnitHeadersIter, read_value,
};
pub use dw_read_lines::{
    FileEntry, FileEntryFormat, FileEntryFormatIter, FileEntryIter, IncompleteLineProgram,
    LineInstruction, LineInstructions, LineProgramHeader,
};
pub use dw_read_units::{Dwarf, Unit, UnitRef};
pub use dw_sources::{
    Operation, OperationIter, RawLocListEntry, RawLocListIter, RawRngListEntry, RawRngListIter,
    raw_locations, raw_ranges,
};
