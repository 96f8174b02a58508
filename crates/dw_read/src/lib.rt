//! Reads `.debug_info` and the sections beside it: numbers, texts and parts of a section, by the
//! grammar of `dw_base`. Readers hand out parts of the section without copying them.
#![tactic(auto)]

mod abbreviation;
mod abbreviations;
mod attribute;
mod attribute_value;
mod attributes;
mod declaration;
mod endian_slice;
mod entries;
mod entry;
mod error;
mod fields;
mod form_value;
mod header;
mod kind;
mod leb128;
mod number;
mod operand;
mod reader;
mod text;
mod unit_header;
mod value;

pub use abbreviation::{Abbreviation, AttributeSpecification};
pub use abbreviations::Abbreviations;
pub use attribute::Attribute;
pub use endian_slice::EndianSlice;
pub use entries::EntriesRaw;
pub use entry::DebuggingInformationEntry;
pub use error::{ReadError, ReadResult};
pub use form_value::read_value;
pub use reader::Reader;
pub use unit_header::{UnitHeader, UnitHeadersIter};
pub use value::{AttributeValue, Expression};
