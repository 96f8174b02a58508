//! The ends of a program: where its input comes from, where its text goes, the lines of its input,
//! and listings of sections, which are written, read whole, and handed out as readers.
#![tactic(auto)]

mod digits;
mod fields;
mod hex_bytes;
mod line;
mod line_error;
mod listing;
mod listing_reader;
mod pieces;
mod reason;
mod section_readers;
mod sink;
mod source;
mod text_lines;
mod told_status;
mod transfer;
mod whole_listing;

pub use digits::{digit_in_base, number};
pub use fields::{expect_end, line_fields, next_byte_order, next_field, next_u64};
pub use hex_bytes::HexBytes;
pub use line_error::LineError;
pub use listing::{listing_text, push_section};
pub use listing_reader::{Listing, ListingReader};
pub use pieces::Pieces;
pub use reason::Reason;
pub use section_readers::read_sections;
pub use sink::{FailingSink, Sink, SinkError, StdoutSink, VecSink};
pub use source::{Failed, FailingSource, SliceSource, Source, StdinSource};
pub use text_lines::{TextLines, lines};
pub use told_status::{status_line, tell_status};
pub use transfer::{EndError, INPUT_LIMIT, read_all, write_all};
pub use whole_listing::{ListingError, read_listing};
