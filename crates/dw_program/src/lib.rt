//! The program `dwarf_build`, over any words, source and sink: it builds DWARF from a script, one
//! file or several that are linked, or converts that of a listing, and lists it; or generates it,
//! and tells how much it is.
#![tactic(auto)]

mod answer;
mod command;
mod convert;
mod link;
pub mod run;
mod status;
mod summary;
mod write;

pub use crate::answer::{Answer, Stop, answer_dwarf, answer_refusal, answer_with};
pub use crate::convert::{answer_convert_refusal, constant};
pub use crate::status::Status;
pub use dw_ends::{
    EndError, Failed, FailingSink, FailingSource, LineError, Listing, ListingReader, Reason, Sink,
    SinkError, SliceSource, Source, StdinSource, StdoutSink, VecSink, listing_text, number,
    read_all, write_all,
};
