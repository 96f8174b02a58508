//! How a line program of version 5 describes its directories or files (DWARF 5, 6.2.4).

use crate::encoding::EntryEncoding;
use dw_read::Reader;

/// The parts of entries.
#[derive(Drop)]
pub(crate) struct Description<R: Reader> {
    pub(crate) encoding: EntryEncoding,
    /// What each part tells, and its form.
    pub(crate) formats: R,
    pub(crate) format_count: u8,
}
