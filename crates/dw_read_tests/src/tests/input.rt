//! What bytes are read as, and how that ends.

use crate::tests::lines::{next_entry, program};
use crate::tests::lists::{END, next_location, next_range};
use crate::tests::operations::{next_operation, operations};
use crate::tests::sections::{Bytes, NONE, Slice, little};
use crate::tests::trees::rows_of;
use crate::tests::unit_headers::next_header;
use dw_base::{Encoding, RunTimeEndian};
use dw_read::{Abbreviations, ReadResult, Reader, UnitHeadersIter};
use dw_read_frames::{CfiEntriesIter, DebugFrame, EhFrame, UnwindSection};
use dw_read_lines::FileEntryIter;
use dw_sources::{OperationIter, RawLocListIter, RawRngListIter};
use std::alloc::Global;

/// What bytes are read as. Addresses have 4 bytes where no header tells it.
#[derive(Clone, Copy)]
pub(crate) enum Input {
    /// `.debug_info` as far as the headers of its units.
    Headers,
    /// A table of declarations.
    Declarations,
    /// `.debug_info` beside a table.
    Entries(&'static [u8]),
    /// `.debug_abbrev` beside units.
    Tables(&'static [u8]),
    DebugFrame,
    EhFrame,
    /// A line program.
    Lines,
    /// The directories of a line program.
    Directories,
    Ranges,
    Locations,
    Operations,
}

/// What is read item by item.
pub(crate) trait Items {
    /// Whether there is an item.
    fn passes(&mut self) -> ReadResult<bool>;
}

impl Items for UnitHeadersIter<Slice<'_>> {
    fn passes(&mut self) -> ReadResult<bool> {
        match next_header(self) {
            Ok(header) => Ok(header.is_some()),
            Err(reason) => Err(reason),
        }
    }
}

impl Items for CfiEntriesIter<Slice<'_>> {
    fn passes(&mut self) -> ReadResult<bool> {
        match self.next() {
            Ok(item) => Ok(item.is_some()),
            Err(reason) => Err(reason),
        }
    }
}

impl Items for FileEntryIter<Slice<'_>> {
    fn passes(&mut self) -> ReadResult<bool> {
        match next_entry(self) {
            Ok(entry) => Ok(entry.is_some()),
            Err(reason) => Err(reason),
        }
    }
}

impl Items for RawRngListIter<Slice<'_>> {
    fn passes(&mut self) -> ReadResult<bool> {
        match next_range(self) {
            Ok(item) => Ok(item != END),
            Err(reason) => Err(reason),
        }
    }
}

impl Items for RawLocListIter<Slice<'_>> {
    fn passes(&mut self) -> ReadResult<bool> {
        match next_location(self) {
            Ok(item) => Ok(item != END),
            Err(reason) => Err(reason),
        }
    }
}

impl Items for OperationIter<Slice<'_>> {
    fn passes(&mut self) -> ReadResult<bool> {
        match next_operation(self) {
            Ok(operation) => Ok(operation.is_some()),
            Err(reason) => Err(reason),
        }
    }
}

/// How items end: why one is refused, where there is none behind it, or true, where they end after
/// at most so many.
fn end_of<I: Items>(items: &mut I, most: usize) -> ReadResult<bool> {
    for _ in 0..=most {
        match items.passes() {
            Ok(true) => {}
            Ok(false) => return Ok(true),
            Err(reason) if items.passes() == Ok(false) => return Err(reason),
            Err(_) => return Ok(false),
        }
    }
    Ok(false)
}

/// How reading the bytes ends: why they are refused, or true. False tells that an iterator went on
/// behind an error or past so many items as there are bytes, or that a refused table was passed.
pub(crate) fn ending(
    alloc: Global,
    input: Input,
    encoding: Encoding,
    bytes: &[u8],
) -> ReadResult<bool> {
    match input {
        Input::Headers => end_of(&mut UnitHeadersIter::new(little(bytes)), bytes.len()),
        Input::Declarations => table_end(alloc, bytes),
        Input::Entries(abbrev) => units_end(alloc, bytes, abbrev),
        Input::Tables(info) => units_end(alloc, info, bytes),
        Input::Lines => line_end(bytes),
        Input::Directories => directories_end(bytes),
        Input::DebugFrame | Input::EhFrame => frames_end(input, bytes),
        Input::Ranges | Input::Locations | Input::Operations => {
            items_end(input, encoding, bytes)
        }
    }
}

fn table_end(alloc: Global, bytes: &[u8]) -> ReadResult<bool> {
    let mut input = little(bytes);
    match Abbreviations::parse(alloc, &mut input) {
        Ok(_) => Ok(true),
        Err(reason) if input.place() == 0 => Err(reason),
        Err(_) => Ok(false),
    }
}

pub(crate) fn units_end<'a>(alloc: Global, info: &'a [u8], abbrev: &'a [u8]) -> ReadResult<bool> {
    let bytes = Bytes {
        info,
        abbrev,
        ..NONE
    };
    match rows_of(alloc, &bytes) {
        Ok(_) => Ok(true),
        Err(reason) => Err(reason),
    }
}

fn line_end(bytes: &[u8]) -> ReadResult<bool> {
    match program(bytes, 0) {
        Ok(_) => Ok(true),
        Err(reason) => Err(reason),
    }
}

fn directories_end(bytes: &[u8]) -> ReadResult<bool> {
    match program(bytes, 0) {
        Ok(program) => match program.header().include_directories() {
            Ok(mut directories) => end_of(&mut directories, bytes.len()),
            Err(reason) => Err(reason),
        },
        Err(reason) => Err(reason),
    }
}

fn frames_end(input: Input, bytes: &[u8]) -> ReadResult<bool> {
    let section = little(bytes);
    let mut entries = match input {
        Input::EhFrame => EhFrame::new(section, 4).entries(),
        _ => DebugFrame::new(section, 4).entries(),
    };
    end_of(&mut entries, bytes.len())
}

fn items_end(input: Input, encoding: Encoding, bytes: &[u8]) -> ReadResult<bool> {
    let section = little(bytes);
    match input {
        Input::Ranges => end_of(&mut RawRngListIter::new(section, encoding), bytes.len()),
        Input::Locations => end_of(&mut RawLocListIter::new(section, encoding), bytes.len()),
        _ => {
            let mut items = operations(bytes, RunTimeEndian::Little, encoding);
            end_of(&mut items, bytes.len())
        }
    }
}
