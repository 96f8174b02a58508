//! A listing, read whole.

ghost use Rattle.std.specs.Prelude.{◌≡◌, ◌≤◌, length, Ok, OnOk, IfOk, IfErr};
ghost use Rattle.dw_ends.specs.Sections.{after_line, empty_listing, sections_of};
ghost use Rattle.dw_ends.specs.Listed.{IsListed, RefusedAt, RefusedWhole, refused_as};

use crate::line_error::LineError;
use crate::listing_reader::{Listing, ListingReader};
use crate::reason::Reason;
use crate::text_lines::lines;
use crate::transfer::INPUT_LIMIT;
use std::alloc::Global;
use thiserror::Error as ThisError;

/// Why a listing wasn't read.
///
/// ```
/// if let Err(ListingError::Refused { line, reason }) = read_listing(alloc, b".debug_info 2 00") {
///     println!(rt; "line {line}: {}", reason.text())?; // line 1: wrong length
/// }
/// ```
#[derive(Clone, Copy, Debug, PartialEq, Eq, ThisError)]
pub enum ListingError {
    /// The first line that is refused, counted from 1, and why.
    #[error("line {line}: {reason}")]
    Refused { line: usize, reason: Reason },
    /// Memory ran out.
    #[error("memory ran out")]
    NoMemory,
}

// A reader before the first line.
fn new_reader(alloc: Global) -> Result<ListingReader, ListingError>
    ensures ok { IfOk result (λ reader. reader ≡ empty_listing) }
    ensures err { IfErr result (λ e. e ≡ ListingError.NoMemory) }
{
    match ListingReader::new(alloc) {
        Ok(reader) => Ok(reader),
        Err(_) => Err(ListingError::NoMemory),
    }
}

// The refusal of a line with this number.
fn refused_at(line: usize, error: LineError) -> ListingError
    ensures { result ≡ refused_as line error }
{
    match error {
        LineError::Refused(reason) => ListingError::Refused { line, reason },
        LineError::NoMemory => ListingError::NoMemory,
    }
}

// Takes the line with this number.
fn read_line(reader: &mut ListingReader, line: &[u8], number: usize) -> Result<(), ListingError>
    ensures ok { OnOk result (after_line reader.old line.now ≡ Ok reader.new) }
    ensures err { IfErr result (RefusedAt number (after_line reader.old line.now)) }
{
    match reader.line(line) {
        Ok(()) => Ok(()),
        Err(error) => Err(refused_at(number, error)),
    }
}

/// Reads a listing line by line, up to the first line that is refused: `Refused` tells it, counted
/// from 1, with its reason. A listing has at most `INPUT_LIMIT` bytes, and its last line may lack
/// its newline.
pub fn read_listing(alloc: Global, bytes: &[u8]) -> Result<Listing, ListingError>
    requires { length bytes.now ≤ INPUT_LIMIT }
    ensures ok { IfOk result (IsListed bytes.now) }
    ensures count { IfOk result (λ l. length l.sections.items ≡ 13) }
    ensures err { IfErr result (RefusedWhole (sections_of bytes.now)) }
{
    let mut reader = new_reader(alloc)?;
    let mut number = 0;
    for line in lines(bytes) {
        number += 1;
        read_line(&mut reader, line, number)?;
    }
    Ok(reader.finish())
}
