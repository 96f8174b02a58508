//! Live ranges and a listing, read whole.

ghost use Rattle.std.specs.Prelude.{◌≡◌, ◌≤◌, length, Ok, OnOk, IfOk, IfErr};
ghost use Rattle.dw_ends.specs.Listed.{RefusedAt, RefusedWhole, refused_as};
ghost use Rattle.dw_live_code.specs.LiveLines.{IsInput, after_input_line, empty_input, input_of};

use crate::input_reader::{InputReader, PruneInput};
use dw_ends::{INPUT_LIMIT, LineError, ListingError, lines};
use std::alloc::Global;

/// A reader before the first line.
fn new_reader(alloc: Global) -> Result<InputReader, ListingError>
    ensures ok { IfOk result (λ reader. reader ≡ empty_input) }
    ensures err { IfErr result (λ e. e ≡ ListingError.NoMemory) }
{
    match InputReader::new(alloc) {
        Ok(reader) => Ok(reader),
        Err(_) => Err(ListingError::NoMemory),
    }
}

/// The refusal of a line with this number.
fn refused_at(line: usize, error: LineError) -> ListingError
    ensures { result ≡ refused_as line error }
{
    match error {
        LineError::Refused(reason) => ListingError::Refused { line, reason },
        LineError::NoMemory => ListingError::NoMemory,
    }
}

/// Takes the line with this number.
fn read_line(reader: &mut InputReader, line: &[u8], number: usize) -> Result<(), ListingError>
    ensures ok { OnOk result (after_input_line reader.old line.now ≡ Ok reader.new) }
    ensures err { IfErr result (RefusedAt number (after_input_line reader.old line.now)) }
{
    match reader.line(line) {
        Ok(()) => Ok(()),
        Err(error) => Err(refused_at(number, error)),
    }
}

/// Reads lines `live BEGIN END`, each of which tells addresses that are live, from a begin to
/// before an end, and behind them the lines of a listing, up to the first line that is refused:
/// `Refused` tells it, counted from 1, with its reason. That is, besides those of listings,
/// `EmptyRange` where the end isn't above the begin, else `LiveNotFirst` behind a line of the
/// listing. An input has at most `INPUT_LIMIT` bytes, and its last line may lack its newline.
///
/// ```
/// let input = read_input(alloc, b"live 0x1000 0x1010\n.debug_info 1 00")?;
/// let read = read_sections(&input.listing);
/// ```
pub fn read_input(alloc: Global, bytes: &[u8]) -> Result<PruneInput, ListingError>
    requires { length bytes.now ≤ INPUT_LIMIT }
    ensures ok { IfOk result (IsInput bytes.now) }
    ensures count { IfOk result (λ i. length i.listing.sections.items ≡ 13) }
    ensures err { IfErr result (RefusedWhole (input_of bytes.now)) }
{
    let mut reader = new_reader(alloc)?;
    let mut number = 0;
    for line in lines(bytes) {
        number += 1;
        read_line(&mut reader, line, number)?;
    }
    Ok(reader.finish())
}
