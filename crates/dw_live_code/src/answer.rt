//! What the program answers: a status and the text that goes with it.

ghost use Rattle.std.specs.Prelude.{◌≡◌, ◌≤◌, length, map, string_bytes, IfOk, IfErr};
ghost use Rattle.dw_program.specs.Answers.{ReadsInput, StopsReading};
ghost use Rattle.dw_live_code.specs.Answers.{SaysOfBytes, SaysOfInput};
ghost use Rattle.dw_live_code.specs.LiveLines.{InputValue};
ghost use Rattle.dw_live_code.specs.Runs.{LeavesUnread, Reads, Says, SaysOfTold, StopsFor};

use crate::input_reader::PruneInput;
use crate::pruned::prune;
use crate::whole_input::read_input;
use dw_build::Refusal;
use dw_ends::{EndError, INPUT_LIMIT, ListingError, Source, read_all, read_sections};
use dw_program::{
    Answer, Status, Stop, answer_convert_refusal, answer_dwarf, answer_refusal, answer_with,
};
use std::alloc::{AllocError, Global};

/// The program takes no words.
const USAGE: &[u8] = b"usage: no words\n";

/// Prunes the sections of an input, and writes what they become in the byte order in which they
/// were read.
fn answer_pruned(alloc: Global, input: &PruneInput) -> Result<Answer, AllocError>
    requires { length input.now.listing.sections.items ≡ 13 }
    ensures { IfOk result (λ a. (v : InputValue) → input.now.live.items ≡ v.live
        → input.now.listing.endian ≡ v.listing.endian
        → input.now.listing.sections.items ≡ v.listing.sections
        → SaysOfInput v a.status a.text.items) }
{
    let read = read_sections(&input.listing);
    match prune(alloc, &read, &input.live) {
        Ok(mut dwarf) => answer_dwarf(alloc, input.listing.endian, &mut dwarf),
        Err(error) => answer_convert_refusal(alloc, error),
    }
}

/// What is answered to bytes that were read.
fn answer_bytes(alloc: Global, bytes: &[u8]) -> Result<Answer, AllocError>
    requires { length bytes.now ≤ INPUT_LIMIT }
    ensures { IfOk result (λ a. SaysOfBytes bytes.now a.status a.text.items) }
{
    match read_input(alloc, bytes) {
        Ok(input) => answer_pruned(alloc, &input),
        Err(ListingError::Refused { line, reason }) => {
            answer_refusal(alloc, Refusal { line, reason })
        }
        Err(ListingError::NoMemory) => Err(AllocError),
    }
}

/// What is answered to an input.
fn answer_input<S: Source>(alloc: Global, source: &mut S) -> Result<Answer, Stop>
    ensures ok { IfOk result (λ a. SaysOfTold (S.input source.old).left a.status a.text.items) }
    ensures reads { IfOk result (λ a.
        ReadsInput (S.input source.old) (S.input source.new) a.status) }
    ensures err { IfErr result (StopsReading (S.input source.old) (S.input source.new)) }
    ensures faults { (S.input source.old).faults ≤ (S.input source.new).faults }
{
    match read_all(alloc, source) {
        Ok(bytes) => Ok(answer_bytes(alloc, bytes.as_slice())?),
        Err(EndError::TooLong) => Ok(answer_with(alloc, Status::TooLong, b"too long\n")?),
        Err(EndError::Failed) => Err(Stop::SourceFailed),
        Err(EndError::NoMemory) => Err(Stop::NoMemory),
    }
}

/// What the program answers to these words and this input, before anything is printed.
pub(crate) fn answer_to<S: Source>(
    alloc: Global,
    words: &Vec<String>,
    source: &mut S,
) -> Result<Answer, Stop>
    ensures ok { IfOk result (λ a.
        Says (map string_bytes words.now.items) (S.input source.old).left a.status a.text.items) }
    ensures reads { IfOk result (λ a. Reads (map string_bytes words.now.items)
        (S.input source.old) (S.input source.new) a.status) }
    ensures err { IfErr result (StopsFor (map string_bytes words.now.items)
        (S.input source.old) (S.input source.new)) }
    ensures unread { LeavesUnread (map string_bytes words.now.items) source.old source.new }
    ensures faults { (S.input source.old).faults ≤ (S.input source.new).faults }
{
    match words.as_slice() {
        [] => answer_input(alloc, source),
        _ => Ok(answer_with(alloc, Status::Usage, USAGE)?),
    }
}
