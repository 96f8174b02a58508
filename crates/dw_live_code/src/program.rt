//! The program over any words, source and sink.

ghost use Rattle.std.specs.Prelude.{◌≡◌, ◌≤◌, map, string_bytes, IfOk, MatchResult};
ghost use Rattle.std.specs.Process.{exit_status};
ghost use Rattle.dw_ends.specs.Ends.{TakesPrefix};
ghost use Rattle.dw_ends.specs.StatusLines.{status_line};
ghost use Rattle.dw_live_code.specs.Runs.{LeavesUnread, PrunesValid, RunAnswers};

use crate::answer::answer_to;
use dw_ends::{Sink, Source, tell_status};
use dw_program::run::print;
use dw_program::{Status, Stop};
use std::alloc::Global;
use std::process::ExitCode;

/// Prunes the sections of a listing by the live ranges that stand in front of it, both of which the
/// source tells, writes what they become, and prints its listing to the sink. There are to be no
/// words.
///
/// Answers the exit status: 0 a listing, 1 words, 2 a line that is refused, 3 DWARF that can't be
/// pruned or written, 4 a source that failed, 5 a sink that failed, 6 want of memory, 7 more input
/// than 16,777,216 bytes. The input is read whole first; then it is parsed, pruned, written and
/// printed.
pub fn run<S: Source, K: Sink>(
    alloc: Global,
    words: &Vec<String>,
    source: &mut S,
    sink: &mut K,
) -> u8
    ensures answers { RunAnswers (map string_bytes words.now.items)
        (S.input source.old) (S.input source.new) (K.intake sink.old) (K.intake sink.new) result }
    ensures complete { PrunesValid (map string_bytes words.now.items)
        (S.input source.old) (S.input source.new) (K.intake sink.old) (K.intake sink.new) result }
    ensures unread { LeavesUnread (map string_bytes words.now.items) source.old source.new }
    ensures source_faults { (S.input source.old).faults ≤ (S.input source.new).faults }
    ensures sink_faults { (K.intake sink.old).faults ≤ (K.intake sink.new).faults }
{
    let status = match answer_to(alloc, words, source) {
        Ok(answer) => print(&answer, sink),
        Err(Stop::SourceFailed) => Status::SourceFailed,
        Err(Stop::NoMemory) => Status::NoMemory,
    };
    status.code()
}

/// Runs the program over the words, and ends it with the exit status that `run` answers; where the
/// words couldn't be had, with the status that stands in their place. Where no text tells why, as
/// where a read fails, a line says so to `errors`.
pub fn end<S: Source, K: Sink, E: Sink>(
    alloc: Global,
    words: Result<Vec<String>, u8>,
    source: &mut S,
    sink: &mut K,
    errors: &mut E,
) -> ExitCode
    ensures answers { MatchResult words
        (λ ws. RunAnswers (map string_bytes ws.items)
        (S.input source.old) (S.input source.new) (K.intake sink.old) (K.intake sink.new)
        (exit_status result))
        (λ status. exit_status result ≡ status) }
    ensures complete { IfOk words (λ ws. PrunesValid (map string_bytes ws.items)
        (S.input source.old) (S.input source.new) (K.intake sink.old) (K.intake sink.new)
        (exit_status result)) }
    ensures unread { IfOk words (λ ws.
        LeavesUnread (map string_bytes ws.items) source.old source.new) }
    ensures source_faults { (S.input source.old).faults ≤ (S.input source.new).faults }
    ensures sink_faults { (K.intake sink.old).faults ≤ (K.intake sink.new).faults }
    ensures told { TakesPrefix (E.intake errors.old).taken (E.intake errors.new).taken
        (status_line (exit_status result)) }
{
    let status = match words {
        Ok(words) => run(alloc, &words, source, sink),
        Err(status) => status,
    };
    // What can't be told there can't be told at all.
    let _ = tell_status(status, errors);
    ExitCode::from(status)
}
