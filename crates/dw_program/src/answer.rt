//! What the program answers: a status and the text that goes with it.

ghost use Rattle.std.specs.Prelude.{◌≡◌, ◌≢◌, ◌+◌, ◌≤◌, ℕ, Ok, true, length, map, IfOk, IfErr, IfSome, string_bytes};
ghost use Rattle.dw_base.specs.declared.error.Error.TheVariants.{NoMemory};
ghost use Rattle.dw_ends.specs.Listing.{Lists, read_of};
ghost use Rattle.dw_ends.specs.Numbers.{number_below};
ghost use Rattle.dw_ends.specs.Sections.{sections_of};
ghost use Rattle.dw_dwarf.specs.DwarfValue.{dwarf_in};
ghost use Rattle.dw_dwarf.specs.Valid.{AreUnwritten, IsValid};
ghost use Rattle.dw_program.specs.Listed.{SaysOfDwarf};
ghost use Rattle.dw_build.specs.Generated.{generated, most_variables};
ghost use Rattle.dw_program.specs.Answers.{LeavesUnread, Says, SaysOfBytes, SaysOfInput, SaysMade, Reads, ReadsInput, StopsFor, StopsReading, made_of};
ghost use Rattle.dw_program.specs.Texts.{counts_text, refusal_text, refused_for, refused_text};

use crate::command::Reading;
use crate::convert::convert_listing;
use crate::link::link_script;
use crate::status::Status;
use crate::summary::{Counts, summarize};
use crate::write::write_new;
use dw_base::{Error, RunTimeEndian};
use dw_build::{MOST_VARIABLES, Refusal, SCRIPT_LIMIT, ScriptError, generate, read_script};
use dw_dwarf::Dwarf;
use dw_ends::{EndError, Source, listing_text, read_all};
use dw_script::parse_u64;
use dw_writer::{EndianVec, Section, Sections, Writer};
use std::alloc::{AllocError, Global};

/// The commands.
const USAGE: &[u8] = b"usage: build | convert | link | make N\n";

/// A status and the text that goes with it.
#[derive(Drop)]
pub struct Answer {
    pub status: Status,
    pub text: Vec<u8>,
}

/// Why there is no answer.
#[derive(Clone, Copy, Debug, PartialEq, Eq)]
pub enum Stop {
    SourceFailed,
    NoMemory,
}

impl From<AllocError> for Stop {
    ghost use Rattle.dw_program.specs.declared.answer.Stop.TheVariants.{NoMemory};

    ghost from_gives = { λ _ s. s ≡ NoMemory };

    fn from(_error: AllocError) -> Stop {
        Stop::NoMemory
    }
}

// How many variables the words ask for, where they are the command `make` and a number.
fn count_to_make(words: &Vec<String>) -> Option<u64>
    ensures asked { result ≡ made_of (map string_bytes words.now.items) }
    ensures few { IfSome result (λ n. n ≤ MOST_VARIABLES) }
{
    match words.as_slice() {
        [word, field] if word.as_str() == "make" => variable_count(field.as_bytes()),
        _ => None,
    }
}

// The number that a field spells, if `make` generates as many variables.
fn variable_count(field: &[u8]) -> Option<u64>
    ensures asked { result ≡ number_below (most_variables + 1) field.now }
    ensures few { IfSome result (λ n. n ≤ MOST_VARIABLES) }
{
    match parse_u64(field) {
        Some(count) if count <= MOST_VARIABLES => Some(count),
        _ => None,
    }
}

/// An answer with this text.
pub fn answer_with(alloc: Global, status: Status, text: &[u8]) -> Result<Answer, AllocError>
    ensures { IfOk result (λ a. (a.status ≡ status) × (a.text.items ≡ text.now)) }
{
    Ok(Answer {
        status,
        text: Vec::from_slice(alloc, text)?,
    })
}

/// The line of the script or the listing that is refused, and why.
pub fn answer_refusal(alloc: Global, refusal: Refusal) -> Result<Answer, AllocError>
    ensures { IfOk result (λ a.
        (a.status ≡ Status.ScriptRefused) × (a.text.items ≡ refusal_text refusal)) }
{
    let line = refusal.line;
    let reason = refusal.reason.text();
    let text = format!(in alloc; "line {line}: {reason}\n")?;
    answer_with(alloc, Status::ScriptRefused, text.as_bytes())
}

/// That writing, converting or linking was refused, for a cause of this name.
pub(crate) fn answer_refused(alloc: Global, name: &str) -> Result<Answer, AllocError>
    ensures { IfOk result (λ a.
        (a.status ≡ Status.WriteRefused) × (a.text.items ≡ refused_for name.now)) }
{
    let text = format!(in alloc; "refused: {name}\n")?;
    answer_with(alloc, Status::WriteRefused, text.as_bytes())
}

/// Why writing was refused. Want of memory is no refusal of what was built.
pub(crate) fn answer_write_refusal(alloc: Global, error: Error) -> Result<Answer, AllocError>
    ensures says { IfOk result (λ a.
        (a.status ≡ Status.WriteRefused) × (a.text.items ≡ refused_text error)) }
    ensures other { IfOk result (λ _. error ≢ NoMemory) }
{
    if error == Error::NoMemory {
        return Err(AllocError);
    }
    answer_refused(alloc, error.name())
}

/// The listing of these sections.
pub(crate) fn answer_listed(
    alloc: Global,
    sections: &Sections<EndianVec<RunTimeEndian>>,
) -> Result<Answer, AllocError>
    ensures status { IfOk result (λ a. a.status ≡ Status.Listed) }
    ensures lists { IfOk result (λ a.
        Lists ⟦<EndianVec<RunTimeEndian> as Writer>⟧.meaning sections.now a.text.items) }
    ensures read_back { IfOk result (λ a. sections_of a.text.items ≡
        Ok (read_of ⟦<EndianVec<RunTimeEndian> as Writer>⟧.meaning sections.now)) }
{
    let text = listing_text(alloc, sections)?;
    Ok(Answer {
        status: Status::Listed,
        text,
    })
}

/// Writes what was built into new sections of a byte order, and lists them.
pub fn answer_dwarf(
    alloc: Global,
    endian: RunTimeEndian,
    dwarf: &mut Dwarf,
) -> Result<Answer, AllocError>
    requires { AreUnwritten (dwarf_in dwarf.old) }
    ensures { IfOk result (λ a. SaysOfDwarf endian (dwarf_in dwarf.old) a.status a.text.items) }
{
    match write_new(alloc, endian, dwarf) {
        Ok(sections) => answer_listed(alloc, &sections),
        Err(error) => answer_write_refusal(alloc, error),
    }
}

// Builds the script and writes what it has built.
fn build(alloc: Global, bytes: &[u8]) -> Result<Answer, AllocError>
    requires { length bytes.now ≤ SCRIPT_LIMIT }
    ensures { IfOk result (λ a. SaysOfBytes Reading.Build bytes.now a.status a.text.items) }
{
    match read_script(alloc, bytes) {
        Ok(mut script) => answer_dwarf(alloc, script.endian, &mut script.dwarf),
        Err(ScriptError::Refused(found)) => answer_refusal(alloc, found),
        Err(ScriptError::NoMemory) => Err(AllocError),
    }
}

// What a command answers to bytes that were read.
fn answer_bytes(alloc: Global, reading: Reading, bytes: &[u8]) -> Result<Answer, AllocError>
    requires { length bytes.now ≤ SCRIPT_LIMIT }
    ensures { IfOk result (λ a. SaysOfBytes reading bytes.now a.status a.text.items) }
{
    match reading {
        Reading::Build => build(alloc, bytes),
        Reading::Convert => convert_listing(alloc, bytes),
        Reading::Link => link_script(alloc, bytes),
    }
}

// Tells what was written.
fn answer_counts(
    alloc: Global,
    counts: Counts,
    info: &[u8],
    abbrevs: &[u8],
) -> Result<Answer, Error>
    ensures ok { IfOk result (λ a. (a.status ≡ Status.Listed)
        × (a.text.items ≡ counts_text counts.units counts.entries info.now abbrevs.now)) }
    ensures err { IfErr result (λ e. e ≡ NoMemory) }
{
    let text = summarize(alloc, counts, info, abbrevs)?;
    Ok(answer_with(alloc, Status::Listed, text.as_bytes())?)
}

// Writes what was generated for a number, and tells what was written.
fn answer_made(alloc: Global, dwarf: &mut Dwarf) -> Result<Answer, Error>
    requires unwritten { AreUnwritten (dwarf_in dwarf.old) }
    requires valid { IsValid true (dwarf_in dwarf.old) }
    ensures ok { IfOk result (λ a. (n : ℕ) → dwarf_in dwarf.old ≡ generated n
        → (a.status ≡ Status.Listed) × SaysMade n a.text.items) }
    ensures err { IfErr result (λ e. e ≡ NoMemory) }
{
    let counts = Counts::of(&dwarf.units);
    match write_new(alloc, RunTimeEndian::Little, dwarf) {
        Ok(sections) => {
            let info = sections.debug_info.section().slice();
            answer_counts(alloc, counts, info, sections.debug_abbrev.section().slice())
        }
        Err(error) => Err(error),
    }
}

// Generates so many variables, writes them, and tells what was written. What is generated is
// valid, so that only memory can lack.
fn answer_make(alloc: Global, count: u64) -> Result<Answer, Error>
    requires { count ≤ MOST_VARIABLES }
    ensures ok { IfOk result (λ a. (a.status ≡ Status.Listed) × SaysMade count a.text.items) }
    ensures err { IfErr result (λ e. e ≡ NoMemory) }
{
    match generate(alloc, count) {
        Ok(mut dwarf) => answer_made(alloc, &mut dwarf),
        Err(error) => Err(error),
    }
}

// What a command answers to its input.
fn answer_input<S: Source>(alloc: Global, reading: Reading, source: &mut S) -> Result<Answer, Stop>
    ensures ok { IfOk result (λ a.
        SaysOfInput reading (S.input source.old).left a.status a.text.items) }
    ensures reads { IfOk result (λ a.
        ReadsInput (S.input source.old) (S.input source.new) a.status) }
    ensures err { IfErr result (StopsReading (S.input source.old) (S.input source.new)) }
    ensures faults { (S.input source.old).faults ≤ (S.input source.new).faults }
{
    match read_all(alloc, source) {
        Ok(bytes) => Ok(answer_bytes(alloc, reading, bytes.as_slice())?),
        Err(EndError::TooLong) => Ok(answer_with(alloc, Status::TooLong, b"too long\n")?),
        Err(EndError::Failed) => Err(Stop::SourceFailed),
        Err(EndError::NoMemory) => Err(Stop::NoMemory),
    }
}

/// What the program answers to these words and this input, before anything is printed.
pub fn answer_to<S: Source>(
    alloc: Global,
    words: &Vec<String>,
    source: &mut S,
) -> Result<Answer, Stop>
    ensures ok { IfOk result (λ a.
        Says (map string_bytes words.now.items) (S.input source.old).left a.status a.text.items) }
    ensures reads { IfOk result (λ a. Reads (map string_bytes words.now.items)
        (S.input source.old) (S.input source.new) a.status) }
    ensures err { IfErr result (StopsFor (map string_bytes words.now.items)
        (S.input source.old) (S.input source.new)) }
    ensures unread { LeavesUnread (map string_bytes words.now.items) source.old source.new }
    ensures faults { (S.input source.old).faults ≤ (S.input source.new).faults }
{
    if let Some(reading) = Reading::of(words) {
        return answer_input(alloc, reading, source);
    }
    match count_to_make(words) {
        Some(count) => answer_make(alloc, count).map_err(|_| Stop::NoMemory),
        None => Ok(answer_with(alloc, Status::Usage, USAGE)?),
    }
}
