//! What the program answers: a status and the text that goes with it.

ghost use Rattle.std.specs.Prelude.{◌≡◌, ◌≢◌, ◌≤◌, ◌++◌, length, map, string_bytes};
ghost use Rattle.std.specs.Prelude.{IfOk, IfErr, OnOk};
ghost use Rattle.dw_base.specs.ErrorName.{error_name};
ghost use Rattle.dw_base.specs.Order.{is_big_of};
ghost use Rattle.dw_base.specs.declared.error.Error.TheVariants as errors;
ghost use Rattle.dw_sources.specs.ConvertErrors.{convert_error_name};
ghost use Rattle.dw_sources.specs.declared.convert_error.ConvertError.TheVariants as reasons;
ghost use Rattle.dw_arange_table.specs.Find.{units_at};
ghost use Rattle.dw_arange_table.specs.Printed.{line_text, place_line, places_text, refused_text};
ghost use Rattle.dw_arange_table.specs.Printed.{IsSectionLine};
ghost use Rattle.dw_arange_table.specs.Said.{SaysOfTable, SaysOfMade, SaysOfSections, SaysOfBytes};
ghost use Rattle.dw_arange_table.specs.Runs.{LeavesUnread, Reads, ReadsInput, Says};
ghost use Rattle.dw_arange_table.specs.Runs.{SaysOfInput, StopsFor, StopsReading};

use crate::command::Command;
use crate::status::Status;
use crate::table::ArangeTable;
use dw_base::{DebugInfoOffset, Error, RunTimeEndian, SectionId};
use dw_ends::{
    EndError, INPUT_LIMIT, Listing, ListingError, Reason, Source, push_section, read_all,
    read_listing, read_sections,
};
use dw_sources::ConvertError;
use dw_writer::EndianVec;
use itoa::Buffer;
use std::alloc::{AllocError, Global};

/// The commands.
const USAGE: &[u8] = b"usage: table | find ADDR\n";

/// A status and the text that goes with it.
#[derive(Drop)]
pub(crate) struct Answer {
    pub(crate) status: Status,
    pub(crate) text: Vec<u8>,
}

/// Why there is no answer.
pub(crate) enum Stop {
    SourceFailed,
    NoMemory,
}

impl From<AllocError> for Stop {
    ghost use Rattle.dw_arange_table.specs.declared.answer.Stop.TheVariants.{NoMemory};

    ghost from_gives = { λ _ s. s ≡ NoMemory };

    fn from(_error: AllocError) -> Stop {
        Stop::NoMemory
    }
}

/// An answer with this text.
fn answer_with(alloc: Global, status: Status, text: &[u8]) -> Result<Answer, AllocError>
    ensures { IfOk result (λ a. (a.status ≡ status) × (a.text.items ≡ text.now)) }
{
    Ok(Answer {
        status,
        text: Vec::from_slice(alloc, text)?,
    })
}

/// That a line of the listing is refused.
fn answer_line(alloc: Global, line: usize, reason: Reason) -> Result<Answer, AllocError>
    ensures { IfOk result (λ a.
        (a.status ≡ Status.ListingRefused) × (a.text.items ≡ line_text line reason)) }
{
    let reason = reason.text();
    let text = format!(in alloc; "line {line}: {reason}\n")?;
    answer_with(alloc, Status::ListingRefused, text.as_bytes())
}

/// That the table is refused, for a cause of this name.
fn answer_refused(alloc: Global, name: &str) -> Result<Answer, AllocError>
    ensures { IfOk result (λ a.
        (a.status ≡ Status.TableRefused) × (a.text.items ≡ refused_text name.now)) }
{
    let text = format!(in alloc; "refused: {name}\n")?;
    answer_with(alloc, Status::TableRefused, text.as_bytes())
}

/// Why no table is made. Want of memory is no refusal of what was read.
fn answer_unmade(alloc: Global, error: ConvertError) -> Result<Answer, AllocError>
    ensures says { IfOk result (λ a. (a.status ≡ Status.TableRefused)
        × (a.text.items ≡ refused_text (convert_error_name error))) }
    ensures other { IfOk result (λ _. error ≢ reasons.NoMemory) }
{
    if error == ConvertError::NoMemory {
        return Err(AllocError);
    }
    answer_refused(alloc, error.name())
}

/// Why a table isn't written. Want of memory is no refusal of what was made.
fn answer_unwritten(alloc: Global, error: Error) -> Result<Answer, AllocError>
    ensures says { IfOk result (λ a. (a.status ≡ Status.TableRefused)
        × (a.text.items ≡ refused_text (error_name error))) }
    ensures other { IfOk result (λ _. error ≢ errors.NoMemory) }
{
    if error == Error::NoMemory {
        return Err(AllocError);
    }
    answer_refused(alloc, error.name())
}

/// The line of the section with these bytes.
fn answer_section(alloc: Global, bytes: &[u8]) -> Result<Answer, AllocError>
    ensures { IfOk result (λ a. (a.status ≡ Status.Done) × IsSectionLine bytes.now a.text.items) }
{
    let mut text = Vec::new(alloc);
    push_section(&mut text, SectionId::DebugAranges.name(), bytes)?;
    Ok(Answer {
        status: Status::Done,
        text,
    })
}

/// The section of a table.
fn answer_table(
    alloc: Global,
    endian: RunTimeEndian,
    table: &ArangeTable,
) -> Result<Answer, AllocError>
    ensures { IfOk result (λ a.
        SaysOfTable (is_big_of endian) table.now a.status a.text.items) }
{
    let mut section = EndianVec::new(alloc, endian);
    match table.write(&mut section) {
        Ok(()) => answer_section(alloc, section.slice()),
        Err(error) => answer_unwritten(alloc, error),
    }
}

/// Appends the line of a unit's place.
fn push_place(text: &mut Vec<u8>, place: usize) -> Result<(), AllocError>
    ensures { OnOk result (text.new.items ≡ text.old.items ++ place_line place) }
{
    text.extend_from_slice(Buffer::new().format(place).as_bytes())?;
    text.push(b'\n')?;
    Ok(())
}

/// The places of units, one a line.
fn answer_places(alloc: Global, places: &[DebugInfoOffset]) -> Result<Answer, AllocError>
    ensures { IfOk result (λ a. (a.status ≡ Status.Done)
        × (a.text.items ≡ places_text (map (λ u. u.0) places.now))) }
{
    let mut text = Vec::new(alloc);
    for place in places {
        push_place(&mut text, place.0)?;
    }
    Ok(Answer {
        status: Status::Done,
        text,
    })
}

/// The units of a table that have an address.
fn answer_found(alloc: Global, table: &ArangeTable, address: u64) -> Result<Answer, AllocError>
    ensures { IfOk result (λ a. (a.status ≡ Status.Done)
        × (a.text.items ≡ places_text (units_at address table.now))) }
{
    match table.find(address) {
        Ok(places) => answer_places(alloc, places.as_slice()),
        Err(_) => Err(AllocError),
    }
}

/// What a command answers to the table of the units.
fn answer_made(
    alloc: Global,
    command: Command,
    endian: RunTimeEndian,
    table: &ArangeTable,
) -> Result<Answer, AllocError>
    ensures { IfOk result (λ a.
        SaysOfMade command (is_big_of endian) table.now a.status a.text.items) }
{
    match command {
        Command::Table => answer_table(alloc, endian, table),
        Command::Find(address) => answer_found(alloc, table, address),
    }
}

/// What a command answers to the sections of a listing.
fn answer_sections(alloc: Global, command: Command, listing: &Listing) -> Result<Answer, AllocError>
    requires { length listing.now.sections.items ≡ 13 }
    ensures { IfOk result (λ a. SaysOfSections command listing.now.endian
        listing.now.sections.items a.status a.text.items) }
{
    match ArangeTable::from_units(alloc, &read_sections(listing)) {
        Ok(table) => answer_made(alloc, command, listing.endian, &table),
        Err(error) => answer_unmade(alloc, error),
    }
}

/// What a command answers to the bytes of a listing.
fn answer_bytes(alloc: Global, command: Command, bytes: &[u8]) -> Result<Answer, AllocError>
    requires { length bytes.now ≤ INPUT_LIMIT }
    ensures { IfOk result (λ a. SaysOfBytes command bytes.now a.status a.text.items) }
{
    match read_listing(alloc, bytes) {
        Ok(listing) => answer_sections(alloc, command, &listing),
        Err(ListingError::Refused { line, reason }) => answer_line(alloc, line, reason),
        Err(ListingError::NoMemory) => Err(AllocError),
    }
}

/// What a command answers to its input.
fn answer_input<S: Source>(alloc: Global, command: Command, source: &mut S) -> Result<Answer, Stop>
    ensures ok { IfOk result (λ a.
        SaysOfInput command (S.input source.old).left a.status a.text.items) }
    ensures reads { IfOk result (λ a.
        ReadsInput (S.input source.old) (S.input source.new) a.status) }
    ensures err { IfErr result (StopsReading (S.input source.old) (S.input source.new)) }
    ensures faults { (S.input source.old).faults ≤ (S.input source.new).faults }
{
    match read_all(alloc, source) {
        Ok(bytes) => Ok(answer_bytes(alloc, command, bytes.as_slice())?),
        Err(EndError::TooLong) => Ok(answer_with(alloc, Status::TooLong, b"too long\n")?),
        Err(EndError::Failed) => Err(Stop::SourceFailed),
        Err(EndError::NoMemory) => Err(Stop::NoMemory),
    }
}

/// What the program answers to these words and this input, before anything is printed.
pub(crate) fn answer_to<S: Source>(
    alloc: Global,
    words: &Vec<String>,
    source: &mut S,
) -> Result<Answer, Stop>
    ensures ok { IfOk result (λ a.
        Says (map string_bytes words.now.items) (S.input source.old).left a.status a.text.items) }
    ensures reads { IfOk result (λ a. Reads (map string_bytes words.now.items)
        (S.input source.old) (S.input source.new) a.status) }
    ensures err { IfErr result (StopsFor (map string_bytes words.now.items)
        (S.input source.old) (S.input source.new)) }
    ensures unread { LeavesUnread (map string_bytes words.now.items) source.old source.new }
    ensures faults { (S.input source.old).faults ≤ (S.input source.new).faults }
{
    match Command::of(words) {
        Some(command) => answer_input(alloc, command, source),
        None => Ok(answer_with(alloc, Status::Usage, USAGE)?),
    }
}
