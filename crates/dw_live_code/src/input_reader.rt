//! Live ranges and a listing, read line by line.

ghost use Rattle.std.specs.Prelude.{◌≡◌, Ok, length, IfOk, IfErr, OnOk};
ghost use Rattle.dw_ends.specs.Pieces.{pieces_left};
ghost use Rattle.dw_live_code.specs.LiveLines.{LineRefused, after_input_line, after_live, empty_input};

use crate::live_line::parse_live;
use dw_ends::{LineError, Listing, ListingReader, Pieces, Reason, line_fields, next_field};
use dw_entry_ranges::LiveRange;
use std::alloc::Global;
use std::marker::Model;

/// The word of a line that tells a live range.
const LIVE: &[u8] = b"live";

/// What an input says: the live ranges, and the sections.
#[derive(Drop)]
pub struct PruneInput {
    pub live: Vec<LiveRange>,
    pub listing: Listing,
}

/// An input that is read line by line.
#[derive(Drop)]
pub(crate) struct InputReader {
    live: Vec<LiveRange>,
    listing: ListingReader,
}

impl Model for InputReader {
    ghost use Rattle.std.specs.Prelude.{true};
    ghost use Rattle.dw_live_code.specs.LiveLines.{InputValue};

    ghost Value = { InputValue };

    ghost view = { λ r. record { live = r.live.items; listing = r.listing } };
}

impl InputReader {
    /// A reader before the first line. It fails only where memory runs out.
    pub(crate) fn new(alloc: Global) -> Result<InputReader, LineError>
        ensures ok { IfOk result (λ reader. reader ≡ empty_input) }
        ensures err { IfErr result (λ e. e ≡ LineError.NoMemory) }
    {
        Ok(InputReader {
            live: Vec::new(alloc),
            listing: ListingReader::new(alloc)?,
        })
    }

    /// Takes a line, without its newline. After one that is refused the reader isn't used again.
    pub(crate) fn line(&mut self, line: &[u8]) -> Result<(), LineError>
        ensures ok { OnOk result (after_input_line self.old line.now ≡ Ok self.new) }
        ensures err { IfErr result (LineRefused (after_input_line self.old line.now)) }
    {
        let Some(mut fields) = line_fields(line)? else {
            return Ok(());
        };
        if next_field(&mut fields)? == LIVE {
            return self.live(&mut fields);
        }
        self.listing.line(line)
    }

    /// Takes the fields of a line behind its word, which tell a live range.
    fn live(&mut self, fields: &mut Pieces<'_>) -> Result<(), LineError>
        ensures ok { OnOk result (after_live self.old (pieces_left fields.old) ≡ Ok self.new) }
        ensures err { IfErr result (LineRefused (after_live self.old (pieces_left fields.old))) }
    {
        let range = parse_live(fields)?;
        if self.listing.is_begun() {
            return Err(LineError::Refused(Reason::LiveNotFirst));
        }
        match self.live.push(range) {
            Ok(()) => Ok(()),
            Err(_) => Err(LineError::NoMemory),
        }
    }

    /// What the lines have said.
    pub(crate) fn finish(self) -> PruneInput
        ensures live { result.live.items ≡ self.live }
        ensures endian { result.listing.endian ≡ self.listing.endian }
        ensures sections { result.listing.sections.items ≡ self.listing.sections }
        ensures count { length result.listing.sections.items ≡ 13 }
    {
        PruneInput {
            live: self.live,
            listing: self.listing.finish(),
        }
    }
}
