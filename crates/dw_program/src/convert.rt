//! The command `convert`.

ghost use Rattle.std.specs.Prelude.{◌≡◌, ◌≢◌, ◌≤◌, length, Some, IfOk};
ghost use Rattle.dw_ends.specs.Sections.{ListingValue};
ghost use Rattle.dw_sources.specs.declared.convert_error.ConvertError.TheVariants.{NoMemory};
ghost use Rattle.dw_program.specs.Answers.{SaysOfBytes};
ghost use Rattle.dw_program.specs.Converted.{SaysOfListing};
ghost use Rattle.dw_program.specs.Texts.{convert_refused_text};
ghost use Rattle.dw_program.specs.declared.command.Reading.TheVariants.{Convert};

use crate::answer::{Answer, answer_dwarf, answer_refusal, answer_refused};
use crate::status::Status;
use dw_base::Address;
use dw_build::{Refusal, SCRIPT_LIMIT};
use dw_dwarf::{ConvertError, Dwarf};
use dw_ends::{Listing, ListingError, read_listing, read_sections};
use std::alloc::{AllocError, Global};

// Reads the sections of a listing, converts them and writes what they become.
pub(crate) fn convert_listing(alloc: Global, bytes: &[u8]) -> Result<Answer, AllocError>
    requires { length bytes.now ≤ SCRIPT_LIMIT }
    ensures { IfOk result (λ a. SaysOfBytes Convert bytes.now a.status a.text.items) }
{
    match read_listing(alloc, bytes) {
        Ok(listing) => convert_sections(alloc, &listing),
        Err(ListingError::Refused { line, reason }) => {
            answer_refusal(alloc, Refusal { line, reason })
        }
        Err(ListingError::NoMemory) => Err(AllocError),
    }
}

// Converts the sections, and writes what they become in the byte order in which they were read.
fn convert_sections(alloc: Global, listing: &Listing) -> Result<Answer, AllocError>
    requires { length listing.now.sections.items ≡ 13 }
    ensures { IfOk result (λ a. (v : ListingValue) → listing.now.endian ≡ v.endian
        → listing.now.sections.items ≡ v.sections → SaysOfListing v a.status a.text.items) }
{
    let read = read_sections(listing);
    match Dwarf::from(alloc, &read, &constant) {
        Ok(mut dwarf) => answer_dwarf(alloc, listing.endian, &mut dwarf),
        Err(error) => answer_convert_refusal(alloc, error),
    }
}

/// What an address becomes: itself.
pub fn constant(address: u64) -> Option<Address>
    ensures { result ≡ Some (Address.Constant address) }
{
    Some(Address::Constant(address))
}

/// Why converting was refused. Want of memory is no refusal of what was read.
pub fn answer_convert_refusal(alloc: Global, error: ConvertError) -> Result<Answer, AllocError>
    ensures says { IfOk result (λ a.
        (a.status ≡ Status.WriteRefused) × (a.text.items ≡ convert_refused_text error)) }
    ensures other { IfOk result (λ _. error ≢ NoMemory) }
{
    if error == ConvertError::NoMemory {
        return Err(AllocError);
    }
    answer_refused(alloc, error.name())
}
