//! Listings, read line by line.

ghost use Rattle.std.specs.Prelude.{◌≡◌, ◌<◌, [], Ok, length, replicate, IfOk, IfErr, OnOk, OnErr};
ghost use Rattle.dw_ends.specs.Lines.{HasPlace};
ghost use Rattle.dw_ends.specs.Sections.{RefusedFor, after_line, after_said, empty_listing};

use crate::hex_bytes::HexBytes;
use crate::line::{Line, SECTION_COUNT, parse_line};
use crate::line_error::LineError;
use crate::reason::Reason;
use dw_base::RunTimeEndian;
use dw_writer::Bytes;
use std::alloc::{AllocError, Global};
use std::marker::Model;

/// What a listing says.
#[derive(Drop)]
pub struct Listing {
    /// The byte order of the sections.
    pub endian: RunTimeEndian,
    /// The bytes of the eleven sections that are written, in the order of `SectionId`, and then
    /// those of `.debug_addr` and `.debug_str_offsets`. A section without a line has none.
    pub sections: Vec<Bytes>,
}

/// A listing that is read line by line.
#[derive(Drop)]
pub struct ListingReader {
    alloc: Global,
    endian: RunTimeEndian,
    is_begun: bool,
    is_taken: [bool; SECTION_COUNT],
    sections: Vec<Bytes>,
}

impl Model for ListingReader {
    ghost use Rattle.std.specs.Prelude.{◌≡◌, length};
    ghost use Rattle.dw_ends.specs.Sections.{ListingValue};

    ghost Value = { ListingValue };

    ghost view = { λ r. record {
      endian = r.endian;
      is_begun = r.is_begun;
      is_taken = r.is_taken;
      sections = r.sections.items;
    } };

    ghost invariant = { λ r. length r.sections.items ≡ 13 };
}

impl ListingReader {
    /// A reader before the first line. It fails only where memory runs out.
    pub fn new(alloc: Global) -> Result<ListingReader, LineError>
        ensures ok { IfOk result (λ reader. reader ≡ empty_listing) }
        ensures err { IfErr result (λ e. e ≡ LineError.NoMemory) }
    {
        Ok(ListingReader {
            alloc,
            endian: RunTimeEndian::Little,
            is_begun: false,
            is_taken: [false; SECTION_COUNT],
            sections: empty_sections(alloc)?,
        })
    }

    /// Takes a line, without its newline. One that is refused changes nothing.
    pub fn line(&mut self, line: &[u8]) -> Result<(), LineError>
        ensures ok { OnOk result (after_line self.old line.now ≡ Ok self.new) }
        ensures err { IfErr result (RefusedFor (after_line self.old line.now)) }
        ensures unchanged { OnErr result (self.new ≡ self.old) }
    {
        match parse_line(line)? {
            None => Ok(()),
            Some(said) => self.take(said),
        }
    }

    fn take(&mut self, said: Line<'_>) -> Result<(), LineError>
        requires { HasPlace said }
        ensures ok { OnOk result (after_said self.old said.entry ≡ Ok self.new) }
        ensures err { IfErr result (RefusedFor (after_said self.old said.entry)) }
        ensures unchanged { OnErr result (self.new ≡ self.old) }
    {
        match said {
            Line::Order(endian) => self.take_order(endian),
            Line::Section {
                place,
                length,
                bytes,
            } => self.take_section(place, length, &bytes),
        }
    }

    fn take_order(&mut self, endian: RunTimeEndian) -> Result<(), LineError>
        ensures ok { OnOk result (after_said self.old (Line.Order endian) ≡ Ok self.new) }
        ensures err { IfErr result (RefusedFor (after_said self.old (Line.Order endian))) }
        ensures unchanged { OnErr result (self.new ≡ self.old) }
    {
        if self.is_begun {
            return Err(LineError::Refused(Reason::OrderNotFirst));
        }
        self.endian = endian;
        self.is_begun = true;
        Ok(())
    }

    fn take_section(
        &mut self,
        place: usize,
        length: u64,
        bytes: &HexBytes<'_>,
    ) -> Result<(), LineError>
        requires { place < 13 }
        ensures ok { OnOk result
            (after_said self.old (Line.Section place length bytes.now) ≡ Ok self.new) }
        ensures err { IfErr result
            (RefusedFor (after_said self.old (Line.Section place length bytes.now))) }
        ensures unchanged { OnErr result (self.new ≡ self.old) }
    {
        if bytes.len() as u64 != length {
            return Err(LineError::Refused(Reason::WrongLength));
        }
        if self.is_taken[place] {
            return Err(LineError::Refused(Reason::Twice));
        }
        self.sections[place] = Bytes::from(bytes.decode(self.alloc)?);
        self.is_taken[place] = true;
        self.is_begun = true;
        Ok(())
    }

    /// Tells that a line was taken which isn't passed over.
    pub fn is_begun(&self) -> bool
        ensures { result ≡ self.now.is_begun }
    {
        self.is_begun
    }

    /// What the lines have said.
    pub fn finish(self) -> Listing
        ensures endian { result.endian ≡ self.endian }
        ensures sections { result.sections.items ≡ self.sections }
        ensures count { length result.sections.items ≡ 13 }
    {
        let ListingReader {
            endian,
            sections,
            ..
        } = self;
        Listing { endian, sections }
    }
}

// No bytes for each section that a listing may have.
fn empty_sections(alloc: Global) -> Result<Vec<Bytes>, AllocError>
    ensures { IfOk result (λ sections. sections.items ≡ replicate 13 []) }
{
    let mut sections = Vec::with_capacity(alloc, SECTION_COUNT)?;
    for _ in 0..SECTION_COUNT {
        sections.push(Bytes::from(Vec::new(alloc)))?;
    }
    Ok(sections)
}
