//! The reader of a section that lies in a slice.

ghost use Rattle.std.specs.Prelude.{◌≡◌, ◌≤◌, ◌<◌, ◌^◌, length};
ghost use Rattle.dw_read.specs.Reading.{Reading, whole};

use crate::error::{ReadError, ReadResult};
use crate::reader::Reader;
use dw_base::Endianity;

/// Reads a section that lies in a slice. It keeps the slice, and hands out parts of it.
///
/// ```
/// let mut reader = EndianSlice::new(b"\x01\x02", LittleEndian);
/// let number = reader.read_u16()?; // 0x0201
/// ```
#[derive(Drop)]
pub struct EndianSlice<'a, E: Endianity> {
    section: &'a [u8],
    place: usize,
    end: usize,
    endian: E,
    ghost place_within: { place ≤ end },
    ghost end_within: { end ≤ length section.now },
    ghost small: { end < 2 ^ 64 },
}

impl<'a, E: Endianity> EndianSlice<'a, E> {
    /// A reader of a whole section.
    pub fn new(bytes: &'a [u8], endian: E) -> EndianSlice<'a, E>
        ensures { ⟦<EndianSlice<'a, E> as Reader>⟧.reading result
            ≡ whole bytes.now (E.is_big endian) }
    {
        let end = bytes.len();
        EndianSlice {
            section: bytes,
            place: 0,
            end,
            endian,
        }
    }
}

impl<'a, E: Endianity> Reader for EndianSlice<'a, E> {
    type Endian = E;

    ghost reading = { λ s. record {
      section = s.section.now;
      place = s.place;
      end = s.end;
      is_big = E.is_big s.endian;
    } };

    fn endian(&self) -> E {
        self.endian
    }

    fn len(&self) -> usize {
        self.end - self.place
    }

    fn place(&self) -> usize {
        self.place
    }

    fn to_slice(&self) -> &[u8] {
        &self.section[self.place..self.end]
    }

    fn duplicate(&self) -> Self {
        EndianSlice {
            section: self.section,
            place: self.place,
            end: self.end,
            endian: self.endian,
        }
    }

    fn skip(&mut self, n: usize) -> ReadResult<()> {
        if n > self.end - self.place {
            return Err(ReadError::UnexpectedEof);
        }
        self.place += n;
        Ok(())
    }

    fn split(&mut self, n: usize) -> ReadResult<Self> {
        if n > self.end - self.place {
            return Err(ReadError::UnexpectedEof);
        }
        let start = self.place;
        self.place = start + n;
        Ok(EndianSlice {
            section: self.section,
            place: start,
            end: start + n,
            endian: self.endian,
        })
    }

    ghost is_reading = { λ s. record {
      place = s.place_within;
      end = s.end_within;
      small = s.small;
    } };
}
