//! A writer into memory.

ghost use Rattle.std.specs.Prelude.{◌≡◌, ℕ, ◌+◌, ◌<◌, ◌≤◌, ◌++◌, [], length, true, refl, Some, IsTrue, vec_len, OnOk, OnErr, IfErr};
ghost use Rattle.dw_base.specs.Numbers.{num, is_width, fits};
ghost use Rattle.dw_writer.specs.Texts.{overwrite};
ghost use Rattle.dw_writer.specs.Causes.{BytesRefused, NumberRefused, PlaceRefused};
ghost use Rattle.dw_writer.specs.Meaning.{Meaning, IsSameWriter, Adds, AddsSome, spelled_num};

use crate::number::number_bytes;
use crate::writer::Writer;
use dw_base::{Address, DwEhPe, Endianity, Error, Result, SectionId};
use std::alloc::{AllocError, Global};

/// A writer into memory. It records no relocations, so it puts offsets as they are and refuses the
/// addresses of symbols. It patches in place: the calls named `.._at` take no memory.
#[derive(Drop)]
pub struct EndianVec<E: Endianity> {
    bytes: Vec<u8>,
    endian: E,
}

impl<E: Endianity> EndianVec<E> {
    /// A writer with no bytes.
    pub fn new(alloc: Global, endian: E) -> EndianVec<E>
        ensures { ⟦<EndianVec<E> as Writer>⟧.meaning result ≡
            record {
              bytes = Some [];
              size = 0;
              is_big = E.is_big endian;
              is_plain = true;
              records = [];
              faults = 0;
            } }
    {
        EndianVec {
            bytes: Vec::new(alloc),
            endian,
        }
    }

    /// The bytes so far.
    pub fn slice(&self) -> &[u8]
        ensures bytes { (⟦<EndianVec<E> as Writer>⟧.meaning self.now).bytes ≡ Some result.now }
        ensures size { (⟦<EndianVec<E> as Writer>⟧.meaning self.now).size ≡ length result.now }
    {
        self.bytes.as_slice()
    }

    /// The bytes, without a copy.
    pub fn into_vec(self) -> Vec<u8>
        ensures bytes { (⟦<EndianVec<E> as Writer>⟧.meaning self).bytes ≡ Some result.items }
        ensures size { (⟦<EndianVec<E> as Writer>⟧.meaning self).size ≡ vec_len result }
    {
        let EndianVec { bytes, endian: _ } = self;
        bytes
    }

    /// Adds an unsigned number in `size` bytes.
    fn add_number(&mut self, val: u64, size: u8) -> Result<()>
        ensures fits { OnOk result (IsTrue (is_width size) × IsTrue (fits size val)) }
        ensures ok { OnOk result
            (Adds (⟦<EndianVec<E> as Writer>⟧.meaning self.old)
            (⟦<EndianVec<E> as Writer>⟧.meaning self.new)
            (num (⟦<EndianVec<E> as Writer>⟧.meaning self.old).is_big size val)) }
        ensures err { IfErr result
            (NumberRefused size (fits size val)
            (BytesRefused (⟦<EndianVec<E> as Writer>⟧.meaning self.old)
            (⟦<EndianVec<E> as Writer>⟧.meaning self.new))) }
        ensures partly { OnErr result
            (AddsSome (⟦<EndianVec<E> as Writer>⟧.meaning self.old)
            (⟦<EndianVec<E> as Writer>⟧.meaning self.new)
            (spelled_num (⟦<EndianVec<E> as Writer>⟧.meaning self.old).is_big size val)) }
        ensures same { IsSameWriter (⟦<EndianVec<E> as Writer>⟧.meaning self.old)
            (⟦<EndianVec<E> as Writer>⟧.meaning self.new) }
    {
        let number = number_bytes(self.endian.is_big_endian(), val, size)?;
        self.write(number.slice())
    }
}

impl<E: Endianity> Clone for EndianVec<E> {
    ghost is_clone = { λ s n.
        ⟦<EndianVec<E> as Writer>⟧.meaning n ≡ ⟦<EndianVec<E> as Writer>⟧.meaning s };

    fn clone(&self) -> std::result::Result<EndianVec<E>, AllocError> {
        Ok(EndianVec {
            bytes: self.bytes.clone()?,
            endian: self.endian,
        })
    }
}

impl<E: Endianity> Writer for EndianVec<E> {
    type Endian = E;

    ghost meaning = { λ s. record {
      bytes = Some s.bytes.items;
      size = vec_len s.bytes;
      is_big = E.is_big s.endian;
      is_plain = true;
      records = [];
      faults = 0;
    } };

    ghost patches_in_place = { true };

    fn endian(&self) -> E {
        self.endian
    }

    fn len(&self) -> usize {
        self.bytes.len()
    }

    fn write(&mut self, bytes: &[u8]) -> Result<()> {
        self.bytes.extend_from_slice(bytes)?;
        Ok(())
    }

    fn write_at(&mut self, offset: usize, bytes: &[u8]) -> Result<()> {
        overwrite_vec(&mut self.bytes, offset, bytes)
    }

    fn write_offset(&mut self, val: usize, _section: SectionId, size: u8) -> Result<()> {
        self.add_number(val as u64, size)
    }

    fn write_offset_at(
        &mut self,
        offset: usize,
        val: usize,
        _section: SectionId,
        size: u8,
    ) -> Result<()> {
        let number = number_bytes(self.endian.is_big_endian(), val as u64, size)?;
        self.write_at(offset, number.slice())
    }

    fn write_address(&mut self, address: Address, size: u8) -> Result<()> {
        match address {
            Address::Constant(val) => self.add_number(val, size),
            Address::Symbol { .. } => Err(Error::InvalidAddress),
        }
    }

    fn write_symbol_pointer(
        &mut self,
        _symbol: usize,
        _addend: i64,
        _eh_pe: DwEhPe,
        _size: u8,
    ) -> Result<()> {
        Err(Error::InvalidAddress)
    }

    ghost plain_records_nothing = { λ w plain. refl };
}

/// Writes bytes over those of a vector from a place on.
fn overwrite_vec(v: &mut Vec<u8>, offset: usize, bytes: &[u8]) -> Result<()>
    ensures ok { OnOk result (v.new.items ≡ overwrite offset bytes.now v.old.items) }
    ensures within { OnOk result (offset + length bytes.now ≤ vec_len v.old) }
    ensures kept { OnErr result (v.new.items ≡ v.old.items) }
    ensures len { vec_len v.new ≡ vec_len v.old }
    ensures err { IfErr result (PlaceRefused (vec_len v.old) offset (length bytes.now)) }
{
    overwrite_slice(v.as_mut_slice(), offset, bytes)
}

/// The same of a slice.
fn overwrite_slice(s: &mut [u8], offset: usize, bytes: &[u8]) -> Result<()>
    ensures ok { OnOk result (s.new ≡ overwrite offset bytes.now s.old) }
    ensures within { OnOk result (offset + length bytes.now ≤ length s.old) }
    ensures kept { OnErr result (s.new ≡ s.old) }
    ensures err { IfErr result (PlaceRefused (length s.old) offset (length bytes.now)) }
{
    if offset > s.len() {
        return Err(Error::OffsetOutOfBounds);
    }
    if bytes.len() > s.len() - offset {
        return Err(Error::LengthOutOfBounds);
    }
    overwrite_inside(s, offset, bytes);
    Ok(())
}

/// The same where there is room for them.
fn overwrite_inside(s: &mut [u8], offset: usize, bytes: &[u8])
    requires { offset + length bytes.now ≤ length s.old }
    ensures { s.new ≡ overwrite offset bytes.now s.old }
{
    let end = offset + bytes.len();
    s[offset..end].copy_from_slice(bytes);
}
