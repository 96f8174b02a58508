//! A writer into memory that fails at chosen calls.

ghost use Rattle.std.specs.Prelude.{◌≡◌, ◌≤◌, ◌↔◌, [], length, true, refl, Some, IsTrue, IsErrOf, OnOk, OnErr, IfErr};
ghost use Rattle.dw_base.specs.Numbers.{num, is_width, fits};
ghost use Rattle.dw_base.specs.Faults.{FailsNext, after_call, after_fault};
ghost use Rattle.dw_writer.specs.Causes.{IsNotMemory, KeptOutside, BytesRefused, NumberRefused, PatchRefused};
ghost use Rattle.dw_writer.specs.Meaning.{IsSameWriter, Adds, AddsSome, Replaces, ReplacesSome, spelled_num};
ghost use Rattle.dw_writer.specs.Relocating.{with_faults};

use crate::endian_vec::EndianVec;
use crate::number::number_bytes;
use crate::writer::Writer;
use dw_base::{Address, DwEhPe, Endianity, Error, FaultPlan, Result, SectionId};
use std::alloc::{AllocError, Global};

/// A plain writer into memory that fails at chosen calls of `write` and `write_at`, which are
/// counted together, from 0. Such a call changes no byte and answers `WriteFault`. Every other
/// call is made of these two, so it fails where they do.
#[derive(Drop)]
pub struct FaultVec<E: Endianity> {
    vec: EndianVec<E>,
    plan: FaultPlan,
}

impl<E: Endianity> FaultVec<E> {
    ghost use Rattle.dw_writer.specs.Faulty.{fault_plan, faulty};

    /// A writer with no bytes. Its calls with the numbers in `failing` are to fail.
    pub fn new(alloc: Global, endian: E, failing: Vec<u64>) -> FaultVec<E>
        ensures meaning { ⟦<FaultVec<E> as Writer>⟧.meaning result ≡
            record {
              bytes = Some [];
              size = 0;
              is_big = E.is_big endian;
              is_plain = true;
              records = [];
              faults = 0;
            } }
        ensures plan { fault_plan result ≡
            record { failing = failing.items; calls = 0; faults = 0 } }
    {
        FaultVec {
            vec: EndianVec::new(alloc, endian),
            plan: FaultPlan::new(failing),
        }
    }

    /// The bytes so far.
    pub fn slice(&self) -> &[u8]
        ensures bytes { (⟦<FaultVec<E> as Writer>⟧.meaning self.now).bytes ≡ Some result.now }
        ensures size { (⟦<FaultVec<E> as Writer>⟧.meaning self.now).size ≡ length result.now }
    {
        self.vec.slice()
    }

    /// Adds an unsigned number in `size` bytes.
    fn add_number(&mut self, val: u64, size: u8) -> Result<()>
        ensures fits { OnOk result (IsTrue (is_width size) × IsTrue (fits size val)) }
        ensures ok { OnOk result
            (Adds (faulty ⟦<EndianVec<E> as Writer>⟧.meaning self.old)
            (faulty ⟦<EndianVec<E> as Writer>⟧.meaning self.new)
            (num (faulty ⟦<EndianVec<E> as Writer>⟧.meaning self.old).is_big size val)) }
        ensures err { IfErr result
            (NumberRefused size (fits size val)
            (BytesRefused (faulty ⟦<EndianVec<E> as Writer>⟧.meaning self.old)
            (faulty ⟦<EndianVec<E> as Writer>⟧.meaning self.new))) }
        ensures partly { OnErr result
            (AddsSome (faulty ⟦<EndianVec<E> as Writer>⟧.meaning self.old)
            (faulty ⟦<EndianVec<E> as Writer>⟧.meaning self.new)
            (spelled_num (faulty ⟦<EndianVec<E> as Writer>⟧.meaning self.old).is_big size val)) }
        ensures same { IsSameWriter (faulty ⟦<EndianVec<E> as Writer>⟧.meaning self.old)
            (faulty ⟦<EndianVec<E> as Writer>⟧.meaning self.new) }
    {
        let number = number_bytes(self.vec.endian().is_big_endian(), val, size)?;
        self.write(number.slice())
    }
}

impl<E: Endianity> Clone for FaultVec<E> {
    ghost use Rattle.dw_writer.specs.Faulty.{fault_plan};

    ghost is_clone = { λ s n.
        (⟦<FaultVec<E> as Writer>⟧.meaning n ≡ ⟦<FaultVec<E> as Writer>⟧.meaning s)
        × (fault_plan n ≡ fault_plan s) };

    fn clone(&self) -> std::result::Result<FaultVec<E>, AllocError> {
        Ok(FaultVec {
            vec: self.vec.clone()?,
            plan: self.plan.clone()?,
        })
    }
}

impl<E: Endianity> Writer for FaultVec<E> {
    ghost use Rattle.dw_writer.specs.Faulty.{fault_plan, faulty};

    type Endian = E;

    ghost meaning = { faulty ⟦<EndianVec<E> as Writer>⟧.meaning };

    ghost patches_in_place = { true };

    fn endian(&self) -> E {
        self.vec.endian()
    }

    fn len(&self) -> usize {
        self.vec.len()
    }

    fn write(&mut self, bytes: &[u8]) -> Result<()>
        ensures ok { OnOk result
            (Adds (faulty ⟦<EndianVec<E> as Writer>⟧.meaning self.old)
            (faulty ⟦<EndianVec<E> as Writer>⟧.meaning self.new) bytes.now) }
        ensures err { IfErr result
            (BytesRefused (faulty ⟦<EndianVec<E> as Writer>⟧.meaning self.old)
            (faulty ⟦<EndianVec<E> as Writer>⟧.meaning self.new)) }
        ensures partly { OnErr result
            (AddsSome (faulty ⟦<EndianVec<E> as Writer>⟧.meaning self.old)
            (faulty ⟦<EndianVec<E> as Writer>⟧.meaning self.new) bytes.now) }
        ensures same { IsSameWriter (faulty ⟦<EndianVec<E> as Writer>⟧.meaning self.old)
            (faulty ⟦<EndianVec<E> as Writer>⟧.meaning self.new) }
        ensures chosen { IsErrOf result Error.WriteFault ↔ FailsNext (fault_plan self.old) }
        ensures failed { FailsNext (fault_plan self.old) →
            (fault_plan self.new ≡ after_fault (fault_plan self.old))
            × (self.new.vec ≡ self.old.vec) }
        ensures went { (FailsNext (fault_plan self.old) → ⊥) →
            fault_plan self.new ≡ after_call (fault_plan self.old) }
    {
        if self.plan.next_fails() {
            // Nothing is added.
            return Err(Error::WriteFault);
        }
        self.vec.write(bytes)
    }

    fn write_at(&mut self, offset: usize, bytes: &[u8]) -> Result<()>
        ensures ok { OnOk result
            (Replaces (faulty ⟦<EndianVec<E> as Writer>⟧.meaning self.old)
            (faulty ⟦<EndianVec<E> as Writer>⟧.meaning self.new) offset bytes.now) }
        ensures err { IfErr result
            (PatchRefused (faulty ⟦<EndianVec<E> as Writer>⟧.meaning self.old)
            (faulty ⟦<EndianVec<E> as Writer>⟧.meaning self.new) offset (length bytes.now)) }
        ensures outside { IfErr result
            (KeptOutside (faulty ⟦<EndianVec<E> as Writer>⟧.meaning self.old)
            (faulty ⟦<EndianVec<E> as Writer>⟧.meaning self.new)) }
        ensures memory { IfErr result IsNotMemory }
        ensures partly { OnErr result
            (ReplacesSome (faulty ⟦<EndianVec<E> as Writer>⟧.meaning self.old)
            (faulty ⟦<EndianVec<E> as Writer>⟧.meaning self.new) offset bytes.now) }
        ensures same { IsSameWriter (faulty ⟦<EndianVec<E> as Writer>⟧.meaning self.old)
            (faulty ⟦<EndianVec<E> as Writer>⟧.meaning self.new) }
        ensures chosen { IsErrOf result Error.WriteFault ↔ FailsNext (fault_plan self.old) }
        ensures failed { FailsNext (fault_plan self.old) →
            (fault_plan self.new ≡ after_fault (fault_plan self.old))
            × (self.new.vec ≡ self.old.vec) }
        ensures went { (FailsNext (fault_plan self.old) → ⊥) →
            fault_plan self.new ≡ after_call (fault_plan self.old) }
    {
        if self.plan.next_fails() {
            // Nothing is written over.
            return Err(Error::WriteFault);
        }
        self.vec.write_at(offset, bytes)
    }

    fn write_offset(&mut self, val: usize, _section: SectionId, size: u8) -> Result<()> {
        self.add_number(val as u64, size)
    }

    fn write_offset_at(
        &mut self,
        offset: usize,
        val: usize,
        _section: SectionId,
        size: u8,
    ) -> Result<()> {
        let number = number_bytes(self.vec.endian().is_big_endian(), val as u64, size)?;
        self.write_at(offset, number.slice())
    }

    fn write_address(&mut self, address: Address, size: u8) -> Result<()> {
        match address {
            Address::Constant(val) => self.add_number(val, size),
            Address::Symbol { .. } => Err(Error::InvalidAddress),
        }
    }

    fn write_symbol_pointer(
        &mut self,
        _symbol: usize,
        _addend: i64,
        _eh_pe: DwEhPe,
        _size: u8,
    ) -> Result<()> {
        Err(Error::InvalidAddress)
    }

    ghost plain_records_nothing = { λ w plain. refl };
}
