//! A writer into memory that records relocations.

ghost use Rattle.std.specs.Prelude.{◌≡◌, ◌++◌, ◌∷◌, [], length, false, Some, vec_len, refl};

use crate::endian_vec::EndianVec;
use crate::relocate::{RelocateWriter, Relocation};
use crate::writer::Writer;
use dw_base::{Endianity, Result};
use std::alloc::{AllocError, Global};

/// A writer into memory with a list of relocations. It takes symbols' addresses, and puts zeros in
/// the places of what is left to a linker.
#[derive(Drop)]
pub struct RelocVec<E: Endianity> {
    writer: EndianVec<E>,
    relocations: Vec<Relocation>,
}

impl<E: Endianity> RelocVec<E> {
    /// A writer with no bytes and no relocations.
    pub fn new(alloc: Global, endian: E) -> RelocVec<E>
        ensures { ⟦<RelocVec<E> as Writer>⟧.meaning result ≡
            record {
              bytes = Some [];
              size = 0;
              is_big = E.is_big endian;
              is_plain = false;
              records = [];
              faults = 0;
            } }
    {
        RelocVec {
            writer: EndianVec::new(alloc, endian),
            relocations: Vec::new(alloc),
        }
    }

    /// The bytes so far, with zeros where a linker puts numbers in.
    pub fn slice(&self) -> &[u8]
        ensures bytes { (⟦<RelocVec<E> as Writer>⟧.meaning self.now).bytes ≡ Some result.now }
        ensures size { (⟦<RelocVec<E> as Writer>⟧.meaning self.now).size ≡ length result.now }
    {
        self.writer.slice()
    }

    /// The relocations, in the order in which they were recorded.
    pub fn relocations(&self) -> &[Relocation]
        ensures { (⟦<RelocVec<E> as Writer>⟧.meaning self.now).records ≡ result.now }
    {
        self.relocations.as_slice()
    }
}

impl<E: Endianity> RelocateWriter for RelocVec<E> {
    type Writer = EndianVec<E>;

    ghost inner = { λ s. s.writer };

    ghost with_inner = { λ s w. record s { writer = w } };

    ghost relocations = { λ s. s.relocations.items };

    fn writer(&self) -> &EndianVec<E> {
        &self.writer
    }

    fn writer_mut(&mut self) -> &mut EndianVec<E> {
        &mut self.writer
    }

    fn relocate(&mut self, relocation: Relocation) -> Result<()> {
        self.relocations.push(relocation)?;
        Ok(())
    }

    ghost inner_with = { λ s w. refl };

    ghost relocations_with = { λ s w. refl };
}

impl<E: Endianity> Clone for RelocVec<E> {
    ghost is_clone = { λ s n.
        ⟦<RelocVec<E> as Writer>⟧.meaning n ≡ ⟦<RelocVec<E> as Writer>⟧.meaning s };

    fn clone(&self) -> std::result::Result<RelocVec<E>, AllocError> {
        Ok(RelocVec {
            writer: self.writer.clone()?,
            relocations: self.relocations.clone()?,
        })
    }
}
