//! The two sections of call frames, as they are read.

ghost use Rattle.std.specs.Prelude.{◌≡◌, true, false, ℕ, Bool, IfOk, IfErr, Ok, Err};
ghost use Rattle.dw_read.specs.Reading.{left};
ghost use Rattle.dw_read_frames.specs.Entries.{cie_at_read};
ghost use Rattle.dw_read_frames.specs.EntryViews.{BeginsEntries, IsRestAt, held_cie};

use crate::cie::CommonInformationEntry;
use crate::entries::{CfiEntriesIter, CieOrFde, read_entry};
use dw_read::{ReadError, ReadResult, Reader};

/// A section of call frames, which a reader reads from its begin.
///
/// ```
/// let frames = EhFrame::new(section, 8);
/// let mut entries = frames.entries();
/// ```
pub trait UnwindSection<R: Reader> {
    ghost reader: { Self → R };

    ghost size: { Self → ℕ };

    ghost is_eh: { Bool };

    /// The reader of the section.
    fn section(&self) -> &R
        ensures { result.now ≡ reader self.now };

    /// The bytes of an address on the target, which version 4 of a CIE tells for itself.
    fn address_size(&self) -> u8
        ensures { result ≡ size self.now };

    /// Whether the section is `.eh_frame`.
    fn is_eh_frame(&self) -> bool
        ensures { result ≡ is_eh };

    /// The entries of the section, from the first on.
    final fn entries(&self) -> CfiEntriesIter<R>
        ensures { BeginsEntries R.reading (reader self.now) (size self.now) is_eh result }
    {
        CfiEntriesIter {
            input: self.section().duplicate(),
            is_eh: self.is_eh_frame(),
            address_size: self.address_size(),
            has_ended: false,
        }
    }

    /// The CIE at an offset of the section, to which an FDE leads. Its instructions are read in the
    /// byte order of the section.
    final fn cie_from_offset(&self, offset: usize) -> ReadResult<CommonInformationEntry<R>>
        ensures ok { IfOk result (λ c. cie_at_read is_eh (R.reading (reader self.now)).is_big
            (size self.now) (R.reading (reader self.now)).place offset
            (left (R.reading (reader self.now)))
            ≡ Ok (c.fields, left (R.reading c.instructions))) }
        ensures rest { IfOk result (λ c. IsRestAt is_eh (size self.now) offset
            (R.reading (reader self.now)) (R.reading c.instructions)) }
        ensures err { IfErr result (λ e. cie_at_read is_eh (R.reading (reader self.now)).is_big
            (size self.now) (R.reading (reader self.now)).place offset
            (left (R.reading (reader self.now))) ≡ Err e) }
    {
        let mut input = self.section().duplicate();
        let cie = read_cie_at(&mut input, self.is_eh_frame(), self.address_size(), offset)?;
        Ok(cie)
    }
}

/// `.debug_frame`, for debuggers.
#[derive(Drop)]
pub struct DebugFrame<R: Reader> {
    section: R,
    address_size: u8,
}

impl<R: Reader> DebugFrame<R> {
    /// The section of a target whose addresses have so many bytes.
    pub fn new(section: R, address_size: u8) -> DebugFrame<R>
        ensures { result ≡ record { section = section; address_size = address_size } }
    {
        DebugFrame {
            section,
            address_size,
        }
    }
}

impl<R: Reader> UnwindSection<R> for DebugFrame<R> {
    ghost reader = { λ s. s.section };

    ghost size = { λ s. s.address_size };

    ghost is_eh = { false };

    fn section(&self) -> &R {
        &self.section
    }

    fn address_size(&self) -> u8 {
        self.address_size
    }

    fn is_eh_frame(&self) -> bool {
        false
    }
}

/// `.eh_frame`, for unwinding at run time.
#[derive(Drop)]
pub struct EhFrame<R: Reader> {
    section: R,
    address_size: u8,
}

impl<R: Reader> EhFrame<R> {
    /// The section of a target whose addresses have so many bytes.
    pub fn new(section: R, address_size: u8) -> EhFrame<R>
        ensures { result ≡ record { section = section; address_size = address_size } }
    {
        EhFrame {
            section,
            address_size,
        }
    }
}

impl<R: Reader> UnwindSection<R> for EhFrame<R> {
    ghost reader = { λ s. s.section };

    ghost size = { λ s. s.address_size };

    ghost is_eh = { true };

    fn section(&self) -> &R {
        &self.section
    }

    fn address_size(&self) -> u8 {
        self.address_size
    }

    fn is_eh_frame(&self) -> bool {
        true
    }
}

/// Reads the CIE at an offset behind the reader's place.
fn read_cie_at<R: Reader>(
    input: &mut R,
    is_eh: bool,
    size: u8,
    offset: usize,
) -> ReadResult<CommonInformationEntry<R>>
    ensures ok { IfOk result (λ c. cie_at_read is_eh (R.reading input.old).is_big size
        (R.reading input.old).place offset (left (R.reading input.old))
        ≡ Ok (c.fields, left (R.reading c.instructions))) }
    ensures rest { IfOk result (λ c. IsRestAt is_eh size offset
        (R.reading input.old) (R.reading c.instructions)) }
    ensures err { IfErr result (λ e. cie_at_read is_eh (R.reading input.old).is_big size
        (R.reading input.old).place offset (left (R.reading input.old)) ≡ Err e) }
{
    input.skip(offset)?;
    let entry = read_entry(input, is_eh, size)?;
    let Some(cie) = cie_of(entry) else {
        return Err(ReadError::InvalidCiePointer(offset as u64));
    };
    Ok(cie)
}

/// The CIE that an entry is.
fn cie_of<R: Reader>(entry: Option<CieOrFde<R>>) -> Option<CommonInformationEntry<R>>
    ensures { result ≡ held_cie entry }
{
    match entry {
        Some(CieOrFde::Cie(cie)) => Some(cie),
        Some(CieOrFde::Fde(_)) => None,
        None => None,
    }
}
