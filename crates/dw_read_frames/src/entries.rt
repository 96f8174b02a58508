//! The entries of a call frame section, one after the other (DWARF 5, 6.4.1).

ghost use Rattle.std.specs.Prelude.{◌≡◌, ◌<◌, IfOk, IfErr, IfSome, OnOk, Err, false};
ghost use Rattle.dw_read.specs.Reading.{left};
ghost use Rattle.dw_read.specs.Took.{Took, option_of};
ghost use Rattle.dw_read_frames.specs.HeadViews.{IsBody};
ghost use Rattle.dw_read_frames.specs.Entries.{entry_read};
ghost use Rattle.dw_read_frames.specs.EntryViews.{entry_of, offset_of, rest_of, ReadsEntry};

use crate::cie::{CommonInformationEntry, read_cie};
use crate::head::read_head;
use dw_base::Format;
use dw_read::{ReadResult, Reader};

/// An entry of a section of call frames.
///
/// ```
/// if let CieOrFde::Fde(partial) = entry {
///     let place = partial.cie_offset();
/// }
/// ```
#[derive(Drop)]
pub enum CieOrFde<R: Reader> {
    Cie(CommonInformationEntry<R>),
    /// What an FDE says hangs on its CIE, so that it isn't read yet.
    Fde(PartialFrameDescriptionEntry<R>),
}

/// An FDE whose CIE isn't read yet.
///
/// ```
/// let fde = partial.parse(cie)?;
/// ```
#[derive(Drop)]
pub struct PartialFrameDescriptionEntry<R: Reader> {
    pub(crate) offset: usize,
    pub(crate) format: Format,
    pub(crate) cie_offset: usize,
    pub(crate) body: R,
}

impl<R: Reader> PartialFrameDescriptionEntry<R> {
    /// The place of the entry in its section.
    pub fn offset(&self) -> usize
        ensures { result ≡ self.now.offset }
    {
        self.offset
    }

    /// The place of the CIE that the entry belongs to.
    pub fn cie_offset(&self) -> usize
        ensures { result ≡ self.now.cie_offset }
    {
        self.cie_offset
    }
}

/// The entries of `.debug_frame` or `.eh_frame`.
///
/// ```
/// let mut entries = EhFrame::new(section, 8).entries();
/// while let Some(entry) = entries.next()? {}
/// ```
#[derive(Drop)]
pub struct CfiEntriesIter<R: Reader> {
    pub(crate) input: R,
    pub(crate) is_eh: bool,
    pub(crate) address_size: u8,
    pub(crate) has_ended: bool,
}

impl<R: Reader> CfiEntriesIter<R> {
    /// The next entry. None comes at the section's end, at the zero length that ends `.eh_frame`,
    /// and once an error was answered.
    pub fn next(&mut self) -> ReadResult<Option<CieOrFde<R>>>
        ensures { ReadsEntry R.reading self.old self.new result }
    {
        if self.has_ended || self.input.len() == 0 {
            return Ok(None);
        }
        let mut after = self.input.duplicate();
        match read_entry(&mut after, self.is_eh, self.address_size) {
            Ok(Some(entry)) => {
                self.input = after;
                Ok(Some(entry))
            }
            Ok(None) => {
                self.input = after;
                self.has_ended = true;
                Ok(None)
            }
            Err(error) => {
                self.has_ended = true;
                Err(error)
            }
        }
    }
}

/// Reads the entry at the reader's place, and passes it. None is the zero length that ends
/// `.eh_frame`.
pub(crate) fn read_entry<R: Reader>(
    input: &mut R,
    is_eh: bool,
    size: u8,
) -> ReadResult<Option<CieOrFde<R>>>
    ensures ok { IfOk result (λ o. Took _
        (entry_read is_eh (R.reading input.old).is_big size (R.reading input.old).place)
        (R.reading input.old) (R.reading input.new) (option_of (entry_of R.reading) o)) }
    ensures offset { IfOk result (λ o. IfSome o
        (λ x. offset_of x ≡ (R.reading input.old).place)) }
    ensures rest { IfOk result (λ o. IfSome o
        (λ x. IsBody (R.reading input.old) (R.reading input.new) (rest_of R.reading x))) }
    ensures progress { OnOk result
        ((R.reading input.old).place < (R.reading input.new).place) }
    ensures err { IfErr result (λ e.
        entry_read is_eh (R.reading input.old).is_big size (R.reading input.old).place
        (left (R.reading input.old)) ≡ Err e) }
{
    let Some(head) = read_head(input, is_eh)? else {
        return Ok(None);
    };
    if let Some(cie_offset) = head.cie {
        return Ok(Some(CieOrFde::Fde(PartialFrameDescriptionEntry {
            offset: head.offset,
            format: head.format,
            cie_offset,
            body: head.body,
        })));
    }
    let cie = read_cie(head, is_eh, size)?;
    Ok(Some(CieOrFde::Cie(cie)))
}
