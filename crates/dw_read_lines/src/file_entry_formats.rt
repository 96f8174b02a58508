//! The parts that the directories or files of a line program have from version 5 on (DWARF 5,
//! 6.2.4).

ghost use Rattle.std.specs.Prelude.{◌≡◌, ◌<◌, ◌^◌, ℕ, List, [], IfSome, IfNone};
ghost use Rattle.dw_read_lines.specs.FileEntryFormatIters.{OfParts, HasFormats, GivesFormat};

use crate::described::read_format;
use crate::file_entries::{FileEntryIter, Layout};
use dw_base::DwForm;
use dw_read::Reader;

/// A part of entries: what it tells of a directory or a file, and the form of its value.
#[derive(Clone, Copy, PartialEq, Eq)]
pub struct FileEntryFormat {
    /// The code of a content, as `DW_LNCT_path` is one; vendors have their own.
    pub content_type: u64,
    pub form: DwForm,
}

/// The parts of entries, in their order.
///
/// ```
/// let files = directories.file_names()?;
/// let mut formats = files.formats();
/// while let Some(format) = formats.next() {}
/// ```
#[derive(Drop)]
pub struct FileEntryFormatIter<R: Reader> {
    pub(crate) input: R,
    pub(crate) remaining: u8,
}

impl<R: Reader> FileEntryIter<R> {
    /// The parts that the header describes for each entry. Up to version 4 it describes none.
    pub fn formats(&self) -> FileEntryFormatIter<R>
        ensures parts { OfParts R.reading self.now (HasFormats R.reading result) }
        // A byte tells their number.
        ensures few { result.remaining < 2 ^ 8 }
    {
        match &self.layout {
            Layout::Described(description) => {
                FileEntryFormatIter::new(description.formats.duplicate(), description.format_count)
            }
            Layout::Directories => FileEntryFormatIter::new(self.input.duplicate(), 0),
            Layout::Files => FileEntryFormatIter::new(self.input.duplicate(), 0),
        }
    }

    /// How many entries are left of those that are described; of others none are counted.
    pub fn remaining(&self) -> u64
        ensures { result ≡ self.now.remaining }
    {
        self.remaining
    }
}

impl<R: Reader> FileEntryFormatIter<R> {
    fn new(input: R, remaining: u8) -> FileEntryFormatIter<R>
        ensures fields { result ≡ record { input = input; remaining = remaining } }
        ensures few { result.remaining < 2 ^ 8 }
    {
        FileEntryFormatIter { input, remaining }
    }

    /// The next part. Each was read when its entries began, so that there is no error here.
    pub fn next(&mut self) -> Option<FileEntryFormat>
        ensures part { IfSome result (λ f. (parts : List (ℕ × ℕ))
            → HasFormats R.reading self.old parts → GivesFormat R.reading self.new parts f) }
        ensures fewer { IfSome result (λ _. self.new.remaining < self.old.remaining) }
        ensures end { IfNone result ((parts : List (ℕ × ℕ))
            → HasFormats R.reading self.old parts → parts ≡ []) }
    {
        if self.remaining == 0 {
            return None;
        }
        match read_format(&mut self.input) {
            Ok((content_type, form)) => {
                self.remaining -= 1;
                Some(FileEntryFormat { content_type, form })
            }
            Err(_) => None,
        }
    }
}
