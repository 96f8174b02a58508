//! The tables of directories and files in a line program's header (DWARF 5, 6.2.4).

ghost use Rattle.std.specs.Prelude.{◌≡◌, ◌≤◌, nat_le, IfOk, IfErr, true};
ghost use Rattle.dw_read.specs.Reading.{left};
ghost use Rattle.dw_read.specs.Took.{option_of};
ghost use Rattle.dw_read_lines.specs.LineEntryViews.{entry_of};
ghost use Rattle.dw_read_lines.specs.FileEntryIters.{TakesEntry, MissesEntry, ReadsEntry};
ghost use Rattle.dw_read_lines.specs.FileEntryIters.{BeginsEntries, MissesEntries};
ghost use Rattle.dw_read_lines.specs.FileEntryIters.{BeginsDescribed, BeginsOld};
ghost use Rattle.dw_read_lines.specs.FileEntryIters.{BeginsBehind, MissesBehind};
ghost use Rattle.dw_read_lines.specs.declared.file_entries.Layout.TheVariants.{Directories, Files};

use crate::described::{read_description, read_entry};
use crate::file_entries::{FileEntryIter, Layout};
use crate::file_entry::{FileEntry, read_old_directory, read_old_file};
use crate::header::LineProgramHeader;
use dw_base::Encoding;
use dw_read::{ReadResult, Reader};

impl<R: Reader> LineProgramHeader<R> {
    /// The directories: up to version 4 without the one in which the unit was compiled, from
    /// version 5 on with that as the first.
    pub fn include_directories(&self) -> ReadResult<FileEntryIter<R>>
        ensures ok { IfOk result (BeginsEntries R.reading
            (nat_le 5 self.now.encoding.encoding.version) Directories
            (R.reading self.now.tables).is_big self.now.encoding.encoding
            (left (R.reading self.now.tables))) }
        ensures order { IfOk result (λ i.
            (R.reading i.input).is_big ≡ (R.reading self.now.tables).is_big) }
        ensures err { IfErr result (MissesEntries
            (nat_le 5 self.now.encoding.encoding.version)
            (R.reading self.now.tables).is_big (left (R.reading self.now.tables))) }
    {
        let input = self.tables.duplicate();
        let encoding = self.encoding.encoding;
        if encoding.version < 5 {
            return Ok(FileEntryIter {
                input,
                layout: Layout::Directories,
                remaining: 0,
                has_ended: false,
            });
        }
        begin_described(input, encoding)
    }
}

impl<R: Reader> FileEntryIter<R> {
    /// The next entry. None comes at the end, and once an error was answered.
    pub fn next(&mut self) -> ReadResult<Option<FileEntry<R>>>
        ensures { ReadsEntry R.reading self.old self.new result }
    {
        if self.has_ended {
            return Ok(None);
        }
        let mut after = self.input.duplicate();
        match read_next(&mut after, &self.layout, self.remaining) {
            Ok(Some(entry)) => {
                self.input = after;
                self.remaining = self.remaining.saturating_sub(1);
                Ok(Some(entry))
            }
            Ok(None) => {
                self.input = after;
                self.has_ended = true;
                Ok(None)
            }
            Err(error) => {
                self.has_ended = true;
                Err(error)
            }
        }
    }
}

impl<R: Reader> FileEntryIter<R> {
    /// The files behind directories that were read to their end: they begin where these ended.
    pub fn file_names(&self) -> ReadResult<FileEntryIter<R>>
        ensures ok { IfOk result
            (BeginsBehind R.reading self.now.layout (R.reading self.now.input)) }
        ensures order { IfOk result (λ i.
            (R.reading i.input).is_big ≡ (R.reading self.now.input).is_big) }
        ensures err { IfErr result (MissesBehind self.now.layout (R.reading self.now.input)) }
    {
        match &self.layout {
            Layout::Described(description) => {
                let encoding = description.encoding.encoding;
                begin_described(self.input.duplicate(), encoding)
            }
            Layout::Directories => Ok(old_files(self.input.duplicate())),
            Layout::Files => Ok(old_files(self.input.duplicate())),
        }
    }
}

/// The files that begin there, up to version 4.
fn old_files<R: Reader>(input: R) -> FileEntryIter<R>
    ensures begins { BeginsOld R.reading Files (left (R.reading input)) result }
    ensures order { (R.reading result.input).is_big ≡ (R.reading input).is_big }
{
    FileEntryIter {
        input,
        layout: Layout::Files,
        remaining: 0,
        has_ended: false,
    }
}

/// The entries whose description begins there.
fn begin_described<R: Reader>(section: R, encoding: Encoding) -> ReadResult<FileEntryIter<R>>
    requires { encoding.address_size ≤ 8 }
    ensures ok { IfOk result (BeginsDescribed R.reading
        (R.reading section).is_big encoding (left (R.reading section))) }
    ensures order { IfOk result (λ i.
        (R.reading i.input).is_big ≡ (R.reading section).is_big) }
    ensures err { IfErr result (MissesEntries true
        (R.reading section).is_big (left (R.reading section))) }
{
    let mut input = section;
    let (description, count) = read_description(&mut input, encoding)?;
    Ok(FileEntryIter {
        input,
        layout: Layout::Described(description),
        remaining: count,
        has_ended: false,
    })
}

/// Reads the next entry, or the end, where so many of those that are described remain.
fn read_next<R: Reader>(
    input: &mut R,
    layout: &Layout<R>,
    remaining: u64,
) -> ReadResult<Option<FileEntry<R>>>
    ensures ok { IfOk result (λ o. TakesEntry R.reading (R.reading input.old) (R.reading input.new)
        layout.now remaining (option_of (entry_of R.reading) o)) }
    ensures err { IfErr result (MissesEntry R.reading (R.reading input.old) layout.now remaining) }
{
    match layout {
        Layout::Directories => read_old_directory(input),
        Layout::Files => read_old_file(input),
        Layout::Described(description) => {
            if remaining == 0 {
                return Ok(None);
            }
            let entry = read_entry(input, description)?;
            Ok(Some(entry))
        }
    }
}
