//! The directories and files of a header (DWARF 5, 6.2.4).

ghost use Rattle.std.specs.Prelude.{◌≡◌, ◌⊎◌, nat_le, IfErr, OnOk, Ok, Err};
ghost use Rattle.dw_read.specs.Reading.{left};
ghost use Rattle.dw_sources.specs.declared.convert_error.ConvertError.TheVariants.{NoMemory};
ghost use Rattle.dw_convert_lines.specs.Entries.{IsOpen, IsSameList, EntriesOutcome};
ghost use Rattle.dw_convert_lines.specs.EntryImages.{directory_image, file_image};
ghost use Rattle.dw_convert_lines.specs.Views.{texts_of, converting, IsTarget};

use crate::entry::{convert_directory, convert_file};
use dw_base::{DirectoryId, FileId};
use dw_line::LineProgram;
use dw_read::Reader;
use dw_read_lines::FileEntryIter;
use dw_read_units::Dwarf;
use dw_sources::ConvertResult;
use dw_strings::{LineStringTable, StringTable};
use std::alloc::Global;

/// Adds the directories that follow to the program, and their ids to those before them.
pub(crate) fn convert_directories<R: Reader>(
    alloc: Global,
    dwarf: &Dwarf<R>,
    version: u16,
    entries: &mut FileEntryIter<R>,
    program: &mut LineProgram,
    ids: &mut Vec<DirectoryId>,
    line_strings: &mut LineStringTable,
    strings: &mut StringTable,
) -> ConvertResult<()>
    requires begun { IsOpen R.reading entries.old }
    requires target { IsTarget version ids.old.items program.old }
    ensures ok { OnOk result (EntriesOutcome R.reading
        (directory_image (nat_le 5 version) (texts_of R.reading dwarf.now)) entries.old
        (converting program.old ids.old.items strings.old line_strings.old)
        (Ok (
          converting program.new ids.new.items strings.new line_strings.new,
          left (R.reading entries.new.input),
        ))) }
    ensures same { OnOk result (IsSameList R.reading entries.old entries.new) }
    ensures target { OnOk result (IsTarget version ids.new.items program.new) }
    ensures err { IfErr result (λ e. (e ≡ NoMemory) ⊎ EntriesOutcome R.reading
        (directory_image (nat_le 5 version) (texts_of R.reading dwarf.now)) entries.old
        (converting program.old ids.old.items strings.old line_strings.old) (Err e)) }
{
    'entries: while let Some(entry) = entries.next()? {
        convert_directory(
            alloc,
            dwarf,
            version,
            entry,
            program,
            ids,
            line_strings,
            strings,
        )?;
    }
    Ok(())
}

/// Adds the files that follow to the program, and their ids to those before them.
pub(crate) fn convert_files<R: Reader>(
    alloc: Global,
    dwarf: &Dwarf<R>,
    version: u16,
    is_big: bool,
    directories: &[DirectoryId],
    entries: &mut FileEntryIter<R>,
    program: &mut LineProgram,
    ids: &mut Vec<FileId>,
    line_strings: &mut LineStringTable,
    strings: &mut StringTable,
) -> ConvertResult<()>
    requires begun { IsOpen R.reading entries.old }
    requires target { IsTarget version directories.now program.old }
    ensures ok { OnOk result (EntriesOutcome R.reading
        (file_image (texts_of R.reading dwarf.now) is_big (nat_le 5 version) directories.now)
        entries.old (converting program.old ids.old.items strings.old line_strings.old)
        (Ok (
          converting program.new ids.new.items strings.new line_strings.new,
          left (R.reading entries.new.input),
        ))) }
    ensures target { OnOk result (IsTarget version directories.now program.new) }
    ensures err { IfErr result (λ e. (e ≡ NoMemory) ⊎ EntriesOutcome R.reading
        (file_image (texts_of R.reading dwarf.now) is_big (nat_le 5 version) directories.now)
        entries.old (converting program.old ids.old.items strings.old line_strings.old)
        (Err e)) }
{
    'entries: while let Some(entry) = entries.next()? {
        convert_file(
            alloc,
            dwarf,
            version,
            is_big,
            directories,
            entry,
            program,
            ids,
            line_strings,
            strings,
        )?;
    }
    Ok(())
}
