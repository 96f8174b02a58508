//! Reads the directories and files of a line program of version 5 (DWARF 5, 6.2.4).

ghost use Rattle.std.specs.Prelude.{◌≡◌, ◌≤◌, IfOk, IfErr, OnOk, Ok, Err};
ghost use Rattle.dw_read.specs.Reading.{left};
ghost use Rattle.dw_read.specs.Took.{Took};
ghost use Rattle.dw_read_lines.specs.LineEntries.{format_read};
ghost use Rattle.dw_read_lines.specs.LineEntries.{description_read, past};
ghost use Rattle.dw_read_lines.specs.LineEntryViews.{entry_of, described_entry, Describes};
ghost use Rattle.dw_read_lines.specs.LineEntryViews.{Went};

use crate::description::Description;
use crate::encoding::EntryEncoding;
use crate::file_entry::{FileEntry, told, untold};
use dw_base::{DwForm, Encoding};
use dw_read::{ReadError, ReadResult, Reader, read_value};

/// Reads what a part tells, and its form.
pub(crate) fn read_format<R: Reader>(input: &mut R) -> ReadResult<(u64, DwForm)>
    ensures ok { IfOk result (λ f. Took _ format_read
        (R.reading input.old) (R.reading input.new) (f.0, f.1.0)) }
    ensures err { IfErr result (λ e. format_read (left (R.reading input.old)) ≡ Err e) }
{
    let content = input.read_uleb128()?;
    let form = input.read_uleb128()?;
    if form > 0xffff {
        return Err(ReadError::BadLeb128);
    }
    Ok((content, DwForm(form as u16)))
}

/// Passes so many parts.
fn pass_formats<R: Reader>(input: &mut R, count: u8) -> ReadResult<()>
    ensures went { OnOk result (Went (R.reading input.old) (R.reading input.new)) }
    ensures ok { OnOk result
        (past format_read count (left (R.reading input.old)) ≡ Ok (left (R.reading input.new))) }
    ensures err { IfErr result (λ e. past format_read count (left (R.reading input.old)) ≡ Err e) }
{
    'parts: for _ in 0..count {
        read_format(input)?;
    }
    Ok(())
}

/// Reads how entries are described, and their number.
pub(crate) fn read_description<R: Reader>(
    input: &mut R,
    encoding: Encoding,
) -> ReadResult<(Description<R>, u64)>
    requires { encoding.address_size ≤ 8 }
    ensures went { OnOk result (Went (R.reading input.old) (R.reading input.new)) }
    ensures ok { IfOk result (λ d. Describes R.reading
        (R.reading input.old) (R.reading input.new) d.0 d.1) }
    ensures encoded { IfOk result (λ d. d.0.encoding.encoding ≡ encoding) }
    ensures err { IfErr result (λ e. description_read (R.reading input.old).is_big
        (left (R.reading input.old)) ≡ Err e) }
{
    let format_count = input.read_u8()?;
    let formats = input.duplicate();
    pass_formats(input, format_count)?;
    let count = input.read_uleb128()?;
    let description = Description {
        encoding: EntryEncoding { encoding },
        formats,
        format_count,
    };
    Ok((description, count))
}

/// Reads an entry of the parts that are described.
pub(crate) fn read_entry<R: Reader>(
    input: &mut R,
    description: &Description<R>,
) -> ReadResult<FileEntry<R>>
    ensures ok { IfOk result (λ f. Took _
        (described_entry R.reading (R.reading input.old).is_big description.now)
        (R.reading input.old) (R.reading input.new) (entry_of R.reading f)) }
    ensures err { IfErr result (λ e. described_entry R.reading
        (R.reading input.old).is_big description.now (left (R.reading input.old)) ≡ Err e) }
{
    let mut formats = description.formats.duplicate();
    let mut entry = untold();
    let count = description.format_count;
    'parts: for _ in 0..count {
        let (content, form) = read_format(&mut formats)?;
        let value = read_value(input, description.encoding.encoding, form)?;
        entry = told(content, value, entry);
    }
    Ok(entry)
}
