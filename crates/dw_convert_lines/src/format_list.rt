//! Whether directories or files are described so that they can be converted (DWARF 5, 6.2.4).

ghost use Rattle.std.specs.Prelude.{◌≡◌, ◌≢◌, ◌≤◌, ◌↔◌, IsTrue, All};
ghost use Rattle.dw_base.specs.declared.constants.TheConstants.{DW_FORM_implicit_const};
ghost use Rattle.dw_read_lines.specs.FileEntryFormatIters.{OfParts};
ghost use Rattle.dw_convert_lines.specs.FormatLists.{times_told, known_contents, IsConvertible};

use dw_base::DwLnct;
use dw_base::constants::{
    DW_FORM_implicit_const, DW_LNCT_LLVM_source, DW_LNCT_MD5, DW_LNCT_directory_index,
    DW_LNCT_path, DW_LNCT_size, DW_LNCT_timestamp,
};
use dw_read::Reader;
use dw_read_lines::FileEntryIter;

/// The contents that are known: those of the standard, and the text of a file.
const KNOWN_CONTENTS: [DwLnct; 6] = [
    DW_LNCT_path,
    DW_LNCT_directory_index,
    DW_LNCT_timestamp,
    DW_LNCT_size,
    DW_LNCT_MD5,
    DW_LNCT_LLVM_source,
];

/// Whether the entries can be converted by their description, as those without one can.
pub(crate) fn is_convertible<R: Reader>(entries: &FileEntryIter<R>) -> bool
    ensures { OfParts R.reading entries.now
        (λ parts. IsTrue result ↔ IsConvertible parts entries.now.remaining) }
{
    has_no_constants(entries)
        && tells_each_once(entries)
        && (entries.remaining() == 0 || times_told(entries, DW_LNCT_path) > 0)
}

/// Whether the value of no part would stand in the description itself.
fn has_no_constants<R: Reader>(entries: &FileEntryIter<R>) -> bool
    ensures { OfParts R.reading entries.now
        (λ parts. IsTrue result ↔ All (λ part. part.1 ≢ DW_FORM_implicit_const.0) parts) }
{
    let mut formats = entries.formats();
    'formats: while let Some(format) = formats.next() {
        if format.form == DW_FORM_implicit_const {
            return false;
        }
    }
    true
}

/// Whether each content that is known is told by one part at most. The parts are few, so they are
/// gone over again for each.
fn tells_each_once<R: Reader>(entries: &FileEntryIter<R>) -> bool
    ensures { OfParts R.reading entries.now
        (λ parts. IsTrue result ↔ All (λ content. times_told content parts ≤ 1) known_contents) }
{
    'contents: for content in &KNOWN_CONTENTS {
        if times_told(entries, *content) > 1 {
            return false;
        }
    }
    true
}

/// How many parts tell a content.
fn times_told<R: Reader>(entries: &FileEntryIter<R>, content: DwLnct) -> u32
    ensures { OfParts R.reading entries.now (λ parts. result ≡ times_told content parts) }
{
    let mut formats = entries.formats();
    let mut times = 0;
    'formats: while let Some(format) = formats.next() {
        if format.content_type == u64::from(content.0) {
            times += 1;
        }
    }
    times
}
