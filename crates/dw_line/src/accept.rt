//! What is asked of a program before a byte of it is written.

ghost use Rattle.std.specs.Prelude.{◌≡◌, ◌<◌, ◌≤◌, nat_le, length, OnOk, IfErr, IsTrue, IsFalse};
ghost use Rattle.std.specs.List.{list_all, list_any};
ghost use Rattle.dw_base.specs.Numbers.{is_width};
ghost use Rattle.dw_base.specs.declared.error.Error.{Error as AnError};
ghost use Rattle.dw_line.specs.Files.{source_of};
ghost use Rattle.dw_base.specs.LineReader.{is_line_version};
ghost use Rattle.dw_line.specs.Accepted.{encodings_agree, encoding_fails, is_new_file, has_form, sources_agree, forms_agree, forms_fail};

use crate::file::{FileEntry, first_source_form};
use crate::header::{directory_form_of, file_form_of, listed_directories};
use crate::line_string::LineString;
use dw_base::constants::DW_FORM_string;
use dw_base::{Encoding, Error, Result};

/// Tells that an address may have this many bytes.
fn is_supported_width(size: u8) -> bool
    ensures { result ≡ is_width size }
{
    size == 1 || size == 2 || size == 4 || size == 8
}

/// Tells that a program of one encoding can stand in a unit of another.
fn do_encodings_agree(own: Encoding, unit: Encoding) -> bool
    ensures { result ≡ encodings_agree own unit }
{
    own.format.word_size() == unit.format.word_size()
        && own.address_size == unit.address_size
        && (own.version == 5) == (unit.version == 5)
}

/// Refuses a program's encoding that isn't its unit's or has no spelling.
pub(crate) fn check_encoding(own: Encoding, unit: Encoding) -> Result<()>
    ensures sound { OnOk result ((e : AnError) → IsFalse (encoding_fails own unit e)) }
    ensures version { OnOk result (IsTrue (is_line_version own.version)) }
    ensures width { OnOk result (IsTrue (is_width own.address_size)) }
    ensures err { IfErr result (λ e. IsTrue (encoding_fails own unit e)) }
{
    if !do_encodings_agree(own, unit) {
        return Err(Error::IncompatibleLineProgramEncoding);
    }
    if own.version < 2 || own.version > 5 {
        return Err(Error::UnsupportedVersion(own.version));
    }
    if !is_supported_width(own.address_size) {
        return Err(Error::UnsupportedWordSize(own.address_size));
    }
    Ok(())
}

/// Tells that names are all written in a form.
fn have_form(names: &[LineString], form: u16) -> bool
    ensures { result ≡ list_all (has_form form) names.now }
{
    for name in names {
        if name.form().0 != form {
            return false;
        }
    }
    true
}

/// Tells that the names of files are all written in a form.
fn file_names_have_form(files: &[FileEntry], form: u16) -> bool
    ensures { result ≡ list_all (λ f. has_form form f.name) files.now }
{
    for file in files {
        if file.name.form().0 != form {
            return false;
        }
    }
    true
}

/// Tells that the texts of files are all written in a form.
fn sources_have_form(files: &[FileEntry], form: u16) -> bool
    ensures { result ≡ list_all (λ f. has_form form (source_of f)) files.now }
{
    for file in files {
        if file.source_form() != form {
            return false;
        }
    }
    true
}

/// Tells that the texts of files are all written in one form, if some file has one.
fn do_sources_agree(files: &[FileEntry]) -> bool
    ensures { result ≡ sources_agree files.now }
{
    match first_source_form(files) {
        Some(form) => sources_have_form(files, form),
        None => true,
    }
}

/// Tells that the names of a program have forms that its version can spell.
fn do_forms_agree(is_old: bool, directories: &[LineString], files: &[FileEntry]) -> bool
    requires { 0 < length directories.now }
    ensures { result ≡ forms_agree is_old directories.now files.now }
{
    if is_old {
        let form = DW_FORM_string.0;
        let listed = listed_directories(directories);
        return have_form(listed, form) && file_names_have_form(files, form);
    }
    have_form(directories, directory_form_of(directories))
        && file_names_have_form(files, file_form_of(files))
        && do_sources_agree(files)
}

/// Tells that some file has a checksum or a text.
fn some_is_new(files: &[FileEntry]) -> bool
    ensures { result ≡ list_any is_new_file files.now }
{
    for file in files {
        if file.is_new() {
            return true;
        }
    }
    false
}

/// Refuses names, checksums and texts that the version can't spell.
pub(crate) fn check_forms(
    version: u16,
    directories: &[LineString],
    files: &[FileEntry],
) -> Result<()>
    requires { 0 < length directories.now }
    ensures few_directories { length directories.now ≤ usize.MAX }
    ensures few_files { length files.now ≤ usize.MAX }
    ensures sound { OnOk result
        ((e : AnError) → IsFalse (forms_fail version directories.now files.now e)) }
    ensures err { IfErr result (λ e. IsTrue (forms_fail version directories.now files.now e)) }
{
    let is_old = version <= 4;
    if is_old && some_is_new(files) {
        return Err(Error::NeedVersion(5));
    }
    if !do_forms_agree(is_old, directories, files) {
        return Err(Error::LineStringFormMismatch);
    }
    Ok(())
}
