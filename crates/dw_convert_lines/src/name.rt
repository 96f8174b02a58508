//! The names of directories and files, and the texts of files (DWARF 5, 6.2.4.1).

ghost use Rattle.std.specs.Prelude.{◌≡◌, ◌≢◌, ◌⊎◌, ◌≤◌, ◌↔◌, ℕ, List, [], nat_le, IsTrue, IfOk, IfErr, Ok, Err};
ghost use Rattle.dw_base.specs.Spellable.{IsText};
ghost use Rattle.dw_line.specs.Names.{IsName};
ghost use Rattle.dw_line.specs.declared.line_string.LineString.TheVariants.{String};
ghost use Rattle.dw_read.specs.Took.{option_of};
ghost use Rattle.dw_read.specs.Values.{value_of};
ghost use Rattle.dw_sources.specs.declared.convert_error.ConvertError.TheVariants.{NoMemory};
ghost use Rattle.dw_convert_lines.specs.EntryNames.{name_image, listed_image, string_image, line_string_image};
ghost use Rattle.dw_convert_lines.specs.Views.{texts_of, tables};

use crate::text::{ended, text_in};
use dw_line::LineString;
use dw_read::{AttributeValue, Reader};
use dw_read_units::Dwarf;
use dw_sources::{ConvertError, ConvertResult};
use dw_strings::{LineStringTable, StringTable};
use dw_writer::Bytes;
use std::alloc::Global;

/// What a name becomes. From version 5 on it keeps its form, and a string that it leads to goes
/// into the table; below, it is a string in the program itself.
pub(crate) fn convert_name<R: Reader>(
    alloc: Global,
    dwarf: &Dwarf<R>,
    version: u16,
    name: &Option<AttributeValue<R>>,
    line_strings: &mut LineStringTable,
    strings: &mut StringTable,
) -> ConvertResult<LineString>
    ensures ok { IfOk result (λ s. name_image (nat_le 5 version) (texts_of R.reading dwarf.now)
        (tables strings.old line_strings.old) (option_of (value_of R.reading) name.now)
        ≡ Ok (s, tables strings.new line_strings.new)) }
    ensures text { IfOk result IsName }
    ensures err { IfErr result (λ e. (e ≡ NoMemory) ⊎ name_image (nat_le 5 version)
        (texts_of R.reading dwarf.now) (tables strings.old line_strings.old)
        (option_of (value_of R.reading) name.now) ≡ Err e) }
{
    let Some(name) = name else {
        return Err(ConvertError::UnsupportedLineProgram);
    };
    match name {
        AttributeValue::String(text) => inline(alloc, ended(text.to_slice())),
        AttributeValue::DebugStrRef(offset) => {
            let text = text_in(&dwarf.debug_str, offset.0)?;
            convert_string(alloc, version, text.to_slice(), strings)
        }
        AttributeValue::DebugLineStrRef(offset) => {
            let text = text_in(&dwarf.debug_line_str, offset.0)?;
            convert_line_string(alloc, version, text.to_slice(), line_strings)
        }
        _ => Err(ConvertError::UnsupportedLineProgram),
    }
}

/// The same for a name in a list, which an empty string would close below version 5.
pub(crate) fn convert_listed<R: Reader>(
    alloc: Global,
    dwarf: &Dwarf<R>,
    version: u16,
    name: &Option<AttributeValue<R>>,
    line_strings: &mut LineStringTable,
    strings: &mut StringTable,
) -> ConvertResult<LineString>
    ensures ok { IfOk result (λ s. listed_image (nat_le 5 version) (texts_of R.reading dwarf.now)
        (tables strings.old line_strings.old) (option_of (value_of R.reading) name.now)
        ≡ Ok (s, tables strings.new line_strings.new)) }
    ensures text { IfOk result IsName }
    ensures full { IfOk result (λ s. version ≤ 4 → s ≢ String []) }
    ensures err { IfErr result (λ e. (e ≡ NoMemory) ⊎ listed_image (nat_le 5 version)
        (texts_of R.reading dwarf.now) (tables strings.old line_strings.old)
        (option_of (value_of R.reading) name.now) ≡ Err e) }
{
    let name = convert_name(alloc, dwarf, version, name, line_strings, strings)?;
    if version < 5 && is_empty(&name) {
        return Err(ConvertError::UnsupportedLineProgram);
    }
    Ok(name)
}

/// Whether a name is the empty string.
fn is_empty(name: &LineString) -> bool
    ensures { IsTrue result ↔ (name.now ≡ String []) }
{
    match name {
        LineString::String(bytes) => bytes.is_empty(),
        _ => false,
    }
}

/// A text of `.debug_str`.
fn convert_string(
    alloc: Global,
    version: u16,
    text: &[u8],
    strings: &mut StringTable,
) -> ConvertResult<LineString>
    requires { IsText text.now }
    ensures ok { IfOk result (λ s. (l : List (List ℕ)) → string_image (nat_le 5 version)
        (tables strings.old l) text.now ≡ (s, tables strings.new l)) }
    ensures text { IfOk result IsName }
    ensures err { IfErr result (λ e. e ≡ NoMemory) }
{
    if version < 5 {
        return inline(alloc, text);
    }
    match strings.add(text) {
        Ok(id) => Ok(LineString::StringRef(id)),
        Err(_) => Err(ConvertError::NoMemory),
    }
}

/// A text of `.debug_line_str`.
fn convert_line_string(
    alloc: Global,
    version: u16,
    text: &[u8],
    line_strings: &mut LineStringTable,
) -> ConvertResult<LineString>
    requires { IsText text.now }
    ensures ok { IfOk result (λ s. (t : List (List ℕ)) → line_string_image (nat_le 5 version)
        (tables t line_strings.old) text.now ≡ (s, tables t line_strings.new)) }
    ensures text { IfOk result IsName }
    ensures err { IfErr result (λ e. e ≡ NoMemory) }
{
    if version < 5 {
        return inline(alloc, text);
    }
    match line_strings.add(text) {
        Ok(id) => Ok(LineString::LineStringRef(id)),
        Err(_) => Err(ConvertError::NoMemory),
    }
}

/// A string in the program itself.
pub(crate) fn inline(alloc: Global, text: &[u8]) -> ConvertResult<LineString>
    ensures ok { IfOk result (λ s. s ≡ String text.now) }
    ensures err { IfErr result (λ e. e ≡ NoMemory) }
{
    match Bytes::new(alloc, text) {
        Ok(bytes) => Ok(LineString::String(bytes)),
        Err(_) => Err(ConvertError::NoMemory),
    }
}
