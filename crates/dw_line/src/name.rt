//! Names of directories and files in a program's header.

ghost use Rattle.std.specs.Prelude.{◌≡◌, [], OnOk, IfErr, IsFalse};
ghost use Rattle.std.specs.List.{list_any};
ghost use Rattle.dw_base.specs.Numbers.{word_of};
ghost use Rattle.dw_base.specs.declared.error.Error.{Error as AnError};
ghost use Rattle.dw_writer.specs.Meaning.{IsSameWriter, Appends};
ghost use Rattle.dw_line.specs.Names.{name_size, name_text, name_fails};
ghost use Rattle.dw_line.specs.Parts.{KeepsFront, sizes, texts, Refused};
ghost use Rattle.dw_line.specs.declared.line_string.LineString.TheVariants.{StringRef, LineStringRef};

use crate::line_string::LineString;
use dw_base::{Error, Format, LineStringId, Result, SectionId, StringId};
use dw_strings::{LineStringTable, StringTable};
use dw_writer::Writer;

/// Adds the place of a string of `.debug_str`.
fn write_string_ref<W: Writer>(
    format: Format,
    strings: &StringTable,
    id: StringId,
    w: &mut W,
) -> Result<()>
    ensures ok { OnOk result
        (Appends (W.meaning w.old) (W.meaning w.new) (word_of format)
        (name_text (word_of format) strings.now [] (StringRef id))) }
    ensures sound { OnOk result
        ((e : AnError) → IsFalse (name_fails (word_of format) strings.now []
        (W.meaning w.old).is_plain (StringRef id) e)) }
    ensures err { IfErr result
        (Refused (W.meaning w.old) (W.meaning w.new)
        (name_fails (word_of format) strings.now [] (W.meaning w.old).is_plain (StringRef id))) }
    ensures same { IsSameWriter (W.meaning w.old) (W.meaning w.new) }
    ensures front { KeepsFront (W.meaning w.old) (W.meaning w.new) }
{
    if id.index() >= strings.count() {
        return Err(Error::InvalidReference);
    }
    w.write_offset(
        strings.offset(id).0,
        SectionId::DebugStr,
        format.word_size(),
    )
}

/// Adds the place of a string of `.debug_line_str`.
fn write_line_string_ref<W: Writer>(
    format: Format,
    line_strings: &LineStringTable,
    id: LineStringId,
    w: &mut W,
) -> Result<()>
    ensures ok { OnOk result
        (Appends (W.meaning w.old) (W.meaning w.new) (word_of format)
        (name_text (word_of format) [] line_strings.now (LineStringRef id))) }
    ensures sound { OnOk result
        ((e : AnError) → IsFalse (name_fails (word_of format) [] line_strings.now
        (W.meaning w.old).is_plain (LineStringRef id) e)) }
    ensures err { IfErr result
        (Refused (W.meaning w.old) (W.meaning w.new)
        (name_fails (word_of format) [] line_strings.now (W.meaning w.old).is_plain
        (LineStringRef id))) }
    ensures same { IsSameWriter (W.meaning w.old) (W.meaning w.new) }
    ensures front { KeepsFront (W.meaning w.old) (W.meaning w.new) }
{
    if id.index() >= line_strings.count() {
        return Err(Error::InvalidReference);
    }
    w.write_offset(
        line_strings.offset(id).0,
        SectionId::DebugLineStr,
        format.word_size(),
    )
}

/// Adds a name in its form: its bytes with the zero that closes them, or its place.
pub(crate) fn write_name<W: Writer>(
    format: Format,
    strings: &StringTable,
    line_strings: &LineStringTable,
    name: &LineString,
    w: &mut W,
) -> Result<()>
    ensures ok { OnOk result
        (Appends (W.meaning w.old) (W.meaning w.new) (name_size (word_of format) name.now)
        (name_text (word_of format) strings.now line_strings.now name.now)) }
    ensures sound { OnOk result
        ((e : AnError) → IsFalse (name_fails (word_of format) strings.now line_strings.now
        (W.meaning w.old).is_plain name.now e)) }
    ensures err { IfErr result
        (Refused (W.meaning w.old) (W.meaning w.new)
        (name_fails (word_of format) strings.now line_strings.now
        (W.meaning w.old).is_plain name.now)) }
    ensures same { IsSameWriter (W.meaning w.old) (W.meaning w.new) }
    ensures front { KeepsFront (W.meaning w.old) (W.meaning w.new) }
{
    match name {
        LineString::String(bytes) => {
            w.write(bytes.slice())?;
            w.write_u8(0)
        }
        LineString::StringRef(id) => write_string_ref(format, strings, *id, w),
        LineString::LineStringRef(id) => write_line_string_ref(format, line_strings, *id, w),
    }
}

/// Adds names, one after another.
pub(crate) fn write_names<W: Writer>(
    format: Format,
    strings: &StringTable,
    line_strings: &LineStringTable,
    names: &[LineString],
    w: &mut W,
) -> Result<()>
    ensures ok { OnOk result
        (Appends (W.meaning w.old) (W.meaning w.new) (sizes (name_size (word_of format)) names.now)
        (texts (name_text (word_of format) strings.now line_strings.now) names.now)) }
    ensures sound { OnOk result
        ((e : AnError) → IsFalse (list_any (λ n. name_fails
        (word_of format) strings.now line_strings.now (W.meaning w.old).is_plain n e) names.now)) }
    ensures err { IfErr result
        (Refused (W.meaning w.old) (W.meaning w.new)
        (λ e. list_any (λ n. name_fails (word_of format) strings.now line_strings.now
        (W.meaning w.old).is_plain n e) names.now)) }
    ensures same { IsSameWriter (W.meaning w.old) (W.meaning w.new) }
    ensures front { KeepsFront (W.meaning w.old) (W.meaning w.new) }
{
    for name in names {
        write_name(format, strings, line_strings, name, w)?;
    }
    Ok(())
}
