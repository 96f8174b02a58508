//! The bytes of strings that line programs name.

ghost use Rattle.std.specs.Prelude.{◌≡◌, Some};
ghost use Rattle.dw_dwarf.specs.LineNames.{IsThere, bytes_of};

use dw_line::LineString;
use dw_strings::{LineStringTable, StringTable};

/// The bytes of a string, which may stand in a table.
pub(crate) fn line_string_bytes<'a>(
    string: &'a LineString,
    line_strings: &'a LineStringTable,
    strings: &'a StringTable,
) -> &'a [u8]
    requires { IsThere line_strings.now strings.now string.now }
    ensures { bytes_of line_strings.now strings.now string.now ≡ Some result.now }
{
    match string {
        LineString::String(bytes) => bytes.slice(),
        LineString::StringRef(id) => strings.get(*id),
        LineString::LineStringRef(id) => line_strings.get(*id),
    }
}
