//! The strings of line programs, and what is known of files.

ghost use Rattle.std.specs.Prelude.{◌≡◌, Some, IfOk, IfErr};
ghost use Rattle.dw_base.specs.declared.error.Error.TheVariants.{NoMemory};
ghost use Rattle.dw_line.specs.LineStrings.{line_string_eq, line_string_fed, line_string_per, line_string_equiv, line_string-fed};

use dw_base::constants::{DW_FORM_line_strp, DW_FORM_string, DW_FORM_strp};
use dw_base::{DwForm, LineStringId, Result, StringId};
use dw_writer::Bytes;
use std::hash::{Hash, Hasher};

/// The name of a directory or a file, or the text of a file (DWARF 5, 6.2.4.1). Up to version 4
/// only `String` can be written.
#[derive(Drop)]
pub enum LineString {
    /// The string itself, without a zero byte (`DW_FORM_string`).
    String(Bytes),
    /// A string of `.debug_str` (`DW_FORM_strp`).
    StringRef(StringId),
    /// A string of `.debug_line_str` (`DW_FORM_line_strp`).
    LineStringRef(LineStringId),
}

impl LineString {
    ghost use Rattle.dw_line.specs.Names.{form_of};

    /// A second string that equals this one.
    pub fn try_clone(&self) -> Result<LineString>
        ensures ok { IfOk result (λ copy. copy ≡ self.now) }
        ensures err { IfErr result (λ e. e ≡ NoMemory) }
    {
        match self {
            LineString::String(bytes) => Ok(LineString::String(bytes.try_clone()?)),
            LineString::StringRef(id) => Ok(LineString::StringRef(*id)),
            LineString::LineStringRef(id) => Ok(LineString::LineStringRef(*id)),
        }
    }

    /// The form that the string is written in.
    pub(crate) fn form(&self) -> DwForm
        ensures { result.0 ≡ form_of self.now }
    {
        match self {
            LineString::String(_) => DW_FORM_string,
            LineString::StringRef(_) => DW_FORM_strp,
            LineString::LineStringRef(_) => DW_FORM_line_strp,
        }
    }
}

impl PartialEq for LineString {
    ghost eq = { line_string_eq };

    ghost laws = { line_string_per };

    fn eq(&self, other: &LineString) -> bool {
        match (self, other) {
            (LineString::String(a), LineString::String(b)) => a == b,
            (LineString::StringRef(a), LineString::StringRef(b)) => a == b,
            (LineString::LineStringRef(a), LineString::LineStringRef(b)) => a == b,
            _ => false,
        }
    }
}

impl Eq for LineString {
    ghost laws = { line_string_equiv };
}

impl Hash for LineString {
    ghost hash_input = { line_string_fed };

    ghost respects_eq = { line_string-fed };

    fn hash<H: Hasher>(&self, state: &mut H) {
        match self {
            LineString::String(bytes) => {
                0u8.hash(state);
                bytes.hash(state);
            }
            LineString::StringRef(id) => {
                1u8.hash(state);
                id.0.hash(state);
            }
            LineString::LineStringRef(id) => {
                2u8.hash(state);
                id.0.hash(state);
            }
        }
    }
}

/// What is known of a file besides its name. A program is written in version 5 to have a checksum
/// or a text.
#[derive(Drop)]
pub struct FileInfo {
    /// When the file was last changed, in a way of the implementation, or 0.
    pub timestamp: u64,
    /// The bytes of the file, or 0.
    pub size: u64,
    /// The MD5 checksum of the file.
    pub md5: Option<[u8; 16]>,
    /// The text of the file.
    pub source: Option<LineString>,
}

impl FileInfo {
    ghost use Rattle.dw_line.specs.Names.{no_info};

    /// Nothing is known.
    pub(crate) fn none() -> FileInfo
        ensures { result ≡ no_info }
    {
        FileInfo {
            timestamp: 0,
            size: 0,
            md5: None,
            source: None,
        }
    }
}
