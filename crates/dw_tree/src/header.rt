//! The header of a compile unit.

ghost use Rattle.std.specs.Prelude.{◌≡◌, IsTrue, IsFalse, OnOk, IfErr};
ghost use Rattle.dw_base.specs.Numbers.{is_width};
ghost use Rattle.dw_base.specs.declared.error.Error.{Error as AnError};
ghost use Rattle.dw_base.specs.Spelling.{fields_size};
ghost use Rattle.dw_writer.specs.Meaning.{IsSameWriter, Appends};
ghost use Rattle.dw_tree.specs.Causes.{Refused, Is};
ghost use Rattle.dw_tree.specs.UnitFaults.{is_encodable, encoding_fails, fields_fail};
ghost use Rattle.dw_tree.specs.UnitText.{fields_text};

use dw_base::constants::DW_UT_compile;
use dw_base::{Encoding, Error, Result, SectionId};
use dw_writer::Writer;

/// Tells that an address or a field may have this many bytes.
fn is_supported_width(size: u8) -> bool
    ensures { result ≡ is_width size }
{
    size == 1 || size == 2 || size == 4 || size == 8
}

/// Refuses versions and address sizes that have no spelling.
pub fn check_encoding(encoding: Encoding) -> Result<()>
    ensures ok { OnOk result (IsTrue (is_encodable encoding)) }
    ensures err { IfErr result (Is (encoding_fails encoding)) }
{
    if encoding.version < 2 || encoding.version > 5 {
        return Err(Error::UnsupportedVersion(encoding.version));
    }
    if !is_supported_width(encoding.address_size) {
        return Err(Error::UnsupportedWordSize(encoding.address_size));
    }
    Ok(())
}

/// Adds what follows the length in a header, with the place of the unit's table (DWARF 5, 7.5.1.1;
/// below version 5 there is no unit type, and the address size stands last).
pub(crate) fn write_fields<W: Writer>(encoding: Encoding, table: usize, w: &mut W) -> Result<()>
    ensures ok { OnOk result
        (Appends (W.meaning w.old) (W.meaning w.new) (fields_size encoding)
        (fields_text encoding table)) }
    ensures sound { OnOk result
        ((e : AnError) → IsFalse (fields_fail encoding table (W.meaning w.old).is_plain e)) }
    ensures err { IfErr result
        (Refused (W.meaning w.old) (W.meaning w.new)
        (Is (fields_fail encoding table (W.meaning w.old).is_plain))) }
    ensures same { IsSameWriter (W.meaning w.old) (W.meaning w.new) }
{
    let word = encoding.format.word_size();
    w.write_u16(encoding.version)?;
    if encoding.version == 5 {
        w.write_u8(DW_UT_compile.0)?;
        w.write_u8(encoding.address_size)?;
        w.write_offset(table, SectionId::DebugAbbrev, word)
    } else {
        w.write_offset(table, SectionId::DebugAbbrev, word)?;
        w.write_u8(encoding.address_size)
    }
}
