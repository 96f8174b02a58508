//! What stands before the lists of a table of version 5, which range lists and location lists
//! share (DWARF 5, 7.28 and 7.29).

ghost use Rattle.std.specs.Prelude.{OnOk, IfErr};
ghost use Rattle.dw_writer.specs.Causes.{BytesRefused};
ghost use Rattle.dw_writer.specs.Meaning.{IsSameWriter};
ghost use Rattle.dw_lists.specs.Pieces.{IsWritten, length_draft, fields_draft, words_draft};
ghost use Rattle.dw_lists.specs.Causes.{Refused, Is, IsNone, length_fails, words_fail};

use dw_base::{Format, Result};
use dw_writer::Writer;

/// Writes the length of what follows.
pub(crate) fn write_length<W: Writer>(length: u64, format: Format, w: &mut W) -> Result<()>
    ensures ok { OnOk result
        (IsWritten (W.meaning w.old) (W.meaning w.new) (length_draft format «length»)) }
    ensures sound { OnOk result (IsNone (length_fails format «length»)) }
    ensures err { IfErr result
        (Refused (W.meaning w.old) (W.meaning w.new) (Is (length_fails format «length»))) }
    ensures same { IsSameWriter (W.meaning w.old) (W.meaning w.new) }
{
    let at = w.write_initial_length(format)?;
    w.write_initial_length_at(at, length, format)
}

/// Writes the version, the address size, the size of segment selectors, of which there are none,
/// and the number of offset entries.
pub(crate) fn write_fields<W: Writer>(address_size: u8, count: u32, w: &mut W) -> Result<()>
    ensures ok { OnOk result
        (IsWritten (W.meaning w.old) (W.meaning w.new) (fields_draft address_size count)) }
    ensures err { IfErr result (BytesRefused (W.meaning w.old) (W.meaning w.new)) }
    ensures same { IsSameWriter (W.meaning w.old) (W.meaning w.new) }
{
    w.write_u16(5)?;
    w.write_u8(address_size)?;
    w.write_u8(0)?;
    w.write_u32(count)
}

/// Writes offset entries.
pub(crate) fn write_words<W: Writer>(words: &[u64], format: Format, w: &mut W) -> Result<()>
    ensures ok { OnOk result
        (IsWritten (W.meaning w.old) (W.meaning w.new) (words_draft format words.now)) }
    ensures sound { OnOk result (IsNone (words_fail format words.now)) }
    ensures err { IfErr result
        (Refused (W.meaning w.old) (W.meaning w.new) (Is (words_fail format words.now))) }
    ensures same { IsSameWriter (W.meaning w.old) (W.meaning w.new) }
{
    for word in words {
        w.write_udata(*word, format.word_size())?;
    }
    Ok(())
}
