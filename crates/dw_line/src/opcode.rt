//! Opcodes of the line machine with their operands (DWARF 5, 6.2.5).

ghost use Rattle.std.specs.Prelude.{◌≡◌, ◌<◌, ◌≤◌, ◌∷◌, [], not, ◌==◌, OnOk, IfOk, IfErr, pos, ◌-ℤ◌, IsTrue, IsFalse};
ghost use Rattle.dw_base.specs.declared.constants.TheConstants.{DW_LNE_set_discriminator, DW_LNS_advance_line, DW_LNS_set_file};
ghost use Rattle.dw_base.specs.Leb128.{uleb, sleb, fits_i64};
ghost use Rattle.dw_base.specs.declared.error.Error.TheVariants.{ValueTooLarge};
ghost use Rattle.dw_writer.specs.Meaning.{IsSameWriter, Adds};
ghost use Rattle.dw_writer.specs.Causes.{BytesRefused};
ghost use Rattle.dw_line.specs.Parts.{KeepsFront};
ghost use Rattle.dw_base.specs.Instructions.{extended_bytes};
ghost use Rattle.dw_line.specs.LineRows.{raw_file};
ghost use Rattle.dw_line.specs.RawRows.{line_change};
ghost use Rattle.dw_line.specs.RowTexts.{where_needed, LineRefused};

use dw_base::constants::{DW_LNE_set_discriminator, DW_LNS_advance_line, DW_LNS_set_file};
use dw_base::{Error, FileId, Result, uleb128_size};
use dw_writer::Writer;

/// Adds an opcode without operands, if it is needed.
pub(crate) fn write_mark<W: Writer>(is_needed: bool, opcode: u8, w: &mut W) -> Result<()>
    ensures ok { OnOk result
        (Adds (W.meaning w.old) (W.meaning w.new) (where_needed is_needed (opcode ∷ []))) }
    ensures err { IfErr result (BytesRefused (W.meaning w.old) (W.meaning w.new)) }
    ensures same { IsSameWriter (W.meaning w.old) (W.meaning w.new) }
    ensures front { KeepsFront (W.meaning w.old) (W.meaning w.new) }
{
    if is_needed {
        return w.write_u8(opcode);
    }
    Ok(())
}

/// Adds an opcode with a number in ULEB128, if it is needed.
pub(crate) fn write_number<W: Writer>(
    is_needed: bool,
    opcode: u8,
    number: u64,
    w: &mut W,
) -> Result<()>
    ensures ok { OnOk result
        (Adds (W.meaning w.old) (W.meaning w.new) (where_needed is_needed (opcode ∷ uleb number))) }
    ensures err { IfErr result (BytesRefused (W.meaning w.old) (W.meaning w.new)) }
    ensures same { IsSameWriter (W.meaning w.old) (W.meaning w.new) }
    ensures front { KeepsFront (W.meaning w.old) (W.meaning w.new) }
{
    if is_needed {
        w.write_u8(opcode)?;
        return w.write_uleb128(number);
    }
    Ok(())
}

/// Adds a discriminator that isn't 0.
pub(crate) fn write_discriminator<W: Writer>(discriminator: u64, w: &mut W) -> Result<()>
    ensures ok { OnOk result
        (Adds (W.meaning w.old) (W.meaning w.new)
        (where_needed (not (discriminator == 0)) (0 ∷ extended_bytes
        DW_LNE_set_discriminator.0 (uleb discriminator)))) }
    ensures err { IfErr result (BytesRefused (W.meaning w.old) (W.meaning w.new)) }
    ensures same { IsSameWriter (W.meaning w.old) (W.meaning w.new) }
    ensures front { KeepsFront (W.meaning w.old) (W.meaning w.new) }
{
    if discriminator != 0 {
        w.write_u8(0)?;
        w.write_uleb128(1 + uleb128_size(discriminator) as u64)?;
        w.write_u8(DW_LNE_set_discriminator.0)?;
        return w.write_uleb128(discriminator);
    }
    Ok(())
}

/// The change from one line to another, refused as `ValueTooLarge` where it doesn't fit.
fn change_of_line(old: u64, new: u64) -> Result<i64>
    ensures ok { IfOk result (λ z. z ≡ line_change old new) }
    ensures fits { OnOk result (IsTrue (fits_i64 (line_change old new))) }
    ensures err { IfErr result
        (λ e. (e ≡ ValueTooLarge) × IsFalse (fits_i64 (line_change old new))) }
{
    match i64::try_from(new as i128 - old as i128) {
        Ok(change) => Ok(change),
        Err(_) => Err(Error::ValueTooLarge),
    }
}

/// Adds the change from one line to another, if they differ.
pub(crate) fn write_line<W: Writer>(old: u64, new: u64, w: &mut W) -> Result<()>
    ensures ok { OnOk result
        (Adds (W.meaning w.old) (W.meaning w.new)
        (where_needed (not (new == old)) (DW_LNS_advance_line.0 ∷ sleb (line_change old new)))) }
    ensures line { OnOk result (IsTrue (fits_i64 (line_change old new))) }
    ensures err { IfErr result (LineRefused (W.meaning w.old) (W.meaning w.new) old new) }
    ensures same { IsSameWriter (W.meaning w.old) (W.meaning w.new) }
    ensures front { KeepsFront (W.meaning w.old) (W.meaning w.new) }
{
    let change = change_of_line(old, new)?;
    if new != old {
        w.write_u8(DW_LNS_advance_line.0)?;
        return w.write_sleb128(change);
    }
    Ok(())
}

/// The number of a file in a program of this version.
fn raw_file(file: FileId, version: u16) -> u64
    requires { file.0 < usize.MAX }
    ensures { result ≡ raw_file version file.0 }
{
    file.raw(version)
}

/// Adds the number of a file, if another one came before it.
pub(crate) fn write_file<W: Writer>(old: FileId, new: FileId, version: u16, w: &mut W) -> Result<()>
    requires old { old.0 < usize.MAX }
    requires new { new.0 < usize.MAX }
    ensures ok { OnOk result
        (Adds (W.meaning w.old) (W.meaning w.new)
        (where_needed (not (raw_file version new.0 == raw_file version old.0))
        (DW_LNS_set_file.0 ∷ uleb (raw_file version new.0)))) }
    ensures err { IfErr result (BytesRefused (W.meaning w.old) (W.meaning w.new)) }
    ensures same { IsSameWriter (W.meaning w.old) (W.meaning w.new) }
    ensures front { KeepsFront (W.meaning w.old) (W.meaning w.new) }
{
    let number = raw_file(new, version);
    let is_other = number != raw_file(old, version);
    write_number(is_other, DW_LNS_set_file.0, number, w)
}
