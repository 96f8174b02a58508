//! Advances: how far the place moves on before an instruction (DWARF 5, 6.4.2.1).

ghost use Rattle.std.specs.Prelude.{◌≡◌, ◌<◌, ◌^◌, Some, None, MatchResult};
ghost use Rattle.dw_base.specs.declared.error.Error.TheVariants.{InvalidFrameCodeOffset};
ghost use Rattle.dw_frame_instructions.specs.Advances.{delta, delta_piece, advance_piece, advance_fails};
ghost use Rattle.dw_frame_instructions.specs.Causes.{never, Writes};

use dw_base::constants::{
    DW_CFA_advance_loc, DW_CFA_advance_loc1, DW_CFA_advance_loc2, DW_CFA_advance_loc4,
};
use dw_base::{Error, Result};
use dw_writer::Writer;

/// Writes the advance from an offset to another, if they differ.
pub fn write_advance<W: Writer>(w: &mut W, factor: u8, from: u32, to: u32) -> Result<()>
    ensures { Writes result (W.meaning w.old) (W.meaning w.new)
        (advance_piece factor from to) (advance_fails factor from to) }
{
    if to == from {
        return Ok(());
    }
    let delta = factored_code_delta(from, to, factor)?;
    write_delta(w, delta)
}

/// How often the factor of code offsets goes into the way from an offset to another.
fn factored_code_delta(from: u32, to: u32, factor: u8) -> Result<u32>
    ensures { MatchResult result (λ n. delta factor from to ≡ Some n)
        (λ e. (e ≡ InvalidFrameCodeOffset to) × (delta factor from to ≡ None)) }
{
    if to < from {
        return Err(Error::InvalidFrameCodeOffset(to));
    }
    let factor = u32::from(factor);
    if factor == 0 {
        return Err(Error::InvalidFrameCodeOffset(to));
    }
    if (to - from) % factor != 0 {
        return Err(Error::InvalidFrameCodeOffset(to));
    }
    Ok((to - from) / factor)
}

/// Writes an advance in the shortest way.
fn write_delta<W: Writer>(w: &mut W, delta: u32) -> Result<()>
    ensures { Writes result (W.meaning w.old) (W.meaning w.new) (delta_piece delta) never }
{
    if delta < 0x40 {
        return w.write(&[DW_CFA_advance_loc.0 + delta as u8]);
    }
    if delta < 0x100 {
        w.write(&[DW_CFA_advance_loc1.0])?;
        return w.write_u8(delta as u8);
    }
    if delta < 0x1_0000 {
        w.write(&[DW_CFA_advance_loc2.0])?;
        return w.write_u16(delta as u16);
    }
    w.write(&[DW_CFA_advance_loc4.0])?;
    w.write_u32(delta)
}
