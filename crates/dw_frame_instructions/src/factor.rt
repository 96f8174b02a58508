//! Offsets that are divided by an alignment factor (DWARF 5, 6.4.1).

ghost use Rattle.std.specs.Prelude.{◌≡◌, Some, None, MatchResult};
ghost use Rattle.dw_base.specs.declared.error.Error.TheVariants.{InvalidFrameDataOffset};
ghost use Rattle.dw_frame_instructions.specs.Factors.{factored, natural};

use dw_base::{Error, Result};

/// How often the factor of data offsets goes into an offset.
pub fn factored_data_offset(offset: i32, factor: i8) -> Result<i32>
    ensures { MatchResult result (λ z. factored factor offset ≡ Some z)
        (λ e. (e ≡ InvalidFrameDataOffset offset) × (factored factor offset ≡ None)) }
{
    let factor = i32::from(factor);
    let Some(quotient) = offset.checked_div(factor) else {
        return Err(Error::InvalidFrameDataOffset(offset));
    };
    let Some(product) = quotient.checked_mul(factor) else {
        return Err(Error::InvalidFrameDataOffset(offset));
    };
    if product != offset {
        return Err(Error::InvalidFrameDataOffset(offset));
    }
    Ok(quotient)
}

/// An offset that isn't below zero.
pub fn unsigned(offset: i32) -> Option<u32>
    ensures { result ≡ natural offset }
{
    if offset < 0 {
        return None;
    }
    Some(offset as u32)
}
