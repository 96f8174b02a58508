//! The strings that lines give.

ghost use Rattle.std.specs.Prelude.{◌≡◌, Ok, IfOk, IfErr};
ghost use Rattle.dw_base.specs.Spellable.{IsText};
ghost use Rattle.dw_script_units.specs.Names.{text_of as text_in};
ghost use Rattle.dw_script_units.specs.Refused.{RefusedFor};

use crate::command_error::CommandError;
use dw_script::{HexBytes, Reason};
use std::alloc::Global;

/// The bytes of a string. It is refused where it has a zero byte (`ZeroByte`), and as `NoMemory`.
///
/// ```
/// let text = text_of(alloc, &bytes)?;
/// ```
pub fn text_of(alloc: Global, bytes: &HexBytes<'_>) -> Result<Vec<u8>, CommandError>
    ensures ok { IfOk result (λ text. Ok text.items ≡ text_in bytes.now) }
    ensures text { IfOk result (λ text. IsText text.items) }
    ensures err { IfErr result (RefusedFor (text_in bytes.now)) }
{
    let text = bytes.decode(alloc).map_err(|_| CommandError::NoMemory)?;
    if text.contains(&0) {
        return Err(CommandError::Refused(Reason::ZeroByte));
    }
    Ok(text)
}
