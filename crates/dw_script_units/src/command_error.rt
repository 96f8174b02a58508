//! Why a line of a script isn't carried out.

ghost use Rattle.std.specs.Prelude.{◌≡◌, ◌<◌, ◌≤◌, IfOk, IfErr};

use dw_script::Reason;
use thiserror::Error as ThisError;

/// Why a command wasn't carried out: it is refused, or memory ran out.
///
/// ```
/// let index = index_below(unit, units.count(), Reason::NoSuchUnit)?;
/// ```
#[derive(Clone, Copy, Debug, PartialEq, Eq, ThisError)]
pub enum CommandError {
    #[error("{0}")]
    Refused(Reason),
    #[error("memory ran out")]
    NoMemory,
}

/// The index that a line gives, where there is something at it; else it is refused for the reason
/// `missing`.
pub fn index_below(number: u64, count: usize, missing: Reason) -> Result<usize, CommandError>
    ensures ok { IfOk result (λ i. (i ≡ number) × (i < count)) }
    ensures err { IfErr result (λ e. (e ≡ CommandError.Refused missing) × (count ≤ number)) }
{
    match usize::try_from(number) {
        Ok(index) if index < count => Ok(index),
        _ => Err(CommandError::Refused(missing)),
    }
}
