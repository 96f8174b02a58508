//! Sums of sizes.

ghost use Rattle.std.specs.Prelude.{◌≡◌, ◌+◌, ◌≤◌, ◌^◌, IfOk, IfErr};
ghost use Rattle.dw_base.specs.declared.error.Error.TheVariants.{ValueTooLarge};

use dw_base::{Error, Result};

/// The sum of two sizes in bytes. Refused as `ValueTooLarge` where it has no room in 64 bits.
pub fn sum(left: u64, right: u64) -> Result<u64>
    ensures ok { IfOk result (λ n. n ≡ left + right) }
    ensures err { IfErr result (λ e. (e ≡ ValueTooLarge) × (2 ^ 64 ≤ left + right)) }
{
    match left.checked_add(right) {
        Some(size) => Ok(size),
        None => Err(Error::ValueTooLarge),
    }
}
