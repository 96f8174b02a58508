//! Addresses of list items, which range lists and location lists share.

ghost use Rattle.std.specs.Prelude.{◌≡◌, ◌+◌, ◌^◌, ◌≤◌, OnOk, IfOk, IfErr, IsTrue, IsFalse};
ghost use Rattle.dw_base.specs.declared.error.Error.TheVariants.{UnsupportedWordSize};
ghost use Rattle.dw_base.specs.declared.error.Error.TheVariants.{ValueTooLarge};
ghost use Rattle.dw_base.specs.Numbers.{is_width};
ghost use Rattle.dw_lists.specs.Equal.{address_eq};
ghost use Rattle.dw_lists.specs.Items.{marker as marker_of};
ghost use Rattle.dw_lists.specs.Texts.{plus};
ghost use Rattle.dw_lists.specs.Causes.{end_fails, is_marker as is_marker_of, Is, IsNone};

use dw_base::{Address, Error, Result};

/// The sum of two sizes.
pub(crate) fn sum(left: u64, right: u64) -> Result<u64>
    ensures ok { IfOk result (λ n. n ≡ left + right) }
    ensures err { IfErr result (λ e. (e ≡ ValueTooLarge) × (2 ^ 64 ≤ left + right)) }
{
    left.checked_add(right).ok_or(Error::ValueTooLarge)
}

/// The number of an address size whose bits are all one.
pub(crate) fn marker(address_size: u8) -> Result<u64>
    ensures ok { IfOk result (λ n. n ≡ marker_of address_size) }
    ensures width { OnOk result (IsTrue (is_width address_size)) }
    ensures err { IfErr result
        (λ e. (e ≡ UnsupportedWordSize address_size) × IsFalse (is_width address_size)) }
{
    match address_size {
        1 => Ok(0xff),
        2 => Ok(0xffff),
        4 => Ok(0xffff_ffff),
        8 => Ok(0xffff_ffff_ffff_ffff),
        _ => Err(Error::UnsupportedWordSize(address_size)),
    }
}

/// An address that lies further on.
pub(crate) fn further(address: Address, length: u64) -> Result<Address>
    ensures ok { IfOk result (λ a. a ≡ plus address length) }
    ensures sound { OnOk result (IsNone (end_fails address length)) }
    ensures err { IfErr result (Is (end_fails address length)) }
{
    match address {
        Address::Constant(begin) => Ok(Address::Constant(sum(begin, length)?)),
        Address::Symbol { symbol, addend } => {
            let end = addend as i128 + length as i128;
            if end > 0x7fff_ffff_ffff_ffff {
                return Err(Error::ValueTooLarge);
            }
            Ok(Address::Symbol {
                symbol,
                addend: end as i64,
            })
        }
    }
}

/// Tells that two addresses are the same, whatever symbols are.
pub(crate) fn is_same(left: Address, right: Address) -> bool
    ensures { result ≡ address_eq left right }
{
    left == right
}

/// Tells that an address would be read as the marker of a base.
pub(crate) fn is_marker(address: Address, all_ones: u64, address_size: u8) -> bool
    requires { all_ones ≡ marker_of address_size }
    ensures { result ≡ is_marker_of address_size address }
{
    match address {
        Address::Constant(number) => number == all_ones,
        Address::Symbol { .. } => false,
    }
}
