//! Numbers that stand in bytes.

ghost use Rattle.std.specs.Prelude.{◌≡◌, ◌≤◌, ◌<◌, ◌^◌, length};
ghost use Rattle.dw_base.specs.Numbers.{value_of};

/// The number of at most 8 bytes; `big` tells that the highest stands first.
pub fn number_of(bytes: &[u8], big: bool) -> u64
    requires { length bytes.now ≤ 8 }
    ensures value { result ≡ value_of big bytes.now }
    ensures fits { result < 256 ^ length bytes.now }
{
    let mut value = 0u64;
    if big {
        'high: for byte in bytes {
            value = value * 256 + *byte as u64;
        }
        return value;
    }
    let mut index = bytes.len();
    'low: while index > 0 {
        index -= 1;
        value = value * 256 + bytes[index] as u64;
    }
    value
}
