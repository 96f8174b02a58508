//! The lengths of LEB128 numbers (DWARF 5, 7.6).

ghost use Rattle.std.specs.Prelude.{◌≡◌, ℕ, ◌<◌, ◌≤◌, ◌^◌, List, [], length, All, pos};
ghost use Rattle.dw_base.specs.Leb128.{uleb_at, sleb_at, uleb, sleb};

/// The bytes of the shortest unsigned LEB128 spelling of `value`, 1 to 10: no bytes that are read
/// to their end as `value` are fewer.
pub fn uleb128_size(value: u64) -> usize
    ensures size { result ≡ length (uleb value) }
    ensures shortest { (bytes : List ℕ) → All (λ b. b < 256) bytes
        → uleb_at bytes ≡ Some (value, []) → result ≤ length bytes }
{
    let mut size = 1;
    let mut rest = value;
    'groups: while rest >= 0x80 {
        rest /= 0x80;
        size += 1;
    }
    size
}

/// The bytes of the shortest signed LEB128 spelling of `value`, 1 to 10: no bytes that are read
/// to their end as `value` are fewer.
pub fn sleb128_size(value: i64) -> usize
    ensures size { result ≡ length (sleb value) }
    ensures shortest { (bytes : List ℕ) → All (λ b. b < 256) bytes
        → sleb_at bytes ≡ Some (value, []) → result ≤ length bytes }
{
    let magnitude = value.unsigned_abs();
    if value < 0 {
        // A negative number has as many groups as the one that has its bits turned.
        return sleb128_size_of(magnitude - 1);
    }
    sleb128_size_of(magnitude)
}

// The same of a number that isn't negative.
fn sleb128_size_of(magnitude: u64) -> usize
    requires { magnitude < 2 ^ 63 }
    ensures { result ≡ length (sleb (pos magnitude)) }
{
    let mut size = 1;
    let mut rest = magnitude;
    'groups: while rest >= 0x40 {
        rest /= 0x80;
        size += 1;
    }
    size
}
