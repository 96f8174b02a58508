//! The bytes of LEB128 numbers (DWARF 5, 7.6).

ghost use Rattle.std.specs.Prelude.{◌≡◌, ℕ, ◌+◌, ◌-◌, ◌<◌, ◌≤◌, length, take, pos, negsuc, if◌then◌else◌, int_lt, ◌^◌};
ghost use Rattle.dw_base.specs.Leb128.{uleb, sleb, low_seven};

/// A LEB128 number of 64 bits.
#[derive(Drop)]
pub struct Leb128Bytes {
    bytes: [u8; 10],
    len: usize,
    ghost within: { len ≤ 10 },
}

impl Leb128Bytes {
    pub fn slice(&self) -> &[u8]
        ensures { result.now ≡ take self.now.len self.now.bytes }
    {
        &self.bytes[..self.len]
    }
}

/// The shortest spelling of an unsigned number.
pub fn uleb128_bytes(val: u64) -> Leb128Bytes
    ensures { take result.len result.bytes ≡ uleb val }
{
    let mut bytes = [0; 10];
    let mut len = 0;
    let mut rest = val;
    'groups: while rest >= 0x80 {
        bytes[len] = 0x80 + (rest % 0x80) as u8;
        len += 1;
        rest /= 0x80;
    }
    bytes[len] = rest as u8;
    Leb128Bytes {
        bytes,
        len: len + 1,
    }
}

/// The shortest spelling of a signed number.
pub fn sleb128_bytes(val: i64) -> Leb128Bytes
    ensures { take result.len result.bytes ≡ sleb val }
{
    let is_negative = val < 0;
    let mut bytes = [0; 10];
    let mut len = 0;
    let mut rest = distance(val);
    'groups: while rest >= 0x40 {
        bytes[len] = 0x80 + low_group(is_negative, rest);
        len += 1;
        rest /= 0x80;
    }
    bytes[len] = low_group(is_negative, rest);
    Leb128Bytes {
        bytes,
        len: len + 1,
    }
}

/// How far a number is from 0, or a negative one from -1.
fn distance(val: i64) -> u64
    ensures value { val ≡ (if int_lt val (pos 0) then negsuc result else pos result) }
    ensures small { result < 2 ^ 63 }
{
    if val < 0 {
        (-1 - val) as u64
    } else {
        val as u64
    }
}

/// The lowest seven bits of a number at this distance.
fn low_group(is_negative: bool, rest: u64) -> u8
    ensures group { result ≡ low_seven (if is_negative then negsuc rest else pos rest) }
    ensures small { result < 128 }
{
    let group = (rest % 0x80) as u8;
    if is_negative { 0x7f - group } else { group }
}
