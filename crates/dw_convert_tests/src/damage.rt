//! Bytes of which one is turned.

/// Each bit of a byte, and all of them.
pub(crate) const MASKS: [u8; 9] = [0x01, 0x02, 0x04, 0x08, 0x10, 0x20, 0x40, 0x80, 0xff];

/// How many bytes are copied at most.
pub(crate) const LONGEST: usize = 80;

/// The bytes with these bits of one byte turned, and zeros behind them.
pub(crate) fn turned(bytes: &[u8], place: usize, mask: u8) -> [u8; LONGEST] {
    let mut copy = [0; LONGEST];
    for (to, from) in copy.iter_mut().zip(bytes) {
        *to = *from;
    }
    if let Some(byte) = copy.get_mut(place) {
        *byte ^= mask;
    }
    copy
}
