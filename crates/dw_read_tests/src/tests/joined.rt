//! A few bytes that a test puts together.

/// At most 64 bytes.
#[derive(Clone, Copy)]
pub(crate) struct Joined {
    bytes: [u8; 64],
    length: u8,
}

impl Joined {
    pub(crate) fn new() -> Joined {
        Joined {
            bytes: [0; 64],
            length: 0,
        }
    }

    /// Appends bytes, as many as there is room for.
    pub(crate) fn push(&mut self, bytes: &[u8]) {
        for byte in bytes {
            if self.length < 64 {
                self.bytes[self.length as usize] = *byte;
                self.length += 1;
            }
        }
    }

    pub(crate) fn length(&self) -> u8 {
        self.length
    }

    pub(crate) fn as_slice(&self) -> &[u8] {
        &self.bytes[..self.length.min(64) as usize]
    }
}

/// The bytes with those bits of one byte turned that a mask has.
pub(crate) fn turned(bytes: &[u8], place: usize, mask: u8) -> Joined {
    let mut joined = Joined::new();
    joined.push(bytes);
    if place < 64 {
        joined.bytes[place] ^= mask;
    }
    joined
}
