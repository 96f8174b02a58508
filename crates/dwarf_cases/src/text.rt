//! Text that is made piece by piece.

use std::alloc::{AllocError, Global};

/// A text that grows, and that is cut once memory runs out: what is pushed from then on may be
/// missing.
#[derive(Drop)]
pub struct Text {
    text: String,
    is_cut: bool,
}

impl Text {
    pub fn new(alloc: Global) -> Text {
        Text {
            text: String::new(alloc),
            is_cut: false,
        }
    }

    pub fn as_str(&self) -> &str {
        self.text.as_str()
    }

    pub fn is_cut(&self) -> bool {
        self.is_cut
    }

    pub fn push(&mut self, piece: &str) {
        if self.text.push_str(piece).is_err() {
            self.is_cut = true;
        }
    }

    /// Appends another text, or what is there of it.
    pub fn push_text(&mut self, other: &Text) {
        self.push(other.as_str());
        self.is_cut |= other.is_cut;
    }

    /// Appends a text that was made, if memory was there for it.
    pub fn push_made(&mut self, made: Result<String, AllocError>) {
        match made {
            Ok(made) => self.push(made.as_str()),
            Err(AllocError) => self.is_cut = true,
        }
    }

    /// Appends a piece so many times.
    pub fn push_times(&mut self, piece: &str, count: usize) {
        for _ in 0..count {
            self.push(piece);
        }
    }
}
