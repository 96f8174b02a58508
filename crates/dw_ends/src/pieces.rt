//! Bytes, cut at each separator: a line into fields, and a field into parts.

ghost use Rattle.std.specs.Prelude.{◌≡◌, [], ◌∷◌, ◌+◌, ◌<◌, ◌≤◌, ◌==◌, IfSome, length, position};
ghost use Rattle.std.specs.Iterator.{YieldsFirstRef, item_count};
ghost use Rattle.dw_ends.specs.Pieces.{pieces, pieces_after, pieces_left};

/// The pieces of bytes between separators, from the first on; n separators give n + 1 pieces, some
/// of them empty. Cut at `:`, `1:-4` has the pieces `1` and `-4`.
#[derive(Clone, Copy)]
pub struct Pieces<'a> {
    separator: u8,
    rest: Option<&'a [u8]>,
}

impl<'a> Pieces<'a> {
    /// All pieces of the bytes.
    #[tactic(auto, unfolding(crate::specs::Pieces::pieces_left))]
    pub fn new(bytes: &'a [u8], separator: u8) -> Pieces<'a>
        ensures { pieces_left result ≡ pieces separator bytes.now }
    {
        Pieces {
            separator,
            rest: Some(bytes),
        }
    }

    /// Whether no pieces are left.
    pub fn is_at_end(&self) -> bool
        ensures { result ≡ (length (pieces_left self.now) == 0) }
    {
        self.rest.is_none()
    }

    /// Passes all pieces that are left.
    #[tactic(auto, unfolding(crate::specs::Pieces::pieces_left))]
    pub fn pass_all(&mut self)
        ensures { pieces_left self.new ≡ [] }
    {
        self.rest = None;
    }

    /// A number that is not below that of the pieces that are left.
    pub fn most_left(&self) -> usize
        ensures { length (pieces_left self.now) ≤ result }
    {
        match self.rest {
            None => 0,
            Some(bytes) => most_pieces(bytes),
        }
    }
}

impl<'a> Iterator for Pieces<'a> {
    type Item = &'a [u8];

    ghost next_gives = { YieldsFirstRef pieces_left };

    ghost remaining = { item_count pieces_left };

    #[tactic(auto, unfolding(crate::specs::Pieces::pieces_left))]
    fn next(&mut self) -> Option<&'a [u8]> {
        let (piece, rest) = split_first_piece(self.rest?, self.separator);
        self.rest = rest;
        Some(piece)
    }
}

// A number that is not below that of the pieces of some bytes.
fn most_pieces(bytes: &[u8]) -> usize
    ensures { result ≡ length bytes.now + 1 }
{
    bytes.len() + 1
}

// The bytes before the first separator, and those after it.
fn split_first_piece(bytes: &[u8], separator: u8) -> (&[u8], Option<&[u8]>)
    ensures { pieces separator bytes.now ≡ result.0.now ∷ pieces_after separator result.1 }
{
    match find_separator(bytes, separator) {
        Some(at) => (&bytes[..at], Some(&bytes[at + 1..])),
        None => (bytes, None),
    }
}

fn find_separator(bytes: &[u8], separator: u8) -> Option<usize>
    ensures place { result ≡ position (λ b. b == separator) bytes.now }
    ensures inside { IfSome result (λ at. at < length bytes.now) }
{
    bytes.iter().position(|b| *b == separator)
}
