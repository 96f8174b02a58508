//! A text or a listing, cut into lines.

ghost use Rattle.std.specs.Prelude.{◌≡◌, ◌∷◌, ◌+◌, ◌<◌, ◌≤◌, ◌==◌, IfSome, length, position};
ghost use Rattle.std.specs.Iterator.{YieldsFirstRef, item_count};
ghost use Rattle.dw_ends.specs.Pieces.{newline, pieces, pieces_after};
ghost use Rattle.dw_ends.specs.TextLines.{lines_left};

use memchr::memchr;

/// The lines of a text, from the first on.
///
/// ```
/// for line in lines(b"order big\n.debug_info 1 00") {
///     reader.line(line)?;
/// }
/// ```
#[derive(Drop)]
pub struct TextLines<'a> {
    rest: Option<&'a [u8]>,
}

impl<'a> Iterator for TextLines<'a> {
    type Item = &'a [u8];

    ghost next_gives = { YieldsFirstRef lines_left };

    ghost remaining = { item_count lines_left };

    #[tactic(auto, unfolding(crate::specs::TextLines::lines_left))]
    fn next(&mut self) -> Option<&'a [u8]> {
        let (line, rest) = split_first_line(self.rest?);
        self.rest = rest;
        Some(line)
    }
}

/// The lines of a text, which may lack its last newline.
#[tactic(auto, unfolding(crate::specs::TextLines::lines_left))]
pub fn lines(text: &[u8]) -> TextLines<'_>
    ensures lines { lines_left result ≡ pieces newline text.now }

    // So a line's number fits wherever the text's length does.
    ensures few { length (lines_left result) ≤ length text.now + 1 }
{
    TextLines { rest: Some(text) }
}

// The bytes before the first newline, and those after it.
fn split_first_line(text: &[u8]) -> (&[u8], Option<&[u8]>)
    ensures { pieces newline text.now ≡ result.0.now ∷ pieces_after newline result.1 }
{
    match find_newline(text) {
        Some(at) => (&text[..at], Some(&text[at + 1..])),
        None => (text, None),
    }
}

fn find_newline(text: &[u8]) -> Option<usize>
    ensures place { result ≡ position (λ b. b == newline) text.now }
    ensures inside { IfSome result (λ at. at < length text.now) }
{
    memchr(b'\n', text)
}
