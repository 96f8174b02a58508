//! Texts that a zero closes.

ghost use Rattle.std.specs.Prelude.{◌≡◌, ◌<◌, ◌+◌, length, take, drop, Some, None, IfSome, IfNone};
ghost use Rattle.dw_base.specs.Forms.{text_at};

/// The place of the first zero.
pub(crate) fn first_zero(bytes: &[u8]) -> Option<usize>
    ensures within { IfSome result (λ n. n < length bytes.now) }
    ensures found { IfSome result (λ n. text_at bytes.now
        ≡ Some (take n bytes.now, drop (n + 1) bytes.now)) }
    ensures none { IfNone result (text_at bytes.now ≡ None) }
{
    for (i, byte) in bytes.iter().enumerate() {
        if *byte == 0 {
            return Some(i);
        }
    }
    None
}
