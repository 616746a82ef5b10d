// Splits text at a byte.
ghost use Rattle.std.specs.Prelude.{◌≡◌, ◌==◌, ◌++◌, ◌∷◌, false, All, IfSome, IfNone};

use memchr::memchr;

/// The text before the first byte that equals `byte`, and the text after it. `None` if there is no such byte.
pub fn split_once(text: &[u8], byte: u8) -> Option<(&[u8], &[u8])>
    ensures parts { IfSome result (λ p. text.now ≡ p.0.now ++ byte ∷ p.1.now) }
    ensures first { IfSome result (λ p. All (λ c. (c == byte) ≡ false) p.0.now) }
    ensures none { IfNone result (All (λ c. (c == byte) ≡ false) text.now) }
{
    let end = memchr(byte, text)?;
    let (before, rest) = text.split_at(end);
    Some((before, &rest[1..]))
}
