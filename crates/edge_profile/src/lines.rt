// The lines of a text.
ghost use Rattle.std.specs.Prelude.{◌≡◌, ◌<◌, ◌∷◌, length};
ghost use Rattle.edge_profile.specs.Grammar.{lines};

use rb_bytes::split::split_once;

/// The lines of a text, without their line feeds. The last line may lack the line feed.
#[derive(Drop)]
pub struct Lines<'a> {
    pub left: &'a [u8],
}

impl<'a> Iterator for Lines<'a> {
    ghost use Rattle.std.specs.Iterator.{YieldsFirstRef, item_count};
    ghost use Rattle.edge_profile.specs.Grammar.{lines};

    type Item = &'a [u8];

    ghost next_gives = { YieldsFirstRef (λ s. lines s.left.now) };

    ghost remaining = { item_count (λ s. lines s.left.now) };

    fn next(&mut self) -> Option<&'a [u8]> {
        if self.left.is_empty() {
            return None;
        }
        let (line, left) = split_line(self.left);
        self.left = left;
        Some(line)
    }
}

// The first line of a text that isn't empty, and the text after this line.
fn split_line(text: &[u8]) -> (&[u8], &[u8])
    requires { 0 < length text.now }
    ensures { lines text.now ≡ result.0.now ∷ lines result.1.now }
{
    match split_once(text, b'\n') {
        Some(parts) => parts,
        None => (text, b"".as_slice()),
    }
}
