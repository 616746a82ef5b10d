// Texts in sections of texts. DWARF 5, sections 6.2.4.1 and 7.5.5.
ghost use Rattle.std.specs.Prelude.{◌≡◌, ℕ, is_some, nat_lt};
ghost use Rattle.table_core.specs.Texts.{text_in};

use memchr::memrchr;

/// The sections of texts, and the end of the last text in each: a text is at each offset below it.
#[derive(Clone, Copy)]
pub struct Texts<'s> {
    pub str: &'s [u8],
    str_end: usize,
    pub line_str: &'s [u8],
    line_str_end: usize,
    ghost str_ends: { (offset : ℕ) → is_some (text_in str.now offset) ≡ nat_lt offset str_end },
    ghost line_str_ends: { (offset : ℕ) → is_some (text_in line_str.now offset) ≡ nat_lt offset line_str_end },
}

impl<'s> Texts<'s> {
    /// The texts of `.debug_str` and `.debug_line_str`.
    pub fn new(str: &'s [u8], line_str: &'s [u8]) -> Texts<'s>
        ensures str { result.str.now ≡ str.now }
        ensures line_str { result.line_str.now ≡ line_str.now }
    {
        let str_end = last_end(str);
        let line_str_end = last_end(line_str);
        Texts {
            str,
            str_end,
            line_str,
            line_str_end,
        }
    }

    /// Whether a text is at an offset of `.debug_str`.
    pub fn has_str(&self, offset: u64) -> bool
        ensures { result ≡ is_some (text_in self.now.str.now offset) }
    {
        offset < self.str_end as u64
    }

    /// Whether a text is at an offset of `.debug_line_str`.
    pub fn has_line_str(&self, offset: u64) -> bool
        ensures { result ≡ is_some (text_in self.now.line_str.now offset) }
    {
        offset < self.line_str_end as u64
    }
}

// The end of the last text. Texts end with a zero byte, so no text is at this offset or above.
fn last_end(section: &[u8]) -> usize
    ensures { (offset : ℕ) → is_some (text_in section.now offset) ≡ nat_lt offset result }
{
    match memrchr(0, section) {
        Some(last) => last + 1,
        None => 0,
    }
}
