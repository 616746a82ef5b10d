// The form of a written frame table.
ghost use Rattle.std.specs.Prelude.{◌≡◌};
ghost use Rattle.frame_rewrite.specs.SpelledFrames.{is_debug};

/// Which of the two tables is written. What differs is how addresses are spelled.
#[derive(Clone, Copy)]
pub enum Form {
    /// `.debug_frame`: addresses are absolute, of eight bytes.
    Debug,
    /// `.eh_frame` at an address: each address is a distance from its own field, in four bytes.
    Loaded(u64),
}

impl Form {
    /// Whether the table is `.debug_frame`.
    pub(crate) fn is_debug(self) -> bool
        ensures { result ≡ is_debug self }
    {
        match self {
            Form::Debug => true,
            Form::Loaded(_) => false,
        }
    }
}
