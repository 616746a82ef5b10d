// Directions over a link.
ghost use Rattle.std.specs.Prelude.{◌≡◌};
ghost use Rattle.flow_infer.specs.Heights.{reversed};

/// A direction over a link: from its start to its end, or back.
#[derive(Clone, Copy)]
pub enum Direction {
    Along,
    Against,
}

impl Direction {
    /// The opposite direction.
    pub fn reversed(self) -> Direction
        ensures { result ≡ reversed self }
    {
        match self {
            Direction::Along => Direction::Against,
            Direction::Against => Direction::Along,
        }
    }
}
