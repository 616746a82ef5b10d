// The lowest of some places.
ghost use Rattle.std.specs.Prelude.{◌≡◌};
ghost use Rattle.answer_runs.specs.Choices.{lower};
ghost use Rattle.dw_unit.specs.Lowest.{lower_if};

/// The lower of two places, each of which may be missing.
pub fn lower(x: Option<u64>, y: Option<u64>) -> Option<u64>
    ensures { result ≡ lower x y }
{
    match x {
        Some(place) => match y {
            Some(other) => Some(place.min(other)),
            None => x,
        },
        None => y,
    }
}

/// The lower of `place`, if it counts, and `other`, which may be missing.
pub fn lower_of(counts: bool, place: u64, other: Option<u64>) -> Option<u64>
    ensures { result ≡ lower_if counts place other }
{
    if counts {
        lower(Some(place), other)
    } else {
        other
    }
}
