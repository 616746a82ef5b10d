// Ranges of addresses.

/// The addresses from `low` to before `high`. `high` isn't truncated to 64 bits: a length may lead past the last
/// address.
#[derive(Clone, Copy)]
pub struct Range {
    pub low: u64,
    pub high: u128,
}
