// Instructions of each width with their meanings.

pub mod full;
pub mod half;
