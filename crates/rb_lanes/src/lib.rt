//! Searches in sorted lists, and two kernels on SIMD lanes: counting the members of a list that are at most a number,
//! and marking the halfwords of code that begin long instructions.
#![tactic(auto)]

mod hints;
mod marks;
mod ranking;

pub use hints::{Hints, count_below, is_member, is_member_from, search_below};
pub use marks::length_marks;
pub use ranking::rank;
