//! The room that a file has for new code and its tables, after its executable segment or above all segments, and the
//! start addresses of both.
#![tactic(auto)]

mod capacity;
mod round;

pub use capacity::{
    area_above, area_start, area_start_of, greatest_align, is_tight, new_segment_start, no_room,
    room, room_above,
};
pub use round::{capped, rounded_up};
