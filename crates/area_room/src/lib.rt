//! Upper bounds on the size of new code and its tables; and, from `file_room`, where a file has room for them.
#![tactic(auto)]

mod block_counts;
mod bounds;
mod frame_need;
mod worst_need;

pub use file_room::{area_start_of, is_tight, no_room, room, room_above};
pub use worst_need::need;
