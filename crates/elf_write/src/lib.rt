//! The written file: it is made, and answered if the reader takes it.
#![tactic(auto)]

mod given_places;
mod writer;

pub use area_room::{need, room, room_above};
pub use elf_plan::area::table_places;
pub use elf_plan::given_tables::Table;
pub use elf_plan::weights::name_weight;
pub use writer::write;
