//! A file put together: its new area, the contents of its sections and all headers; and the memory that it describes.
#![tactic(auto)]

mod area_bytes;
mod cell_numbers;
mod header_fields;
mod headers;
mod layout;
mod making;
mod names;
mod new_sections;
mod placing;
mod symbols;
mod tail;

pub use layout::is_above;
pub use making::made;
