// The entries of a table that were read.
use crate::frame_table::Fde;

/// The part of a table up to its first malformed entry: how many CIEs and which FDEs come before that one, and
/// its offset. Bytes that are no entry count as a malformed one.
#[derive(Drop)]
pub struct Listed {
    pub cies: u64,
    pub list: Vec<Fde>,
    pub bad: Option<u64>,
}
