// Sets of registers.
use std::collections::BTreeSet;

/// A set of registers, and how many they are.
#[derive(Drop)]
pub struct Registers {
    pub set: BTreeSet<u64>,
    pub count: usize,
}
