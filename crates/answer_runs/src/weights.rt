// Bounds on written tables, and on the memory for answers. A weight is an upper bound for the size of a table in bytes.

/// The least weight of a run, whatever its answer.
pub const RUN_WEIGHT: u64 = 32;

/// The greatest weight of a written table. It is below 2^32, so that offsets in the table fit 32 bits.
pub const WEIGHT_LIMIT: u64 = 4_000_000_000;

/// A bound on the bytes of memory that an answer takes with its run, without the memory that the answer owns.
pub const ANSWER_SIZE: usize = 128;
