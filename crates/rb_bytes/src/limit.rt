//! Places of `FaultKind::TooLarge`: the limit that is exceeded.

/// The number of bytes of the file.
pub const FILE_BYTES: u64 = 0;

/// The number of bytes of the profile.
pub const PROFILE_BYTES: u64 = 1;

/// The number of bytes of code.
pub const CODE_BYTES: u64 = 2;

/// The number of functions.
pub const FUNCTIONS: u64 = 3;

/// The number of bytes of the text of the map.
pub const MAP_BYTES: u64 = 4;

/// The number of section headers or program headers.
pub const HEADERS: u64 = 5;

/// The weight of the tables or names that are written.
pub const WEIGHTS: u64 = 6;
