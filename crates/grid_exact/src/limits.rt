//! Limits that the whole program keeps to.

/// The greatest coordinate of a point, in grid units. The least one is as far below 0.
pub const MAX_COORDINATE: i64 = 1 << 29;

/// How many edges a chain has at most.
pub const MAX_CHAIN_EDGES: usize = 1023;

/// How many vertices a chain has at most.
pub const MAX_CHAIN_VERTICES: usize = MAX_CHAIN_EDGES + 1;
