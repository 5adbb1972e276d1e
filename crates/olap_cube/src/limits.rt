// The limit of a cube.

/// How many dimensions a cube may have.
pub const MOST_DIMENSIONS: usize = 4;
