//! The limits on texts, on scripts and on journals, which are this project's own.

/// How many bytes a text may have.
pub const MAX_TEXT: usize = 65_536;

/// The highest altitude; the lowest is 1.
pub const MAX_ALTITUDE: u64 = 4_294_967_295;

/// How many locks a filter may have.
pub const MAX_LOCKS: usize = 8;

/// How many callbacks there may be.
pub const MAX_CALLBACKS: usize = 16;

/// How deep blocks nest, the callback's own counted.
pub const MAX_DEPTH: usize = 32;

/// How deep `repeat` nests.
pub const MAX_REPEATS: usize = 4;

/// The greatest number of turns.
pub const MAX_TURNS: u64 = 1000;

/// How many points a callback may have, with the one for its end.
pub const MAX_POINTS: usize = 512;

/// How much a callback may cost, with 1 for its end.
pub const MAX_COST: u32 = 1_000_000;

/// How many filters can be loaded.
pub const MAX_FILTERS: usize = 16;

/// How many entries a journal may have.
pub const MAX_ENTRIES: usize = 1_000_000;

/// How many operations may arrive.
pub const MAX_OPERATIONS: usize = 65_536;
