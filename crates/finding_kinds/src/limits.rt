//! Limits on the number of requests.

/// The most requests of a run.
pub const MOST_ROWS: u32 = 65536;

/// How many requests before a new one are compared with it by user_data. The limit bounds the cost
/// of a step.
pub const LOOKED_BACK: u32 = 32;
