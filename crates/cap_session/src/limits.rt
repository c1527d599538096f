//! The limits of what is read and kept.

pub use cap_trace::LONGEST_LINE;

/// A line of a script has at most so many bytes, its LF not counted.
pub const LONGEST_SCRIPT_LINE: usize = 1_056;

/// Of a line of a script that is begun at most so many bytes are kept: with those it is too long.
pub(crate) const MOST_HELD: usize = LONGEST_SCRIPT_LINE + 1;

/// A trace has at most so many lines, those that are skipped not counted.
pub const MOST_LINES: usize = 1_000_000;

/// At most so many bytes are read at a time.
pub const LONGEST_PIECE: usize = 65_536;
