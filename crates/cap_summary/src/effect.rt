//! What becomes of each cell over a segment.

ghost use Rattle.std.specs.{Option.ForSome};
ghost use Rattle.cap_summary.specs.{Keys.IsSizeOf};

use crate::{Base, Map, SharedRow, Value};

/// What becomes of the cells of a process.
#[derive(PartialEq, Drop)]
pub struct Row {
    /// The cells of the descriptors that aren't listed.
    pub base: Base,
    /// The mode's cell, if a line turns the mode.
    pub mode: Option<Value>,
    /// The cells that are listed, by descriptor.
    pub cells: Map<Value>,
}

/// What becomes of each cell over a segment, by the cells before it: its transfer function.
#[derive(Drop)]
pub struct Effect {
    /// A row for each process that is touched, by pid. A process without a row is unchanged.
    pub rows: Map<SharedRow>,
    /// How many rows there are and cells that they list, where these are counted.
    pub(crate) size: Option<usize>,
    ghost sized: { ForSome size (IsSizeOf rows) },
}
