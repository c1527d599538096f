//! Sorted maps.

mod map;
mod merging;

pub use map::Map;
pub(crate) use merging::{Combine, merge};
