//! A list whose parts are summed up and shared, so that a small edit makes only a few new summaries.
//!
//! - [`Segment`] is what can sum up a list of items: a value made by `empty` and `one`, and joined by `join`.
//! - [`Tree`] is a list of items with a summary of it. An edit gives a new tree and leaves the old one as it was.
//! - [`Meter`] counts joins. An edit of `n` items counts at most `12 * bits n + 12`, where `bits n` is the number of
//!   binary digits of `n`. The tree knows a meter only as what [`Counts`], and can make none.
//!
//! A call allocates with the allocator that it is given. If an allocation is refused it answers [`NoMemory`], and all
//! trees that were there before are as they were.
//!
//! ```
//! let mut meter = Meter::new();
//! let old: Tree<Listed> = Tree::from_list(alloc, &mut meter, items)?;
//! assert_eq!(meter.joins(), old.len() as u64 - 1);
//! let new = old.insert(alloc, &mut meter, 0, Rc::new(alloc, 9)?)?;
//! assert_eq!(*new.get(0), 9);
//! assert_eq!(new.len(), old.len() + 1);
//! ```
#![tactic(auto)]

mod items;
mod laws;
mod meter;
mod no_memory;
mod node;
mod run;
mod segment;
mod similarity;
mod tree;

pub use items::Items;
pub use laws::bits_are_digits;
pub use meter::{Counts, Meter};
pub use no_memory::NoMemory;
pub use segment::Segment;
pub use similarity::{Side, Similarity};
pub use tree::Tree;
