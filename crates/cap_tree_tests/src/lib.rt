//! Tests of cap_tree, of what no contract says: calls succeed, joins are counted on the caller's meter, leaves merge,
//! and similarity is handed on. They stand in a crate of their own, so that a check of cap_tree doesn't prove them.
#![tactic(auto)]

#[cfg(test)]
mod calls;
#[cfg(test)]
mod edits;
mod listed;
#[cfg(test)]
mod watched;

pub use listed::Listed;
