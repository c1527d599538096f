//! Each call that may take memory, with each of its allocations refused in turn: it answers that memory ran out, or what
//! is right; what it was given is as it was; and the same call with memory then gives what is right.
//!
//! `tests/refusals.py` runs these tests so. Run by themselves they pass too, and refuse nothing.
#![tactic(auto)]

#[cfg(test)]
mod calls;
#[cfg(test)]
mod limits;
#[cfg(test)]
mod lines;
#[cfg(test)]
mod machine;
#[cfg(test)]
mod making;
#[cfg(test)]
mod marks;
#[cfg(test)]
mod reports;
#[cfg(test)]
mod sessions;
#[cfg(test)]
mod streams;
#[cfg(test)]
mod summaries;
#[cfg(test)]
mod trees;
