//! Marks around a call that is tried with each of its allocations refused.
//!
//! A mark is an allocation of a size that nothing else here has. `tests/refusals.py` runs these tests over allocation
//! functions of its own: they see the marks, and between `Begin` and `End` they refuse each allocation, one at a time,
//! in a copy of the process. Without them a mark does nothing.

use std::alloc::Global;
use std::test::Fail;

/// What a mark says.
pub enum Mark {
    /// The call begins.
    Begin,
    /// It has answered.
    End,
    /// It answered that memory ran out.
    Lacked,
    /// What it answered and what it left is right.
    Right,
}

impl Mark {
    /// Makes the mark. Where there is no memory for it, it was asked for all the same.
    pub fn set(self, alloc: Global) {
        let size = match self {
            Mark::Begin => 77_771,
            Mark::End => 77_773,
            Mark::Lacked => 77_775,
            Mark::Right => 77_777,
        };
        let mut bytes: Vec<u8> = Vec::new(alloc);
        let _ = bytes.reserve_exact(size);
    }
}

/// Marks that a call has answered, and whether that memory ran out; and says so.
pub fn lacked(alloc: Global, is_lacking: bool) -> bool {
    Mark::End.set(alloc);
    if is_lacking {
        Mark::Lacked.set(alloc);
    }
    is_lacking
}

/// Marks that what a call answered and what it left is right, and fails with these words where it isn't.
pub fn right(alloc: Global, is_right: bool, words: &str) -> Result<(), Fail> {
    if !is_right {
        return Err(Fail::new(words));
    }
    Mark::Right.set(alloc);
    Ok(())
}
