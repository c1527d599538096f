//! What a cell is after a segment, by the cells before it.

ghost use Rattle.std.specs.Prelude.{◌≡◌, ℕ, Bool, true};
ghost use Rattle.cap_summary.specs.{Keys.Cells, Keys.read, Keys.reads_within, declared.key.Key.Key};

use crate::{Key, SharedOp};
use cap_machine::{Cell, OnExec};
use cap_rights::RightSet;
use cap_trace::Pid;
use std::alloc::AllocError;

/// A cell after a segment.
#[derive(PartialEq, Drop)]
pub enum Value {
    /// Nothing is known of it, whatever the state before.
    Unknown,
    /// It is closed.
    Closed,
    /// It is held with these rights, and an exec does this with it.
    Held(RightSet, OnExec),
    /// It is a cell before the segment.
    Same(Pid, Key),
    /// It is what an op makes of a cell before the segment.
    Of(Pid, Key, SharedOp),
}

/// A clone takes constant time and allocates nothing.
impl Clone for Value {
    ghost is_clone = { λ value copy. copy ≡ value };

    fn clone(&self) -> Result<Value, AllocError> {
        match self {
            Value::Unknown => Ok(Value::Unknown),
            Value::Closed => Ok(Value::Closed),
            Value::Held(rights, flag) => Ok(Value::Held(*rights, *flag)),
            Value::Same(pid, key) => Ok(Value::Same(*pid, *key)),
            Value::Of(pid, key, op) => Ok(Value::Of(*pid, *key, op.share()?)),
        }
    }
}

impl Value {
    /// This cell, whatever the state before.
    pub fn of(cell: Cell) -> Value
        ensures reads { (cells : Cells) → read cells result ≡ cell }
        ensures names { (names : ℕ → Key → Bool) → reads_within names result ≡ true }
    {
        match cell {
            Cell::Unknown => Value::Unknown,
            Cell::Closed => Value::Closed,
            Cell::Held(rights, flag) => Value::Held(rights, flag),
        }
    }
}
