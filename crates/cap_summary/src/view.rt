//! What is seen of a cell after a segment.

ghost use Rattle.std.specs.Prelude.{Bool, IfOk, IfSome, option_copied, true, ℕ, ◌≡◌};
ghost use Rattle.cap_summary.specs.Names.{IsRowWithin, Names, ReadWithin, RowWithin, has_cell, others_within};
ghost use Rattle.cap_summary.specs.{Effects.{base_cell, changed, listed_value, row_cell}, Sorted.found, applied};
ghost use Rattle.cap_summary.specs.{Keys.{Cells, read, reads_within, seen_cell, seen_within}, declared.key.Key.Key};

use crate::{Base, DefaultCells, Effect, Key, Passing, Row, SharedOp, Value};
use cap_machine::{Cell, Op};
use cap_trace::{Fd, Pid};
use cap_tree::NoMemory;
use std::alloc::Global;

/// A cell after a segment, not yet copied. To look at one allocates nothing.
#[derive(Clone, Copy)]
pub(crate) enum Seen<'a> {
    /// This cell, whatever the state before.
    Is(Cell),
    /// A cell before the segment.
    Same(Pid, Key),
    /// What an exec makes of one.
    Executed(Pid, Key),
    /// What an op makes of one.
    Made(&'a SharedOp, Pid, Key),
}

impl Seen<'_> {
    /// What an op makes of it. Where it is a cell before the segment, the value shares the op.
    pub(crate) fn then(&self, alloc: Global, op: &SharedOp) -> Result<Value, NoMemory>
        ensures reads { IfOk result (λ v. (cells : Cells) → read cells v ≡ applied op.now (seen_cell cells self.now)) }
        ensures names { IfOk result (λ v. (names : ℕ → Key → Bool) → seen_within names self.now ≡ true
            → reads_within names v ≡ true) }
    {
        let (pid, key, both) = match self {
            Seen::Is(cell) => return Ok(Value::of(op.get().on(*cell))),
            Seen::Same(pid, key) => return Ok(Value::Of(*pid, *key, op.share()?)),
            Seen::Executed(pid, key) => (*pid, *key, Op::exec().then(op.get())),
            Seen::Made(first, pid, key) => (*pid, *key, first.get().then(op.get())),
        };
        Ok(Value::Of(pid, key, SharedOp::new(alloc, both)?))
    }
}

impl Value {
    /// The cell that it stands for.
    pub(crate) fn view(&self) -> Seen<'_>
        ensures cells { (cells : Cells) → seen_cell cells result ≡ read cells self.now }
        ensures names { (names : Names) → seen_within (has_cell names) result ≡ reads_within (has_cell names) self.now }
    {
        match self {
            Value::Unknown => Seen::Is(Cell::Unknown),
            Value::Closed => Seen::Is(Cell::Closed),
            Value::Held(rights, flag) => Seen::Is(Cell::Held(*rights, *flag)),
            Value::Same(pid, key) => Seen::Same(*pid, *key),
            Value::Of(pid, key, op) => Seen::Made(op, *pid, *key),
        }
    }
}

impl Base {
    /// The cell of a descriptor of a process that isn't listed.
    fn view(&self, pid: Pid, fd: Fd) -> Seen<'_>
        ensures cells { (cells : Cells) → seen_cell cells result ≡ base_cell cells pid self.now fd }
        ensures names { (names : Names) → names.pids pid ≡ true → names.fds fd ≡ true
            → others_within names self.now.others ≡ true → seen_within (has_cell names) result ≡ true }
    {
        if self.closes(fd) {
            return Seen::Is(Cell::Closed);
        }
        match &self.others {
            DefaultCells::Own => Seen::Same(pid, Key::Fd(fd)),
            DefaultCells::Unknown => Seen::Is(Cell::Unknown),
            DefaultCells::Closed => Seen::Is(Cell::Closed),
            DefaultCells::Of(source, Passing::Same) => Seen::Same(*source, Key::Fd(fd)),
            DefaultCells::Of(source, Passing::Exec) => Seen::Executed(*source, Key::Fd(fd)),
        }
    }
}

impl Row {
    /// The cell of a key of the process, where this is listed at the key.
    pub(crate) fn view<'a>(&'a self, pid: Pid, key: Key, listed: Option<&'a Value>) -> Seen<'a>
        requires { option_copied listed ≡ listed_value self.now key }
        ensures cells { (cells : Cells) → seen_cell cells result ≡ row_cell cells pid self.now key }
        ensures names { (names : Names) → has_cell names pid key ≡ true → RowWithin names self.now
            → seen_within (has_cell names) result ≡ true }
    {
        match (listed, key) {
            (Some(value), _) => value.view(),
            (None, Key::Mode) => Seen::Same(pid, key),
            (None, Key::Fd(fd)) => self.base.view(pid, fd),
        }
    }
}

impl Effect {
    /// What becomes of a cell.
    #[inline(always)]
    pub(crate) fn view(&self, pid: Pid, key: Key) -> Seen<'_>
        ensures cells { (cells : Cells) → seen_cell cells result ≡ changed self.now cells pid key }
        ensures names { (names : Names) → IfSome (found self.now.rows pid) (IsRowWithin names pid)
            → has_cell names pid key ≡ true → seen_within (has_cell names) result ≡ true }
    {
        match self.row(pid) {
            Some(row) => row.view(pid, key, row.listed(key)),
            None => Seen::Same(pid, key),
        }
    }

    /// A value of a later segment, by the cells before this one.
    pub(crate) fn value_after(&self, alloc: Global, value: &Value) -> Result<Value, NoMemory>
        ensures reads { IfOk result (λ v. (cells : Cells) → read cells v ≡ read (changed self.now cells) value.now) }
        ensures names { IfOk result (λ v. (names of : Names) → ReadWithin names of self.now
            → reads_within (has_cell of) value.now ≡ true → reads_within (has_cell names) value.now ≡ true
            → reads_within (has_cell names) v ≡ true) }
    {
        let view = match value {
            Value::Unknown | Value::Closed | Value::Held(..) => return Ok(value.clone()?),
            Value::Same(pid, key) => self.view(*pid, *key),
            Value::Of(pid, key, op) => return self.view(*pid, *key).then(alloc, op),
        };
        match view {
            Seen::Is(cell) => Ok(Value::of(cell)),
            Seen::Same(pid, key) => Ok(Value::Same(pid, key)),
            Seen::Executed(pid, key) => Ok(Value::Of(pid, key, SharedOp::new(alloc, Op::exec())?)),
            Seen::Made(op, pid, key) => Ok(Value::Of(pid, key, op.share()?)),
        }
    }
}
