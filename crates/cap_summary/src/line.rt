//! The effect of one line.

ghost use Rattle.std.specs.Prelude.{IfOk, List, None, OnOk, Some, [], false, if◌then◌else◌, true, unwrap_or, ℕ};
ghost use Rattle.std.specs.Prelude.{◌++◌, ◌==◌, ◌∷◌, ◌≡◌, ◌⊎◌};
ghost use Rattle.cap_summary.specs.{All, Keys.{Cells, read}, Sorted.found, declared.key.Key.Key, fds_spelled, is_child};
ghost use Rattle.cap_summary.specs.Names.{EffectWithin, IsListedWithin, LineWithin, ListWithin, Names, RowWithin};
ghost use Rattle.cap_summary.specs.{Closed, Effects.{LineLeaves, changed, is_cell, is_touched, leaves, line_after}};
ghost use Rattle.cap_summary.specs.{Keys.cells_of, State, ended};
ghost use Rattle.cap_summary.specs.{Effects.{own_row, row_cell, row_leaves, sets_cells}, option_map_or, started};

use crate::{
    Base, DefaultCells, Effect, Key, Map, Passing, Row, SharedOp, SharedRow, Value, cell_of_mode,
};
use cap_machine::{Effect as LineEffect, Mode, OnExec, Step, effect_of_line};
use cap_rights::RightSet;
use cap_trace::{Fd, Pid, fds_of};
use cap_tree::NoMemory;
use std::alloc::Global;

/// The descriptors that a process starts with, as they are spelled.
fn started_cells(alloc: Global, spelled: &[u8]) -> Result<Map<Value>, NoMemory>
    ensures cells { IfOk result (λ listed. (cells : Cells) (f : ℕ)
        → option_map_or (read cells) (found listed f) Closed ≡ started (fds_spelled spelled.now) f) }
    ensures names { IfOk result (λ listed. (names : Names) → All (λ f. names.fds f ≡ true) (fds_spelled spelled.now)
        → ListWithin names listed) }
{
    let Ok(fds) = fds_of(alloc, spelled) else {
        return Err(NoMemory);
    };
    let mut listed = Map::with_capacity(alloc, fds.len())?;
    for fd in &fds {
        listed.set(*fd, Value::Held(RightSet::all(), OnExec::Unsure))?;
    }
    Ok(listed)
}

impl Row {
    /// What a line of process `me`, which sets no cell to a value of its own, makes of the process.
    fn of_line(alloc: Global, me: Pid, line: &LineEffect<'_>) -> Result<Row, NoMemory>
        requires { sets_cells line.now ≡ false }
        ensures cells { IfOk result (λ row. (cells : Cells) (k : Key)
            → row_cell cells me row k ≡ line_after line.now me cells me k) }
        ensures leaves { IfOk result (λ row. is_child line.now me ≡ false → (k : Key) → row_leaves row k ≡ true
            → LineLeaves line.now me me k) }
        ensures names { IfOk result (λ row. (names : Names) → LineWithin names me line.now → RowWithin names row) }
    {
        match line {
            LineEffect::Start(fds) => Ok(Row {
                base: Base::of(DefaultCells::Closed),
                mode: Some(Value::of(cell_of_mode(Mode::Outside))),
                cells: started_cells(alloc, fds)?,
            }),
            LineEffect::Exit => Ok(Row {
                base: Base::of(DefaultCells::Unknown),
                mode: Some(Value::of(cell_of_mode(Mode::Unsure))),
                ..Row::own(alloc)
            }),
            LineEffect::Forget => Ok(Row {
                base: Base::of(DefaultCells::Unknown),
                ..Row::own(alloc)
            }),
            LineEffect::Exec => Ok(Row {
                base: Base::of(DefaultCells::Of(me, Passing::Exec)),
                ..Row::own(alloc)
            }),
            LineEffect::CloseFrom(fd) => Ok(Row {
                base: Base {
                    others: DefaultCells::Own,
                    closed_from: Some(*fd),
                },
                ..Row::own(alloc)
            }),
            LineEffect::Enter => Ok(Row {
                mode: Some(Value::of(cell_of_mode(Mode::Inside))),
                ..Row::own(alloc)
            }),
            LineEffect::ForkAs(_, fd) => {
                let mut row = Row::own(alloc);
                row.cells.set(*fd, Value::Unknown)?;
                Ok(row)
            }
            _ => Ok(Row::own(alloc)),
        }
    }
}

/// Takes out the row of a process; where it has none, one that leaves it unchanged.
fn take_row(alloc: Global, rows: &mut Map<SharedRow>, pid: Pid) -> Result<SharedRow, NoMemory>
    ensures row { IfOk result (λ row. row ≡ unwrap_or (found rows.old pid) own_row) }
    ensures others { OnOk result ((p : ℕ) → (p == pid) ≡ false → found rows.new p ≡ found rows.old p) }
{
    match rows.remove(pid) {
        Some(row) => Ok(row),
        None => Ok(SharedRow::new(alloc, Row::own(alloc))?),
    }
}

impl Effect {
    /// Nothing is touched.
    pub fn empty(alloc: Global) -> Effect
        ensures cells { (cells : Cells) (p : ℕ) (k : Key) → changed result cells p k ≡ cells p k }
        ensures leaves { (p : ℕ) (k : Key) → leaves result p k ≡ true }
        ensures names { (names : Names) → EffectWithin names result }
    {
        Effect {
            rows: Map::new(alloc),
            size: Some(0),
        }
    }

    /// Sets the cell of a descriptor of a process, in place.
    #[tactic(auto, using(crate::proofs::LineListed::set_cells, crate::proofs::LineListed::set_names))]
    fn set(&mut self, alloc: Global, pid: Pid, fd: Fd, value: Value) -> Result<(), NoMemory>
        ensures cells { OnOk result ((cells : Cells) (p : ℕ) (k : Key) → changed self.new cells p k
            ≡ (if is_cell pid fd p k then read cells value else changed self.old cells p k)) }
        ensures leaves { OnOk result ((p : ℕ) (k : Key) → leaves self.new p k ≡ true
            → (leaves self.old p k ≡ true) × (is_cell pid fd p k ≡ false)) }
        ensures names { OnOk result ((names : Names) → names.pids pid ≡ true → IsListedWithin names fd value
            → EffectWithin names self.old → EffectWithin names self.new) }
    {
        self.size = None;
        let row = take_row(alloc, &mut self.rows, pid)?;
        let new = row.with(fd, value)?;
        self.rows.set(pid, new)
    }

    /// Gives a process this row.
    fn put(&mut self, alloc: Global, pid: Pid, row: Row) -> Result<(), NoMemory>
        ensures cells { OnOk result ((cells : Cells) (p : ℕ) (k : Key) → changed self.new cells p k
            ≡ (if p == pid then row_cell cells pid row k else changed self.old cells p k)) }
        ensures leaves { OnOk result ((p : ℕ) (k : Key) → leaves self.new p k
            ≡ (if p == pid then row_leaves row k else leaves self.old p k)) }
        ensures names { OnOk result ((names : Names) → names.pids pid ≡ true → RowWithin names row
            → EffectWithin names self.old → EffectWithin names self.new) }
    {
        self.size = None;
        self.rows.set(pid, SharedRow::new(alloc, row)?)
    }

    /// Puts the row that a line of process `me` makes of it, and of a child that the line makes what a fork makes of
    /// that row.
    fn put_rows(
        &mut self,
        alloc: Global,
        me: Pid,
        line: &LineEffect<'_>,
        row: Row,
    ) -> Result<(), NoMemory>
        ensures cells { OnOk result ((cells : Cells) (p : ℕ) (k : Key) → changed self.new cells p k
            ≡ (if is_touched line.now me p then row_cell cells me row k else changed self.old cells p k)) }
        ensures leaves { OnOk result ((p : ℕ) (k : Key) → leaves self.new p k ≡ true
            → ((is_touched line.now me p ≡ false) × (leaves self.old p k ≡ true))
            ⊎ ((p ≡ me) × (is_child line.now me ≡ false) × (row_leaves row k ≡ true))) }
        ensures names { OnOk result ((names : Names) → LineWithin names me line.now → RowWithin names row
            → EffectWithin names self.old → EffectWithin names self.new) }
    {
        match line {
            LineEffect::Fork(child) => self.put(alloc, *child, row.forked(me)?),
            LineEffect::ForkAs(child, _) => {
                let forked = row.forked(me)?;
                self.put(alloc, me, row)?;
                self.put(alloc, *child, forked)
            }
            _ => self.put(alloc, me, row),
        }
    }

    /// The effect of this segment and then a line of process `me`, which sets no cell to a value of its own. The rows of
    /// that process and of a child that it makes are made anew.
    fn push_row(&mut self, alloc: Global, me: Pid, line: &LineEffect<'_>) -> Result<(), NoMemory>
        requires { sets_cells line.now ≡ false }
        ensures cells { OnOk result ((cells : Cells) (p : ℕ) (k : Key)
            → changed self.new cells p k ≡ line_after line.now me (changed self.old cells) p k) }
        ensures leaves { OnOk result ((p : ℕ) (k : Key) → leaves self.new p k ≡ true
            → (leaves self.old p k ≡ true) × LineLeaves line.now me p k) }
        ensures names { OnOk result ((names : Names) → LineWithin names me line.now
            → EffectWithin names self.old → EffectWithin names self.new) }
    {
        let own = Row::of_line(alloc, me, line)?;
        let row = self.row_after(alloc, me, &own)?;
        self.put_rows(alloc, me, line, row)
    }

    /// The effect of this segment and then a line of process `me`, in place. After an `Err` it is only to be dropped.
    pub fn push(&mut self, alloc: Global, me: Pid, line: &LineEffect<'_>) -> Result<(), NoMemory>
        ensures cells { OnOk result ((cells : Cells) (p : ℕ) (k : Key)
            → changed self.new cells p k ≡ line_after line.now me (changed self.old cells) p k) }
        ensures leaves { OnOk result ((p : ℕ) (k : Key) → leaves self.new p k ≡ true
            → (leaves self.old p k ≡ true) × LineLeaves line.now me p k) }
        ensures names { OnOk result ((names : Names) → LineWithin names me line.now
            → EffectWithin names self.old → EffectWithin names self.new) }
    {
        match line {
            LineEffect::Keep => Ok(()),
            LineEffect::Give(fd, cell) => self.set(alloc, me, *fd, Value::of(*cell)),
            LineEffect::GiveTwo(fd, other, cell) => {
                self.set(alloc, me, *fd, Value::of(*cell))?;
                self.set(alloc, me, *other, Value::of(*cell))
            }
            LineEffect::Change(fd, op, from) => {
                let op = SharedOp::new(alloc, *op)?;
                let value = self.view(me, Key::Fd(*from)).then(alloc, &op)?;
                self.set(alloc, me, *fd, value)
            }
            _ => self.push_row(alloc, me, line),
        }
    }

    /// The effect of this segment and then a step, in place. After an `Err` it is only to be dropped.
    pub(crate) fn push_step(&mut self, alloc: Global, step: &Step) -> Result<(), NoMemory>
        ensures { (s : State) (t : List Step)
            → ((p : ℕ) (k : Key) → changed self.old (cells_of s) p k ≡ cells_of (ended s t) p k)
            → OnOk result ((p : ℕ) (k : Key)
            → changed self.new (cells_of s) p k ≡ cells_of (ended s (t ++ step.now ∷ [])) p k) }
    {
        let line = step.line.view();
        let pid = line.pid;
        let done = effect_of_line(step.profile, &line);
        self.push(alloc, pid, &done)?;
        Ok(())
    }
}
