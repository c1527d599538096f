//! The effect of two segments, one after the other.

ghost use Rattle.std.specs.Prelude.{IfOk, IfSome, Some, false, is_none, option_copied, true, ℕ, ◌≡◌};
ghost use Rattle.cap_summary.specs.{Composing.{IsComposedSo, IsHandedSo, IsJoinedEffect, IsOldAt}, option_map_or};
ghost use Rattle.cap_summary.specs.Names.{IsRowWithin, ListWithin, ReadWithin, RowWithin, mode_within, others_within};
ghost use Rattle.cap_summary.specs.Effects.{base_cell, base_leaves, changed, is_from, leaves, passed, row_cell};
ghost use Rattle.cap_summary.specs.{Closed, Effects.row_leaves, Keys.{Cells, read}, Sorted.{Rises, found}};
ghost use Rattle.cap_summary.specs.{Names.Names, declared.key.Key.Key};

use crate::base::lower_of;
use crate::reading::counted;
use crate::sorted::{Combine, merge};
use crate::{Base, DefaultCells, Effect, Passing, Row, SharedOp, SharedRow, Value};
use cap_machine::Op;
use cap_trace::Pid;
use cap_tree::{NoMemory, Side};
use std::alloc::Global;

/// The cells that a base of a later segment hands on, as an earlier segment leaves them: those that are listed there,
/// how they are handed on, and all others.
#[derive(Drop)]
struct Handed<'a> {
    base: Base,
    passing: Passing,
    cells: &'a [(u32, Value)],
}

impl Effect {
    /// The cells that a base of a process of a later segment hands on.
    fn handed(&self, pid: Pid, base: &Base) -> Handed<'_>
        ensures open { (cells : Cells) (f : ℕ) → is_from base.now.closed_from f ≡ false
            → option_map_or (λ v. passed result.passing (read cells v)) (found result.cells.now f)
            (base_cell cells pid result.base f) ≡ base_cell (changed self.now cells) pid base.now f }
        ensures closed { (cells : Cells) (f : ℕ) → is_from base.now.closed_from f ≡ true
            → base_cell cells pid result.base f ≡ Closed }
        ensures leaves { (f : ℕ) → base_leaves result.base f ≡ true → (base_leaves base.now f ≡ true)
            × (is_none (found result.cells.now f) ≡ true → leaves self.now pid (Key.Fd f) ≡ true) }
        ensures others_named { (names of : Names) → ReadWithin names of self.now → of.pids pid ≡ true
            → others_within of base.now.others ≡ true → others_within names base.now.others ≡ true
            → others_within names result.base.others ≡ true }
        ensures cells_named { (names of : Names) → ReadWithin names of self.now → of.pids pid ≡ true
            → others_within of base.now.others ≡ true → ListWithin names result.cells.now }
        ensures rising { Rises result.cells.now }
    {
        let first = match &base.others {
            DefaultCells::Own => self.row(pid),
            DefaultCells::Of(source, _) => self.row(*source),
            _ => None,
        };
        let Some(first) = first else {
            return Handed {
                base: *base,
                passing: Passing::Same,
                cells: &[],
            };
        };
        let (others, passing) = match &base.others {
            DefaultCells::Of(source, passing) => {
                (first.base.others.pass(*source, *passing), *passing)
            }
            _ => (first.base.others, Passing::Same),
        };
        Handed {
            base: Base {
                others,
                closed_from: lower_of(first.base.closed_from, base.closed_from),
            },
            passing,
            cells: first.cells.entries(),
        }
    }
}

/// Lists the cells of a process after two segments: those of the second, by the cells before the first, and those of
/// the first that the second hands on.
#[derive(Clone, Copy)]
struct Handing<'a> {
    first: &'a Effect,
    passing: Passing,
    base: Base,
}

impl Combine for Handing<'_> {
    type Left = Value;

    type Right = Value;

    type Out = Value;

    ghost use Rattle.cap_summary.specs.{refl};

    ghost gives = { λ s f left right out. IsHandedSo s.first.now s.passing s.base.closed_from f left right out };

    fn combine(
        &self,
        alloc: Global,
        fd: u32,
        listed: Option<&Value>,
        handed: Option<&Value>,
    ) -> Result<Option<Value>, NoMemory> {
        match (listed, handed) {
            (Some(listed), _) => Ok(Some(self.first.value_after(alloc, listed)?)),
            (None, Some(_)) if self.base.closes(fd) => Ok(None),
            (None, Some(handed)) => match self.passing {
                Passing::Same => Ok(Some(handed.clone()?)),
                Passing::Exec => {
                    let exec = SharedOp::new(alloc, Op::exec())?;
                    Ok(Some(handed.view().then(alloc, &exec)?))
                }
            },
            (None, None) => Ok(None),
        }
    }

    ghost neither = { λ s f. record {
      cells = λ cells rest. refl;
      unlisted = refl;
      names = λ names of within read left right. tt;
    } };
}

/// The effect of a whole in which one part was replaced.
#[derive(Clone, Copy)]
pub(crate) struct Replaced<'a> {
    pub(crate) whole: &'a Effect,
    /// The effect of the part that stood on this side.
    pub(crate) was: &'a Effect,
    pub(crate) side: Side,
}

impl Replaced<'_> {
    /// The row that the whole gave a process, where it fits: the new part gives the row that the old one gave, and if
    /// that part is the first, then the second reads no other row of it.
    fn row(&self, pid: Pid, left: Option<&SharedRow>, right: &SharedRow) -> Option<&SharedRow>
        ensures { IfSome result (λ row. (first : Effect) → option_copied left.entry ≡ found first.rows pid
            → IsOldAt self.now first pid (Some right.now) → IsComposedSo first pid (Some right.now) (Some row.now)) }
    {
        let was = self.was.rows.get(pid);
        let stands = match self.side {
            Side::Left => was == left && right.get().reads_only(pid),
            Side::Right => was == Some(right),
        };
        if stands {
            self.whole.rows.get(pid)
        } else {
            None
        }
    }
}

/// Gives each process its row after two segments: that of an old whole, where it still fits.
#[derive(Clone, Copy)]
struct Composing<'a> {
    first: &'a Effect,
    old: Option<Replaced<'a>>,
}

impl Combine for Composing<'_> {
    type Left = SharedRow;

    type Right = SharedRow;

    type Out = SharedRow;

    ghost use Rattle.std.specs.Prelude.{◌≡◌, IfSome, refl};
    ghost use Rattle.cap_summary.specs.{Composing.{IsComposedSo, IsOldAt}, Effects.{cell_in, leaves_in}, Sorted.found};
    ghost use Rattle.std.proofs.Common.{ap, sym};

    ghost gives = { λ s p left right out. left ≡ found s.first.now.rows p
        → IfSome s.old (λ old. IsOldAt old s.first.now p right) → IsComposedSo s.first.now p right out };

    fn combine(
        &self,
        alloc: Global,
        pid: u32,
        left: Option<&SharedRow>,
        right: Option<&SharedRow>,
    ) -> Result<Option<SharedRow>, NoMemory> {
        let Some(right) = right else {
            return match left {
                Some(left) => Ok(Some(left.clone()?)),
                None => Ok(None),
            };
        };
        let second = right.get();
        if left.is_none() && second.reads_only(pid) {
            return Ok(Some(right.clone()?));
        }
        if let Some(old) = &self.old {
            if let Some(row) = old.row(pid, left, right) {
                let kept = row.clone()?;
                return Ok(Some(kept));
            }
        }
        let row = self.first.row_after(alloc, pid, second)?;
        Ok(Some(SharedRow::new(alloc, row)?))
    }

    ghost neither = { λ s p is old. record {
      cells = λ cells k. ap (λ row. cell_in cells row p k) is;
      leaves = λ k left. (sym (ap (λ row. leaves_in row k) is), refl);
      names = λ names of within left read right. tt;
    } };
}

impl Effect {
    /// The mode of a process of a later segment, by the cells before this one.
    fn mode_after(
        &self,
        alloc: Global,
        pid: Pid,
        mode: &Option<Value>,
    ) -> Result<Option<Value>, NoMemory>
        ensures reads { IfOk result (λ new. (cells : Cells) → option_map_or (read cells) new (cells pid Key.Mode)
            ≡ option_map_or (read (changed self.now cells)) mode.now (changed self.now cells pid Key.Mode)) }
        ensures leaves { IfOk result (λ new. is_none new ≡ true
            → (leaves self.now pid Key.Mode ≡ true) × (is_none mode.now ≡ true)) }
        ensures names { IfOk result (λ new. (names of : Names) → ReadWithin names of self.now → of.pids pid ≡ true
            → mode_within of mode.now ≡ true → mode_within names mode.now ≡ true → mode_within names new ≡ true) }
    {
        match (mode, self.row(pid)) {
            (Some(value), _) => Ok(Some(self.value_after(alloc, value)?)),
            (None, Some(first)) => Ok(first.mode.clone()?),
            (None, None) => Ok(None),
        }
    }

    /// A row of a process of a later segment, by the cells before this one.
    pub(crate) fn row_after(&self, alloc: Global, pid: Pid, row: &Row) -> Result<Row, NoMemory>
        ensures cells { IfOk result (λ new. (cells : Cells) (k : Key)
            → row_cell cells pid new k ≡ row_cell (changed self.now cells) pid row.now k) }
        ensures leaves { IfOk result (λ new. (k : Key) → row_leaves new k ≡ true
            → (leaves self.now pid k ≡ true) × (row_leaves row.now k ≡ true)) }
        ensures names { IfOk result (λ new. (names of : Names) → ReadWithin names of self.now
            → IsRowWithin of pid row.now → RowWithin names row.now → RowWithin names new) }
    {
        let mode = self.mode_after(alloc, pid, &row.mode)?;
        let handed = self.handed(pid, &row.base);
        let handing = Handing {
            first: self,
            passing: handed.passing,
            base: row.base,
        };
        let cells = merge(alloc, &handing, row.cells.entries(), handed.cells)?;
        Ok(Row {
            base: handed.base,
            mode,
            cells,
        })
    }

    /// This effect and then another. It shares rows with the effect of an old whole in which one of the two parts was
    /// replaced.
    pub(crate) fn joined(
        &self,
        alloc: Global,
        later: &Effect,
        old: Option<Replaced<'_>>,
    ) -> Result<Effect, NoMemory>
        requires { IfSome old (λ old. (p : ℕ) → IsOldAt old self.now p (found later.now.rows p)) }
        ensures { IfOk result (IsJoinedEffect self.now later.now) }
    {
        let step = Composing { first: self, old };
        let rows = merge(alloc, &step, self.rows.entries(), later.rows.entries())?;
        let size = Some(counted(rows.entries()));
        Ok(Effect { rows, size })
    }
}
