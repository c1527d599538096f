//! What is asked of the cells before a segment.

ghost use Rattle.std.specs.Prelude.{IfNone, IfSome, Some, option_copied, ◌||◌, ◌≡◌};
ghost use Rattle.cap_summary.specs.{Cell, Keys.Cells, Keys.cells_of, State, applied, list_all, list_any, nat_cmp, none};
ghost use Rattle.cap_summary.specs.Asks.{AgreeOn, AreOneTo, CanHold, holding, holds, is_sure, lacks, place};
ghost use Rattle.cap_summary.specs.Asks.{AskWithin, IfAsked, IsAtPlace, each_kind, has_kind, passes, pulled_holds};
ghost use Rattle.cap_summary.specs.Asks.{standing};
ghost use Rattle.cap_summary.specs.Effects.{cell_in, changed, listed_value, row_cell};
ghost use Rattle.cap_summary.specs.Names.{EffectWithin, Names, RowWithin};

use crate::view::Seen;
use crate::{Effect, Key, Kinds, Row, Value, cell_of_mode};
use cap_machine::{Cell, Mode, OnExec, Op};
use cap_rights::RightSet;
use cap_trace::Pid;
use std::cmp::Ordering;

/// A test of one cell before a segment. The cell passes if it has one of some kinds, or if it is held, has one of some
/// other kinds, and lacks some of the rights.
#[derive(Clone, Copy, PartialEq, Eq)]
pub struct Ask {
    /// The process.
    pub pid: Pid,
    /// The key of the cell.
    pub key: Key,
    /// The kinds that pass.
    pub kinds: Kinds,
    /// The kinds of held cells that pass where they lack some of the rights.
    pub lacking: Kinds,
    /// The rights.
    pub rights: RightSet,
}

/// What becomes of an ask where it is pulled back to an earlier state.
#[derive(Clone, Copy)]
pub enum Pulled {
    /// Its cell is given whatever the state, and it holds.
    Always,
    /// It holds in no state.
    Never,
    /// It holds where this does.
    Where(Ask),
}

/// Whether a cell is held, and lacks some of these rights.
fn lacks(rights: &RightSet, cell: &Cell) -> bool
    ensures { result ≡ lacks rights.now cell.now }
{
    match cell {
        Cell::Held(held, _) => !held.has_all(rights),
        _ => false,
    }
}

impl Ask {
    /// Whether a cell passes.
    pub fn passes(&self, cell: Cell) -> bool
        ensures { result ≡ passes self.now cell }
    {
        self.kinds.has(&cell) || self.lacking.has(&cell) && lacks(&self.rights, &cell)
    }

    /// The order of asks: by process, key, and the kinds of held cells at which they ask about rights.
    pub(crate) fn order(&self, other: &Ask) -> Ordering
        ensures places { result ≡ nat_cmp (place self.now) (place other.now) }
        ensures equal { result ≡ Ordering.Equal → IsAtPlace self.now other.now }
    {
        let number = self.key.number();
        let others = other.key.number();
        match self.pid.cmp(&other.pid) {
            Ordering::Equal => match number.cmp(&others) {
                Ordering::Equal => self.lacking.held().cmp(&other.lacking.held()),
                order => order,
            },
            order => order,
        }
    }

    /// This ask or another at the same place.
    pub(crate) fn or(&self, other: &Ask) -> Ask
        requires { IsAtPlace self.now other.now }
        ensures holds { (cells : Cells) → holds cells result ≡ (holds cells self.now || holds cells other.now) }
        ensures agree { (s r : Cells) → AgreeOn s r result → AgreeOn s r self.now × AgreeOn s r other.now }
        ensures place { place result ≡ place self.now }
        ensures names { (names : Names) → AskWithin names self.now → AskWithin names result }
    {
        let kinds = self.kinds.join(&other.kinds);
        let rights = self.rights.join(&other.rights);
        Ask {
            kinds,
            rights,
            ..*self
        }
    }

    /// The kinds whose every cell that can be at its key passes.
    pub(crate) fn sure_kinds(&self) -> Kinds
        ensures { (c : Cell) → has_kind result c ≡ is_sure self.now self.now.key c }
    {
        match &self.key {
            Key::Mode => {
                let outside = self.passes(cell_of_mode(Mode::Outside));
                let unsure = self.passes(cell_of_mode(Mode::Unsure));
                let inside = self.passes(cell_of_mode(Mode::Inside));
                Kinds::of(outside, outside, outside, unsure, inside)
            }
            Key::Fd(_) => self.kinds,
        }
    }

    /// Whether it holds in every state.
    pub(crate) fn is_certain(&self) -> bool
        ensures { result ≡ list_all (is_sure self.now self.now.key) each_kind }
    {
        self.sure_kinds().is_full()
    }

    /// Whether it holds in some state.
    fn is_possible(&self) -> bool
        ensures { result ≡ list_any (λ (c : Cell). passes self.now (standing none self.now.key c)) each_kind }
    {
        match &self.key {
            Key::Mode => {
                self.passes(cell_of_mode(Mode::Unsure))
                    || self.passes(cell_of_mode(Mode::Inside))
                    || self.passes(cell_of_mode(Mode::Outside))
            }
            Key::Fd(_) => {
                self.kinds.any()
                    || self.lacking.held() != 0 && !RightSet::none().has_all(&self.rights)
            }
        }
    }

    /// The kinds whose cells pass after an op, if it holds these rights before it where it is held.
    fn kinds_before(&self, op: &Op, rights: RightSet) -> Kinds
        ensures { (c : Cell) → has_kind result c ≡ passes self.now (applied op.now (holding rights c)) }
    {
        Kinds::of(
            self.passes(op.on(Cell::Held(rights, OnExec::Set))),
            self.passes(op.on(Cell::Held(rights, OnExec::Clear))),
            self.passes(op.on(Cell::Held(rights, OnExec::Unsure))),
            self.passes(op.unknown),
            self.passes(op.closed),
        )
    }

    /// This ask pulled back through an op: a cell passes it exactly where this one is passed after the op.
    fn before_op(&self, op: &Op) -> Ask
        ensures passes { (c : Cell) → passes result c ≡ passes self.now (applied op.now c) }
    {
        let kinds = self.kinds_before(op, self.rights);
        let lacking = self.kinds_before(op, RightSet::none());
        Ask {
            kinds,
            lacking,
            ..*self
        }
    }

    /// This ask, or that it holds in no state.
    pub(crate) fn settled(self) -> Pulled
        ensures holds { (s : State) → pulled_holds (cells_of s) result ≡ holds (cells_of s) self }
        ensures agree { (s r : State) → IfAsked (AgreeOn (cells_of s) (cells_of r)) result
            → AgreeOn (cells_of s) (cells_of r) self }
        ensures can { IfAsked CanHold result }
        ensures names { (names : Names) → AskWithin names self → IfAsked (AskWithin names) result }
    {
        if self.is_possible() {
            Pulled::Where(self)
        } else {
            Pulled::Never
        }
    }

    /// What it asks of the state before an earlier segment that has this row for its process, which lists this at its key.
    pub(crate) fn through(&self, row: &Row, listed: Option<&Value>) -> Pulled
        requires { option_copied listed ≡ listed_value row.now self.now.key }
        ensures holds { (s : State) → pulled_holds (cells_of s) result
            ≡ passes self.now (row_cell (cells_of s) self.now.pid row.now self.now.key) }
        ensures agree { (s r : State) → IfAsked (AgreeOn (cells_of s) (cells_of r)) result → AreOneTo self.now
            (row_cell (cells_of s) self.now.pid row.now self.now.key)
            (row_cell (cells_of r) self.now.pid row.now self.now.key) }
        ensures can { IfAsked CanHold result }
        ensures names { (names : Names) → RowWithin names row.now → AskWithin names self.now
            → IfAsked (AskWithin names) result }
    {
        let (pid, key, ask) = match row.view(self.pid, self.key, listed) {
            Seen::Is(cell) => {
                return if self.passes(cell) {
                    Pulled::Always
                } else {
                    Pulled::Never
                };
            }
            Seen::Same(pid, key) => (pid, key, *self),
            Seen::Executed(pid, key) => (pid, key, self.before_op(&Op::exec())),
            Seen::Made(op, pid, key) => (pid, key, self.before_op(op.get())),
        };
        Ask { pid, key, ..ask }.settled()
    }

    /// What it asks of the state before an earlier segment that has this effect.
    pub(crate) fn before(&self, first: &Effect) -> Pulled
        ensures holds { (s : State) → pulled_holds (cells_of s) result ≡ holds (changed first.now (cells_of s)) self.now }
        ensures agree { (s r : State) → IfAsked (AgreeOn (cells_of s) (cells_of r)) result
            → AgreeOn (changed first.now (cells_of s)) (changed first.now (cells_of r)) self.now }
        ensures can { IfAsked CanHold result }
        ensures names { (names : Names) → EffectWithin names first.now → AskWithin names self.now
            → IfAsked (AskWithin names) result }
    {
        match first.row(self.pid) {
            Some(row) => self.through(row, row.listed(self.key)),
            None => self.settled(),
        }
    }

    /// The row of its process, if there is one, and what that lists at its key. `None` where the row leaves
    /// its cell.
    #[inline(always)]
    #[tactic(auto, using(crate::proofs::Pulling::row_left))]
    pub(crate) fn changed_by<'a>(
        &self,
        row: Option<&'a Row>,
    ) -> Option<(&'a Row, Option<&'a Value>)>
        ensures left { IfNone result ((cells : Cells)
            → cell_in cells (option_copied row.entry) self.now.pid self.now.key ≡ cells self.now.pid self.now.key) }
        ensures row { IfSome result (λ by. option_copied row.entry ≡ Some by.0.now) }
        ensures listed { IfSome result (λ by. option_copied by.1 ≡ listed_value by.0.now self.now.key) }
    {
        let Some(row) = row else {
            return None;
        };
        let listed = row.listed(self.key);
        if row.leaves(self.key, listed) {
            return None;
        }
        Some((row, listed))
    }
}
