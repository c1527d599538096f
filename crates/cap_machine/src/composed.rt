//! One op after another is one op (`Op::then`).

ghost use Rattle.std.specs.Prelude.{◌≡◌};
ghost use Rattle.cap_machine.specs.Op.{applied};
ghost use Rattle.cap_machine.specs.Code.Composed.{both_masks, kept_then, held_then, in_turn};

use crate::cell::{Cell, HeldOp, OnExec, Op};
use cap_rights::RightSet;

/// The rights that are in both masks.
fn both_masks_of(first: &Option<RightSet>, later: &Option<RightSet>) -> Option<RightSet>
    ensures { result ≡ both_masks first.now later.now }
{
    match (first, later) {
        (None, None) => None,
        (None, Some(mask)) => Some(*mask),
        (Some(mask), None) => Some(*mask),
        (Some(a), Some(b)) => Some(a.meet(b)),
    }
}

/// What becomes of a cell that was left held with this mask.
fn kept_by(first: &Option<RightSet>, later: &HeldOp) -> HeldOp
    ensures { result ≡ kept_then first.now later.now }
{
    match later {
        HeldOp::Becomes(cell) => HeldOp::Becomes(*cell),
        HeldOp::Keeps(mask, flag) => HeldOp::Keeps(both_masks_of(first, mask), *flag),
    }
}

/// What becomes of a held cell by one op and then by another.
fn held_by(first: &HeldOp, later: &Op) -> HeldOp
    ensures { result ≡ held_then first.now later.now }
{
    match first {
        HeldOp::Becomes(cell) => HeldOp::Becomes(later.on(*cell)),
        HeldOp::Keeps(mask, OnExec::Set) => kept_by(mask, &later.set),
        HeldOp::Keeps(mask, OnExec::Clear) => kept_by(mask, &later.clear),
        HeldOp::Keeps(mask, OnExec::Unsure) => kept_by(mask, &later.unsure),
    }
}

impl Op {
    /// The op that does to each cell what this op does and then what the later one does.
    #[tactic(auto, using(crate::proofs::Ops::ops_in_turn))]
    pub fn then(&self, later: &Op) -> Op
        ensures is { result ≡ in_turn self.now later.now }
        ensures does { (cell : Cell) → applied result cell ≡ applied later.now (applied self.now cell) }
    {
        Op {
            unknown: later.on(self.unknown),
            closed: later.on(self.closed),
            set: held_by(&self.set, later),
            clear: held_by(&self.clear, later),
            unsure: held_by(&self.unsure, later),
        }
    }
}
