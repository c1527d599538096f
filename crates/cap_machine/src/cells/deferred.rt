//! What is still to be done to a whole part of the cells: nothing, an exec, closing or forgetting. It is done to a part
//! once something in it is written, so that an exec or a closefrom touches one path of the tree.

ghost use Rattle.std.specs.Prelude.{◌≡◌};
ghost use Rattle.cap_machine.specs.Code.Cells.Deferred.{with_deferred};

use crate::cell::{Cell, Op};

/// What is still to be done to each cell of a part.
#[derive(Clone, Copy)]
pub(crate) enum Deferred {
    /// Nothing.
    Nothing,
    /// What a successful exec does in profile 2.
    Exec,
    /// It is closed.
    Close,
    /// It is unknown.
    Forget,
}

impl Deferred {
    /// The cell once it is done.
    pub(crate) fn on(self, cell: Cell) -> Cell
        ensures { result ≡ with_deferred self cell }
    {
        match self {
            Deferred::Nothing => cell,
            Deferred::Exec => Op::exec().on(cell),
            Deferred::Close => Cell::Closed,
            Deferred::Forget => Cell::Unknown,
        }
    }

    /// What is to be done where this comes after an older one.
    pub(crate) fn after(self, old: Deferred) -> Deferred
        ensures { (c : Cell) → with_deferred result c ≡ with_deferred self (with_deferred old c) }
    {
        match self {
            Deferred::Nothing => old,
            Deferred::Exec => match old {
                Deferred::Nothing => Deferred::Exec,
                _ => old,
            },
            _ => self,
        }
    }
}
