//! Ops that values share, and rows that effects share.

ghost use Rattle.std.specs.Prelude.{IfOk, Some, if◌then◌else◌, ℕ, ◌==◌, ◌≡◌};
ghost use Rattle.cap_summary.specs.Sorted.{found};

use crate::{Row, Value};
use cap_machine::Op;
use cap_trace::Fd;
use cap_tree::NoMemory;
use std::alloc::{AllocError, Global};
use std::marker::Model;
use std::rc::Rc;

/// An op that several values own. A contract sees the op.
#[derive(Drop)]
pub struct SharedOp {
    op: Rc<Op>,
}

impl Model for SharedOp {
    ghost use Rattle.cap_summary.specs.{Op as Held};

    ghost Value = { Held };

    ghost view = { λ shared. shared.op.value };
}

impl PartialEq for SharedOp {
    ghost use Rattle.cap_machine.specs.{contracts.cell.OpPartialEq.TheImpl.Laws.laws-law};
    ghost use Rattle.cap_machine.specs.contracts.cell.OpPartialEq.TheImpl as ops;

    ghost eq = { ops.eq-value.it };

    ghost laws = { laws-law };

    fn eq(&self, other: &SharedOp) -> bool {
        *self.op == *other.op
    }
}

impl SharedOp {
    /// An op, to be shared.
    pub fn new(alloc: Global, op: Op) -> Result<SharedOp, AllocError>
        ensures { IfOk result (λ shared. shared ≡ op) }
    {
        Ok(SharedOp {
            op: Rc::new(alloc, op)?,
        })
    }

    /// A copy that shares the op. It takes constant time and allocates nothing. It fails only if there are so many that
    /// they can't be counted.
    pub fn share(&self) -> Result<SharedOp, AllocError>
        ensures { IfOk result (λ shared. shared ≡ self.now) }
    {
        Ok(SharedOp {
            op: self.op.clone()?,
        })
    }

    /// The op.
    pub fn get(&self) -> &Op
        ensures { result.now ≡ self.now }
    {
        &self.op
    }
}

/// A row that several effects own. A contract sees the row.
#[derive(Drop)]
pub struct SharedRow {
    row: Rc<Row>,
}

impl Model for SharedRow {
    ghost use Rattle.cap_summary.specs.{declared.effect.Row.Row as Held};

    ghost Value = { Held };

    ghost view = { λ shared. shared.row.value };
}

impl PartialEq for SharedRow {
    ghost use Rattle.cap_summary.specs.{contracts.effect.RowPartialEq.TheImpl.Laws.laws-law};
    ghost use Rattle.cap_summary.specs.contracts.effect.RowPartialEq.TheImpl as rows;

    ghost eq = { rows.eq-value.it };

    ghost laws = { laws-law };

    fn eq(&self, other: &SharedRow) -> bool {
        *self.row == *other.row
    }
}

/// A clone is the same row. It takes constant time and allocates nothing. It fails only if there are so many that they can't be
/// counted.
impl Clone for SharedRow {
    ghost is_clone = { λ shared copy. copy ≡ shared };

    fn clone(&self) -> Result<SharedRow, AllocError> {
        Ok(SharedRow {
            row: self.row.clone()?,
        })
    }
}

impl SharedRow {
    /// A row, to be shared.
    pub fn new(alloc: Global, row: Row) -> Result<SharedRow, AllocError>
        ensures { IfOk result (λ shared. shared ≡ row) }
    {
        Ok(SharedRow {
            row: Rc::new(alloc, row)?,
        })
    }

    /// The row.
    pub fn get(&self) -> &Row
        ensures { result.now ≡ self.now }
    {
        &self.row
    }

    /// This row with a value at a descriptor. It is changed in place where it has no other owners.
    pub(crate) fn with(self, fd: Fd, value: Value) -> Result<SharedRow, NoMemory>
        ensures base { IfOk result (λ row. row.base ≡ self.base) }
        ensures mode { IfOk result (λ row. row.mode ≡ self.mode) }
        ensures cells { IfOk result (λ row. (g : ℕ) → found row.cells g
            ≡ (if g == fd then Some value else found self.cells g)) }
    {
        let mut row = self.row;
        Rc::make_mut(&mut row)?.cells.set(fd, value)?;
        Ok(SharedRow { row })
    }
}
