//! A cell as a leaf keeps it.

ghost use Rattle.std.specs.Prelude.{◌≡◌};
ghost use Rattle.cap_machine.specs.Code.Cells.Kind.{kind_of_cell, rights_of_cell, cell_of_kind};

use crate::cell::{Cell, OnExec};
use cap_rights::RightSet;

/// What a cell is, but for its rights. Kept apart from them it takes one byte.
#[derive(Clone, Copy)]
pub(crate) enum CellKind {
    /// Nothing is known of it.
    Unknown,
    /// It is closed.
    Closed,
    /// It is held, and an exec closes it.
    Set,
    /// It is held, and an exec leaves it open.
    Clear,
    /// It is held, and what an exec does with it isn't known.
    Unsure,
}

impl CellKind {
    /// The kind of a cell.
    pub(crate) fn of(cell: &Cell) -> CellKind
        ensures { result ≡ kind_of_cell cell.now }
    {
        match cell {
            Cell::Unknown => CellKind::Unknown,
            Cell::Closed => CellKind::Closed,
            Cell::Held(_, OnExec::Set) => CellKind::Set,
            Cell::Held(_, OnExec::Clear) => CellKind::Clear,
            Cell::Held(_, OnExec::Unsure) => CellKind::Unsure,
        }
    }

    /// The cell of this kind with these rights, if it is held.
    pub(crate) fn with(self, rights: RightSet) -> Cell
        ensures { result ≡ cell_of_kind self rights }
    {
        match self {
            CellKind::Unknown => Cell::Unknown,
            CellKind::Closed => Cell::Closed,
            CellKind::Set => Cell::Held(rights, OnExec::Set),
            CellKind::Clear => Cell::Held(rights, OnExec::Clear),
            CellKind::Unsure => Cell::Held(rights, OnExec::Unsure),
        }
    }
}

/// The rights of a cell; none where it isn't held.
pub(crate) fn rights_of(cell: &Cell) -> RightSet
    ensures { result ≡ rights_of_cell cell.now }
{
    match cell {
        Cell::Unknown | Cell::Closed => RightSet::none(),
        Cell::Held(rights, _) => *rights,
    }
}
