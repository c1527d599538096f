//! Sets of kinds of cells.

ghost use Rattle.std.specs.Prelude.{◌≡◌, ◌%◌, ◌<◌, ◌||◌};
ghost use Rattle.cap_summary.specs.{Asks.each_kind, Asks.has, Asks.has_kind, Asks.kind_of, Cell, list_all, list_any};

use cap_machine::{Cell, OnExec};

/// A set of kinds of cells: held with each of the three close-on-exec flags, unknown, and closed.
///
/// Kind k is bit k: see [`kind_of`].
#[derive(Clone, Copy, PartialEq, Eq)]
pub struct Kinds {
    bits: u8,
}

/// The number of a cell's kind. The kinds of held cells come first.
fn kind_of(cell: &Cell) -> u32
    ensures kind { result ≡ kind_of cell.now }
    ensures few { result < 5 }
{
    match cell {
        Cell::Held(_, OnExec::Set) => 0,
        Cell::Held(_, OnExec::Clear) => 1,
        Cell::Held(_, OnExec::Unsure) => 2,
        Cell::Unknown => 3,
        Cell::Closed => 4,
    }
}

impl Kinds {
    /// No kind.
    pub const NONE: Kinds = Kinds { bits: 0 };
    /// The three kinds of held cells.
    pub const HELD: Kinds = Kinds { bits: 7 };
    /// Held cells that an exec leaves open.
    pub const CLEAR: Kinds = Kinds { bits: 2 };
    /// Closed cells.
    pub const CLOSED: Kinds = Kinds { bits: 16 };
    /// Unknown and closed cells.
    pub const UNHELD: Kinds = Kinds { bits: 24 };
    /// All kinds.
    pub const ALL: Kinds = Kinds { bits: 31 };

    /// The set of these kinds: held with each flag, unknown, and closed.
    pub(crate) fn of(set: bool, clear: bool, unsure: bool, unknown: bool, closed: bool) -> Kinds
        ensures set { has result 0 ≡ set }
        ensures clear { has result 1 ≡ clear }
        ensures unsure { has result 2 ≡ unsure }
        ensures unknown { has result 3 ≡ unknown }
        ensures closed { has result 4 ≡ closed }
    {
        Kinds {
            bits: set as u8
                + 2 * clear as u8
                + 4 * unsure as u8
                + 8 * unknown as u8
                + 16 * closed as u8,
        }
    }

    /// Whether a cell has one of these kinds.
    pub fn has(&self, cell: &Cell) -> bool
        ensures { result ≡ has_kind self.now cell.now }
    {
        (self.bits >> kind_of(cell)) & 1 == 1
    }

    /// Those of held cells, as a number.
    pub(crate) fn held(&self) -> u8
        ensures { result ≡ self.now.bits % 8 }
    {
        self.bits % 8
    }

    /// Whether there is one.
    pub(crate) fn any(&self) -> bool
        ensures { result ≡ list_any (has_kind self.now) each_kind }
    {
        self.bits % 32 != 0
    }

    /// Whether each kind is among them.
    pub(crate) fn is_full(&self) -> bool
        ensures { result ≡ list_all (has_kind self.now) each_kind }
    {
        self.bits % 32 == 31
    }

    /// The kinds of two sets.
    pub(crate) fn join(&self, other: &Kinds) -> Kinds
        ensures { (c : Cell) → has_kind result c ≡ (has_kind self.now c || has_kind other.now c) }
    {
        Kinds {
            bits: self.bits | other.bits,
        }
    }
}
