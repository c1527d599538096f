//! Keys: what is known of a process, descriptor by descriptor, and its mode.

ghost use Rattle.std.specs.Prelude.{◌<◌, ◌^◌, ◌≡◌};
ghost use Rattle.cap_summary.specs.{Asks.key_number, Keys.cell_mode, Keys.mode_cell};

use cap_machine::{Cell, Mode, OnExec};
use cap_rights::RightSet;
use cap_trace::Fd;

/// What of a process a cell is kept for.
#[derive(Clone, Copy, PartialEq, Eq)]
pub enum Key {
    /// Its mode, kept as a cell ([`cell_of_mode`]).
    Mode,
    /// A descriptor.
    Fd(Fd),
}

/// The cell that a mode is kept as: unknown where nothing is known, closed inside capability mode, and held outside it,
/// with no rights and open across an exec, so that an exec leaves it unchanged.
pub fn cell_of_mode(mode: Mode) -> Cell
    ensures cell { result ≡ mode_cell mode }
    ensures back { cell_mode result ≡ mode }
{
    match mode {
        Mode::Unsure => Cell::Unknown,
        Mode::Inside => Cell::Closed,
        Mode::Outside => Cell::Held(RightSet::none(), OnExec::Clear),
    }
}

/// The mode that a cell is kept for.
pub fn mode_of_cell(cell: Cell) -> Mode
    ensures { result ≡ cell_mode cell }
{
    match cell {
        Cell::Unknown => Mode::Unsure,
        Cell::Closed => Mode::Inside,
        Cell::Held(..) => Mode::Outside,
    }
}

impl Key {
    /// Its place in the order of keys: the mode first, and then the descriptors.
    pub(crate) fn number(&self) -> u64
        ensures number { result ≡ key_number self.now }
        ensures fits { result < 2 ^ 33 }
    {
        match self {
            Key::Mode => 0,
            Key::Fd(fd) => *fd as u64 + 1,
        }
    }
}
