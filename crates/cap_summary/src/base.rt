//! The cells of a process that aren't listed.

ghost use Rattle.std.specs.Prelude.{None, false, true, ℕ, ◌||◌, ◌≡◌};
ghost use Rattle.cap_summary.specs.{Keys.Cells, Names.Names, Names.others_within};
ghost use Rattle.cap_summary.specs.Effects.{base_cell, is_from, is_own, others_cell, passed};

use cap_trace::{Fd, Pid};

/// How a whole table of cells is handed on.
#[derive(Clone, Copy, PartialEq, Eq)]
pub enum Passing {
    /// As it is (fork(2)).
    Same,
    /// By an exec of profile 2 (execve(2)).
    Exec,
}

/// The cells of a process that aren't listed, below those that are closed.
#[derive(Clone, Copy, PartialEq, Eq)]
pub enum DefaultCells {
    /// Each is as it was.
    Own,
    /// Nothing is known of any.
    Unknown,
    /// Each is closed.
    Closed,
    /// Each is that of the same descriptor of this process before the segment, handed on so. It may be the same process,
    /// whose cells came back by forks.
    Of(Pid, Passing),
}

/// The cells of a process that aren't listed.
#[derive(Clone, Copy, PartialEq, Eq)]
pub struct Base {
    /// Those below `closed_from`.
    pub others: DefaultCells,
    /// From here up each is closed (closefrom(2)).
    pub closed_from: Option<Fd>,
}

impl DefaultCells {
    /// Those of a process where they are handed on to one.
    pub(crate) fn pass(&self, pid: Pid, passing: Passing) -> DefaultCells
        ensures cells { (cells : Cells) (p f : ℕ)
            → others_cell cells p result f ≡ passed passing (others_cell cells pid self.now f) }
        ensures others { is_own result ≡ false }
        ensures names { (names : Names) → names.pids pid ≡ true → others_within names self.now ≡ true
            → others_within names result ≡ true }
    {
        match self {
            DefaultCells::Own => DefaultCells::Of(pid, passing),
            DefaultCells::Of(source, Passing::Same) => DefaultCells::Of(*source, passing),
            others => *others,
        }
    }
}

/// The lower of two descriptors from which cells are closed.
pub(crate) fn lower_of(a: Option<Fd>, b: Option<Fd>) -> Option<Fd>
    ensures { (f : ℕ) → is_from result f ≡ (is_from a f || is_from b f) }
{
    match (a, b) {
        (None, b) => b,
        (a, None) => a,
        (Some(n), Some(m)) => Some(n.min(m)),
    }
}

impl Base {
    /// These cells, all of them listed nowhere and none closed.
    pub(crate) fn of(others: DefaultCells) -> Base
        ensures cells { (cells : Cells) (p f : ℕ) → base_cell cells p result f ≡ others_cell cells p others f }
        ensures others { result.others ≡ others }
        ensures open { result.closed_from ≡ None }
    {
        Base {
            others,
            closed_from: None,
        }
    }

    /// Whether a descriptor is at or above the one from which cells are closed.
    pub(crate) fn closes(&self, fd: Fd) -> bool
        ensures { result ≡ is_from self.now.closed_from fd }
    {
        match &self.closed_from {
            None => false,
            Some(n) => *n <= fd,
        }
    }
}
