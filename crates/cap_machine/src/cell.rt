//! What is known of a descriptor and of a process, and what can become of it.

ghost use Rattle.std.specs.Prelude.{◌≡◌};
ghost use Rattle.cap_rights.specs.Rights.{named as all_named};
ghost use Rattle.cap_machine.specs.Op.{held, held_op, applied, keeping, marking, derive, copy_to_itself, limit, narrow};
ghost use Rattle.cap_machine.specs.Op.{same, exec, set_flag, narrow_and_set_flag};

use cap_rights::{RightBits, RightSet};

/// By which rules a trace is checked.
#[derive(Clone, Copy, Debug, PartialEq, Eq)]
pub enum Profile {
    /// Nothing is known of the descriptors after a successful exec, and closefrom(2) changes nothing.
    One,
    /// A successful exec closes the descriptors that are closed on exec, and closefrom(2) closes descriptors.
    Two,
}

/// Whether a descriptor is closed by a successful exec (fcntl(2), `FD_CLOEXEC`).
#[derive(Clone, Copy, Debug, PartialEq, Eq)]
pub enum OnExec {
    /// It is closed.
    Set,
    /// It stays open.
    Clear,
    /// Not known.
    Unsure,
}

/// What is known of a descriptor of a process.
#[derive(Clone, Copy, Debug, PartialEq, Eq)]
pub enum Cell {
    /// Nothing: it may be closed, or hold any rights.
    Unknown,
    /// It is no open descriptor.
    Closed,
    /// It is open and holds these rights (rights(4)), and an exec does this with it.
    Held(RightSet, OnExec),
}

/// Whether a process is in capability mode (capsicum(4)).
#[derive(Clone, Copy, Debug, PartialEq, Eq)]
pub enum Mode {
    /// It is.
    Inside,
    /// It isn't.
    Outside,
    /// Nothing is known.
    Unsure,
}

/// What becomes of a held cell.
#[derive(Clone, Copy, Debug, PartialEq, Eq)]
pub enum HeldOp {
    /// It becomes this cell.
    Becomes(Cell),
    /// It stays held, with those of its rights that are in the mask and with this flag; `None` keeps all rights.
    Keeps(Option<RightSet>, OnExec),
}

impl Cell {
    ghost use Rattle.cap_machine.specs.Code.MayHave.{may_have};

    /// Whether it is known to have these rights, or nothing is known of it.
    pub(crate) fn may_have(&self, needs: &RightSet) -> bool
        ensures { result ≡ may_have self.now needs.now }
    {
        match self {
            Cell::Unknown => true,
            Cell::Closed => false,
            Cell::Held(held, _) => held.has_all(needs),
        }
    }
}

impl HeldOp {
    /// The cell stays held, with those of its rights that are in the mask and with this flag.
    fn keeps(mask: &Option<RightSet>, flag: OnExec) -> HeldOp
        ensures { result ≡ HeldOp.Keeps mask.now flag }
    {
        match mask {
            None => HeldOp::Keeps(None, flag),
            Some(mask) => HeldOp::Keeps(Some(*mask), flag),
        }
    }

    /// What becomes of a cell that holds these rights.
    fn on(&self, rights: &RightSet) -> Cell
        ensures { result ≡ held self.now rights.now }
    {
        match self {
            HeldOp::Becomes(cell) => *cell,
            HeldOp::Keeps(None, flag) => Cell::Held(*rights, *flag),
            HeldOp::Keeps(Some(mask), flag) => Cell::Held(rights.meet(mask), *flag),
        }
    }
}

/// What becomes of a cell, by its kind.
#[derive(Clone, Copy, Debug, PartialEq, Eq)]
pub struct Op {
    /// What an unknown cell becomes.
    pub unknown: Cell,
    /// What a closed cell becomes.
    pub closed: Cell,
    /// What becomes of a held cell that an exec closes.
    pub set: HeldOp,
    /// What becomes of a held cell that an exec leaves open.
    pub clear: HeldOp,
    /// What becomes of a held cell where it isn't known whether an exec closes it.
    pub unsure: HeldOp,
}

/// All rights by name, without FULL.
fn all_by_name() -> RightSet
    ensures { result ≡ all_named }
{
    RightSet::named(RightBits(u64::MAX >> 1))
}

impl Op {
    /// A held cell stays held and keeps its flag; a mask takes rights away.
    fn keeping(unknown: Cell, closed: Cell, mask: &Option<RightSet>) -> Op
        ensures { result ≡ keeping unknown closed mask.now }
    {
        Op {
            unknown,
            closed,
            set: HeldOp::keeps(mask, OnExec::Set),
            clear: HeldOp::keeps(mask, OnExec::Clear),
            unsure: HeldOp::keeps(mask, OnExec::Unsure),
        }
    }

    /// A held cell stays held and gets this flag; a mask takes rights away.
    fn marking(unknown: Cell, closed: Cell, mask: &Option<RightSet>, flag: OnExec) -> Op
        ensures { result ≡ marking unknown closed mask.now flag }
    {
        Op {
            unknown,
            closed,
            set: HeldOp::keeps(mask, flag),
            clear: HeldOp::keeps(mask, flag),
            unsure: HeldOp::keeps(mask, flag),
        }
    }

    /// The op that changes no cell: a child gets each cell of its parent by it (fork(2)).
    pub fn same() -> Op
        ensures { result ≡ same }
    {
        Op::keeping(Cell::Unknown, Cell::Closed, &None)
    }

    /// What a new descriptor has of the one that it comes from: its rights, and this flag (dup(2), openat(2)).
    pub fn derive(flag: OnExec) -> Op
        ensures { result ≡ derive flag }
    {
        Op::marking(Cell::Unknown, Cell::Unknown, &None, flag)
    }

    /// What a descriptor has after it was copied to itself: its rights and its flag (dup2(2)).
    pub fn copy_to_itself() -> Op
        ensures { result ≡ copy_to_itself }
    {
        Op::keeping(Cell::Unknown, Cell::Unknown, &None)
    }

    /// What is left of a cell once its ioctls or fcntls were limited: it isn't one that was never limited.
    pub fn narrow() -> Op
        ensures { result ≡ narrow }
    {
        Op::keeping(Cell::Unknown, Cell::Unknown, &Some(all_by_name()))
    }

    /// What cap_rights_limit(2) makes of a cell where it was asked for these rights and succeeded.
    pub fn limit(asked: &RightSet) -> Op
        ensures { result ≡ limit asked.now }
    {
        let left = asked.without_full();
        let unknown = Cell::Held(left, OnExec::Unsure);
        let closed = Cell::Held(left, OnExec::Unsure);
        Op::keeping(unknown, closed, &Some(*asked))
    }

    /// What a successful exec makes of a cell in profile 2 (execve(2), fexecve(2)).
    pub fn exec() -> Op
        ensures { result ≡ exec }
    {
        Op {
            unknown: Cell::Unknown,
            closed: Cell::Closed,
            set: HeldOp::Becomes(Cell::Closed),
            clear: HeldOp::Keeps(None, OnExec::Clear),
            unsure: HeldOp::Becomes(Cell::Unknown),
        }
    }

    /// What `F_SETFD` makes of a cell (fcntl(2)): it changes the flag of a held one, and opens none.
    pub fn set_flag(flag: OnExec) -> Op
        ensures { result ≡ set_flag flag }
    {
        Op::marking(Cell::Unknown, Cell::Closed, &None, flag)
    }

    /// What `F_SETFD` makes of a cell if it has other flags than `FD_CLOEXEC`: they may limit the descriptor too.
    pub fn narrow_and_set_flag(flag: OnExec) -> Op
        ensures { result ≡ narrow_and_set_flag flag }
    {
        Op::marking(Cell::Unknown, Cell::Unknown, &Some(all_by_name()), flag)
    }

    /// What becomes of a held cell with this flag.
    fn held_op(&self, flag: OnExec) -> HeldOp
        ensures { result ≡ held_op self.now flag }
    {
        match flag {
            OnExec::Set => self.set,
            OnExec::Clear => self.clear,
            OnExec::Unsure => self.unsure,
        }
    }

    /// What becomes of a cell.
    pub fn on(&self, cell: Cell) -> Cell
        ensures { result ≡ applied self.now cell }
    {
        match cell {
            Cell::Unknown => self.unknown,
            Cell::Closed => self.closed,
            Cell::Held(rights, flag) => self.held_op(flag).on(&rights),
        }
    }
}
