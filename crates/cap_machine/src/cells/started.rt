//! The descriptors that a process began with.

ghost use Rattle.std.specs.Prelude.{◌≡◌, ℕ, ◌≤◌, IfOk, OnOk, ◌==◌, ◌||◌, nat_le, if◌then◌else◌, false};
ghost use Rattle.std.specs.List.{list_any};
ghost use Rattle.cap_rights.specs.Rights.{all};
ghost use Rattle.cap_machine.specs.Code.Cells.Deferred.{with_deferred};
ghost use Rattle.cap_machine.specs.Code.Cells.Started.{is_listed, in_started};

use crate::cell::{Cell, OnExec};
use crate::cells::deferred::Deferred;
use crate::cells::leaf::LOW_FDS;
use cap_rights::{NoMemory, RightSet};
use cap_trace::Fd;
use std::alloc::{AllocError, Global};

/// The descriptors from 64 on that `@start` listed and that weren't written since, and what was done to all of them
/// since. A line lists few enough to look through, and many more than a line of another kind could write in the tree.
/// Those that fit two bytes are kept in two.
#[derive(Drop)]
pub(crate) struct Started {
    small: Vec<u16>,
    large: Vec<Fd>,
    deferred: Deferred,
}

impl Started {
    /// None is listed. It takes no memory.
    pub(crate) fn nothing(alloc: Global) -> Started
        ensures { (c : Cell) (f : ℕ) → in_started result c f ≡ c }
    {
        Started {
            small: Vec::new(alloc),
            large: Vec::new(alloc),
            deferred: Deferred::Nothing,
        }
    }

    /// Lists one descriptor more, if it isn't one of the first 64.
    fn list(&mut self, fd: Fd) -> Result<(), NoMemory>
        ensures listed { OnOk result ((f : ℕ) → 64 ≤ f → is_listed self.new f ≡ (is_listed self.old f || f == fd)) }
        ensures deferred { OnOk result (self.new.deferred ≡ self.old.deferred) }
    {
        if fd < LOW_FDS {
            return Ok(());
        }
        match u16::try_from(fd) {
            Ok(small) => self.small.push(small)?,
            Err(_) => self.large.push(fd)?,
        }
        Ok(())
    }

    /// None is listed, and there is room for those of these from 64 on.
    fn with_room(alloc: Global, fds: &[Fd]) -> Result<Started, NoMemory>
        ensures listed { IfOk result (λ new. (f : ℕ) → is_listed new f ≡ false) }
        ensures deferred { IfOk result (λ new. new.deferred ≡ Deferred.Nothing) }
    {
        let (mut small, mut large) = (0, 0);
        for fd in fds {
            if Fd::from(u16::MAX) < *fd {
                large += 1;
            } else if LOW_FDS <= *fd {
                small += 1;
            }
        }
        Ok(Started {
            small: Vec::with_capacity(alloc, small)?,
            large: Vec::with_capacity(alloc, large)?,
            deferred: Deferred::Nothing,
        })
    }

    /// Those of these from 64 on are listed, and nothing was done to them.
    pub(crate) fn of(alloc: Global, fds: &[Fd]) -> Result<Started, NoMemory>
        ensures { IfOk result (λ new. (c : Cell) (f : ℕ) → 64 ≤ f
            → in_started new c f ≡ (if list_any (λ g. f == g) fds.now then Cell.Held all OnExec.Unsure else c)) }
    {
        let mut started = Started::with_room(alloc, fds)?;
        for fd in fds {
            started.list(*fd)?;
        }
        Ok(started)
    }

    /// Whether a descriptor is listed among those that fit two bytes.
    fn lists_small(&self, fd: Fd) -> bool
        ensures { result ≡ list_any (λ g. fd == g) self.now.small.items }
    {
        self.small.iter().any(|listed| fd == Fd::from(*listed))
    }

    /// Whether a descriptor is listed among the others.
    fn lists_large(&self, fd: Fd) -> bool
        ensures { result ≡ list_any (λ g. fd == g) self.now.large.items }
    {
        self.large.iter().any(|listed| fd == *listed)
    }

    /// Whether a descriptor is listed.
    pub(crate) fn lists(&self, fd: Fd) -> bool
        ensures { result ≡ is_listed self.now fd }
    {
        self.lists_small(fd) || self.lists_large(fd)
    }

    /// The cell of each that is listed.
    pub(crate) fn cell(&self) -> Cell
        ensures { result ≡ with_deferred self.now.deferred (Cell.Held all OnExec.Unsure) }
    {
        self.deferred
            .on(Cell::Held(RightSet::all(), OnExec::Unsure))
    }

    /// Strikes a descriptor off the list.
    pub(crate) fn strike(&mut self, fd: Fd)
        ensures { (c : Cell) (f : ℕ) → in_started self.new c f ≡ (if f == fd then c else in_started self.old c f) }
    {
        self.small.retain(|listed| Fd::from(*listed) != fd);
        self.large.retain(|listed| *listed != fd);
    }

    /// Strikes those from a descriptor on off the list.
    pub(crate) fn strike_from(&mut self, fd: Fd)
        ensures { (c : Cell) (f : ℕ) → in_started self.new c f ≡ (if nat_le fd f then c else in_started self.old c f) }
    {
        self.small.retain(|listed| Fd::from(*listed) < fd);
        self.large.retain(|listed| *listed < fd);
    }

    /// Does this to each.
    pub(crate) fn apply_deferred(&mut self, deferred: Deferred)
        ensures { (c : Cell) (f : ℕ)
            → in_started self.new (with_deferred deferred c) f ≡ with_deferred deferred (in_started self.old c f) }
    {
        self.deferred = deferred.after(self.deferred);
    }
}

impl Clone for Started {
    ghost use Rattle.cap_machine.specs.declared.cell.Cell.{Cell};

    ghost is_clone = { λ a b. (c : Cell) (f : ℕ) → in_started b c f ≡ in_started a c f };

    fn clone(&self) -> Result<Started, AllocError> {
        Ok(Started {
            small: self.small.clone()?,
            large: self.large.clone()?,
            deferred: self.deferred,
        })
    }
}
