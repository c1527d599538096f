//! Rights by descriptor and flag.

ghost use Rattle.std.specs.Prelude.{◌≡◌, ℕ, OnOk, IfOk, ◌==◌, ◌≤◌, true, false, nat_le, if◌then◌else◌};
ghost use Rattle.cap_rights.specs.Rights.{join};
ghost use Rattle.cap_machine.specs.declared.cell.OnExec.{OnExec};
ghost use Rattle.cap_limits.specs.Code.Wanted.{flag_rights, rights_of, HasFrom};

use cap_machine::OnExec;
use cap_rights::{NoMemory, RightSet};
use cap_trace::Fd;
use std::alloc::Global;
use std::collections::BTreeMap;

/// Rights for each flag that a held descriptor can have.
#[derive(Clone, Copy)]
pub(crate) struct ByFlag {
    pub(crate) set: RightSet,
    pub(crate) clear: RightSet,
    pub(crate) unsure: RightSet,
}

impl ByFlag {
    /// These rights, whatever the flag.
    pub(crate) fn all(rights: RightSet) -> ByFlag
        ensures { (x : OnExec) → flag_rights result x ≡ rights }
    {
        ByFlag {
            set: rights,
            clear: rights,
            unsure: rights,
        }
    }

    /// The rights where the descriptor has this flag.
    pub(crate) fn of(&self, flag: OnExec) -> RightSet
        ensures { result ≡ flag_rights self.now flag }
    {
        match flag {
            OnExec::Set => self.set,
            OnExec::Clear => self.clear,
            OnExec::Unsure => self.unsure,
        }
    }

    /// The rights of both.
    pub(crate) fn join(&self, other: &ByFlag) -> ByFlag
        ensures { (x : OnExec) → flag_rights result x ≡ join (flag_rights self.now x) (flag_rights other.now x) }
    {
        ByFlag {
            set: self.set.join(&other.set),
            clear: self.clear.join(&other.clear),
            unsure: self.unsure.join(&other.unsure),
        }
    }
}

/// Rights for each descriptor, by its flag. Most have none.
#[derive(Drop)]
pub(crate) struct FdRights {
    pub(crate) map: BTreeMap<Fd, ByFlag>,
}

impl FdRights {
    /// No rights for any descriptor. It takes no memory.
    pub(crate) fn none(alloc: Global) -> FdRights
        ensures { (f : ℕ) (x : OnExec) → rights_of result f x ≡ 0 }
    {
        FdRights {
            map: BTreeMap::new(alloc),
        }
    }

    /// The rights of a descriptor with this flag.
    pub(crate) fn get(&self, fd: Fd, flag: OnExec) -> RightSet
        ensures { result ≡ rights_of self.now fd flag }
    {
        match self.map.get(&fd) {
            Some(rights) => rights.of(flag),
            None => RightSet::none(),
        }
    }

    /// Adds rights to those of a descriptor.
    #[inline(always)]
    pub(crate) fn add(&mut self, fd: Fd, rights: &ByFlag) -> Result<(), NoMemory>
        ensures { OnOk result ((f : ℕ) (x : OnExec) → rights_of self.new f x
            ≡ (if f == fd then join (rights_of self.old f x) (flag_rights rights.now x) else rights_of self.old f x)) }
    {
        match self.map.get_mut(&fd) {
            Some(own) => *own = own.join(rights),
            None => {
                self.map.insert(fd, *rights)?;
            }
        }
        Ok(())
    }

    /// Takes the rights of a descriptor away. Its place stays, since its number mostly comes again.
    pub(crate) fn take(&mut self, fd: Fd) -> ByFlag
        ensures taken { (x : OnExec) → flag_rights result x ≡ rights_of self.old fd x }
        ensures rest { (f : ℕ) (x : OnExec) → rights_of self.new f x ≡ (if f == fd then 0 else rights_of self.old f x) }
    {
        let none = ByFlag::all(RightSet::none());
        match self.map.get_mut(&fd) {
            Some(own) => std::mem::replace(own, none),
            None => none,
        }
    }

    /// Takes the rights of all descriptors away.
    pub(crate) fn clear(&mut self)
        ensures { (f : ℕ) (x : OnExec) → rights_of self.new f x ≡ 0 }
    {
        self.map.clear();
    }

    /// Takes the rights of the descriptors from one on away.
    pub(crate) fn clear_from(&mut self, fd: Fd)
        ensures { (f : ℕ) (x : OnExec) → rights_of self.new f x ≡ (if nat_le fd f then 0 else rights_of self.old f x) }
    {
        while self.last_is_from(fd) {
            self.map.pop_last();
        }
    }

    /// Whether one of the descriptors from this one on may have rights.
    fn last_is_from(&self, fd: Fd) -> bool
        ensures none { result ≡ false → (f : ℕ) (x : OnExec) → fd ≤ f → rights_of self.now f x ≡ 0 }
        ensures some { result ≡ true → HasFrom self.now fd }
    {
        match self.map.last_key_value() {
            Some((last, _)) => fd <= *last,
            None => false,
        }
    }

    /// Moves the rights of another here.
    pub(crate) fn add_all(&mut self, other: &mut FdRights) -> Result<(), NoMemory>
        ensures added { OnOk result ((f : ℕ) (x : OnExec)
            → rights_of self.new f x ≡ join (rights_of self.old f x) (rights_of other.old f x)) }
        ensures empty { OnOk result ((f : ℕ) (x : OnExec) → rights_of other.new f x ≡ 0) }
    {
        while let Some(entry) = other.map.pop_first() {
            self.add(entry.0, &entry.1)?;
        }
        Ok(())
    }

    /// The rights of both. The smaller is moved into the larger.
    pub(crate) fn joined(self, other: FdRights) -> Result<FdRights, NoMemory>
        ensures { IfOk result (λ both. (f : ℕ) (x : OnExec)
            → rights_of both f x ≡ join (rights_of self f x) (rights_of other f x)) }
    {
        let (mut large, mut small) = if self.map.len() < other.map.len() {
            (other, self)
        } else {
            (self, other)
        };
        large.add_all(&mut small)?;
        Ok(large)
    }
}
