//! What lines need of one process.

ghost use Rattle.std.specs.Prelude.{◌≡◌, ℕ, OnOk, IfOk, nat_le, if◌then◌else◌, None};
ghost use Rattle.cap_rights.specs.Rights.{join};
ghost use Rattle.cap_machine.specs.declared.cell.OnExec.{OnExec};
ghost use Rattle.cap_machine.specs.Op.{held_op, exec};
ghost use Rattle.cap_limits.specs.Code.Wanted.{rights_of, flag_rights, wanted_of, back_through, wanted_without, wanted_with};
ghost use Rattle.cap_limits.specs.Code.Wanted.{undone, unblocked, earlier, with_requirement, blocked_with};

use crate::live::fd_rights::{ByFlag, FdRights};
use cap_machine::{Check, Checks, Class, Effect, HeldOp, OnExec, Op, Reply, Requirement};
use cap_rights::{NoMemory, RightSet};
use cap_trace::Fd;
use std::alloc::Global;

/// The rights that are wanted of a held cell, from those that are wanted of what this op makes of it.
fn held_before(op: &HeldOp, after: &ByFlag) -> RightSet
    ensures { result ≡ back_through op.now (flag_rights after.now) }
{
    match op {
        HeldOp::Becomes(_) => RightSet::none(),
        HeldOp::Keeps(None, flag) => after.of(*flag),
        HeldOp::Keeps(Some(mask), flag) => after.of(*flag).meet(mask),
    }
}

/// The rights that are wanted of a held cell with each flag, from those that are wanted of what this op makes of it.
fn before_op(op: &Op, after: &ByFlag) -> ByFlag
    ensures { (x : OnExec) → flag_rights result x ≡ back_through (held_op op.now x) (flag_rights after.now) }
{
    ByFlag {
        set: held_before(&op.set, after),
        clear: held_before(&op.clear, after),
        unsure: held_before(&op.unsure, after),
    }
}

/// What the lines from one on need of a process. What is needed after the next exec is kept apart, so that what is
/// needed of a descriptor is moved by one exec alone, however many there are.
#[derive(Drop)]
pub(crate) struct LiveProcess {
    /// The rights that are needed of each descriptor before the next exec.
    until_exec: FdRights,
    /// Those that are needed after it. An exec hands on those where the flag is clear.
    after_exec: FdRights,
    /// The position of the first line that is in the way of entering capability mode.
    pub(crate) blocked: Option<usize>,
}

impl LiveProcess {
    /// Nothing is needed of it. It takes no memory.
    pub(crate) fn none(alloc: Global) -> LiveProcess
        ensures rights { (f : ℕ) (x : OnExec) → wanted_of result f x ≡ 0 }
        ensures blocked { result.blocked ≡ None }
    {
        LiveProcess {
            until_exec: FdRights::none(alloc),
            after_exec: FdRights::none(alloc),
            blocked: None,
        }
    }

    /// The rights that are needed of a descriptor, where it is held with this flag.
    pub(crate) fn get(&self, fd: Fd, flag: OnExec) -> RightSet
        ensures { result ≡ wanted_of self.now fd flag }
    {
        let until_exec = self.until_exec.get(fd, flag);
        match flag {
            OnExec::Clear => until_exec.join(&self.after_exec.get(fd, flag)),
            OnExec::Set | OnExec::Unsure => until_exec,
        }
    }

    /// What is needed of each descriptor before the next exec. Of one whose flag isn't known that is all.
    pub(crate) fn into_until_exec(self) -> FdRights
        ensures { (f : ℕ) → rights_of result f OnExec.Unsure ≡ wanted_of self f OnExec.Unsure }
    {
        self.until_exec
    }

    /// Adds rights of a descriptor.
    #[inline(always)]
    fn add(&mut self, fd: Fd, rights: &ByFlag) -> Result<(), NoMemory>
        ensures rights { OnOk result ((f : ℕ) (x : OnExec)
            → wanted_of self.new f x ≡ wanted_with fd (flag_rights rights.now) (wanted_of self.old) f x) }
        ensures blocked { OnOk result (self.new.blocked ≡ self.old.blocked) }
    {
        self.until_exec.add(fd, rights)
    }

    /// Takes the rights of a descriptor away.
    fn take(&mut self, fd: Fd) -> ByFlag
        ensures taken { (x : OnExec) → flag_rights result x ≡ wanted_of self.old fd x }
        ensures rest { (f : ℕ) (x : OnExec) → wanted_of self.new f x ≡ wanted_without fd (wanted_of self.old) f x }
        ensures blocked { self.new.blocked ≡ self.old.blocked }
    {
        let until_exec = self.until_exec.take(fd);
        let after_exec = self.after_exec.take(fd);
        ByFlag {
            set: until_exec.set,
            clear: until_exec.clear.join(&after_exec.clear),
            unsure: until_exec.unsure,
        }
    }

    /// Takes the rights of all descriptors away.
    fn clear(&mut self)
        ensures rights { (f : ℕ) (x : OnExec) → wanted_of self.new f x ≡ 0 }
        ensures blocked { self.new.blocked ≡ self.old.blocked }
    {
        self.until_exec.clear();
        self.after_exec.clear();
    }

    /// Takes the rights of the descriptors from one on away.
    fn clear_from(&mut self, fd: Fd)
        ensures rights { (f : ℕ) (x : OnExec) → wanted_of self.new f x ≡ (if nat_le fd f then 0 else wanted_of self.old f x) }
        ensures blocked { self.new.blocked ≡ self.old.blocked }
    {
        self.until_exec.clear_from(fd);
        self.after_exec.clear_from(fd);
    }

    /// What an exec hands on in profile 2: a descriptor with the flag is closed, and of one whose flag isn't known
    /// nothing is known after it.
    fn exec(&mut self) -> Result<(), NoMemory>
        ensures rights { OnOk result ((f : ℕ) (x : OnExec)
            → wanted_of self.new f x ≡ back_through (held_op exec x) (wanted_of self.old f)) }
        ensures blocked { OnOk result (self.new.blocked ≡ self.old.blocked) }
    {
        self.after_exec.add_all(&mut self.until_exec)?;
        Ok(())
    }

    /// What becomes of one descriptor is needed of the one that it is taken from.
    fn change(&mut self, to: Fd, op: &Op, from: Fd) -> Result<(), NoMemory>
        ensures rights { OnOk result ((f : ℕ) (x : OnExec) → wanted_of self.new f x
            ≡ wanted_with from (λ y. back_through (held_op op.now y) (wanted_of self.old to))
            (wanted_without to (wanted_of self.old)) f x) }
        ensures blocked { OnOk result (self.new.blocked ≡ self.old.blocked) }
    {
        let after = self.take(to);
        self.add(from, &before_op(op, &after))
    }

    /// What is needed of either.
    pub(crate) fn joined(self, other: LiveProcess) -> Result<LiveProcess, NoMemory>
        ensures rights { IfOk result (λ both. (f : ℕ) (x : OnExec)
            → wanted_of both f x ≡ join (wanted_of self f x) (wanted_of other f x)) }
        ensures blocked { IfOk result (λ both. both.blocked ≡ earlier self.blocked other.blocked) }
    {
        let blocked = earlier_of(self.blocked, other.blocked);
        let until_exec = self.until_exec.joined(other.until_exec)?;
        let after_exec = self.after_exec.joined(other.after_exec)?;
        Ok(LiveProcess {
            until_exec,
            after_exec,
            blocked,
        })
    }

    /// Goes back before an effect of a line of the process. What is needed of a child is kept with the child.
    #[inline(always)]
    fn undo(&mut self, effect: &Effect<'_>) -> Result<(), NoMemory>
        ensures rights { OnOk result ((f : ℕ) (x : OnExec)
            → wanted_of self.new f x ≡ undone effect.now (wanted_of self.old) f x) }
        ensures blocked { OnOk result (self.new.blocked ≡ unblocked effect.now self.old.blocked) }
    {
        match effect {
            Effect::Keep | Effect::Fork(_) => {}
            Effect::Enter => self.blocked = None,
            Effect::Start(_) | Effect::Exit => {
                self.clear();
                self.blocked = None;
            }
            Effect::Forget => self.clear(),
            Effect::Exec => self.exec()?,
            Effect::CloseFrom(fd) => self.clear_from(*fd),
            Effect::Give(fd, _) | Effect::ForkAs(_, fd) => {
                self.take(*fd);
            }
            Effect::GiveTwo(first, second, _) => {
                self.take(*first);
                self.take(*second);
            }
            Effect::Change(to, op, from) => self.change(*to, op, *from)?,
        }
        Ok(())
    }

    /// Adds what a check needs.
    #[inline(always)]
    fn need(&mut self, check: &Check) -> Result<(), NoMemory>
        ensures rights { OnOk result ((f : ℕ) (x : OnExec)
            → wanted_of self.new f x ≡ wanted_with check.now.fd (λ y. check.now.needs) (wanted_of self.old) f x) }
        ensures blocked { OnOk result (self.new.blocked ≡ self.old.blocked) }
    {
        if check.needs == RightSet::none() {
            return Ok(());
        }
        self.add(check.fd, &ByFlag::all(check.needs))
    }

    /// Adds what a line with this requirement needs; `at` is its position.
    #[inline(always)]
    fn requirement(&mut self, at: usize, requirement: &Requirement) -> Result<(), NoMemory>
        ensures rights { OnOk result ((f : ℕ) (x : OnExec)
            → wanted_of self.new f x ≡ with_requirement requirement.now (wanted_of self.old) f x) }
        ensures blocked { OnOk result (self.new.blocked ≡ blocked_with requirement.now at self.old.blocked) }
    {
        if requirement.reply != Reply::Success {
            return Ok(());
        }
        if requirement.class == Class::Forbidden {
            self.blocked = Some(at);
        }
        match &requirement.checks {
            Checks::Nothing => Ok(()),
            Checks::One(a) => self.need(a),
            Checks::Two(a, b) => {
                self.need(a)?;
                self.need(b)
            }
        }
    }

    /// Passes a line of the process with this requirement and this effect; `at` is its position. What is needed of a
    /// child is kept with the child.
    #[inline(always)]
    pub(crate) fn pass(
        &mut self,
        at: usize,
        requirement: &Requirement,
        effect: &Effect<'_>,
    ) -> Result<(), NoMemory>
        ensures rights { OnOk result ((f : ℕ) (x : OnExec) → wanted_of self.new f x
            ≡ with_requirement requirement.now (undone effect.now (wanted_of self.old)) f x) }
        ensures blocked { OnOk result
            (self.new.blocked ≡ blocked_with requirement.now at (unblocked effect.now self.old.blocked)) }
    {
        self.undo(effect)?;
        self.requirement(at, requirement)
    }
}

/// The earlier of two positions.
fn earlier_of(one: Option<usize>, other: Option<usize>) -> Option<usize>
    ensures { result ≡ earlier one other }
{
    match (one, other) {
        (None, other) => other,
        (Some(n), None) => Some(n),
        (Some(n), Some(m)) => Some(if n < m { n } else { m }),
    }
}
