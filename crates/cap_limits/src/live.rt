//! Which rights of each descriptor the lines from here on need, and which line is in the way of capability mode.

pub(crate) mod fd_rights;
mod process;

ghost use Rattle.std.specs.Prelude.{◌≡◌, ◌↔◌, ℕ, ◌+◌, ◌<◌, ◌^◌, ◌==◌, true, OnOk, List, [], ◌∷◌, None, if◌then◌else◌};
ghost use Rattle.cap_rights.specs.Rights.{holds};
ghost use Rattle.cap_trace.specs.Item as items;
ghost use Rattle.cap_trace.specs.Call as calls;
ghost use Rattle.cap_machine.specs.declared.cell.OnExec.{OnExec};
ghost use Rattle.cap_machine.specs.declared.step.Step.{Step};
ghost use Rattle.cap_machine.specs.Steps.{step};
ghost use Rattle.cap_limits.specs.Live.{Live};
ghost use Rattle.cap_limits.specs.Code.LiveRights.{AreLive, AreBlocked, IsRule};
ghost use Rattle.cap_limits.specs.Code.Wanted.{rights_of, wanted_of, wanted, blocked};
ghost use Rattle.cap_machine.specs.Effect.{is_child};
ghost use Rattle.cap_limits.specs.Code.Wanted.{wanted_in_either, blocked_in_either};
ghost use Rattle.cap_limits.specs.Code.Wanted.{undone, unblocked, with_requirement, blocked_with};

use crate::live::fd_rights::FdRights;
use crate::live::process::LiveProcess;
use cap_machine::{
    Effect, OnExec, Profile, Requirement, effect_of_close, effect_of_line, keeps_cells,
    requirement_of_fd_call, requirement_of_line,
};
use cap_rights::{NoMemory, RightSet};
use cap_trace::{Answer, Call, Fd, FdCall, Item, Line, LineRef, Pid};
use std::alloc::Global;
use std::collections::BTreeMap;

/// What the lines from one on need: the rights of each descriptor of each process, by its close-on-exec flag, and of
/// each process the first line that is in the way of entering capability mode.
///
/// It is handed the lines one by one, from the last line of the trace back. It keeps no line: its memory grows with the
/// descriptors that they need rights of.
#[derive(Drop)]
pub struct LiveRights {
    alloc: Global,
    processes: BTreeMap<Pid, LiveProcess>,
}

impl LiveRights {
    /// No line needs anything. It takes no memory.
    pub fn none(alloc: Global) -> LiveRights
        ensures rights { AreLive result [] }
        ensures blocked { (at : ℕ) → AreBlocked result at [] }
    {
        LiveRights {
            alloc,
            processes: BTreeMap::new(alloc),
        }
    }

    /// The rights of a descriptor of a process that the lines need, where it is held with this flag: by name, without
    /// FULL.
    pub fn rights(&self, pid: Pid, fd: Fd, flag: OnExec) -> RightSet
        ensures by_name { result < 2 ^ 63 }
        ensures live { (later : List Step) → AreLive self.now later
            → (k : ℕ) → k < 63 → (holds result k ≡ true) ↔ Live later pid fd flag k }
    {
        self.needed(pid, fd, flag).without_full()
    }

    /// The same as they are kept, of which only those by name count.
    pub(crate) fn needed(&self, pid: Pid, fd: Fd, flag: OnExec) -> RightSet
        ensures { result ≡ wanted self.now pid fd flag }
    {
        match self.processes.get(&pid) {
            Some(own) => own.get(fd, flag),
            None => RightSet::none(),
        }
    }

    /// The position of the first line that is in the way of a process's entering capability mode.
    pub fn blocked(&self, pid: Pid) -> Option<usize>
        ensures { result ≡ blocked self.now pid }
    {
        match self.processes.get(&pid) {
            Some(own) => own.blocked,
            None => None,
        }
    }

    /// What is needed of each descriptor of a process before its next exec. Of one whose flag isn't known that is all.
    pub(crate) fn into_until_exec(self, pid: Pid) -> FdRights
        ensures { (f : ℕ) → rights_of result f OnExec.Unsure ≡ wanted self pid f OnExec.Unsure }
    {
        let mut live = self;
        live.take(pid).into_until_exec()
    }

    /// Takes out what is needed of a process.
    fn take(&mut self, pid: Pid) -> LiveProcess
        ensures own { (f : ℕ) (x : OnExec) → wanted_of result f x ≡ wanted self.old pid f x }
        ensures own_blocked { result.blocked ≡ blocked self.old pid }
        ensures rights { (p f : ℕ) (x : OnExec) → wanted self.new p f x ≡ (if p == pid then 0 else wanted self.old p f x) }
        ensures blocked { (p : ℕ) → blocked self.new p ≡ (if p == pid then None else blocked self.old p) }
    {
        match self.processes.remove(&pid) {
            Some(own) => own,
            None => LiveProcess::none(self.alloc),
        }
    }

    /// Puts in what is needed of a process.
    fn put(&mut self, pid: Pid, own: LiveProcess) -> Result<(), NoMemory>
        ensures rights { OnOk result ((p f : ℕ) (x : OnExec)
            → wanted self.new p f x ≡ (if p == pid then wanted_of own f x else wanted self.old p f x)) }
        ensures blocked { OnOk result ((p : ℕ)
            → blocked self.new p ≡ (if p == pid then own.blocked else blocked self.old p)) }
    {
        self.processes.insert(pid, own)?;
        Ok(())
    }

    /// Joins what is needed of the child that an effect makes to what is needed of its process.
    #[inline(always)]
    fn gather(&mut self, me: Pid, effect: &Effect<'_>) -> Result<(), NoMemory>
        ensures rights { OnOk result ((p f : ℕ) (x : OnExec) → wanted self.new p f x
            ≡ (if p == me then wanted_in_either effect.now me (wanted self.old) f x
            else (if is_child effect.now p then 0 else wanted self.old p f x))) }
        ensures blocked { OnOk result ((p : ℕ) → blocked self.new p
            ≡ (if p == me then blocked_in_either effect.now me (blocked self.old)
            else (if is_child effect.now p then None else blocked self.old p))) }
    {
        match effect {
            Effect::Fork(child) | Effect::ForkAs(child, _) => {
                let own = self.take(me);
                let both = own.joined(self.take(*child))?;
                self.put(me, both)
            }
            _ => Ok(()),
        }
    }

    /// Passes a line of a process with this requirement and this effect. What is needed of a child is kept with the
    /// child.
    #[inline(always)]
    fn pass_own(
        &mut self,
        at: usize,
        me: Pid,
        requirement: &Requirement,
        effect: &Effect<'_>,
    ) -> Result<(), NoMemory>
        ensures rights { OnOk result ((p f : ℕ) (x : OnExec) → wanted self.new p f x
            ≡ (if p == me then with_requirement requirement.now (undone effect.now (wanted self.old me)) f x
            else wanted self.old p f x)) }
        ensures blocked { OnOk result ((p : ℕ) → blocked self.new p
            ≡ (if p == me then blocked_with requirement.now at (unblocked effect.now (blocked self.old me))
            else blocked self.old p)) }
    {
        match self.processes.get_mut(&me) {
            Some(own) => own.pass(at, requirement, effect),
            None => {
                let mut own = LiveProcess::none(self.alloc);
                own.pass(at, requirement, effect)?;
                self.put(me, own)
            }
        }
    }

    /// Passes a line of a process with this requirement and this effect.
    #[inline(always)]
    fn pass_rule(
        &mut self,
        at: usize,
        me: Pid,
        requirement: &Requirement,
        effect: &Effect<'_>,
    ) -> Result<(), NoMemory>
        ensures rights { (line : Step) → IsRule line me requirement.now effect.now
            → OnOk result ((later : List Step) → AreLive self.old later → AreLive self.new (line ∷ later)) }
        ensures blocked { (line : Step) → IsRule line me requirement.now effect.now
            → OnOk result ((later : List Step)
            → AreBlocked self.old (at + 1) later → AreBlocked self.new at (line ∷ later)) }
    {
        self.gather(me, effect)?;
        self.pass_own(at, me, requirement, effect)
    }

    /// Passes a borrowed line by its rule: the slow path.
    // Out of line: a function with a large enum among its locals clears it at each call.
    #[inline(never)]
    fn pass_by_rule(
        &mut self,
        at: usize,
        profile: Profile,
        line: &LineRef<'_>,
    ) -> Result<(), NoMemory>
        ensures rights { OnOk result ((later : List Step)
            → AreLive self.old later → AreLive self.new (step profile line.now ∷ later)) }
        ensures blocked { OnOk result ((later : List Step)
            → AreBlocked self.old (at + 1) later → AreBlocked self.new at (step profile line.now ∷ later)) }
    {
        let requirement = requirement_of_line(line);
        let effect = effect_of_line(profile, line);
        self.pass_rule(at, line.pid, &requirement, &effect)
    }

    /// Passes a line with a call on one descriptor, which mostly changes nothing.
    // The fast path: the effect of close(2) and of a call that changes nothing is known without the rule. For any other
    // call it gives up. Both paths have the contract of `pass`, so they agree. Without it `limits K` takes 14 to 32 % more
    // instructions.
    #[inline(always)]
    fn pass_on_fd(
        &mut self,
        at: usize,
        profile: Profile,
        line: &LineRef<'_>,
        call: FdCall,
        fd: Fd,
        answer: &Answer,
    ) -> Result<(), NoMemory>
        requires { line.now.item ≡ items.Call (calls.OnFd call fd) answer.now }
        ensures rights { OnOk result ((later : List Step)
            → AreLive self.old later → AreLive self.new (step profile line.now ∷ later)) }
        ensures blocked { OnOk result ((later : List Step)
            → AreBlocked self.old (at + 1) later → AreBlocked self.new at (step profile line.now ∷ later)) }
    {
        let requirement = requirement_of_fd_call(call, fd, answer);
        match call {
            FdCall::Close => {
                self.pass_rule(at, line.pid, &requirement, &effect_of_close(fd, answer))
            }
            _ if keeps_cells(call) => self.pass_rule(at, line.pid, &requirement, &Effect::Keep),
            _ => self.pass_by_rule(at, profile, line),
        }
    }

    /// Passes a borrowed line.
    #[inline(always)]
    pub(crate) fn pass_view(
        &mut self,
        at: usize,
        profile: Profile,
        line: &LineRef<'_>,
    ) -> Result<(), NoMemory>
        ensures rights { OnOk result ((later : List Step)
            → AreLive self.old later → AreLive self.new (step profile line.now ∷ later)) }
        ensures blocked { OnOk result ((later : List Step)
            → AreBlocked self.old (at + 1) later → AreBlocked self.new at (step profile line.now ∷ later)) }
    {
        match &line.item {
            Item::Call {
                call: Call::OnFd(call, fd),
                answer,
            } => self.pass_on_fd(at, profile, line, *call, *fd, answer),
            _ => self.pass_by_rule(at, profile, line),
        }
    }

    /// Passes the line before those that it has passed; `at` is its position.
    ///
    /// `NoMemory` when out of memory. What is then known isn't promised: drop it.
    pub fn pass(&mut self, at: usize, profile: Profile, line: &Line) -> Result<(), NoMemory>
        ensures rights { OnOk result ((later : List Step)
            → AreLive self.old later → AreLive self.new (step profile line.now ∷ later)) }
        ensures blocked { OnOk result ((later : List Step)
            → AreBlocked self.old (at + 1) later → AreBlocked self.new at (step profile line.now ∷ later)) }
    {
        self.pass_view(at, profile, &line.view())
    }
}
