//! What a line of a trace does to a table, and whether nothing is said of it. A common call is judged and followed by
//! itself; any other by its rule.
//!
//! Only here is a call judged beside its rule (`requirements`, `effects`). Each function has the contract that follows
//! from the rule, so both are the same. Of some 600 instructions a line, that spares 110 where it judges and 60 where
//! it follows: a `Requirement` and an `Effect` are large, and are cleared and copied in memory.

ghost use Rattle.std.specs.Prelude.{◌≡◌, ℕ, [], OnOk, IsTrue, Option};
ghost use Rattle.cap_trace.specs.Call as calls;
ghost use Rattle.cap_trace.specs.Entry.{IsFd};
ghost use Rattle.cap_trace.specs.Views.{call_view};
ghost use Rattle.cap_machine.specs.Steps.{step};
ghost use Rattle.cap_machine.specs.Touch.{on_fd, on_made, given, whole, closing, open_flag};
ghost use Rattle.cap_machine.specs.Effect.{FitsMade};
ghost use Rattle.cap_machine.specs.Rule.{requirement, call_requirement, needs_requirement, check_of, reply};
ghost use Rattle.cap_machine.specs.Judge.{fault};
ghost use Rattle.cap_machine.specs.Check.{findings_of};
ghost use Rattle.cap_machine.specs.Code.Table.{cell_of, state_of, Keeps, touched_by};
ghost use Rattle.cap_machine.specs.History.{step_after};

use crate::cell::{Cell, Mode, Profile};
use crate::cells::LOW_FDS;
use crate::effects::{effect_of_line, keeps_cells, open_flag_of};
use crate::errno::{EBADF, ECAPMODE, ENOTCAPABLE};
use crate::needs::{
    at_flags_needs_of, at_needs_of, fcntl_needs_of, fd_needs_of, mmap_needs_of, send_needs_of,
};
use crate::places::below_of;
use crate::requirements::requirement_of_line;
use crate::rule::Reply;
use crate::table::Table;
use crate::verdict::Verdict;
use cap_rights::{NoMemory, RightSet};
use cap_trace::{
    Answer, AtCall, AtFlagsCall, Call, Dir, Fd, FdCall, Item, LineRef, NeedsMarker, PathCall, Pid,
};

impl Table {
    ghost use Rattle.cap_trace.specs.declared.line.Answer.{Answer};
    ghost use Rattle.cap_machine.specs.declared.rule.LimitWord.{LimitWord};

    /// Whether a descriptor is known to have these rights, or nothing is known of it.
    ///
    /// The leaf of the first descriptors answers what the cell would, and is asked where it is up to date. Inlined, as
    /// a call would take as long as the test.
    #[inline(always)]
    fn may_have(&self, pid: Pid, fd: Fd, needs: RightSet) -> bool
        ensures { IsTrue result → (word : LimitWord) (excuse : Option ℕ)
            → fault word (check_of fd needs excuse) (cell_of self.now pid fd) ≡ [] }
    {
        if let Some(process) = self.find(pid) {
            if let Some(leaf) = process.cells.leaf_of(fd) {
                return leaf.may_have(fd as usize, &needs);
            }
        }
        self.cell_may_have(pid, fd, needs)
    }

    /// Whether the cell of a descriptor may have these rights, looked up on the slow path. Not inlined, so that
    /// [`may_have`](Table::may_have) ends with a call, and saves no registers.
    #[inline(never)]
    fn cell_may_have(&self, pid: Pid, fd: Fd, needs: RightSet) -> bool
        ensures { IsTrue result → (word : LimitWord) (excuse : Option ℕ)
            → fault word (check_of fd needs excuse) (cell_of self.now pid fd) ≡ [] }
    {
        self.cell(pid, fd).may_have(&needs)
    }

    /// Whether nothing is found in a fcntl(2) that succeeded.
    ///
    /// Like the next four it isn't inlined: what it needs in memory would be cleared at each line, also where it isn't
    /// called. That spares a twentieth of a check of reads and writes.
    #[inline(never)]
    fn fcntl_has_no_finding(&self, pid: Pid, fd: Fd, command: &[u8]) -> bool
        ensures { IsTrue result → (answer : Answer) → reply answer ≡ Reply.Success
            → findings_of (call_requirement (calls.Fcntl fd command.now) answer) pid (state_of self.now) ≡ [] }
    {
        match fcntl_needs_of(command) {
            None => true,
            Some(needs) => self.may_have(pid, fd, needs),
        }
    }

    /// Whether nothing is found in a mmap(2) that succeeded.
    #[inline(never)]
    fn mmap_has_no_finding(&self, pid: Pid, fd: Fd, protection: &[u8], kind: &[u8]) -> bool
        ensures { IsTrue result → (answer : Answer) → reply answer ≡ Reply.Success
            → findings_of (call_requirement (calls.Mmap fd protection.now kind.now) answer) pid (state_of self.now)
            ≡ [] }
    {
        self.may_have(pid, fd, mmap_needs_of(protection, kind))
    }

    /// Whether nothing is found in a cap_rights_limit(2) that succeeded.
    #[inline(never)]
    fn limit_has_no_finding(&self, pid: Pid, fd: Fd, asked: RightSet) -> bool
        ensures { IsTrue result → (answer : Answer) → reply answer ≡ Reply.Success
            → findings_of (call_requirement (calls.RightsLimit fd asked) answer) pid (state_of self.now) ≡ [] }
    {
        self.may_have(pid, fd, asked.without_full())
    }

    /// Whether nothing is found in a call at a directory that succeeded.
    #[inline(never)]
    fn at_has_no_finding(&self, pid: Pid, call: AtCall, dir: Dir, path: &[u8]) -> bool
        ensures { IsTrue result → (answer : Answer) → reply answer ≡ Reply.Success
            → findings_of (call_requirement (calls.At call dir path.now) answer) pid (state_of self.now) ≡ [] }
    {
        match below_of(dir, path) {
            None => self.mode(pid) != Mode::Inside,
            Some(fd) => self.may_have(pid, fd, at_needs_of(call)),
        }
    }

    /// Whether nothing is found in a call at a directory, with flags, that succeeded.
    #[inline(never)]
    fn at_flags_has_no_finding(
        &self,
        pid: Pid,
        call: AtFlagsCall,
        dir: Dir,
        path: &[u8],
        flags: &[u8],
    ) -> bool
        ensures { IsTrue result → (answer : Answer) → reply answer ≡ Reply.Success
            → findings_of (call_requirement (calls.AtFlags call dir path.now flags.now) answer) pid (state_of self.now)
            ≡ [] }
    {
        match below_of(dir, path) {
            None => self.mode(pid) != Mode::Inside,
            Some(fd) => self.may_have(pid, fd, at_flags_needs_of(call, flags)),
        }
    }

    /// Whether nothing is found in a call that succeeded. May miss some.
    #[inline(always)]
    fn has_no_finding_on_success(&self, pid: Pid, call: &Call<'_>) -> bool
        ensures { IsTrue result → (answer : Answer) → reply answer ≡ Reply.Success
            → findings_of (call_requirement (call_view call.now) answer) pid (state_of self.now) ≡ [] }
    {
        match call {
            Call::OnFd(call, fd) => self.may_have(pid, *fd, fd_needs_of(*call)),
            Call::Send(_, fd) => self.may_have(pid, *fd, send_needs_of()),
            Call::Dup2(fd, _) | Call::FcntlDup(_, fd, _) | Call::FcntlSetFd(fd, _) => {
                self.may_have(pid, *fd, RightSet::none())
            }
            Call::Fcntl(fd, command) => self.fcntl_has_no_finding(pid, *fd, command),
            Call::Mmap(fd, protection, kind) => {
                self.mmap_has_no_finding(pid, *fd, protection, kind)
            }
            Call::RightsLimit(fd, asked) => self.limit_has_no_finding(pid, *fd, *asked),
            Call::At(call, dir, path) => self.at_has_no_finding(pid, *call, *dir, path),
            Call::AtFlags(call, dir, path, flags) => {
                self.at_flags_has_no_finding(pid, *call, *dir, path, flags)
            }
            Call::Open(_, _) | Call::OnPath(_, _) | Call::OnPaths(_, _, _) => {
                self.mode(pid) != Mode::Inside
            }
            Call::OnFlags(_, _) | Call::Bare(_) | Call::Other(_, _) => true,
            _ => false,
        }
    }

    /// Whether nothing is said of a call, where that is seen without its rule; `false` says nothing.
    #[inline(always)]
    fn has_no_finding_in_call(&self, pid: Pid, call: &Call<'_>, answer: &Answer) -> bool
        ensures { IsTrue result → findings_of (call_requirement (call_view call.now) answer.now) pid (state_of self.now)
            ≡ [] }
    {
        match answer {
            Answer::Fault(ENOTCAPABLE | ECAPMODE) => false,
            Answer::Fault(_) => true,
            _ => self.has_no_finding_on_success(pid, call),
        }
    }

    /// Whether nothing is found in a `@uses` or a `@refused`.
    #[inline(never)]
    fn needs_have_no_finding(&self, pid: Pid, marker: NeedsMarker, fd: Fd, rights: RightSet) -> bool
        ensures { IsTrue result → findings_of (needs_requirement marker fd rights) pid (state_of self.now) ≡ [] }
    {
        match marker {
            NeedsMarker::Uses => self.may_have(pid, fd, rights.without_full()),
            NeedsMarker::Refused => true,
        }
    }

    /// Whether nothing is found in a line. May miss some: where it answers `false`, `findings_by_rule` says what is
    /// found. Inlined into the loop over lines, as all that it calls for a read or a write, so that no line is put into
    /// memory for it.
    #[inline(always)]
    pub(crate) fn has_no_finding(&self, line: &LineRef<'_>) -> bool
        ensures { IsTrue result → findings_of (requirement line.now) line.now.pid (state_of self.now) ≡ [] }
    {
        match &line.item {
            Item::Call { call, answer } => self.has_no_finding_in_call(line.pid, call, answer),
            Item::Needs(marker, fd, rights) => {
                self.needs_have_no_finding(line.pid, *marker, *fd, *rights)
            }
            Item::Global => self.mode(line.pid) != Mode::Inside,
            Item::Start(_) | Item::Exit | Item::Foreign(_) => true,
        }
    }

    /// What is said of a line, by its rule. Not inlined: a `Requirement` would be cleared at each line.
    #[inline(never)]
    pub(crate) fn findings_by_rule(&self, line: &LineRef<'_>) -> Verdict
        ensures { result ≡ findings_of (requirement line.now) line.now.pid (state_of self.now) }
    {
        self.said(line.pid, &requirement_of_line(line))
    }

    /// What is known after a line, by its rule. Not inlined: an `Effect` would be cleared at each line.
    #[inline(never)]
    pub(crate) fn apply_by_rule(
        &mut self,
        profile: Profile,
        line: &LineRef<'_>,
    ) -> Result<(), NoMemory>
        ensures { OnOk result (Keeps self.new (step_after (step profile line.now) (state_of self.old))) }
    {
        let effect = effect_of_line(profile, line);
        self.apply(line.pid, &effect)
    }

    /// Writes one cell: in its leaf, where the process is known and the descriptor is one of the first, else by
    /// `write_slow`. Both write the same cell.
    #[inline(always)]
    fn write_one(&mut self, pid: Pid, fd: Fd, cell: Cell) -> Result<(), NoMemory>
        requires { IsFd fd }
        ensures { OnOk result (Keeps self.new (touched_by (on_fd fd (given cell) pid) (state_of self.old))) }
    {
        if fd < LOW_FDS {
            if let Some(place) = self.place_of(pid) {
                return self.write_at(place, pid, fd, cell);
            }
        }
        self.write_slow(pid, fd, cell)
    }

    /// Writes one cell on the slow path. Some of what is left of others is freed first. Not inlined, so that
    /// [`write_one`](Table::write_one) ends with a call, and saves no registers.
    #[inline(never)]
    fn write_slow(&mut self, pid: Pid, fd: Fd, cell: Cell) -> Result<(), NoMemory>
        requires { IsFd fd }
        ensures { OnOk result (Keeps self.new (touched_by (on_fd fd (given cell) pid) (state_of self.old))) }
    {
        self.deferred_free.free_some();
        self.write(pid, fd, cell)
    }

    /// close(2). Not inlined, as [`open`](Table::open): the loop over lines would save more registers.
    #[inline(never)]
    fn close(&mut self, pid: Pid, fd: Fd, answer: Answer) -> Result<(), NoMemory>
        requires { IsFd fd }
        ensures { OnOk result (Keeps self.new (touched_by (on_fd fd (closing answer) pid) (state_of self.old))) }
    {
        match answer {
            Answer::Fault(EBADF) => Ok(()),
            Answer::Fault(_) => self.write_one(pid, fd, Cell::Unknown),
            _ => self.write_one(pid, fd, Cell::Closed),
        }
    }

    /// open(2).
    #[inline(never)]
    fn open(&mut self, pid: Pid, flags: &[u8], answer: Answer) -> Result<(), NoMemory>
        requires { FitsMade answer }
        ensures { OnOk result (Keeps self.new (touched_by (on_made answer (whole (open_flag flags.now)) pid)
            (state_of self.old))) }
    {
        match answer {
            Answer::Made(fd) => {
                let flag = open_flag_of(flags);
                self.write_one(pid, fd as Fd, Cell::Held(RightSet::all(), flag))
            }
            _ => Ok(()),
        }
    }

    /// What is known after a line.
    ///
    /// A call that changes nothing, close(2) and open(2) are followed here, by what their rules come to; any other line
    /// by its rule. Inlined into the loop over lines, so that a read or a write ends here without a call.
    #[inline(always)]
    pub(crate) fn apply_line(
        &mut self,
        profile: Profile,
        line: &LineRef<'_>,
    ) -> Result<(), NoMemory>
        ensures { OnOk result (Keeps self.new (step_after (step profile line.now) (state_of self.old))) }
    {
        if let Item::Call { call, answer } = &line.item {
            match call {
                Call::OnFd(call, fd) => {
                    if keeps_cells(*call) {
                        return Ok(());
                    }
                    if let FdCall::Close = call {
                        return self.close(line.pid, *fd, *answer);
                    }
                }
                Call::Open(_, flags) => return self.open(line.pid, flags, *answer),
                Call::OnPath(PathCall::Execve, _) | Call::AtFlags(AtFlagsCall::Openat, _, _, _) =>
                    {}
                Call::OnPath(_, _)
                | Call::OnPaths(_, _, _)
                | Call::At(_, _, _)
                | Call::AtFlags(_, _, _, _)
                | Call::Mmap(_, _, _)
                | Call::Send(_, _)
                | Call::SendTo(_, _)
                | Call::Other(_, _) => return Ok(()),
                _ => {}
            }
        }
        if let Item::Needs(_, _, _) | Item::Global = &line.item {
            return Ok(());
        }
        self.apply_by_rule(profile, &line.copied())
    }
}
