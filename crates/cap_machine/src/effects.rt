//! What each form of call does to the cells and the mode of its process and of a child, by what the line records. The
//! tables are in `docs/RULES.md`.

ghost use Rattle.std.specs.Prelude.{true, false, ◌≡◌, ℕ, ◌<◌, codes, IsTrue, if◌then◌else◌};
ghost use Rattle.cap_trace.specs.Entry.{IsAnswer, IsFd, args_of_call, kind_of, fcntl_kind};
ghost use Rattle.cap_trace.specs.Views.{call_view};
ghost use Rattle.cap_trace.specs.Call as calls;
ghost use Rattle.cap_machine.specs.Flags.{has_flag};
ghost use Rattle.cap_machine.specs.Places.{below};
ghost use Rattle.cap_machine.specs.Touch.{kept, given, taken, on_fd, on_made, on_both, on_success, closing, copied};
ghost use Rattle.cap_machine.specs.Touch.{copied_to, whole, exec_touch, closefrom_touch, open_flag};
ghost use Rattle.cap_machine.specs.Touch.{socket_flag, fd_flag, fd_touch, fcntl_touch, fcntl_copied_to, set_fd_op};
ghost use Rattle.cap_machine.specs.Touch.{at_touch, opened_below, flags_touch, fork_touch};
ghost use Rattle.cap_machine.specs.Touch.{pdfork_touch, bare_touch, call_touch, call_turn, enter_turn};
ghost use Rattle.cap_machine.specs.Touch.{stays, fork_turn, pdfork_turn, touch, turn};
ghost use Rattle.cap_machine.specs.Steps.{step};
ghost use Rattle.cap_machine.specs.Effect.{effect_touch, effect_turn, OnlyCells, IsWithin, FdsWithin, FitsMade, FitsPair};
ghost use Rattle.cap_machine.specs.Effect.{is_on_table};
ghost use Rattle.cap_machine.specs.Named.{is_table_step, is_whole_call};

use crate::cell::{Cell, OnExec, Op, Profile};
use crate::errno::EBADF;
use crate::flags::{all_known_of, has_flag_of};
use crate::places::below_of;
use crate::rule::Effect;
use cap_rights::RightSet;
use cap_trace::{
    Answer, AtFlagsCall, BareCall, Call, Dir, DupCommand, Fd, FdCall, FlagsCall, Item, LineRef,
    PathCall, Pid,
};

/// The flag of a descriptor, by whether it was asked to be closed on exec.
fn flag_where(is_asked: bool) -> OnExec
    ensures { result ≡ (if is_asked then OnExec.Set else OnExec.Clear) }
{
    if is_asked { OnExec::Set } else { OnExec::Clear }
}

/// Whether flags of open(2) ask for the descriptor to be closed on exec. That flag is mostly the last.
fn closes_on_exec(flags: &[u8]) -> bool
    ensures { result ≡ has_flag flags.now (codes "O_CLOEXEC") }
{
    flags.ends_with(b"|O_CLOEXEC") || has_flag_of(flags, b"O_CLOEXEC")
}

/// open(2), openat(2), pipe2(2).
pub(crate) fn open_flag_of(flags: &[u8]) -> OnExec
    ensures { result ≡ open_flag flags.now }
{
    flag_where(closes_on_exec(flags))
}

/// socket(2), socketpair(2).
fn socket_flag_of(flags: &[u8]) -> OnExec
    ensures { result ≡ socket_flag flags.now }
{
    flag_where(has_flag_of(flags, b"SOCK_CLOEXEC"))
}

/// fcntl(2), `F_SETFD`.
fn fd_flag_of(flags: &[u8]) -> OnExec
    ensures { result ≡ fd_flag flags.now }
{
    flag_where(has_flag_of(flags, b"FD_CLOEXEC"))
}

/// The descriptor that a call made gets this cell.
fn made(answer: &Answer, cell: Cell) -> Effect<'static>
    requires { FitsMade answer.now }
    ensures cells { (me p f : ℕ) → effect_touch result me p f ≡ on_made answer.now (given cell) me p f }
    ensures single { OnlyCells result }
{
    match answer {
        Answer::Made(fd) => Effect::Give(*fd as Fd, cell),
        _ => Effect::Keep,
    }
}

/// The descriptor that a call made holds all rights.
fn made_whole(flag: OnExec, answer: &Answer) -> Effect<'static>
    requires { FitsMade answer.now }
    ensures cells { (me p f : ℕ) → effect_touch result me p f ≡ on_made answer.now (whole flag) me p f }
    ensures single { OnlyCells result }
{
    made(answer, Cell::Held(RightSet::all(), flag))
}

/// The two descriptors that a call made hold all rights.
fn made_both(flag: OnExec, answer: &Answer) -> Effect<'static>
    requires { FitsPair answer.now }
    ensures cells { (me p f : ℕ) → effect_touch result me p f ≡ on_both answer.now (whole flag) me p f }
    ensures single { OnlyCells result }
{
    match answer {
        Answer::Pair(first, second) => {
            let cell = Cell::Held(RightSet::all(), flag);
            Effect::GiveTwo(*first as Fd, *second as Fd, cell)
        }
        _ => Effect::Keep,
    }
}

/// The descriptor that a call made is what an op makes of this one.
fn made_from(fd: Fd, op: Op, answer: &Answer) -> Effect<'static>
    requires { FitsMade answer.now }
    ensures cells { (me p f : ℕ) → effect_touch result me p f ≡ on_made answer.now (taken op me fd) me p f }
    ensures single { OnlyCells result }
{
    match answer {
        Answer::Made(new) => Effect::Change(*new as Fd, op, fd),
        _ => Effect::Keep,
    }
}

/// The descriptor that a call made has the rights of this one, and this flag.
fn copied_from(fd: Fd, flag: OnExec, answer: &Answer) -> Effect<'static>
    requires { FitsMade answer.now }
    ensures cells { (me p f : ℕ) → effect_touch result me p f ≡ on_made answer.now (copied flag fd me) me p f }
    ensures single { OnlyCells result }
{
    made_from(fd, Op::derive(flag), answer)
}

/// A copy to a number that was asked for (dup2(2)): to the same number it is the first op.
fn copied_to_number(itself: Op, flag: OnExec, fd: Fd, to: Fd, answer: &Answer) -> Effect<'static>
    requires { FitsMade answer.now }
    ensures cells { (me p f : ℕ)
        → effect_touch result me p f ≡ on_made answer.now (copied_to itself flag fd to me) me p f }
    ensures single { OnlyCells result }
{
    let op = if fd == to { itself } else { Op::derive(flag) };
    made_from(fd, op, answer)
}

/// The two commands of fcntl(2) that copy to a number that was asked for.
fn fcntl_copied(command: DupCommand, fd: Fd, to: Fd, answer: &Answer) -> Effect<'static>
    requires { FitsMade answer.now }
    ensures cells { (me p f : ℕ)
        → effect_touch result me p f ≡ on_made answer.now (fcntl_copied_to command fd to me) me p f }
    ensures single { OnlyCells result }
{
    match command {
        DupCommand::FDup2fd => {
            copied_to_number(Op::copy_to_itself(), OnExec::Clear, fd, to, answer)
        }
        DupCommand::FDup2fdCloexec => {
            copied_to_number(Op::derive(OnExec::Unsure), OnExec::Set, fd, to, answer)
        }
    }
}

/// A descriptor is changed where the call succeeded.
fn changed(fd: Fd, op: Op, answer: &Answer) -> Effect<'static>
    requires { IsFd fd }
    ensures cells { (me p f : ℕ) → effect_touch result me p f ≡ on_success fd answer.now (taken op me fd) me p f }
    ensures single { OnlyCells result }
{
    match answer {
        Answer::Fault(_) => Effect::Keep,
        _ => Effect::Change(fd, op, fd),
    }
}

/// What close(2) of a descriptor does that answered this.
pub fn effect_of_close(fd: Fd, answer: &Answer) -> Effect<'static>
    ensures cells { (me p f : ℕ) → effect_touch result me p f ≡ on_fd fd (closing answer.now) me p f }
    ensures modes { (me p : ℕ) → effect_turn result me p ≡ stays }
    ensures single { IsFd fd → OnlyCells result }
{
    match answer {
        Answer::Fault(EBADF) => Effect::Keep,
        Answer::Fault(_) => Effect::Give(fd, Cell::Unknown),
        _ => Effect::Give(fd, Cell::Closed),
    }
}

/// execve(2), fexecve(2).
fn executed(profile: Profile, answer: &Answer) -> Effect<'static>
    ensures cells { (me p f : ℕ) → effect_touch result me p f ≡ exec_touch profile answer.now me p f }
    ensures modes { (me p : ℕ) → effect_turn result me p ≡ stays }
    ensures within { IsWithin result }
{
    match (answer, profile) {
        (Answer::Fault(_), _) => Effect::Keep,
        (_, Profile::One) => Effect::Forget,
        (_, Profile::Two) => Effect::Exec,
    }
}

/// closefrom(2).
fn closed_from(profile: Profile, fd: Fd, answer: &Answer) -> Effect<'static>
    requires { IsFd fd }
    ensures cells { (me p f : ℕ) → effect_touch result me p f ≡ closefrom_touch profile fd answer.now me p f }
    ensures modes { (me p : ℕ) → effect_turn result me p ≡ stays }
    ensures within { IsWithin result }
{
    match (answer, profile) {
        (Answer::Fault(_), _) | (_, Profile::One) => Effect::Keep,
        (_, Profile::Two) => Effect::CloseFrom(fd),
    }
}

/// Whether a call on one descriptor changes no cell, whatever it answers. Conservative: `false` may be wrong.
#[inline(always)]
pub fn keeps_cells(call: FdCall) -> bool
    ensures { IsTrue result → (profile : Profile) (fd : ℕ) (answer : Answer) (me p f : ℕ)
        → fd_touch profile call fd answer me p f ≡ kept }
{
    match call {
        FdCall::Close
        | FdCall::Closefrom
        | FdCall::Dup
        | FdCall::Accept
        | FdCall::Fexecve
        | FdCall::CapIoctlsLimit
        | FdCall::CapFcntlsLimit => false,
        _ => true,
    }
}

/// A call whose one argument is a descriptor.
#[tactic(auto, using(crate::proofs::SingleCells::turns, crate::proofs::SingleCells::within, crate::proofs::SingleCells::tables))]
fn fd_effect(profile: Profile, call: FdCall, fd: Fd, answer: &Answer) -> Effect<'static>
    requires answer { IsAnswer (kind_of (calls.OnFd call fd)) answer.now }
    requires within { IsFd fd }
    ensures cells { (me p f : ℕ) → effect_touch result me p f ≡ fd_touch profile call fd answer.now me p f }
    ensures modes { (me p : ℕ) → effect_turn result me p ≡ stays }
    ensures within { IsWithin result }
    ensures tables { is_on_table result ≡ true → is_whole_call (calls.OnFd call fd) ≡ true }
{
    match call {
        FdCall::Close => effect_of_close(fd, answer),
        FdCall::Closefrom => closed_from(profile, fd, answer),
        FdCall::Dup => copied_from(fd, OnExec::Clear, answer),
        FdCall::Accept => made(answer, Cell::Unknown),
        FdCall::Fexecve => executed(profile, answer),
        FdCall::CapIoctlsLimit | FdCall::CapFcntlsLimit => changed(fd, Op::narrow(), answer),
        _ => Effect::Keep,
    }
}

/// A command of fcntl(2) that names no descriptor.
fn fcntl_effect(fd: Fd, command: &[u8], answer: &Answer) -> Effect<'static>
    requires { IsAnswer (fcntl_kind command.now) answer.now }
    ensures cells { (me p f : ℕ) → effect_touch result me p f ≡ fcntl_touch command.now fd answer.now me p f }
    ensures single { OnlyCells result }
{
    if command == b"F_DUPFD".as_slice() {
        copied_from(fd, OnExec::Clear, answer)
    } else if command == b"F_DUPFD_CLOEXEC".as_slice() {
        copied_from(fd, OnExec::Set, answer)
    } else {
        Effect::Keep
    }
}

/// Flags of `F_SETFD` that limit nothing.
static PLAIN_FD_FLAGS: [&[u8]; 2] = [b"0", b"FD_CLOEXEC"];

/// What `F_SETFD` makes of a descriptor (fcntl(2)).
fn set_fd_op_of(flags: &[u8]) -> Op
    ensures { result ≡ set_fd_op flags.now }
{
    let flag = fd_flag_of(flags);
    if all_known_of(&PLAIN_FD_FLAGS, flags) {
        Op::set_flag(flag)
    } else {
        Op::narrow_and_set_flag(flag)
    }
}

/// openat(2).
fn openat_effect(dir: Dir, path: &[u8], flags: &[u8], answer: &Answer) -> Effect<'static>
    requires { FitsMade answer.now }
    ensures cells { (me p f : ℕ) → effect_touch result me p f
        ≡ on_made answer.now (opened_below (below dir path.now) dir path.now (open_flag flags.now) me) me p f }
    ensures single { OnlyCells result }
{
    let flag = open_flag_of(flags);
    match below_of(dir, path) {
        Some(fd) => copied_from(fd, flag, answer),
        None => {
            if dir == Dir::Cwd && !path.is_empty() {
                made_whole(flag, answer)
            } else {
                made(answer, Cell::Unknown)
            }
        }
    }
}

/// A call at a directory, with flags.
fn at_flags_effect(
    call: AtFlagsCall,
    dir: Dir,
    path: &[u8],
    flags: &[u8],
    answer: &Answer,
) -> Effect<'static>
    requires { IsAnswer (kind_of (calls.AtFlags call dir path.now flags.now)) answer.now }
    ensures cells { (me p f : ℕ) → effect_touch result me p f ≡ at_touch call dir path.now flags.now answer.now me p f }
    ensures single { OnlyCells result }
{
    match call {
        AtFlagsCall::Openat => openat_effect(dir, path, flags, answer),
        _ => Effect::Keep,
    }
}

/// fork(2), vfork(2).
fn forked(answer: &Answer) -> Effect<'static>
    requires { FitsMade answer.now }
    ensures cells { (me p f : ℕ) → effect_touch result me p f ≡ fork_touch answer.now me p f }
    ensures modes { (me p : ℕ) → effect_turn result me p ≡ fork_turn answer.now me p }
    ensures within { IsWithin result }
{
    match answer {
        Answer::Made(0) => Effect::Keep,
        Answer::Made(child) => Effect::Fork(*child as Pid),
        _ => Effect::Keep,
    }
}

/// pdfork(2).
fn forked_with_fd(answer: &Answer) -> Effect<'static>
    requires { FitsPair answer.now }
    ensures cells { (me p f : ℕ) → effect_touch result me p f ≡ pdfork_touch answer.now me p f }
    ensures modes { (me p : ℕ) → effect_turn result me p ≡ pdfork_turn answer.now me p }
    ensures within { IsWithin result }
{
    match answer {
        Answer::Pair(0, _) => Effect::Keep,
        Answer::Pair(child, fd) => Effect::ForkAs(*child as Pid, *fd as Fd),
        _ => Effect::Keep,
    }
}

/// cap_enter(2).
fn entered(answer: &Answer) -> Effect<'static>
    ensures cells { (me p f : ℕ) → effect_touch result me p f ≡ kept }
    ensures modes { (me p : ℕ) → effect_turn result me p ≡ enter_turn answer.now me p }
    ensures within { IsWithin result }
    ensures tables { is_on_table result ≡ false }
{
    match answer {
        Answer::Fault(_) => Effect::Keep,
        _ => Effect::Enter,
    }
}

/// A call without arguments.
#[tactic(auto, using(crate::proofs::SingleCells::turns, crate::proofs::SingleCells::within, crate::proofs::SingleCells::tables))]
fn bare_effect(call: BareCall, answer: &Answer) -> Effect<'static>
    requires { IsAnswer (kind_of (calls.Bare call)) answer.now }
    ensures cells { (me p f : ℕ) → effect_touch result me p f ≡ bare_touch call answer.now me p f }
    ensures modes { (me p : ℕ) → effect_turn result me p ≡ call_turn (calls.Bare call) answer.now me p }
    ensures within { IsWithin result }
    ensures tables { is_on_table result ≡ true → is_whole_call (calls.Bare call) ≡ true }
{
    match call {
        BareCall::Pipe => made_both(OnExec::Clear, answer),
        BareCall::Kqueue | BareCall::ShmOpen | BareCall::MqOpen | BareCall::Fhopen => {
            made(answer, Cell::Unknown)
        }
        BareCall::Fork | BareCall::Vfork => forked(answer),
        BareCall::Pdfork => forked_with_fd(answer),
        BareCall::CapEnter => entered(answer),
    }
}

/// A call whose one argument is flags.
fn flags_effect(call: FlagsCall, flags: &[u8], answer: &Answer) -> Effect<'static>
    requires { IsAnswer (kind_of (calls.OnFlags call flags.now)) answer.now }
    ensures cells { (me p f : ℕ) → effect_touch result me p f ≡ flags_touch call flags.now answer.now me p f }
    ensures single { OnlyCells result }
{
    match call {
        FlagsCall::Socket => made_whole(socket_flag_of(flags), answer),
        FlagsCall::Socketpair => made_both(socket_flag_of(flags), answer),
        FlagsCall::Pipe2 => made_both(open_flag_of(flags), answer),
    }
}

/// What a call does.
// Inlined, as the next: a large value that is returned is copied by each function that it goes through.
#[tactic(auto, using(crate::proofs::SingleCells::turns, crate::proofs::SingleCells::within, crate::proofs::SingleCells::tables))]
#[inline(always)]
fn effect_of(profile: Profile, call: &Call<'_>, answer: &Answer) -> Effect<'static>
    requires answer { IsAnswer (kind_of (call_view call.now)) answer.now }
    requires within { FdsWithin (args_of_call (call_view call.now)) }
    ensures cells { (me p f : ℕ)
        → effect_touch result me p f ≡ call_touch profile (call_view call.now) answer.now me p f }
    ensures modes { (me p : ℕ) → effect_turn result me p ≡ call_turn (call_view call.now) answer.now me p }
    ensures within { IsWithin result }
    ensures tables { is_on_table result ≡ true → is_whole_call (call_view call.now) ≡ true }
{
    match call {
        Call::OnFd(call, fd) => fd_effect(profile, *call, *fd, answer),
        Call::Accept4(_, _) => made(answer, Cell::Unknown),
        Call::Dup2(fd, to) => {
            copied_to_number(Op::copy_to_itself(), OnExec::Clear, *fd, *to, answer)
        }
        Call::FcntlDup(command, fd, to) => fcntl_copied(*command, *fd, *to, answer),
        Call::Fcntl(fd, command) => fcntl_effect(*fd, command, answer),
        Call::FcntlSetFd(fd, flags) => changed(*fd, set_fd_op_of(flags), answer),
        Call::RightsLimit(fd, asked) => changed(*fd, Op::limit(asked), answer),
        Call::Open(_, flags) => made_whole(open_flag_of(flags), answer),
        Call::OnPath(PathCall::Execve, _) => executed(profile, answer),
        Call::AtFlags(call, dir, path, flags) => {
            at_flags_effect(*call, *dir, path, flags, answer)
        }
        Call::OnFlags(call, flags) => flags_effect(*call, flags, answer),
        Call::Bare(call) => bare_effect(*call, answer),
        _ => Effect::Keep,
    }
}

/// What a line does in a profile, by what it records, whatever is said of it.
#[inline(always)]
pub fn effect_of_line<'a>(profile: Profile, line: &LineRef<'a>) -> Effect<'a>
    // It does to each cell and to each mode what the line does.
    ensures cells { (p f : ℕ) → effect_touch result line.now.pid p f ≡ touch (step profile line.now) p f }
    ensures modes { (p : ℕ) → effect_turn result line.now.pid p ≡ turn (step profile line.now) p }
    // No descriptor that it writes, or closes from, is above the largest.
    ensures within { IsWithin result }
    // It hands a table of cells on, or closes all from a descriptor on, only for a call that may do that.
    ensures tables { is_on_table result ≡ true → is_table_step (step profile line.now) ≡ true }
{
    match &line.item {
        Item::Call { call, answer } => effect_of(profile, call, answer),
        Item::Start(fds) => Effect::Start(fds),
        Item::Exit => Effect::Exit,
        Item::Foreign(fd) => Effect::Give(*fd, Cell::Unknown),
        Item::Needs(_, _, _) => Effect::Keep,
        Item::Global => Effect::Keep,
    }
}
