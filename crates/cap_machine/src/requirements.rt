//! What each form of call is judged by: the descriptors to check with the rights that each needs, whether capability
//! mode allows or forbids the call, and how it ended (rights(4), capsicum(4)).

ghost use Rattle.std.specs.Prelude.{◌≡◌, [], ◌∷◌, true};
ghost use Rattle.cap_trace.specs.Views.{call_view};
ghost use Rattle.cap_machine.specs.Flags.{all_known};
ghost use Rattle.cap_machine.specs.Needs.{at_flags_needs, plain_flags, plain_at_flags, rename_from_needs};
ghost use Rattle.cap_machine.specs.Needs.{rename_to_needs, link_from_needs, link_to_needs};
ghost use Rattle.cap_machine.specs.Places.{place};
ghost use Rattle.cap_machine.specs.Code.PlaceView.{place_view};
ghost use Rattle.cap_machine.specs.Rule.{check_of, on_one, on_none, fd_class, fd_requirement, fcntl_requirement};
ghost use Rattle.cap_machine.specs.Rule.{limit_requirement};
ghost use Rattle.cap_machine.specs.Rule.{bare_class, at_requirement, call_requirement, requirement, unjudged};
ghost use Rattle.cap_machine.specs.Rule.{needs_requirement, global_requirement};

use crate::needs;
use crate::places::{Place, at_one, at_two};
use crate::rule::{Check, Checks, Class, LimitWord, Reply, Requirement, reply_of};
use cap_rights::RightSet;
use cap_trace::{Answer, AtFlagsCall, BareCall, Call, Dir, Fd, FdCall, Item, LineRef, NeedsMarker};

/// Whether capability mode allows a call on one descriptor.
fn fd_class_of(call: FdCall) -> Class
    ensures { result ≡ fd_class call }
{
    match call {
        // tools/calls.py: fd_class
        FdCall::Read
        | FdCall::Readv
        | FdCall::Pread
        | FdCall::Preadv
        | FdCall::Write
        | FdCall::Writev
        | FdCall::Pwrite
        | FdCall::Pwritev
        | FdCall::Lseek
        | FdCall::Fstat
        | FdCall::Fsync
        | FdCall::Ftruncate
        | FdCall::Close
        | FdCall::Dup => Class::Allowed,
        // end
        _ => Class::Either,
    }
}

/// A call with one check.
fn one(
    class: Class,
    fd: Fd,
    needs: RightSet,
    excuse: Option<RightSet>,
    answer: &Answer,
) -> Requirement
    ensures { result ≡ on_one class (check_of fd needs excuse) answer.now }
{
    Requirement {
        class,
        checks: Checks::One(Check { fd, needs, excuse }),
        reply: reply_of(answer),
        at: false,
        word: LimitWord::Missing,
    }
}

/// A call with nothing to check.
fn unchecked(class: Class, answer: &Answer) -> Requirement
    ensures { result ≡ on_none class answer.now }
{
    Requirement {
        class,
        checks: Checks::Nothing,
        reply: reply_of(answer),
        at: false,
        word: LimitWord::Missing,
    }
}

/// What a call is judged by whose one argument is a descriptor, and that answered this.
// Inlined: a large value that is returned is copied by each function that it goes through.
#[inline(always)]
pub fn requirement_of_fd_call(call: FdCall, fd: Fd, answer: &Answer) -> Requirement
    ensures { result ≡ fd_requirement call fd answer.now }
{
    match call {
        FdCall::Closefrom => unchecked(Class::Either, answer),
        _ => {
            let needs = needs::fd_needs_of(call);
            one(
                fd_class_of(call),
                fd,
                needs,
                needs::fd_excuse_of(call),
                answer,
            )
        }
    }
}

/// What a command of fcntl(2) is judged by. Its errno 93 is never judged.
fn fcntl(needs: Option<RightSet>, fd: Fd, answer: &Answer) -> Requirement
    ensures { result ≡ fcntl_requirement needs fd answer.now }
{
    match needs {
        None => unchecked(Class::Either, answer),
        Some(needs) => one(Class::Either, fd, needs, None, answer),
    }
}

/// cap_rights_limit(2).
fn limit(fd: Fd, asked: &RightSet, answer: &Answer) -> Requirement
    ensures { result ≡ limit_requirement fd asked.now answer.now }
{
    Requirement {
        class: Class::Allowed,
        checks: Checks::One(Check {
            fd,
            needs: asked.without_full(),
            excuse: Some(*asked),
        }),
        reply: reply_of(answer),
        at: false,
        word: LimitWord::Expanded,
    }
}

fn bare_class_of(call: BareCall) -> Class
    ensures { result ≡ bare_class call }
{
    match call {
        // tools/calls.py: bare_class
        BareCall::Fork | BareCall::CapEnter => Class::Allowed,
        // end
        _ => Class::Either,
    }
}

/// What a call is judged by.
fn requirement_of(call: &Call<'_>, answer: &Answer) -> Requirement
    ensures { result ≡ call_requirement (call_view call.now) answer.now }
{
    match call {
        Call::OnFd(call, fd) => requirement_of_fd_call(*call, *fd, answer),
        Call::Send(_, fd) => {
            let send = needs::send_needs_of();
            one(Class::Either, *fd, send, Some(send), answer)
        }
        Call::SendTo(_, fd) => {
            let send = needs::send_to_needs_of();
            one(Class::Either, *fd, send, Some(send), answer)
        }
        Call::Accept4(fd, _) => {
            let accept = needs::accept_needs_of();
            one(Class::Either, *fd, accept, Some(accept), answer)
        }
        Call::Dup2(fd, _) => {
            let none = RightSet::none();
            one(Class::Allowed, *fd, none, Some(none), answer)
        }
        Call::Fcntl(fd, command) => fcntl(needs::fcntl_needs_of(command), *fd, answer),
        Call::FcntlDup(_, fd, _) => fcntl(Some(RightSet::none()), *fd, answer),
        Call::FcntlSetFd(fd, _) => fcntl(Some(RightSet::none()), *fd, answer),
        Call::Mmap(fd, protection, kind) => {
            let needs = needs::mmap_needs_of(protection, kind);
            let excuse = needs::mmap_excuse_of();
            one(Class::Either, *fd, needs, Some(excuse), answer)
        }
        Call::RightsLimit(fd, asked) => limit(*fd, asked, answer),
        Call::Open(_, _) | Call::OnPath(_, _) | Call::OnPaths(_, _, _) => {
            unchecked(Class::Forbidden, answer)
        }
        Call::Bare(call) => unchecked(bare_class_of(*call), answer),
        Call::OnFlags(_, _) | Call::Other(_, _) => unchecked(Class::Either, answer),
        Call::At(call, dir, path) => {
            at_one(true, &place(*dir, path, needs::at_needs_of(*call)), answer)
        }
        Call::AtFlags(call, dir, path, flags) => { at_flags(*call, *dir, path, flags, answer) }
        Call::SymlinkAt(_, dir, path) => {
            at_one(true, &place(*dir, path, needs::symlink_needs_of()), answer)
        }
        Call::RenameAt(dir, path, to, to_path) => rename_at(*dir, path, *to, to_path, answer),
        Call::LinkAt(dir, path, to, to_path, flags) => {
            link_at(*dir, path, *to, to_path, flags, answer)
        }
    }
}

/// A directory, a path there, and what its lookup needs.
fn place<'a>(dir: Dir, path: &'a [u8], needs: RightSet) -> Place<'a>
    ensures { place_view result ≡ place dir path.now needs }
{
    Place { dir, path, needs }
}

/// A call at a directory, with flags.
fn at_flags(call: AtFlagsCall, dir: Dir, path: &[u8], flags: &[u8], answer: &Answer) -> Requirement
    ensures { result ≡ at_requirement (all_known (plain_flags call) flags.now)
        (place dir path.now (at_flags_needs call flags.now) ∷ []) answer.now }
{
    let place = place(dir, path, needs::at_flags_needs_of(call, flags));
    at_one(needs::has_plain_flags(call, flags), &place, answer)
}

/// renameat(2).
fn rename_at(dir: Dir, path: &[u8], to: Dir, to_path: &[u8], answer: &Answer) -> Requirement
    ensures { result
        ≡ at_requirement true (place dir path.now rename_from_needs ∷ place to to_path.now rename_to_needs ∷ [])
        answer.now }
{
    let from = place(dir, path, needs::rename_from_needs_of());
    let to = place(to, to_path, needs::rename_to_needs_of());
    at_two(true, &from, &to, answer)
}

/// linkat(2).
fn link_at(
    dir: Dir,
    path: &[u8],
    to: Dir,
    to_path: &[u8],
    flags: &[u8],
    answer: &Answer,
) -> Requirement
    ensures { result ≡ at_requirement (all_known plain_at_flags flags.now)
        (place dir path.now link_from_needs ∷ place to to_path.now link_to_needs ∷ []) answer.now }
{
    let from = place(dir, path, needs::link_from_needs_of());
    let to = place(to, to_path, needs::link_to_needs_of());
    at_two(needs::has_plain_link_flags(flags), &from, &to, answer)
}

/// `@uses`, `@refused`: like a call on one descriptor, one that succeeded or one that errno 93 refused. That refusal is
/// never judged.
fn needs_requirement_of(marker: NeedsMarker, fd: Fd, rights: &RightSet) -> Requirement
    ensures { result ≡ needs_requirement marker fd rights.now }
{
    Requirement {
        class: Class::Either,
        checks: Checks::One(Check {
            fd,
            needs: rights.without_full(),
            excuse: None,
        }),
        reply: match marker {
            NeedsMarker::Uses => Reply::Success,
            NeedsMarker::Refused => Reply::NotCapable,
        },
        at: false,
        word: LimitWord::Missing,
    }
}

/// `@global`: like a call that capability mode forbids, and that succeeded.
fn global_requirement_of() -> Requirement
    ensures { result ≡ global_requirement }
{
    Requirement {
        class: Class::Forbidden,
        checks: Checks::Nothing,
        reply: Reply::Success,
        at: false,
        word: LimitWord::Missing,
    }
}

/// What a line is judged by, in either profile.
pub fn requirement_of_line(line: &LineRef<'_>) -> Requirement
    ensures { result ≡ requirement line.now }
{
    match &line.item {
        Item::Call { call, answer } => requirement_of(call, answer),
        Item::Needs(marker, fd, rights) => needs_requirement_of(*marker, *fd, rights),
        Item::Global => global_requirement_of(),
        Item::Start(_) | Item::Exit | Item::Foreign(_) => unjudged_requirement(),
    }
}

/// Nothing is said of any other marker.
fn unjudged_requirement() -> Requirement
    ensures { result ≡ unjudged }
{
    Requirement {
        class: Class::Either,
        checks: Checks::Nothing,
        reply: Reply::Other,
        at: false,
        word: LimitWord::Missing,
    }
}
