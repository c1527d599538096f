//! What a rule says of a line: what it is judged by, and what it does.

ghost use Rattle.std.specs.Prelude.{◌≡◌};
ghost use Rattle.cap_machine.specs.Rule.{reply};

use crate::cell::{Cell, Op};
use crate::errno::{ECAPMODE, ENOTCAPABLE};
use cap_rights::RightSet;
use cap_trace::{Answer, Fd, Pid};

/// Whether a call is allowed in capability mode (cap_enter(2)).
#[derive(Clone, Copy, Debug, PartialEq, Eq)]
pub enum Class {
    /// It never succeeds in capability mode.
    Forbidden,
    /// Capability mode never refuses it.
    Allowed,
    /// It may be refused in capability mode, and may succeed.
    Either,
}

/// The kind of answer that a call had.
#[derive(Clone, Copy, Debug, PartialEq, Eq)]
pub enum Reply {
    /// It was no errno.
    Success,
    /// Errno 93, ENOTCAPABLE: the descriptor lacks rights.
    NotCapable,
    /// Errno 94, ECAPMODE: not permitted in capability mode.
    NotPermitted,
    /// Another errno, or the line is a marker that isn't judged.
    Other,
}

/// By which word lacking rights are reported.
#[derive(Clone, Copy, Debug, PartialEq, Eq)]
pub enum LimitWord {
    /// The call lacked rights.
    Missing,
    /// cap_rights_limit(2) gave rights that weren't held.
    Expanded,
}

/// What a call needs of one descriptor.
#[derive(Clone, Copy, Debug, PartialEq, Eq)]
pub struct Check {
    /// The descriptor.
    pub fd: Fd,
    /// The rights that the call needs.
    pub needs: RightSet,
    /// The rights with which errno 93 is wrongful; without any, errno 93 is never judged.
    pub excuse: Option<RightSet>,
}

/// At most two checks, in order.
#[derive(Clone, Copy, Debug, PartialEq, Eq)]
pub enum Checks {
    Nothing,
    One(Check),
    Two(Check, Check),
}

/// What a line is judged by.
#[derive(Clone, Copy, Debug, PartialEq, Eq)]
pub struct Requirement {
    /// Whether the call is allowed in capability mode.
    pub class: Class,
    /// What it needs of its descriptors.
    pub checks: Checks,
    /// What it answered.
    pub reply: Reply,
    /// Whether it is a call at a directory, whose errno 93 may come from a path that leaves the directory.
    pub at: bool,
    /// By which word lacking rights are reported.
    pub word: LimitWord,
}

/// What a line does to the cells and the mode of its process, and to those of a child.
#[derive(Clone, Copy, Debug)]
pub enum Effect<'a> {
    /// Nothing.
    Keep,
    /// These descriptors are held and were never limited, all others are closed, and the mode is outside. This is their
    /// text ([`cap_trace::fds_of`]).
    Start(&'a [u8]),
    /// Nothing more is known of the process.
    Exit,
    /// Nothing more is known of its cells.
    Forget,
    /// Each of its cells is what an exec makes of it in profile 2.
    Exec,
    /// Each of its cells from this descriptor up is closed.
    CloseFrom(Fd),
    /// The process is in capability mode.
    Enter,
    /// The descriptor's cell.
    Give(Fd, Cell),
    /// The cell of two descriptors.
    GiveTwo(Fd, Fd, Cell),
    /// The first descriptor's cell is what the op makes of the second's.
    Change(Fd, Op, Fd),
    /// The child has what the process has.
    Fork(Pid),
    /// The child has what the process has, but nothing is known of this descriptor of either.
    ForkAs(Pid, Fd),
}

/// What a line is judged by, and what it does.
#[derive(Clone, Copy, Debug)]
pub struct Rule<'a> {
    /// What the line is judged by.
    pub requirement: Requirement,
    /// What the line does, with the list of `@start` lent from the line.
    pub effect: Effect<'a>,
}

/// The kind of an answer (errno(2)).
pub(crate) fn reply_of(answer: &Answer) -> Reply
    ensures { result ≡ reply answer.now }
{
    match answer {
        Answer::Fault(ENOTCAPABLE) => Reply::NotCapable,
        Answer::Fault(ECAPMODE) => Reply::NotPermitted,
        Answer::Fault(_) => Reply::Other,
        _ => Reply::Success,
    }
}
