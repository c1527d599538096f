//! What a line says: its process, and a call with its answer, or a marker. A [`Line`] keeps the text that spells it, and
//! shows what it says as a [`LineRef`], whose texts still lie in that text.

ghost use Rattle.std.specs.Prelude.{◌≡◌};
ghost use Rattle.cap_trace.specs.Entry.{fcntl_kind as kind_of_command};

use crate::calls::{
    AtCall, AtFlagsCall, BareCall, DupCommand, FdCall, FlagsCall, Form, NeedsMarker, PathCall,
    PathsCall, ResultKind, SendCall,
};
use crate::limits::{Fd, Pid};
use crate::names::Head;
use cap_rights::RightSet;
use std::marker::Model;

/// Where a path begins: at a directory's descriptor, or (`AT_FDCWD`) where the process is.
#[derive(Clone, Copy, Debug, PartialEq, Eq)]
pub enum Dir {
    Fd(Fd),
    Cwd,
}

/// A call with its arguments, from the left. One variant for each form. Its texts lie elsewhere: paths between their quotes,
/// flags, and others, as they are spelled.
#[derive(Clone, Copy, Debug)]
pub enum Call<'a> {
    /// `name(fd)`.
    OnFd(FdCall, Fd),
    /// `sendto(fd)`, `sendmsg(fd)`.
    Send(SendCall, Fd),
    /// `sendto(fd,DEST)`, `sendmsg(fd,DEST)`: a destination was given.
    SendTo(SendCall, Fd),
    /// `accept4(fd,flags)`.
    Accept4(Fd, &'a [u8]),
    /// `dup2(fd,fd)`.
    Dup2(Fd, Fd),
    /// `fcntl(fd,command)`, with a command that asks for no third argument.
    Fcntl(Fd, &'a [u8]),
    /// `fcntl(fd,F_DUP2FD,fd)`, `fcntl(fd,F_DUP2FD_CLOEXEC,fd)`.
    FcntlDup(DupCommand, Fd, Fd),
    /// `fcntl(fd,F_SETFD,flags)`.
    FcntlSetFd(Fd, &'a [u8]),
    /// `mmap(fd,flags,flags)`: the protection, and the kind of mapping.
    Mmap(Fd, &'a [u8], &'a [u8]),
    /// `cap_rights_limit(fd,rights)`.
    RightsLimit(Fd, RightSet),
    /// `open(path,flags)`.
    Open(&'a [u8], &'a [u8]),
    /// `name(path)`.
    OnPath(PathCall, &'a [u8]),
    /// `name(path,path)`.
    OnPaths(PathsCall, &'a [u8], &'a [u8]),
    /// `name(dir,path)`.
    At(AtCall, Dir, &'a [u8]),
    /// `name(dir,path,flags)`.
    AtFlags(AtFlagsCall, Dir, &'a [u8], &'a [u8]),
    /// `symlinkat(path,dir,path)`.
    SymlinkAt(&'a [u8], Dir, &'a [u8]),
    /// `renameat(dir,path,dir,path)`.
    RenameAt(Dir, &'a [u8], Dir, &'a [u8]),
    /// `linkat(dir,path,dir,path,flags)`.
    LinkAt(Dir, &'a [u8], Dir, &'a [u8], &'a [u8]),
    /// `name(flags)`.
    OnFlags(FlagsCall, &'a [u8]),
    /// `name()`.
    Bare(BareCall),
    /// Any other name, with any arguments.
    Other(&'a [u8], &'a [u8]),
}

/// What a command of fcntl answers where it doesn't fail.
pub(crate) fn fcntl_kind(command: &[u8]) -> ResultKind
    ensures { result ≡ kind_of_command command.now }
{
    if command == b"F_DUPFD".as_slice() || command == b"F_DUPFD_CLOEXEC".as_slice() {
        ResultKind::Fd
    } else {
        ResultKind::Count
    }
}

impl<'a> Call<'a> {
    ghost use Rattle.cap_trace.specs.Entry.{head_of_call, kind_of};
    ghost use Rattle.cap_trace.specs.Code.Rows.{head_view};
    ghost use Rattle.cap_trace.specs.Views.{call_view};

    /// What is before the arguments.
    pub(crate) fn head(&self) -> Head<'a>
        ensures { head_view result ≡ head_of_call (call_view self.now) }
    {
        Head::Listed(match self {
            Call::OnFd(call, _) => Form::OnFd(*call),
            Call::Send(call, _) | Call::SendTo(call, _) => Form::Send(*call),
            Call::Accept4(_, _) => Form::Accept4,
            Call::Dup2(_, _) => Form::Dup2,
            Call::Fcntl(_, _) | Call::FcntlDup(_, _, _) | Call::FcntlSetFd(_, _) => Form::Fcntl,
            Call::Mmap(_, _, _) => Form::Mmap,
            Call::RightsLimit(_, _) => Form::RightsLimit,
            Call::Open(_, _) => Form::Open,
            Call::OnPath(call, _) => Form::OnPath(*call),
            Call::OnPaths(call, _, _) => Form::OnPaths(*call),
            Call::At(call, _, _) => Form::At(*call),
            Call::AtFlags(call, _, _, _) => Form::AtFlags(*call),
            Call::SymlinkAt(_, _, _) => Form::SymlinkAt,
            Call::RenameAt(_, _, _, _) => Form::RenameAt,
            Call::LinkAt(_, _, _, _, _) => Form::LinkAt,
            Call::OnFlags(call, _) => Form::OnFlags(*call),
            Call::Bare(call) => Form::Bare(*call),
            Call::Other(name, _) => return Head::Unlisted(name),
        })
    }

    /// What the call answers where it doesn't fail.
    pub fn kind(&self) -> ResultKind
        ensures { result ≡ kind_of (call_view self.now) }
    {
        match self {
            Call::Dup2(_, fd) | Call::FcntlDup(_, _, fd) => ResultKind::Same(*fd),
            Call::Fcntl(_, command) => fcntl_kind(command),
            _ => self.head().kind(),
        }
    }

    /// A copy of the call, made form by form, since only so there is a proof.
    #[inline(always)]
    fn copied(&self) -> Call<'a>
        ensures { call_view result ≡ call_view self.now }
    {
        match self {
            Call::OnFd(call, fd) => Call::OnFd(*call, *fd),
            Call::Send(call, fd) => Call::Send(*call, *fd),
            Call::SendTo(call, fd) => Call::SendTo(*call, *fd),
            Call::Accept4(fd, flags) => Call::Accept4(*fd, flags),
            Call::Dup2(fd, to) => Call::Dup2(*fd, *to),
            Call::Fcntl(fd, command) => Call::Fcntl(*fd, command),
            Call::FcntlDup(command, fd, to) => Call::FcntlDup(*command, *fd, *to),
            Call::FcntlSetFd(fd, flags) => Call::FcntlSetFd(*fd, flags),
            Call::Mmap(fd, protection, kind) => Call::Mmap(*fd, protection, kind),
            Call::RightsLimit(fd, rights) => Call::RightsLimit(*fd, *rights),
            Call::Open(path, flags) => Call::Open(path, flags),
            Call::OnPath(call, path) => Call::OnPath(*call, path),
            Call::OnPaths(call, path, other) => Call::OnPaths(*call, path, other),
            Call::At(call, dir, path) => Call::At(*call, *dir, path),
            Call::AtFlags(call, dir, path, flags) => Call::AtFlags(*call, *dir, path, flags),
            Call::SymlinkAt(path, dir, other) => Call::SymlinkAt(path, *dir, other),
            Call::RenameAt(dir, path, to, other) => Call::RenameAt(*dir, path, *to, other),
            Call::LinkAt(dir, path, to, other, flags) => {
                Call::LinkAt(*dir, path, *to, other, flags)
            }
            Call::OnFlags(call, flags) => Call::OnFlags(*call, flags),
            Call::Bare(call) => Call::Bare(*call),
            Call::Other(name, args) => Call::Other(name, args),
        }
    }
}

/// What a call answered.
#[derive(Clone, Copy, Debug, PartialEq, Eq)]
pub enum Answer {
    /// A number that is no errno.
    Made(u64),
    /// Two of them.
    Pair(u64, u64),
    /// The errno of a call that failed.
    Fault(u16),
}

/// What a line says of its process.
#[derive(Clone, Copy, Debug)]
pub enum Item<'a> {
    /// It made a call, which answered.
    Call { call: Call<'a>, answer: Answer },
    /// It begins to be known, with these descriptors alone: as they are spelled, with commas between them.
    Start(&'a [u8]),
    /// It is gone.
    Exit,
    /// Something that the trace doesn't show was done to this descriptor.
    Foreign(Fd),
    /// `@uses(fd,rights)`, `@refused(fd,rights)`: a call needed these rights of this descriptor, beside what its own line is
    /// checked for.
    Needs(NeedsMarker, Fd, RightSet),
    /// `@global()`: a call that succeeded is one that capability mode forbids.
    Global,
}

impl<'a> Item<'a> {
    ghost use Rattle.cap_trace.specs.Entry.{head_of};
    ghost use Rattle.cap_trace.specs.Code.Rows.{head_view};
    ghost use Rattle.cap_trace.specs.Views.{item_view};

    /// What is before the arguments.
    pub(crate) fn head(&self) -> Head<'a>
        ensures { head_view result ≡ head_of (item_view self.now) }
    {
        match self {
            Item::Call { call, .. } => call.head(),
            Item::Start(_) => Head::Listed(Form::Start),
            Item::Exit => Head::Listed(Form::Exit),
            Item::Foreign(_) => Head::Listed(Form::Foreign),
            Item::Needs(marker, _, _) => Head::Listed(Form::Needs(*marker)),
            Item::Global => Head::Listed(Form::Global),
        }
    }
}

/// A line whose texts lie elsewhere. It takes no memory. Some text of at most 1,024 bytes spells it: a caller that writes
/// the struct itself has to prove it.
#[derive(Debug, Drop)]
pub struct LineRef<'a> {
    pub pid: Pid,
    pub item: Item<'a>,
}

impl<'a> Model for LineRef<'a> {
    ghost use Rattle.cap_trace.specs.Entry.{Entry};

    ghost Value = { Entry };

    ghost use Rattle.cap_trace.specs.Views.{item_view};
    ghost use Rattle.cap_trace.specs.Spelling.{IsProper};

    ghost view = { λ l. record { pid = l.pid; item = item_view l.item } };

    ghost invariant = { λ l. IsProper (record { pid = l.pid; item = item_view l.item }) };
}

impl<'a> LineRef<'a> {
    ghost use Rattle.cap_trace.specs.Entry.{head_of};
    ghost use Rattle.cap_trace.specs.Names.{name_of};

    /// A copy of the line. A caller that hands on no more than this keeps its own in registers.
    #[inline(always)]
    pub fn copied(&self) -> LineRef<'a>
        ensures { result ≡ self.now }
    {
        let pid = self.pid;
        let item = match &self.item {
            Item::Call { call, answer } => Item::Call {
                call: call.copied(),
                answer: *answer,
            },
            Item::Start(fds) => Item::Start(fds),
            Item::Exit => Item::Exit,
            Item::Foreign(fd) => Item::Foreign(*fd),
            Item::Needs(marker, fd, rights) => Item::Needs(*marker, *fd, *rights),
            Item::Global => Item::Global,
        };
        LineRef { pid, item }
    }

    /// The name of the line's call; of a marker its word with the `@`.
    pub fn name(&self) -> &'a [u8]
        ensures { result.now ≡ name_of (head_of self.now.item) }
    {
        self.item.head().name()
    }
}

/// A line of a trace: the text that spells it, in memory of its own.
#[derive(Debug, Drop)]
pub struct Line {
    pub(crate) text: Vec<u8>,
}

impl Model for Line {
    ghost use Rattle.cap_trace.specs.Entry.{Entry};

    ghost Value = { Entry };

    ghost use Rattle.cap_trace.specs.Code.Kept.{entry_of, SpellsALine};

    ghost view = { λ l. entry_of l.text.items };

    ghost invariant = { λ l. SpellsALine l.text.items };
}

// Each line of a trace is kept while it is edited.
const _: () = prove!(std::mem::size_of::<Line>() == 24);
