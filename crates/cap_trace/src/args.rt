//! The arguments of a call, by kind, with their texts where they lie.

ghost use Rattle.std.specs.Prelude.{◌≡◌};

use crate::args::ArgRef::{Command, Dest, Dir, DupTo, Fd, Flags, Free, Path, Rights, SetFd};
use crate::args::Arguments::{Five, Four, One, Three, Two, Zero};
use crate::calls::DupCommand;
use crate::limits;
use crate::line::{self, Call};
use cap_rights::RightSet;

/// None to five values.
#[derive(Drop)]
pub(crate) enum Arguments<T> {
    Zero,
    One(T),
    Two(T, T),
    Three(T, T, T),
    Four(T, T, T, T),
    Five(T, T, T, T, T),
}

/// An argument.
#[derive(Clone, Copy)]
pub(crate) enum ArgRef<'a> {
    Fd(limits::Fd),
    Dir(line::Dir),
    Flags(&'a [u8]),
    Rights(RightSet),
    Path(&'a [u8]),
    Command(&'a [u8]),
    /// `DEST`.
    Dest,
    /// `F_SETFD`.
    SetFd,
    /// `F_DUP2FD`, `F_DUP2FD_CLOEXEC`.
    DupTo(DupCommand),
    /// What is between the brackets of a call without a form of its own.
    Free(&'a [u8]),
}

impl<'a> Call<'a> {
    ghost use Rattle.cap_trace.specs.Entry.{args_of_call};
    ghost use Rattle.cap_trace.specs.Views.{args_view, call_view};

    /// The arguments.
    pub(crate) fn args(&self) -> Arguments<ArgRef<'a>>
        ensures { args_view result ≡ args_of_call (call_view self.now) }
    {
        match *self {
            Call::OnFd(_, fd) | Call::Send(_, fd) => One(Fd(fd)),
            Call::SendTo(_, fd) => Two(Fd(fd), Dest),
            Call::Accept4(fd, flags) => Two(Fd(fd), Flags(flags)),
            Call::Dup2(fd, made) => Two(Fd(fd), Fd(made)),
            Call::Fcntl(fd, command) => Two(Fd(fd), Command(command)),
            Call::FcntlDup(command, fd, made) => Three(Fd(fd), DupTo(command), Fd(made)),
            Call::FcntlSetFd(fd, flags) => Three(Fd(fd), SetFd, Flags(flags)),
            Call::Mmap(fd, protection, mapping) => {
                Three(Fd(fd), Flags(protection), Flags(mapping))
            }
            Call::RightsLimit(fd, rights) => Two(Fd(fd), Rights(rights)),
            Call::Open(path, flags) => Two(Path(path), Flags(flags)),
            Call::OnPath(_, path) => One(Path(path)),
            Call::OnPaths(_, from, to) => Two(Path(from), Path(to)),
            Call::At(_, dir, path) => Two(Dir(dir), Path(path)),
            Call::AtFlags(_, dir, path, flags) => Three(Dir(dir), Path(path), Flags(flags)),
            Call::SymlinkAt(target, dir, link) => Three(Path(target), Dir(dir), Path(link)),
            Call::RenameAt(dir, from, to_dir, to) => {
                Four(Dir(dir), Path(from), Dir(to_dir), Path(to))
            }
            Call::LinkAt(dir, from, to_dir, to, flags) => {
                Five(Dir(dir), Path(from), Dir(to_dir), Path(to), Flags(flags))
            }
            Call::OnFlags(_, flags) => One(Flags(flags)),
            Call::Bare(_) => Zero,
            Call::Other(_, args) => One(Free(args)),
        }
    }
}
