//! The tables of the rights that calls need (rights(4)).

ghost use Rattle.std.specs.Prelude.{◌≡◌, ◌<◌, ◌^◌, map};
ghost use Rattle.cap_machine.specs.Flags.{all_known};
ghost use Rattle.cap_machine.specs.Needs.{fd_needs, fd_excuse, send_needs, send_to_needs, accept_needs, fcntl_needs};
ghost use Rattle.cap_machine.specs.Needs.{asked, mmap_needs, mmap_excuse, at_needs, access_needs, opening_needs};
ghost use Rattle.cap_machine.specs.Needs.{openat_needs, at_flags_needs, plain_flags, plain_at_flags, symlink_needs};
ghost use Rattle.cap_machine.specs.Needs.{rename_from_needs, rename_to_needs, link_from_needs, link_to_needs};

use crate::flags::{all_known_of, has_flag_of, is_one_of_these};
use cap_rights::{RightBits, RightSet};
use cap_trace::{AtCall, AtFlagsCall, FdCall};

/// What a call on one descriptor needs of it.
#[inline(always)]
#[tactic(auto, unfolding(crate::specs::Needs::fd_needs, crate::specs::Needs::named, cap_rights::specs::Names::table))]
pub(crate) fn fd_needs_of(call: FdCall) -> RightSet
    ensures { result ≡ fd_needs call }
{
    RightSet::named(match call {
        // tools/calls.py: fd_needs
        FdCall::Read | FdCall::Readv | FdCall::Recvfrom | FdCall::Recvmsg => RightBits::CAP_READ,
        FdCall::Pread | FdCall::Preadv => RightBits::CAP_PREAD,
        FdCall::Write | FdCall::Writev => RightBits::CAP_WRITE,
        FdCall::Pwrite | FdCall::Pwritev => RightBits::CAP_PWRITE,
        FdCall::Lseek => RightBits::CAP_SEEK,
        FdCall::Fstat => RightBits::CAP_FSTAT,
        FdCall::Fstatfs => RightBits::CAP_FSTATFS,
        FdCall::Fsync | FdCall::Fdatasync => RightBits::CAP_FSYNC,
        FdCall::Ftruncate => RightBits::CAP_FTRUNCATE,
        FdCall::Fchmod => RightBits::CAP_FCHMOD,
        FdCall::Fchown => RightBits::CAP_FCHOWN,
        FdCall::Fchflags => RightBits::CAP_FCHFLAGS,
        FdCall::Fchdir => RightBits::CAP_FCHDIR,
        FdCall::Flock => RightBits::CAP_FLOCK,
        FdCall::Fpathconf => RightBits::CAP_FPATHCONF,
        FdCall::Futimes | FdCall::Futimens => RightBits::CAP_FUTIMES,
        FdCall::Ioctl => RightBits::CAP_IOCTL,
        FdCall::Accept => RightBits::CAP_ACCEPT,
        FdCall::Bind => RightBits::CAP_BIND,
        FdCall::Connect => RightBits::CAP_CONNECT,
        FdCall::Listen => RightBits::CAP_LISTEN,
        FdCall::Shutdown => RightBits::CAP_SHUTDOWN,
        FdCall::Getpeername => RightBits::CAP_GETPEERNAME,
        FdCall::Getsockname => RightBits::CAP_GETSOCKNAME,
        FdCall::Getsockopt => RightBits::CAP_GETSOCKOPT,
        FdCall::Setsockopt => RightBits::CAP_SETSOCKOPT,
        FdCall::Fexecve => RightBits::CAP_FEXECVE,
        FdCall::Close
        | FdCall::Closefrom
        | FdCall::Dup
        | FdCall::CapIoctlsLimit
        | FdCall::CapFcntlsLimit => RightBits(0),
        // end
    })
}

/// With which rights errno 93 of a call on one descriptor is wrongful.
#[tactic(auto, unfolding(crate::specs::Needs::fd_excuse, crate::specs::Needs::named, cap_rights::specs::Names::table))]
pub(crate) fn fd_excuse_of(call: FdCall) -> Option<RightSet>
    ensures { result ≡ fd_excuse call }
{
    match call {
        // tools/calls.py: fd_excuse
        FdCall::Ioctl | FdCall::CapIoctlsLimit | FdCall::CapFcntlsLimit => None,
        FdCall::Fexecve => {
            let rights = RightSet::named(RightBits::CAP_FEXECVE);
            Some(rights.join(&RightSet::named(RightBits::CAP_READ)))
        }
        // end
        _ => Some(fd_needs_of(call)),
    }
}

/// What sending needs without a destination.
#[tactic(auto, unfolding(crate::specs::Needs::send_needs, crate::specs::Needs::named, cap_rights::specs::Names::table))]
pub(crate) fn send_needs_of() -> RightSet
    ensures { result ≡ send_needs }
{
    RightSet::named(RightBits::CAP_WRITE)
}

/// What sending needs with a destination.
#[tactic(auto, unfolding(crate::specs::Needs::send_to_needs, crate::specs::Needs::named, cap_rights::specs::Names::table))]
pub(crate) fn send_to_needs_of() -> RightSet
    ensures { result ≡ send_to_needs }
{
    let send = RightSet::named(RightBits::CAP_WRITE);
    send.join(&RightSet::named(RightBits::CAP_CONNECT))
}

/// What accepting needs.
#[tactic(auto, unfolding(crate::specs::Needs::accept_needs, crate::specs::Needs::named, cap_rights::specs::Names::table))]
pub(crate) fn accept_needs_of() -> RightSet
    ensures { result ≡ accept_needs }
{
    RightSet::named(RightBits::CAP_ACCEPT)
}

/// Commands of fcntl(2) that need an open descriptor and no right.
static DESCRIPTOR_COMMANDS: [&[u8]; 3] = [b"F_DUPFD", b"F_DUPFD_CLOEXEC", b"F_GETFD"];

/// Commands that read or set the status of a file.
static STATUS_COMMANDS: [&[u8]; 4] = [b"F_GETFL", b"F_SETFL", b"F_GETOWN", b"F_SETOWN"];

/// Commands that read or set locks.
static LOCK_COMMANDS: [&[u8]; 3] = [b"F_GETLK", b"F_SETLK", b"F_SETLKW"];

/// What a command of fcntl(2) needs, where that is known.
#[tactic(auto, unfolding(crate::specs::Needs::fcntl_needs, crate::specs::Needs::named, cap_rights::specs::Names::table, crate::specs::Needs::descriptor_commands, crate::specs::Needs::status_commands, crate::specs::Needs::lock_commands))]
pub(crate) fn fcntl_needs_of(command: &[u8]) -> Option<RightSet>
    ensures { result ≡ fcntl_needs command.now }
{
    if is_one_of_these(&DESCRIPTOR_COMMANDS, command) {
        Some(RightSet::none())
    } else if is_one_of_these(&STATUS_COMMANDS, command) {
        Some(RightSet::named(RightBits::CAP_FCNTL))
    } else if is_one_of_these(&LOCK_COMMANDS, command) {
        Some(RightSet::named(RightBits::CAP_FLOCK))
    } else {
        None
    }
}

/// These rights where something is asked for.
#[tactic(auto, unfolding(crate::specs::Needs::asked))]
fn asked_of(is: bool, rights: RightBits) -> RightSet
    requires { rights.0 < 2 ^ 63 }
    ensures { result ≡ asked is rights.0 }
{
    if is {
        RightSet::named(rights)
    } else {
        RightSet::none()
    }
}

/// What mmap(2) needs, by the protection and the kind of mapping.
#[tactic(auto, unfolding(crate::specs::Needs::mmap_needs, crate::specs::Needs::named, cap_rights::specs::Names::table))]
pub(crate) fn mmap_needs_of(protection: &[u8], kind: &[u8]) -> RightSet
    ensures { result ≡ mmap_needs protection.now kind.now }
{
    let read = asked_of(has_flag_of(protection, b"PROT_READ"), RightBits::CAP_MMAP_R);
    let execute = asked_of(has_flag_of(protection, b"PROT_EXEC"), RightBits::CAP_MMAP_X);
    let shared = has_flag_of(protection, b"PROT_WRITE") && has_flag_of(kind, b"MAP_SHARED");
    let write = asked_of(shared, RightBits::CAP_MMAP_W);
    let map = RightSet::named(RightBits::CAP_MMAP);
    map.join(&read.join(&execute.join(&write)))
}

/// With which rights errno 93 of mmap(2) is wrongful.
#[tactic(auto, unfolding(crate::specs::Needs::mmap_excuse, crate::specs::Needs::named, cap_rights::specs::Names::table))]
pub(crate) fn mmap_excuse_of() -> RightSet
    ensures { result ≡ mmap_excuse }
{
    RightSet::named(RightBits::CAP_MMAP_RWX)
}

/// What a call at a directory needs of it.
#[tactic(auto, unfolding(crate::specs::Needs::at_needs, crate::specs::Needs::named, cap_rights::specs::Names::table))]
pub(crate) fn at_needs_of(call: AtCall) -> RightSet
    ensures { result ≡ at_needs call }
{
    RightSet::named(match call {
        // tools/calls.py: at_needs
        AtCall::Mkdirat => RightBits::CAP_MKDIRAT,
        AtCall::Mkfifoat => RightBits::CAP_MKFIFOAT,
        AtCall::Mknodat => RightBits::CAP_MKNODAT,
        AtCall::Readlinkat => RightBits::CAP_LOOKUP,
        AtCall::Futimesat => RightBits::CAP_FUTIMESAT,
        // end
    })
}

/// What openat(2) needs for how the file is opened.
#[tactic(auto, unfolding(crate::specs::Needs::access_needs, crate::specs::Needs::named, cap_rights::specs::Names::table))]
fn access_needs_of(flags: &[u8]) -> RightSet
    ensures { result ≡ access_needs flags.now }
{
    if has_flag_of(flags, b"O_EXEC") {
        return RightSet::named(RightBits::CAP_FEXECVE);
    }
    let read = RightSet::named(RightBits::CAP_READ);
    let write = RightSet::named(RightBits::CAP_WRITE);
    if has_flag_of(flags, b"O_RDWR") {
        read.join(&write)
    } else if has_flag_of(flags, b"O_WRONLY") {
        write
    } else {
        read
    }
}

/// What openat(2) needs for what opening the file does.
#[tactic(auto, unfolding(crate::specs::Needs::opening_needs, crate::specs::Needs::named, cap_rights::specs::Names::table))]
fn opening_needs_of(flags: &[u8]) -> RightSet
    ensures { result ≡ opening_needs flags.now }
{
    let create = asked_of(has_flag_of(flags, b"O_CREAT"), RightBits::CAP_CREATE);
    let truncate = asked_of(has_flag_of(flags, b"O_TRUNC"), RightBits::CAP_FTRUNCATE);
    let syncs = has_flag_of(flags, b"O_SYNC") || has_flag_of(flags, b"O_FSYNC");
    let sync = asked_of(syncs, RightBits::CAP_FSYNC);
    let locks = has_flag_of(flags, b"O_EXLOCK") || has_flag_of(flags, b"O_SHLOCK");
    let lock = asked_of(locks, RightBits::CAP_FLOCK);
    create.join(&truncate.join(&sync.join(&lock)))
}

/// Flags of openat(2) that ask for no more than to read.
static READING_FLAGS: [&[u8]; 5] = [
    b"O_RDONLY",
    b"O_CLOEXEC",
    b"O_DIRECTORY",
    b"O_NONBLOCK",
    b"O_NOFOLLOW",
];

/// What openat(2) needs of the directory.
#[tactic(auto, unfolding(crate::specs::Needs::openat_needs, crate::specs::Needs::named, cap_rights::specs::Names::table))]
fn openat_needs_of(flags: &[u8]) -> RightSet
    ensures { result ≡ openat_needs flags.now }
{
    let lookup = RightSet::named(RightBits::CAP_LOOKUP);
    if all_known_of(&READING_FLAGS, flags) {
        return lookup.join(&RightSet::named(RightBits::CAP_READ));
    }
    if has_flag_of(flags, b"O_PATH") || has_flag_of(flags, b"O_SEARCH") {
        lookup
    } else {
        lookup.join(&access_needs_of(flags).join(&opening_needs_of(flags)))
    }
}

/// What a call at a directory with flags needs of it.
#[tactic(auto, unfolding(crate::specs::Needs::at_flags_needs, crate::specs::Needs::named, cap_rights::specs::Names::table))]
pub(crate) fn at_flags_needs_of(call: AtFlagsCall, flags: &[u8]) -> RightSet
    ensures { result ≡ at_flags_needs call flags.now }
{
    RightSet::named(match call {
        // tools/calls.py: at_flags_needs
        AtFlagsCall::Openat => return openat_needs_of(flags),
        AtFlagsCall::Unlinkat => RightBits::CAP_UNLINKAT,
        AtFlagsCall::Fstatat => RightBits::CAP_FSTATAT,
        AtFlagsCall::Fchmodat => RightBits::CAP_FCHMODAT,
        AtFlagsCall::Fchownat => RightBits::CAP_FCHOWNAT,
        AtFlagsCall::Chflagsat => RightBits::CAP_CHFLAGSAT,
        AtFlagsCall::Utimensat => RightBits::CAP_FUTIMESAT,
        // end
    })
}

/// What symlinkat(2) needs.
#[tactic(auto, unfolding(crate::specs::Needs::symlink_needs, crate::specs::Needs::named, cap_rights::specs::Names::table))]
pub(crate) fn symlink_needs_of() -> RightSet
    ensures { result ≡ symlink_needs }
{
    RightSet::named(RightBits::CAP_SYMLINKAT)
}

/// What renameat(2) needs of the directory that the file is in.
#[tactic(auto, unfolding(crate::specs::Needs::rename_from_needs, crate::specs::Needs::named, cap_rights::specs::Names::table))]
pub(crate) fn rename_from_needs_of() -> RightSet
    ensures { result ≡ rename_from_needs }
{
    RightSet::named(RightBits::CAP_RENAMEAT_SOURCE)
}

/// What renameat(2) needs of the directory that the file comes to.
#[tactic(auto, unfolding(crate::specs::Needs::rename_to_needs, crate::specs::Needs::named, cap_rights::specs::Names::table))]
pub(crate) fn rename_to_needs_of() -> RightSet
    ensures { result ≡ rename_to_needs }
{
    RightSet::named(RightBits::CAP_RENAMEAT_TARGET)
}

/// What linkat(2) needs of the directory that the file is in.
#[tactic(auto, unfolding(crate::specs::Needs::link_from_needs, crate::specs::Needs::named, cap_rights::specs::Names::table))]
pub(crate) fn link_from_needs_of() -> RightSet
    ensures { result ≡ link_from_needs }
{
    RightSet::named(RightBits::CAP_LINKAT_SOURCE)
}

/// What linkat(2) needs of the directory that the new link comes to.
#[tactic(auto, unfolding(crate::specs::Needs::link_to_needs, crate::specs::Needs::named, cap_rights::specs::Names::table))]
pub(crate) fn link_to_needs_of() -> RightSet
    ensures { result ≡ link_to_needs }
{
    RightSet::named(RightBits::CAP_LINKAT_TARGET)
}

/// Flags of openat(2) whose meaning is known.
static PLAIN_OPEN_FLAGS: [&[u8]; 21] = [
    b"0",
    b"O_RDONLY",
    b"O_WRONLY",
    b"O_RDWR",
    b"O_EXEC",
    b"O_SEARCH",
    b"O_PATH",
    b"O_APPEND",
    b"O_CREAT",
    b"O_TRUNC",
    b"O_EXCL",
    b"O_SYNC",
    b"O_FSYNC",
    b"O_DSYNC",
    b"O_EXLOCK",
    b"O_SHLOCK",
    b"O_CLOEXEC",
    b"O_DIRECTORY",
    b"O_NOFOLLOW",
    b"O_NONBLOCK",
    b"O_NOCTTY",
];

/// Flags of the other calls at a directory whose meaning is known.
static PLAIN_AT_FLAGS: [&[u8]; 4] = [
    b"0",
    b"AT_REMOVEDIR",
    b"AT_SYMLINK_FOLLOW",
    b"AT_SYMLINK_NOFOLLOW",
];

/// The flags of a call at a directory whose meaning is known.
#[tactic(auto, unfolding(crate::specs::Needs::plain_open_flags, crate::specs::Needs::plain_at_flags))]
fn plain_flags_of(call: AtFlagsCall) -> &'static [&'static [u8]]
    ensures { map (λ name. name.now) result.now ≡ plain_flags call }
{
    match call {
        AtFlagsCall::Openat => &PLAIN_OPEN_FLAGS,
        _ => &PLAIN_AT_FLAGS,
    }
}

/// Whether the meaning of all flags of a call at a directory is known.
pub(crate) fn has_plain_flags(call: AtFlagsCall, flags: &[u8]) -> bool
    ensures { result ≡ all_known (plain_flags call) flags.now }
{
    all_known_of(plain_flags_of(call), flags)
}

/// Whether the meaning of all flags of a linkat(2) is known.
#[tactic(auto, unfolding(crate::specs::Needs::plain_at_flags))]
pub(crate) fn has_plain_link_flags(flags: &[u8]) -> bool
    ensures { result ≡ all_known plain_at_flags flags.now }
{
    all_known_of(&PLAIN_AT_FLAGS, flags)
}
