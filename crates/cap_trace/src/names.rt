//! The table of names: each call and marker that has a form of its own, with the kind of its result.

ghost use Rattle.std.specs.Prelude.{◌≡◌, ◌<◌, ◌↔◌, ◌⊎◌, Some, length, map, slice_index, IfSome, IsNone};
ghost use Rattle.std.specs.Option.{option_map};
ghost use Rattle.std.specs.List.{list_all, slice_get};
ghost use Rattle.cap_trace.specs.Names.{row_of, dup_command_name, form_named, all_forms, is_name, is_name_byte};
ghost use Rattle.cap_trace.specs.Names.{name_of, head_named, on_fd};
ghost use Rattle.cap_trace.specs.Entry.{head_kind};
ghost use Rattle.cap_trace.specs.Code.Slots.{slot_at, slots};
ghost use Rattle.cap_trace.specs.Code.Rows.{table_row, in_table, head_view};

use crate::calls::ResultKind::{self, Child, ChildAndFd, Count, Fd, FdPair, Zero};
use crate::calls::{
    AtCall, AtFlagsCall, BareCall, DupCommand, FdCall, FlagsCall, Form, NeedsMarker, PathCall,
    PathsCall, SendCall,
};
use crate::equal::{ends, same_by_ends};

/// A row of the table: the name, its form, and the result of a call that doesn't fail.
#[derive(Clone, Copy)]
pub(crate) struct Row(
    pub(crate) &'static [u8],
    pub(crate) Form,
    pub(crate) ResultKind,
);

/// The table.
// tools/calls.py: rows
static ROWS: [Row; 101] = [
    Row(b"read", Form::OnFd(FdCall::Read), Count),
    Row(b"readv", Form::OnFd(FdCall::Readv), Count),
    Row(b"recvfrom", Form::OnFd(FdCall::Recvfrom), Count),
    Row(b"recvmsg", Form::OnFd(FdCall::Recvmsg), Count),
    Row(b"pread", Form::OnFd(FdCall::Pread), Count),
    Row(b"preadv", Form::OnFd(FdCall::Preadv), Count),
    Row(b"write", Form::OnFd(FdCall::Write), Count),
    Row(b"writev", Form::OnFd(FdCall::Writev), Count),
    Row(b"pwrite", Form::OnFd(FdCall::Pwrite), Count),
    Row(b"pwritev", Form::OnFd(FdCall::Pwritev), Count),
    Row(b"lseek", Form::OnFd(FdCall::Lseek), Count),
    Row(b"fstat", Form::OnFd(FdCall::Fstat), Count),
    Row(b"fstatfs", Form::OnFd(FdCall::Fstatfs), Count),
    Row(b"fsync", Form::OnFd(FdCall::Fsync), Count),
    Row(b"fdatasync", Form::OnFd(FdCall::Fdatasync), Count),
    Row(b"ftruncate", Form::OnFd(FdCall::Ftruncate), Count),
    Row(b"fchmod", Form::OnFd(FdCall::Fchmod), Count),
    Row(b"fchown", Form::OnFd(FdCall::Fchown), Count),
    Row(b"fchflags", Form::OnFd(FdCall::Fchflags), Count),
    Row(b"fchdir", Form::OnFd(FdCall::Fchdir), Count),
    Row(b"flock", Form::OnFd(FdCall::Flock), Count),
    Row(b"fpathconf", Form::OnFd(FdCall::Fpathconf), Count),
    Row(b"futimes", Form::OnFd(FdCall::Futimes), Count),
    Row(b"futimens", Form::OnFd(FdCall::Futimens), Count),
    Row(b"ioctl", Form::OnFd(FdCall::Ioctl), Count),
    Row(b"accept", Form::OnFd(FdCall::Accept), Fd),
    Row(b"bind", Form::OnFd(FdCall::Bind), Count),
    Row(b"connect", Form::OnFd(FdCall::Connect), Count),
    Row(b"listen", Form::OnFd(FdCall::Listen), Count),
    Row(b"shutdown", Form::OnFd(FdCall::Shutdown), Count),
    Row(b"getpeername", Form::OnFd(FdCall::Getpeername), Count),
    Row(b"getsockname", Form::OnFd(FdCall::Getsockname), Count),
    Row(b"getsockopt", Form::OnFd(FdCall::Getsockopt), Count),
    Row(b"setsockopt", Form::OnFd(FdCall::Setsockopt), Count),
    Row(b"fexecve", Form::OnFd(FdCall::Fexecve), Zero),
    Row(b"close", Form::OnFd(FdCall::Close), Zero),
    Row(b"closefrom", Form::OnFd(FdCall::Closefrom), Zero),
    Row(b"dup", Form::OnFd(FdCall::Dup), Fd),
    Row(
        b"cap_ioctls_limit",
        Form::OnFd(FdCall::CapIoctlsLimit),
        Zero,
    ),
    Row(
        b"cap_fcntls_limit",
        Form::OnFd(FdCall::CapFcntlsLimit),
        Zero,
    ),
    Row(b"sendto", Form::Send(SendCall::Sendto), Count),
    Row(b"sendmsg", Form::Send(SendCall::Sendmsg), Count),
    Row(b"execve", Form::OnPath(PathCall::Execve), Zero),
    Row(b"access", Form::OnPath(PathCall::Access), Count),
    Row(b"chdir", Form::OnPath(PathCall::Chdir), Count),
    Row(b"chflags", Form::OnPath(PathCall::Chflags), Count),
    Row(b"chmod", Form::OnPath(PathCall::Chmod), Count),
    Row(b"chown", Form::OnPath(PathCall::Chown), Count),
    Row(b"lchown", Form::OnPath(PathCall::Lchown), Count),
    Row(b"lstat", Form::OnPath(PathCall::Lstat), Count),
    Row(b"mkdir", Form::OnPath(PathCall::Mkdir), Count),
    Row(b"mkfifo", Form::OnPath(PathCall::Mkfifo), Count),
    Row(b"mknod", Form::OnPath(PathCall::Mknod), Count),
    Row(b"readlink", Form::OnPath(PathCall::Readlink), Count),
    Row(b"rmdir", Form::OnPath(PathCall::Rmdir), Count),
    Row(b"stat", Form::OnPath(PathCall::Stat), Count),
    Row(b"statfs", Form::OnPath(PathCall::Statfs), Count),
    Row(b"truncate", Form::OnPath(PathCall::Truncate), Count),
    Row(b"unlink", Form::OnPath(PathCall::Unlink), Count),
    Row(b"link", Form::OnPaths(PathsCall::Link), Count),
    Row(b"rename", Form::OnPaths(PathsCall::Rename), Count),
    Row(b"symlink", Form::OnPaths(PathsCall::Symlink), Count),
    Row(b"mkdirat", Form::At(AtCall::Mkdirat), Count),
    Row(b"mkfifoat", Form::At(AtCall::Mkfifoat), Count),
    Row(b"mknodat", Form::At(AtCall::Mknodat), Count),
    Row(b"readlinkat", Form::At(AtCall::Readlinkat), Count),
    Row(b"futimesat", Form::At(AtCall::Futimesat), Count),
    Row(b"openat", Form::AtFlags(AtFlagsCall::Openat), Fd),
    Row(b"unlinkat", Form::AtFlags(AtFlagsCall::Unlinkat), Count),
    Row(b"fstatat", Form::AtFlags(AtFlagsCall::Fstatat), Count),
    Row(b"fchmodat", Form::AtFlags(AtFlagsCall::Fchmodat), Count),
    Row(b"fchownat", Form::AtFlags(AtFlagsCall::Fchownat), Count),
    Row(b"chflagsat", Form::AtFlags(AtFlagsCall::Chflagsat), Count),
    Row(b"utimensat", Form::AtFlags(AtFlagsCall::Utimensat), Count),
    Row(b"socket", Form::OnFlags(FlagsCall::Socket), Fd),
    Row(b"socketpair", Form::OnFlags(FlagsCall::Socketpair), FdPair),
    Row(b"pipe2", Form::OnFlags(FlagsCall::Pipe2), FdPair),
    Row(b"pipe", Form::Bare(BareCall::Pipe), FdPair),
    Row(b"kqueue", Form::Bare(BareCall::Kqueue), Fd),
    Row(b"shm_open", Form::Bare(BareCall::ShmOpen), Fd),
    Row(b"mq_open", Form::Bare(BareCall::MqOpen), Fd),
    Row(b"fhopen", Form::Bare(BareCall::Fhopen), Fd),
    Row(b"fork", Form::Bare(BareCall::Fork), Child),
    Row(b"vfork", Form::Bare(BareCall::Vfork), Child),
    Row(b"pdfork", Form::Bare(BareCall::Pdfork), ChildAndFd),
    Row(b"cap_enter", Form::Bare(BareCall::CapEnter), Zero),
    Row(b"@uses", Form::Needs(NeedsMarker::Uses), Zero),
    Row(b"@refused", Form::Needs(NeedsMarker::Refused), Zero),
    Row(b"accept4", Form::Accept4, Fd),
    Row(b"dup2", Form::Dup2, Fd),
    Row(b"fcntl", Form::Fcntl, Count),
    Row(b"mmap", Form::Mmap, Count),
    Row(b"cap_rights_limit", Form::RightsLimit, Zero),
    Row(b"open", Form::Open, Fd),
    Row(b"symlinkat", Form::SymlinkAt, Count),
    Row(b"renameat", Form::RenameAt, Count),
    Row(b"linkat", Form::LinkAt, Count),
    Row(b"@start", Form::Start, Zero),
    Row(b"@exit", Form::Exit, Zero),
    Row(b"@foreign", Form::Foreign, Zero),
    Row(b"@global", Form::Global, Zero),
];
// end

// tools/calls.py: places
impl Form {
    /// The place of its row in the table.
    #[tactic(auto, unfolding(crate::specs::Names::all_forms))]
    #[inline(always)]
    fn place(self) -> usize
        ensures { slice_get all_forms result ≡ Some self }
    {
        match self {
            Form::OnFd(call) => call as usize,
            Form::Send(call) => call as usize + 40,
            Form::OnPath(call) => call as usize + 42,
            Form::OnPaths(call) => call as usize + 59,
            Form::At(call) => call as usize + 62,
            Form::AtFlags(call) => call as usize + 67,
            Form::OnFlags(call) => call as usize + 74,
            Form::Bare(call) => call as usize + 77,
            Form::Needs(call) => call as usize + 86,
            Form::Accept4 => 88,
            Form::Dup2 => 89,
            Form::Fcntl => 90,
            Form::Mmap => 91,
            Form::RightsLimit => 92,
            Form::Open => 93,
            Form::SymlinkAt => 94,
            Form::RenameAt => 95,
            Form::LinkAt => 96,
            Form::Start => 97,
            Form::Exit => 98,
            Form::Foreign => 99,
            Form::Global => 100,
        }
    }
}
// end

/// The row at a place, where there is one.
#[inline(always)]
fn row_at(rows: &[Row], place: usize) -> Option<&Row>
    ensures { option_map (λ r. table_row r.now) result ≡ slice_get (map table_row rows.now) place }
{
    rows.get(place)
}

/// The row at a place of the table, where there is one.
#[inline(always)]
fn listed_at(place: usize) -> Option<&'static Row>
    ensures { option_map (λ r. table_row r.now) result ≡ option_map in_table (slice_get all_forms place) }
{
    row_at(&ROWS, place)
}

impl Form {
    /// Its row.
    #[inline(always)]
    fn row(self) -> &'static Row
        ensures { table_row result.now ≡ in_table self }
    {
        listed_at(self.place()).unwrap()
    }

    /// The name that has this form.
    #[inline(always)]
    fn name(self) -> &'static [u8]
        ensures { result.now ≡ (row_of self).name }
    {
        self.row().0
    }

    /// What a call of this form answers where it doesn't fail, if its arguments don't decide.
    #[inline(always)]
    pub(crate) fn kind(self) -> ResultKind
        ensures { result ≡ (row_of self).kind }
    {
        self.row().2
    }
}

impl FdCall {
    /// What the call answers where it doesn't fail. The table says the same, with more instructions.
    pub(crate) fn kind(self) -> ResultKind
        ensures { result ≡ (on_fd self).kind }
    {
        match self {
            // tools/calls.py: kinds
            FdCall::Accept | FdCall::Dup => Fd,
            FdCall::Fexecve
            | FdCall::Close
            | FdCall::Closefrom
            | FdCall::CapIoctlsLimit
            | FdCall::CapFcntlsLimit => Zero,
            // end
            _ => Count,
        }
    }
}

impl DupCommand {
    /// The word of the command.
    pub(crate) fn name(self) -> &'static [u8]
        ensures { result.now ≡ dup_command_name self }
    {
        match self {
            DupCommand::FDup2fd => b"F_DUP2FD",
            DupCommand::FDup2fdCloexec => b"F_DUP2FD_CLOEXEC",
        }
    }
}

// tools/calls.py: factors
const FIRST_FACTOR: u64 = 15740383897854124937;

const LAST_FACTOR: u64 = 12311954015914930279;
// end

/// The number of the form whose name has this slot, or 255.
// tools/calls.py: slots
static SLOTS: [u8; 512] = [
    255, 255, 255, 60, 255, 23, 255, 255, 255, 255, 255, 255, 255, 255, 255, 255, 255, 255, 77,
    255, 62, 255, 255, 255, 53, 255, 255, 255, 61, 255, 255, 255, 255, 255, 255, 255, 255, 255,
    255, 66, 255, 255, 255, 255, 255, 45, 255, 255, 255, 10, 255, 255, 255, 255, 255, 17, 255, 33,
    255, 255, 40, 255, 255, 255, 255, 36, 255, 255, 255, 8, 255, 255, 255, 255, 255, 255, 69, 255,
    255, 255, 255, 255, 255, 11, 255, 255, 255, 255, 255, 255, 255, 46, 85, 255, 50, 255, 255, 19,
    26, 255, 255, 255, 255, 255, 255, 255, 255, 255, 255, 255, 255, 255, 255, 255, 255, 255, 48,
    255, 255, 255, 255, 255, 73, 255, 43, 255, 255, 255, 255, 31, 255, 255, 255, 255, 24, 255, 255,
    255, 255, 255, 255, 255, 79, 255, 49, 255, 0, 255, 255, 64, 255, 255, 255, 15, 255, 255, 255,
    255, 255, 255, 255, 255, 255, 88, 255, 255, 44, 255, 255, 255, 255, 59, 255, 255, 255, 255,
    255, 255, 255, 255, 255, 4, 255, 255, 255, 255, 255, 255, 47, 255, 255, 255, 255, 255, 255,
    255, 57, 255, 255, 255, 255, 255, 255, 255, 20, 255, 63, 255, 7, 255, 255, 255, 255, 255, 255,
    97, 70, 255, 255, 255, 255, 255, 99, 255, 255, 12, 255, 255, 255, 255, 255, 255, 255, 255, 255,
    255, 255, 255, 255, 255, 255, 255, 255, 42, 255, 255, 255, 255, 255, 255, 39, 89, 83, 255, 86,
    255, 255, 255, 255, 255, 255, 255, 255, 255, 255, 84, 255, 255, 255, 255, 75, 255, 255, 255,
    255, 255, 255, 255, 255, 255, 255, 58, 255, 6, 255, 255, 255, 255, 255, 255, 255, 255, 255,
    255, 21, 91, 255, 255, 255, 255, 255, 255, 255, 255, 255, 255, 255, 255, 255, 255, 255, 255,
    255, 255, 255, 255, 255, 255, 255, 255, 16, 255, 255, 255, 255, 255, 255, 255, 255, 255, 25,
    255, 255, 55, 255, 255, 27, 255, 255, 94, 13, 255, 54, 255, 255, 255, 255, 255, 100, 255, 255,
    255, 255, 255, 255, 255, 255, 255, 255, 255, 255, 67, 255, 255, 255, 74, 255, 255, 37, 255,
    255, 255, 1, 255, 90, 92, 82, 255, 255, 255, 255, 255, 255, 255, 255, 255, 255, 255, 255, 255,
    255, 3, 255, 255, 255, 71, 255, 255, 255, 255, 255, 255, 255, 255, 255, 41, 255, 5, 255, 255,
    255, 255, 255, 255, 255, 255, 78, 255, 255, 93, 98, 255, 255, 255, 255, 255, 38, 255, 255, 76,
    255, 255, 255, 255, 22, 80, 255, 255, 255, 14, 18, 255, 255, 35, 255, 255, 32, 255, 255, 95, 2,
    255, 255, 255, 255, 255, 96, 255, 255, 81, 255, 255, 255, 255, 255, 29, 255, 255, 255, 255, 30,
    34, 28, 72, 255, 56, 255, 255, 51, 255, 255, 255, 255, 255, 255, 255, 255, 255, 255, 255, 255,
    255, 87, 255, 255, 255, 255, 255, 255, 255, 255, 52, 255, 65, 255, 9, 255, 68, 255, 255, 255,
    255,
];
// end

/// The fewest and the most bytes of a name in the table.
pub(crate) const SHORTEST_NAME: usize = 3;

const LONGEST_NAME: usize = 16;

/// The slot of a name, by its first and last bytes: each name of the table has one of its own.
#[inline(always)]
fn slot_of(name: &[u8]) -> Option<usize>
    ensures some { IfSome result (λ k. (k ≡ slot_at name.now) × (k < 512)) }
    ensures none { IsNone result ↔ ((length name.now < 3) ⊎ (16 < length name.now)) }
{
    if name.len() < SHORTEST_NAME || name.len() > LONGEST_NAME {
        return None;
    }
    let (first, last) = ends(name);
    let sum = first
        .wrapping_mul(FIRST_FACTOR)
        .wrapping_add(last.wrapping_mul(LAST_FACTOR));
    Some((sum >> 55) as usize)
}

/// The row in a slot, where it has one.
#[inline(always)]
fn in_slot(slot: usize) -> Option<&'static Row>
    requires { slot < 512 }
    ensures { option_map (λ r. table_row r.now) result
        ≡ option_map in_table (slice_get all_forms (slice_index slots slot)) }
{
    listed_at(usize::from(SLOTS[slot]))
}

/// The form of a name of the table. Only the row in the slot of the name is compared with it: each row is in the
/// slot of its name, so a search through all rows finds the same.
#[inline(always)]
pub(crate) fn form_of(name: &[u8]) -> Option<Form>
    ensures { result ≡ form_named name.now }
{
    let slot = slot_of(name)?;
    let row = in_slot(slot)?;
    same_by_ends(row.0, name).then_some(row.1)
}

fn name_byte(byte: u8) -> bool
    ensures { result ≡ is_name_byte byte }
{
    byte.is_ascii_lowercase() || byte.is_ascii_digit() || byte == b'_'
}

fn all_name_bytes(text: &[u8]) -> bool
    ensures { result ≡ list_all is_name_byte text.now }
{
    text.iter().all(|byte| name_byte(*byte))
}

/// Whether a text may be the name of a call.
pub(crate) fn is_call_name(text: &[u8]) -> bool
    ensures { result ≡ is_name text.now }
{
    match text {
        [] => false,
        [first, rest @ ..] => {
            name_byte(*first) && !first.is_ascii_digit() && all_name_bytes(rest)
        }
    }
}

/// What is before the arguments: a name of the table, or any other.
#[derive(Clone, Copy)]
pub(crate) enum Head<'a> {
    Listed(Form),
    Unlisted(&'a [u8]),
}

impl<'a> Head<'a> {
    /// The name.
    pub(crate) fn name(self) -> &'a [u8]
        ensures { result.now ≡ name_of (head_view self.entry) }
    {
        match self {
            Head::Listed(form) => form.name(),
            Head::Unlisted(name) => name,
        }
    }

    /// What a call with this name answers where it doesn't fail, if its arguments don't decide.
    pub(crate) fn kind(self) -> ResultKind
        ensures { result ≡ head_kind (head_view self.entry) }
    {
        match self {
            Head::Listed(form) => form.kind(),
            Head::Unlisted(_) => ResultKind::Any,
        }
    }
}

/// The form of a name, where it is one.
#[inline(always)]
pub(crate) fn head_of(name: &[u8]) -> Option<Head<'_>>
    ensures { option_map head_view result ≡ head_named name.now }
{
    match form_of(name) {
        Some(form) => Some(Head::Listed(form)),
        None if is_call_name(name) => Some(Head::Unlisted(name)),
        None => None,
    }
}
