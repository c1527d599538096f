//! Worked lines: boundaries, refused lines, each name once, and what a line that was read says.
//!
//! A test goes over a table, and a small function says whether a row holds. It doesn't where memory has run out.

use cap_trace::{
    Answer, Call, Dir, FdCall, Fds, Item, LONGEST_LINE, Line, LineFault, LineRef, Path, PathCall,
    faults_are_of_their_fields, fds_of, has_fd, is_valid_arguments, is_valid_command,
    is_valid_flags, is_valid_name, number_of, one_line, one_path, only_rights_are_rewritten,
    parse_line, put_number, read_fast, read_slow, reading_is_spelling, write_line, written_is_read,
};
use std::alloc::Global;

/// Lines with the number of their first fault.
static REFUSED: [(&[u8], u8); 64] = [
    (&[b'1'; 1025], 1),
    (&[b'1'; 1024], 3),
    (b"", 3),
    (b"\r", 3),
    (b" read(4) RET 1", 3),
    (b"0 read(4) RET 1", 3),
    (b"007 read(4) RET 1", 3),
    (b"100000 read(4) RET 1", 3),
    (b"100", 2),
    (b"100 ", 2),
    (b"100 read", 2),
    (b"100 4read(4) RET 1", 2),
    (b"100 Read(4) RET 1", 2),
    (b"100 @foo()", 2),
    (b"100 read(x RET 1", 2),
    (b"100 @start(\")", 2),
    (b"100 @start() ", 2),
    (b"100 @exit()\r", 2),
    (b"100 read(4)", 2),
    (b"100 open(\"a,0) RET 3", 2),
    (b"100 foo(a(b) RET 0", 2),
    (b"100 foo(a)b) RET 0", 2),
    (b"100 foo(\n) RET 0", 2),
    (b"100 read(1048576) RET -1 errno 9", 4),
    (b"100 read() RET 1", 4),
    (b"100 read(3,4) RET 1", 4),
    (b"100 @start(3,3)", 4),
    (b"100 @start(,)", 4),
    (b"100 @exit(3)", 4),
    (b"100 cap_rights_limit(3,FOO,4) RET 0", 4),
    (b"100 open(\"\\x41\",0) RET 3", 4),
    (b"100 open(\"\\xC3\",0) RET 3", 4),
    (b"100 open(\"a\",) RET 3", 4),
    (b"100 open(a,0) RET 3", 4),
    (b"100 rename(\"a\",\"b\",\"c\") RET 0", 4),
    (b"100 fcntl(3,F_SETFD) RET 0", 4),
    (b"100 fcntl(3,F_GETFD,0) RET 0", 4),
    (b"100 fcntl(3,F_DUP2FD) RET 7", 4),
    (b"100 fcntl(3,0) RET 0", 4),
    (b"100 fcntl(3,f_x) RET 0", 4),
    (b"100 fcntl(3,A|B) RET 0", 4),
    (b"100 sendto(3,dest) RET 0", 4),
    (b"100 dup2(3,4) RET 5", 4),
    (b"100 closefrom() RET 0", 4),
    (b"100 closefrom(x) RET 0", 4),
    (b"100 closefrom(1048576) RET 0", 4),
    (b"100 closefrom(3,4) RET 0", 4),
    (b"100 fcntl(3,F_DUP2FD,7) RET 8", 4),
    (b"100 cap_rights_limit(3,CAP_SEEK_TELL) RET 0", 5),
    (b"100 close(3) RET 1", 6),
    (b"100 closefrom(3) RET 1", 6),
    (b"100 read(0) RET 1\r", 6),
    (b"100 read(4) RET 18446744073709551616", 6),
    (b"100 read(4) RET -1 errno 0", 6),
    (b"100 read(4) RET -1 errno 65536", 6),
    (b"100 dup2(3,4) RET 04", 6),
    (b"100 dup2(3,4) RET 1048576", 6),
    (b"100 fork() RET 100000", 6),
    (b"100 cap_enter() RET 1", 6),
    (b"100 pipe() RET 4", 6),
    (b"100 socketpair(0) RET 4,1048576", 6),
    (b"100 read(0) RET 4,5", 6),
    (b"100 foo() RET 4,5,6", 6),
    (b"100 foo() RET ", 6),
];

/// The code of the fault with which something isn't made; 0 where it is.
fn refused<T: Drop>(made: Result<T, LineFault>) -> u8 {
    match made {
        Ok(_) => 0,
        Err(fault) => fault.code(),
    }
}

#[test]
fn a_refused_line_has_the_number_of_its_first_fault(rt: HostRuntime) {
    for (bytes, code) in &REFUSED {
        assert!(rt; refused(parse_line(rt.alloc(), bytes)) == *code);
    }
}

/// A line of each name that shares a form; each is its own canonical text.
// tools/calls.py: lines
static OF_FORMS: &[u8] = b"100 read(3) RET 5
100 readv(3) RET 5
100 recvfrom(3) RET 5
100 recvmsg(3) RET 5
100 pread(3) RET 5
100 preadv(3) RET 5
100 write(3) RET 5
100 writev(3) RET 5
100 pwrite(3) RET 5
100 pwritev(3) RET 5
100 lseek(3) RET 5
100 fstat(3) RET 5
100 fstatfs(3) RET 5
100 fsync(3) RET 5
100 fdatasync(3) RET 5
100 ftruncate(3) RET 5
100 fchmod(3) RET 5
100 fchown(3) RET 5
100 fchflags(3) RET 5
100 fchdir(3) RET 5
100 flock(3) RET 5
100 fpathconf(3) RET 5
100 futimes(3) RET 5
100 futimens(3) RET 5
100 ioctl(3) RET 5
100 accept(3) RET 7
100 bind(3) RET 5
100 connect(3) RET 5
100 listen(3) RET 5
100 shutdown(3) RET 5
100 getpeername(3) RET 5
100 getsockname(3) RET 5
100 getsockopt(3) RET 5
100 setsockopt(3) RET 5
100 fexecve(3) RET 0
100 close(3) RET 0
100 closefrom(3) RET 0
100 dup(3) RET 7
100 cap_ioctls_limit(3) RET 0
100 cap_fcntls_limit(3) RET 0
100 sendto(3) RET 5
100 sendmsg(3) RET 5
100 execve(\"a\") RET 0
100 access(\"a\") RET 5
100 chdir(\"a\") RET 5
100 chflags(\"a\") RET 5
100 chmod(\"a\") RET 5
100 chown(\"a\") RET 5
100 lchown(\"a\") RET 5
100 lstat(\"a\") RET 5
100 mkdir(\"a\") RET 5
100 mkfifo(\"a\") RET 5
100 mknod(\"a\") RET 5
100 readlink(\"a\") RET 5
100 rmdir(\"a\") RET 5
100 stat(\"a\") RET 5
100 statfs(\"a\") RET 5
100 truncate(\"a\") RET 5
100 unlink(\"a\") RET 5
100 link(\"a\",\"a\") RET 5
100 rename(\"a\",\"a\") RET 5
100 symlink(\"a\",\"a\") RET 5
100 mkdirat(AT_FDCWD,\"a\") RET 5
100 mkfifoat(AT_FDCWD,\"a\") RET 5
100 mknodat(AT_FDCWD,\"a\") RET 5
100 readlinkat(AT_FDCWD,\"a\") RET 5
100 futimesat(AT_FDCWD,\"a\") RET 5
100 openat(AT_FDCWD,\"a\",0) RET 7
100 unlinkat(AT_FDCWD,\"a\",0) RET 5
100 fstatat(AT_FDCWD,\"a\",0) RET 5
100 fchmodat(AT_FDCWD,\"a\",0) RET 5
100 fchownat(AT_FDCWD,\"a\",0) RET 5
100 chflagsat(AT_FDCWD,\"a\",0) RET 5
100 utimensat(AT_FDCWD,\"a\",0) RET 5
100 socket(0) RET 7
100 socketpair(0) RET 4,5
100 pipe2(0) RET 4,5
100 pipe() RET 4,5
100 kqueue() RET 7
100 shm_open() RET 7
100 mq_open() RET 7
100 fhopen() RET 7
100 fork() RET 101
100 vfork() RET 101
100 pdfork() RET 101,7
100 cap_enter() RET 0";
// end

/// Lines of other forms, and other lines.
static OTHERS: &[u8] = b"100 closefrom(3) RET -1 errno 9
100 sendto(3,DEST) RET 5
100 sendmsg(3,DEST) RET 5
100 accept4(3,SOCK_CLOEXEC|SOCK_NONBLOCK) RET 7
100 dup2(3,4) RET 4
100 fcntl(3,F_DUPFD) RET 7
100 fcntl(3,F_DUPFD_CLOEXEC) RET 7
100 fcntl(3,F_DUP2FD,7) RET 7
100 fcntl(3,F_DUP2FD_CLOEXEC,7) RET 7
100 fcntl(3,F_GETFD) RET 1
100 fcntl(3,F_SETFD,FD_CLOEXEC) RET 0
100 fcntl(3,F_FOO) RET 0
100 mmap(3,PROT_READ|PROT_WRITE,MAP_PRIVATE) RET 4096
100 cap_rights_limit(3,CAP_READ|CAP_WRITE|CAP_SEEK) RET 0
100 open(\"a\\x0a\\\"b\",O_RDONLY|O_CREAT) RET -1 errno 2
100 symlinkat(\"a\",AT_FDCWD,\"\") RET 0
100 renameat(3,\"a\",9,\"b\") RET 0
100 linkat(AT_FDCWD,\"a\",3,\"b\",AT_SYMLINK_FOLLOW) RET 0
100 @start()
100 @start(0,3,1048575)
100 @exit()
100 @foreign(9)
100 @uses(3,CAP_READ|CAP_WRITE|CAP_SEEK)
100 @refused(1048575,NONE)
100 @global()
100 foo() RET 4,5
100 foo(a\"b,-) RET 18446744073709551615
1 _foo9(x) RET 0,18446744073709551615";

/// Whether this text is written for a line.
fn is_written(alloc: Global, line: &Line, text: &[u8]) -> bool {
    let mut out = Vec::new(alloc);
    write_line(line, &mut out).is_ok() && out.as_slice() == text
}

/// Whether this text is written for a line that is read.
fn is_rewritten(alloc: Global, bytes: &[u8], text: &[u8]) -> bool {
    match parse_line(alloc, bytes) {
        Ok(line) => is_written(alloc, &line, text),
        Err(_) => false,
    }
}

/// The name in a line: what is between the blank and the bracket.
fn name_in(bytes: &[u8]) -> &[u8] {
    let mut words = bytes.split(|byte| *byte == b' ' || *byte == b'(');
    let _pid = words.next();
    words.next().unwrap_or(bytes)
}

/// Whether a line that is read has its name.
fn is_named(alloc: Global, bytes: &[u8]) -> bool {
    match parse_line(alloc, bytes) {
        Ok(line) => line.name() == name_in(bytes),
        Err(_) => false,
    }
}

#[test]
fn each_name_is_read_and_written(rt: HostRuntime) {
    for bytes in OF_FORMS.split(|byte| *byte == b'\n') {
        assert!(rt; is_named(rt.alloc(), bytes) && is_rewritten(rt.alloc(), bytes, bytes));
    }
}

#[test]
fn each_other_form_is_read_and_written(rt: HostRuntime) {
    for bytes in OTHERS.split(|byte| *byte == b'\n') {
        assert!(rt; is_named(rt.alloc(), bytes) && is_rewritten(rt.alloc(), bytes, bytes));
    }
}

/// The example of the crate's documentation: reading and writing.
#[test]
fn the_example_is_read(rt: HostRuntime) {
    let bytes = b"100 open(\"/etc/passwd\",O_RDONLY) RET 3".as_slice();
    assert!(rt; is_named(rt.alloc(), bytes) && is_rewritten(rt.alloc(), bytes, bytes));
}

#[test]
fn rights_are_written_in_order(rt: HostRuntime) {
    let asked = b"100 cap_rights_limit(3,CAP_WRITE|CAP_PREAD|CAP_READ) RET 0";
    let text = b"100 cap_rights_limit(3,CAP_READ|CAP_WRITE|CAP_SEEK) RET 0";
    assert!(rt; is_rewritten(rt.alloc(), asked, text));
}

/// Lines of the forms that are read where they lie.
static LYING: [&[u8]; 12] = [
    b"100 write(1) RET 5",
    b"100 dup2(3,4) RET 4",
    b"100 @start(0,3)",
    b"100 fcntl(3,F_GETFL) RET 2",
    b"100 mmap(3,PROT_READ,MAP_PRIVATE) RET 34366001152",
    b"100 cap_rights_limit(3,CAP_READ) RET 0",
    b"100 open(\"/etc/passwd\",O_RDONLY|O_CLOEXEC) RET 3",
    b"100 access(\"/etc/passwd\") RET -1 errno 94",
    b"100 openat(AT_FDCWD,\"a\",O_RDONLY) RET 3",
    b"100 socket(SOCK_STREAM) RET 4",
    b"100 cap_enter() RET 0",
    b"100 clock_gettime(4) RET 0",
];

/// The line that is read where it lies, and then kept.
fn kept(alloc: Global, bytes: &[u8]) -> Option<Line> {
    match read_fast(bytes) {
        Some(line) => line.copied().to_line(alloc, bytes).ok(),
        None => match read_slow(bytes) {
            Ok(line) => line.to_line(alloc, bytes).ok(),
            Err(_) => None,
        },
    }
}

/// Whether such a line is written as it was.
fn is_kept(alloc: Global, bytes: &[u8]) -> bool {
    match kept(alloc, bytes) {
        Some(line) => is_written(alloc, &line, bytes),
        None => false,
    }
}

#[test]
fn a_call_is_read_where_it_lies(rt: HostRuntime) {
    for bytes in &LYING {
        assert!(rt; is_kept(rt.alloc(), bytes));
    }
}

/// Each law may be called.
fn call_the_laws() {
    one_line();
    one_path();
    reading_is_spelling();
    written_is_read();
    only_rights_are_rewritten();
    faults_are_of_their_fields();
}

/// The longest line.
fn longest() -> [u8; 1024] {
    let mut bytes = [b'x'; 1024];
    bytes[..8].copy_from_slice(b"100 foo(");
    bytes[1017..].copy_from_slice(b") RET 0");
    bytes
}

#[test]
fn the_longest_line_is_read(rt: HostRuntime) {
    call_the_laws();
    assert!(rt; is_named(rt.alloc(), &longest()));
}

/// The call on a descriptor that a line is, with its pid and its answer.
fn on_fd(line: &LineRef<'_>) -> Option<(u32, FdCall, u32, Answer)> {
    match line.item {
        Item::Call {
            call: Call::OnFd(name, fd),
            answer,
        } => Some((line.pid, name, fd, answer)),
        _ => None,
    }
}

/// Lines with what they say of a call on a descriptor.
static ON_FDS: [(&[u8], (u32, FdCall, u32, Answer)); 2] = [
    (
        b"99999 read(1048575) RET -1 errno 9",
        (99_999, FdCall::Read, 1_048_575, Answer::Fault(9)),
    ),
    (
        b"100 closefrom(3) RET 0",
        (100, FdCall::Closefrom, 3, Answer::Made(0)),
    ),
];

/// Whether a line that is read says this.
fn is_on_fd(alloc: Global, row: &(&[u8], (u32, FdCall, u32, Answer))) -> bool {
    match parse_line(alloc, row.0) {
        Ok(line) => on_fd(&line.view()) == Some(row.1),
        Err(_) => false,
    }
}

#[test]
fn a_call_on_a_descriptor_is_read(rt: HostRuntime) {
    for row in &ON_FDS {
        assert!(rt; is_on_fd(rt.alloc(), row));
    }
}

/// The texts of a line: the path and the flags of an open, the command of an `fcntl`, or the name and the arguments of a
/// call without a form of its own.
fn texts<'a>(line: &LineRef<'a>) -> Option<(&'a [u8], &'a [u8])> {
    match line.item {
        Item::Call {
            call: Call::Open(path, flags),
            ..
        } => Some((path, flags)),
        Item::Call {
            call: Call::Fcntl(_, command),
            ..
        } => Some((command, b"")),
        Item::Call {
            call: Call::Other(name, args),
            ..
        } => Some((name, args)),
        _ => None,
    }
}

/// Lines with the texts that they keep.
static KEPT: [(&[u8], &[u8], &[u8]); 5] = [
    (b"100 open(\"/a\",O_RDONLY) RET 3", b"/a", b"O_RDONLY"),
    (
        b"100 open(\"/of/14/bytes/a\",O_RDONLY|O_SYNC) RET 3",
        b"/of/14/bytes/a",
        b"O_RDONLY|O_SYNC",
    ),
    (
        b"100 open(\"/of/15/bytes/ab\",O_RDWR|O_CREAT) RET 3",
        b"/of/15/bytes/ab",
        b"O_RDWR|O_CREAT",
    ),
    (b"100 fcntl(3,F_GETFL) RET 2", b"F_GETFL", b""),
    (b"100 foo(1,\"2) RET 0", b"foo", b"1,\"2"),
];

/// Whether a line that is read keeps these texts.
fn keeps(alloc: Global, row: &(&[u8], &[u8], &[u8])) -> bool {
    match parse_line(alloc, row.0) {
        Ok(line) => texts(&line.view()) == Some((row.1, row.2)),
        Err(_) => false,
    }
}

#[test]
fn texts_are_kept_as_they_are_spelled(rt: HostRuntime) {
    for row in &KEPT {
        assert!(rt; keeps(rt.alloc(), row));
    }
}

/// Whether these are the descriptors of a start, with 3 among them, and without 4.
fn spells(alloc: Global, spelled: &[u8], fds: &[u32]) -> bool {
    match fds_of(alloc, spelled) {
        Ok(found) => found.as_slice() == fds && has_fd(spelled, 3) && !has_fd(spelled, 4),
        Err(_) => false,
    }
}

/// Whether a line is a start with these.
fn is_start(alloc: Global, line: &LineRef<'_>, fds: &[u32]) -> bool {
    match line.item {
        Item::Start(spelled) => spells(alloc, spelled, fds),
        _ => false,
    }
}

/// Whether a line that is read starts process 100 with these.
fn starts(alloc: Global, bytes: &[u8], fds: &[u32]) -> bool {
    match parse_line(alloc, bytes) {
        Ok(line) => line.pid() == 100 && is_start(alloc, &line.view(), fds),
        Err(_) => false,
    }
}

#[test]
fn a_start_is_read(rt: HostRuntime) {
    assert!(rt; starts(rt.alloc(), b"100 @start(0,3,1048575)", &[0, 3, 1_048_575]));
}

/// Whether a line is made that is written so; where there is no text, whether none is made.
fn makes(alloc: Global, pid: u32, item: &Item<'_>, text: &[u8]) -> bool {
    match Line::new(alloc, pid, item) {
        Ok(Some(line)) => is_written(alloc, &line, text),
        Ok(None) => text.is_empty(),
        Err(_) => false,
    }
}

/// A call to make a line of, on descriptor 3 where it takes one.
#[derive(Clone, Copy)]
enum Asked<'a> {
    Closefrom,
    Accept4(&'a [u8]),
    Fcntl(&'a [u8]),
    Open(&'a [u8], &'a [u8]),
    OnPath(PathCall, &'a [u8]),
    RenameAt(Dir, &'a [u8], Dir, &'a [u8]),
    Other(&'a [u8], &'a [u8]),
}

/// The call itself.
fn call_of<'a>(asked: &Asked<'a>) -> Call<'a> {
    match asked {
        Asked::Closefrom => Call::OnFd(FdCall::Closefrom, 3),
        Asked::Accept4(flags) => Call::Accept4(3, flags),
        Asked::Fcntl(command) => Call::Fcntl(3, command),
        Asked::Open(path, flags) => Call::Open(path, flags),
        Asked::OnPath(name, path) => Call::OnPath(*name, path),
        Asked::RenameAt(from, old, to, new) => Call::RenameAt(*from, old, *to, new),
        Asked::Other(name, arguments) => Call::Other(name, arguments),
    }
}

/// Whether a line of a call is made, with this text.
fn makes_call(alloc: Global, pid: u32, asked: &Asked<'_>, made: u64, text: &[u8]) -> bool {
    let call = call_of(asked);
    let answer = Answer::Made(made);
    makes(alloc, pid, &Item::Call { call, answer }, text)
}

/// A process, its call, what that answered, and the text of the line; none where it can't be made.
type Making<'a> = (u32, Asked<'a>, u64, &'a [u8]);

static MAKINGS: [Making<'static>; 10] = [
    (
        100,
        Asked::Fcntl(b"F_GETFL"),
        3,
        b"100 fcntl(3,F_GETFL) RET 3",
    ),
    // A call without a form.
    (
        100,
        Asked::Other(b"kevent", b"3,0"),
        3,
        b"100 kevent(3,0) RET 3",
    ),
    // A rename between directories.
    (
        100,
        Asked::RenameAt(Dir::Fd(3), b"a", Dir::Cwd, b"of/15/bytes/abc"),
        0,
        b"100 renameat(3,\"a\",AT_FDCWD,\"of/15/bytes/abc\") RET 0",
    ),
    // A line of no process.
    (0, Asked::Fcntl(b"F_GETFL"), 3, b""),
    // An answer of another kind.
    (1, Asked::Closefrom, 1, b""),
    // A line that is too long.
    (
        1,
        Asked::OnPath(PathCall::Stat, &[b'x'; LONGEST_LINE]),
        1,
        b"",
    ),
    // Bad flags.
    (1, Asked::Accept4(b"O_RDONLY|"), 4, b""),
    // A command that asks for more.
    (1, Asked::Fcntl(b"F_SETFD"), 0, b""),
    // A name with a form.
    (1, Asked::Other(b"read", b"3"), 1, b""),
    // Arguments with a bracket.
    (1, Asked::Other(b"foo", b"("), 1, b""),
];

#[test]
fn a_line_is_made_where_it_can_be(rt: HostRuntime) {
    for (pid, asked, made, text) in &MAKINGS {
        assert!(rt; makes_call(rt.alloc(), *pid, asked, *made, text));
    }
}

/// Whether the example of the crate's documentation is made.
fn is_example_made(alloc: Global) -> bool {
    match Path::escape(alloc, b"/tmp/a\nb") {
        Ok(path) => {
            let asked = Asked::OnPath(PathCall::Unlink, path.as_bytes());
            makes_call(alloc, 100, &asked, 0, b"100 unlink(\"/tmp/a\\x0ab\") RET 0")
        }
        Err(_) => false,
    }
}

/// The example of the crate's documentation: making a line.
#[test]
fn the_example_is_made(rt: HostRuntime) {
    assert!(rt; is_example_made(rt.alloc()));
}

/// Whether an open is made of a path that is spelled.
fn is_open_made(alloc: Global) -> bool {
    match Path::new(alloc, b"a\\x0a") {
        Ok(path) => {
            let asked = Asked::Open(path.as_bytes(), b"O_RDONLY|O_CLOEXEC");
            makes_call(
                alloc,
                100,
                &asked,
                3,
                b"100 open(\"a\\x0a\",O_RDONLY|O_CLOEXEC) RET 3",
            )
        }
        Err(_) => false,
    }
}

#[test]
fn an_open_is_made(rt: HostRuntime) {
    assert!(rt; is_open_made(rt.alloc()));
}

/// Whether a start is made of descriptors.
fn is_start_made(alloc: Global) -> bool {
    // Names the type of a part of an item, which the check has to be told.
    let _none: Option<Call<'_>> = None;
    match Fds::new(alloc, &[0, 3]) {
        Ok(fds) => makes(alloc, 7, &Item::Start(fds.as_bytes()), b"7 @start(0,3)"),
        Err(_) => false,
    }
}

#[test]
fn a_start_is_made(rt: HostRuntime) {
    assert!(rt; is_start_made(rt.alloc()));
}

/// Bytes with the text of their path.
static ESCAPED: [(&[u8], &[u8]); 4] = [
    (b"/etc/x y", b"/etc/x y"),
    (b"a\"b\\c", b"a\\\"b\\\\c"),
    (b"\n\x7f", b"\\x0a\\x7f"),
    (&[0xc3, 0xbf, 0x01], b"\\xc3\\xbf\\x01"),
];

/// Whether a path says these bytes.
fn says(alloc: Global, path: &Path, bytes: &[u8]) -> bool {
    match path.unescape(alloc) {
        Ok(said) => said.as_slice() == bytes,
        Err(_) => false,
    }
}

/// Whether bytes have this text as a path, which says them.
fn is_escaped(alloc: Global, bytes: &[u8], text: &[u8]) -> bool {
    match Path::escape(alloc, bytes) {
        Ok(path) => path.as_bytes() == text && says(alloc, &path, bytes),
        Err(_) => false,
    }
}

#[test]
fn paths_are_escaped(rt: HostRuntime) {
    for (bytes, text) in &ESCAPED {
        assert!(rt; is_escaped(rt.alloc(), bytes, text));
    }
}

/// Paths with a bare quote or a zero, and descriptors that don't rise.
#[test]
fn bad_parts_are_not_made(rt: HostRuntime) {
    let alloc = rt.alloc();
    assert!(rt;
        refused(Path::new(alloc, b"a\"b")) == 4
            && refused(Path::escape(alloc, b"a\0b")) == 4
            && refused(Fds::new(alloc, &[3, 3])) == 4
    );
}

#[test]
fn texts_are_tested_by_their_kind(rt: HostRuntime) {
    assert!(rt;
        is_valid_flags(b"O_RDONLY|O_CLOEXEC")
            && !is_valid_flags(b"O_RDONLY|")
            && is_valid_command(b"F_GETFL")
            && !is_valid_command(b"F_SETFD")
            && is_valid_name(b"kevent")
            && !is_valid_name(b"read")
            && is_valid_arguments(b"3,0")
            && !is_valid_arguments(b"3)")
    );
}

/// Texts with the number, of at most 65,535, that they spell.
static NUMBERS: [(&[u8], Option<u64>); 6] = [
    (b"0", Some(0)),
    (b"65535", Some(65_535)),
    (b"65536", None),
    (b"007", None),
    (b"", None),
    (b"-1", None),
];

#[test]
fn numbers_are_read(rt: HostRuntime) {
    for (text, number) in &NUMBERS {
        assert!(rt; number_of(65_535, text) == *number);
    }
}

/// Whether a number is written so.
fn is_number(alloc: Global, number: u64, text: &[u8]) -> bool {
    let mut out = Vec::new(alloc);
    put_number(&mut out, number).is_ok() && out.as_slice() == text
}

#[test]
fn numbers_are_written(rt: HostRuntime) {
    assert!(rt; is_number(rt.alloc(), 0, b"0"));
    assert!(rt; is_number(rt.alloc(), u64::MAX, b"18446744073709551615"));
}

/// Whether a fault is printed so.
fn is_shown(alloc: Global, fault: LineFault, text: &str) -> bool {
    match format!(in alloc; "{fault}") {
        Ok(shown) => shown.as_str() == text,
        Err(_) => false,
    }
}

#[test]
fn a_fault_has_a_text(rt: HostRuntime) {
    let text = "the pid is no number from 1 to 99,999";
    assert!(rt; is_shown(rt.alloc(), LineFault::Pid, text));
}
