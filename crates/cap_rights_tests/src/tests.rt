//! Worked rows: texts of rights with what is written for them again, and sets of rights. A small function says whether a
//! row holds. It doesn't where memory has run out, except where an allocation is refused on purpose.

use cap_rights::{BadRight, NoMemory, RightBits, RightSet, parse_rights, write_rights};
use std::alloc::{AllocError, AllocFailed, Global};

/// All 63 rights by name, which is not FULL.
const EVERY_NAME: &str =
    "CAP_READ|CAP_WRITE|CAP_SEEK|CAP_MMAP|CAP_MMAP_X|CAP_CREATE|CAP_FEXECVE|CAP_FSYNC|CAP_FTRUNCATE|\
    CAP_LOOKUP|CAP_FCHDIR|CAP_FCHFLAGS|CAP_FCHMOD|CAP_FCHOWN|CAP_FCNTL|CAP_FLOCK|CAP_FPATHCONF|CAP_FSCK|\
    CAP_FSTAT|CAP_FSTATFS|CAP_FUTIMES|CAP_LINKAT_TARGET|CAP_MKDIRAT|CAP_MKFIFOAT|CAP_MKNODAT|\
    CAP_RENAMEAT_SOURCE|CAP_SYMLINKAT|CAP_UNLINKAT|CAP_ACCEPT|CAP_BIND|CAP_CONNECT|CAP_GETPEERNAME|\
    CAP_GETSOCKNAME|CAP_GETSOCKOPT|CAP_LISTEN|CAP_PEELOFF|CAP_SETSOCKOPT|CAP_SHUTDOWN|CAP_BINDAT|\
    CAP_CONNECTAT|CAP_LINKAT_SOURCE|CAP_RENAMEAT_TARGET|CAP_MAC_GET|CAP_MAC_SET|CAP_SEM_GETVALUE|\
    CAP_SEM_POST|CAP_SEM_WAIT|CAP_EVENT|CAP_KQUEUE_EVENT|CAP_IOCTL|CAP_TTYHOOK|CAP_PDGETPID|CAP_PDWAIT|\
    CAP_PDKILL|CAP_EXTATTR_DELETE|CAP_EXTATTR_GET|CAP_EXTATTR_LIST|CAP_EXTATTR_SET|CAP_ACL_CHECK|\
    CAP_ACL_DELETE|CAP_ACL_GET|CAP_ACL_SET|CAP_KQUEUE_CHANGE";

/// Texts, and what is written for each again.
static WRITTEN: [(&str, &str); 7] = [
    (
        "CAP_WRITE|CAP_PREAD|CAP_READ",
        "CAP_READ|CAP_WRITE|CAP_SEEK",
    ),
    (
        "CAP_MMAP_RWX",
        "CAP_READ|CAP_WRITE|CAP_SEEK|CAP_MMAP|CAP_MMAP_X",
    ),
    ("CAP_FSTATAT", "CAP_LOOKUP|CAP_FSTAT"),
    ("CAP_UNLINKAT|CAP_UNLINKAT", "CAP_LOOKUP|CAP_UNLINKAT"),
    ("ALL", "ALL"),
    ("NONE", "NONE"),
    (EVERY_NAME, EVERY_NAME),
];

/// Whether this text is written for a set.
fn is_written(alloc: Global, rights: &RightSet, text: &str) -> bool {
    let mut out = Vec::new(alloc);
    write_rights(rights, &mut out).is_ok() && out.as_slice() == text.as_bytes()
}

/// Whether this text is written for the set that a text names.
fn is_written_again(alloc: Global, text: &str, again: &str) -> bool {
    match parse_rights(text.as_bytes()) {
        Ok(rights) => is_written(alloc, &rights, again),
        Err(_) => false,
    }
}

#[test]
fn texts_are_read_and_written_again(rt: HostRuntime) {
    for (text, again) in &WRITTEN {
        assert!(rt; is_written_again(rt.alloc(), text, again));
    }
}

/// Texts of no set of rights.
static REFUSED: [&str; 5] = ["", "ALL|CAP_READ", "CAP_READ|", "cap_read", "CAP_SEEK_TELL"];

#[test]
fn other_texts_are_refused(rt: HostRuntime) {
    for text in &REFUSED {
        assert!(rt; matches!(parse_rights(text.as_bytes()), Err(BadRight)));
    }
}

/// Whether the example of the crate holds.
fn example_holds() -> bool {
    let need = RightSet::named(RightBits::CAP_PWRITE);
    match parse_rights(b"CAP_READ|CAP_SEEK") {
        Ok(rights) => {
            !rights.has_all(&need) && need.minus(&rights) == RightSet::named(RightBits::CAP_WRITE)
        }
        Err(_) => false,
    }
}

#[test]
fn the_example_of_the_crate(rt: HostRuntime) {
    assert!(rt; example_holds());
}

/// Whether a set is all rights by name, which is not FULL.
fn is_every_name(every: &RightSet) -> bool {
    let all = RightSet::all();
    all.has_all(every)
        && !every.has_all(&all)
        && all.minus(every) == RightSet::none()
        && all.meet(every) == *every
}

/// Whether the set of all names is that.
fn all_are_named() -> bool {
    match parse_rights(EVERY_NAME.as_bytes()) {
        Ok(every) => is_every_name(&every),
        Err(_) => false,
    }
}

/// Whether reading and seeking make the right to read at a place.
fn two_are_joined() -> bool {
    let read = RightSet::named(RightBits::CAP_READ);
    let seek = RightSet::named(RightBits::CAP_SEEK);
    read.join(&seek) == RightSet::named(RightBits::CAP_PREAD)
}

#[test]
fn sets_hold_what_they_should(rt: HostRuntime) {
    assert!(rt; all_are_named() && two_are_joined());
}

/// Whether a set is printed so, also for debugging.
fn is_shown(alloc: Global, rights: RightSet, text: &str) -> bool {
    match format!(in alloc; "{rights} {rights:?}") {
        Ok(shown) => shown.as_str() == text,
        Err(_) => false,
    }
}

/// Whether the sets of all rights and of none are printed so.
fn ends_are_shown(alloc: Global, text: &str) -> bool {
    match format!(in alloc; "{} {}", RightSet::all(), RightSet::none()) {
        Ok(shown) => shown.as_str() == text,
        Err(_) => false,
    }
}

/// Whether both errors are printed so.
fn errors_are_shown(alloc: Global, text: &str) -> bool {
    match format!(in alloc; "{BadRight} {NoMemory}") {
        Ok(shown) => shown.as_str() == text,
        Err(_) => false,
    }
}

#[test]
fn sets_are_printed_as_their_text(rt: HostRuntime) {
    let pread = RightSet::named(RightBits::CAP_PREAD);
    let text = "CAP_READ|CAP_SEEK RightSet(CAP_READ|CAP_SEEK)";
    assert!(rt; is_shown(rt.alloc(), pread, text) && ends_are_shown(rt.alloc(), "ALL NONE"));
}

#[test]
fn errors_are_printed_as_their_text(rt: HostRuntime) {
    assert!(rt; errors_are_shown(rt.alloc(), "not a set of rights out of memory"));
}

/// Asks for more than there can be.
fn too_much(alloc: Global) -> Result<Vec<u8>, NoMemory> {
    Ok(Vec::with_capacity(alloc, 1 << 62)?)
}

#[test]
fn a_refused_allocation_is_no_memory(rt: HostRuntime) {
    assert!(rt;
        matches!(too_much(rt.alloc()), Err(NoMemory))
            && NoMemory::from(AllocError) == NoMemory
            && NoMemory::from(AllocFailed { value: 1 }) == NoMemory
    );
}
