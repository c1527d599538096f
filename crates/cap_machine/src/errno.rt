//! The errnos that the rules know (errno(2)).

/// EBADF: there is no such descriptor.
pub(crate) const EBADF: u16 = 9;

/// ENOTCAPABLE: a descriptor lacks rights.
pub(crate) const ENOTCAPABLE: u16 = 93;

/// ECAPMODE: not permitted in capability mode.
pub(crate) const ECAPMODE: u16 = 94;
