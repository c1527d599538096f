//! Reading the fields of a line over its bytes. Nothing here takes memory.

ghost use Rattle.std.specs.Prelude.{◌≤◌, IfOk};
ghost use Rattle.cap_trace.specs.Limits.{largest_fd};
ghost use Rattle.cap_trace.specs.Reading.{Gives, pid_at, fd_at, rights_at, dir_at, flags_at, command_at, path_at};
ghost use Rattle.cap_trace.specs.Reading.{free_at};

use crate::fault::FirstFault;
use crate::fields::{is_valid_arguments, is_valid_command, is_valid_flags, items};
use crate::limits::{Fd, LARGEST_FD, LARGEST_PID, Pid};
use crate::line::Dir;
use crate::number::number_of;
use cap_rights::{RightSet, parse_rights};

#[tactic(auto, unfolding(crate::specs::Reading::pid_at))]
pub(crate) fn pid_of(text: &[u8]) -> Result<Pid, FirstFault>
    ensures { Gives (λ p. p) result (pid_at text.now) }
{
    match number_of(u64::from(LARGEST_PID), text) {
        Some(pid) if pid != 0 => Ok(pid as u32),
        _ => Err(FirstFault::Pid),
    }
}

#[tactic(auto, unfolding(crate::specs::Reading::fd_at))]
pub(crate) fn fd_of(text: &[u8]) -> Result<Fd, FirstFault>
    ensures value { Gives (λ f. f) result (fd_at text.now) }
    ensures bound { IfOk result (λ f. f ≤ largest_fd) }
{
    match number_of(u64::from(LARGEST_FD), text) {
        Some(fd) => Ok(fd as u32),
        None => Err(FirstFault::Argument),
    }
}

#[tactic(auto, unfolding(crate::specs::Reading::rights_at))]
pub(crate) fn rights_of(text: &[u8]) -> Result<RightSet, FirstFault>
    ensures { Gives (λ r. r) result (rights_at text.now) }
{
    parse_rights(text).map_err(|_| FirstFault::Right)
}

#[tactic(auto, unfolding(crate::specs::Reading::dir_at))]
pub(crate) fn dir_of(text: &[u8]) -> Result<Dir, FirstFault>
    ensures { Gives (λ d. d) result (dir_at text.now) }
{
    if text == b"AT_FDCWD".as_slice() {
        return Ok(Dir::Cwd);
    }
    Ok(Dir::Fd(fd_of(text)?))
}

#[tactic(auto, unfolding(crate::specs::Reading::flags_at))]
pub(crate) fn flags_of(text: &[u8]) -> Result<&[u8], FirstFault>
    ensures { Gives (λ f. f.now) result (flags_at text.now) }
{
    is_valid_flags(text)
        .then_some(text)
        .ok_or(FirstFault::Argument)
}

#[tactic(auto, unfolding(crate::specs::Reading::command_at))]
pub(crate) fn command_of(text: &[u8]) -> Result<&[u8], FirstFault>
    ensures { Gives (λ c. c.now) result (command_at text.now) }
{
    is_valid_command(text)
        .then_some(text)
        .ok_or(FirstFault::Argument)
}

/// What is between the quotes.
#[tactic(auto, unfolding(crate::specs::Reading::path_at))]
pub(crate) fn path_of(text: &[u8]) -> Result<&[u8], FirstFault>
    ensures { Gives (λ p. p.now) result (path_at text.now) }
{
    let Some(opened) = text.strip_prefix(b"\"".as_slice()) else {
        return Err(FirstFault::Argument);
    };
    match opened.strip_suffix(b"\"".as_slice()) {
        Some(inside) if items(inside) => Ok(inside),
        _ => Err(FirstFault::Argument),
    }
}

#[tactic(auto, unfolding(crate::specs::Reading::free_at))]
pub(crate) fn free_of(text: &[u8]) -> Result<&[u8], FirstFault>
    ensures { Gives (λ a. a.now) result (free_at text.now) }
{
    is_valid_arguments(text)
        .then_some(text)
        .ok_or(FirstFault::Shape)
}
