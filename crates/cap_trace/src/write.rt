//! Writing a line in its one canonical text ([`write_line`]).
//!
//! What a function here wrote before memory ran out stays in the vector; `write_line` takes it off again.

ghost use Rattle.std.specs.Prelude.{◌≡◌, ◌++◌, ◌∷◌, [], length, map, take, OnOk, OnErr};
ghost use Rattle.std.specs.Fmt.{decimal};
ghost use Rattle.std.specs.List.{join_with_byte};
ghost use Rattle.cap_trace.specs.Names.{name_of};
ghost use Rattle.cap_trace.specs.Fields.{quoted};
ghost use Rattle.cap_trace.specs.Entry.{args_of_call, args_of, fds as fd_args, head_of};
ghost use Rattle.cap_trace.specs.Spelling.{Spells, arg_text, answer_text, tail_text, canon};
ghost use Rattle.cap_trace.specs.Views.{call_view, fds_spelled, item_view};
ghost use Rattle.cap_trace.specs.Code.Writing.{shown_text, with_commas};

use crate::args::{ArgRef, Arguments};
use crate::limits::{Fd, Pid};
use crate::line::{Answer, Call, Dir, Item, Line, LineRef};
use crate::parts::fds_of;
use cap_rights::{NoMemory, write_rights};
use itoa::Buffer;
use std::alloc::AllocError;

/// Appends a number in decimal.
///
/// # Errors
///
/// [`AllocError`] where memory ran out. The vector is then as before.
pub fn put_number(out: &mut Vec<u8>, number: u64) -> Result<(), AllocError>
    ensures ok { OnOk result (out.new.items ≡ out.old.items ++ decimal number) }
    ensures err { OnErr result (out.new.items ≡ out.old.items) }
{
    let mut buffer = Buffer::new();
    out.extend_from_slice(buffer.format(number).as_bytes())
}

fn put_path(path: &[u8], out: &mut Vec<u8>) -> Result<(), AllocError>
    ensures ok { OnOk result (out.new.items ≡ out.old.items ++ quoted path.now) }
    ensures err { OnErr result (take (length out.old.items) out.new.items ≡ out.old.items) }
{
    out.extend_from_slice(b"\"")?;
    out.extend_from_slice(path)?;
    out.extend_from_slice(b"\"")
}

fn put_argument(argument: &ArgRef<'_>, out: &mut Vec<u8>) -> Result<(), AllocError>
    ensures ok { OnOk result (out.new.items ≡ out.old.items ++ shown_text argument.now) }
    ensures err { OnErr result (take (length out.old.items) out.new.items ≡ out.old.items) }
{
    match argument {
        ArgRef::Fd(fd) | ArgRef::Dir(Dir::Fd(fd)) => put_number(out, u64::from(*fd)),
        ArgRef::Dir(Dir::Cwd) => out.extend_from_slice(b"AT_FDCWD"),
        ArgRef::Flags(text) | ArgRef::Command(text) | ArgRef::Free(text) => {
            out.extend_from_slice(text)
        }
        ArgRef::Path(path) => put_path(path, out),
        ArgRef::Rights(rights) => write_rights(rights, out).map_err(|_| AllocError),
        ArgRef::Dest => out.extend_from_slice(b"DEST"),
        ArgRef::SetFd => out.extend_from_slice(b"F_SETFD"),
        ArgRef::DupTo(command) => out.extend_from_slice(command.name()),
    }
}

/// Each argument after a comma.
fn put_others(others: &[ArgRef<'_>], out: &mut Vec<u8>) -> Result<(), AllocError>
    ensures ok { OnOk result (out.new.items ≡ out.old.items ++ with_commas (map shown_text others.now)) }
    ensures err { OnErr result (take (length out.old.items) out.new.items ≡ out.old.items) }
{
    for other in others {
        out.extend_from_slice(b",")?;
        put_argument(other, out)?;
    }
    Ok(())
}

/// The arguments, with commas between them.
fn put_arguments(arguments: &[ArgRef<'_>], out: &mut Vec<u8>) -> Result<(), AllocError>
    ensures ok { OnOk result (out.new.items ≡ out.old.items ++ join_with_byte 44 (map shown_text arguments.now)) }
    ensures err { OnErr result (take (length out.old.items) out.new.items ≡ out.old.items) }
{
    match arguments {
        [] => Ok(()),
        [first, others @ ..] => {
            put_argument(first, out)?;
            put_others(others, out)
        }
    }
}

/// The arguments of a call.
fn put_call(call: &Call<'_>, out: &mut Vec<u8>) -> Result<(), AllocError>
    ensures ok { OnOk result
        (out.new.items ≡ out.old.items ++ join_with_byte 44 (map arg_text (args_of_call (call_view call.now)))) }
    ensures err { OnErr result (take (length out.old.items) out.new.items ≡ out.old.items) }
{
    match call.args() {
        Arguments::Zero => Ok(()),
        Arguments::One(a) => put_arguments(&[a], out),
        Arguments::Two(a, b) => put_arguments(&[a, b], out),
        Arguments::Three(a, b, c) => put_arguments(&[a, b, c], out),
        Arguments::Four(a, b, c, d) => put_arguments(&[a, b, c, d], out),
        Arguments::Five(a, b, c, d, e) => put_arguments(&[a, b, c, d, e], out),
    }
}

/// Each descriptor after a comma.
fn put_other_fds(others: &[Fd], out: &mut Vec<u8>) -> Result<(), AllocError>
    ensures ok { OnOk result (out.new.items ≡ out.old.items ++ with_commas (map decimal others.now)) }
    ensures err { OnErr result (take (length out.old.items) out.new.items ≡ out.old.items) }
{
    for other in others {
        out.extend_from_slice(b",")?;
        put_number(out, u64::from(*other))?;
    }
    Ok(())
}

/// Descriptors, with commas between them.
pub(crate) fn put_fds(fds: &[Fd], out: &mut Vec<u8>) -> Result<(), AllocError>
    ensures ok { OnOk result (out.new.items ≡ out.old.items ++ join_with_byte 44 (map arg_text (fd_args fds.now))) }
    ensures err { OnErr result (take (length out.old.items) out.new.items ≡ out.old.items) }
{
    match fds {
        [] => Ok(()),
        [first, others @ ..] => {
            put_number(out, u64::from(*first))?;
            put_other_fds(others, out)
        }
    }
}

/// The descriptors of a start.
fn put_start(spelled: &[u8], out: &mut Vec<u8>) -> Result<(), AllocError>
    ensures ok { OnOk result (out.new.items ≡ out.old.items ++ join_with_byte 44 (map arg_text (fd_args (fds_spelled spelled.now)))) }
    ensures err { OnErr result (take (length out.old.items) out.new.items ≡ out.old.items) }
{
    match fds_of(*out.allocator(), spelled) {
        Ok(fds) => put_fds(&fds, out),
        Err(_) => Err(AllocError),
    }
}

/// What is between the brackets.
fn put_between(item: &Item<'_>, out: &mut Vec<u8>) -> Result<(), AllocError>
    ensures ok { OnOk result (out.new.items ≡ out.old.items
        ++ join_with_byte 44 (map arg_text (args_of (item_view item.now)))) }
    ensures err { OnErr result (take (length out.old.items) out.new.items ≡ out.old.items) }
{
    match item {
        Item::Call { call, .. } => put_call(call, out),
        Item::Start(fds) => put_start(fds, out),
        Item::Exit | Item::Global => Ok(()),
        Item::Foreign(fd) => put_number(out, u64::from(*fd)),
        Item::Needs(_, fd, rights) => {
            put_arguments(&[ArgRef::Fd(*fd), ArgRef::Rights(*rights)], out)
        }
    }
}

fn put_answer(answer: &Answer, out: &mut Vec<u8>) -> Result<(), AllocError>
    ensures ok { OnOk result (out.new.items ≡ out.old.items ++ answer_text answer.now) }
    ensures err { OnErr result (take (length out.old.items) out.new.items ≡ out.old.items) }
{
    match answer {
        Answer::Made(number) => put_number(out, *number),
        Answer::Pair(first, second) => {
            put_number(out, *first)?;
            out.extend_from_slice(b",")?;
            put_number(out, *second)
        }
        Answer::Fault(errno) => {
            out.extend_from_slice(b"-1 errno ")?;
            put_number(out, u64::from(*errno))
        }
    }
}

/// What follows the closing bracket.
fn put_tail(item: &Item<'_>, out: &mut Vec<u8>) -> Result<(), AllocError>
    ensures ok { OnOk result (out.new.items ≡ out.old.items ++ tail_text (item_view item.now)) }
    ensures err { OnErr result (take (length out.old.items) out.new.items ≡ out.old.items) }
{
    match item {
        Item::Call { answer, .. } => {
            out.extend_from_slice(b" RET ")?;
            put_answer(answer, out)
        }
        _ => Ok(()),
    }
}

/// What is before the arguments.
fn put_head(pid: Pid, item: &Item<'_>, out: &mut Vec<u8>) -> Result<(), AllocError>
    ensures ok { OnOk result
        (out.new.items ≡ out.old.items ++ (decimal pid ++ (32 ∷ (name_of (head_of (item_view item.now)) ++ 40 ∷ [])))) }
    ensures err { OnErr result (take (length out.old.items) out.new.items ≡ out.old.items) }
{
    put_number(out, u64::from(pid))?;
    out.extend_from_slice(b" ")?;
    out.extend_from_slice(item.head().name())?;
    out.extend_from_slice(b"(")
}

/// The canonical text of what a line of this process says, whether or not it is a line.
pub(crate) fn put_text(pid: Pid, item: &Item<'_>, out: &mut Vec<u8>) -> Result<(), AllocError>
    ensures ok { OnOk result (out.new.items ≡ out.old.items
        ++ canon (record { pid = pid; item = item_view item.now })) }
    ensures err { OnErr result (take (length out.old.items) out.new.items ≡ out.old.items) }
{
    put_head(pid, item, out)?;
    put_between(item, out)?;
    out.extend_from_slice(b")")?;
    put_tail(item, out)
}

/// Appends the one canonical text of a line, without a line feed. It spells the line, so it has at most
/// 1,024 bytes. But for rights, which are named in the order of their table, it is the text that was read.
///
/// # Errors
///
/// [`NoMemory`] where memory ran out. The vector is then as before.
pub fn write_line(line: &Line, out: &mut Vec<u8>) -> Result<(), NoMemory>
    ensures ok { OnOk result (out.new.items ≡ out.old.items ++ canon line.now) }
    ensures spelled { Spells (canon line.now) line.now }
    ensures err { OnErr result (out.new.items ≡ out.old.items) }
{
    let start = out.len();
    let LineRef { pid, item } = line.view();
    // Names the type of a part of what is held, which the check has to be told.
    let _none: Option<Call<'_>> = None;
    match put_text(pid, &item, out) {
        Ok(()) => Ok(()),
        Err(_) => {
            out.truncate(start);
            Err(NoMemory)
        }
    }
}
