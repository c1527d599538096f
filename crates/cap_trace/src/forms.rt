//! Reading the arguments of each form of call and marker. Nothing here takes memory.
#![tactic(auto, unfolding(crate::specs::Reading::event_at, crate::specs::Reading::args_at, crate::specs::Reading::arg_at))]

ghost use Rattle.std.specs.Prelude.{[], ◌∷◌, IsTrue};
ghost use Rattle.cap_trace.specs.declared.calls.Form.TheVariants as forms;
ghost use Rattle.cap_trace.specs.Names.{listed, unlisted};
ghost use Rattle.cap_trace.specs.Quotes.{pieces};
ghost use Rattle.cap_trace.specs.Forms.{a_call};
ghost use Rattle.cap_trace.specs.Reading.{Gives, event_at, fds_from};
ghost use Rattle.cap_trace.specs.Views.{call_view, event_view, fds_in, is_call_form};

use crate::args::Arguments::{Five, Four, One, Three, Two, Zero};
use crate::calls::{DupCommand, Form, SendCall};
use crate::fault::FirstFault;
use crate::line::{Call, Item};
use crate::parts::{Parts, argument_parts};
use crate::scan_fields::{command_of, dir_of, fd_of, flags_of, free_of, path_of, rights_of};

/// A call without its answer, or a marker.
#[derive(Clone, Copy)]
pub(crate) enum Event<'a> {
    Call(Call<'a>),
    Marker(Item<'a>),
}

/// `sendto(fd,DEST)`
fn send_to<'a>(call: SendCall, fd: &[u8], word: &[u8]) -> Result<Call<'a>, FirstFault>
    ensures { Gives (λ c. a_call (call_view c)) result
        (event_at (listed (forms.Send call)) (fd.now ∷ word.now ∷ [])) }
{
    let fd = fd_of(fd)?;
    if word != b"DEST".as_slice() {
        return Err(FirstFault::Argument);
    }
    Ok(Call::SendTo(call, fd))
}

/// `fcntl(fd,F_SETFD,flags)`, `fcntl(fd,F_DUP2FD,fd)`, `fcntl(fd,F_DUP2FD_CLOEXEC,fd)`
fn fcntl_three<'a>(fd: &[u8], word: &[u8], third: &'a [u8]) -> Result<Call<'a>, FirstFault>
    ensures { Gives (λ c. a_call (call_view c)) result
        (event_at (listed forms.Fcntl) (fd.now ∷ word.now ∷ third.now ∷ [])) }
{
    if word == b"F_SETFD".as_slice() {
        return Ok(Call::FcntlSetFd(fd_of(fd)?, flags_of(third)?));
    }
    let command = if word == b"F_DUP2FD".as_slice() {
        DupCommand::FDup2fd
    } else if word == b"F_DUP2FD_CLOEXEC".as_slice() {
        DupCommand::FDup2fdCloexec
    } else {
        return Err(FirstFault::Argument);
    };
    Ok(Call::FcntlDup(command, fd_of(fd)?, fd_of(third)?))
}

/// The arguments of a start: descriptors that rise.
#[tactic(auto, unfolding(crate::specs::Reading::fds_from))]
fn rising(args: &[u8]) -> Result<(), FirstFault>
    ensures { Gives (λ _. fds_in (pieces args.now)) result (fds_from 0 (pieces args.now)) }
{
    let mut parts = Parts::of(args);
    let mut low = 0;
    while let Some(next) = parts.next_fd() {
        let fd = next?;
        if fd < low {
            return Err(FirstFault::Argument);
        }
        low = fd + 1;
    }
    Ok(())
}

/// The arguments of a call that has no form of its own.
pub(crate) fn other<'a>(name: &'a [u8], args: &'a [u8]) -> Result<Call<'a>, FirstFault>
    ensures { Gives (λ c. a_call (call_view c)) result (event_at (unlisted name.now) (args.now ∷ [])) }
{
    Ok(Call::Other(name, free_of(args)?))
}

/// What a call says of one argument.
fn call_of_one<'a>(form: Form, text: &'a [u8]) -> Result<Call<'a>, FirstFault>
    requires { IsTrue (is_call_form form) }
    ensures { Gives (λ c. a_call (call_view c)) result (event_at (listed form) (text.now ∷ [])) }
{
    match form {
        Form::OnFd(call) => Ok(Call::OnFd(call, fd_of(text)?)),
        Form::Send(call) => Ok(Call::Send(call, fd_of(text)?)),
        Form::OnPath(call) => Ok(Call::OnPath(call, path_of(text)?)),
        Form::OnFlags(call) => Ok(Call::OnFlags(call, flags_of(text)?)),
        _ => Err(FirstFault::Argument),
    }
}

/// What a call says of two arguments.
fn call_of_two<'a>(form: Form, first: &'a [u8], second: &'a [u8]) -> Result<Call<'a>, FirstFault>
    requires { IsTrue (is_call_form form) }
    ensures { Gives (λ c. a_call (call_view c)) result (event_at (listed form) (first.now ∷ second.now ∷ [])) }
{
    match form {
        Form::Send(call) => send_to(call, first, second),
        Form::OnPaths(call) => Ok(Call::OnPaths(call, path_of(first)?, path_of(second)?)),
        Form::At(call) => Ok(Call::At(call, dir_of(first)?, path_of(second)?)),
        Form::Accept4 => Ok(Call::Accept4(fd_of(first)?, flags_of(second)?)),
        Form::Dup2 => Ok(Call::Dup2(fd_of(first)?, fd_of(second)?)),
        Form::Fcntl => Ok(Call::Fcntl(fd_of(first)?, command_of(second)?)),
        Form::RightsLimit => Ok(Call::RightsLimit(fd_of(first)?, rights_of(second)?)),
        Form::Open => Ok(Call::Open(path_of(first)?, flags_of(second)?)),
        _ => Err(FirstFault::Argument),
    }
}

/// What a call says of three arguments.
fn call_of_three<'a>(
    form: Form,
    first: &'a [u8],
    second: &'a [u8],
    third: &'a [u8],
) -> Result<Call<'a>, FirstFault>
    requires { IsTrue (is_call_form form) }
    ensures { Gives (λ c. a_call (call_view c)) result
        (event_at (listed form) (first.now ∷ second.now ∷ third.now ∷ [])) }
{
    match form {
        Form::AtFlags(call) => Ok(Call::AtFlags(
            call,
            dir_of(first)?,
            path_of(second)?,
            flags_of(third)?,
        )),
        Form::Fcntl => fcntl_three(first, second, third),
        Form::Mmap => Ok(Call::Mmap(fd_of(first)?, flags_of(second)?, flags_of(third)?)),
        Form::SymlinkAt => Ok(Call::SymlinkAt(path_of(first)?, dir_of(second)?, path_of(third)?)),
        _ => Err(FirstFault::Argument),
    }
}

/// What a call that has a form of its own says, of its arguments.
fn call<'a>(form: Form, args: &'a [u8]) -> Result<Call<'a>, FirstFault>
    requires { IsTrue (is_call_form form) }
    ensures { Gives (λ c. a_call (call_view c)) result (event_at (listed form) (pieces args.now)) }
{
    match (form, argument_parts(args)) {
        (Form::Bare(call), Some(Zero)) => Ok(Call::Bare(call)),
        (_, Some(One(text))) => call_of_one(form, text),
        (_, Some(Two(first, second))) => call_of_two(form, first, second),
        (_, Some(Three(first, second, third))) => call_of_three(form, first, second, third),
        (Form::RenameAt, Some(Four(from, old, to, new))) => {
            Ok(Call::RenameAt(dir_of(from)?, path_of(old)?, dir_of(to)?, path_of(new)?))
        }
        (Form::LinkAt, Some(Five(from, old, to, new, flags))) => {
            let (from, old, to, new) = (dir_of(from)?, path_of(old)?, dir_of(to)?, path_of(new)?);
            Ok(Call::LinkAt(from, old, to, new, flags_of(flags)?))
        }
        _ => Err(FirstFault::Argument),
    }
}

/// What a call or a marker that has a form of its own says, without its answer.
pub(crate) fn event_of<'a>(form: Form, args: &'a [u8]) -> Result<Event<'a>, FirstFault>
    ensures { Gives event_view result (event_at (listed form) (pieces args.now)) }
{
    match form {
        Form::Start => {
            rising(args)?;
            Ok(Event::Marker(Item::Start(args)))
        }
        Form::Exit => match argument_parts(args) {
            Some(Zero) => Ok(Event::Marker(Item::Exit)),
            _ => Err(FirstFault::Argument),
        },
        Form::Foreign => match argument_parts(args) {
            Some(One(fd)) => Ok(Event::Marker(Item::Foreign(fd_of(fd)?))),
            _ => Err(FirstFault::Argument),
        },
        Form::Needs(marker) => match argument_parts(args) {
            Some(Two(fd, rights)) => {
                Ok(Event::Marker(Item::Needs(marker, fd_of(fd)?, rights_of(rights)?)))
            }
            _ => Err(FirstFault::Argument),
        },
        Form::Global => match argument_parts(args) {
            Some(Zero) => Ok(Event::Marker(Item::Global)),
            _ => Err(FirstFault::Argument),
        },
        _ => match call(form, args) {
            Ok(call) => Ok(Event::Call(call)),
            Err(fault) => Err(fault),
        },
    }
}
