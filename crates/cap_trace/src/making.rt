//! Making a line of what a producer of traces knows.

ghost use Rattle.std.specs.Prelude.{◌≡◌, ◌&&◌, IfOk};
ghost use Rattle.std.specs.List.{list_all};
ghost use Rattle.cap_trace.specs.declared.fault.LineFault.TheVariants.{Argument};
ghost use Rattle.cap_trace.specs.declared.line.Answer.TheVariants as answers;
ghost use Rattle.cap_trace.specs.Views.{fds_spelled};
ghost use Rattle.cap_trace.specs.Names.{unlisted};
ghost use Rattle.cap_trace.specs.Entry.{args_of_call, head_of_call};
ghost use Rattle.cap_trace.specs.Views.{arg_view, call_view, item_view};
ghost use Rattle.cap_trace.specs.Spelling.{canon};
ghost use Rattle.cap_trace.specs.Code.Making.{MakesWhere, IsLineOf, is_fd, is_pid, is_good, are_good, is_head, is_answer};
ghost use Rattle.cap_trace.specs.Code.Making.{all_rise, is_good_item, is_named, has_named_rights};

use crate::args::{ArgRef, Arguments};
use crate::calls::ResultKind;
use crate::fault::LineFault;
use crate::fields::{is_valid_arguments, is_valid_command, is_valid_flags, items};
use crate::limits::{Fd, LARGEST_FD, LARGEST_PID, LONGEST_LINE, Pid};
use crate::line::{Answer, Call, Dir, Item, Line};
use crate::names::{form_of, is_call_name};
use crate::parts::fds_of;
use crate::write::{put_fds, put_text};
use cap_rights::{NoMemory, RightSet, parse_rights, write_rights};
use std::alloc::Global;
use std::marker::Model;

/// Whether a text is the name of a call that has no form of its own: of `a` to `z`, `0` to `9` and `_`, not beginning
/// with a digit, and no name that has a form.
pub fn is_valid_name(text: &[u8]) -> bool
    ensures { result ≡ is_head (unlisted text.now) }
{
    is_call_name(text) && form_of(text).is_none()
}

fn fd_fits(fd: Fd) -> bool
    ensures { result ≡ is_fd fd }
{
    fd <= LARGEST_FD
}

/// Whether each descriptor is above the one before it.
#[tactic(auto, unfolding(crate::specs::Code::Making::all_rise))]
fn rise(fds: &[Fd]) -> bool
    ensures { result ≡ all_rise 0 fds.now }
{
    let mut low = 0;
    for fd in fds {
        if *fd < low || !fd_fits(*fd) {
            return false;
        }
        low = *fd + 1;
    }
    true
}

/// Whether an argument has a text; of rights see `rights_are_named`.
fn arg_fits(arg: &ArgRef<'_>) -> bool
    ensures { result ≡ is_good (arg_view arg.now) }
{
    match arg {
        ArgRef::Fd(fd) | ArgRef::Dir(Dir::Fd(fd)) => fd_fits(*fd),
        ArgRef::Flags(text) => is_valid_flags(text),
        ArgRef::Path(text) => items(text),
        ArgRef::Command(text) => is_valid_command(text),
        ArgRef::Free(text) => is_valid_arguments(text),
        ArgRef::Dir(Dir::Cwd)
        | ArgRef::Rights(_)
        | ArgRef::Dest
        | ArgRef::SetFd
        | ArgRef::DupTo(_) => true,
    }
}

fn args_fit(call: &Call<'_>) -> bool
    ensures { result ≡ are_good (args_of_call (call_view call.now)) }
{
    match call.args() {
        Arguments::Zero => true,
        Arguments::One(a) => all_fit(&[a]),
        Arguments::Two(a, b) => all_fit(&[a, b]),
        Arguments::Three(a, b, c) => all_fit(&[a, b, c]),
        Arguments::Four(a, b, c, d) => all_fit(&[a, b, c, d]),
        Arguments::Five(a, b, c, d, e) => all_fit(&[a, b, c, d, e]),
    }
}

fn all_fit(args: &[ArgRef<'_>]) -> bool
    ensures { result ≡ list_all (λ a. is_good (arg_view a)) args.now }
{
    args.iter().all(|arg| arg_fits(arg))
}

fn name_fits(call: &Call<'_>) -> bool
    ensures { result ≡ is_head (head_of_call (call_view call.now)) }
{
    match call {
        Call::Other(name, _) => is_valid_name(name),
        _ => true,
    }
}

/// Whether a number is an answer of this kind.
fn number_fits(kind: ResultKind, number: u64) -> bool
    ensures { result ≡ is_answer kind (answers.Made number) }
{
    match kind {
        ResultKind::Count | ResultKind::Any => true,
        ResultKind::Zero => number == 0,
        ResultKind::Fd => number <= u64::from(LARGEST_FD),
        ResultKind::Same(fd) => number == u64::from(fd) && number <= u64::from(LARGEST_FD),
        ResultKind::Child => number <= u64::from(LARGEST_PID),
        ResultKind::FdPair | ResultKind::ChildAndFd => false,
    }
}

/// Whether two numbers are an answer of this kind.
fn pair_fits(kind: ResultKind, first: u64, second: u64) -> bool
    ensures { result ≡ is_answer kind (answers.Pair first second) }
{
    match kind {
        ResultKind::Any => true,
        ResultKind::FdPair => first <= u64::from(LARGEST_FD) && second <= u64::from(LARGEST_FD),
        ResultKind::ChildAndFd => first <= u64::from(LARGEST_PID)
            && second <= u64::from(LARGEST_FD),
        ResultKind::Count
        | ResultKind::Zero
        | ResultKind::Fd
        | ResultKind::Same(_)
        | ResultKind::Child => false,
    }
}

fn answer_fits(kind: ResultKind, answer: Answer) -> bool
    ensures { result ≡ is_answer kind answer }
{
    match answer {
        Answer::Made(number) => number_fits(kind, number),
        Answer::Pair(first, second) => pair_fits(kind, first, second),
        Answer::Fault(errno) => errno != 0,
    }
}

fn item_fits(alloc: Global, item: &Item<'_>) -> Result<bool, NoMemory>
    ensures { IfOk result (λ b. b ≡ is_good_item (item_view item.now)) }
{
    Ok(match item {
        Item::Call { call, answer } => {
            args_fit(call) && name_fits(call) && answer_fits(call.kind(), *answer)
        }
        Item::Start(fds) => rise(&fds_of(alloc, fds)?),
        Item::Exit | Item::Global => true,
        Item::Foreign(fd) | Item::Needs(_, fd, _) => fd_fits(*fd),
    })
}

/// Whether the text that is written for a set of rights is read as that set.
fn is_read_again(alloc: Global, rights: &RightSet) -> Result<bool, NoMemory>
    ensures { IfOk result (λ b. b ≡ is_named rights.now) }
{
    let mut text = Vec::new(alloc);
    write_rights(rights, &mut text)?;
    match parse_rights(&text) {
        Ok(read) => Ok(read == *rights),
        Err(_) => Ok(false),
    }
}

fn rights_are_named(alloc: Global, item: &Item<'_>) -> Result<bool, NoMemory>
    ensures { IfOk result (λ b. b ≡ has_named_rights (item_view item.now)) }
{
    match item {
        Item::Call {
            call: Call::RightsLimit(_, rights),
            ..
        }
        | Item::Needs(_, _, rights) => is_read_again(alloc, rights),
        _ => Ok(true),
    }
}

fn fields_fit(alloc: Global, pid: Pid, item: &Item<'_>) -> Result<bool, NoMemory>
    ensures { IfOk result (λ b. b ≡
        (is_pid pid && is_good_item (item_view item.now) && has_named_rights (item_view item.now))) }
{
    if 0 < pid && pid <= LARGEST_PID && item_fits(alloc, item)? {
        rights_are_named(alloc, item)
    } else {
        Ok(false)
    }
}

/// The canonical text of what a line of this process says, whether or not it is a line.
fn text_of(alloc: Global, pid: Pid, item: &Item<'_>) -> Result<Vec<u8>, NoMemory>
    ensures { IfOk result (λ v. v.items ≡ canon (record { pid = pid; item = item_view item.now })) }
{
    let mut text = Vec::new(alloc);
    put_text(pid, item, &mut text)?;
    Ok(text)
}

/// Descriptors, each above the one before it, as a start spells them ([`Item::Start`]).
#[derive(Debug, Drop)]
pub struct Fds {
    text: Vec<u8>,
}

impl Model for Fds {
    ghost use Rattle.std.specs.Prelude.{List, ℕ};
    ghost use Rattle.cap_trace.specs.Views.{fds_spelled};

    ghost Value = { List ℕ };

    ghost view = { λ f. fds_spelled f.text.items };
}

impl Fds {
    /// These descriptors, each at most 1,048,575 and above the one before it.
    ///
    /// # Errors
    ///
    /// [`LineFault::Argument`] where one is not; [`LineFault::Memory`] where memory ran out.
    pub fn new(alloc: Global, fds: &[Fd]) -> Result<Fds, LineFault>
        ensures { MakesWhere (all_rise 0 fds.now) Argument fds.now result }
    {
        if !rise(fds) {
            return Err(LineFault::Argument);
        }
        let mut text = Vec::new(alloc);
        match put_fds(fds, &mut text) {
            Ok(()) => Ok(Fds { text }),
            Err(_) => Err(LineFault::Memory),
        }
    }

    /// How they are spelled, with commas between them.
    pub fn as_bytes(&self) -> &[u8]
        ensures { fds_spelled result.now ≡ self.now }
    {
        &self.text
    }
}

impl Line {
    /// The line of this process that says this, where some text spells it: its numbers are in their ranges, each text
    /// of it is one of its kind, its answer is one that its call can have, and its canonical text has at most 1,024
    /// bytes. Else none.
    ///
    /// The names of a set of rights can stand for more rights than the set holds (`CAP_MMAP_X` stands for `CAP_MMAP`
    /// too): no text spells such a set.
    ///
    /// # Errors
    ///
    /// [`NoMemory`] where memory ran out.
    pub fn new(alloc: Global, pid: Pid, item: &Item<'_>) -> Result<Option<Line>, NoMemory>
        ensures { IfOk result (λ o. IsLineOf (record { pid = pid; item = item_view item.now }) o) }
    {
        if !fields_fit(alloc, pid, item)? {
            return Ok(None);
        }
        let text = text_of(alloc, pid, item)?;
        let is_short = text.len() <= LONGEST_LINE;
        if is_short {
            Ok(Some(Line { text }))
        } else {
            Ok(None)
        }
    }
}
