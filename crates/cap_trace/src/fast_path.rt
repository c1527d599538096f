//! The fast path: the lines that most traces are made of, read in one pass. Each field ends at the byte after it.
//!
//! A function here gives up with `None` at a field that it doesn't read: any fault, a number of more than seven digits,
//! a path with escapes, a form that [`listed_call`] leaves out, and mostly the last bytes of a text. It finds no fault:
//! the slow path then reads the line. What is read here is spelled by the bytes, and bytes spell at most one line, so
//! the two agree. Most functions are part of their callers (`inline(always)`): what they read stays in registers.

ghost use Rattle.std.specs.Prelude.{◌≡◌, ◌∷◌, ◌++◌, ◌<◌, IfSome, codes, Ok};
ghost use Rattle.std.specs.Fmt.{decimal};
ghost use Rattle.cap_trace.specs.declared.calls.Form.TheVariants as forms;
ghost use Rattle.cap_trace.specs.Call as calls;
ghost use Rattle.cap_trace.specs.Item as items;
ghost use Rattle.cap_trace.specs.Names.{listed, unlisted, row_of};
ghost use Rattle.cap_trace.specs.Code.Rows.{head_view};
ghost use Rattle.cap_trace.specs.Views.{call_view, item_view};
ghost use Rattle.cap_trace.specs.Entry.{an_fd, a_dir, some_flags, a_path, a_command, a_word, free_text, set_fd};
ghost use Rattle.cap_trace.specs.Reading.{answer_at};
ghost use Rattle.cap_trace.specs.Code.FastPath.{Before, SpellsAfter, Starts};

use crate::answers::answer;
use crate::calls::{
    AtFlagsCall, BareCall, FdCall, FlagsCall, Form, NeedsMarker, PathCall, ResultKind,
};
use crate::equal::same_by_ends;
use crate::limits::{Fd, LARGEST_FD, LARGEST_PID, LONGEST_LINE, Pid};
use crate::line::{Answer, Call, Dir, Item, fcntl_kind};
use crate::names::{Head, SHORTEST_NAME, head_of};
use crate::number::digit_of;
use crate::quotes::cut;
use crate::runs::Run;
use crate::scan_fields::{command_of, dir_of, free_of, rights_of};

/// What follows this byte, where a text begins with it.
#[inline(always)]
fn after_byte(byte: u8, text: &[u8]) -> Option<&[u8]>
    ensures { IfSome result (λ r. text.now ≡ byte ∷ r.now) }
{
    match text {
        [first, rest @ ..] if *first == byte => Some(rest),
        _ => None,
    }
}

/// The most bytes that a process or a descriptor and its end take. A number here has fewer digits, so it fits 32 bits.
const MOST_BYTES: usize = 8;

/// A number before this byte, and what follows the byte.
#[inline(always)]
fn number_before(stop: u8, text: &[u8]) -> Option<(u32, &[u8])>
    ensures { IfSome result (λ p. text.now ≡ decimal p.0 ++ (stop ∷ p.1.now)) }
{
    if text.len() < MOST_BYTES {
        return None;
    }
    let mut number: u32 = 0;
    for i in 0..MOST_BYTES {
        let byte = text[i];
        let Some(digit) = digit_of(byte) else {
            if byte != stop || i == 0 {
                return None;
            }
            return Some((number, &text[i + 1..]));
        };
        if i == 1 && text[0] == b'0' {
            return None;
        }
        number = number * 10 + digit;
    }
    None
}

/// A descriptor before this byte, and what follows the byte.
#[inline(always)]
pub(crate) fn fd_before(stop: u8, text: &[u8]) -> Option<(Fd, &[u8])>
    ensures { IfSome result (λ p. Before text.now (an_fd p.0) stop p.1.now) }
{
    let (fd, rest) = number_before(stop, text)?;
    if fd > LARGEST_FD {
        return None;
    }
    Some((fd, rest))
}

/// A directory before this byte, and what follows the byte.
fn dir_before(stop: u8, text: &[u8]) -> Option<(Dir, &[u8])>
    ensures { IfSome result (λ p. Before text.now (a_dir p.0) stop p.1.now) }
{
    let (part, rest) = cut(stop, text)?;
    let dir = dir_of(part).ok()?;
    Some((dir, rest))
}

/// Names of flags with bars between them before this byte, and what follows the byte.
#[inline(always)]
fn names_before(stop: u8, text: &[u8]) -> Option<(&[u8], &[u8])>
    ensures { IfSome result (λ p. Before text.now (some_flags p.0.now) stop p.1.now) }
{
    let mut from = 0;
    while from < text.len() && text[from].is_ascii_uppercase() {
        let end = Run::Name.end(text, from + 1)?;
        if text[end] == stop {
            return Some((&text[..end], &text[end + 1..]));
        }
        if text[end] != b'|' {
            return None;
        }
        from = end + 1;
    }
    None
}

/// Flags before this byte, and what follows the byte.
fn flags_before(stop: u8, text: &[u8]) -> Option<(&[u8], &[u8])>
    ensures { IfSome result (λ p. Before text.now (some_flags p.0.now) stop p.1.now) }
{
    match text {
        [b'0', byte, rest @ ..] if *byte == stop => Some((&text[..1], rest)),
        _ => names_before(stop, text),
    }
}

/// A command of `fcntl` before this byte, and what follows the byte.
fn command_before(stop: u8, text: &[u8]) -> Option<(&[u8], &[u8])>
    ensures { IfSome result (λ p. Before text.now (a_command p.0.now) stop p.1.now) }
{
    let (part, rest) = cut(stop, text)?;
    let command = command_of(part).ok()?;
    Some((command, rest))
}

/// The arguments of a call without a form of its own before this byte, and what follows the byte.
fn free_before(stop: u8, text: &[u8]) -> Option<(&[u8], &[u8])>
    ensures { IfSome result (λ p. Before text.now (free_text p.0.now) stop p.1.now) }
{
    let (part, rest) = cut(stop, text)?;
    let args = free_of(part).ok()?;
    Some((args, rest))
}

/// A path without escapes in its quotes before this byte, and what follows the byte.
fn path_before(stop: u8, text: &[u8]) -> Option<(&[u8], &[u8])>
    ensures { IfSome result (λ p. Before text.now (a_path p.0.now) stop p.1.now) }
{
    let inside = after_byte(b'"', text)?;
    let end = Run::Path.end(inside, 0)?;
    let after_quote = after_byte(b'"', &inside[end..])?;
    let rest = after_byte(stop, after_quote)?;
    Some((&inside[..end], rest))
}

/// The answer of a call of this kind, as the slow path reads it. It stays a call, so that each form has no copy of it.
#[inline(never)]
fn answered(kind: ResultKind, tail: &[u8]) -> Option<Answer>
    ensures { IfSome result (λ a. answer_at kind tail.now ≡ Ok a) }
{
    answer(kind, tail).ok()
}

/// The number of a few digits that a text spells.
#[inline(always)]
fn short_number_of(text: &[u8]) -> Option<u32>
    ensures { IfSome result (λ n. text.now ≡ decimal n) }
{
    let mut number: u32 = 0;
    for i in 0..MOST_BYTES {
        if i >= text.len() {
            return if i == 0 { None } else { Some(number) };
        }
        if i == 1 && text[0] == b'0' {
            return None;
        }
        number = number * 10 + digit_of(text[i])?;
    }
    None
}

/// The short number that is the whole answer.
#[inline(always)]
fn number_after(tail: &[u8]) -> Option<u32>
    ensures { IfSome result (λ n. tail.now ≡ codes " RET " ++ decimal n) }
{
    let (word, text) = tail.split_at_checked(5)?;
    if same_by_ends(word, b" RET ") {
        short_number_of(text)
    } else {
        None
    }
}

/// The answer of a call of this kind, which mostly is a short number; else the slow path reads it. It is part of each
/// form, where the kind is known and one arm is left.
#[inline(always)]
fn short_answer(kind: ResultKind, tail: &[u8]) -> Option<Answer>
    ensures { IfSome result (λ a. answer_at kind tail.now ≡ Ok a) }
{
    match (kind, number_after(tail)) {
        (ResultKind::Count, Some(number)) => Some(Answer::Made(u64::from(number))),
        (ResultKind::Zero, Some(number)) if number == 0 => Some(Answer::Made(0)),
        (ResultKind::Fd, Some(number)) if number <= LARGEST_FD => {
            Some(Answer::Made(u64::from(number)))
        }
        _ => answered(kind, tail),
    }
}

/// The answer of a call with this name.
fn answer_of(name: Form, tail: &[u8]) -> Option<Answer>
    ensures { IfSome result (λ a. answer_at (row_of name).kind tail.now ≡ Ok a) }
{
    short_answer(name.kind(), tail)
}

/// `name(fd)`, its descriptor and its answer.
#[inline(always)]
pub(crate) fn on_fd(call: FdCall, text: &[u8]) -> Option<(Fd, Answer)>
    ensures { IfSome result (λ p. SpellsAfter (listed (forms.OnFd call)) text.now
        (items.Call (calls.OnFd call p.0) p.1)) }
{
    let (fd, tail) = fd_before(b')', text)?;
    let answer = short_answer(call.kind(), tail)?;
    Some((fd, answer))
}

/// What follows `F_SETFD` and its comma.
#[inline(always)]
fn set_fd_before(text: &[u8]) -> Option<&[u8]>
    ensures { IfSome result (λ r. Before text.now (a_word set_fd) 44 r.now) }
{
    text.strip_prefix(b"F_SETFD,".as_slice())
}

/// `fcntl(fd,F_SETFD,flags)`, or `fcntl(fd,command)`
#[inline(always)]
fn fcntl(text: &[u8]) -> Option<(Call<'_>, Answer)>
    ensures { IfSome result (λ p. SpellsAfter (listed forms.Fcntl) text.now (items.Call (call_view p.0) p.1)) }
{
    let (fd, rest) = fd_before(b',', text)?;
    match set_fd_before(rest) {
        Some(rest) => {
            let (flags, tail) = flags_before(b')', rest)?;
            let answer = short_answer(ResultKind::Count, tail)?;
            Some((Call::FcntlSetFd(fd, flags), answer))
        }
        None => {
            let (command, tail) = command_before(b')', rest)?;
            let answer = short_answer(fcntl_kind(command), tail)?;
            Some((Call::Fcntl(fd, command), answer))
        }
    }
}

/// `mmap(fd,flags,flags)`
#[inline(always)]
fn mmap(text: &[u8]) -> Option<(Call<'_>, Answer)>
    ensures { IfSome result (λ p. SpellsAfter (listed forms.Mmap) text.now (items.Call (call_view p.0) p.1)) }
{
    let (fd, rest) = fd_before(b',', text)?;
    let (protection, rest) = flags_before(b',', rest)?;
    let (mapping, tail) = flags_before(b')', rest)?;
    let answer = short_answer(ResultKind::Count, tail)?;
    Some((Call::Mmap(fd, protection, mapping), answer))
}

/// `cap_rights_limit(fd,rights)`
#[inline(always)]
fn rights_limit(text: &[u8]) -> Option<(Call<'_>, Answer)>
    ensures { IfSome result (λ p. SpellsAfter (listed forms.RightsLimit) text.now (items.Call (call_view p.0) p.1)) }
{
    let (fd, rest) = fd_before(b',', text)?;
    let (part, tail) = cut(b')', rest)?;
    let rights = rights_of(part).ok()?;
    let answer = short_answer(ResultKind::Zero, tail)?;
    Some((Call::RightsLimit(fd, rights), answer))
}

/// `open(path,flags)`
#[inline(always)]
fn open(text: &[u8]) -> Option<(Call<'_>, Answer)>
    ensures { IfSome result (λ p. SpellsAfter (listed forms.Open) text.now (items.Call (call_view p.0) p.1)) }
{
    let (path, rest) = path_before(b',', text)?;
    let (flags, tail) = flags_before(b')', rest)?;
    let answer = short_answer(ResultKind::Fd, tail)?;
    Some((Call::Open(path, flags), answer))
}

/// `name(path)`
#[inline(always)]
fn on_path(call: PathCall, text: &[u8]) -> Option<(Call<'_>, Answer)>
    ensures { IfSome result (λ p. SpellsAfter (listed (forms.OnPath call)) text.now (items.Call (call_view p.0) p.1)) }
{
    let (path, tail) = path_before(b')', text)?;
    let answer = answer_of(Form::OnPath(call), tail)?;
    Some((Call::OnPath(call, path), answer))
}

/// `name(dir,path,flags)`
#[inline(always)]
fn at_flags(call: AtFlagsCall, text: &[u8]) -> Option<(Call<'_>, Answer)>
    ensures { IfSome result (λ p. SpellsAfter (listed (forms.AtFlags call)) text.now (items.Call (call_view p.0) p.1)) }
{
    let (dir, rest) = dir_before(b',', text)?;
    let (path, rest) = path_before(b',', rest)?;
    let (flags, tail) = flags_before(b')', rest)?;
    let answer = answer_of(Form::AtFlags(call), tail)?;
    Some((Call::AtFlags(call, dir, path, flags), answer))
}

/// `name(flags)`
#[inline(always)]
fn on_flags(call: FlagsCall, text: &[u8]) -> Option<(Call<'_>, Answer)>
    ensures { IfSome result (λ p. SpellsAfter (listed (forms.OnFlags call)) text.now (items.Call (call_view p.0) p.1)) }
{
    let (flags, tail) = flags_before(b')', text)?;
    let answer = answer_of(Form::OnFlags(call), tail)?;
    Some((Call::OnFlags(call, flags), answer))
}

/// `name()`
#[inline(always)]
fn bare<'a>(call: BareCall, text: &'a [u8]) -> Option<(Call<'a>, Answer)>
    ensures { IfSome result (λ p. SpellsAfter (listed (forms.Bare call)) text.now (items.Call (call_view p.0) p.1)) }
{
    let tail = after_byte(b')', text)?;
    let answer = answer_of(Form::Bare(call), tail)?;
    Some((Call::Bare(call), answer))
}

/// A name that has no form of its own.
#[inline(always)]
fn other<'a>(name: &'a [u8], text: &'a [u8]) -> Option<(Call<'a>, Answer)>
    ensures { IfSome result (λ p. SpellsAfter (unlisted name.now) text.now (items.Call (call_view p.0) p.1)) }
{
    let (args, tail) = free_before(b')', text)?;
    let answer = short_answer(ResultKind::Any, tail)?;
    Some((Call::Other(name, args), answer))
}

/// `@uses(fd,rights)`, `@refused(fd,rights)`
#[inline(never)]
pub(crate) fn needs(marker: NeedsMarker, text: &[u8]) -> Option<Item<'_>>
    ensures { IfSome result (λ i. SpellsAfter (listed (forms.Needs marker)) text.now (item_view i)) }
{
    let (fd, rest) = fd_before(b',', text)?;
    let (part, tail) = cut(b')', rest)?;
    let rights = rights_of(part).ok()?;
    match tail {
        [] => Some(Item::Needs(marker, fd, rights)),
        _ => None,
    }
}

/// What follows the opening bracket of a name of the table.
#[inline(always)]
fn listed_call(form: Form, text: &[u8]) -> Option<(Call<'_>, Answer)>
    ensures { IfSome result (λ p. SpellsAfter (listed form) text.now (items.Call (call_view p.0) p.1)) }
{
    match form {
        Form::Fcntl => fcntl(text),
        Form::Mmap => mmap(text),
        Form::RightsLimit => rights_limit(text),
        Form::Open => open(text),
        Form::OnPath(call) => on_path(call, text),
        Form::AtFlags(call) => at_flags(call, text),
        Form::OnFlags(call) => on_flags(call, text),
        Form::Bare(call) => bare(call, text),
        _ => None,
    }
}

/// What follows the opening bracket: a call, still in its text, and what it answered.
#[inline(always)]
pub(crate) fn call_after<'a>(head: Head<'a>, text: &'a [u8]) -> Option<(Call<'a>, Answer)>
    ensures { IfSome result (λ p. SpellsAfter (head_view head.entry) text.now (items.Call (call_view p.0) p.1)) }
{
    match head {
        Head::Listed(form) => listed_call(form, text),
        Head::Unlisted(name) => other(name, text),
    }
}

/// How a line begins: its process, its name, and what follows the opening bracket.
#[derive(Clone, Copy)]
pub(crate) struct Start<'a> {
    pub(crate) pid: Pid,
    pub(crate) head: Head<'a>,
    pub(crate) text: &'a [u8],
}

/// What is before a bracket, and what follows it. A name that is shorter than any in the table isn't found.
#[inline(always)]
fn name_before_bracket(text: &[u8]) -> Option<(&[u8], &[u8])>
    ensures { IfSome result (λ p. text.now ≡ p.0.now ++ (40 ∷ p.1.now)) }
{
    if text.len() < SHORTEST_NAME {
        return None;
    }
    let at = Run::Until(b'(').end(text, SHORTEST_NAME)?;
    Some((&text[..at], &text[at + 1..]))
}

/// How a line begins.
#[inline(always)]
pub(crate) fn start_of(bytes: &[u8]) -> Option<Start<'_>>
    ensures { IfSome result (λ s. Starts bytes.now s.pid (head_view s.head) s.text.now) }
{
    if bytes.len() > LONGEST_LINE {
        return None;
    }
    let (pid, rest) = number_before(b' ', bytes)?;
    if pid == 0 || pid > LARGEST_PID {
        return None;
    }
    let (name, text) = name_before_bracket(rest)?;
    let head = head_of(name)?;
    Some(Start { pid, head, text })
}
