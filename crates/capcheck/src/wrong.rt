//! What is wrong with a refused line, in words: [`wrong_in`]. No contract reads it: the code is what the contracts are
//! about, and these words only say more of it.
//!
//! Which argument is wrong is asked of the reader of lines itself: it reads the call with other arguments in the place
//! of those that are given.

use cap_rights::parse_rights;
use cap_session::{LONGEST_SCRIPT_LINE, Refused, number_of};
use cap_trace::{LARGEST_FD, LARGEST_PID, LineFault, parse_line};
use std::alloc::{AllocError, Global};
use std::{fmt, mem};

/// So many characters of a line are shown.
const MOST_SHOWN: usize = 60;

/// What is wrong with a word in the place of a pid.
const NO_PID: &str = "is not a pid, a number from 1 to 99999 without a leading zero";

/// What is wrong with a line.
#[derive(Clone, Copy)]
pub enum Wrong<'a> {
    /// For this reason.
    Reason(&'static str),
    /// This text is wrong, for this reason.
    Is(&'a str, &'static str),
    /// There is something else, and this text in its place.
    Has(&'static str, &'a str),
    /// The call of this name takes these arguments, and was given those.
    Takes(&'a str, &'static str, &'a str),
}

impl fmt::Display for Wrong<'_> {
    fn fmt<W: fmt::Write>(&self, f: &mut fmt::Formatter<W>) -> fmt::Result {
        match *self {
            Wrong::Reason(reason) => f.write_str(reason),
            Wrong::Is(text, said) => write!(f, "{} {said}", excerpt(text)),
            Wrong::Has(said, text) => write!(f, "{said}, but {}", excerpt(text)),
            Wrong::Takes(name, takes, given) => write!(
                f,
                "{} takes {takes}, but here it has ({})",
                excerpt(name),
                excerpt(given)
            ),
        }
    }
}

/// A text to be shown: so many characters from its beginning, with control characters escaped.
#[derive(Clone, Copy)]
pub struct Shown<'a> {
    pub text: &'a str,
    pub most: usize,
}

/// A part of a line.
fn excerpt(text: &str) -> Shown<'_> {
    Shown {
        text,
        most: MOST_SHOWN,
    }
}

impl fmt::Display for Shown<'_> {
    fn fmt<W: fmt::Write>(&self, f: &mut fmt::Formatter<W>) -> fmt::Result {
        for c in self.text.chars().take(self.most) {
            if c.is_control() {
                let code = c as u32;
                write!(f, "\\x{code:02x}")?;
            } else {
                f.write_char(c)?;
            }
        }
        if self.text.chars().nth(self.most).is_some() {
            f.write_str("..")?;
        }
        Ok(())
    }
}

/// The text that has a refused line.
#[derive(Clone, Copy)]
pub enum Kind {
    Trace,
    Start,
    Script,
}

/// What is wrong with a line that is refused so, or is no command, where it is known.
pub fn wrong_in<'a>(
    alloc: Global,
    kind: Kind,
    line: Option<&'a [u8]>,
    refused: Option<Refused>,
) -> Wrong<'a> {
    match line {
        Some(line) => wrong_line(alloc, kind, line, refused).unwrap_or(general(refused)),
        None => general(refused),
    }
}

/// What is wrong with the line, where that can be found out.
fn wrong_line<'a>(
    alloc: Global,
    kind: Kind,
    line: &'a [u8],
    refused: Option<Refused>,
) -> Option<Wrong<'a>> {
    if let Some(wrong) = wrong_bytes(line) {
        return Some(wrong);
    }
    let line = std::str::from_utf8(line).ok()?;
    match kind {
        Kind::Trace => wrong_entry(alloc, line, refused?),
        Kind::Start if refused == Some(Refused::LongLine) => None,
        Kind::Start => check_start(line, refused?).err(),
        Kind::Script => wrong_command(alloc, line, refused),
    }
}

/// What is wrong with a line of a trace.
fn wrong_entry<'a>(alloc: Global, line: &'a str, refused: Refused) -> Option<Wrong<'a>> {
    match refused {
        Refused::Shape => Some(wrong_shape(line)),
        Refused::Pid => Some(wrong_pid(line)),
        Refused::Argument => wrong_argument(alloc, line),
        Refused::Right => wrong_right(line),
        Refused::Answer => wrong_result(line),
        Refused::LongLine | Refused::Position | Refused::Full | Refused::Memory => None,
    }
}

/// What is wrong with a command of a script: mostly the line in it, after two words.
fn wrong_command<'a>(
    alloc: Global,
    command: &'a str,
    refused: Option<Refused>,
) -> Option<Wrong<'a>> {
    let Some(refused) = refused else {
        return Some(Wrong::Is(command, "is not a command"));
    };
    if command.len() > LONGEST_SCRIPT_LINE {
        return Some(Wrong::Reason("the command has more than 1,056 bytes"));
    }
    let line = command.splitn(3, ' ').nth(2)?;
    match wrong_bytes(line.as_bytes()) {
        Some(wrong) => Some(wrong),
        None => wrong_entry(alloc, line, refused),
    }
}

/// What a refusal means.
fn general<'a>(refused: Option<Refused>) -> Wrong<'a> {
    let Some(refused) = refused else {
        return Wrong::Reason("there is no such command");
    };
    Wrong::Reason(match refused {
        Refused::LongLine => "the line has more than 1,024 bytes",
        Refused::Shape =>
            "the line is neither PID NAME(ARGUMENTS) RET RESULT nor PID @NAME(ARGUMENTS)",
        Refused::Pid => "no pid at the start of the line",
        Refused::Argument => "an argument is wrong, or their number",
        Refused::Right => "a right is wrong",
        Refused::Answer => "the result is none that the call can have",
        Refused::Position => "there is no such position",
        Refused::Full => "a trace has at most 1,000,000 lines",
        Refused::Memory => "memory ran out",
    })
}

/// What is wrong with any line that begins or ends so, or isn't UTF-8.
fn wrong_bytes<'a>(line: &[u8]) -> Option<Wrong<'a>> {
    if line.starts_with(b"\xef\xbb\xbf") {
        return Some(Wrong::Reason("a byte order mark at the start of the line"));
    }
    if line.starts_with(b"\xff\xfe") || line.starts_with(b"\xfe\xff") {
        return Some(Wrong::Reason("the text is UTF-16, and not ASCII or UTF-8"));
    }
    if line.ends_with(b"\r") {
        return Some(Wrong::Reason("a carriage return at the end of the line"));
    }
    None
}

/// What is wrong with the shape of a line.
fn wrong_shape(line: &str) -> Wrong<'_> {
    let Some((_, call)) = line.split_once(' ') else {
        return Wrong::Reason("the line ends after the pid");
    };
    let Some((name, rest)) = call.split_once('(') else {
        return Wrong::Has("no name and ( after the pid", call);
    };
    if !is_name(name.strip_prefix('@').unwrap_or(name)) {
        return Wrong::Is(name, "is not the name of a call or a marker");
    }
    let Some((_, end)) = rest.rsplit_once(')') else {
        return Wrong::Has("no ) after the arguments", rest);
    };
    if name.starts_with('@') {
        return if end.is_empty() {
            Wrong::Is(name, "is not the name of a marker")
        } else {
            Wrong::Is(end, "follows the marker")
        };
    }
    match rest.split_once(") RET ") {
        None => Wrong::Has("no RET and result after the arguments", end),
        Some(_) => Wrong::Has("the arguments don't end at the first )", rest),
    }
}

/// Whether a call or a marker may have this name.
fn is_name(name: &str) -> bool {
    !name.is_empty()
        && !name.starts_with(|c: char| c.is_ascii_digit())
        && name.bytes().all(|byte| byte.is_ascii_lowercase()
            || byte.is_ascii_digit()
            || byte == b'_')
}

/// What is wrong with the pid of a line.
fn wrong_pid(line: &str) -> Wrong<'_> {
    let word = line.split(' ').next().unwrap_or(line);
    if !word.is_empty() && word.bytes().all(|byte| byte.is_ascii_digit()) {
        return Wrong::Is(word, NO_PID);
    }
    if line.contains(" = ") || line.contains(" ERR#") {
        return Wrong::Reason(
            "no pid at the start of the line (a truss recording? convert it with capcheck-truss)",
        );
    }
    Wrong::Has("no pid at the start of the line", line)
}

/// What is wrong with the rights of a line: they are the last argument.
fn wrong_right(line: &str) -> Option<Wrong<'_>> {
    let (_, args) = call_of(line);
    let (_, rights) = args.rsplit_once(',')?;
    Some(wrong_among(rights))
}

/// The first of these rights that is none.
fn wrong_among(rights: &str) -> Wrong<'_> {
    for right in rights.split('|') {
        if right.is_empty() {
            return Wrong::Reason("a right is empty");
        }
        if parse_rights(right.as_bytes()).is_err() {
            return Wrong::Is(right, "is not a right");
        }
    }
    Wrong::Is(rights, "is not a list of rights")
}

/// What is wrong with the result of a line.
fn wrong_result(line: &str) -> Option<Wrong<'_>> {
    let (_, result) = line.rsplit_once(") RET ")?;
    Some(Wrong::Is(result, "is not a result that the call can have"))
}

/// The name of the call or the marker in a line, and its arguments.
fn call_of(line: &str) -> (&str, &str) {
    let call = line.split_once(' ').map_or(line, |(_, call)| call);
    let Some((name, rest)) = call.split_once('(') else {
        return (call, "");
    };
    let args = match rest.rsplit_once(") RET ") {
        Some((args, _)) => args,
        None => rest.strip_suffix(')').unwrap_or(rest),
    };
    (name, args)
}

/// Arguments that calls of some form have, and what they are in words. The first that a call takes are those of its
/// form.
const FORMS: [(&str, &str); 17] = [
    ("3,3", "two descriptors"),
    ("3,DEST", "a descriptor, and maybe DEST"),
    ("3", "a descriptor"),
    ("O_RDONLY", "flags"),
    ("\"a\"", "a path"),
    ("3,0", "a descriptor and flags"),
    (
        "3,F_GETFL",
        "a descriptor, a command, and flags after F_SETFD or a descriptor after F_DUP2FD",
    ),
    ("3,CAP_READ", "a descriptor and rights"),
    ("\"a\",0", "a path and flags"),
    ("\"a\",\"a\"", "two paths"),
    ("AT_FDCWD,\"a\"", "a directory and a path"),
    ("3,0,0", "a descriptor, the protection and flags"),
    ("AT_FDCWD,\"a\",0", "a directory, a path and flags"),
    ("\"a\",AT_FDCWD,\"a\"", "a path, a directory and a path"),
    (
        "AT_FDCWD,\"a\",AT_FDCWD,\"a\"",
        "twice a directory and a path",
    ),
    (
        "AT_FDCWD,\"a\",AT_FDCWD,\"a\",0",
        "twice a directory and a path, and flags",
    ),
    ("", "no arguments"),
];

/// What is wrong with the arguments of a line. Nothing where that can't be found out.
fn wrong_argument<'a>(alloc: Global, line: &'a str) -> Option<Wrong<'a>> {
    let (name, args) = call_of(line);
    if fits(alloc, name, args)? {
        return Some(Wrong::Reason("the result is not the descriptor that the arguments name"));
    }
    if name == "@start" {
        let takes = "descriptors, each above the one before";
        return Some(Wrong::Takes(name, takes, args));
    }
    for (fitting, takes) in FORMS {
        if fits(alloc, name, fitting)? {
            let wrong = first_wrong(alloc, name, fitting, args);
            return Some(wrong.unwrap_or(Wrong::Takes(name, takes, args)));
        }
    }
    None
}

/// Whether the call or the marker of this name takes these arguments. Nothing where memory runs out.
fn fits(alloc: Global, name: &str, args: &str) -> Option<bool> {
    let answer = if name.starts_with('@') { "" } else { " RET x" };
    let line = format!(in alloc; "1 {name}({args}){answer}").ok()?;
    match parse_line(alloc, line.as_bytes()) {
        Ok(_) => Some(true),
        Err(LineFault::Memory) => None,
        Err(fault) => Some(fault == LineFault::Answer),
    }
}

/// The first argument that the call doesn't take in the place of the fitting one. Nothing where there are not as many.
fn first_wrong<'a>(
    alloc: Global,
    name: &str,
    fitting: &'a str,
    args: &'a str,
) -> Option<Wrong<'a>> {
    if args.is_empty() || fitting.is_empty() {
        return None;
    }
    let given = parts(alloc, args).ok()?;
    if given.len() != parts(alloc, fitting).ok()?.len() {
        return None;
    }
    for (place, part) in given.iter().enumerate() {
        let mut tried = parts(alloc, fitting).ok()?;
        let replaced = mem::replace(tried.get_mut(place)?, *part);
        if !fits(alloc, name, tried.join(alloc, ",").ok()?.as_str())? {
            return Some(Wrong::Is(part, kind_of(replaced)));
        }
    }
    None
}

/// Arguments, cut at the commas outside quotes.
fn parts(alloc: Global, args: &str) -> Result<Vec<&str>, AllocError> {
    let mut in_quotes = false;
    let mut is_escaped = false;
    args.split(|c: char| {
        let is_quote = c == '"' && !is_escaped;
        is_escaped = c == '\\' && !is_escaped;
        in_quotes = in_quotes != is_quote;
        c == ',' && !in_quotes
    })
    .collect(alloc)
}

/// What a wrong argument isn't, by one that fits.
fn kind_of(fitting: &str) -> &'static str {
    match fitting {
        "3" => "is not a descriptor",
        "AT_FDCWD" => "is not a directory, a descriptor or AT_FDCWD",
        "\"a\"" => "is not a path in double quotes",
        "0" | "O_RDONLY" => "is not flags, 0 or names with | between them",
        "F_GETFL" => "is not a command",
        _ => "is not what belongs there",
    }
}

/// Looks for the first field of a line of a start that is wrong, which is the error.
fn check_start<'a>(line: &'a str, refused: Refused) -> Result<(), Wrong<'a>> {
    let mut words = line.split(' ');
    let pid = words.next().unwrap_or(line);
    if matches!(number_to(LARGEST_PID as usize, pid), None | Some(0)) {
        return Err(Wrong::Is(pid, NO_PID));
    }
    if refused == Refused::Pid {
        return Err(Wrong::Is(pid, "is not above the pid before it"));
    }
    let mode = words
        .next()
        .ok_or(Wrong::Reason("the line ends before the mode"))?;
    if !matches!(mode, "in" | "out" | "unsure") {
        return Err(Wrong::Is(mode, "is not in, out or unsure"));
    }
    let others = words.next().ok_or(Wrong::Reason(
        "the line ends before what all other descriptors are",
    ))?;
    check_state(others)?;
    let mut last = None;
    for word in words {
        last = Some(listed(word, last)?);
    }
    Ok(())
}

/// The number that a word spells, up to this one.
fn number_to(most: usize, word: &str) -> Option<usize> {
    number_of(word.as_bytes()).filter(|number| *number <= most)
}

/// Looks for what is wrong with what a descriptor is said to be.
fn check_state<'a>(state: &'a str) -> Result<(), Wrong<'a>> {
    if matches!(state, "unknown" | "closed") || parse_rights(state.as_bytes()).is_ok() {
        Ok(())
    } else if state.contains("CAP_") {
        Err(wrong_among(state))
    } else {
        Err(Wrong::Is(state, "is not unknown, closed or rights"))
    }
}

/// The descriptor of a word that lists one, or what is wrong with it.
fn listed<'a>(word: &'a str, last: Option<usize>) -> Result<usize, Wrong<'a>> {
    let (fd, state) = word
        .split_once('=')
        .ok_or(Wrong::Is(word, "is not a descriptor, = and what it is"))?;
    let number = number_to(LARGEST_FD as usize, fd).ok_or(Wrong::Is(fd, "is not a descriptor"))?;
    if last.is_some_and(|last| number <= last) {
        return Err(Wrong::Is(fd, "is not above the descriptor before it"));
    }
    check_state(state)?;
    Ok(number)
}
