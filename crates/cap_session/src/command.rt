//! What a line of a script asks for: [`command_of`] reads it.
ghost use Rattle.std.specs.Prelude.{◌≡◌, MatchOption, None, Some};
ghost use Rattle.cap_session.specs.Commands.{asked, asked_alone, asked_at, asked_with, first_word, after_word, position};
ghost use Rattle.cap_session.specs.Commands.{with_line, with_range, insert_line, replace_line};
ghost use Rattle.cap_session.specs.Code.Performs.{asked_by};

use crate::edit::Edit;
use bstr::ByteSlice;

/// The largest number of 19 digits.
const LARGEST_NUMBER: u64 = 9_999_999_999_999_999_999;

/// The number that a word spells, as a position in a script: 1 to 19 digits, without a leading zero. `None` for any
/// other word.
pub fn number_of(word: &[u8]) -> Option<usize>
    ensures { result ≡ position word.now }
{
    let number = cap_trace::number_of(LARGEST_NUMBER, word)?;
    Some(number as usize)
}

/// What a line of a script asks for.
#[derive(Clone, Copy)]
pub enum Command<'a> {
    Edit(Edit<'a>),
    Show(usize),
    Count,
    Report,
    ReportRange(usize, usize),
    Changes,
    Explain(usize),
    Denials,
    Limits(Option<usize>),
}

/// The bytes before the first space, and those after it where there is one.
#[tactic(auto, using(std::proofs::lemmas::List::take_rest, crate::proofs::Words::word_before, crate::proofs::Words::rest_beyond, crate::proofs::Words::word_alone, crate::proofs::Words::no_rest))]
pub fn split_word<'a>(line: &'a [u8]) -> (&'a [u8], Option<&'a [u8]>)
    ensures word { result.0.now ≡ first_word line.now }
    ensures rest { MatchOption result.1 (after_word line.now ≡ None) (λ rest. after_word line.now ≡ Some rest.now) }
{
    match line.find_byte(b' ') {
        None => (line, None),
        Some(at) => (&line[..at], Some(&line[at + 1..])),
    }
}

/// A line of one word.
fn alone(word: &[u8]) -> Option<Command<'static>>
    ensures { asked_by result ≡ asked_alone word.now }
{
    if word == b"count".as_slice() {
        Some(Command::Count)
    } else if word == b"report".as_slice() {
        Some(Command::Report)
    } else if word == b"changes".as_slice() {
        Some(Command::Changes)
    } else if word == b"denials".as_slice() {
        Some(Command::Denials)
    } else if word == b"limits".as_slice() {
        Some(Command::Limits(None))
    } else {
        None
    }
}

/// `insert` with a position and a line.
fn insert_of<'a>(rest: &'a [u8]) -> Option<Command<'a>>
    ensures { asked_by result ≡ with_line (position (first_word rest.now)) (after_word rest.now) insert_line }
{
    let (word, line) = split_word(rest);
    match (number_of(word), line) {
        (Some(position), Some(line)) => Some(Command::Edit(Edit::Insert { position, line })),
        _ => None,
    }
}

/// `replace` with a position and a line.
fn replace_of<'a>(rest: &'a [u8]) -> Option<Command<'a>>
    ensures { asked_by result ≡ with_line (position (first_word rest.now)) (after_word rest.now) replace_line }
{
    let (word, line) = split_word(rest);
    match (number_of(word), line) {
        (Some(position), Some(line)) => Some(Command::Edit(Edit::Replace { position, line })),
        _ => None,
    }
}

/// `report` with two positions.
fn range_of(rest: &[u8]) -> Option<Command<'static>>
    ensures { asked_by result ≡ with_range (position (first_word rest.now)) (after_word rest.now) }
{
    let (word, rest) = split_word(rest);
    let Some(rest) = rest else {
        return None;
    };
    match (number_of(word), number_of(rest)) {
        (Some(first), Some(last)) => Some(Command::ReportRange(first, last)),
        _ => None,
    }
}

/// `delete`, `show`, `explain` or `limits` with a position.
fn with_position(word: &[u8], position: usize) -> Option<Command<'static>>
    ensures { asked_by result ≡ asked_at word.now position }
{
    if word == b"delete".as_slice() {
        Some(Command::Edit(Edit::Delete { position }))
    } else if word == b"show".as_slice() {
        Some(Command::Show(position))
    } else if word == b"explain".as_slice() {
        Some(Command::Explain(position))
    } else if word == b"limits".as_slice() {
        Some(Command::Limits(Some(position)))
    } else {
        None
    }
}

/// A word, and what follows the space after it.
fn with_rest<'a>(word: &[u8], rest: &'a [u8]) -> Option<Command<'a>>
    ensures { asked_by result ≡ asked_with word.now rest.now }
{
    if word == b"insert".as_slice() {
        insert_of(rest)
    } else if word == b"replace".as_slice() {
        replace_of(rest)
    } else if word == b"report".as_slice() {
        range_of(rest)
    } else {
        with_position(word, number_of(rest)?)
    }
}

/// What a line asks for; `None` where it is no command.
pub fn command_of<'a>(line: &'a [u8]) -> Option<Command<'a>>
    ensures { asked_by result ≡ asked line.now }
{
    match split_word(line) {
        (word, None) => alone(word),
        (word, Some(rest)) => with_rest(word, rest),
    }
}
