//! The fields of a line of a start text.
ghost use Rattle.std.specs.Prelude.{◌≡◌, ◌≤◌, [], ◌∷◌, IfSome, IfOk, IfErr, MatchOption, OnOk, IsOk, position, ◌==◌};
ghost use Rattle.std.specs.Prelude.{length, ◌<◌, option_map, option_and_then, option_copied};
ghost use Rattle.cap_trace.specs.Quotes.{cut_at_byte};
ghost use Rattle.cap_session.specs.StartWords.{words};
ghost use Rattle.cap_session.specs.StartTexts.{cell_spelled, mode_spelled, number_spelled, need};
ghost use Rattle.cap_session.specs.StartTexts.{rest_at as rest_said, listed_at, cells_from, described};
ghost use Rattle.cap_session.specs.Code.StartLines.{completed};

use crate::command::{number_of, split_word};
use crate::refused::Refused;
use cap_machine::{Cell, Mode, OnExec};
use cap_rights::parse_rights;
use cap_trace::{Fd, LARGEST_FD, LARGEST_PID, Pid};
use std::alloc::Global;
use std::marker::Model;

/// The place of the first such byte.
fn first_place(stop: u8, text: &[u8]) -> Option<usize>
    ensures value { result ≡ position (λ x. x == stop) text.now }
    ensures bound { IfSome result (λ i. i < length text.now) }
{
    text.iter().position(|byte| *byte == stop)
}

/// What is before and after the first such byte.
fn cut(stop: u8, text: &[u8]) -> Option<(&[u8], &[u8])>
    ensures { option_map (λ p. (p.0.now, p.1.now)) result ≡ cut_at_byte stop text.now }
{
    let at = first_place(stop, text)?;
    Some((&text[..at], &text[at + 1..]))
}

/// The words of a line that are left.
#[derive(Drop)]
pub struct Words<'a> {
    rest: Option<&'a [u8]>,
}

impl<'a> Model for Words<'a> {
    ghost use Rattle.std.specs.Prelude.{List, ℕ};
    ghost use Rattle.cap_session.specs.StartWords.{left};

    ghost Value = { List (List ℕ) };

    ghost view = { λ w. left w.rest };
}

impl<'a> Words<'a> {
    /// The words of a line, with one space between.
    fn of(line: &'a [u8]) -> Words<'a>
        ensures { result ≡ words line.now }
    {
        Words { rest: Some(line) }
    }

    /// The next word.
    fn next(&mut self) -> Option<&'a [u8]>
        ensures { MatchOption result ((self.old ≡ []) × (self.new ≡ [])) (λ word. self.old ≡ word.now ∷ self.new) }
    {
        let text = self.rest?;
        let (word, rest) = split_word(text);
        self.rest = rest;
        Some(word)
    }
}

/// The number that a word spells, from `low` to `high`.
#[tactic(auto, using(crate::proofs::Spelled::number_is))]
fn number_from(low: u32, high: u32, word: &[u8]) -> Option<u32>
    ensures value { result ≡ number_spelled low high word.now }
    ensures bound { IfSome result (λ n. n ≤ high) }
{
    let number = number_of(word)?;
    if number < low as usize || number > high as usize {
        return None;
    }
    Some(number as u32)
}

/// The cell that a word spells. Whether an exec closes a descriptor that is held isn't known.
#[tactic(auto, unfolding(crate::specs::StartTexts::cell_spelled))]
fn cell_of(word: &[u8]) -> Option<Cell>
    ensures { result ≡ cell_spelled word.now }
{
    if word == b"unknown".as_slice() {
        Some(Cell::Unknown)
    } else if word == b"closed".as_slice() {
        Some(Cell::Closed)
    } else {
        let rights = parse_rights(word).ok()?;
        Some(Cell::Held(rights, OnExec::Unsure))
    }
}

/// The mode that a word spells.
#[tactic(auto, unfolding(crate::specs::StartTexts::mode_spelled))]
fn mode_of(word: &[u8]) -> Option<Mode>
    ensures { result ≡ mode_spelled word.now }
{
    if word == b"in".as_slice() {
        Some(Mode::Inside)
    } else if word == b"out".as_slice() {
        Some(Mode::Outside)
    } else if word == b"unsure".as_slice() {
        Some(Mode::Unsure)
    } else {
        None
    }
}

/// The pid of a line, `low` at least.
fn pid_at(low: Pid, word: Option<&[u8]>) -> Result<Pid, Refused>
    ensures value { result ≡ need Refused.Pid (option_and_then (number_spelled low 99999) (option_copied word.entry)) }
    ensures bound { IfOk result (λ pid. pid ≤ 99999) }
{
    let word = word.ok_or(Refused::Pid)?;
    number_from(low, LARGEST_PID, word).ok_or(Refused::Pid)
}

/// The mode of a line.
fn mode_at(word: Option<&[u8]>) -> Result<Mode, Refused>
    ensures { result ≡ need Refused.Argument (option_and_then mode_spelled (option_copied word.entry)) }
{
    word.and_then(mode_of).ok_or(Refused::Argument)
}

/// The cell of the descriptors that aren't listed.
fn rest_at(word: Option<&[u8]>) -> Result<Cell, Refused>
    ensures { result ≡ rest_said (option_copied word.entry) }
{
    cell_of(word.ok_or(Refused::Argument)?).ok_or(Refused::Right)
}

/// A listed descriptor, `low` at least, with its cell.
#[tactic(auto, unfolding(crate::specs::StartTexts::listed_at))]
fn listed_of(low: Fd, word: &[u8]) -> Result<(Fd, Cell), Refused>
    ensures value { result ≡ listed_at low word.now }
    ensures bound { IfOk result (λ listed. listed.0 ≤ 1048575) }
{
    let (fd, cell) = cut(b'=', word).ok_or(Refused::Argument)?;
    let fd = number_from(low, LARGEST_FD, fd).ok_or(Refused::Argument)?;
    let cell = cell_of(cell).ok_or(Refused::Right)?;
    Ok((fd, cell))
}

/// What a line says of a process, with the words of its listed descriptors.
#[derive(Drop)]
pub struct Head<'a> {
    pub pid: Pid,
    pub mode: Mode,
    pub rest: Cell,
    pub listed: Words<'a>,
}

/// The fields of a line before the listed descriptors.
pub fn head_of<'a>(low: Pid, line: &'a [u8]) -> Result<Head<'a>, Refused>
    ensures good { IfOk result (λ head. described low (words line.now) ≡ completed head (cells_from 0 head.listed)) }
    ensures bad { IfErr result (λ field. described low (words line.now) ≡ Err field) }
    ensures bound { IfOk result (λ head. head.pid ≤ 99999) }
{
    let mut words = Words::of(line);
    let pid_word = words.next();
    let pid = pid_at(low, pid_word)?;
    let mode_word = words.next();
    let mode = mode_at(mode_word)?;
    let rest_word = words.next();
    let rest = rest_at(rest_word)?;
    Ok(Head {
        pid,
        mode,
        rest,
        listed: words,
    })
}

/// Looks for a bad field among listed descriptors, the first of them `low` at least. Takes no memory.
pub fn check_cells(low: Fd, mut words: Words<'_>) -> Result<(), Refused>
    ensures good { OnOk result (IsOk (cells_from low words.entry)) }
    ensures bad { IfErr result (λ field. cells_from low words.entry ≡ Err field) }
{
    let mut least = low;
    while let Some(word) = words.next() {
        let (fd, _cell) = listed_of(least, word)?;
        least = fd + 1;
    }
    Ok(())
}

/// The listed descriptors with their cells, or `None` where memory ran out for them.
pub fn cells_of(alloc: Global, mut words: Words<'_>) -> Result<Option<Vec<(Fd, Cell)>>, Refused>
    ensures good { IfOk result (λ cells. MatchOption cells (IsOk (cells_from 0 words.entry))
        (λ cells. cells_from 0 words.entry ≡ Ok cells.items)) }
    ensures bad { IfErr result (λ field. cells_from 0 words.entry ≡ Err field) }
{
    let mut cells = Vec::new(alloc);
    let mut low: Fd = 0;
    while let Some(word) = words.next() {
        let (fd, cell) = listed_of(low, word)?;
        low = fd + 1;
        let Ok(()) = cells.push((fd, cell)) else {
            check_cells(low, words)?;
            return Ok(None);
        };
    }
    Ok(Some(cells))
}
