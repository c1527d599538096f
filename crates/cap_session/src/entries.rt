//! The lines of a trace, each read and given to what keeps them: a checker, which keeps none, or a session
//! ([`TraceSink`]).
ghost use Rattle.std.specs.Prelude.{◌≡◌, ◌<◌, ◌≤◌, ◌^◌, ℕ, ◌++◌, ◌∷◌, [], List, length, OnOk, Ok, None, MatchOption, false};
ghost use Rattle.std.specs.Option.{ForSome};
ghost use Rattle.cap_trace.specs.Entry.{Entry};
ghost use Rattle.cap_trace.specs.Reading.{line_of};
ghost use Rattle.cap_session.specs.Limits.{most_lines};
ghost use Rattle.cap_session.specs.Trace.{counted_lines, is_skipped, trace, trace_so_far};
ghost use Rattle.cap_session.specs.Code.Traced.{Inquiry, Traced, one_more, next_traced, Follows, Holds};
ghost use Rattle.cap_session.specs.Reads.{Reads};
ghost use Rattle.cap_session.specs.Code.Feeds.{TakesLine};

use crate::devices::Source;
use crate::limits::MOST_LINES;
use crate::line_ends::LineEnds;
use crate::lines::{Lines, StopReason};
use crate::read::read_text;
use crate::refused::Refused;
use cap_machine::NoMemory;
use cap_trace::{LineRef, read_fast, read_slow};
use std::alloc::Global;

/// Whether a line is empty or a comment.
pub fn is_skipped(line: &[u8]) -> bool
    ensures { result ≡ is_skipped line.now }
{
    match line {
        [] => true,
        [first, ..] => *first == b'#',
    }
}

/// How many lines of a text, each with its line feed, are neither empty nor a comment.
pub fn count_lines(text: &[u8]) -> usize
    ensures { result ≡ counted_lines text.now }
{
    let mut count = 0;
    let mut ends = LineEnds::of(text);
    while let Some(line) = ends.next() {
        if !is_skipped(line) {
            count += 1;
        }
    }
    count
}

/// What keeps the lines of a trace.
pub trait TraceSink: Drop {
    /// It keeps these lines of a trace that is checked so.
    ghost keeps: { Self → Inquiry → List Entry → Type 0 };

    /// How many lines it keeps.
    ghost lines_of: { Self → ℕ };

    /// How many lines it keeps.
    fn count(&self) -> usize
        ensures count { result ≡ lines_of self.now }
        ensures lines { (s : Inquiry) (entries : List Entry) → keeps self.now s entries → result ≡ length entries };

    /// Keeps one line more, which this text spells.
    fn keep(&mut self, alloc: Global, text: &[u8], line: &LineRef<'_>) -> Result<(), NoMemory>
        requires room { lines_of self.old < most_lines }
        requires spelled { line_of text.now ≡ Ok line.now }
        ensures { (s : Inquiry) (entries : List Entry) → keeps self.old s entries
            → OnOk result (keeps self.new s (entries ++ line.now ∷ [])) };
}

/// The lines of a trace so far. They are kept until memory runs out, and counted from then on.
#[derive(Drop)]
struct Entries<K: TraceSink> {
    alloc: Global,
    kept: Option<K>,
    lost: usize,
}

impl<K: TraceSink> Entries<K> {
    /// How many lines there are so far.
    fn count(&self) -> usize
        ensures count { MatchOption self.now.kept (result ≡ self.now.lost) (λ k. result ≡ K.lines_of k) }
        ensures lines { (known : Traced) → Follows K.keeps self.now.kept self.now.lost known
            → result ≡ length known.entries }
    {
        match &self.kept {
            Some(kept) => kept.count(),
            None => self.lost,
        }
    }

    /// Keeps the next line, which this text spells and which comes after `count` others.
    #[inline(always)]
    fn keep(&mut self, count: usize, text: &[u8], line: &LineRef<'_>)
        requires room { ForSome self.old.kept (λ k. K.lines_of k < most_lines) }
        requires most { count < most_lines }
        requires spelled { line_of text.now ≡ Ok line.now }
        ensures { (known : Traced) → Follows K.keeps self.old.kept self.old.lost known → count ≡ length known.entries
            → Follows K.keeps self.new.kept self.new.lost (one_more known line.now) }
    {
        let is_kept = match &mut self.kept {
            Some(kept) => kept.keep(self.alloc, text, line).is_ok(),
            None => false,
        };
        if !is_kept {
            self.lose(count + 1);
        }
    }

    /// Reads the next line with care, and keeps it.
    #[inline(never)]
    fn keep_with_care(&mut self, count: usize, text: &[u8]) -> Result<(), Refused>
        requires room { ForSome self.old.kept (λ k. K.lines_of k < most_lines) }
        requires most { count < most_lines }
        requires counts { is_skipped text.now ≡ false }
        ensures { (known : Traced) → Follows K.keeps self.old.kept self.old.lost known → count ≡ length known.entries
            → TakesLine (next_traced known text.now) (Follows K.keeps self.new.kept self.new.lost) result }
    {
        match read_slow(text) {
            Ok(line) => {
                self.keep(count, text, &line);
                Ok(())
            }
            Err(fault) => Err(Refused::from(fault)),
        }
    }

    /// Memory ran out for the last of so many lines.
    fn lose(&mut self, count: usize)
        ensures kept { self.new.kept ≡ None }
        ensures lost { self.new.lost ≡ count }
    {
        self.kept = None;
        self.lost = count;
    }
}

impl<K: TraceSink> Lines for Entries<K> {
    ghost Known = { Traced };

    ghost next = { next_traced };

    ghost follows = { λ e known. Follows K.keeps e.kept e.lost known };

    ghost holds = { λ e known. Holds K.keeps e.kept known };

    #[inline(always)]
    fn line(&mut self, line: &[u8]) -> Result<(), Refused> {
        if is_skipped(line) {
            return Ok(());
        }
        let count = self.count();
        if count >= MOST_LINES {
            return Err(Refused::Full);
        }
        match read_fast(line) {
            Some(read) => {
                self.keep(count, line, &read);
                Ok(())
            }
            None => self.keep_with_care(count, line),
        }
    }

    fn is_out_of_memory(&self) -> bool {
        self.kept.is_none()
    }
}

/// Reads a trace to its end, or to its first refused line. What keeps its lines is in the answer.
pub fn read_trace<K: TraceSink, R: Source>(
    alloc: Global,
    turns: u64,
    reader: &mut R,
    keep: K,
) -> Result<K, StopReason>
    requires turns { turns ≤ 2 ^ 32 }
    requires calls { turns ≤ (R.state reader.old).room }
    ensures { (s : Inquiry) → K.keeps keep s []
        → Reads trace trace_so_far (λ k entries. K.keeps k s entries) turns (R.state reader.old) (R.state reader.new) result }
{
    let entries = Entries {
        alloc,
        kept: Some(keep),
        lost: 0,
    };
    let entries = read_text(alloc, turns, reader, entries)?;
    entries.kept.ok_or(StopReason::Memory)
}
