//! Where the lines of a text end, looked for in 64 bytes at once.
ghost use Rattle.std.specs.Prelude.{◌≡◌, ◌≢◌, ◌+◌, ◌<◌, ◌≤◌, ℕ, List, None, MatchOption, length, drop};
ghost use Rattle.memchr.specs.Find.{IsFirstByte, is_byte};
ghost use Rattle.cap_session.specs.Code.LineEnds.{AreMarks, IsCut, IsWithin};

use memchr::memchr;
use std::marker::Model;
use std::simd::prelude::*;

/// So many bytes are looked at at once.
const WIDTH: usize = 64;

/// What is left of a text.
#[derive(Drop)]
pub struct LineEnds<'a> {
    rest: &'a [u8],
    /// So many of its bytes were looked at, at most 64.
    seen: usize,
    /// Bit k is set where byte k is LF and was looked at.
    marks: u64,
}

impl<'a> Model for LineEnds<'a> {
    ghost use Rattle.std.specs.Prelude.{ℕ, List};
    ghost use Rattle.cap_session.specs.Code.LineEnds.{AreMarks};

    ghost Value = { List ℕ };

    ghost view = { λ e. e.rest.now };

    ghost invariant = { λ e. AreMarks e.rest.now e.seen e.marks };
}

/// Bit k is set where byte k is LF, of the first 64 bytes.
#[inline(always)]
fn marks_of(bytes: &[u8]) -> u64
    requires { 64 ≤ length bytes.now }
    ensures { AreMarks bytes.now 64 result }
{
    let block = u8x64::from_slice(bytes);
    block.simd_eq(u8x64::splat(b'\n')).to_bitmask()
}

/// The marks of the next 64 bytes that have one, and where these begin; none where fewer than 64 bytes are left.
#[inline(always)]
fn next_marks(text: &[u8], from: usize) -> (usize, u64)
    requires from { from ≤ length text.now }
    requires before { IsWithin text.now from }
    ensures within { result.0 ≤ length text.now }
    ensures before { IsWithin text.now result.0 }
    ensures marks { result.1 ≢ 0 → AreMarks (drop result.0 text.now) 64 result.1 }
{
    let mut from = from;
    while WIDTH <= text.len() - from {
        let marks = marks_of(&text[from..]);
        if marks != 0 {
            return (from, marks);
        }
        from += WIDTH;
    }
    (from, 0)
}

impl<'a> LineEnds<'a> {
    /// The whole text, before any of it was looked at.
    pub fn of(text: &'a [u8]) -> LineEnds<'a>
        ensures { result ≡ text.now }
    {
        LineEnds {
            rest: text,
            seen: 0,
            marks: 0,
        }
    }

    /// What follows the last line that was cut off.
    pub fn rest(&self) -> &'a [u8]
        ensures { result.now ≡ self.now }
    {
        self.rest
    }

    /// Cuts off a line, by the marks of the bytes from a place on before which no line ends.
    #[inline(always)]
    fn cut(&mut self, from: usize, seen: usize, marks: u64) -> &'a [u8]
        requires from { from ≤ length self.old }
        requires before { IsWithin self.old from }
        requires marks { AreMarks (drop from self.old) seen marks }
        requires some { marks ≢ 0 }
        ensures { IsCut self.old result.now self.new }
    {
        let bit = marks.trailing_zeros() as usize;
        let line = &self.rest[..from + bit];
        self.rest = &self.rest[from + bit + 1..];
        let left = seen - bit;
        self.seen = left - 1;
        self.marks = marks >> bit >> 1;
        line
    }

    /// Cuts off the last line, which ends in the bytes from a place on before which no line ends.
    #[inline(always)]
    fn cut_last(&mut self, from: usize) -> Option<&'a [u8]>
        requires from { from ≤ length self.old }
        requires before { IsWithin self.old from }
        ensures { MatchOption result (IsFirstByte (is_byte 10) self.old None × (self.new ≡ self.old))
            (λ line. IsCut self.old line.now self.new) }
    {
        match memchr(b'\n', &self.rest[from..]) {
            Some(at) => {
                let line = &self.rest[..from + at];
                self.rest = &self.rest[from + at + 1..];
                self.seen = 0;
                self.marks = 0;
                Some(line)
            }
            None => None,
        }
    }

    /// Cuts off the next line, where no line ends before a place.
    #[inline(always)]
    fn look(&mut self, from: usize) -> Option<&'a [u8]>
        requires from { from ≤ length self.old }
        requires before { IsWithin self.old from }
        ensures { MatchOption result (IsFirstByte (is_byte 10) self.old None × (self.new ≡ self.old))
            (λ line. IsCut self.old line.now self.new) }
    {
        let rest = self.rest;
        let (at, marks) = next_marks(rest, from);
        if marks != 0 {
            Some(self.cut(at, WIDTH, marks))
        } else {
            self.cut_last(at)
        }
    }

    /// Cuts off the next line, without its LF. Nothing where no LF is left.
    // The fast path takes the lowest mark of the bytes that were looked at. Without a mark it gives up, and the bytes
    // after them are looked at. `look`, the slow path, has this contract too, so they agree.
    #[inline(always)]
    pub fn next(&mut self) -> Option<&'a [u8]>
        ensures { MatchOption result (IsFirstByte (is_byte 10) self.old None × (self.new ≡ self.old))
            (λ line. IsCut self.old line.now self.new) }
    {
        let seen = self.seen;
        let marks = self.marks;
        if marks != 0 {
            Some(self.cut(0, seen, marks))
        } else {
            self.look(seen)
        }
    }
}
