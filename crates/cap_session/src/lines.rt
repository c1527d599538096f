//! A text of lines, worked through piece by piece.
//!
//! A line that lies whole in a piece is looked at where it lies. Only one that crosses pieces is copied,
//! into room that is taken before the first read.
ghost use Rattle.std.specs.Prelude.{◌≡◌, ℕ, ◌+◌, ◌^◌, ◌<◌, ◌≤◌, List, [], ◌++◌, length, Result, IfOk, OnOk, OnErr};
ghost use Rattle.std.specs.Prelude.{MatchBool, ⊤};
ghost use Rattle.cap_session.specs.Limits.{longest_line};
ghost use Rattle.cap_session.specs.Texts.{with_line};
ghost use Rattle.cap_session.specs.Code.Feeds.{TakesLine, Completes, Reached, Feeds, Finishes, Ends};

use crate::limits::LONGEST_LINE;
use crate::line_buffer::LineBuffer;
use crate::line_ends::LineEnds;
use crate::refused::{Refusal, Refused};
use std::alloc::{AllocError, Global};

/// Why a text or a script isn't worked through to its end.
#[derive(Clone, Copy)]
pub enum StopReason {
    /// A line of the text is refused.
    Refused(Refusal),
    /// Memory ran out.
    Memory,
    /// The reader failed.
    ReadFault,
    /// The writer failed.
    WriteFault,
    /// The reader was called as often as allowed.
    TooLong,
}

/// What takes the lines of a text, one after the other.
pub trait Lines: Drop {
    ghost use Rattle.cap_session.specs.declared.refused.Refused.{Refused};

    /// What is known of the lines so far.
    ghost Known: { Type 0 };

    /// What becomes of it with the next line, or why that line is refused.
    ghost next: { Known → List ℕ → Result Known Refused };

    /// The value takes the lines that come after those that are known so.
    ghost follows: { Self → Known → Type 0 };

    /// The value stands for what is known.
    ghost holds: { Self → Known → Type 0 };

    /// Takes the next line, without its LF. A line for which memory runs out is not refused, and those after it are
    /// still looked at.
    fn line(&mut self, line: &[u8]) -> Result<(), Refused>
        ensures { (known : Known) → follows self.old known
            → TakesLine (next known line.now) (follows self.new) result };

    /// Whether memory ran out for a line. If not, the value stands for all of them.
    fn is_out_of_memory(&self) -> bool
        ensures { (known : Known) → follows self.now known → MatchBool result ⊤ (holds self.now known) };
}

/// A text that comes.
#[derive(Drop)]
pub struct LineReader<L: Lines> {
    pub lines: L,
    /// How many lines were taken.
    pub number: usize,
    /// The beginning of the next line.
    pub held: LineBuffer<LONGEST_LINE>,
}

impl<L: Lines> LineReader<L> {
    pub fn new(alloc: Global, lines: L) -> Result<LineReader<L>, AllocError>
        ensures lines { IfOk result (λ s. s.lines ≡ lines) }
        ensures number { IfOk result (λ s. s.number ≡ 0) }
        ensures held { IfOk result (λ s. s.held ≡ []) }
    {
        Ok(LineReader {
            lines,
            number: 0,
            held: LineBuffer::new(alloc)?,
        })
    }

    /// Gives on the line that is begun, which these bytes complete.
    #[inline(always)]
    fn take(&mut self, bytes: &[u8]) -> Result<(), Refused>
        ensures takes { (known : L.Known) → L.follows self.old.lines known
            → TakesLine (with_line L.next known (self.old.held ++ bytes.now)) (L.follows self.new.lines) result }
        ensures held { OnOk result (self.new.held ≡ []) }
        ensures number { self.new.number ≡ self.old.number }
    {
        if !self.held.is_empty() && self.held.add(bytes).is_err() {
            return Err(Refused::LongLine);
        }
        let line = self.held.or(bytes);
        if line.len() > LONGEST_LINE {
            return Err(Refused::LongLine);
        }
        self.lines.line(line)?;
        self.held.clear();
        Ok(())
    }

    /// Takes the line that is begun, which these bytes complete.
    #[inline(always)]
    fn complete(&mut self, bytes: &[u8]) -> Result<(), StopReason>
        requires { self.old.number + 1 < 2 ^ 64 }
        ensures completes { (known : L.Known) → L.follows self.old.lines known → Completes
            (with_line L.next known (self.old.held ++ bytes.now)) (L.follows self.new.lines) self.old.number result }
        ensures held { OnOk result (self.new.held ≡ []) }
        ensures number { OnOk result (self.new.number ≡ self.old.number + 1) }
    {
        match self.take(bytes) {
            Ok(()) => {
                self.number += 1;
                Ok(())
            }
            Err(reason) => Err(self.stop(reason)),
        }
    }

    /// Stops at the next line.
    fn stop(&self, reason: Refused) -> StopReason
        requires { self.now.number + 1 < 2 ^ 64 }
        ensures { result ≡ StopReason.Refused (record { reason = reason; line = self.now.number + 1 }) }
    {
        StopReason::Refused(Refusal {
            reason,
            line: self.number + 1,
        })
    }

    /// Begins a line, or goes on with it.
    fn hold(&mut self, bytes: &[u8]) -> Result<(), StopReason>
        requires { self.old.number + 1 < 2 ^ 64 }
        ensures held { OnOk result (self.new.held ≡ self.old.held ++ bytes.now) }
        ensures short { OnOk result (length self.old.held + length bytes.now ≤ longest_line) }
        ensures long { OnErr result (longest_line < length self.old.held + length bytes.now) }
        ensures stops { OnErr result
            (result ≡ Err (StopReason.Refused (record { reason = Refused.LongLine; line = self.old.number + 1 }))) }
        ensures lines { self.new.lines ≡ self.old.lines }
        ensures number { self.new.number ≡ self.old.number }
    {
        if self.held.add(bytes).is_err() {
            return Err(self.stop(Refused::LongLine));
        }
        Ok(())
    }

    /// Works the next piece through. `Memory` only where no line is refused so far.
    pub fn feed(&mut self, piece: &[u8]) -> Result<(), StopReason>
        requires { self.old.number + length piece.now + 1 < 2 ^ 64 }
        ensures feeds { (start : L.Known) (given : List ℕ)
            → Reached L.next start (L.follows self.old.lines) given self.old.number self.old.held
            → Feeds L.next start (L.follows self.new.lines) (given ++ piece.now) self.new.number self.new.held result }
        ensures number { OnOk result (self.new.number ≤ self.old.number + length piece.now) }
    {
        let mut ends = LineEnds::of(piece);
        while let Some(line) = ends.next() {
            self.complete(line)?;
        }
        self.hold(ends.rest())?;
        if self.lines.is_out_of_memory() {
            return Err(StopReason::Memory);
        }
        Ok(())
    }

    /// Takes the line that is begun, where there is one: it is the last.
    fn finish(&mut self) -> Result<(), StopReason>
        requires { self.old.number + 1 < 2 ^ 64 }
        ensures { (start : L.Known) (given : List ℕ) → Reached L.next start (L.follows self.old.lines) given
            self.old.number self.old.held → Finishes L.next start (L.follows self.new.lines) given result }
    {
        if self.held.is_empty() {
            return Ok(());
        }
        self.complete(&[])
    }

    /// Works the end through. `Memory` only where no line is refused.
    pub fn end(&mut self) -> Result<(), StopReason>
        requires { self.old.number + 1 < 2 ^ 64 }
        ensures { (start : L.Known) (given : List ℕ) → Reached L.next start (L.follows self.old.lines) given
            self.old.number self.old.held → Ends L.next start (L.holds self.new.lines) given result }
    {
        self.finish()?;
        if self.lines.is_out_of_memory() {
            return Err(StopReason::Memory);
        }
        Ok(())
    }
}
