//! Start texts: what was known of each process before a trace, read line by line ([`parse_start`], `read_start`).
ghost use Rattle.std.specs.Prelude.{◌≡◌, ◌↔◌, ◌+◌, ◌^◌, ◌<◌, ◌≤◌, List, [], ◌∷◌, ◌++◌, Ok, Err, IfOk, IfErr, OnOk};
ghost use Rattle.std.specs.Prelude.{◌⊎◌, IfSome, IsOk, None, Some};
ghost use Rattle.std.specs.List.{All};
ghost use Rattle.cap_trace.specs.Entry.{IsFd};
ghost use Rattle.cap_trace.specs.Limits.{largest_pid};
ghost use Rattle.cap_machine.specs.State.{Added, start_state};
ghost use Rattle.cap_session.specs.Outcome.{fault_code};
ghost use Rattle.cap_session.specs.Reads.{Reads};
ghost use Rattle.cap_session.specs.Refused.{code_of};
ghost use Rattle.cap_session.specs.StartTexts.{Listed, none_listed, next_process, cells_from, start as start_said};
ghost use Rattle.cap_session.specs.StartTexts.{described_by, start_so_far};
ghost use Rattle.cap_session.specs.Code.StartLines.{StandsFor, Follows, Holds, Adds, TakesNumbered};
ghost use Rattle.cap_session.specs.Code.StartParsed.{fault_of, Parses};
ghost use Rattle.cap_session.specs.Texts.{with_line, whole_text};
ghost use Rattle.cap_session.specs.declared.refused.Refusal.{Refusal};

use crate::devices::Source;
use crate::entries::is_skipped;
use crate::limits::LONGEST_LINE;
use crate::line_ends::LineEnds;
use crate::lines::{Lines, StopReason};
use crate::read::read_text;
use crate::refused::{Refusal, Refused};
use crate::start_fields::{Head, cells_of, head_of};
use cap_machine::{Cell, Mode, NoMemory, Start};
use cap_trace::{Fd, Pid};
use std::alloc::Global;
use thiserror::Error;

/// Why a start text wasn't read.
#[derive(Clone, Copy, Debug, PartialEq, Eq, Error)]
pub enum StartFault {
    /// A line was refused: the code of its first bad field, and its number among all lines of the text, from 1.
    #[error("a line of the start isn't good: E{code}, line {line}")]
    Bad { code: u8, line: usize },
    /// Every line is good, and there was no memory to keep them.
    #[error("out of memory")]
    Memory,
}

impl StartFault {
    /// Why a line was refused, where one was and its code is that of a refusal; what [`parse_start`] answers has no other.
    pub fn refusal(&self) -> Option<Refused>
        ensures code { IfSome result (λ refused. fault_code self.now ≡ Some (code_of refused)) }
        ensures none { result ≡ None → IfSome (fault_code self.now) (λ code. (code ≡ 0) ⊎ (10 ≤ code)) }
    {
        match self {
            StartFault::Bad { code, .. } => Refused::of_code(*code),
            StartFault::Memory => None,
        }
    }
}

impl From<Refusal> for StartFault {
    ghost from_gives = { λ refusal fault. fault ≡ fault_of refusal };

    fn from(refusal: Refusal) -> StartFault {
        StartFault::Bad {
            code: refusal.reason.code(),
            line: refusal.line,
        }
    }
}

/// A start that takes the lines of a text. It is kept until memory runs out.
#[derive(Drop)]
pub struct StartParser {
    alloc: Global,
    kept: Option<Start>,
    /// The least pid that may come next.
    low: Pid,
}

impl StartParser {
    /// Before the first line. It takes no memory.
    fn new(alloc: Global) -> StartParser
        ensures { Follows result.kept result.low none_listed }
    {
        StartParser {
            alloc,
            kept: Some(Start::unknown(alloc)),
            low: 1,
        }
    }

    /// Adds a process to the start, where it is kept.
    fn add(
        &mut self,
        pid: Pid,
        mode: Mode,
        rest: Cell,
        cells: Vec<(Fd, Cell)>,
    ) -> Result<(), NoMemory>
        requires pid { pid ≤ largest_pid }
        requires fds { All (λ entry. IsFd entry.0) cells.items }
        ensures added { (added : List Added) → StandsFor self.old.kept added → OnOk result (StandsFor self.new.kept
            (added ++ (record { pid = pid; mode = mode; rest = rest; cells = cells.items }) ∷ [])) }
        ensures low { self.new.low ≡ self.old.low }
    {
        match &mut self.kept {
            Some(start) => start.add(pid, mode, rest, cells),
            None => Err(NoMemory),
        }
    }

    /// Adds the process of a line, or lets the start go where memory runs out for it.
    fn keep(&mut self, head: Head<'_>) -> Result<(), Refused>
        requires { head.pid ≤ largest_pid }
        ensures good { OnOk result (Adds head.entry self.old.kept self.new.kept) }
        ensures bad { IfErr result (λ field. cells_from 0 head.entry.listed ≡ Err field) }
        ensures low { self.new.low ≡ self.old.low }
    {
        let is_kept = match cells_of(self.alloc, head.listed)? {
            Some(cells) => self.add(head.pid, head.mode, head.rest, cells).is_ok(),
            None => false,
        };
        if !is_kept {
            self.kept = None;
        }
        Ok(())
    }

    /// Takes the next line, which has this number.
    fn numbered(&mut self, number: usize, line: &[u8]) -> Result<(), Refusal>
        ensures { (known : Listed) → Follows self.old.kept self.old.low known
            → TakesNumbered (with_line next_process known line.now) (Follows self.new.kept self.new.low) number result }
    {
        let taken = if line.len() > LONGEST_LINE {
            Err(Refused::LongLine)
        } else {
            self.line(line)
        };
        taken.map_err(|reason| Refusal {
            reason,
            line: number,
        })
    }

    /// Takes the lines of a whole text.
    fn text(&mut self, bytes: &[u8]) -> Result<(), Refusal>
        requires first { Follows self.old.kept self.old.low none_listed }
        ensures good { OnOk result ((known : Listed) × (whole_text next_process none_listed bytes.now ≡ Ok known)
            × Follows self.new.kept self.new.low known) }
        ensures bad { IfErr result (λ e. described_by bytes.now ≡ Err e) }
    {
        let mut before: usize = 0;
        let mut ends = LineEnds::of(bytes);
        while let Some(line) = ends.next() {
            self.numbered(before + 1, line)?;
            before += 1;
        }
        let last = self.numbered(before + 1, ends.rest());
        last
    }
}

impl Lines for StartParser {
    ghost Known = { Listed };

    ghost next = { next_process };

    ghost follows = { λ s listed. Follows s.kept s.low listed };

    ghost holds = { λ s listed. Holds s.kept listed };

    fn line(&mut self, line: &[u8]) -> Result<(), Refused> {
        if is_skipped(line) {
            return Ok(());
        }
        let head = head_of(self.low, line)?;
        self.low = head.pid + 1;
        self.keep(head)?;
        Ok(())
    }

    fn is_out_of_memory(&self) -> bool {
        self.kept.is_none()
    }
}

/// Reads a start text from its bytes.
fn read_bytes(alloc: Global, bytes: &[u8]) -> Result<Start, StartFault>
    ensures { Parses (described_by bytes.now) result }
{
    let mut starting = StartParser::new(alloc);
    starting.text(bytes)?;
    starting.kept.ok_or(StartFault::Memory)
}

/// Reads a start text from a reader to its end, or to its first refused line.
pub fn read_start<R: Source>(alloc: Global, turns: u64, reader: &mut R) -> Result<Start, StopReason>
    requires turns { turns ≤ 2 ^ 32 }
    requires calls { turns ≤ (R.state reader.old).room }
    ensures { Reads described_by start_so_far (λ start known. start ≡ known) turns (R.state reader.old)
        (R.state reader.new) result }
{
    let starting = read_text(alloc, turns, reader, StartParser::new(alloc))?;
    starting.kept.ok_or(StopReason::Memory)
}

/// Reads a start text: what was known of each process before a trace.
///
/// A line is about one process, as `100 out closed 0=ALL 3=CAP_READ|CAP_SEEK 5=unknown`: its pid from 1 to 99,999;
/// `in`, `out` or
/// `unsure`, which say whether it is in capability mode (capsicum(4)); the cell of each descriptor that isn't listed;
/// and then any number of descriptors from 0 to 1,048,575, each with `=` and its cell. A cell is `unknown`, `closed`,
/// or rights (rights(4)) as `parse_rights` reads them, of a descriptor that is open and holds them. There is one space
/// between words. Pids rise from line to line, descriptors within a line. Empty lines and lines that begin with `#` are
/// skipped, and the last line needs no LF.
///
/// # Errors
///
/// - [`StartFault::Bad`]: the code of the first refused line, and its number among all lines, from 1. Code 1 is a line
///   of more than 1,024 bytes. Else the first bad field from the left decides: 3 is the pid, or one that doesn't rise;
///   4 the mode, a word without `=`, a descriptor or one that doesn't rise, or a missing field; 5 a cell, also an empty
///   one.
/// - [`StartFault::Memory`]: out of memory. It comes only where every line is good.
///
/// ```
/// let start = parse_start(alloc, b"100 out closed 0=ALL 3=CAP_READ|CAP_SEEK 5=unknown")?;
/// assert_eq!(start.cell(100, 5), Cell::Unknown);
/// assert_eq!(start.cell(100, 6), Cell::Closed);
/// assert_eq!(start.mode(100), Mode::Outside);
/// ```
pub fn parse_start(alloc: Global, bytes: &[u8]) -> Result<Start, StartFault>
    ensures described { IfOk result (λ start. described_by bytes.now ≡ Ok start) }
    ensures good { IfOk result (λ start. start_said bytes.now ≡ Ok (start_state start)) }
    ensures bad { (e : Refusal) → (result ≡ Err (fault_of e)) ↔ (start_said bytes.now ≡ Err e) }
    ensures memory { result ≡ Err StartFault.Memory → IsOk (start_said bytes.now) }
{
    read_bytes(alloc, bytes)
}
