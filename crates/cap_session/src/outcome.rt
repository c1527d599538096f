//! How a stream call ends: clean, with findings, refused, or at a fault; one that explains a line also where there is no
//! such line; and the exit status of each.
ghost use Rattle.std.specs.Prelude.{◌≡◌, ◌≤◌, ◌⊎◌, IfSome, None, Some};
ghost use Rattle.cap_session.specs.Outcome.{status_of, explain_status_of, found, outcome_of, refused_as, code_in};
ghost use Rattle.cap_session.specs.Refused.{code_of};

use crate::lines::StopReason;
use crate::refused::{Input, Refusal, Refused};

/// How a stream call ends.
#[derive(Clone, Copy, Debug, PartialEq, Eq)]
pub enum Outcome {
    /// The trace was read to its end, and has no finding, or no denial where those are asked for.
    Clean,
    /// The trace was read to its end, and has findings, or denials where those are asked for.
    Findings,
    /// A line was refused: its code, 1 to 6 or 8, and its number among all lines of the text, from 1.
    Refused { code: u8, line: usize },
    /// A line of the start was refused: its code, 1 or 3 to 5, and its number among all lines of the start, from 1.
    StartRefused { code: u8, line: usize },
    /// Memory ran out.
    Memory,
    /// The reader failed in this call.
    ReadFault,
    /// The writer failed in this call, or took no byte.
    WriteFault,
    /// The reader was called as often as allowed, and its end wasn't reached.
    TooLong,
}

/// How a call that explains a line ends.
#[derive(Clone, Copy, Debug, PartialEq, Eq)]
pub enum ExplainOutcome {
    /// As a check ends. `Clean` and `Findings` say of the line that was explained whether it has findings.
    Ended(Outcome),
    /// The trace was read to its end, and has no line at the position.
    OutOfRange,
}

impl From<StopReason> for Outcome {
    ghost from_gives = { λ stop outcome. outcome ≡ outcome_of stop };

    fn from(stop: StopReason) -> Outcome {
        match stop {
            StopReason::Refused(refusal) => Outcome::refused(Input::Trace, refusal),
            StopReason::Memory => Outcome::Memory,
            StopReason::ReadFault => Outcome::ReadFault,
            StopReason::WriteFault => Outcome::WriteFault,
            StopReason::TooLong => Outcome::TooLong,
        }
    }
}

impl Outcome {
    /// How a call ends that found nothing, or something.
    pub(crate) fn found(is_clean: bool) -> Outcome
        ensures { result ≡ found is_clean }
    {
        if is_clean {
            Outcome::Clean
        } else {
            Outcome::Findings
        }
    }

    /// How a call ends that refused a line.
    pub(crate) fn refused(input: Input, refusal: Refusal) -> Outcome
        ensures { result ≡ refused_as input refusal }
    {
        let code = refusal.reason.code();
        let line = refusal.line;
        match input {
            Input::Start => Outcome::StartRefused { code, line },
            Input::Trace => Outcome::Refused { code, line },
        }
    }

    /// Why a line was refused, where one was and its code is that of a refusal; the outcome of a stream call has no other.
    pub fn refusal(&self) -> Option<Refused>
        ensures code { IfSome result (λ refused. code_in self.now ≡ Some (code_of refused)) }
        ensures none { result ≡ None → IfSome (code_in self.now) (λ code. (code ≡ 0) ⊎ (10 ≤ code)) }
    {
        match self {
            Outcome::Refused { code, .. } | Outcome::StartRefused { code, .. } => {
                Refused::of_code(*code)
            }
            _ => None,
        }
    }

    /// The exit status of a program that ends so: 0 where nothing was found, 1 for findings, 2 for a refused
    /// line, and 3 for out of memory, a fault of a device or a reader whose end wasn't reached.
    pub fn status(&self) -> u8
        ensures { result ≡ status_of self.now }
    {
        match self {
            Outcome::Clean => 0,
            Outcome::Findings => 1,
            Outcome::Refused { .. } | Outcome::StartRefused { .. } => 2,
            Outcome::Memory | Outcome::ReadFault | Outcome::WriteFault | Outcome::TooLong => 3,
        }
    }
}

impl ExplainOutcome {
    /// The exit status of a program that ends so: that of the outcome, and 2 where the trace has no such line.
    pub fn status(&self) -> u8
        ensures { result ≡ explain_status_of self.now }
    {
        match self {
            ExplainOutcome::Ended(outcome) => outcome.status(),
            ExplainOutcome::OutOfRange => 2,
        }
    }
}
