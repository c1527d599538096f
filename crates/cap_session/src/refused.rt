//! Why a session refuses what is asked of it.
ghost use Rattle.std.specs.Prelude.{◌≡◌, ◌≤◌, ◌⊎◌, IfSome, None};
ghost use Rattle.cap_session.specs.Refused.{code_of, refused_line};
ghost use Rattle.cap_session.specs.declared.refused.Refused.TheVariants.{Memory};

use cap_machine::NoMemory;
use cap_trace::LineFault;
use std::alloc::{AllocError, AllocFailed};
use thiserror::Error;

/// Why a session refused a call. It is then as it was before the call.
#[derive(Clone, Copy, Debug, PartialEq, Eq, Error)]
pub enum Refused {
    /// The line has more than 1,024 bytes.
    #[error("the line is longer than 1,024 bytes")]
    LongLine,
    /// The line isn't of the shape `PID NAME(ARGUMENTS) RET RESULT` or `PID @NAME(ARGUMENTS)`.
    #[error("the line has no known shape")]
    Shape,
    /// The pid is no number from 1 to 99,999.
    #[error("the pid is no number from 1 to 99,999")]
    Pid,
    /// An argument is not of its kind, or there is another number of them.
    #[error("an argument is not of its kind")]
    Argument,
    /// A right has no such name.
    #[error("a right has no such name")]
    Right,
    /// The result is none that the call can have.
    #[error("the result is none that the call can have")]
    Answer,
    /// No line has this position, and none can be inserted there.
    #[error("the position is out of range")]
    Position,
    /// The session holds as many lines as its limit.
    #[error("the trace is full")]
    Full,
    /// What was asked can be done, and there was no memory to do it.
    #[error("out of memory")]
    Memory,
}

/// The text that has the line.
#[derive(Clone, Copy)]
pub enum Input {
    Start,
    Trace,
}

/// Why a line is refused, and its number among all lines of its text, from 1.
#[derive(Clone, Copy)]
pub struct Refusal {
    pub reason: Refused,
    pub line: usize,
}

impl Refused {
    /// The number of the refusal in replies: 1 to 6 for the first fault of a line, 7 for the position,
    /// 8 where the trace is full, and 9 for out of memory.
    pub fn code(self) -> u8
        ensures { result ≡ code_of self }
    {
        match self {
            Refused::LongLine => 1,
            Refused::Shape => 2,
            Refused::Pid => 3,
            Refused::Argument => 4,
            Refused::Right => 5,
            Refused::Answer => 6,
            Refused::Position => 7,
            Refused::Full => 8,
            Refused::Memory => 9,
        }
    }

    /// The refusal with this number, by [`code`](Refused::code); `None` where there is none.
    pub fn of_code(code: u8) -> Option<Refused>
        ensures code { IfSome result (λ refused. code_of refused ≡ code) }
        ensures none { result ≡ None → (code ≡ 0) ⊎ (10 ≤ code) }
    {
        match code {
            1 => Some(Refused::LongLine),
            2 => Some(Refused::Shape),
            3 => Some(Refused::Pid),
            4 => Some(Refused::Argument),
            5 => Some(Refused::Right),
            6 => Some(Refused::Answer),
            7 => Some(Refused::Position),
            8 => Some(Refused::Full),
            9 => Some(Refused::Memory),
            _ => None,
        }
    }
}

impl From<LineFault> for Refused {
    ghost from_gives = { λ fault refused. refused ≡ refused_line fault };

    fn from(fault: LineFault) -> Refused {
        match fault {
            LineFault::LongLine => Refused::LongLine,
            LineFault::Shape => Refused::Shape,
            LineFault::Pid => Refused::Pid,
            LineFault::Argument => Refused::Argument,
            LineFault::Right => Refused::Right,
            LineFault::Answer => Refused::Answer,
            LineFault::Memory => Refused::Memory,
        }
    }
}

impl From<NoMemory> for Refused {
    ghost from_gives = { λ _ refused. refused ≡ Memory };

    fn from(_: NoMemory) -> Refused {
        Refused::Memory
    }
}

impl From<cap_tree::NoMemory> for Refused {
    ghost from_gives = { λ _ refused. refused ≡ Memory };

    fn from(_: cap_tree::NoMemory) -> Refused {
        Refused::Memory
    }
}

impl From<AllocError> for Refused {
    ghost from_gives = { λ _ refused. refused ≡ Memory };

    fn from(_: AllocError) -> Refused {
        Refused::Memory
    }
}

impl<T: Drop> From<AllocFailed<T>> for Refused {
    ghost from_gives = { λ _ refused. refused ≡ Memory };

    fn from(_: AllocFailed<T>) -> Refused {
        Refused::Memory
    }
}
