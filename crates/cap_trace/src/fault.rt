//! Why a line could not be read: the faults that `docs/FORMAT.md` numbers E1 to E6, and out of memory.

use thiserror::Error;

/// The first thing that is wrong with a line, from the left.
#[derive(Clone, Copy)]
pub enum FirstFault {
    /// More than 1,024 bytes.
    LongLine,
    /// The shape of the line.
    Shape,
    /// The pid.
    Pid,
    /// An argument, or how many there are.
    Argument,
    /// A right.
    Right,
    /// The result.
    Answer,
}

/// Why a line was not read: its first fault from the left, or out of memory.
#[derive(Clone, Copy, Debug, PartialEq, Eq, Error)]
pub enum LineFault {
    /// The line has more than 1,024 bytes.
    #[error("the line is longer than 1,024 bytes")]
    LongLine,
    /// The line isn't of the shape `PID NAME(ARGUMENTS) RET RESULT` or `PID @NAME(ARGUMENTS)`.
    #[error("the line has no known shape")]
    Shape,
    /// The pid is no number from 1 to 99,999.
    #[error("the pid is no number from 1 to 99,999")]
    Pid,
    /// An argument is not of its kind, or there is another number of them.
    #[error("an argument is not of its kind")]
    Argument,
    /// A right has no such name.
    #[error("a right has no such name")]
    Right,
    /// The result is none that the call can have.
    #[error("the result is none that the call can have")]
    Answer,
    /// The line is good, and there was no memory to keep it.
    #[error("out of memory")]
    Memory,
}

impl LineFault {
    ghost use Rattle.std.specs.Prelude.{◌≡◌};
    ghost use Rattle.cap_trace.specs.Fault.{line_fault, code_of};

    /// The fault of a line, as a caller sees it.
    pub(crate) fn of(fault: FirstFault) -> LineFault
        ensures { result ≡ line_fault fault }
    {
        match fault {
            FirstFault::LongLine => LineFault::LongLine,
            FirstFault::Shape => LineFault::Shape,
            FirstFault::Pid => LineFault::Pid,
            FirstFault::Argument => LineFault::Argument,
            FirstFault::Right => LineFault::Right,
            FirstFault::Answer => LineFault::Answer,
        }
    }

    /// The number of the fault in reports: 1 for too many bytes, 2 for the shape of the line, 3 for the pid, 4 for an
    /// argument, 5 for a right, 6 for the result, and 9 for out of memory.
    pub fn code(self) -> u8
        ensures { result ≡ code_of self }
    {
        match self {
            LineFault::LongLine => 1,
            LineFault::Shape => 2,
            LineFault::Pid => 3,
            LineFault::Argument => 4,
            LineFault::Right => 5,
            LineFault::Answer => 6,
            LineFault::Memory => 9,
        }
    }
}
