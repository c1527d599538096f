//! Reading the answer of a call: what follows ` RET `, by the kind of result that the call has. Nothing here takes
//! memory.

ghost use Rattle.cap_trace.specs.Limits.{largest_fd};
ghost use Rattle.cap_trace.specs.Number.{num_at};
ghost use Rattle.cap_trace.specs.Reading.{Gives, number_at, same_at, pair_at, any_at, made_at, answer_at};
ghost use Rattle.cap_trace.specs.Quotes.{cut_at_byte};

use crate::calls::ResultKind;
use crate::fault::FirstFault;
use crate::limits::{LARGEST_ERRNO, LARGEST_FD, LARGEST_PID};
use crate::line::Answer;
use crate::number::number_of;
use crate::quotes::cut;

/// Two numbers with a comma between them, each at most so much.
fn pair(most: u64, most_second: u64, text: &[u8]) -> Result<Answer, FirstFault>
    ensures { Gives (λ a. a) result (pair_at most most_second (cut_at_byte 44 text.now)) }
{
    let Some((first, second)) = cut(b',', text) else {
        return Err(FirstFault::Answer);
    };
    match (number_of(most, first), number_of(most_second, second)) {
        (Some(first), Some(second)) => Ok(Answer::Pair(first, second)),
        _ => Err(FirstFault::Answer),
    }
}

/// A number, at most so much.
#[inline(always)]
fn number(most: u64, text: &[u8]) -> Result<Answer, FirstFault>
    ensures { Gives (λ a. a) result (number_at (num_at most text.now)) }
{
    number_of(most, text)
        .map(Answer::Made)
        .ok_or(FirstFault::Answer)
}

/// The descriptor that the call was given.
fn same(fd: u32, text: &[u8]) -> Result<Answer, FirstFault>
    ensures { Gives (λ a. a) result (same_at fd (num_at largest_fd text.now)) }
{
    match number_of(u64::from(LARGEST_FD), text) {
        Some(made) if made == u64::from(fd) => Ok(Answer::Made(made)),
        Some(_) => Err(FirstFault::Argument),
        None => Err(FirstFault::Answer),
    }
}

/// A number or two.
fn any(text: &[u8]) -> Result<Answer, FirstFault>
    ensures { Gives (λ a. a) result (any_at text.now (cut_at_byte 44 text.now)) }
{
    match number_of(u64::MAX, text) {
        Some(number) => Ok(Answer::Made(number)),
        None => pair(u64::MAX, u64::MAX, text),
    }
}

/// The result of a call of this kind, without an errno.
#[inline(always)]
#[tactic(auto, unfolding(crate::specs::Reading::made_at))]
fn made(kind: ResultKind, text: &[u8]) -> Result<Answer, FirstFault>
    ensures { Gives (λ a. a) result (made_at kind text.now) }
{
    match kind {
        ResultKind::Count => number(u64::MAX, text),
        ResultKind::Zero => number(0, text),
        ResultKind::Fd => number(u64::from(LARGEST_FD), text),
        ResultKind::Same(fd) => same(fd, text),
        ResultKind::FdPair => pair(u64::from(LARGEST_FD), u64::from(LARGEST_FD), text),
        ResultKind::Child => number(u64::from(LARGEST_PID), text),
        ResultKind::ChildAndFd => pair(u64::from(LARGEST_PID), u64::from(LARGEST_FD), text),
        ResultKind::Any => any(text),
    }
}

/// What follows the arguments of a call.
#[inline(always)]
#[tactic(auto, unfolding(crate::specs::Reading::answer_at))]
pub(crate) fn answer(kind: ResultKind, tail: &[u8]) -> Result<Answer, FirstFault>
    ensures { Gives (λ a. a) result (answer_at kind tail.now) }
{
    let Some(text) = tail.strip_prefix(b" RET ".as_slice()) else {
        return Err(FirstFault::Shape);
    };
    match text.strip_prefix(b"-1 errno ".as_slice()) {
        None => made(kind, text),
        Some(number) => match number_of(LARGEST_ERRNO, number) {
            Some(errno) if errno != 0 => Ok(Answer::Fault(errno as u16)),
            _ => Err(FirstFault::Answer),
        },
    }
}
