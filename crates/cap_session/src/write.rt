//! Writing, whatever a writer takes at a time, and how a call ends then.
ghost use Rattle.std.specs.Prelude.{◌<◌, ◌≤◌, OnOk, OnErr};
ghost use Rattle.cap_session.specs.Code.Works.{EndsCall, Writes};
ghost use Rattle.cap_session.specs.Writes.{Wrote, WrotePrefix};
ghost use Rattle.cap_session.specs.declared.outcome.Outcome.TheVariants.{WriteFault};

use crate::devices::{Failed, Sink};
use crate::lines::StopReason;
use crate::outcome::Outcome;
use crate::refused::Input;
use crate::short_text::ShortText;

/// Writes the whole text, or a prefix of it where the writer fails.
pub fn write_text<W: Sink>(writer: &mut W, text: &[u8]) -> Result<(), Failed>
    requires { 1 ≤ (W.state writer.old).room }
    ensures ok { OnOk result (Wrote (W.state writer.old) (W.state writer.new) text.now) }
    ensures err { OnErr result (WrotePrefix (W.state writer.old) (W.state writer.new) text.now) }
{
    let mut rest = text;
    while !rest.is_empty() {
        let n = writer.write(rest)?;
        rest = &rest[n..];
    }
    Ok(())
}

/// Writes a text, and ends as told, or at a fault of the writer.
pub fn write_ending<W: Sink>(text: &[u8], told: Outcome, writer: &mut W) -> Outcome
    requires { 1 ≤ (W.state writer.old).room }
    ensures { Writes text.now told WriteFault (W.state writer.old) (W.state writer.new) result }
{
    match write_text(writer, text) {
        Ok(()) => told,
        Err(Failed) => Outcome::WriteFault,
    }
}

/// Ends a call that stopped. A refused line is written, and nothing else.
pub fn write_stop<W: Sink>(input: Input, stop: StopReason, writer: &mut W) -> Outcome
    requires { 1 ≤ (W.state writer.old).room }
    ensures { EndsCall input stop (W.state writer.old) (W.state writer.new) result }
{
    match stop {
        StopReason::Refused(refusal) => {
            let text = ShortText::of(input, refusal);
            write_ending(text.as_slice(), Outcome::refused(input, refusal), writer)
        }
        _ => Outcome::from(stop),
    }
}
