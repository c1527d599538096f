//! Writing a text, whatever a writer takes at a time.
ghost use Rattle.std.specs.Prelude.{◌≤◌, OnErr, OnOk};
ghost use Rattle.cap_session.specs.Writes.{Wrote, WrotePrefix};

use cap_session::{Failed, Sink};

/// Writes the whole text, or a prefix of it where the writer fails.
pub fn write_text<W: Sink>(writer: &mut W, text: &[u8]) -> Result<(), Failed>
    requires { 1 ≤ (W.state writer.old).room }
    ensures ok { OnOk result (Wrote (W.state writer.old) (W.state writer.new) text.now) }
    ensures err { OnErr result (WrotePrefix (W.state writer.old) (W.state writer.new) text.now) }
{
    let mut rest = text;
    while !rest.is_empty() {
        let n = writer.write(rest)?;
        rest = &rest[n..];
    }
    Ok(())
}
