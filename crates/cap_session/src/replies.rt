//! A script is replied to as it comes: each reply is written before the next line is looked at.
ghost use Rattle.std.specs.Prelude.{◌≡◌, ◌+◌, ◌^◌, ◌<◌, ◌≤◌, [], ◌++◌, length};
ghost use Rattle.cap_session.specs.EditStreams.{RepliesToAll};
ghost use Rattle.cap_session.specs.Limits.{longest_piece};
ghost use Rattle.cap_session.specs.Code.Chunks.{TookScript, StoppedScript, EndedScript};

use crate::devices::{Failed, Sink, Source};
use crate::lines::StopReason;
use crate::read::{ChunkHandler, read_chunks};
use crate::script::Script;

impl<W: Sink> ChunkHandler<W> for Script {
    ghost fits = { λ _ w _. 1 ≤ (W.state w).room };

    ghost took = { λ s w t v given. TookScript s t (W.state w) (W.state v) given };

    ghost stopped = { λ s w t v front piece stop. StoppedScript s t (W.state w) (W.state v) (front ++ piece) stop };

    ghost ended = { λ s w t v given result. EndedScript s t (W.state w) (W.state v) given result };

    fn take_piece(&mut self, piece: &[u8], output: &mut W) -> Result<(), StopReason> {
        match self.feed(piece, output) {
            Ok(()) => Ok(()),
            Err(Failed) => Err(StopReason::WriteFault),
        }
    }

    fn take_end(&mut self, output: &mut W) -> Result<(), StopReason> {
        match self.end(output) {
            Ok(()) => Ok(()),
            Err(Failed) => Err(StopReason::WriteFault),
        }
    }
}

/// Replies to a script as it comes, with room for a piece.
pub fn reply_all<R: Source, W: Sink>(
    turns: u64,
    reader: &mut R,
    writer: &mut W,
    script: &mut Script,
    piece: &mut [u8],
) -> Result<(), StopReason>
    requires turns { turns ≤ 2 ^ 32 }
    requires calls { turns ≤ (R.state reader.old).room }
    requires failure { 1 ≤ (W.state writer.old).room }
    requires begins { script.old.held ≡ [] }
    requires some { 0 < length piece.old }
    requires most { length piece.old ≤ longest_piece }
    ensures all { RepliesToAll script.old.setting turns (R.state reader.old) (R.state reader.new) (W.state writer.old)
        (W.state writer.new) script.old.state script.new.state result }
    ensures setting { script.new.setting ≡ script.old.setting }
{
    read_chunks(turns, reader, script, writer, piece)
}
