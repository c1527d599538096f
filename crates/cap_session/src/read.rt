//! Reading a text to its end, piece by piece.
ghost use Rattle.std.specs.Prelude.{ℕ, ◌+◌, ◌*◌, ◌^◌, ◌<◌, ◌≤◌, List, [], ◌++◌, length, OnOk, IfErr};
ghost use Rattle.cap_session.specs.Code.Chunks.{TookText, StoppedText, EndedText};
ghost use Rattle.cap_session.specs.Code.Gives.{Gives};
ghost use Rattle.cap_session.specs.Limits.{longest_piece};
ghost use Rattle.cap_session.specs.Texts.{whole_text, refused_so_far};
ghost use Rattle.cap_session.specs.Reads.{Reads};

use crate::devices::{Failed, Source};
use crate::limits::LONGEST_PIECE;
use crate::lines::{LineReader, Lines, StopReason};
use std::alloc::Global;

/// What takes a text piece by piece, and then its end. It may write of it to an output.
pub trait ChunkHandler<O> {
    ghost use Rattle.std.specs.Prelude.{Result};
    ghost use Rattle.cap_session.specs.declared.lines.StopReason.{StopReason};

    /// So many bytes may still come.
    ghost fits: { Self → O → ℕ → Type 0 };

    /// These bytes were taken, from the first value and output to the second.
    ghost took: { Self → O → Self → O → List ℕ → Type 0 };

    /// The first bytes were taken, and the piece after them was not.
    ghost stopped: { Self → O → Self → O → List ℕ → List ℕ → StopReason → Type 0 };

    /// What comes of the end, after these bytes.
    ghost ended: { Self → O → Self → O → List ℕ → Result (Unit {0}) StopReason → Type 0 };

    /// Takes the next piece.
    fn take_piece(&mut self, piece: &[u8], output: &mut O) -> Result<(), StopReason>
        requires short { length piece.now ≤ longest_piece }
        requires fits { (n : ℕ) × (length piece.now ≤ n) × fits self.old output.old n }
        ensures took { (first : Self) (begun : O) (given : List ℕ) → took first begun self.old output.old given
            → OnOk result (took first begun self.new output.new (given ++ piece.now)) }
        ensures stopped { (first : Self) (begun : O) (given : List ℕ) → took first begun self.old output.old given
            → IfErr result (λ stop. stopped first begun self.new output.new given piece.now stop) }
        ensures fits { (n more : ℕ) → more + length piece.now ≤ n → fits self.old output.old n
            → OnOk result (fits self.new output.new more) };

    /// Takes the end.
    fn take_end(&mut self, output: &mut O) -> Result<(), StopReason>
        requires { (n : ℕ) × fits self.old output.old n }
        ensures { (first : Self) (begun : O) (given : List ℕ) → took first begun self.old output.old given
            → ended first begun self.new output.new given result };
}

/// Reads a text to its end and gives it on, with room for a piece.
pub fn read_chunks<O, T: ChunkHandler<O>, R: Source>(
    turns: u64,
    reader: &mut R,
    taker: &mut T,
    output: &mut O,
    piece: &mut [u8],
) -> Result<(), StopReason>
    requires calls { turns ≤ (R.state reader.old).room }
    requires begins { T.took taker.old output.old taker.old output.old [] }
    requires fits { T.fits taker.old output.old (longest_piece * turns) }
    requires some { 0 < length piece.old }
    requires most { length piece.old ≤ longest_piece }
    ensures { Gives (T.took taker.old output.old taker.new output.new)
        (T.stopped taker.old output.old taker.new output.new)
        (T.ended taker.old output.old taker.new output.new) turns (R.state reader.old) (R.state reader.new) result }
{
    for _turn in 0..turns {
        match reader.read(piece) {
            Err(Failed) => return Err(StopReason::ReadFault),
            Ok(0) => return taker.take_end(output),
            Ok(n) => taker.take_piece(&piece[..n], output)?,
        }
    }
    Err(StopReason::TooLong)
}

impl<L: Lines> ChunkHandler<()> for LineReader<L> {
    ghost fits = { λ s _ n. s.number + n + 1 < 2 ^ 64 };

    ghost took = { λ s _ t _ given. TookText L.next (L.follows s.lines) (L.follows t.lines) t.number t.held given };

    ghost stopped = { λ s _ t _ front piece stop. StoppedText L.next (L.follows s.lines)
        (L.follows t.lines) t.number t.held front piece stop };

    ghost ended = { λ s _ t _ given result. EndedText L.next (L.follows s.lines) (L.holds t.lines) given result };

    fn take_piece(&mut self, piece: &[u8], _output: &mut ()) -> Result<(), StopReason> {
        self.feed(piece)
    }

    fn take_end(&mut self, _output: &mut ()) -> Result<(), StopReason> {
        self.end()
    }
}

/// Reads a text to its end, or to its first refused line. What is known of its lines is in the answer.
pub fn read_text<L: Lines, R: Source>(
    alloc: Global,
    turns: u64,
    reader: &mut R,
    lines: L,
) -> Result<L, StopReason>
    requires turns { turns ≤ 2 ^ 32 }
    requires calls { turns ≤ (R.state reader.old).room }
    ensures { (start : L.Known) → L.follows lines start → Reads (whole_text L.next start)
        (refused_so_far L.next start) L.holds turns (R.state reader.old) (R.state reader.new) result }
{
    let Ok(mut buffer) = vec![in alloc; 0u8; LONGEST_PIECE] else {
        return Err(StopReason::Memory);
    };
    let Ok(mut reading) = LineReader::new(alloc, lines) else {
        return Err(StopReason::Memory);
    };
    read_chunks(turns, reader, &mut reading, &mut (), buffer.as_mut_slice())?;
    Ok(reading.lines)
}
