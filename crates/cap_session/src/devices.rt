//! What a stream call reads from and writes to.
//!
//! A contract sees the bytes of a device only where its type shows them: a file's are unknown, and then
//! `None` claims nothing of them. The counts are known of every device.
ghost use Rattle.std.specs.Prelude.{◌≡◌, ◌+◌, ◌<◌, ◌≤◌, length, IfOk};
ghost use Rattle.std.specs.Io.KnownBytes.{ReadConsumes};
ghost use Rattle.cap_session.specs.Devices.{SourceState, SinkState, failed, ended, Takes};

/// The device failed in this call.
#[derive(Clone, Copy, Debug, PartialEq, Eq)]
pub struct Failed;

/// Gives bytes, and counts its calls, its failures and how often it answered that its end is reached.
pub trait Source {
    /// The bytes still to come, the counts, and how many calls can still be counted.
    ghost state: { Self → SourceState };

    /// Gives the next bytes. A failure gives none, and an answer of 0 means the end.
    fn read(&mut self, buffer: &mut [u8]) -> Result<usize, Failed>
        requires some { 0 < length buffer.old }
        requires room { 0 < (state self.old).room }
        ensures within { IfOk result (λ n. n ≤ length buffer.new) }
        ensures bytes { ReadConsumes (state self.old).bytes (state self.new).bytes result buffer.new }
        ensures called { (state self.new).calls ≡ (state self.old).calls + 1 }
        ensures failed { (state self.new).failures ≡ (state self.old).failures + failed result }
        ensures ended { (state self.new).ends ≡ (state self.old).ends + ended result }
        ensures room { (state self.old).room ≤ (state self.new).room + 1 };

    fn room(&self) -> u64
        ensures { result ≡ (state self.now).room };
}

/// Takes bytes, and counts its failures.
pub trait Sink {
    /// The bytes taken, the count, and how many failures can still be counted.
    ghost state: { Self → SinkState };

    /// Takes one byte or more from the front, or fails and takes none.
    fn write(&mut self, bytes: &[u8]) -> Result<usize, Failed>
        requires some { 0 < length bytes.now }
        requires room { 0 < (state self.old).room }
        ensures bytes { Takes (state self.old).taken (state self.new).taken result bytes.now }
        ensures failed { (state self.new).failures ≡ (state self.old).failures + failed result }
        ensures room { (state self.old).room ≡ (state self.new).room + failed result };

    fn room(&self) -> u64
        ensures { result ≡ (state self.now).room };
}
