//! Readers and writers that are cut and broken at will.

ghost use Rattle.std.specs.Prelude.{◌≡◌, ◌+◌, ◌-◌, ◌^◌, ◌<◌, ◌≤◌, None, Some};

use cap_session::{Failed, Sink, Source};

/// The bytes of a slice, at most `size` a call. One call, counted from 1, fails.
#[derive(Drop)]
pub struct Pieces<'a> {
    rest: &'a [u8],
    size: usize,
    fails_at: u64,
    pub calls: u64,
    failures: u64,
    ends: u64,
    ghost some: { 0 < size },
    ghost failures_fit: { failures ≤ calls },
    ghost ends_fit: { ends ≤ calls },
}

impl<'a> Pieces<'a> {
    pub fn new(bytes: &'a [u8], size: usize, fails_at: u64) -> Pieces<'a>
        requires { 0 < size }
        ensures { result.calls ≡ 0 }
    {
        Pieces {
            rest: bytes,
            size,
            fails_at,
            calls: 0,
            failures: 0,
            ends: 0,
        }
    }
}

impl<'a> Source for Pieces<'a> {
    ghost state = { λ s. record { bytes = Some s.rest.now; calls = s.calls; failures = s.failures; ends = s.ends; room = 2 ^ 64 - 1 - s.calls } };

    fn read(&mut self, buffer: &mut [u8]) -> Result<usize, Failed> {
        self.calls += 1;
        if self.calls == self.fails_at {
            self.failures += 1;
            return Err(Failed);
        }
        if self.rest.is_empty() {
            self.ends += 1;
            return Ok(0);
        }
        let n = self.size.min(buffer.len()).min(self.rest.len());
        let rest = self.rest;
        buffer[..n].copy_from_slice(&rest[..n]);
        self.rest = &rest[n..];
        Ok(n)
    }

    fn room(&self) -> u64 {
        u64::MAX - self.calls
    }
}

/// Keeps what it takes, at most `size` bytes a call, and fails once it has `most`, or 512.
#[derive(Drop)]
pub struct Kept {
    bytes: [u8; 512],
    len: usize,
    size: usize,
    most: usize,
    faults: u64,
    ghost fits: { len ≤ 512 },
}

impl Kept {
    pub fn new(size: usize, most: usize) -> Kept
        ensures { result.faults ≡ 0 }
    {
        Kept {
            bytes: [0; 512],
            len: 0,
            size,
            most: most.min(512),
            faults: 0,
        }
    }

    pub fn text(&self) -> &[u8] {
        &self.bytes[..self.len]
    }
}

impl Sink for Kept {
    ghost state = { λ s. record { taken = None; failures = s.faults; room = 2 ^ 64 - 1 - s.faults } };

    fn write(&mut self, bytes: &[u8]) -> Result<usize, Failed> {
        let n = self
            .size
            .min(bytes.len())
            .min(self.most.saturating_sub(self.len))
            .min(512 - self.len);
        if n == 0 {
            self.faults += 1;
            return Err(Failed);
        }
        let end = self.len + n;
        self.bytes[self.len..end].copy_from_slice(&bytes[..n]);
        self.len = end;
        Ok(n)
    }

    fn room(&self) -> u64 {
        u64::MAX - self.faults
    }
}
