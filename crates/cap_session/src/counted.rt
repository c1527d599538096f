//! [`Counted`] makes a reader or a writer of the stream calls from any `Read` or `Write`: one call of the device for
//! each call, also where the device fails, and counts of both.
ghost use Rattle.std.specs.Prelude.{◌≡◌, ◌+◌, ◌-◌, ◌^◌, ◌<◌, ◌≤◌};
ghost use Rattle.cap_session.specs.Devices.{CountedDevice, nothing_counted, reads_left, faults_left};

use crate::devices::{Failed, Sink, Source};
use std::io::{Read, Write};
use std::marker::Model;

/// A reader or a writer that counts what it did.
#[derive(Drop)]
pub struct Counted<D> {
    device: D,
    calls: u64,
    failures: u64,
    ends: u64,
    faults: u64,
}

impl<D> Model for Counted<D> {
    ghost Value = { CountedDevice D };

    ghost view = { λ s. record {
      device = s.device;
      counts = record { calls = s.calls; failures = s.failures; ends = s.ends; faults = s.faults };
    } };

    ghost invariant = { λ s. (s.failures ≤ s.calls) × (s.ends ≤ s.calls) };
}

impl<D> Counted<D> {
    /// Counts the calls of this device from now on: any `Read` is a `Source` so, and any `Write` a `Sink`.
    pub fn new(device: D) -> Counted<D>
        ensures device { result.device ≡ device }
        ensures counts { result.counts ≡ nothing_counted }
        ensures reads { 2 ^ 32 ≤ reads_left result.counts }
        ensures faults { 2 ^ 32 ≤ faults_left result.counts }
    {
        Counted {
            device,
            calls: 0,
            failures: 0,
            ends: 0,
            faults: 0,
        }
    }
}

impl<R: Read> Source for Counted<R> {
    ghost state = { λ s. record {
      bytes = R.remaining s.device;
      calls = s.counts.calls;
      failures = s.counts.failures;
      ends = s.counts.ends;
      room = reads_left s.counts;
    } };

    fn read(&mut self, buffer: &mut [u8]) -> Result<usize, Failed> {
        self.calls += 1;
        match self.device.read(buffer) {
            Ok(0) => {
                self.ends += 1;
                Ok(0)
            }
            Ok(n) => Ok(n),
            Err(_) => {
                self.failures += 1;
                Err(Failed)
            }
        }
    }

    fn room(&self) -> u64 {
        u64::MAX - self.calls
    }
}

impl<W: Write> Sink for Counted<W> {
    ghost state = { λ s.
        record { taken = W.contents s.device; failures = s.counts.faults; room = faults_left s.counts } };

    fn write(&mut self, bytes: &[u8]) -> Result<usize, Failed> {
        match self.device.write(bytes) {
            Ok(n) if n > 0 => Ok(n),
            _ => {
                self.faults += 1;
                Err(Failed)
            }
        }
    }

    fn room(&self) -> u64 {
        u64::MAX - self.faults
    }
}
