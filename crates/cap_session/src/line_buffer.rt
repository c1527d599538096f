//! The beginning of a line, in room that is taken before the first read.
ghost use Rattle.std.specs.Prelude.{◌≡◌, ◌≢◌, ◌+◌, ◌<◌, ◌≤◌, ◌↔◌, List, ℕ, [], ◌++◌, length, take, IfOk, OnOk, OnErr};
ghost use Rattle.std.specs.Prelude.{vec_capacity, IsTrue};

use std::alloc::{AllocError, Global};
use std::marker::Model;

/// The bytes would pass the limit.
#[derive(Clone, Copy)]
pub struct NoRoom;

/// At most `LIMIT` bytes of a line whose LF hasn't come.
#[derive(Drop)]
pub struct LineBuffer<const LIMIT: usize> {
    bytes: Vec<u8>,
}

impl<const LIMIT: usize> Model for LineBuffer<LIMIT> {
    ghost Value = { List ℕ };

    ghost view = { λ h. h.bytes.items };

    ghost invariant = { λ h. (length h.bytes.items ≤ LIMIT) × (LIMIT ≤ vec_capacity h.bytes) };
}

impl<const LIMIT: usize> LineBuffer<LIMIT> {
    /// Takes the room.
    pub fn new(alloc: Global) -> Result<LineBuffer<LIMIT>, AllocError>
        ensures { IfOk result (λ h. h ≡ []) }
    {
        Ok(LineBuffer {
            bytes: Vec::with_capacity(alloc, LIMIT)?,
        })
    }

    pub fn is_empty(&self) -> bool
        ensures { IsTrue result ↔ (self.now ≡ []) }
    {
        self.bytes.is_empty()
    }

    pub fn len(&self) -> usize
        ensures { result ≡ length self.now }
    {
        self.bytes.len()
    }

    pub fn as_slice(&self) -> &[u8]
        ensures { result.now ≡ self.now }
    {
        self.bytes.as_slice()
    }

    /// What is held, or these bytes where nothing is.
    #[inline(always)]
    pub fn or<'a>(&'a self, bytes: &'a [u8]) -> &'a [u8]
        ensures held { self.now ≢ [] → result.now ≡ self.now }
        ensures none { self.now ≡ [] → result.now ≡ bytes.now }
    {
        if self.bytes.is_empty() {
            bytes
        } else {
            self.bytes.as_slice()
        }
    }

    /// Adds bytes, and takes no memory. Bytes that would pass the limit are refused, and nothing is added.
    pub fn add(&mut self, bytes: &[u8]) -> Result<(), NoRoom>
        ensures ok { OnOk result (self.new ≡ self.old ++ bytes.now) }
        ensures short { OnOk result (length self.old + length bytes.now ≤ LIMIT) }
        ensures long { OnErr result (LIMIT < length self.old + length bytes.now) }
    {
        if bytes.len() > LIMIT - self.bytes.len() {
            return Err(NoRoom);
        }
        match self.bytes.extend_from_slice(bytes) {
            Ok(()) => Ok(()),
            Err(_) => unreachable!(),
        }
    }

    pub fn clear(&mut self)
        ensures { self.new ≡ [] }
    {
        self.bytes.clear();
    }

    /// Adds bytes as far as there is room, and drops the others.
    pub fn add_front(&mut self, bytes: &[u8])
        ensures { self.new ≡ take LIMIT (self.old ++ bytes.now) }
    {
        let n = bytes.len().min(LIMIT - self.bytes.len());
        if self.bytes.extend_from_slice(&bytes[..n]).is_err() {
            unreachable!();
        }
    }
}
