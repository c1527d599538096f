//! Where the bytes end that may stand in a name of a flag, or for themselves in a path, or that aren't some byte. They
//! are tested four at a time, so that one test of the length serves four bytes.

ghost use Rattle.std.specs.Prelude.{◌≡◌, ◌≤◌, ◌+◌, length, IfSome, MatchOption};
ghost use Rattle.cap_trace.specs.Code.Runs.{has, Runs, RunsTo};

use crate::fields::{flag_byte, plain};

/// What the bytes are of.
#[derive(Clone, Copy)]
pub(crate) enum Run {
    /// The name of a flag.
    Name,
    /// A path without escapes.
    Path,
    /// Any other bytes than this one.
    Until(u8),
}

impl Run {
    #[inline(always)]
    fn has(self, byte: u8) -> bool
        ensures { result ≡ has self byte }
    {
        match self {
            Run::Name => flag_byte(byte),
            Run::Path => plain(byte),
            Run::Until(stop) => byte != stop,
        }
    }

    /// The place of the first of four bytes that doesn't belong to the run.
    #[inline(always)]
    pub(crate) fn end_in_four(self, text: &[u8], from: usize) -> Option<usize>
        requires { from + 4 ≤ length text.now }
        ensures { MatchOption result (Runs self text.now from (from + 4)) (λ i. RunsTo self text.now from i) }
    {
        if !self.has(text[from]) {
            Some(from)
        } else if !self.has(text[from + 1]) {
            Some(from + 1)
        } else if !self.has(text[from + 2]) {
            Some(from + 2)
        } else if !self.has(text[from + 3]) {
            Some(from + 3)
        } else {
            None
        }
    }

    /// The place where a run from this place ends, if it isn't near the end of the text.
    #[inline(always)]
    pub(crate) fn end(self, text: &[u8], from: usize) -> Option<usize>
        requires { from ≤ length text.now }
        ensures { IfSome result (λ i. RunsTo self text.now from i) }
    {
        let mut at = from;
        while text.len() - at >= 4 {
            if let Some(end) = self.end_in_four(text, at) {
                return Some(end);
            }
            at += 4;
        }
        None
    }
}
