//! Short texts: that of a refused line, and replies.
ghost use Rattle.std.specs.Prelude.{◌≡◌, ◌+◌, ◌≤◌, List, ℕ, [], ◌++◌, length, take, decimal};
ghost use Rattle.cap_session.specs.Refusal.{input_words, line_feed, refusal_text, refused_text};

use crate::refused::{Input, Refusal};
use itoa::Buffer;
use std::marker::Model;

/// Room for the longest text: 9 and 12 bytes of words, 3 and 20 digits, and LF.
const ROOM: usize = 45;

/// The words before the number of a refused line.
fn words_of(input: Input) -> &'static [u8]
    ensures words { result.now ≡ input_words input }
    ensures short { length result.now ≤ 12 }
{
    match input {
        Input::Start => b" start line ",
        Input::Trace => b" line ",
    }
}

/// A short text, in room of its own.
#[derive(Drop)]
pub struct ShortText {
    bytes: [u8; ROOM],
    len: usize,
}

impl Model for ShortText {
    ghost Value = { List ℕ };

    ghost view = { λ t. take t.len t.bytes };

    ghost invariant = { λ t. t.len ≤ 45 };
}

impl ShortText {
    /// The empty text.
    pub fn new() -> ShortText
        ensures { result ≡ [] }
    {
        ShortText {
            bytes: [0; ROOM],
            len: 0,
        }
    }

    /// Adds a part.
    fn add(&mut self, part: &[u8])
        requires { length self.old + length part.now ≤ 45 }
        ensures { self.new ≡ self.old ++ part.now }
    {
        let end = self.len + part.len();
        self.bytes[self.len..end].copy_from_slice(part);
        self.len = end;
    }

    /// The text of a refused line.
    #[tactic(auto, unfolding(crate::specs::Refusal::refusal_text))]
    pub fn of(input: Input, refusal: Refusal) -> ShortText
        ensures { result ≡ refusal_text input refusal }
    {
        let mut text = ShortText::new();
        let mut digits = Buffer::new();
        text.add(b"refused E");
        text.add(digits.format(refusal.reason.code()).as_bytes());
        text.add(words_of(input));
        text.add(digits.format(refusal.line).as_bytes());
        text.add(b"\n");
        text
    }

    /// Words, a number and LF.
    pub fn numbered(words: &[u8], number: u64) -> ShortText
        requires { length words.now ≤ 20 }
        ensures { result ≡ words.now ++ decimal number ++ line_feed }
    {
        let mut text = ShortText::new();
        let mut digits = Buffer::new();
        text.add(words);
        text.add(digits.format(number).as_bytes());
        text.add(b"\n");
        text
    }

    /// `refused E7` and LF.
    pub fn refused(code: u8) -> ShortText
        ensures { result ≡ refused_text code }
    {
        ShortText::numbered(b"refused E", u64::from(code))
    }

    pub fn as_slice(&self) -> &[u8]
        ensures { result.now ≡ self.now }
    {
        &self.bytes[..self.len]
    }
}
