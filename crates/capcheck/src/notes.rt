//! What a run notes for its words on standard error: the text that it opened or read last, the line that was reached
//! there, and the last error of a device. No contract reads it.
ghost use Rattle.std.specs.Prelude.{◌≡◌};

use cap_session::LONGEST_SCRIPT_LINE;
use std::alloc::Global;
use std::cell::{Cell, RefCell};
use std::io;
use std::io::Read;

/// Of a line whose end didn't come yet so many bytes are kept, more than a line may have.
const LONGEST_BEGINNING: usize = 2048;

/// The number of the start, the first text of a run. The trace is the second.
pub const START: usize = 0;

/// The number of the script, the third.
pub const SCRIPT: usize = 2;

/// The notes of a run. Of what is read something is kept only where words are wanted.
#[derive(Drop)]
pub struct Notes {
    pub are_wanted: Cell<bool>,
    /// How many texts were opened, or couldn't be. One that isn't named is opened too, as an empty text.
    opened: Cell<usize>,
    /// Which of them was opened or read last. They count from 0, in the order in which they are opened.
    pub at: Cell<usize>,
    /// The last error of a device.
    pub error: Cell<Option<io::Error>>,
    /// What was read last, of the text that was read last.
    pub recent: RefCell<Recent>,
    /// The name of the script that is replied to, where words are wanted.
    pub script: RefCell<Option<String>>,
    /// How many of its lines were replied to.
    pub replies: Cell<usize>,
}

impl Notes {
    /// No notes yet, of a run that is to say why there is no report.
    pub fn new(alloc: Global, are_wanted: bool) -> Notes {
        Notes {
            are_wanted: Cell::new(are_wanted),
            opened: Cell::new(0),
            at: Cell::new(0),
            error: Cell::new(None),
            recent: RefCell::new(Recent {
                bytes: Vec::new(alloc),
                before: Tally::NONE,
                is_lost: false,
            }),
            script: RefCell::new(None),
            replies: Cell::new(0),
        }
    }

    /// A text is about to be opened: its number.
    pub fn open(&self) -> usize {
        let number = self.opened.get();
        self.opened.set(number.saturating_add(1));
        self.at.set(number);
        number
    }

    /// These bytes were read of this text.
    fn read(&self, number: usize, piece: &[u8]) {
        let before = self.at.replace(number);
        if !self.are_wanted.get() {
            return;
        }
        if let Ok(mut recent) = self.recent.try_borrow_mut() {
            recent.take(number == before, piece);
        }
    }
}

/// What was read last of a text: a piece, from the beginning of the line in which it begins.
#[derive(Drop)]
pub struct Recent {
    bytes: Vec<u8>,
    /// How many lines ended before these bytes, and how many of those have a position.
    before: Tally,
    /// Whether memory ran out for some bytes.
    is_lost: bool,
}

/// How many lines there are, and how many of them are neither empty nor a comment.
#[derive(Clone, Copy)]
struct Tally {
    lines: usize,
    positions: usize,
}

impl Tally {
    const NONE: Tally = Tally {
        lines: 0,
        positions: 0,
    };

    /// With this line. A comment that is longer than any line is answered, as any other line.
    fn and(self, line: &[u8]) -> Tally {
        let is_comment = line.starts_with(b"#") && line.len() <= LONGEST_SCRIPT_LINE;
        let is_skipped = line.is_empty() || is_comment;
        Tally {
            lines: self.lines.saturating_add(1),
            positions: self.positions.saturating_add(!is_skipped as usize),
        }
    }

    /// With the lines of this text.
    fn and_all(self, text: &[u8]) -> Tally {
        text.split(|byte| *byte == b'\n')
            .fold(self, |all, line| all.and(line))
    }
}

impl Recent {
    /// The next piece of the text, or the first of another. Lines that ended before it are counted and dropped.
    fn take(&mut self, is_same: bool, piece: &[u8]) {
        if !is_same {
            self.bytes.clear();
            self.before = Tally::NONE;
            self.is_lost = false;
        } else if let Some(last) = self.bytes.iter().rposition(|byte| *byte == b'\n') {
            self.before = self.before.and_all(&self.bytes[..last]);
            self.bytes.drain(..last + 1);
        }
        self.bytes.truncate(LONGEST_BEGINNING);
        if self.bytes.extend_from_slice(piece).is_err() {
            self.is_lost = true;
        }
    }

    fn bytes(&self) -> Option<&[u8]> {
        if self.is_lost {
            None
        } else {
            Some(self.bytes.as_slice())
        }
    }

    /// The line of this number, counted from 1, as far as it was read.
    pub fn line(&self, number: usize) -> Option<&[u8]> {
        let further = number.checked_sub(self.before.lines)?.checked_sub(1)?;
        self.bytes()?.split(|byte| *byte == b'\n').nth(further)
    }

    /// The number of the line that has this position.
    pub fn line_of(&self, position: usize) -> Option<usize> {
        let mut all = self.before;
        for line in self.bytes()?.split(|byte| *byte == b'\n') {
            let before = all.positions;
            all = all.and(line);
            if before < position && position <= all.positions {
                return Some(all.lines);
            }
        }
        None
    }

    /// How many lines of the text have a position, once it was read to its end.
    pub fn positions(&self) -> Option<usize> {
        Some(self.before.and_all(self.bytes()?).positions)
    }
}

/// A reader, with notes of what is read and of errors.
#[derive(Drop)]
pub struct Noted<'a, D> {
    device: D,
    number: usize,
    notes: &'a Notes,
}

impl<'a, D> Noted<'a, D> {
    /// Notes of the text of this number from now on.
    pub fn new(device: D, number: usize, notes: &'a Notes) -> Noted<'a, D>
        ensures { result.device ≡ device }
    {
        Noted {
            device,
            number,
            notes,
        }
    }
}

impl<D: Read> Read for Noted<'_, D> {
    ghost remaining = { λ n. D.remaining n.device };

    fn read(&mut self, buf: &mut [u8]) -> io::Result<usize> {
        match self.device.read(buf) {
            Ok(n) => {
                self.notes.read(self.number, &buf[..n]);
                Ok(n)
            }
            Err(error) => {
                self.notes.at.set(self.number);
                self.notes.error.set(Some(error));
                Err(error)
            }
        }
    }
}
