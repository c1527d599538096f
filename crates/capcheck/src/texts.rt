//! The texts that a run reads, by their names: [`Texts`] for any source of texts, and [`SystemTexts`] for files and
//! standard input.
//!
//! Contracts say of a text what is known of its bytes: of a file nothing, and over texts in memory all.
ghost use Rattle.std.specs.Prelude.{◌≡◌, ◌^◌, ◌≤◌, List, [], Some, ℕ, Option, IfErr, IfOk, is_some};
ghost use Rattle.std.specs.Option.{option_map};
ghost use Rattle.std.specs.Result.{result_ok};
ghost use Rattle.capcheck.specs.Texts.{Gives, Known, MayFail, OpensFrom, is_file, remaining_of, unknown};

use crate::notes::{Noted, Notes};
use crate::system::System;
use cap_session::{Counted, Failed, Source};
use std::io;
use std::io::Read;

/// Opens texts by their names.
pub trait Texts {
    /// What gives the bytes of an opened text.
    type Reader: Source + Drop;

    /// What is known of the text of a name, and without one of standard input.
    ghost known: { Self → Option (List ℕ) → Known };

    /// What opening the text of a name comes to: from these texts, to a reader or to none, and to these texts. Only a call of
    /// `open` shows it, so it says which names were opened, and how often.
    ghost opens: { Self → Option (List ℕ) → Option Self.Reader → Self → Type 0 };

    /// Opens the text of this name, or standard input where there is none.
    fn open(&mut self, name: Option<&str>) -> Result<Self::Reader, Failed>
        ensures opened { opens self.old (option_map (λ n. n.now) name.entry) (result_ok result) self.new }
        ensures text { IfOk result
            (λ r. Gives (known self.old (option_map (λ n. n.now) name.entry)) (Self.Reader.state r).bytes) }
        ensures room { IfOk result (λ r. 2 ^ 32 ≤ (Self.Reader.state r).room) }
        ensures fails { IfErr result (λ _. MayFail (known self.old (option_map (λ n. n.now) name.entry))) }
        ensures same { known self.new ≡ known self.old };

    /// A text without any bytes.
    fn empty(&self) -> Self::Reader
        ensures text { (Self.Reader.state result).bytes ≡ Some [] }
        ensures room { 2 ^ 32 ≤ (Self.Reader.state result).room };
}

/// The files of a system and standard input, with notes of what is read. Of their bytes nothing is known.
#[derive(Drop)]
pub struct SystemTexts<'a, S: Drop> {
    system: S,
    notes: &'a Notes,
}

impl<'a, S: System + Drop> SystemTexts<'a, S> {
    pub fn new(system: S, notes: &'a Notes) -> SystemTexts<'a, S>
        ensures { result.system ≡ system }
    {
        SystemTexts { system, notes }
    }
}

impl<'a, S: System + Drop> Texts for SystemTexts<'a, S> {
    type Reader = Counted<Noted<'a, Opened<S::File, S::Input>>>;

    ghost known = { λ _ _. unknown };

    ghost opens = { λ s name r t.
        OpensFrom S.opens S.gives s.system name (option_map (λ text. text.device.device) r) t.system };

    fn open(
        &mut self,
        name: Option<&str>,
    ) -> Result<Counted<Noted<'a, Opened<S::File, S::Input>>>, Failed> {
        let number = self.notes.open();
        match open(&mut self.system, name) {
            Ok(opened) => Ok(Counted::new(Noted::new(opened, number, self.notes))),
            Err(error) => {
                self.notes.error.set(Some(error));
                Err(Failed)
            }
        }
    }

    fn empty(&self) -> Counted<Noted<'a, Opened<S::File, S::Input>>> {
        Counted::new(Noted::new(Opened::Empty, self.notes.open(), self.notes))
    }
}

/// A file, standard input, or nothing.
///
/// None is buffered here: each read is one system call into the caller's buffer.
#[derive(Drop)]
pub enum Opened<F: Drop, S: Drop> {
    File(F),
    Standard(S),
    Empty,
}

/// Opens the file of this name, or standard input where there is none.
fn open<S: System>(system: &mut S, name: Option<&str>) -> io::Result<Opened<S::File, S::Input>>
    ensures opened { OpensFrom S.opens S.gives system.old (option_map (λ n. n.now) name.entry)
        (result_ok result) system.new }
    ensures file { IfOk result (λ opened. is_file opened ≡ is_some name.entry) }
{
    match name {
        Some(name) => Ok(Opened::File(system.open(name)?)),
        None => Ok(Opened::Standard(system.input())),
    }
}

impl<F: Read + Drop, S: Read + Drop> Read for Opened<F, S> {
    ghost remaining = { remaining_of F.remaining S.remaining };

    fn read(&mut self, buf: &mut [u8]) -> io::Result<usize> {
        match self {
            Opened::File(file) => file.read(buf),
            Opened::Standard(input) => input.read(buf),
            Opened::Empty => Ok(0),
        }
    }
}
