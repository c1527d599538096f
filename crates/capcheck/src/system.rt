//! What the program asks of a system: its [`Arguments`], and what a [`System`] opens. [`Host`] is the one that it runs on.
//!
//! The kit's contracts of these calls say nothing of arguments and names. So what is said is what the calls came to, over any
//! system. Each call of `Host` is one of the kit's, and tests show that it passes the name on.
ghost use Rattle.std.specs.Prelude.{List, ℕ, Option, map, string_bytes, ⊤};
ghost use Rattle.std.specs.Option.{option_map};
ghost use Rattle.std.specs.Result.{result_ok};

use std::fs::File;
use std::io::Read;
use std::rt::{Env, Files};
use std::{env, io};

/// The arguments of a process.
pub trait Arguments {
    /// Reading the arguments may come to these, or to none.
    ghost may_be: { Self → Option (List (List ℕ)) → Type 0 };

    /// Reads the arguments. The first is the name of the program.
    fn read(&self) -> io::Result<Vec<String>>
        ensures { may_be self.now (option_map (λ all. map string_bytes all.items) (result_ok result)) };
}

/// Files and standard input.
pub trait System {
    /// What gives the bytes of a file.
    type File: Read + Drop;

    /// What gives those of standard input.
    type Input: Read + Drop;

    /// Opening the file of a name may come to this one, or to none, and leave the system so.
    ghost opens: { Self → List ℕ → Option Self.File → Self → Type 0 };

    /// Asking for standard input may come to this one, and leave the system so.
    ghost gives: { Self → Self.Input → Self → Type 0 };

    fn open(&mut self, name: &str) -> io::Result<Self::File>
        ensures { opens self.old name.now (result_ok result) self.new };

    fn input(&mut self) -> Self::Input
        ensures { gives self.old result self.new };
}

/// The system that a runtime stands for. Its calls may come to anything.
#[derive(Drop)]
pub struct Host<'a, R> {
    rt: &'a R,
}

impl<'a, R> Host<'a, R> {
    pub fn new(rt: &'a R) -> Host<'a, R> {
        Host { rt }
    }
}

impl<R: Env + AllocGlobal> Arguments for Host<'_, R> {
    ghost may_be = { λ _ _. ⊤ };

    fn read(&self) -> io::Result<Vec<String>> {
        Ok(env::args(self.rt)?.collect(self.rt.alloc())?)
    }
}

impl<R: Files + Input> System for Host<'_, R> {
    type File = R::File;

    type Input = R::Reader;

    ghost opens = { λ _ _ _ _. ⊤ };

    ghost gives = { λ _ _ _. ⊤ };

    fn open(&mut self, name: &str) -> io::Result<R::File> {
        File::open(self.rt, name)
    }

    fn input(&mut self) -> R::Reader {
        self.rt.reader()
    }
}
