//! The state after a start and effects, and what holds there.

ghost use Rattle.std.specs.Prelude.{◌≡◌};
ghost use Rattle.cap_summary.specs.{Effects.state_before, Preconditions.is_met, Preconditions.is_wrongful, findings_of};
ghost use Rattle.cap_summary.specs.{Asks.any_holds, Asks.holds, Keys.cells_of, list_any};

use crate::view::Seen;
use crate::{Ask, Effect, Key, Precondition, UpToThree, cell_of_mode, mode_of_cell};
use cap_machine::{Cell, Checks, Machine, Mode, Op, Requirement, Start, Verdict};
use cap_trace::{Fd, Pid};

/// A start, what a machine knows, or what effects make of one of these.
#[derive(Clone, Copy)]
pub enum Before<'a> {
    /// A start.
    At(&'a Start),
    /// What a machine knows.
    Now(&'a Machine),
    /// What an effect makes of the state before it.
    After(&'a Before<'a>, &'a Effect),
}

impl<'a> Before<'a> {
    /// What is known of a cell: of a descriptor, or of a mode as a cell.
    pub(crate) fn read(&self, pid: Pid, key: Key) -> Cell
        ensures { result ≡ cells_of (state_before self.now) pid key }
    {
        match self {
            Before::At(start) => match key {
                Key::Mode => cell_of_mode(start.mode(pid)),
                Key::Fd(fd) => start.cell(pid, fd),
            },
            Before::Now(machine) => match key {
                Key::Mode => cell_of_mode(machine.mode(pid)),
                Key::Fd(fd) => machine.cell(pid, fd),
            },
            Before::After(before, effect) => {
                let cell = match effect.view(pid, key) {
                    Seen::Is(cell) => cell,
                    Seen::Same(source, at) => before.read(source, at),
                    Seen::Executed(source, at) => Op::exec().on(before.read(source, at)),
                    Seen::Made(op, source, at) => op.get().on(before.read(source, at)),
                };
                match key {
                    Key::Mode => cell_of_mode(mode_of_cell(cell)),
                    Key::Fd(_) => cell,
                }
            }
        }
    }

    /// What is known of a descriptor of a process.
    pub fn cell(&self, pid: Pid, fd: Fd) -> Cell
        ensures { result ≡ (state_before self.now).cell pid fd }
    {
        self.read(pid, Key::Fd(fd))
    }

    /// What is known of the mode of a process.
    pub fn mode(&self, pid: Pid) -> Mode
        ensures { result ≡ (state_before self.now).mode pid }
    {
        mode_of_cell(self.read(pid, Key::Mode))
    }

    fn holds(&self, ask: &Ask) -> bool
        ensures { result ≡ holds (cells_of (state_before self.now)) ask.now }
    {
        ask.passes(self.read(ask.pid, ask.key))
    }

    fn any_holds(&self, asks: &[Ask]) -> bool
        ensures { result ≡ any_holds (cells_of (state_before self.now)) asks.now }
    {
        asks.iter().any(|ask| self.holds(ask))
    }

    fn any_is_wrongful(&self, refusals: &[UpToThree]) -> bool
        ensures { result ≡ list_any (is_wrongful (cells_of (state_before self.now))) refusals.now }
    {
        refusals.iter().any(|asks| !self.any_holds(asks.as_slice()))
    }

    /// Whether something is found in a segment that begins here.
    pub fn meets(&self, precondition: &Precondition) -> bool
        ensures { result ≡ is_met (cells_of (state_before self.now)) precondition.now }
    {
        precondition.certain
            || self.any_holds(&precondition.asks)
            || self.any_is_wrongful(&precondition.refusals)
    }

    /// What is said of a line of a process with this requirement.
    pub fn said(&self, pid: Pid, requirement: &Requirement) -> Verdict
        ensures { result ≡ findings_of requirement.now pid (state_before self.now) }
    {
        let mode = self.mode(pid);
        match &requirement.checks {
            Checks::Nothing => requirement.judge(mode, &[]),
            Checks::One(a) => requirement.judge(mode, &[self.cell(pid, a.fd)]),
            Checks::Two(a, b) => {
                requirement.judge(mode, &[self.cell(pid, a.fd), self.cell(pid, b.fd)])
            }
        }
    }
}
