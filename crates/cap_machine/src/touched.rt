//! What one line does to one cell and to one mode.

ghost use Rattle.std.specs.Prelude.{◌≡◌};
ghost use Rattle.cap_trace.specs.Views.{fds_spelled};
ghost use Rattle.cap_machine.specs.Steps.{step};
ghost use Rattle.cap_machine.specs.Touch.{touch, turn, started};
ghost use Rattle.cap_machine.specs.Effect.{effect_touch, effect_turn};
ghost use Rattle.cap_machine.specs.Code.Touched.{touch_view, turn_view};

use crate::cell::{Cell, Mode, OnExec, Op, Profile};
use crate::effects::effect_of_line;
use crate::rule::Effect;
use cap_rights::RightSet;
use cap_trace::{Fd, Line, Pid, has_fd};

/// What a line does to one cell.
#[derive(Clone, Copy, Debug, PartialEq, Eq)]
pub enum Touched {
    /// It stays as it was.
    Kept,
    /// It becomes this cell.
    Given(Cell),
    /// It becomes what the op makes of the cell of this descriptor of the line's process.
    Taken(Op, Fd),
}

/// What a line does to the mode of one process.
#[derive(Clone, Copy, Debug, PartialEq, Eq)]
pub enum Turned {
    /// It stays as it was.
    Stays,
    /// It becomes this mode.
    Turns(Mode),
    /// It becomes the mode of the line's process.
    Follows,
}

/// The cell of a descriptor of a process that starts with these.
fn started_with(fds: &[u8], fd: Fd) -> Cell
    ensures { result ≡ started (fds_spelled fds.now) fd }
{
    if has_fd(fds, fd) {
        Cell::Held(RightSet::all(), OnExec::Unsure)
    } else {
        Cell::Closed
    }
}

impl Effect<'_> {
    /// What the effect of a line of process `me` does to one cell.
    pub fn touch(&self, me: Pid, pid: Pid, fd: Fd) -> Touched
        ensures { touch_view me result ≡ effect_touch self.now me pid fd }
    {
        match self {
            Effect::ForkAs(child, to) if (pid == me || pid == *child) && fd == *to => {
                Touched::Given(Cell::Unknown)
            }
            Effect::Fork(child) | Effect::ForkAs(child, _) if pid == *child => {
                Touched::Taken(Op::same(), fd)
            }
            _ if pid != me => Touched::Kept,
            Effect::Start(fds) => Touched::Given(started_with(fds, fd)),
            Effect::Exit | Effect::Forget => Touched::Given(Cell::Unknown),
            Effect::Exec => Touched::Taken(Op::exec(), fd),
            Effect::CloseFrom(n) if *n <= fd => Touched::Given(Cell::Closed),
            Effect::Give(to, cell) if fd == *to => Touched::Given(*cell),
            Effect::GiveTwo(first, second, cell) if fd == *first || fd == *second => {
                Touched::Given(*cell)
            }
            Effect::Change(to, op, from) if fd == *to => Touched::Taken(*op, *from),
            _ => Touched::Kept,
        }
    }

    /// What the effect of a line of process `me` does to the mode of one process.
    pub fn turn(&self, me: Pid, pid: Pid) -> Turned
        ensures { turn_view me result ≡ effect_turn self.now me pid }
    {
        match self {
            Effect::Start(_) if pid == me => Turned::Turns(Mode::Outside),
            Effect::Exit if pid == me => Turned::Turns(Mode::Unsure),
            Effect::Enter if pid == me => Turned::Turns(Mode::Inside),
            Effect::Fork(child) | Effect::ForkAs(child, _) if pid == *child => Turned::Follows,
            _ => Turned::Stays,
        }
    }
}

/// What a line does to one cell.
pub(crate) fn touch_of(profile: Profile, line: &Line, pid: Pid, fd: Fd) -> Touched
    ensures { touch_view line.now.pid result ≡ touch (step profile line.now) pid fd }
{
    effect_of_line(profile, &line.view()).touch(line.pid(), pid, fd)
}

/// What a line does to the mode of one process.
pub(crate) fn turn_of(profile: Profile, line: &Line, pid: Pid) -> Turned
    ensures { turn_view line.now.pid result ≡ turn (step profile line.now) pid }
{
    effect_of_line(profile, &line.view()).turn(line.pid(), pid)
}
