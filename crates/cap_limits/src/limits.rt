//! What is known before a line, and what the lines from there on need.

ghost use Rattle.std.specs.Prelude.{◌≡◌, ◌+◌, ◌<◌, ◌^◌, ℕ, IfOk, List, length};
ghost use Rattle.cap_machine.specs.declared.step.Step.{Step};
ghost use Rattle.cap_machine.specs.Steps.{steps};
ghost use Rattle.cap_machine.specs.History.{ended};
ghost use Rattle.cap_machine.specs.State.{start_state};
ghost use Rattle.cap_limits.specs.Code.LiveRights.{AreLive, AreBlocked};
ghost use Rattle.cap_limits.specs.Limits.{IsEntering};
ghost use Rattle.cap_limits.specs.LimitsBefore.{AreLimitsOf, AreLimitsBefore, begins};

use crate::limit::{Limit, limits_among};
use crate::live::LiveRights;
use crate::standing::standing_fds;
use crate::unknown::unknown_limits;
use cap_machine::{Machine, Mode, Profile, Start};
use cap_rights::NoMemory;
use cap_trace::{Item, Line, LineRef, Pid};
use std::alloc::Global;

/// Whether a process may enter capability mode.
#[derive(Clone, Copy, Debug, PartialEq, Eq)]
pub enum Entering {
    /// It is inside.
    Inside,
    /// The line at this position is the first that is in the way.
    Blocked(usize),
    /// It may.
    May,
}

/// A machine that knows what is known after these lines.
///
/// `NoMemory` when out of memory.
pub fn machine_after(
    alloc: Global,
    profile: Profile,
    start: &Start,
    lines: &[Line],
) -> Result<Machine, NoMemory>
    ensures { IfOk result (λ machine.
        start_state machine ≡ ended (start_state start.now) (steps profile lines.now)) }
{
    let mut machine = Machine::from_start(alloc, start)?;
    for line in lines {
        machine.apply_line(profile, line)?;
    }
    Ok(machine)
}

/// What these lines need, which come after so many others.
///
/// `NoMemory` when out of memory.
pub fn live_after(
    alloc: Global,
    profile: Profile,
    before: usize,
    lines: &[Line],
) -> Result<LiveRights, NoMemory>
    requires fits { before + length lines.now < 2 ^ 64 }
    ensures rights { IfOk result (λ live. AreLive live (steps profile lines.now)) }
    ensures blocked { IfOk result (λ live. AreBlocked live (before + 1) (steps profile lines.now)) }
{
    let mut live = LiveRights::none(alloc);
    let mut rest = lines;
    while let Some((line, earlier)) = rest.split_last() {
        live.pass(before + rest.len(), profile, line)?;
        rest = earlier;
    }
    Ok(live)
}

impl Entering {
    /// Whether a process may enter capability mode before the lines that `live` has passed, by what `machine` knows there.
    pub fn of(machine: &Machine, live: &LiveRights, pid: Pid) -> Entering
        ensures { (at : ℕ) (later : List Step) → AreBlocked live.now at later
            → IsEntering (start_state machine.now) at later pid result }
    {
        match machine.mode(pid) {
            Mode::Inside => Entering::Inside,
            _ => match live.blocked(pid) {
                Some(at) => Entering::Blocked(at),
                None => Entering::May,
            },
        }
    }
}

/// The least rights of the descriptors of a process before a line, and whether it may enter capability mode there.
#[derive(Drop)]
pub struct Limits {
    /// The process.
    pub pid: Pid,
    /// The limit of each descriptor that it holds and that is known by itself, in rising order.
    pub held: Vec<Limit>,
    /// What later lines need of each unknown descriptor, in rising order.
    pub unknown: Vec<Limit>,
    /// Whether it may enter capability mode.
    pub entering: Entering,
}

/// What may be put in before a line.
#[derive(Drop)]
pub enum LimitsBefore {
    /// There is no such line.
    NoLine,
    /// This process begins there, by `@start`, which would undo a limit and cap_enter(2) before it.
    Begins(Pid),
    /// These limits of its process.
    Limits(Limits),
}

/// Whether a process begins with a line.
fn is_beginning(line: &LineRef<'_>) -> bool
    ensures { result ≡ begins line.now.item }
{
    matches!(&line.item, Item::Start(_))
}

/// The limits of a process between these lines.
fn limits_of(
    alloc: Global,
    profile: Profile,
    start: &Start,
    before: &[Line],
    later: &[Line],
    pid: Pid,
) -> Result<Limits, NoMemory>
    requires fits { length before.now + length later.now < 2 ^ 64 }
    ensures { IfOk result (AreLimitsOf start.now (steps profile before.now) (steps profile later.now)
        (length before.now + 1) pid) }
{
    let machine = machine_after(alloc, profile, start, before)?;
    let live = live_after(alloc, profile, before.len(), later)?;
    let fds = standing_fds(alloc, profile, start, before, pid)?;
    let entering = Entering::of(&machine, &live, pid);
    let held = limits_among(alloc, &machine, &live, pid, fds)?;
    let unknown = unknown_limits(alloc, &machine, pid, live.into_until_exec(pid))?;
    Ok(Limits {
        pid,
        held,
        unknown,
        entering,
    })
}

/// The least rights of the descriptors of the process of a line before that line, by the line's position, from 1. Where
/// the process begins with that line there are none.
///
/// It goes through the lines before it twice, and once through the others. `NoMemory` when out of memory.
pub fn limits_before(
    alloc: Global,
    profile: Profile,
    start: &Start,
    lines: &[Line],
    at: usize,
) -> Result<LimitsBefore, NoMemory>
    ensures { IfOk result (AreLimitsBefore profile start.now lines.now at) }
{
    if at == 0 || lines.len() < at {
        return Ok(LimitsBefore::NoLine);
    }
    let (before, later) = lines.split_at(at - 1);
    match later.split_first() {
        Some((line, _)) => {
            let pid = line.pid();
            if is_beginning(&line.view()) {
                return Ok(LimitsBefore::Begins(pid));
            }
            let limits = limits_of(alloc, profile, start, before, later, pid)?;
            Ok(LimitsBefore::Limits(limits))
        }
        None => Ok(LimitsBefore::NoLine),
    }
}
