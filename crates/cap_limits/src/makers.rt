//! The least rights of each descriptor that a trace makes, or what is needed of it where it isn't known.

ghost use Rattle.std.specs.Prelude.{◌≡◌, ◌++◌, OnOk, IfOk, List, [], ◌∷◌};
ghost use Rattle.cap_trace.specs.Entry.{IsAnswer, kind_of};
ghost use Rattle.cap_trace.specs.Views.{call_view};
ghost use Rattle.cap_machine.specs.Effect.{FitsMade, FitsPair};
ghost use Rattle.cap_machine.specs.History.{ended};
ghost use Rattle.cap_machine.specs.declared.cell.Cell.{Cell};
ghost use Rattle.cap_machine.specs.declared.step.Step.{Step};
ghost use Rattle.cap_limits.specs.Code.LiveRights.{AreLive};
ghost use Rattle.cap_machine.specs.State.{State};
ghost use Rattle.cap_machine.specs.Steps.{step, steps};
ghost use Rattle.cap_machine.specs.State.{start_state};
ghost use Rattle.cap_limits.specs.Makers.{one_fd, two_fds, fd_with_child, made_of, made_fds};
ghost use Rattle.cap_limits.specs.Code.Made.{listed_made, cells_made};
ghost use Rattle.cap_limits.specs.Makers.{AreMakerRows};
ghost use Rattle.cap_limits.specs.Code.Made.{needed_row, maker_row, maker_rows, cells_along};
ghost use Rattle.cap_limits.specs.Code.Wanted.{wanted};

use crate::limit::least_rights;
use crate::live::LiveRights;
use cap_machine::{Cell, Machine, OnExec, Profile, Start};
use cap_rights::{NoMemory, RightSet};
use cap_trace::{Answer, Call, Fd, Item, Line, LineRef, Pid, ResultKind};
use std::alloc::Global;

/// The descriptors that a call made, the larger first.
#[derive(Clone, Copy)]
enum Made {
    Nothing,
    One(Fd),
    Two(Fd, Fd),
}

/// The descriptor that a call made.
fn one_made(answer: &Answer) -> Made
    requires { FitsMade answer.now }
    ensures { listed_made result ≡ one_fd answer.now }
{
    match answer {
        Answer::Made(fd) => Made::One(*fd as Fd),
        _ => Made::Nothing,
    }
}

/// The two descriptors that a call made, each number once.
fn two_made(answer: &Answer) -> Made
    requires { FitsPair answer.now }
    ensures { listed_made result ≡ two_fds answer.now }
{
    match answer {
        Answer::Pair(first, second) => {
            if first == second {
                Made::One(*first as Fd)
            } else if first < second {
                Made::Two(*second as Fd, *first as Fd)
            } else {
                Made::Two(*first as Fd, *second as Fd)
            }
        }
        _ => Made::Nothing,
    }
}

/// The descriptor that a call made beside a child.
fn one_with_child(answer: &Answer) -> Made
    requires { FitsPair answer.now }
    ensures { listed_made result ≡ fd_with_child answer.now }
{
    match answer {
        Answer::Pair(0, _) => Made::Nothing,
        Answer::Pair(_, fd) => Made::One(*fd as Fd),
        _ => Made::Nothing,
    }
}

/// The descriptors that a call made.
#[inline(always)]
fn made_by_call(call: &Call<'_>, answer: &Answer) -> Made
    requires { IsAnswer (kind_of (call_view call.now)) answer.now }
    ensures { listed_made result ≡ made_of (kind_of (call_view call.now)) answer.now }
{
    match call.kind() {
        ResultKind::Fd | ResultKind::Same(_) => one_made(answer),
        ResultKind::FdPair => two_made(answer),
        ResultKind::ChildAndFd => one_with_child(answer),
        _ => Made::Nothing,
    }
}

/// The descriptors that a line made.
#[inline(always)]
fn made_by(line: &LineRef<'_>) -> Made
    ensures { listed_made result ≡ made_fds line.now.item }
{
    match &line.item {
        Item::Call { call, answer } => made_by_call(call, answer),
        _ => Made::Nothing,
    }
}

/// Rights of a descriptor that a line made.
#[derive(Clone, Copy, Debug, PartialEq, Eq)]
pub struct MakerLimit {
    /// The position of the line, from 1.
    pub at: usize,
    /// Its process.
    pub pid: Pid,
    /// The descriptor.
    pub fd: Fd,
    /// The rights, without FULL.
    pub rights: RightSet,
}

/// What is said of a descriptor that a line made.
#[derive(Clone, Copy, Debug, PartialEq, Eq)]
pub enum MakerRow {
    /// It is held: those of its rights that later lines need.
    Held(MakerLimit),
    /// It isn't known: the rights that later lines need of it, at least one.
    Unknown(MakerLimit),
}

/// Adds what is needed of an unknown descriptor, where something is.
fn add_needed(
    rows: &mut Vec<MakerRow>,
    at: usize,
    pid: Pid,
    fd: Fd,
    needed: &RightSet,
) -> Result<(), NoMemory>
    ensures { OnOk result (rows.new.items ≡ rows.old.items ++ needed_row at pid fd needed.now) }
{
    let rights = least_rights(&RightSet::all(), needed);
    if rights != RightSet::none() {
        rows.push(MakerRow::Unknown(MakerLimit {
            at,
            pid,
            fd,
            rights,
        }))?;
    }
    Ok(())
}

/// Adds what is said of a descriptor with this cell.
fn add_row(
    rows: &mut Vec<MakerRow>,
    at: usize,
    pid: Pid,
    fd: Fd,
    cell: &Cell,
    live: &LiveRights,
) -> Result<(), NoMemory>
    ensures { OnOk result (rows.new.items
        ≡ rows.old.items ++ maker_row at pid fd cell.now (wanted live.now pid fd)) }
{
    match cell {
        Cell::Held(held, flag) => {
            let rights = least_rights(held, &live.needed(pid, fd, *flag));
            rows.push(MakerRow::Held(MakerLimit {
                at,
                pid,
                fd,
                rights,
            }))?;
            Ok(())
        }
        Cell::Unknown => add_needed(rows, at, pid, fd, &live.needed(pid, fd, OnExec::Unsure)),
        Cell::Closed => Ok(()),
    }
}

/// Takes the last of the cells, and adds what is said of a descriptor with this cell.
fn add_last(
    rows: &mut Vec<MakerRow>,
    cells: &mut Vec<Cell>,
    at: usize,
    pid: Pid,
    fd: Fd,
    live: &LiveRights,
) -> Result<(), NoMemory>
    ensures { (before : List Cell) (last : Cell) → cells.old.items ≡ before ++ last ∷ []
        → OnOk result ((cells.new.items ≡ before)
        × (rows.new.items ≡ rows.old.items ++ maker_row at pid fd last (wanted live.now pid fd))) }
{
    match cells.pop() {
        Some(last) => add_row(rows, at, pid, fd, &last, live),
        None => Ok(()),
    }
}

/// Takes the cells of the descriptors that a line made, and adds what is said of each.
fn add_rows(
    rows: &mut Vec<MakerRow>,
    cells: &mut Vec<Cell>,
    at: usize,
    pid: Pid,
    made: &Made,
    live: &LiveRights,
) -> Result<(), NoMemory>
    ensures { (s : State) (before : List Cell) → cells.old.items ≡ before ++ cells_made s pid (listed_made made.now)
        → OnOk result ((cells.new.items ≡ before)
        × (rows.new.items ≡ rows.old.items ++ maker_rows s at pid (listed_made made.now) (wanted live.now pid))) }
{
    match made {
        Made::Nothing => Ok(()),
        Made::One(fd) => add_last(rows, cells, at, pid, *fd, live),
        Made::Two(first, second) => {
            add_last(rows, cells, at, pid, *first, live)?;
            add_last(rows, cells, at, pid, *second, live)
        }
    }
}

/// Adds what is known of the descriptors that a line made, the smaller first.
fn add_cells(
    cells: &mut Vec<Cell>,
    machine: &Machine,
    pid: Pid,
    made: &Made,
) -> Result<(), NoMemory>
    ensures { OnOk result (cells.new.items
        ≡ cells.old.items ++ cells_made (start_state machine.now) pid (listed_made made.now)) }
{
    match made {
        Made::Nothing => Ok(()),
        Made::One(fd) => {
            cells.push(machine.cell(pid, *fd))?;
            Ok(())
        }
        Made::Two(first, second) => {
            cells.push(machine.cell(pid, *second))?;
            cells.push(machine.cell(pid, *first))?;
            Ok(())
        }
    }
}

/// Moves a machine on by a line, and adds what is then known of the descriptors that it made.
fn apply_maker_line(
    machine: &mut Machine,
    cells: &mut Vec<Cell>,
    profile: Profile,
    line: &Line,
) -> Result<(), NoMemory>
    ensures moves { OnOk result
        (start_state machine.new ≡ ended (start_state machine.old) (step profile line.now ∷ [])) }
    ensures cells { OnOk result (cells.new.items
        ≡ cells.old.items ++ cells_made (start_state machine.new) line.now.pid (made_fds line.now.item)) }
{
    let view = line.view();
    let pid = view.pid;
    let made = made_by(&view);
    machine.apply_line_ref(profile, &view)?;
    add_cells(cells, machine, pid, &made)
}

/// What is known of the descriptors that each line made, after it.
fn made_along(
    alloc: Global,
    profile: Profile,
    start: &Start,
    lines: &[Line],
) -> Result<Vec<Cell>, NoMemory>
    ensures { IfOk result (λ cells. cells.items ≡ cells_along (start_state start.now) (steps profile lines.now)) }
{
    let mut machine = Machine::from_start(alloc, start)?;
    let mut cells = Vec::new(alloc);
    for line in lines {
        apply_maker_line(&mut machine, &mut cells, profile, line)?;
    }
    Ok(cells)
}

/// Adds what is said of the descriptors that a line made, and passes it.
fn pass_line(
    rows: &mut Vec<MakerRow>,
    cells: &mut Vec<Cell>,
    live: &mut LiveRights,
    at: usize,
    profile: Profile,
    line: &Line,
) -> Result<(), NoMemory>
    ensures rows { (s : State) (before : List Cell)
        → cells.old.items ≡ before ++ cells_made s line.now.pid (made_fds line.now.item)
        → OnOk result ((cells.new.items ≡ before) × (rows.new.items
        ≡ rows.old.items ++ maker_rows s at line.now.pid (made_fds line.now.item) (wanted live.old line.now.pid))) }
    ensures live { OnOk result ((later : List Step)
        → AreLive live.old later → AreLive live.new (step profile line.now ∷ later)) }
{
    let view = line.view();
    add_rows(rows, cells, at, view.pid, &made_by(&view), live)?;
    live.pass_view(at, profile, &view)
}

/// Of each descriptor that a trace makes, right after the line that made it: its least rights where it is then held, and
/// what later lines need of it where it isn't known. The last line comes first, and of two descriptors of a line the
/// larger.
///
/// It goes through the lines once forth and once back. Its memory grows with the descriptors that they make or need
/// rights of.
///
/// `NoMemory` when out of memory.
pub fn limits_of_makers(
    alloc: Global,
    profile: Profile,
    start: &Start,
    lines: &[Line],
) -> Result<Vec<MakerRow>, NoMemory>
    ensures { IfOk result (λ rows. AreMakerRows (start_state start.now) 1 (steps profile lines.now) rows.items) }
{
    let mut cells = made_along(alloc, profile, start, lines)?;
    let mut live = LiveRights::none(alloc);
    let mut rows = Vec::new(alloc);
    let mut rest = lines;
    while let Some((line, before)) = rest.split_last() {
        pass_line(&mut rows, &mut cells, &mut live, rest.len(), profile, line)?;
        rest = before;
    }
    Ok(rows)
}
