//! Walks back from a cell and from a mode, to the lines that they come from.
//!
//! A walk is handed the lines one by one, newest first. Lines that don't touch the cell, or the mode, that it is at may
//! be left out ([`walks_may_leave_out`]).

ghost use Rattle.std.specs.Prelude.{◌≡◌, ◌+◌, IfOk, OnOk, OnErr, List, [], ◌∷◌, length, true, false};
ghost use Rattle.cap_machine.specs.Code.Touched.{touch_view, turn_view};
ghost use Rattle.cap_machine.specs.Code.Following.{Follows, FollowsMode};
ghost use Rattle.cap_machine.specs.Code.Walks.{chain_unless};
ghost use Rattle.cap_machine.specs.declared.step.Step.{Step};
ghost use Rattle.cap_machine.specs.Steps.{step, steps};
ghost use Rattle.cap_machine.specs.State.{State};
ghost use Rattle.cap_machine.specs.History.{cell_after, mode_after, ended};
ghost use Rattle.cap_machine.specs.State.{start_state};
ghost use Rattle.cap_machine.specs.Code.Passages.{constant, cell_along, links_along};
ghost use Rattle.cap_machine.specs.Provenance.{is_idle, cell_at_end, cell_chain, cell_chain_of, cell_provenance};
ghost use Rattle.cap_machine.specs.Provenance.{named_turn, mode_chain, mode_chain_of, mode_provenance};
ghost use Rattle.cap_machine.specs.Code.Walks.{cell_pid, cell_fd, cell_known, cell_found, SameCellWalk, CellIsFound};
ghost use Rattle.cap_machine.specs.Code.Walks.{mode_pid, mode_known, mode_found, SameModeWalk, ModeIsFound};
ghost use Rattle.cap_machine.specs.Code.Walks.{CellsMayBeLeftOut, ModesMayBeLeftOut};

use crate::cell::{Cell, HeldOp, Mode, Op, Profile};
use crate::provenance::{CellEnd, CellLink, CellProvenance, ModeEnd, ModeLink, ModeProvenance};
use crate::start::Start;
use crate::touched::{Touched, Turned, touch_of, turn_of};
use cap_rights::NoMemory;
use cap_trace::{Fd, Line, Pid};
use std::alloc::Global;

/// A line that touched a descriptor, and what it made of the cell that it took.
#[derive(Clone, Copy)]
struct Passage {
    link: CellLink,
    op: Op,
    /// Whether it took the cell from itself.
    from_itself: bool,
}

/// A walk back from the cell of a descriptor of a process to the lines that it comes from.
#[derive(Drop)]
pub struct CellWalk {
    /// Where it is.
    pid: Pid,
    fd: Fd,
    /// Every line that touched the cell on the way, newest first.
    passages: Vec<Passage>,
    /// The cell, where the oldest of them gave it.
    given: Option<Cell>,
}

/// A walk back from the mode of a process to the lines that it comes from.
#[derive(Drop)]
pub struct ModeWalk {
    /// Where it is.
    pid: Pid,
    /// The lines that the mode rests on, newest first.
    links: Vec<ModeLink>,
    /// The mode, where the oldest of them gave it.
    turned: Option<Mode>,
}

impl Passage {
    /// A line that gave this cell.
    fn giving(link: CellLink, cell: &Cell) -> Passage
        ensures { result ≡ (record { link = link; op = constant cell.now; from_itself = false }) }
    {
        let op = Op {
            unknown: *cell,
            closed: *cell,
            set: HeldOp::Becomes(*cell),
            clear: HeldOp::Becomes(*cell),
            unsure: HeldOp::Becomes(*cell),
        };
        Passage {
            link,
            op,
            from_itself: false,
        }
    }

    /// Whether it left this cell as it was.
    fn is_idle(&self, before: &Cell) -> bool
        ensures { result ≡ is_idle self.now.op self.now.from_itself before.now }
    {
        self.from_itself && self.op.on(*before) == *before
    }
}

impl CellEnd {
    /// The cell at the end of the chain.
    fn cell(&self) -> Cell
        ensures { result ≡ cell_at_end self.now }
    {
        match self {
            CellEnd::Given(cell) | CellEnd::Start(_, _, cell) => *cell,
        }
    }
}

/// The cell after these passages, which are given newest first, from the cell before them; and the links of those that
/// didn't leave the cell as it was.
fn named_links(
    alloc: Global,
    passages: &[Passage],
    end: &Cell,
) -> Result<(Cell, Vec<CellLink>), NoMemory>
    ensures cell { IfOk result (λ found. found.0 ≡ cell_along passages.now end.now) }
    ensures links { IfOk result (λ found. found.1.items ≡ links_along passages.now end.now) }
{
    let mut links = Vec::new(alloc);
    let mut cell = *end;
    let mut rest = passages;
    while let Some((passage, newer)) = rest.split_last() {
        if !passage.is_idle(&cell) {
            links.push(passage.link)?;
        }
        cell = passage.op.on(cell);
        rest = newer;
    }
    links.reverse();
    Ok((cell, links))
}

impl CellWalk {
    /// A walk that begins at the cell of a descriptor of a process. It takes no memory.
    #[tactic(auto, unfolding(crate::specs::Code::Walks::cell_known, crate::specs::Code::Walks::cell_found))]
    pub fn from(alloc: Global, pid: Pid, fd: Fd) -> CellWalk
        ensures chain { (s : State) (history : List Step) → cell_found result s history ≡ cell_chain s history pid fd }
        ensures cell { (s : State) (history : List Step) → cell_known result s history ≡ cell_after s history pid fd }
        ensures pid { cell_pid result ≡ pid }
        ensures fd { cell_fd result ≡ fd }
    {
        let passages = Vec::new(alloc);
        CellWalk {
            pid,
            fd,
            passages,
            given: None,
        }
    }

    /// The process of the cell that the walk is at.
    pub fn pid(&self) -> Pid
        ensures { result ≡ cell_pid self.now }
    {
        self.pid
    }

    /// The descriptor of the cell that the walk is at, by its number in that process.
    pub fn fd(&self) -> Fd
        ensures { result ≡ cell_fd self.now }
    {
        self.fd
    }

    /// Whether a line gave the cell: then no older line matters.
    #[tactic(auto, unfolding(crate::specs::Code::Walks::cell_known, crate::specs::Code::Walks::cell_found))]
    pub fn has_ended(&self) -> bool
        ensures ended { result ≡ true → CellIsFound self.now }
        // Else the chain ends as that of the cell that the walk is at.
        ensures goes_on { result ≡ false → (s : State) (history : List Step)
            → (cell_found self.now s history).end ≡ (cell_chain s history (cell_pid self.now) (cell_fd self.now)).end }
    {
        self.given.is_some()
    }

    /// Passes the line before those that it has passed. Lines between them that don't touch the cell that it is at may
    /// be left out. `at` is the position of the line, from 1.
    ///
    /// `NoMemory` when out of memory; the walk is then as before.
    pub fn pass(&mut self, at: usize, profile: Profile, line: &Line) -> Result<(), NoMemory>
        ensures chain { OnOk result ((s : State) (history : List Step) → length history + 1 ≡ at
            → cell_found self.new s history ≡ cell_found self.old s (step profile line.now ∷ history)) }
        ensures cell { OnOk result ((s : State) (history : List Step)
            → cell_known self.new s history ≡ cell_known self.old s (step profile line.now ∷ history)) }
        ensures unchanged { OnErr result (SameCellWalk self.old self.new) }
    {
        match self.given {
            Some(_) => Ok(()),
            None => {
                let touched = touch_of(profile, line, self.pid, self.fd);
                self.follow(at, line.pid(), &touched)
            }
        }
    }

    /// Goes on where a line of process `owner` did this to the cell.
    #[tactic(auto, using(crate::proofs::Walking::no_passage_more))]
    fn follow(&mut self, at: usize, owner: Pid, touched: &Touched) -> Result<(), NoMemory>
        requires { self.old.given ≡ None }
        ensures follows { OnOk result (Follows self.old self.new at (touch_view owner touched.now)) }
        ensures unchanged { OnErr result (SameCellWalk self.old self.new) }
    {
        let link = CellLink {
            at,
            pid: self.pid,
            fd: self.fd,
        };
        match touched {
            Touched::Kept => {}
            Touched::Given(cell) => {
                self.passages.push(Passage::giving(link, cell))?;
                self.given = Some(*cell);
            }
            Touched::Taken(op, from) => {
                let from_itself = owner == self.pid && *from == self.fd;
                self.passages.push(Passage {
                    link,
                    op: *op,
                    from_itself,
                })?;
                self.pid = owner;
                self.fd = *from;
            }
        }
        Ok(())
    }

    /// How the chain ends when no line is left.
    fn end(&self, start: &Start) -> CellEnd
        ensures { result ≡ (chain_unless self.now.given
            (cell_chain (start_state start.now) [] self.now.pid self.now.fd)).end }
    {
        match &self.given {
            Some(cell) => CellEnd::Given(*cell),
            None => CellEnd::Start(self.pid, self.fd, start.cell(self.pid, self.fd)),
        }
    }

    /// Where the cell comes from, once it has passed every line, but for those that it may leave out.
    ///
    /// `NoMemory` when out of memory.
    pub fn finish(self, alloc: Global, start: &Start) -> Result<CellProvenance, NoMemory>
        ensures chain { IfOk result (λ provenance. cell_chain_of provenance
            ≡ cell_found self (start_state start.now) []) }
        ensures cell { IfOk result (λ provenance. provenance.cell ≡ cell_known self (start_state start.now) []) }
    {
        let end = self.end(start);
        let (cell, links) = named_links(alloc, &self.passages, &end.cell())?;
        Ok(CellProvenance { cell, links, end })
    }
}

impl ModeWalk {
    /// A walk that begins at the mode of a process. It takes no memory.
    #[tactic(auto, unfolding(crate::specs::Code::Walks::mode_known, crate::specs::Code::Walks::mode_found))]
    pub fn from(alloc: Global, pid: Pid) -> ModeWalk
        ensures chain { (s : State) (history : List Step) → mode_found result s history ≡ mode_chain s history pid }
        ensures mode { (s : State) (history : List Step) → mode_known result s history ≡ mode_after s history pid }
        ensures pid { mode_pid result ≡ pid }
    {
        let links = Vec::new(alloc);
        ModeWalk {
            pid,
            links,
            turned: None,
        }
    }

    /// The process whose mode the walk is at.
    pub fn pid(&self) -> Pid
        ensures { result ≡ mode_pid self.now }
    {
        self.pid
    }

    /// Whether a line gave the mode: then no older line matters.
    #[tactic(auto, unfolding(crate::specs::Code::Walks::mode_known, crate::specs::Code::Walks::mode_found))]
    pub fn has_ended(&self) -> bool
        ensures ended { result ≡ true → ModeIsFound self.now }
        // Else the chain ends as that of the mode that the walk is at.
        ensures goes_on { result ≡ false → (s : State) (history : List Step)
            → (mode_found self.now s history).end ≡ (mode_chain s history (mode_pid self.now)).end }
    {
        self.turned.is_some()
    }

    /// Passes the line before those that it has passed. Lines between them that don't touch the mode that it is at may
    /// be left out. `at` is the position of the line, from 1.
    ///
    /// `NoMemory` when out of memory; the walk is then as before.
    pub fn pass(&mut self, at: usize, profile: Profile, line: &Line) -> Result<(), NoMemory>
        ensures chain { OnOk result ((s : State) (history : List Step) → length history + 1 ≡ at
            → mode_found self.new s history ≡ mode_found self.old s (step profile line.now ∷ history)) }
        ensures mode { OnOk result ((s : State) (history : List Step)
            → mode_known self.new s history ≡ mode_known self.old s (step profile line.now ∷ history)) }
        ensures unchanged { OnErr result (SameModeWalk self.old self.new) }
    {
        match self.turned {
            Some(_) => Ok(()),
            None => {
                let turn = turn_of(profile, line, self.pid);
                self.follow(at, line.pid(), turn)
            }
        }
    }

    /// Goes on where a line of process `me` did this to the mode.
    #[tactic(auto, using(crate::proofs::Walking::no_link_more))]
    fn follow(&mut self, at: usize, me: Pid, turn: Turned) -> Result<(), NoMemory>
        requires { self.old.turned ≡ None }
        ensures follows { OnOk result
            (FollowsMode self.old self.new at (named_turn (turn_view me turn) self.old.pid)) }
        ensures unchanged { OnErr result (SameModeWalk self.old self.new) }
    {
        let link = ModeLink { at, pid: self.pid };
        match turn {
            Turned::Turns(mode) => {
                self.links.push(link)?;
                self.turned = Some(mode);
            }
            Turned::Follows if me != self.pid => {
                self.links.push(link)?;
                self.pid = me;
            }
            Turned::Stays | Turned::Follows => {}
        }
        Ok(())
    }

    /// Where the mode comes from, once it has passed every line, but for those that it may leave out. It takes
    /// no memory.
    pub fn finish(self, start: &Start) -> ModeProvenance
        ensures chain { mode_chain_of result ≡ mode_found self (start_state start.now) [] }
        ensures mode { result.mode ≡ mode_known self (start_state start.now) [] }
    {
        match self.turned {
            Some(mode) => ModeProvenance {
                mode,
                links: self.links,
                end: ModeEnd::Given(mode),
            },
            None => {
                let mode = start.mode(self.pid);
                ModeProvenance {
                    mode,
                    links: self.links,
                    end: ModeEnd::Start(self.pid, mode),
                }
            }
        }
    }
}

/// Where the cell of a descriptor of a process after these lines comes from.
///
/// It goes through the lines from the last one back to where the cell was given, and judges none. Its memory grows with
/// the lines that touched the cell.
///
/// `NoMemory` when out of memory.
pub fn provenance_of_cell(
    alloc: Global,
    profile: Profile,
    start: &Start,
    lines: &[Line],
    pid: Pid,
    fd: Fd,
) -> Result<CellProvenance, NoMemory>
    ensures cell { IfOk result
        (λ provenance. provenance.cell ≡ (ended (start_state start.now) (steps profile lines.now)).cell pid fd) }
    ensures chain { IfOk result
        (λ provenance. cell_chain_of provenance
        ≡ cell_provenance (start_state start.now) (steps profile lines.now) pid fd) }
{
    let mut walk = CellWalk::from(alloc, pid, fd);
    let mut rest = lines;
    while let Some((line, before)) = rest.split_last() {
        if walk.has_ended() {
            break;
        }
        walk.pass(rest.len(), profile, line)?;
        rest = before;
    }
    walk.finish(alloc, start)
}

/// Where the mode of a process after these lines comes from.
///
/// It goes through the lines from the last one back, and judges none. It takes no memory but the chain's.
///
/// `NoMemory` when out of memory.
pub fn provenance_of_mode(
    alloc: Global,
    profile: Profile,
    start: &Start,
    lines: &[Line],
    pid: Pid,
) -> Result<ModeProvenance, NoMemory>
    ensures mode { IfOk result
        (λ provenance. provenance.mode ≡ (ended (start_state start.now) (steps profile lines.now)).mode pid) }
    ensures chain { IfOk result
        (λ provenance. mode_chain_of provenance
        ≡ mode_provenance (start_state start.now) (steps profile lines.now) pid) }
{
    let mut walk = ModeWalk::from(alloc, pid);
    let mut earlier = lines;
    while let Some((line, before)) = earlier.split_last() {
        if walk.has_ended() {
            break;
        }
        walk.pass(earlier.len(), profile, line)?;
        earlier = before;
    }
    Ok(walk.finish(start))
}

/// A walk finds the same without lines that don't touch the cell, or the mode, that it is at.
pub fn walks_may_leave_out()
    ensures cells { CellsMayBeLeftOut }
    ensures modes { ModesMayBeLeftOut }
{}
