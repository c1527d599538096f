//! The known processes, going forward: the meaning of a table is what its look-ups answer.

ghost use Rattle.std.specs.Prelude.{◌≡◌, ℕ, [], None, false, IfOk, IfSome, OnOk, OnErr, ◌==◌, if◌then◌else◌};
ghost use Rattle.std.specs.List.{All};
ghost use Rattle.std.specs.Option.{option_copied, option_map_or};
ghost use Rattle.std.specs.Vec.{vec_len};
ghost use Rattle.cap_trace.specs.Entry.{IsFd};
ghost use Rattle.cap_machine.specs.State.{usual, listed_cell, with_cells, with_listed};
ghost use Rattle.cap_machine.specs.Code.Cells.{cell_in_cells};
ghost use Rattle.cap_machine.specs.Check.{findings_of};
ghost use Rattle.cap_machine.specs.Effect.{own_cell, own_mode, IsOwn, IsWithin};
ghost use Rattle.cap_machine.specs.Code.Table.{cell_in, place_in, found, cell_of, mode_of, state_of, Keeps, StandsAt};
ghost use Rattle.cap_machine.specs.Code.Table.{with_cell, with_process, with_copy, effect_after};

mod lines;

use crate::cell::{Cell, Mode};
use crate::cells::{Cells, Deferred, DeferredFree};
use crate::rule::{Checks, Effect, Requirement};
use crate::verdict::Verdict;
use cap_rights::{NoMemory, RightSet};
use cap_trace::{Fd, Pid, fds_of};
use std::alloc::{AllocError, Global};

/// Writes these cells one after the other.
fn write_all(cells: &mut Cells, listed: &[(Fd, Cell)]) -> Result<(), NoMemory>
    requires { All (λ entry. IsFd entry.0) listed.now }
    ensures { OnOk result
        ((f : ℕ) → cell_in_cells cells.new f ≡ listed_cell (cell_in_cells cells.old f) listed.now f) }
{
    for (fd, cell) in listed {
        cells.write(*fd, *cell)?;
    }
    Ok(())
}

/// What is known of a process: its mode, and its cells. A clone shares the cells until one of the two writes one.
#[derive(Drop)]
pub(crate) struct Process {
    pid: Pid,
    mode: Mode,
    cells: Cells,
}

impl Process {
    /// A process with this mode and no known cell, with any cells to begin from.
    fn unknown(pid: Pid, mode: Mode, cells: Cells) -> Result<Process, NoMemory>
        ensures cells { IfOk result (λ new. (f : ℕ) → cell_in new f ≡ Cell.Unknown) }
        ensures mode { IfOk result (λ new. new.mode ≡ mode) }
        ensures pid { IfOk result (λ new. new.pid ≡ pid) }
    {
        let mut cells = cells;
        cells.apply_deferred(Deferred::Forget)?;
        Ok(Process { pid, mode, cells })
    }

    /// A process with this mode and these cells.
    fn listed(
        alloc: Global,
        pid: Pid,
        mode: Mode,
        rest: Cell,
        listed: &[(Fd, Cell)],
    ) -> Result<Process, NoMemory>
        requires { All (λ entry. IsFd entry.0) listed.now }
        ensures cells { IfOk result (λ new. (f : ℕ) → cell_in new f ≡ listed_cell rest listed.now f) }
        ensures mode { IfOk result (λ new. new.mode ≡ mode) }
        ensures pid { IfOk result (λ new. new.pid ≡ pid) }
    {
        let mut cells = Cells::all(alloc, rest)?;
        write_all(&mut cells, listed)?;
        Ok(Process { pid, mode, cells })
    }

    /// Gives it this mode, and writes these cells one after the other.
    fn set(&mut self, mode: Mode, listed: &[(Fd, Cell)]) -> Result<(), NoMemory>
        requires { All (λ entry. IsFd entry.0) listed.now }
        ensures cells { OnOk result
            ((f : ℕ) → cell_in self.new f ≡ listed_cell (cell_in self.old f) listed.now f) }
        ensures mode { OnOk result (self.new.mode ≡ mode) }
        ensures pid { OnOk result (self.new.pid ≡ self.old.pid) }
    {
        self.mode = mode;
        write_all(&mut self.cells, listed)
    }

    /// What an effect of a line of its own does to it.
    fn apply(&mut self, alloc: Global, effect: &Effect<'_>) -> Result<(), NoMemory>
        requires { IsWithin effect.now }
        ensures cells { OnOk result ((f : ℕ) → cell_in self.new f ≡ own_cell effect.now (cell_in self.old) f) }
        ensures mode { OnOk result (self.new.mode ≡ own_mode effect.now self.old.mode) }
        ensures pid { OnOk result (self.new.pid ≡ self.old.pid) }
    {
        match effect {
            Effect::Keep | Effect::Exit | Effect::Forget | Effect::Fork(_) | Effect::ForkAs(_, _) =>
                Ok(()),
            Effect::Enter => {
                self.mode = Mode::Inside;
                Ok(())
            }
            Effect::Start(fds) => {
                self.mode = Mode::Outside;
                self.cells.start(alloc, &fds_of(alloc, fds)?)
            }
            Effect::Exec => self.cells.apply_deferred(Deferred::Exec),
            Effect::CloseFrom(fd) => self.cells.close_from(*fd),
            Effect::Give(fd, cell) => self.cells.write(*fd, *cell),
            Effect::GiveTwo(first, second, cell) => {
                self.cells.write(*first, *cell)?;
                self.cells.write(*second, *cell)
            }
            Effect::Change(to, op, from) => {
                let cell = op.on(self.cells.cell(*from));
                self.cells.write(*to, cell)
            }
        }
    }
}

impl Clone for Process {
    ghost use Rattle.cap_machine.specs.Code.Table.{IsSame};

    ghost is_clone = { IsSame };

    fn clone(&self) -> Result<Process, AllocError> {
        Ok(Process {
            pid: self.pid,
            mode: self.mode,
            cells: self.cells.clone()?,
        })
    }
}

/// The mode of a process that may be in a table.
fn mode_in(process: Option<&Process>) -> Mode
    ensures { result ≡ option_map_or (λ p. p.mode) (option_copied process.entry) Mode.Unsure }
{
    match process {
        Some(process) => process.mode,
        None => Mode::Unsure,
    }
}

/// The cell of a descriptor of a process that may be in a table.
fn cell_at(process: Option<&Process>, fd: Fd) -> Cell
    ensures { result ≡ option_map_or (λ p. cell_in p fd) (option_copied process.entry) Cell.Unknown }
{
    match process {
        Some(process) => process.cells.cell(fd),
        None => Cell::Unknown,
    }
}

/// Writes the place of a process.
fn set_place(places: &mut Vec<usize>, pid: Pid, place: usize) -> Result<(), NoMemory>
    ensures ok { OnOk result ((p : ℕ) → place_in places.new.items p
        ≡ (if p == pid then place else place_in places.old.items p)) }
    ensures err { OnErr result ((p : ℕ) → place_in places.new.items p ≡ place_in places.old.items p) }
{
    let at = pid as usize;
    if places.len() <= at {
        places.resize(at + 1, 0)?;
    }
    places[at] = place;
    Ok(())
}

/// The known processes, and where the one with a pid is among them; that place means nothing for a pid that has none.
///
/// A process that is new or forgotten begins from a clone of the cells in `blank`, whatever they are, and that all of
/// them are forgotten is deferred: so it shares them, and takes memory only for what is written.
///
/// What is left of a process that was replaced is in `deferred_free`, and is freed by the lines that follow.
#[derive(Drop)]
pub(crate) struct Table {
    alloc: Global,
    places: Vec<usize>,
    processes: Vec<Process>,
    blank: Option<Cells>,
    deferred_free: DeferredFree,
}

impl Table {
    /// The table in which nothing is known. It takes no memory.
    pub(crate) fn unknown(alloc: Global) -> Table
        ensures { Keeps result usual }
    {
        Table {
            alloc,
            places: Vec::new(alloc),
            processes: Vec::new(alloc),
            blank: None,
            deferred_free: DeferredFree::nothing(alloc),
        }
    }

    /// Another table that keeps the same.
    pub(crate) fn copy(&self, alloc: Global) -> Result<Table, NoMemory>
        ensures { IfOk result (λ table. Keeps table (state_of self.now)) }
    {
        let places = Vec::from_slice(alloc, &self.places)?;
        let processes = self.processes.clone()?;
        Ok(Table {
            alloc,
            places,
            processes,
            blank: None,
            deferred_free: DeferredFree::nothing(alloc),
        })
    }

    /// The place that is written for a pid. Inlined, as the next two: each line looks its process up.
    #[inline(always)]
    fn place(&self, pid: Pid) -> usize
        ensures { result ≡ place_in self.now.places.items pid }
    {
        match self.places.get(pid as usize) {
            Some(place) => *place,
            None => 0,
        }
    }

    /// What is known of a process.
    #[inline(always)]
    fn find(&self, pid: Pid) -> Option<&Process>
        ensures { option_copied result ≡ found self.now pid }
    {
        match self.processes.get(self.place(pid)) {
            Some(process) if process.pid == pid => Some(process),
            _ => None,
        }
    }

    /// The place of a process, if it is known.
    #[inline(always)]
    fn place_of(&self, pid: Pid) -> Option<usize>
        ensures some { IfSome result (λ place. StandsAt self.now pid place) }
        ensures none { result ≡ None → found self.now pid ≡ None }
    {
        let place = self.place(pid);
        match self.processes.get(place) {
            Some(process) if process.pid == pid => Some(place),
            _ => None,
        }
    }

    pub(crate) fn cell(&self, pid: Pid, fd: Fd) -> Cell
        ensures { result ≡ cell_of self.now pid fd }
    {
        cell_at(self.find(pid), fd)
    }

    pub(crate) fn mode(&self, pid: Pid) -> Mode
        ensures { result ≡ mode_of self.now pid }
    {
        mode_in(self.find(pid))
    }

    /// Any cells for a process to begin from.
    fn begin(&mut self) -> Result<Cells, NoMemory>
        ensures places { self.new.places ≡ self.old.places }
        ensures processes { self.new.processes ≡ self.old.processes }
    {
        match &self.blank {
            Some(cells) => Ok(cells.clone()?),
            None => {
                let cells = Cells::all(self.alloc, Cell::Unknown)?;
                self.blank = Some(cells.clone()?);
                Ok(cells)
            }
        }
    }

    /// Adds a process that is not known yet.
    fn append(&mut self, process: Process) -> Result<(), NoMemory>
        requires { found self.old process.pid ≡ None }
        ensures ok { OnOk result
            ((r : ℕ) → found self.new r ≡ (if r == process.pid then Some process else found self.old r)) }
        ensures place { OnOk result (StandsAt self.new process.pid (vec_len self.old.processes)) }
        ensures err { OnErr result ((r : ℕ) → found self.new r ≡ found self.old r) }
    {
        set_place(&mut self.places, process.pid, self.processes.len())?;
        self.processes.push(process)?;
        Ok(())
    }

    /// Stores a process in place of what was known.
    fn store(&mut self, process: Process) -> Result<(), NoMemory>
        ensures ok { OnOk result
            ((r : ℕ) → found self.new r ≡ (if r == process.pid then Some process else found self.old r)) }
        ensures err { OnErr result ((r : ℕ) → found self.new r ≡ found self.old r) }
    {
        match self.place_of(process.pid) {
            Some(place) => {
                let old = &mut self.processes[place];
                *old = process;
                Ok(())
            }
            None => self.append(process),
        }
    }

    /// Puts a process in place of what was known.
    fn put(&mut self, process: Process) -> Result<(), NoMemory>
        ensures ok { OnOk result (Keeps self.new (with_process (state_of self.old) process.pid process)) }
        ensures err { OnErr result (Keeps self.new (state_of self.old)) }
    {
        self.store(process)?;
        Ok(())
    }

    /// Adds an unknown process, and answers its place. Not inlined: once for a process.
    #[inline(never)]
    fn enter_new(&mut self, pid: Pid) -> Result<usize, NoMemory>
        requires { found self.old pid ≡ None }
        ensures kept { OnOk result (Keeps self.new (state_of self.old)) }
        ensures place { IfOk result (λ place. StandsAt self.new pid place) }
    {
        let cells = self.begin()?;
        let process = Process::unknown(pid, Mode::Unsure, cells)?;
        let place = self.processes.len();
        self.append(process)?;
        Ok(place)
    }

    /// The place of a process. An unknown one is added, by `enter_new`.
    #[inline(always)]
    fn enter(&mut self, pid: Pid) -> Result<usize, NoMemory>
        ensures kept { OnOk result (Keeps self.new (state_of self.old)) }
        ensures place { IfOk result (λ place. StandsAt self.new pid place) }
    {
        match self.place_of(pid) {
            Some(place) => Ok(place),
            None => self.enter_new(pid),
        }
    }

    /// Puts a process with this mode and these cells in place of what was known.
    pub(crate) fn add(
        &mut self,
        pid: Pid,
        mode: Mode,
        rest: Cell,
        cells: &[(Fd, Cell)],
    ) -> Result<(), NoMemory>
        requires { All (λ entry. IsFd entry.0) cells.now }
        ensures ok { OnOk result (Keeps self.new (with_listed (state_of self.old) pid mode rest cells.now)) }
        ensures err { OnErr result (Keeps self.new (state_of self.old)) }
    {
        let process = Process::listed(self.alloc, pid, mode, rest, cells)?;
        self.put(process)
    }

    /// Gives a process this mode, and writes these cells of it one after the other.
    pub(crate) fn set(&mut self, pid: Pid, mode: Mode, cells: &[(Fd, Cell)]) -> Result<(), NoMemory>
        requires { All (λ entry. IsFd entry.0) cells.now }
        ensures { OnOk result (Keeps self.new (with_cells (state_of self.old) pid mode cells.now)) }
    {
        let place = self.enter(pid)?;
        let process = &mut self.processes[place];
        process.set(mode, cells)?;
        Ok(())
    }

    /// Whether something is known of a process.
    pub(crate) fn knows(&self, pid: Pid) -> bool
        ensures { result ≡ false → found self.now pid ≡ None }
    {
        self.place_of(pid).is_some()
    }

    /// Writes one cell.
    #[inline(always)]
    fn write(&mut self, pid: Pid, fd: Fd, cell: Cell) -> Result<(), NoMemory>
        requires { IsFd fd }
        ensures { OnOk result (Keeps self.new (with_cell (state_of self.old) pid fd cell)) }
    {
        let place = self.enter(pid)?;
        self.write_at(place, pid, fd, cell)?;
        Ok(())
    }

    /// Writes one cell of the process at a place.
    #[inline(always)]
    fn write_at(&mut self, place: usize, pid: Pid, fd: Fd, cell: Cell) -> Result<(), NoMemory>
        requires place { StandsAt self.old pid place }
        requires within { IsFd fd }
        ensures { OnOk result (Keeps self.new (with_cell (state_of self.old) pid fd cell)) }
    {
        let process = &mut self.processes[place];
        process.cells.write(fd, cell)?;
        Ok(())
    }

    /// What an effect that makes no child and leaves something known does to a process.
    fn change(&mut self, pid: Pid, effect: &Effect<'_>) -> Result<(), NoMemory>
        requires within { IsWithin effect.now }
        requires own { IsOwn effect.now }
        ensures { OnOk result (Keeps self.new (effect_after effect.now pid (state_of self.old))) }
    {
        let alloc = self.alloc;
        let place = self.enter(pid)?;
        let process = &mut self.processes[place];
        process.apply(alloc, effect)?;
        Ok(())
    }

    /// A process that has what another one has.
    fn like(&mut self, parent: Pid, pid: Pid) -> Result<Process, NoMemory>
        ensures places { self.new.places ≡ self.old.places }
        ensures processes { self.new.processes ≡ self.old.processes }
        ensures cells { IfOk result (λ new. (f : ℕ) → cell_in new f ≡ cell_of self.old parent f) }
        ensures mode { IfOk result (λ new. new.mode ≡ mode_of self.old parent) }
        ensures pid { IfOk result (λ new. new.pid ≡ pid) }
    {
        match self.find(parent) {
            Some(process) => {
                let mut copy = process.clone()?;
                copy.pid = pid;
                Ok(copy)
            }
            None => {
                let cells = self.begin()?;
                Process::unknown(pid, Mode::Unsure, cells)
            }
        }
    }

    /// Hands on the cells of a process that is to be replaced.
    fn hand_on(&mut self, pid: Pid) -> Result<(), NoMemory>
        ensures places { self.new.places ≡ self.old.places }
        ensures processes { self.new.processes ≡ self.old.processes }
    {
        match self.place_of(pid) {
            Some(place) => self.processes[place].cells.hand_on(&mut self.deferred_free),
            None => Ok(()),
        }
    }

    /// Forgets the cells of a process, which has this mode then.
    pub(crate) fn forget(&mut self, pid: Pid, mode: Mode) -> Result<(), NoMemory>
        ensures { OnOk result (Keeps self.new (with_listed (state_of self.old) pid mode Cell.Unknown [])) }
    {
        self.hand_on(pid)?;
        let cells = self.begin()?;
        let process = Process::unknown(pid, mode, cells)?;
        self.put(process)
    }

    /// Writes in the tree of a process what it listed, for a child to share.
    fn flush(&mut self, pid: Pid) -> Result<(), NoMemory>
        ensures { OnOk result (Keeps self.new (state_of self.old)) }
    {
        let alloc = self.alloc;
        match self.place_of(pid) {
            Some(place) => {
                let process = &mut self.processes[place];
                process.cells.flush(alloc)?;
                Ok(())
            }
            None => Ok(()),
        }
    }

    /// Gives the child what the parent has, whose list is flushed.
    fn share(&mut self, parent: Pid, child: Pid) -> Result<(), NoMemory>
        ensures { OnOk result (Keeps self.new (with_copy (state_of self.old) parent child)) }
    {
        self.hand_on(child)?;
        let copy = self.like(parent, child)?;
        self.put(copy)
    }

    /// Gives the child what the parent has.
    fn fork(&mut self, parent: Pid, child: Pid) -> Result<(), NoMemory>
        ensures { OnOk result (Keeps self.new (with_copy (state_of self.old) parent child)) }
    {
        self.flush(parent)?;
        self.share(parent, child)?;
        Ok(())
    }

    /// What is said of a line of a process with this requirement.
    pub(crate) fn said(&self, pid: Pid, requirement: &Requirement) -> Verdict
        ensures { result ≡ findings_of requirement.now pid (state_of self.now) }
    {
        let process = self.find(pid);
        let mode = mode_in(process);
        match &requirement.checks {
            Checks::Nothing => requirement.judge(mode, &[]),
            Checks::One(a) => requirement.judge(mode, &[cell_at(process, a.fd)]),
            Checks::Two(a, b) => {
                requirement.judge(mode, &[cell_at(process, a.fd), cell_at(process, b.fd)])
            }
        }
    }

    /// What the effect of a line of a process does.
    pub(crate) fn apply(&mut self, pid: Pid, effect: &Effect<'_>) -> Result<(), NoMemory>
        requires { IsWithin effect.now }
        ensures { OnOk result (Keeps self.new (effect_after effect.now pid (state_of self.old))) }
    {
        self.deferred_free.free_some();
        match effect {
            Effect::Keep => Ok(()),
            Effect::Exit => self.forget(pid, Mode::Unsure),
            Effect::Forget => self.forget(pid, self.mode(pid)),
            Effect::Fork(child) => self.fork(pid, *child),
            Effect::ForkAs(child, fd) => {
                self.fork(pid, *child)?;
                self.write(pid, *fd, Cell::Unknown)?;
                self.write(*child, *fd, Cell::Unknown)
            }
            _ => self.change(pid, effect),
        }
    }
}
