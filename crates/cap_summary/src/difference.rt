//! What two states have differently, and what becomes of it over a segment.

ghost use Rattle.std.specs.Prelude.{All, [], IfOk, IfSome, None, OnOk, false, is_some, true, ◌∷◌, ◌≡◌};
ghost use Rattle.cap_summary.specs.Differing.{AreListed, DifferAt, IsKeyOf, IsListedKey, IsRowOf, are_at, is_key};
ghost use Rattle.cap_summary.specs.Differing.{IsKeptBut, IsSetAt, earlier_if, of_taker, present_if};
ghost use Rattle.cap_summary.specs.{Effects.line_after, Effects.state_before, Keys.cells_of, State, ended, said};
ghost use Rattle.cap_summary.specs.{Asks.AgreeOn, Asks.AgreeOnLine, Asks.holds, Preconditions.AgreeIn};
ghost use Rattle.cap_summary.specs.{Preconditions.is_wrongful};
ghost use Rattle.cap_summary.specs.{Effects.changed, Keys.Cells, Keys.read, Sorted.found, applied, declared.key.Key.Key};

use crate::view::Seen;
use crate::{
    Ask, Before, Effect, Key, LineAsks, Precondition, Row, UpToThree, Value, cell_of_mode,
};
use cap_machine::{
    Cell, Effect as LineEffect, Mode, Op, Step, effect_of_line, requirement_of_line,
};
use cap_trace::Pid;
use cap_tree::NoMemory;
use std::alloc::Global;

/// A cell that an earlier state and the present one have differently.
#[derive(Clone, Copy)]
pub(crate) struct Difference {
    /// The process.
    pub(crate) pid: Pid,
    /// The key of the cell.
    pub(crate) key: Key,
    /// The cell of the earlier state.
    pub(crate) was: Cell,
    /// The cell of the present state.
    pub(crate) now: Cell,
}

/// Which of the two states takes a step that the other doesn't.
#[derive(Clone, Copy)]
pub(crate) enum Alone {
    /// The earlier one.
    Earlier,
    /// The present one.
    Present,
}

/// All that two states have differently. No cell is listed twice.
#[derive(Drop)]
pub(crate) struct Differences {
    /// What is listed.
    pub(crate) cells: Vec<Difference>,
}

/// Whether a key of a process is another.
fn is_key(pid: Pid, key: Key, other: Pid, at: Key) -> bool
    ensures { result ≡ is_key pid key other at }
{
    pid == other && key.number() == at.number()
}

impl Differences {
    /// Nothing.
    pub(crate) fn none(alloc: Global) -> Differences
        ensures empty { result.cells.items ≡ [] }
        ensures same { (cells : Cells) → DifferAt result.cells.items cells cells }
    {
        Differences {
            cells: Vec::new(alloc),
        }
    }

    /// What the states have differently at a key of a process.
    pub(crate) fn find(&self, pid: Pid, key: Key) -> Option<&Difference>
        ensures some { IfSome result (λ d. (old new : Cells) → DifferAt self.now.cells.items old new
            → (old pid key ≡ d.now.was) × (new pid key ≡ d.now.now)) }
        ensures there { is_some result ≡ are_at self.now.cells.items pid key }
    {
        for one in &self.cells {
            if is_key(one.pid, one.key, pid, key) {
                return Some(one);
            }
        }
        None
    }

    /// Lists what the states have differently at a key of a process after a segment, where each has there what an op makes
    /// of this cell before it.
    fn put_made(
        &self,
        of: (Pid, Key),
        op: &Op,
        pid: Pid,
        key: Key,
        put: &mut Differences,
    ) -> Result<(), NoMemory>
        ensures { (old new now_old now_new : Cells) → DifferAt self.now.cells.items old new
            → now_old pid key ≡ applied op.now (old of.0 of.1) → now_new pid key ≡ applied op.now (new of.0 of.1)
            → OnOk result (AreListed now_old now_new (λ p k. is_key pid key p k ≡ true) put.old.cells.items
            put.new.cells.items) }
    {
        let Some(one) = self.find(of.0, of.1) else {
            return Ok(());
        };
        let was = op.on(one.was);
        let now = op.on(one.now);
        if was == now || put.find(pid, key).is_some() {
            return Ok(());
        }
        put.cells.push(Difference { pid, key, was, now })?;
        Ok(())
    }

    /// The same, where each has the cell that a value stands for.
    fn put_value(
        &self,
        value: &Value,
        pid: Pid,
        key: Key,
        put: &mut Differences,
    ) -> Result<(), NoMemory>
        ensures { (old new now_old now_new : Cells) → DifferAt self.now.cells.items old new
            → now_old pid key ≡ read old value.now → now_new pid key ≡ read new value.now
            → OnOk result (AreListed now_old now_new (λ p k. is_key pid key p k ≡ true) put.old.cells.items
            put.new.cells.items) }
    {
        match value {
            Value::Same(source, at) => { self.put_made((*source, *at), &Op::same(), pid, key, put) }
            Value::Of(source, at, op) => self.put_made((*source, *at), op.get(), pid, key, put),
            _ => Ok(()),
        }
    }

    /// The same, where the process has this row.
    fn put_key(&self, pid: Pid, row: &Row, key: Key, put: &mut Differences) -> Result<(), NoMemory>
        ensures { (old new now_old now_new : Cells) → DifferAt self.now.cells.items old new
            → IsRowOf pid row.now old now_old → IsRowOf pid row.now new now_new
            → OnOk result (AreListed now_old now_new (λ p k. is_key pid key p k ≡ true) put.old.cells.items
            put.new.cells.items) }
    {
        match row.view(pid, key, row.listed(key)) {
            Seen::Is(_) => Ok(()),
            Seen::Same(source, at) => self.put_made((source, at), &Op::same(), pid, key, put),
            Seen::Executed(source, at) => self.put_made((source, at), &Op::exec(), pid, key, put),
            Seen::Made(op, source, at) => self.put_made((source, at), op.get(), pid, key, put),
        }
    }

    /// Lists what the states have differently of the cells that a row of a process lists.
    fn put_listed(&self, pid: Pid, row: &Row, put: &mut Differences) -> Result<(), NoMemory>
        ensures { (old new now_old now_new : Cells) → DifferAt self.now.cells.items old new
            → IsRowOf pid row.now old now_old → IsRowOf pid row.now new now_new
            → OnOk result (AreListed now_old now_new (λ p k. (p ≡ pid) × IsListedKey row.now.cells k)
            put.old.cells.items put.new.cells.items) }
    {
        for cell in row.cells.entries() {
            self.put_value(&cell.1, pid, Key::Fd(cell.0), put)?;
        }
        Ok(())
    }

    /// Lists what the states have differently at the keys of a process with this row at which they have something
    /// differently before it.
    fn put_handed(&self, pid: Pid, row: &Row, put: &mut Differences) -> Result<(), NoMemory>
        ensures { (old new now_old now_new : Cells) → DifferAt self.now.cells.items old new
            → IsRowOf pid row.now old now_old → IsRowOf pid row.now new now_new
            → OnOk result (AreListed now_old now_new (λ p k. (p ≡ pid) × IsKeyOf self.now.cells.items k)
            put.old.cells.items put.new.cells.items) }
    {
        for one in &self.cells {
            self.put_key(pid, row, one.key, put)?;
        }
        Ok(())
    }

    /// Lists all that the states have differently of a process with this row.
    fn put_row(&self, pid: Pid, row: &Row, put: &mut Differences) -> Result<(), NoMemory>
        ensures { (old new now_old now_new : Cells) → DifferAt self.now.cells.items old new
            → IsRowOf pid row.now old now_old → IsRowOf pid row.now new now_new
            → OnOk result (AreListed now_old now_new (λ p k. p ≡ pid) put.old.cells.items put.new.cells.items) }
    {
        self.put_key(pid, row, Key::Mode, put)?;
        self.put_listed(pid, row, put)?;
        self.put_handed(pid, row, put)
    }

    /// Lists what the states have differently of the processes without a row of this effect.
    fn put_left(&self, effect: &Effect, put: &mut Differences) -> Result<(), NoMemory>
        ensures { (old new : Cells) → DifferAt self.now.cells.items old new → OnOk result
            (AreListed (changed effect.now old) (changed effect.now new)
            (λ p k. (found effect.now.rows p ≡ None) × (are_at self.now.cells.items p k ≡ true))
            put.old.cells.items put.new.cells.items) }
    {
        for one in &self.cells {
            if effect.row(one.pid).is_none() {
                self.put_made((one.pid, one.key), &Op::same(), one.pid, one.key, put)?;
            }
        }
        Ok(())
    }

    /// What the states have differently after a segment with this effect.
    pub(crate) fn through(&self, alloc: Global, effect: &Effect) -> Result<Differences, NoMemory>
        ensures { (old new : Cells) → DifferAt self.now.cells.items old new → IfOk result
            (λ put. DifferAt put.cells.items (changed effect.now old) (changed effect.now new)) }
    {
        let mut put = Differences::none(alloc);
        if self.cells.is_empty() {
            return Ok(put);
        }
        self.put_left(effect, &mut put)?;
        for entry in effect.rows.entries() {
            self.put_row(entry.0, entry.1.get(), &mut put)?;
        }
        Ok(put)
    }

    /// Whether the states agree on an ask: what it tests they have alike, or it holds in neither.
    fn agree_on(&self, ask: &Ask) -> bool
        ensures { result ≡ true → (old new : Cells) → DifferAt self.now.cells.items old new → AgreeOn old new ask.now }
    {
        match self.find(ask.pid, ask.key) {
            None => true,
            Some(one) => !ask.passes(one.was) && !ask.passes(one.now),
        }
    }

    /// Whether the states agree on each of some asks.
    fn agree_on_each(&self, asks: &[Ask]) -> bool
        ensures { result ≡ true → (old new : Cells) → DifferAt self.now.cells.items old new
            → All (AgreeOn old new) asks.now }
    {
        for ask in asks {
            if !self.agree_on(ask) {
                return false;
            }
        }
        true
    }

    /// Whether an ask holds in both states or in neither.
    fn holds_alike(&self, ask: &Ask) -> bool
        ensures { result ≡ true → (old new : Cells) → DifferAt self.now.cells.items old new
            → holds old ask.now ≡ holds new ask.now }
    {
        match self.find(ask.pid, ask.key) {
            None => true,
            Some(one) => ask.passes(one.was) == ask.passes(one.now),
        }
    }

    /// Whether each of the asks of a refusal holds in both states or in neither, so that it is wrongful in both or in
    /// neither.
    fn refuse_alike(&self, refusal: &UpToThree) -> bool
        ensures { result ≡ true → (old new : Cells) → DifferAt self.now.cells.items old new
            → is_wrongful old refusal.now ≡ is_wrongful new refusal.now }
    {
        for ask in refusal.as_slice() {
            if !self.holds_alike(ask) {
                return false;
            }
        }
        true
    }

    /// The same of each of some refusals.
    fn refuse_all_alike(&self, refusals: &[UpToThree]) -> bool
        ensures { result ≡ true → (old new : Cells) → DifferAt self.now.cells.items old new
            → All (λ refusal. is_wrongful old refusal ≡ is_wrongful new refusal) refusals.now }
    {
        for refusal in refusals {
            if !self.refuse_alike(refusal) {
                return false;
            }
        }
        true
    }

    /// Whether the states agree in all that a segment asks, so that the same is found in it from both. It may say no where
    /// they do.
    pub(crate) fn agree_in(&self, precondition: &Precondition) -> bool
        ensures { result ≡ true → (old new : Cells) → DifferAt self.now.cells.items old new
            → AgreeIn old new precondition.now }
    {
        if self.cells.is_empty() {
            return true;
        }
        self.agree_on_each(&precondition.asks) && self.refuse_all_alike(&precondition.refusals)
    }

    /// Whether they agree on what one line asks. It may say no where they do.
    pub(crate) fn agree_on_line(&self, asks: &LineAsks) -> bool
        ensures { result ≡ true → (old new : Cells) → DifferAt self.now.cells.items old new
            → AgreeOnLine old new asks.now }
    {
        match asks {
            LineAsks::Always => true,
            LineAsks::Where(asks) => self.agree_on_each(asks.as_slice()),
            LineAsks::Unless(asks) => self.refuse_alike(asks),
        }
    }

    /// Both states have these cells at a key, and all others as they were.
    fn put(
        &mut self,
        alloc: Global,
        pid: Pid,
        key: Key,
        was: Cell,
        now: Cell,
    ) -> Result<(), NoMemory>
        ensures { (old new now_old now_new : Cells) → DifferAt self.old.cells.items old new
            → IsSetAt pid key was old now_old → IsSetAt pid key now new now_new
            → OnOk result (DifferAt self.new.cells.items now_old now_new) }
    {
        let mut put = Differences::none(alloc);
        if was != now {
            put.cells.push(Difference { pid, key, was, now })?;
        }
        self.put_others(pid, key, &mut put)?;
        *self = put;
        Ok(())
    }

    /// Lists all that the states have differently but at this key.
    fn put_others(&self, pid: Pid, key: Key, put: &mut Differences) -> Result<(), NoMemory>
        ensures { (old new now_old now_new : Cells) → DifferAt self.now.cells.items old new
            → IsKeptBut pid key old now_old → IsKeptBut pid key new now_new → OnOk result (AreListed now_old now_new
            (λ p k. (is_key pid key p k ≡ false) × (are_at self.now.cells.items p k ≡ true))
            put.old.cells.items put.new.cells.items) }
    {
        for one in &self.cells {
            if !is_key(one.pid, one.key, pid, key) {
                self.put_made((one.pid, one.key), &Op::same(), one.pid, one.key, put)?;
            }
        }
        Ok(())
    }

    /// The cell of the earlier state.
    fn was(&self, before: &Before<'_>, pid: Pid, key: Key) -> Cell
        ensures { (old : Cells) → DifferAt self.now.cells.items old (cells_of (state_before before.now))
            → old pid key ≡ result }
    {
        match self.find(pid, key) {
            Some(one) => one.was,
            None => before.read(pid, key),
        }
    }

    /// The cell of the state that takes a step.
    fn taken(&self, before: &Before<'_>, alone: Alone, pid: Pid, key: Key) -> Cell
        ensures { (old : Cells) → DifferAt self.now.cells.items old (cells_of (state_before before.now))
            → of_taker alone old (cells_of (state_before before.now)) pid key ≡ result }
    {
        match alone {
            Alone::Earlier => self.was(before, pid, key),
            Alone::Present => before.read(pid, key),
        }
    }

    /// The state that takes a step has a cell at a key.
    fn set(
        &mut self,
        alloc: Global,
        before: &Before<'_>,
        alone: Alone,
        pid: Pid,
        key: Key,
        cell: Cell,
    ) -> Result<(), NoMemory>
        ensures { (old after : Cells) → DifferAt self.old.cells.items old (cells_of (state_before before.now))
            → IsSetAt pid key cell (of_taker alone old (cells_of (state_before before.now))) after
            → OnOk result (DifferAt self.new.cells.items (earlier_if alone after old)
            (present_if alone after (cells_of (state_before before.now)))) }
    {
        match alone {
            Alone::Earlier => {
                let now = before.read(pid, key);
                self.put(alloc, pid, key, cell, now)
            }
            Alone::Present => {
                let was = self.was(before, pid, key);
                self.put(alloc, pid, key, was, cell)
            }
        }
    }

    /// One of the two states takes a line of process `me`. It answers whether that was tried: not where the line changes a
    /// whole table, or two cells.
    pub(crate) fn take_alone(
        &mut self,
        alloc: Global,
        before: &Before<'_>,
        alone: Alone,
        me: Pid,
        line: &LineEffect<'_>,
    ) -> Result<bool, NoMemory>
        ensures { (old : Cells) → DifferAt self.old.cells.items old (cells_of (state_before before.now))
            → IfOk result (λ tried. tried ≡ true → DifferAt self.new.cells.items
            (earlier_if alone (line_after line.now me old) old)
            (present_if alone (line_after line.now me (cells_of (state_before before.now)))
            (cells_of (state_before before.now)))) }
    {
        match line {
            LineEffect::Keep => Ok(true),
            LineEffect::Enter => {
                let inside = cell_of_mode(Mode::Inside);
                self.set(alloc, before, alone, me, Key::Mode, inside)?;
                Ok(true)
            }
            LineEffect::Give(fd, cell) => {
                self.set(alloc, before, alone, me, Key::Fd(*fd), *cell)?;
                Ok(true)
            }
            LineEffect::Change(fd, op, from) => {
                let cell = op.on(self.taken(before, alone, me, Key::Fd(*from)));
                self.set(alloc, before, alone, me, Key::Fd(*fd), cell)?;
                Ok(true)
            }
            _ => Ok(false),
        }
    }

    /// One of the two states takes a step. It answers whether that was tried: not where the step changes a whole table, or
    /// two cells.
    pub(crate) fn take_step(
        &mut self,
        alloc: Global,
        before: &Before<'_>,
        alone: Alone,
        step: &Step,
    ) -> Result<bool, NoMemory>
        ensures { (s : State) → DifferAt self.old.cells.items (cells_of s) (cells_of (state_before before.now))
            → IfOk result (λ tried. tried ≡ true → DifferAt self.new.cells.items
            (earlier_if alone (cells_of (ended s (step.now ∷ []))) (cells_of s))
            (present_if alone (cells_of (ended (state_before before.now) (step.now ∷ [])))
            (cells_of (state_before before.now)))) }
    {
        let line = step.line.view();
        let pid = line.pid;
        let done = effect_of_line(step.profile, &line);
        let tried = self.take_alone(alloc, before, alone, pid, &done)?;
        Ok(tried)
    }

    /// What the states have differently after a step that both take.
    pub(crate) fn through_step(&self, alloc: Global, step: &Step) -> Result<Differences, NoMemory>
        ensures { (s r : State) → DifferAt self.now.cells.items (cells_of s) (cells_of r) → IfOk result (λ put.
            DifferAt put.cells.items (cells_of (ended s (step.now ∷ []))) (cells_of (ended r (step.now ∷ [])))) }
    {
        let line = step.line.view();
        let pid = line.pid;
        let done = effect_of_line(step.profile, &line);
        let mut effect = Effect::empty(alloc);
        effect.push(alloc, pid, &done)?;
        let put = self.through(alloc, &effect)?;
        Ok(put)
    }

    /// Whether they agree on what a step asks, so that the same is said of it. It may say no where they do.
    pub(crate) fn agree_on_step(&self, step: &Step) -> bool
        ensures { result ≡ true → (s r : State) → DifferAt self.now.cells.items (cells_of s) (cells_of r)
            → said step.now s ≡ said step.now r }
    {
        let line = step.line.view();
        let pid = line.pid;
        let requirement = requirement_of_line(&line);
        let asks = LineAsks::of_line(pid, &requirement);
        self.agree_on_line(&asks)
    }
}
