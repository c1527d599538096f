//! Under which states before a segment something is found in it.

ghost use Rattle.std.specs.Prelude.{All, IfOk, OnOk, [], false, length, option_copied, true, ◌≡◌, ◌≤◌};
ghost use Rattle.cap_summary.specs.{Keys.Cells, Keys.cells_of, Sorted.found, State, list_any};
ghost use Rattle.cap_summary.specs.Preconditions.{AgreeIn, AllSaid, IfNamed, IsAskedByBoth, IsPulledBack, IsSettled};
ghost use Rattle.cap_summary.specs.Preconditions.{IsRefusalSaid, IsSamePrecondition, IsWithMore, asks_size, is_wrongful};
ghost use Rattle.cap_summary.specs.Preconditions.{Saying, is_met};
ghost use Rattle.cap_summary.specs.Asks.{AgreeOn, AgreeOnLine, AreWithin, CanFail, Rises, any_holds, asked_holds};
ghost use Rattle.cap_summary.specs.Asks.{asks_in, asks_of, refusals_in};

use crate::asks::{any_is_certain, in_order, unite, unite_unordered};
use crate::{Ask, Effect, LineAsks, Pulled, Row, UpToThree};
use cap_trace::Pid;
use cap_tree::NoMemory;
use std::alloc::Global;
use std::cmp::Ordering;

/// Under which states before a segment something is found in it: in every one, or where an ask holds or a refusal is
/// wrongful.
#[derive(Drop)]
pub struct Precondition {
    /// Something is found whatever the state.
    pub certain: bool,
    /// What is asked.
    pub asks: Vec<Ask>,
    /// The asks of each refusal for lack of rights (errno 93). It is wrongful unless one of them holds.
    pub refusals: Vec<UpToThree>,
}

/// The row of a process, if it has one, where that of the last process that was looked up is at hand.
#[inline(always)]
fn row_of<'a>(first: &'a Effect, pid: Pid, last: Pid, row: Option<&'a Row>) -> Option<&'a Row>
    requires { option_copied row ≡ found first.now.rows last }
    ensures { option_copied result ≡ found first.now.rows pid }
{
    if pid == last { row } else { first.row(pid) }
}

/// What these asks ask before an earlier segment, in order, and whether one more holds, whose cell that gives. Those at
/// the places that they had are kept in order.
fn pulled_asks(alloc: Global, first: &Effect, asks: &[Ask]) -> Result<(Vec<Ask>, bool), NoMemory>
    requires { Rises asks.now }
    ensures rises { IfOk result (λ back. Rises back.0.items) }
    ensures back { IfOk result (λ back. IsPulledBack first.now asks.now back.0.items back.1) }
{
    let mut kept = Vec::with_capacity(alloc, asks.len())?;
    let mut moved = Vec::new(alloc);
    let mut certain = false;
    let mut pid = 0;
    let mut row = first.row(pid);
    for ask in asks {
        row = row_of(first, ask.pid, pid, row);
        pid = ask.pid;
        let Some((by, listed)) = ask.changed_by(row) else {
            kept.push(*ask)?;
            continue;
        };
        match ask.through(by, listed) {
            Pulled::Always => certain = true,
            Pulled::Never => {}
            Pulled::Where(before) => match before.order(ask) {
                Ordering::Equal => kept.push(before)?,
                _ => moved.push(before)?,
            },
        }
    }
    let asks = unite_unordered(alloc, kept, moved)?;
    Ok((asks, certain))
}

/// Whether something is found in every state: where that is known, or one of these asks holds in each.
fn is_certain(known: bool, asks: &[Ask]) -> bool
    ensures known { known ≡ true → result ≡ true }
    ensures always { result ≡ true → known ≡ false → (s : State) → any_holds (cells_of s) asks.now ≡ true }
    ensures fails { result ≡ false → All CanFail asks.now }
{
    known || any_is_certain(asks)
}

impl Precondition {
    /// Nothing is found in any state. It has room for so many asks.
    pub fn never(alloc: Global, room: usize) -> Result<Precondition, NoMemory>
        ensures met { IfOk result (λ pre. (s : State) → is_met (cells_of s) pre ≡ false) }
        ensures each { IfOk result (λ pre. (said : Saying) → AllSaid said pre) }
        ensures nothing { IfOk result (λ pre. (pre.certain ≡ false) × (pre.asks.items ≡ []) × (pre.refusals.items ≡ [])) }
    {
        Ok(Precondition {
            certain: false,
            asks: Vec::with_capacity(alloc, room)?,
            refusals: Vec::new(alloc),
        })
    }

    /// How many asks and refusals it has.
    pub fn size(&self) -> usize
        ensures { result ≡ asks_size self.now }
    {
        self.asks.len() + self.refusals.len()
    }

    /// Whether another one has the same asks and refusals.
    pub fn is_same(&self, other: &Precondition) -> bool
        ensures { result ≡ true → IsSamePrecondition self.now other.now }
    {
        self.certain == other.certain && self.asks == other.asks && self.refusals == other.refusals
    }

    /// Something is also found where one of these holds after an earlier segment.
    fn put_after(&mut self, first: &Effect, asks: &[Ask]) -> Result<(), NoMemory>
        ensures { OnOk result (IsWithMore first.now (λ cells. any_holds cells asks.now)
            (λ s r. All (AgreeOn s r) asks.now) (IfNamed (λ names. AreWithin names asks.now)) (length asks.now) 0
            self.old self.new) }
    {
        for ask in asks {
            match ask.before(first) {
                Pulled::Always => self.certain = true,
                Pulled::Never => {}
                Pulled::Where(ask) => self.asks.push(ask)?,
            }
        }
        Ok(())
    }

    /// Something is also found where a refusal is wrongful after an earlier segment, which it is unless one of these holds.
    fn refuse_after(&mut self, first: &Effect, unless: &UpToThree) -> Result<(), NoMemory>
        ensures more { OnOk result (IsWithMore first.now (λ cells. is_wrongful cells unless.now)
            (λ s r. is_wrongful s unless.now ≡ is_wrongful r unless.now)
            (IfNamed (λ names. AreWithin names (asks_of unless.now))) 1 1 self.old self.new) }
        ensures asks { self.new.asks ≡ self.old.asks }
        ensures certain { self.new.certain ≡ false → self.old.certain ≡ false }
    {
        let pulled = unless.before(first);
        let Some(asks) = pulled else {
            return Ok(());
        };
        if asks.is_certain() {
            return Ok(());
        }
        if asks.as_slice().is_empty() {
            self.certain = true;
        } else {
            self.refusals.push(asks)?;
        }
        Ok(())
    }

    /// Something is also found where it is in a line after an earlier segment.
    pub fn put_line(&mut self, first: &Effect, asks: &LineAsks) -> Result<(), NoMemory>
        ensures { OnOk result (IsWithMore first.now (λ cells. asked_holds cells asks.now)
            (λ s r. AgreeOnLine s r asks.now) (IfNamed (λ names. AreWithin names (asks_in asks.now))) 3
            (refusals_in asks.now) self.old self.new) }
    {
        match asks {
            LineAsks::Always => {
                self.certain = true;
                Ok(())
            }
            LineAsks::Where(asks) => self.put_after(first, asks.as_slice()),
            LineAsks::Unless(asks) => self.refuse_after(first, asks),
        }
    }

    /// Something is also found where one of these refusals is wrongful after an earlier segment.
    fn refuse_all_after(&mut self, first: &Effect, refusals: &[UpToThree]) -> Result<(), NoMemory>
        ensures more { OnOk result (IsWithMore first.now (λ cells. list_any (is_wrongful cells) refusals.now)
            (λ s r. All (λ refusal. is_wrongful s refusal ≡ is_wrongful r refusal) refusals.now)
            (λ said. All (IsRefusalSaid said) refusals.now) (length refusals.now) (length refusals.now) self.old
            self.new) }
        ensures asks { self.new.asks ≡ self.old.asks }
        ensures certain { self.new.certain ≡ false → self.old.certain ≡ false }
    {
        for refusal in refusals {
            self.refuse_after(first, refusal)?;
        }
        Ok(())
    }

    /// What is asked by a segment that asks this and has this effect, or by a later one, settled.
    pub(crate) fn join(
        &self,
        alloc: Global,
        first: &Effect,
        later: &Precondition,
    ) -> Result<Precondition, NoMemory>
        requires own { IsSettled self.now }
        requires later { IsSettled later.now }
        ensures { IfOk result (IsAskedByBoth first.now self.now later.now) }
    {
        let (own, theirs) = (self.asks.as_slice(), later.asks.as_slice());
        let (back, certain) = pulled_asks(alloc, first, theirs)?;
        let before = back.as_slice();
        let asks = unite(alloc, own, before)?;
        let room = self.refusals.len().saturating_add(later.refusals.len());
        let mut refusals = Vec::with_capacity(alloc, room)?;
        refusals.extend_from_slice(self.refusals.as_slice())?;
        let mut both = Precondition {
            certain: is_certain(self.certain || later.certain || certain, &asks),
            asks,
            refusals,
        };
        both.refuse_all_after(first, &later.refusals)?;
        Ok(both)
    }

    /// The precondition settled: its asks are in order, and it says that something is found in every state where one of
    /// them holds in each.
    pub fn settled(self, alloc: Global) -> Result<Precondition, NoMemory>
        ensures met { IfOk result (λ pre. (s : State) → is_met (cells_of s) pre ≡ is_met (cells_of s) self) }
        ensures agree { IfOk result (λ pre. (s r : Cells) → AgreeIn s r pre → AgreeIn s r self) }
        ensures settled { IfOk result IsSettled }
        ensures each { IfOk result (λ pre. (said : Saying) → AllSaid said self → AllSaid said pre) }
        ensures few { IfOk result (λ pre. asks_size pre ≤ asks_size self) }
        ensures refusals { IfOk result (λ pre. length pre.refusals.items ≤ length self.refusals.items) }
    {
        let asks = in_order(alloc, self.asks)?;
        let mut refusals = self.refusals;
        refusals.shrink_to_fit();
        Ok(Precondition {
            certain: is_certain(self.certain, &asks),
            asks,
            refusals,
        })
    }
}
