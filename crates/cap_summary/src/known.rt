//! What is known of a segment of a trace.

ghost use Rattle.std.specs.Prelude.{◌≡◌, ◌<◌, ◌∷◌, ◌++◌, nat_le, true, List, [], IfOk, OnOk};
ghost use Rattle.cap_summary.specs.{Composing.{AreAlike, IsJoined, IsJoinedEffect}, Effects.leaves, Keys.AllRise};
ghost use Rattle.cap_summary.specs.{Knows.{Knows, Says, finds, state_after}, Lasts.pids_of, Step, part_at, start_state, values};
ghost use Rattle.cap_summary.specs.Preconditions.{IsAskedByBoth, IsSamePrecondition, IsSettled, size};

use crate::composed::Replaced;
use crate::{Before, Effect, Key, LineAsks, Precondition};
use cap_machine::{Cell, Mode, Start, Step, rule_of};
use cap_trace::{Fd, Pid};
use cap_tree::{NoMemory, Side, Similarity};
use std::alloc::Global;
use std::rc::Rc;

/// What is known of a segment: what it does to each cell, and under which states before it something is found in it. Each
/// of the two may be shared with what is known of other segments.
#[derive(Drop)]
pub struct Known {
    /// What becomes of each cell.
    pub effect: Rc<Effect>,
    /// Where something is found.
    pub precondition: Rc<Precondition>,
}

/// Adds one more step to an effect and to a precondition, and answers its process.
fn put_step(
    alloc: Global,
    effect: &mut Effect,
    precondition: &mut Precondition,
    step: &Step,
) -> Result<Pid, NoMemory>
    ensures pid { IfOk result (λ pid. pid ≡ step.now.line.pid) }
    ensures says { (steps : List Step) → Says effect.old precondition.old steps
        → OnOk result (Says effect.new precondition.new (steps ++ step.now ∷ [])) }
{
    let line = step.line.view();
    let pid = line.pid;
    let rule = rule_of(step.profile, &line);
    let asks = LineAsks::of_line(pid, &rule.requirement);
    precondition.put_line(effect, &asks)?;
    effect.push(alloc, pid, &rule.effect)?;
    Ok(pid)
}

impl Known {
    /// What is known of a run of steps, settled, and their processes.
    pub(crate) fn of_run(alloc: Global, steps: &[Rc<Step>]) -> Result<(Known, Vec<Pid>), NoMemory>
        ensures says { IfOk result (λ run. Knows run.0 (values steps.now)) }
        ensures settled { IfOk result (λ run. IsSettled run.0.precondition.value) }
        ensures pids { IfOk result (λ run. run.1.items ≡ pids_of (values steps.now)) }
    {
        let mut effect = Effect::empty(alloc);
        let mut precondition = Precondition::never(alloc, steps.len())?;
        let mut pids = Vec::with_capacity(alloc, steps.len())?;
        for step in steps {
            let pid = put_step(alloc, &mut effect, &mut precondition, step)?;
            pids.push(pid)?;
        }
        let settled = precondition.settled(alloc)?;
        let effect = Rc::new(alloc, effect)?;
        let shared = Rc::new(alloc, settled)?;
        let known = Known {
            effect,
            precondition: shared,
        };
        Ok((known, pids))
    }

    /// What is known of these steps and then those of a later segment, settled.
    pub fn join(&self, alloc: Global, later: &Known) -> Result<Known, NoMemory>
        requires own { IsSettled self.now.precondition.value }
        requires later { IsSettled later.now.precondition.value }
        ensures { IfOk result (IsJoined self.now later.now) }
    {
        let effect = self.effect.joined(alloc, &later.effect, None)?;
        let precondition = self
            .precondition
            .join(alloc, &self.effect, &later.precondition)?;
        Ok(Known {
            effect: Rc::new(alloc, effect)?,
            precondition: Rc::new(alloc, precondition)?,
        })
    }

    /// How far this is the same as what was known of a part in its place, where so much is known of it already: as far as
    /// that tells what may be kept of a whole.
    fn similarity_to(&self, was: &Known, side: Side, similarity: Similarity) -> Similarity
        requires { AreAlike similarity was.now self.now }
        ensures alike { AreAlike result was.now self.now }
        ensures effect { side ≡ Side.Left → result.precondition ≡ true → result.effect ≡ true }
    {
        let effect = similarity.effect || was.effect.is_same(&self.effect);
        if matches!(side, Side::Left) && !effect {
            return Similarity::none();
        }
        Similarity {
            effect,
            precondition: similarity.precondition || was.precondition.is_same(&self.precondition),
        }
    }

    /// The effect of these steps and a later segment: that of an old whole where it is kept, or else one that shares rows
    /// with it.
    #[tactic(auto, using(crate::proofs::Rejoining::old_effect))]
    fn rejoined_effect(
        &self,
        alloc: Global,
        later: &Known,
        old: &Known,
        was: &Known,
        side: Side,
        kept: Similarity,
    ) -> Result<Rc<Effect>, NoMemory>
        requires old { IsJoined (part_at side was.now self.now) (part_at side later.now was.now) old.now }
        requires kept { kept.effect ≡ true
            → IsJoinedEffect self.now.effect.value later.now.effect.value old.now.effect.value }
        ensures joined { IfOk result (λ both.
            IsJoinedEffect self.now.effect.value later.now.effect.value both.value) }
        ensures same { IfOk result (λ both. kept.effect ≡ true → old.now.effect.value.rows ≡ both.value.rows) }
    {
        if kept.effect {
            return Ok(old.effect.clone()?);
        }
        let replaced = Replaced {
            whole: &old.effect,
            was: &was.effect,
            side,
        };
        let effect = self.effect.joined(alloc, &later.effect, Some(replaced))?;
        Ok(Rc::new(alloc, effect)?)
    }

    /// What these steps and a later segment ask: what an old whole asks where that is kept.
    fn rejoined_precondition(
        &self,
        alloc: Global,
        later: &Known,
        old: &Known,
        kept: Similarity,
    ) -> Result<Rc<Precondition>, NoMemory>
        requires own { IsSettled self.now.precondition.value }
        requires later { IsSettled later.now.precondition.value }
        requires kept { kept.precondition ≡ true → IsAskedByBoth self.now.effect.value
            self.now.precondition.value later.now.precondition.value old.now.precondition.value }
        ensures joined { IfOk result (λ both. IsAskedByBoth self.now.effect.value self.now.precondition.value
            later.now.precondition.value both.value) }
        ensures same { IfOk result (λ both. kept.precondition ≡ true
            → IsSamePrecondition old.now.precondition.value both.value) }
    {
        if kept.precondition {
            return Ok(old.precondition.clone()?);
        }
        let precondition = self
            .precondition
            .join(alloc, &self.effect, &later.precondition)?;
        Ok(Rc::new(alloc, precondition)?)
    }

    /// What is known of two segments, when one took the place of `was` in an old whole, and how far it is the same as
    /// what was known of that whole. What is the same is shared. `similarity` says how far `was` and the new part are
    /// alike.
    #[tactic(auto, using(crate::proofs::Rejoining::rejoined_effect, crate::proofs::Rejoining::rejoined_asks))]
    pub(crate) fn rejoin(
        alloc: Global,
        first: &Known,
        second: &Known,
        old: &Known,
        was: &Known,
        side: Side,
        similarity: Similarity,
    ) -> Result<(Known, Similarity), NoMemory>
        requires own { IsSettled first.now.precondition.value }
        requires later { IsSettled second.now.precondition.value }
        requires old { IsJoined (part_at side was.now first.now) (part_at side second.now was.now) old.now }
        requires like { AreAlike similarity was.now (part_at side first.now second.now) }
        ensures joined { IfOk result (λ new. IsJoined first.now second.now new.0) }
        ensures alike { IfOk result (λ new. AreAlike new.1 old.now new.0) }
    {
        let (part, _) = side.order(first, second);
        let kept = part.similarity_to(was, side, similarity);
        let effect = first.rejoined_effect(alloc, second, old, was, side, kept)?;
        let precondition = first.rejoined_precondition(alloc, second, old, kept)?;
        let known = Known {
            effect,
            precondition,
        };
        Ok((known, kept))
    }

    /// Whether something is found in the steps from a start.
    pub fn finds(&self, start: &Start) -> bool
        ensures { result ≡ finds self.now (start_state start.now) }
    {
        Before::At(&*start).meets(&self.precondition)
    }

    /// What is known of a descriptor of a process after the steps, from a start.
    pub fn cell(&self, start: &Start, pid: Pid, fd: Fd) -> Cell
        ensures { result ≡ (state_after self.now (start_state start.now)).cell pid fd }
    {
        let before = Before::At(&*start);
        Before::After(&before, &self.effect).cell(pid, fd)
    }

    /// What is known of the mode of a process after the steps, from a start.
    pub fn mode(&self, start: &Start, pid: Pid) -> Mode
        ensures { result ≡ (state_after self.now (start_state start.now)).mode pid }
    {
        let before = Before::At(&*start);
        Before::After(&before, &self.effect).mode(pid)
    }

    /// Whether it is known that no step touches a cell or turns a mode. No promises nothing.
    pub fn leaves(&self, pid: Pid, key: Key) -> bool
        ensures { result ≡ leaves self.now.effect.value pid key }
    {
        self.effect.leaves(pid, key)
    }

    /// Whether there is room for it: so many rows, cells, asks and refusals together.
    pub fn fits(&self, room: usize) -> bool
        requires { room < usize.MAX }
        ensures fits { result ≡ nat_le (size self.now) room }
        ensures rising { AllRise self.now.effect.value.rows }
    {
        let size = self.effect.size();
        size <= room && self.precondition.size() <= room - size
    }
}
