//! The nodes of a summary. A contract sees a node as its steps, and what is known of them where that is kept.

ghost use Rattle.std.specs.Prelude.{◌≡◌, ◌+◌, ◌*◌, ◌^◌, ◌<◌, ◌≤◌, ◌++◌, ◌⊎◌, length, IfOk, OnOk, IfSome};
ghost use Rattle.cap_summary.specs.{Composing.AreAlike, Composing.IfKept, Composing.NodeView, Composing.NodesCompose};
ghost use Rattle.cap_summary.specs.{Effects.state_before, Kept.AreKept, Kept.HasParts, Kept.IsKept, Kept.IsLarge};
ghost use Rattle.cap_summary.specs.{Kept.IsWithin, Kept.HaveManyRows, Kept.KeepsParts, Kept.NameOrRefuseMany};
ghost use Rattle.cap_summary.specs.{Kept.ListsProcesses, Kept.StandsFor, Listing.EffectLists, Listing.moved, ended};
ghost use Rattle.cap_summary.specs.{Kept.content_steps, Knows.Knows, Positions.AgreeAfter, Positions.positions};
ghost use Rattle.cap_summary.specs.{Positions.AreJudged, Positions.AreNoted, Positions.WereJudged, Positions.found_in};
ghost use Rattle.cap_summary.specs.{Positions.last_of, Preconditions.IsSettled, State, check, part_at, start_state};
ghost use Rattle.cap_summary.specs.{values};
ghost use Rattle.std.specs.Prelude.{IfNone, Some, [], false, is_some, option_copied, true, ℕ};

use crate::judging::{Asked, judge_in_order, judge_run, pass_in_order};
use crate::last_steps::LastSteps;
use crate::{Before, Effect, Known, Report};
use cap_machine::{Machine, Step};
use cap_trace::Pid;
use cap_tree::{Meter, NoMemory, Side, Similarity};
use std::alloc::Global;
use std::marker::Model;
use std::rc::Rc;

/// The most steps that a run holds.
const RUN_STEPS: usize = 48;

#[cycle(node)]
#[derive(Drop)]
pub(crate) struct Node {
    len: usize,
    pub(crate) known: Option<Known>,
    pub(crate) content: Content,
}

#[cycle(node)]
#[derive(Drop)]
pub(crate) enum Content {
    /// Steps, and the process of each.
    Run(Vec<Rc<Step>>, Vec<Pid>),
    Both(Rc<Node>, Rc<Node>),
}

impl Model for Node {
    ghost use Rattle.cap_summary.specs.{length, Composing.NodeView};

    ghost Value = { NodeView };

    ghost use Rattle.cap_summary.specs.{Kept.content_steps, Kept.IsGood};

    ghost view = { λ a. record { steps = content_steps a.content; known = a.known } };

    ghost invariant = { λ a. IsGood a.len a.known a.content };

    ghost size = { λ n. length n.steps };

    ghost use Rattle.cap_summary.specs.{Stands.deep_le_length};

    ghost size_decreases = { λ a h. deep_le_length a.content h.parts };
}

/// To go down to a position takes about as long as to look at so many asks.
const ASKS_A_POSITION: usize = 16;

/// The rows and cells that are kept of any segment, beside one for each of its steps.
const CELLS_OF_ANY: usize = 1_024;

/// The most rows and cells that are kept.
const MOST_CELLS: usize = 131_072;

/// The most processes of which a row is kept: to take rows over costs more than to copy cells.
const MOST_PROCESSES: usize = 8_192;

/// The most rows, cells, asks and refusals that are kept.
const MOST_KEPT: usize = 262_144;

/// Whether what is known of so many steps is within the limits.
fn is_within(known: &Known, steps: usize) -> bool
    requires { steps ≤ 2 ^ 30 }
    ensures within { result ≡ true → IsWithin known.now steps }
    ensures large { result ≡ false → IsLarge known.now steps }
{
    let cells = (CELLS_OF_ANY + steps).min(MOST_CELLS);
    let effect = &*known.effect;
    effect.size() <= cells && effect.processes() <= MOST_PROCESSES && known.fits(MOST_KEPT)
}

/// What is known of so many steps, where it is within the limits.
fn kept(known: Option<Known>, steps: usize) -> Option<Known>
    requires { steps ≤ 2 ^ 30 }
    ensures within { IfSome result (λ kept. (known ≡ Some kept) × IsWithin kept steps) }
    ensures large { IfNone result (IfSome known (λ known. IsLarge known steps)) }
{
    let known = known?;
    if is_within(&known, steps) {
        return Some(known);
    }
    None
}

/// Whether two segments have rows of so many processes that it isn't tried to keep what is known of both.
fn are_large(first: &Known, second: &Known) -> bool
    ensures { result ≡ true → HaveManyRows first.now second.now }
{
    let _cells = (first.effect.size(), second.effect.size());
    let rows = first.effect.processes();
    rows.saturating_add(second.effect.processes()) > MOST_PROCESSES
}

impl Content {
    /// How many steps it has.
    fn len(&self) -> usize
        requires { length (content_steps self.now) ≤ 2 ^ 30 }
        ensures { result ≡ length (content_steps self.now) }
    {
        match self {
            Content::Run(run, _) => run.len(),
            Content::Both(a, b) => a.len() + b.len(),
        }
    }
}

impl Node {
    pub(crate) fn len(&self) -> usize
        ensures count { result ≡ length self.now.steps }
        ensures few { result ≤ 2 ^ 30 }
    {
        self.len
    }

    /// What is known of the steps, where it is kept.
    pub(crate) fn known(&self) -> Option<&Known>
        ensures kept { IfSome result (λ known. IsKept known.now self.now.steps) }
        ensures many { IfNone result (NameOrRefuseMany self.now.steps) }
        ensures view { option_copied result ≡ self.now.known }
    {
        self.known.as_ref()
    }

    /// Whether what is known of the steps is kept.
    pub(crate) fn is_kept(&self) -> bool
        ensures { result ≡ is_some self.now.known }
    {
        self.known.is_some()
    }

    /// The node of contents with what is known of them, which is kept within the limit.
    fn of(alloc: Global, known: Option<Known>, content: Content) -> Result<Rc<Node>, NoMemory>
        requires parts { HasParts content }
        requires processes { ListsProcesses content }
        requires kept { KeepsParts known content }
        requires few { length (content_steps content) ≤ 2 ^ 30 }
        requires knows { IfSome known (λ known. Knows known (content_steps content)) }
        requires settled { IfSome known (λ known. IsSettled known.precondition.value) }
        requires many { IfNone known (NameOrRefuseMany (content_steps content)) }
        ensures stands { IfOk result (λ n. StandsFor n.value (content_steps content)) }
        ensures known { IfOk result (λ n. IfSome n.value.known (λ kept. known ≡ Some kept)) }
    {
        let len = content.len();
        let known = kept(known, len);
        let node = Node {
            len,
            known,
            content,
        };
        Ok(Rc::new(alloc, node)?)
    }

    /// The run of these steps, which it shares.
    pub(crate) fn of_run(alloc: Global, steps: &[Rc<Step>]) -> Result<Rc<Node>, NoMemory>
        requires { length steps.now ≤ 48 }
        ensures { IfOk result (λ n. StandsFor n.value (values steps.now)) }
    {
        let mut run: Vec<Rc<Step>> = Vec::with_capacity(alloc, steps.len())?;
        run.extend_from_slice(steps)?;
        let (known, pids) = Known::of_run(alloc, steps)?;
        Node::of(alloc, Some(known), Content::Run(run, pids))
    }

    /// These steps, with one join fewer than there are steps: as one run where it can hold them, and else half by half.
    pub(crate) fn of_steps(
        alloc: Global,
        meter: &mut Meter,
        steps: &[Rc<Step>],
    ) -> Result<Rc<Node>, NoMemory>
        requires some { 0 < length steps.now }
        requires few { length steps.now ≤ 2 ^ 30 }
        requires room { meter.old + length steps.now < 2 ^ 64 }
        ensures stands { IfOk result (λ n. StandsFor n.value (values steps.now)) }
        ensures counted { OnOk result (meter.new + 1 ≡ meter.old + length steps.now) }
        ensures not_less { meter.old ≤ meter.new }
        ensures at_most { meter.new < meter.old + length steps.now }
    {
        if steps.len() <= RUN_STEPS {
            let node = Node::of_run(alloc, steps)?;
            meter.add(steps.len() as u64 - 1);
            return Ok(node);
        }
        let (front, back) = steps.split_at(steps.len() / 2);
        let left = Node::of_steps(alloc, meter, front)?;
        let right = Node::of_steps(alloc, meter, back)?;
        let node = Node::join(alloc, &left, &right)?;
        meter.tick();
        Ok(node)
    }

    /// The node again, which is shared.
    fn shared(node: &Rc<Node>) -> Result<Rc<Node>, NoMemory>
        ensures same { IfOk result (λ n. n.value ≡ node.now.value) }
        ensures stands { IfOk result (λ n. StandsFor n.value node.now.value.steps) }
    {
        let _known = node.known();
        Ok(node.clone()?)
    }

    /// The steps of the one and then those of the other.
    #[tactic(auto, using(crate::proofs::Runs::none_before, crate::proofs::Runs::none_beyond))]
    pub(crate) fn join(
        alloc: Global,
        left: &Rc<Node>,
        right: &Rc<Node>,
    ) -> Result<Rc<Node>, NoMemory>
        requires { length left.now.value.steps + length right.now.value.steps ≤ 2 ^ 30 }
        ensures stands { IfOk result (λ n. StandsFor n.value (left.now.value.steps ++ right.now.value.steps)) }
        ensures composed { IfOk result (λ n. NodesCompose left.now.value right.now.value n.value) }
    {
        if left.len() == 0 {
            return Node::shared(right);
        }
        if right.len() == 0 {
            return Node::shared(left);
        }
        let Some((first, second)) = Node::known_of_both(left, right) else {
            return Node::of_parts(alloc, None, left, right);
        };
        let known = first.join(alloc, second)?;
        Node::of_parts(alloc, Some(known), left, right)
    }

    /// A node of two parts in place of an old one, in which `was` was the part on that side. What is
    /// known is shared with the old node where it is the same: the answer says how far. `similarity` says how far `was`
    /// and the new part are alike.
    pub(crate) fn rejoin(
        alloc: Global,
        left: &Rc<Node>,
        right: &Rc<Node>,
        old: &Node,
        was: &Node,
        side: Side,
        similarity: Similarity,
    ) -> Result<(Rc<Node>, Similarity), NoMemory>
        requires few { length left.now.value.steps + length right.now.value.steps ≤ 2 ^ 30 }
        requires old { NodesCompose (part_at side was.now left.now.value) (part_at side right.now.value was.now)
            old.now }
        requires like { IfKept (AreAlike similarity) was.now (part_at side left.now.value right.now.value) }
        ensures stands { IfOk result
            (λ new. StandsFor new.0.value (left.now.value.steps ++ right.now.value.steps)) }
        ensures composed { IfOk result (λ new. NodesCompose left.now.value right.now.value new.0.value) }
        ensures alike { IfOk result (λ new. IfKept (AreAlike new.1) old.now new.0.value) }
    {
        match (old.known(), was.known(), Node::known_of_both(left, right)) {
            (Some(whole), Some(part), Some((first, second)))
                if left.len() != 0 && right.len() != 0 && was.len() != 0 => {
                let (known, similarity) = Known::rejoin(
                    alloc, first, second, whole, part, side, similarity,
                )?;
                let node = Node::of_parts(alloc, Some(known), left, right)?;
                Ok((node, similarity))
            }
            _ => Ok((Node::join(alloc, left, right)?, Similarity::none())),
        }
    }

    /// What is known of two parts, where it is kept of both and may be kept of both together.
    #[tactic(auto, using(crate::proofs::Keeping::many))]
    fn known_of_both<'a>(left: &'a Node, right: &'a Node) -> Option<(&'a Known, &'a Known)>
        ensures first { IfSome result (λ both. IsKept both.0.now left.now.steps) }
        ensures second { IfSome result (λ both. IsKept both.1.now right.now.steps) }
        ensures view { IfSome result (λ both.
            (left.now.known ≡ Some both.0.now) × (right.now.known ≡ Some both.1.now)) }
        ensures many { IfNone result (NameOrRefuseMany (left.now.steps ++ right.now.steps)) }
    {
        match (left.known(), right.known()) {
            (Some(first), Some(second)) if !are_large(first, second) => Some((first, second)),
            _ => None,
        }
    }

    /// The node of two parts that have steps, with what is known of them.
    fn of_parts(
        alloc: Global,
        known: Option<Known>,
        left: &Rc<Node>,
        right: &Rc<Node>,
    ) -> Result<Rc<Node>, NoMemory>
        requires first { 0 < length left.now.value.steps }
        requires second { 0 < length right.now.value.steps }
        requires kept { IfSome known (λ known. AreKept left.now.value right.now.value) }
        requires few { length left.now.value.steps + length right.now.value.steps ≤ 2 ^ 30 }
        requires knows { IfSome known (λ known. Knows known (left.now.value.steps ++ right.now.value.steps)) }
        requires settled { IfSome known (λ known. IsSettled known.precondition.value) }
        requires many { IfNone known (NameOrRefuseMany (left.now.value.steps ++ right.now.value.steps)) }
        ensures stands { IfOk result (λ n. StandsFor n.value (left.now.value.steps ++ right.now.value.steps)) }
        ensures known { IfOk result (λ n. IfSome n.value.known (λ kept. known ≡ Some kept)) }
    {
        let content = Content::Both(left.clone()?, right.clone()?);
        Node::of(alloc, known, content)
    }
}

impl Node {
    /// Notes what is found in the steps, which begin in this state after so many others, at the positions that are
    /// asked for. It visits only parts that have such positions. Where these are few beside what all steps ask, it goes
    /// down to them without a look at all asks.
    pub(crate) fn resolve(
        &self,
        alloc: Global,
        before: &Before<'_>,
        at: usize,
        asked: &Asked,
        report: &mut Report,
    ) -> Result<(), NoMemory>
        requires kept { is_some self.now.known ≡ true }
        requires short { at + length self.now.steps ≤ 2 ^ 31 }
        requires room { report.old.judged + length self.now.steps < 2 ^ 64 }
        ensures found { OnOk result (report.new.found.items
            ≡ report.old.found.items ++ found_in asked.now at (state_before before.now) self.now.steps) }
        ensures few { OnOk result (report.new.judged
            ≤ report.old.judged + 48 * positions (check (state_before before.now) self.now.steps)) }
        ensures all { OnOk result (report.new.judged ≤ report.old.judged + length self.now.steps) }
        ensures each { OnOk result (WereJudged report.old report.new) }
    {
        if asked.to <= at || at + self.len < asked.from {
            return Ok(());
        }
        let known = self.known().unwrap();
        match &self.content {
            Content::Run(run, _) => {
                if !before.meets(&known.precondition) {
                    return Ok(());
                }
                judge_run(alloc, run, before, at, asked, report)
            }
            Content::Both(a, b) => {
                let left = &**a;
                let right = &**b;
                let asks = known.precondition.asks.len();
                if !asked.are_at_most(asks / ASKS_A_POSITION)
                    && !before.meets(&known.precondition)
                {
                    return Ok(());
                }
                left.resolve(alloc, before, at, asked, report)?;
                let first = left.known().unwrap();
                let effect = &*first.effect;
                let between = Before::After(&*before, effect);
                right.resolve(alloc, &between, at + left.len(), asked, report)
            }
        }
    }

    /// Notes of each process where it makes its last step, after so many others.
    pub(crate) fn note_last(&self, at: usize, last: &mut LastSteps) -> Result<(), NoMemory>
        requires { at + length self.now.steps ≤ 2 ^ 31 }
        ensures kept { OnOk result ((p : ℕ) → last_of last.old p ≤ last_of last.new p) }
        ensures noted { OnOk result (AreNoted last.new at self.now.steps) }
    {
        match &self.content {
            Content::Run(_, pids) => last.note_run(pids, at),
            Content::Both(a, b) => {
                let left = &**a;
                let right = &**b;
                left.note_last(at, last)?;
                right.note_last(at + left.len(), last)?;
                Ok(())
            }
        }
    }

    /// The effect of the steps, where it lists all that they change.
    fn listed(&self) -> Option<&Effect>
        ensures lists { IfSome result (λ effect. EffectLists effect.now) }
        ensures moves { IfSome result (λ effect. (s : State) → moved effect.now s ≡ ended s self.now.steps) }
    {
        let known = self.known()?;
        if known.effect.lists() {
            return Some(&known.effect);
        }
        None
    }

    /// Whether something may be found in the steps, which stand after so many others, at the positions that are asked
    /// for.
    fn may_find(&self, machine: &Machine, at: usize, asked: &Asked) -> bool
        requires { at + length self.now.steps ≤ 2 ^ 31 }
        ensures none { result ≡ false → found_in asked.now at (start_state machine.now) self.now.steps ≡ [] }
        ensures some { result ≡ true → is_some self.now.known ≡ true
            → 0 < positions (check (start_state machine.now) self.now.steps) }
    {
        if at + self.len < asked.from {
            return false;
        }
        match self.known() {
            Some(known) => Before::Now(machine).meets(&known.precondition),
            None => true,
        }
    }

    /// Notes what is found in the steps after so many others, at the positions that are asked for, and moves the
    /// machine on to what is known after them of the processes that make later ones; where no position after them is
    /// asked for, it may stop before. It judges only runs in which something is found. A part in which nothing is found
    /// is passed by its effect, where this lists all that it changes.
    pub(crate) fn pass(
        &self,
        alloc: Global,
        machine: &mut Machine,
        at: usize,
        last: &LastSteps,
        asked: &Asked,
        report: &mut Report,
    ) -> Result<(), NoMemory>
        requires short { at + length self.now.steps ≤ 2 ^ 31 }
        requires room { report.old.judged + length self.now.steps < 2 ^ 64 }
        requires noted { AreNoted last.now at self.now.steps }
        ensures judged { (s : State) → AgreeAfter last.now at s (start_state machine.old) → OnOk result (AreJudged last.now
            asked.now at self.now.steps s (start_state machine.new) report.old.found.items report.new.found.items) }
        ensures few { is_some self.now.known ≡ true → (s : State) → AgreeAfter last.now at s (start_state machine.old)
            → OnOk result (report.new.judged ≤ report.old.judged + 48 * positions (check s self.now.steps)) }
        ensures beyond { asked.now.to ≤ at → OnOk result (report.new.judged ≡ report.old.judged) }
        ensures all { OnOk result (report.new.judged ≤ report.old.judged + length self.now.steps) }
        ensures each { OnOk result (WereJudged report.old report.new) }
    {
        if asked.to <= at {
            return Ok(());
        }
        if let Some(effect) = self.listed() {
            if !self.may_find(&*machine, at, asked) {
                let end = at + self.len;
                if asked.to <= end {
                    return Ok(());
                }
                return effect.take(alloc, machine, end, last);
            }
        }
        match &self.content {
            Content::Run(run, _) => {
                if !self.may_find(&*machine, at, asked) {
                    return pass_in_order(run, machine, at, last);
                }
                report.judged += run.len();
                judge_in_order(run, machine, at, last, asked, &mut report.found)
            }
            Content::Both(a, b) => {
                let left = &**a;
                let right = &**b;
                left.pass(alloc, machine, at, last, asked, report)?;
                right.pass(alloc, machine, at + left.len(), last, asked, report)
            }
        }
    }
}
