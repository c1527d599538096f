//! The summary of a segment of a trace.

ghost use Rattle.std.specs.Prelude.{[], IfNone, IfOk, IfSome, OnOk, is_some, length, true, ◌*◌, ◌+◌, ◌<◌, ◌^◌, ◌≡◌, ◌≤◌};
ghost use Rattle.cap_summary.specs.{Composing.NodesCompose, Kept.NameOrRefuseMany, Preconditions.IsSamePrecondition};
ghost use Rattle.cap_summary.specs.{Composing.IfKept, Positions.positions, Positions.within, Stands.summed_up, check};
ghost use Rattle.cap_summary.specs.{Kept.IsKept, Stands.Stands, Stands.kept_of, option_copied, start_state};

use crate::explaining::judge_alone;
use crate::judging::Asked;
use crate::last_steps::LastSteps;
use crate::node::Node;
use crate::{Before, Known, Report};
use cap_machine::{Found, Machine, Start, Step};
use cap_tree::{Meter, NoMemory, Segment, Side, Similarity};
use std::alloc::Global;
use std::rc::Rc;

/// To look a run up by the effects before it takes about as long as to pass so many steps, for each of its own.
const STEPS_A_POSITION: usize = 300;

/// How many positions are judged alone where nothing is kept of the whole.
const MOST_ALONE: usize = 16;

/// What a segment of a trace does and asks, whatever the state before it, with its steps. A clone shares all of it.
#[derive(Drop)]
pub struct Summary {
    pub(crate) node: Rc<Node>,
}

impl Summary {
    /// What is known of the steps. It is kept only within a limit, which grows with the steps. It is kept wherever the
    /// steps name so few processes and descriptors that these have at most 1,024 cells and modes, unless more than 30,000
    /// calls were refused for lack of a right.
    pub fn known(&self) -> Option<&Known>
        ensures kept { IfSome result (λ known. IsKept known.now (summed_up self.now)) }
        ensures many { IfNone result (NameOrRefuseMany (summed_up self.now)) }
        ensures view { option_copied result ≡ kept_of self.now }
        ensures few { length (summed_up self.now) ≤ 2 ^ 30 }
    {
        let _len = self.node.len();
        self.node.known()
    }
}

/// What is found in the steps of a summary from a start, in order and with positions from 1.
///
/// `NoMemory` when out of memory; the summary is unchanged.
#[tactic(auto, using(crate::proofs::Resolving::found_whole))]
pub fn resolve(alloc: Global, summary: &Summary, start: &Start) -> Result<Vec<Found>, NoMemory>
    ensures { IfOk result (λ found. found.items ≡ check (start_state start.now) (summed_up summary.now)) }
{
    let found = resolve_range(alloc, summary, start, 1, summary.node.len())?;
    Ok(found)
}

/// The part of what [`resolve`] answers at positions from one to another, both included.
///
/// `NoMemory` when out of memory; the summary is unchanged.
pub fn resolve_range(
    alloc: Global,
    summary: &Summary,
    start: &Start,
    from: usize,
    to: usize,
) -> Result<Vec<Found>, NoMemory>
    ensures { IfOk result
        (λ found. found.items ≡ within from to (check (start_state start.now) (summed_up summary.now))) }
{
    let report = report_range(alloc, summary, start, from, to)?;
    Ok(report.found)
}

/// The findings at a range of positions, and how many steps were judged. Where what is known of all steps is kept, only
/// runs of at most 48 steps are judged that have a finding. A wide range is reported in one pass over all steps, with the
/// state at hand; in a narrow one each run is looked up by the effects before it. Where what is known isn't kept, of at
/// most 16 positions each is judged alone, as [`explain`] does.
///
/// [`explain`]: crate::explaining::explain
///
/// `NoMemory` when out of memory; the summary is unchanged.
pub fn report_range(
    alloc: Global,
    summary: &Summary,
    start: &Start,
    from: usize,
    to: usize,
) -> Result<Report, NoMemory>
    ensures found { IfOk result (λ report. report.found.items
        ≡ within from to (check (start_state start.now) (summed_up summary.now))) }
    ensures few { is_some (kept_of summary.now) ≡ true → IfOk result
        (λ report. report.judged ≤ 48 * positions (check (start_state start.now) (summed_up summary.now))) }
    ensures all { IfOk result (λ report. report.judged ≤ length (summed_up summary.now)) }
    ensures each { IfOk result (λ report. positions report.found.items ≤ report.judged) }
{
    let node: &Node = &summary.node;
    let narrow = node.len() / STEPS_A_POSITION;
    let asked = Asked { from, to };
    let mut report = Report {
        found: Vec::new(alloc),
        judged: 0,
    };
    match node.known() {
        Some(known) => {
            let before = Before::At(&*start);
            if asked.are_at_most(narrow) {
                node.resolve(alloc, &before, 0, &asked, &mut report)?;
                return Ok(report);
            }
            if !before.meets(&known.precondition) {
                return Ok(report);
            }
        }
        None if asked.are_at_most(MOST_ALONE) => {
            judge_alone(alloc, node, start, &asked, &mut report)?;
            return Ok(report);
        }
        None => {}
    }
    pass_all(alloc, node, start, &asked, &mut report)?;
    Ok(report)
}

/// Reports the steps of a node in one pass, up to the last position that is asked for.
fn pass_all(
    alloc: Global,
    node: &Node,
    start: &Start,
    asked: &Asked,
    report: &mut Report,
) -> Result<(), NoMemory>
    requires few { length node.now.steps ≤ 2 ^ 30 }
    requires nothing { report.old.found.items ≡ [] }
    requires none_judged { report.old.judged ≡ 0 }
    ensures found { OnOk result (report.new.found.items
        ≡ within asked.now.from asked.now.to (check (start_state start.now) node.now.steps)) }
    ensures few { is_some node.now.known ≡ true
        → OnOk result (report.new.judged ≤ 48 * positions (check (start_state start.now) node.now.steps)) }
    ensures all { OnOk result (report.new.judged ≤ length node.now.steps) }
    ensures each { OnOk result (positions report.new.found.items ≤ report.new.judged) }
{
    let mut last = LastSteps::nothing(alloc);
    node.note_last(0, &mut last)?;
    let Ok(mut machine) = Machine::from_start(alloc, start) else {
        return Err(NoMemory);
    };
    let passed = node.pass(alloc, &mut machine, 0, &last, asked, report);
    drop(machine);
    passed
}

impl Segment for Summary {
    type Item = Step;

    type Meter = Meter;

    ghost stands = { Stands };

    ghost size = { λ z. length (summed_up z) };

    ghost composes = { λ a b whole. NodesCompose a.node.value b.node.value whole.node.value };

    ghost same_effect = { λ old new. IfKept (λ a b. a.effect.value.rows ≡ b.effect.value.rows)
        old.node.value new.node.value };

    ghost same_precondition = { λ old new. IfKept (λ a b. IsSamePrecondition a.precondition.value b.precondition.value)
        old.node.value new.node.value };

    ghost use Rattle.std.proofs.Common.{ap};

    ghost sized = { λ z t is. ap (λ steps. length steps) is.steps };

    fn empty(alloc: Global) -> Result<Summary, NoMemory> {
        let node = Node::of_run(alloc, &[])?;
        Ok(Summary { node })
    }

    fn one(alloc: Global, step: &Rc<Step>) -> Result<Summary, NoMemory> {
        let run = [step.clone()?];
        let node = Node::of_run(alloc, &run)?;
        Ok(Summary { node })
    }

    fn sum(alloc: Global, meter: &mut Meter, steps: &[Rc<Step>]) -> Result<Summary, NoMemory> {
        let node = Node::of_steps(alloc, meter, steps)?;
        Ok(Summary { node })
    }

    fn len(&self) -> usize {
        self.node.len()
    }

    fn join(
        alloc: Global,
        meter: &mut Meter,
        left: &Summary,
        right: &Summary,
    ) -> Result<Summary, NoMemory> {
        let node = Node::join(alloc, &left.node, &right.node)?;
        meter.tick();
        Ok(Summary { node })
    }

    fn rejoin(
        alloc: Global,
        meter: &mut Meter,
        left: &Summary,
        right: &Summary,
        old: &Summary,
        was: &Summary,
        side: Side,
        similarity: Similarity,
    ) -> Result<(Summary, Similarity), NoMemory> {
        let (node, similarity) = Node::rejoin(
            alloc,
            &left.node,
            &right.node,
            &old.node,
            &was.node,
            side,
            similarity,
        )?;
        meter.tick();
        Ok((Summary { node }, similarity))
    }
}
