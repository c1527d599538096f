//! Summaries: made of one step, joined, and read from a start.

use crate::calls::{Call, is_answered, tried};
use crate::machine::{CELLS, TRACE, are_at, start_of};
use crate::marks::{Mark, lacked, right};
use cap_machine::{Profile, Start, Step};
use cap_summary::{Summary, resolve, resolve_range};
use cap_trace::parse_line;
use cap_tree::{Meter, NoMemory, Segment, Tree};
use std::alloc::Global;
use std::rc::Rc;
use std::test::Fail;

/// A line as a step in profile 2.
fn step_of(alloc: Global, text: &str) -> Result<Rc<Step>, Fail> {
    let line = parse_line(alloc, text.as_bytes())?;
    let profile = Profile::Two;
    Ok(Rc::new(alloc, Step { profile, line })?)
}

/// The steps of the trace.
fn steps_of(alloc: Global) -> Result<Vec<Rc<Step>>, Fail> {
    let mut steps = Vec::new(alloc);
    for text in &TRACE {
        steps.push(step_of(alloc, text)?)?;
    }
    Ok(steps)
}

/// Does this with a start and the steps of the trace.
fn with_steps<F: FnOnce(Global, &Start, &[Rc<Step>]) -> Result<(), Fail>>(
    alloc: Global,
    act: F,
) -> Result<(), Fail>
    requires { F.IsAlwaysCallable act }
{
    let steps = steps_of(alloc)?;
    let result = match start_of(alloc, CELLS) {
        Ok(start) => {
            let result = act(alloc, &start, &steps);
            drop(start);
            result
        }
        Err(fail) => Err(fail),
    };
    drop(steps);
    result
}

/// The summary of these steps, by joins from the left.
fn summary_of(alloc: Global, steps: &[Rc<Step>]) -> Result<Summary, NoMemory> {
    let mut summary = Summary::empty(alloc)?;
    for step in steps {
        summary = with_step(alloc, &summary, step)?;
    }
    Ok(summary)
}

/// The summary with a step after it.
fn with_step(alloc: Global, summary: &Summary, step: &Rc<Step>) -> Result<Summary, NoMemory> {
    let one = Summary::one(alloc, step)?;
    joined(alloc, summary, &one)
}

/// Both, one after the other.
fn joined(alloc: Global, left: &Summary, right: &Summary) -> Result<Summary, NoMemory> {
    if left.len() > 1000 || right.len() > 1000 {
        return Err(NoMemory);
    }
    Summary::join(alloc, &mut Meter::new(), left, right)
}

/// Makes a summary of a step, or of nothing: whether it has so many.
pub fn sums(alloc: Global, step: Option<&Rc<Step>>) -> Result<bool, cap_machine::NoMemory> {
    let made = match step {
        Some(step) => Summary::one(alloc, step),
        None => Summary::empty(alloc),
    };
    match made {
        Ok(summary) => {
            let is_right = summary.len() == usize::from(step.is_some());
            drop(summary);
            Ok(is_right)
        }
        Err(_) => Err(cap_machine::NoMemory),
    }
}

#[test]
fn empty_refused(rt: HostRuntime) -> Result<(), Fail> {
    tried(rt.alloc(), &Call::Sum(None), "a summary is made")
}

/// Makes a summary of each step.
fn sum_each(alloc: Global, steps: &[Rc<Step>]) -> Result<(), Fail> {
    for step in steps {
        tried(alloc, &Call::Sum(Some(step)), "a summary is made")?;
    }
    Ok(())
}

#[test]
fn one_refused(rt: HostRuntime) -> Result<(), Fail> {
    let steps = steps_of(rt.alloc())?;
    let result = sum_each(rt.alloc(), &steps);
    drop(steps);
    result
}

/// Whether what is to be found in the trace is found in a summary, and there is memory for it.
fn is_whole(alloc: Global, start: &Start, summary: &Summary) -> bool {
    match &resolve(alloc, summary, start) {
        Ok(found) => are_at(found, &[5, 8]),
        Err(_) => false,
    }
}

/// Whether a summary was made, and all that is to be found in the trace is found in it.
fn is_made_whole(alloc: Global, start: &Start, made: Result<Summary, NoMemory>) -> bool {
    match made {
        Ok(summary) => {
            let is_whole = is_whole(alloc, start, &summary);
            drop(summary);
            is_whole
        }
        Err(_) => false,
    }
}

/// Whether two summaries are joined to that of the trace, in a second call where the first lacks memory.
fn joins(alloc: Global, start: &Start, left: &Summary, right: &Summary) -> bool {
    Mark::Begin.set(alloc);
    let first = joined(alloc, left, right);
    let both = if lacked(alloc, first.is_err()) {
        joined(alloc, left, right)
    } else {
        first
    };
    is_made_whole(alloc, start, both)
}

/// Whether the steps before a place and those from there on are joined so, and the summary on the left isn't changed.
fn joins_at(
    alloc: Global,
    start: &Start,
    steps: &[Rc<Step>],
    place: usize,
) -> Result<bool, NoMemory> {
    let (front, back) = steps.split_at(place.min(steps.len()));
    let left = summary_of(alloc, front)?;
    let right = summary_of(alloc, back)?;
    let is_right = joins(alloc, start, &left, &right) && left.len() == place;
    drop(right);
    drop(left);
    Ok(is_right)
}

/// Cuts the trace at each place.
fn join_at_each(alloc: Global, start: &Start, steps: &[Rc<Step>]) -> Result<(), Fail> {
    for place in 0..TRACE.len() + 1 {
        let is_right = joins_at(alloc, start, steps, place)?;
        right(alloc, is_right, "two parts are joined")?;
    }
    Ok(())
}

#[test]
fn join_refused(rt: HostRuntime) -> Result<(), Fail> {
    with_steps(rt.alloc(), join_at_each)
}

/// The summary of some steps at once.
fn summed_up(alloc: Global, steps: &[Rc<Step>]) -> Result<Summary, NoMemory> {
    if steps.is_empty() || steps.len() > 1000 {
        return Err(NoMemory);
    }
    Summary::sum(alloc, &mut Meter::new(), steps)
}

/// Sums up the trace at once, in a second call where the first lacks memory.
fn sum_all(alloc: Global, start: &Start, steps: &[Rc<Step>]) -> Result<(), Fail> {
    Mark::Begin.set(alloc);
    let first = summed_up(alloc, steps);
    let whole = if lacked(alloc, first.is_err()) {
        summed_up(alloc, steps)
    } else {
        first
    };
    let is_right = is_made_whole(alloc, start, whole);
    right(alloc, is_right, "the trace is summed up")
}

#[test]
fn sum_refused(rt: HostRuntime) -> Result<(), Fail> {
    with_steps(rt.alloc(), sum_all)
}

/// Ranges of the trace, and the positions of what is found there.
static RANGES: [((usize, usize), &[usize]); 2] = [((1, 8), &[5, 8]), ((6, 8), &[8])];

/// Asks for the findings of a range: whether they are at these positions.
pub fn resolves(
    alloc: Global,
    start: &Start,
    summary: &Summary,
    range: (usize, usize),
    places: &[usize],
) -> Result<bool, cap_machine::NoMemory> {
    let (from, to) = range;
    match resolve_range(alloc, summary, start, from, to) {
        Ok(found) => {
            let is_right = are_at(&found, places);
            drop(found);
            Ok(is_right)
        }
        Err(_) => Err(cap_machine::NoMemory),
    }
}

/// Finds what is found in each range, and then all of it.
fn resolve_ranges(alloc: Global, start: &Start, summary: &Summary) -> Result<(), Fail> {
    for (range, places) in &RANGES {
        let call = Call::Range(start, summary, *range, places);
        let is_right = is_answered(alloc, &call) && is_whole(alloc, start, summary);
        right(alloc, is_right, "what is found in a range")?;
    }
    Ok(())
}

/// The tree of the steps of the trace.
fn tree_of(alloc: Global) -> Result<Tree<Summary>, Fail> {
    let steps = steps_of(alloc)?;
    if steps.len() > 1000 {
        return Err("too many steps")?;
    }
    Ok(Tree::from_list(alloc, &mut Meter::new(), steps)?)
}

/// Resolves the ranges of a tree from the start that the trace has.
fn resolve_all(alloc: Global, tree: &Tree<Summary>) -> Result<(), Fail> {
    let start = start_of(alloc, CELLS)?;
    let result = resolve_ranges(alloc, &start, tree.summary());
    drop(start);
    result
}

#[test]
fn resolve_refused(rt: HostRuntime) -> Result<(), Fail> {
    let tree = tree_of(rt.alloc())?;
    let result = resolve_all(rt.alloc(), &tree);
    drop(tree);
    result
}
