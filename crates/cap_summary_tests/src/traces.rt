//! Traces as steps, trees and summaries.

use cap_machine::{Profile, Step};
use cap_summary::Summary;
use cap_trace::parse_line;
use cap_tree::{Meter, NoMemory, Segment, Tree};
use std::alloc::Global;
use std::rc::Rc;
use std::test::Fail;

/// A trace in parts, each of them so many times.
pub type Parts<'a> = &'a [(&'a str, usize)];

/// A line as a step.
pub fn step_of(alloc: Global, profile: Profile, text: &str) -> Result<Rc<Step>, Fail> {
    let line = parse_line(alloc, text.as_bytes())?;
    Ok(Rc::new(alloc, Step { profile, line })?)
}

/// The steps of a trace.
pub fn steps_of(alloc: Global, profile: Profile, parts: Parts<'_>) -> Result<Vec<Rc<Step>>, Fail> {
    let mut steps = Vec::new(alloc);
    for (trace, times) in parts {
        for _ in 0..*times {
            for text in trace.lines() {
                steps.push(step_of(alloc, profile, text)?)?;
            }
        }
    }
    Ok(steps)
}

/// The tree of these steps, at most 1000.
pub fn tree_of(alloc: Global, steps: Vec<Rc<Step>>) -> Result<Tree<Summary>, NoMemory> {
    if steps.len() > 1000 {
        return Err(NoMemory);
    }
    Tree::from_list(alloc, &mut Meter::new(), steps)
}

/// The summary of these steps: of the first alone, joined to that of the others at once.
fn summary_of(alloc: Global, steps: &[Rc<Step>]) -> Result<Summary, NoMemory> {
    let Some((first, others)) = steps.split_first() else {
        return Summary::empty(alloc);
    };
    let one = Summary::one(alloc, first)?;
    if others.is_empty() || others.len() > 1000 {
        return Ok(one);
    }
    let meter = &mut Meter::new();
    let sum = Summary::sum(alloc, meter, others)?;
    if one.len() > 1000 || sum.len() > 1000 {
        return Ok(one);
    }
    Summary::join(alloc, meter, &one, &sum)
}

/// The summary of a trace.
pub fn sum_of(alloc: Global, profile: Profile, parts: Parts<'_>) -> Result<Summary, Fail> {
    let steps = steps_of(alloc, profile, parts)?;
    Ok(summary_of(alloc, &steps)?)
}
