//! A tree of some hundred steps, and summaries in which a part is replaced.

use crate::reported::COPIES;
use crate::traces::{step_of, steps_of, tree_of};
use cap_machine::{Profile, Start, Step};
use cap_summary::{Summary, resolve};
use cap_tree::{Meter, NoMemory, Segment, Side, Similarity, Tree};
use std::alloc::Global;
use std::rc::Rc;
use std::test::Fail;

/// The place of a line, what is put there instead, and how many findings the trace has then.
static EDITS: [(usize, &str, usize); 3] = [
    (600, "100 write(4) RET 1", 300),
    (300, "100 read(4) RET 1", 299),
    (0, "100 cap_rights_limit(3,CAP_WRITE) RET 0", 1),
];

/// The tree with another step at a place.
fn edited(
    alloc: Global,
    tree: &Tree<Summary>,
    at: usize,
    text: &str,
) -> Result<Tree<Summary>, Fail> {
    if at >= tree.len() {
        return Err(Fail::new(text));
    }
    let step = step_of(alloc, Profile::Two, text)?;
    Ok(tree.replace(alloc, &mut Meter::new(), at, step)?)
}

/// Whether a tree of 601 steps has so many findings, and keeps what is known of them. Summaries that are joined share
/// the runs of steps: so a step is shared by a leaf of the tree and the summary of that.
fn has(alloc: Global, tree: &Tree<Summary>, count: usize) -> Result<bool, NoMemory> {
    let whole = tree.summary();
    if whole.known().is_none() || tree.len() != 601 {
        return Ok(false);
    }
    let (leaf, at) = tree.leaf_at(200);
    let is_shared = leaf.get(at).map_or(0, Rc::strong_count) == 2;
    let found = resolve(alloc, whole, &Start::unknown(alloc))?;
    Ok(is_shared && found.len() == count)
}

#[test]
fn a_long_trace_is_edited(rt: HostRuntime) -> Result<(), Fail> {
    let steps = steps_of(rt.alloc(), Profile::Two, COPIES)?;
    let mut tree = tree_of(rt.alloc(), steps)?;
    for (at, text, count) in &EDITS {
        tree = edited(rt.alloc(), &tree, *at, text)?;
        assert!(rt; has(rt.alloc(), &tree, *count)?);
    }
    Ok(())
}

/// A line, and one in place of the first of two such lines; whether these still do and ask the same.
static REPLACED: [(&str, &str, bool, bool); 3] = [
    ("100 read(3) RET 1", "100 read(3) RET 2", true, true),
    ("100 read(3) RET 1", "100 write(3) RET 1", true, false),
    ("100 dup(3) RET 4", "100 dup(3) RET 5", false, false),
];

/// What of two such steps stays the same where another one stands in place of the first.
fn rejoined(alloc: Global, old: &Rc<Step>, new: &Rc<Step>) -> Result<Similarity, NoMemory> {
    let was = Summary::one(alloc, old)?;
    let part = Summary::one(alloc, new)?;
    if was.len() != 1 || part.len() != 1 {
        return Err(NoMemory);
    }
    let meter = &mut Meter::new();
    let whole = Summary::join(alloc, meter, &was, &was)?;
    let side = Side::Left;
    let none = Similarity::none();
    let (_, same) = Summary::rejoin(alloc, meter, &part, &was, &whole, &was, side, none)?;
    Ok(same)
}

/// Whether so much stays the same.
fn is_same(alloc: Global, row: &(&str, &str, bool, bool)) -> Result<bool, Fail> {
    let old = step_of(alloc, Profile::One, row.0)?;
    let new = step_of(alloc, Profile::One, row.1)?;
    let same = rejoined(alloc, &old, &new)?;
    Ok(same.effect == row.2 && same.precondition == row.3)
}

#[test]
fn what_is_the_same_is_told(rt: HostRuntime) -> Result<(), Fail> {
    for row in &REPLACED {
        assert!(rt; is_same(rt.alloc(), row)?);
    }
    Ok(())
}
