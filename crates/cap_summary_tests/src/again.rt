//! Reports that are made again after edits at both ends of a trace.

ghost use Rattle.std.specs.Prelude.{IfOk, ◌++◌, ◌≡◌};
ghost use Rattle.cap_summary.specs.{Stands.summed_up};

use crate::reported::COPIES;
use crate::traces::{Parts, steps_of, tree_of};
use cap_machine::{Profile, Start};
use cap_summary::{Earlier, KeptRun, Summary, resolve, resolve_again};
use cap_tree::{Meter, NoMemory, Segment, Tree};
use std::alloc::Global;
use std::test::Fail;

/// What stands before the copies and after them: at first, and then; and whether the report is made again.
type Row = (
    Parts<'static>,
    Parts<'static>,
    Parts<'static>,
    Parts<'static>,
    bool,
);

/// The descriptor that is copied is closed; another one is; a process has a child.
const CLOSED: Parts<'static> = &[("100 close(3) RET 0", 1)];

const OTHER: Parts<'static> = &[("100 close(9) RET 0", 1), ("100 write(9) RET 1", 1)];

const CHILD: Parts<'static> = &[("100 fork() RET 101", 1)];

static EDITED: [Row; 7] = [
    (&[], &[], &[], &[], true),
    (&[], &[], OTHER, &[], true),
    (OTHER, &[], &[], OTHER, true),
    (CLOSED, &[], &[], &[], true),
    (&[], CLOSED, CLOSED, &[], true),
    (OTHER, OTHER, CLOSED, OTHER, true),
    (&[], &[], CHILD, &[], false),
];

/// The tree of a trace.
fn tree(alloc: Global, parts: Parts<'_>) -> Result<Tree<Summary>, Fail> {
    let steps = steps_of(alloc, Profile::Two, parts)?;
    Ok(tree_of(alloc, steps)?)
}

/// The summary of three trees, one after the other.
fn joined(
    alloc: Global,
    front: &Tree<Summary>,
    middle: &Tree<Summary>,
    back: &Tree<Summary>,
) -> Result<Summary, NoMemory>
    ensures { IfOk result (λ sum. summed_up sum ≡ (front.now ++ middle.now) ++ back.now) }
{
    let (left, right) = (front.summary(), middle.summary());
    if left.len() > 1000 || right.len() > 1000 || back.summary().len() > 1000 {
        return Err(NoMemory);
    }
    let both = Summary::join(alloc, &mut Meter::new(), left, right)?;
    if both.len() > 2000 {
        return Err(NoMemory);
    }
    Summary::join(alloc, &mut Meter::new(), &both, back.summary())
}

/// What is found after edits before and after the middle, by what was found before them; and whether it is right.
fn found_again(
    alloc: Global,
    middle: &Tree<Summary>,
    was: (&Tree<Summary>, &Tree<Summary>),
    now: (&Tree<Summary>, &Tree<Summary>),
) -> Result<Option<bool>, NoMemory> {
    let old = joined(alloc, was.0, middle, was.1)?;
    let new = joined(alloc, now.0, middle, now.1)?;
    if middle.len() == 0 {
        return Err(NoMemory);
    }
    let start = Start::unknown(alloc);
    let found = resolve(alloc, &old, &start)?;
    let kept = [KeptRun {
        was: was.0.len(),
        at: now.0.len(),
        len: middle.len(),
    }];
    let earlier = Earlier {
        summary: &old,
        found: &found,
        kept: &kept,
    };
    let Some(again) = resolve_again(alloc, &new, &start, &earlier)? else {
        return Ok(None);
    };
    let right = resolve(alloc, &new, &start)?;
    Ok(Some(again == right))
}

/// Whether the report of the new trace is made again as said, and is the right one then.
fn is_made_again(alloc: Global, row: &Row) -> Result<bool, Fail> {
    let middle = tree(alloc, COPIES)?;
    let was = (tree(alloc, row.0)?, tree(alloc, row.1)?);
    let now = (tree(alloc, row.2)?, tree(alloc, row.3)?);
    let again = found_again(alloc, &middle, (&was.0, &was.1), (&now.0, &now.1))?;
    Ok(again == if row.4 { Some(true) } else { None })
}

#[test]
fn a_report_is_made_again(rt: HostRuntime) -> Result<(), Fail> {
    for row in &EDITED {
        assert!(rt; is_made_again(rt.alloc(), row)?);
    }
    Ok(())
}
