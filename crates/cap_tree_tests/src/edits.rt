//! Long runs of edits of a watched tree. Leaves split and merge, and nodes are rotated in each of the four ways.
ghost use Rattle.std.specs.Prelude.{◌+◌, ◌^◌, ◌<◌};

use crate::watched::Watched;
use cap_tree::{Meter, NoMemory, Segment, Tree};
use std::alloc::Global;

/// How many items a tree begins with: four full leaves.
const FIRST: usize = 192;
/// How many edits take such a tree to none.
const TURNS: u32 = 440;
/// At an end, near one, and after the middle of a first leaf: the leaf that splits again is the outer or the inner one.
static PLACES: [usize; 3] = [0, 12, 36];

/// The first tree.
fn first_tree(alloc: Global) -> Result<Tree<Watched>, NoMemory> {
    let watch = Watched::empty(alloc)?.watch;
    let mut items = Vec::new(alloc);
    for _ in 0..FIRST {
        items.push(watch.clone()?)?;
    }
    if items.len() > FIRST {
        return Err(NoMemory);
    }
    Tree::from_list(alloc, &mut Meter::new(), items)
}

/// The tree after the edit of a turn: 60 inserts at the place from the left, 60 from the right, 8 replaces among the
/// first 192 items, and then removes. A tree without items has none to replace or remove.
fn edited(
    alloc: Global,
    meter: &mut Meter,
    tree: &Tree<Watched>,
    place: usize,
    turn: u32,
) -> Result<Tree<Watched>, NoMemory>
    requires { meter.old + 2 ^ 32 < 2 ^ 64 }
{
    let len = tree.len();
    if len > 1000 {
        return Err(NoMemory);
    }
    let item = tree.summary().watch.clone()?;
    match turn {
        0..60 => tree.insert(alloc, meter, place.min(len), item),
        60..120 => tree.insert(alloc, meter, len.saturating_sub(place), item),
        _ if len == 0 => Err(NoMemory),
        120..128 => tree.replace(alloc, meter, (turn as usize - 120) * 24 % len, item),
        _ => tree.remove(alloc, meter, len / 3 * 2 % len),
    }
}

/// Whether a tree has so many items, with the watch of its summary, and is one leaf if they fit into one.
fn has(tree: &Tree<Watched>, count: usize) -> bool {
    if tree.is_empty() || tree.len() != count {
        return count == 0 && tree.is_empty();
    }
    let summary = tree.summary();
    summary.count == count
        && tree.get(count - 1).allowed.get() == summary.watch.allowed.get()
        && tree.iter().next().is_some()
        && tree.range(count - 1..count).next().is_some()
        && (count > 48 || tree.leaf_at(count / 2).0.len() == count)
}

/// Makes the edit of a turn with no summary allowed, with one, and so on until it succeeds. Whether the meter counts
/// each time the joins that were made, and a refused edit leaves the tree whole.
fn edit(alloc: Global, tree: &mut Tree<Watched>, place: usize, turn: u32) -> bool {
    let count = tree.len();
    for allowed in 0..1000 {
        let mut meter = Meter::new();
        tree.summary().watch.joins.set(0);
        tree.summary().watch.allowed.set(allowed);
        let new = edited(alloc, &mut meter, tree, place, turn);
        if meter.joins() != tree.summary().watch.joins.get() || !has(tree, count) {
            return false;
        }
        if let Ok(new) = new {
            *tree = new;
            return true;
        }
    }
    false
}

/// Makes all edits near a place of a clone of the first tree, and inserts an item when none is left. Whether all are
/// right, and the first tree is as it was.
fn edits_are_right(alloc: Global, first: &Tree<Watched>, place: usize) -> bool {
    let Ok(mut tree) = first.clone() else {
        return false;
    };
    for turn in 0..TURNS {
        if !edit(alloc, &mut tree, place, turn) {
            return false;
        }
    }
    tree.is_empty() && edit(alloc, &mut tree, 0, 0) && has(first, FIRST)
}

/// All joins are counted on the meter that the call was handed. The contract of `from_list` says how many it counts.
#[test]
fn long_runs_of_edits(rt: HostRuntime) -> Result<(), NoMemory> {
    let first = first_tree(rt.alloc())?;
    assert!(rt; first.summary().watch.joins.get() == 191);
    for place in &PLACES {
        assert!(rt; edits_are_right(rt.alloc(), &first, *place));
    }
    Ok(())
}

/// The four leaves of the first tree are below two nodes and the root. Where an item is replaced, the root alone is
/// told what `rejoin` said of its part: once for each edit.
#[test]
fn similarity_is_handed_on(rt: HostRuntime) -> Result<(), NoMemory> {
    let first = first_tree(rt.alloc())?;
    for turn in 120..128 {
        drop(edited(rt.alloc(), &mut Meter::new(), &first, 0, turn)?);
    }
    assert!(rt; first.summary().watch.told.get() == 8);
    Ok(())
}
