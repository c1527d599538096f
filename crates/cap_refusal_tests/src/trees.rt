//! Trees: edits by which leaves split and merge, and nodes are rotated once and twice.

use crate::marks::{Mark, lacked, right};
use cap_tree::{Meter, NoMemory, Tree};
use cap_tree_tests::Listed;
use std::alloc::Global;
use std::rc::Rc;
use std::test::Fail;

/// How many items a tree begins with: four full leaves.
const FIRST: u32 = 192;

/// An edit of a tree by the number 1000.
#[derive(Drop)]
enum Edit {
    Insert(usize),
    Replace(usize),
    Remove(usize),
}

/// Inserts near both ends, replaces, and then removes after the middle: leaves split, merge and vanish, and there are
/// single and double rotations from both sides.
fn edit_at(turn: u32, len: usize) -> Edit {
    if turn < 60 {
        Edit::Insert(36)
    } else if turn < 120 {
        Edit::Insert(len.saturating_sub(36))
    } else if turn < 125 {
        Edit::Replace(len / 3 + turn as usize % 7)
    } else {
        Edit::Remove(len / 3 * 2)
    }
}

/// The tree after an edit. A place out of range answers `NoMemory`.
fn edited(alloc: Global, tree: &Tree<Listed>, edit: &Edit) -> Result<Tree<Listed>, NoMemory> {
    if tree.len() >= 1_000_000 {
        return Err(NoMemory);
    }
    let mut meter = Meter::new();
    let item = Rc::new(alloc, 1000u32)?;
    match edit {
        Edit::Insert(at) if *at <= tree.len() => tree.insert(alloc, &mut meter, *at, item),
        Edit::Replace(at) if *at < tree.len() => tree.replace(alloc, &mut meter, *at, item),
        Edit::Remove(at) if *at < tree.len() => tree.remove(alloc, &mut meter, *at),
        _ => Err(NoMemory),
    }
}

/// Makes the edit in a list.
fn edit_list(list: &mut Vec<u32>, edit: &Edit) -> Result<(), NoMemory> {
    match edit {
        Edit::Insert(at) if *at <= list.len() => list.insert(*at, 1000)?,
        Edit::Replace(at) if *at < list.len() => list[*at] = 1000,
        Edit::Remove(at) if *at < list.len() => {
            list.remove(*at);
        }
        _ => {}
    }
    Ok(())
}

/// The numbers below a limit, as items.
fn items_to(alloc: Global, limit: u32) -> Result<Vec<Rc<u32>>, NoMemory> {
    let mut items = Vec::new(alloc);
    for number in 0..limit {
        let item = Rc::new(alloc, number)?;
        items.push(item)?;
    }
    Ok(items)
}

/// The tree of the numbers below a limit.
fn tree_to(alloc: Global, limit: u32) -> Result<Tree<Listed>, NoMemory> {
    let items = items_to(alloc, limit)?;
    if items.len() >= 1_000_000 {
        return Err(NoMemory);
    }
    Tree::from_list(alloc, &mut Meter::new(), items)
}

/// The tree of the numbers below a limit, at most 1000; where the first call lacks memory, by a second one.
fn tree_of(alloc: Global, limit: u32) -> Result<Tree<Listed>, NoMemory> {
    let items = items_to(alloc, limit)?;
    if items.len() >= 1000 {
        return Err(NoMemory);
    }
    Mark::Begin.set(alloc);
    let first = Tree::from_list(alloc, &mut Meter::new(), items);
    if lacked(alloc, first.is_err()) {
        return tree_to(alloc, limit);
    }
    first
}

/// Whether a tree has the numbers below a limit.
fn has_numbers(tree: &Tree<Listed>, limit: u32) -> bool {
    let is_long = tree.len() == limit as usize && tree.summary().list.len() == limit as usize;
    is_long
        && (0..limit)
            .zip(tree.iter())
            .all(|(number, item)| number == *item)
}

/// How many items trees are made of.
static LIMITS: [u32; 5] = [0, 1, 48, 49, FIRST];

#[test]
fn from_list_refused(rt: HostRuntime) -> Result<(), Fail> {
    for limit in &LIMITS {
        let tree = tree_of(rt.alloc(), *limit)?;
        let is_right = has_numbers(&tree, *limit);
        drop(tree);
        right(rt.alloc(), is_right, "a tree has its items")?;
    }
    Ok(())
}

/// A tree, and the list that it must have.
#[derive(Drop)]
struct Listing {
    tree: Tree<Listed>,
    list: Vec<u32>,
}

/// The tree that is edited first.
fn first_tree(alloc: Global) -> Result<Listing, NoMemory> {
    let tree = tree_to(alloc, FIRST)?;
    let list = tree.summary().list.clone()?;
    Ok(Listing { tree, list })
}

/// Whether a tree has this list.
fn has(tree: &Tree<Listed>, list: &[u32]) -> bool {
    *tree.summary().list == *list
}

/// The tree after an edit; where the first call lacks memory, by a second one, if the tree still has its list.
fn edited_or_again(
    alloc: Global,
    tree: &Tree<Listed>,
    edit: &Edit,
    list: &[u32],
) -> Result<Tree<Listed>, NoMemory> {
    Mark::Begin.set(alloc);
    let first = edited(alloc, tree, edit);
    if lacked(alloc, first.is_err()) && has(tree, list) {
        return edited(alloc, tree, edit);
    }
    first
}

/// Edits a tree. Whether the new one has the list after the edit, and the old one was left as it was.
fn step(alloc: Global, listing: &mut Listing, turn: u32) -> Result<bool, NoMemory> {
    let edit = edit_at(turn, listing.tree.len());
    let new = edited_or_again(alloc, &listing.tree, &edit, &listing.list)?;
    let is_left = has(&listing.tree, &listing.list);
    listing.tree = new;
    edit_list(&mut listing.list, &edit)?;
    Ok(is_left && has(&listing.tree, &listing.list))
}

/// Edits a tree until it is empty.
fn edit_all(alloc: Global, listing: &mut Listing) -> Result<(), Fail> {
    for turn in 0..437 {
        right(alloc, step(alloc, listing, turn)?, "a tree is edited")?;
    }
    right(
        alloc,
        listing.tree.is_empty(),
        "the last edit leaves no item",
    )
}

#[test]
fn tree_edits_refused(rt: HostRuntime) -> Result<(), Fail> {
    let mut listing = first_tree(rt.alloc())?;
    let result = edit_all(rt.alloc(), &mut listing);
    drop(listing);
    result
}
