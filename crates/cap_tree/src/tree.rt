//! A list of items with a summary of it: what this crate's callers use.
ghost use Rattle.std.specs.Prelude.{◌≡◌, ℕ, ◌+◌, ◌-◌, ◌^◌, ◌<◌, ◌≤◌, ◌==◌, [], length, map, insert, remove};
ghost use Rattle.std.specs.Prelude.{slice_get, slice_range, slice_set, vec_len, Some, IfOk, OnOk};
ghost use Rattle.cap_tree.specs.Bits.{bound};
ghost use Rattle.cap_tree.specs.Edits.{edited, IsAllowed};
ghost use Rattle.cap_tree.specs.Run.{values};

use crate::no_memory::NoMemory;
use crate::node::Node;
use crate::run::{self, Edit};
use crate::segment::Segment;
use std::alloc::{AllocError, Global};
use std::marker::Model;
use std::rc::Rc;

/// A list of items with a summary of it. A contract sees the list.
///
/// Places count from 0. An edit gives a new tree, which shares with the old one all parts that are the same; the old
/// one stays as it was, even if the edit answers `NoMemory`, which it does only if an allocation was refused. A tree
/// has at most `2 ^ 30` items. Each call that takes a meter needs room for `2 ^ 32` joins on it, and counts its joins
/// there: the bound on them holds after `NoMemory` too.
#[derive(Drop)]
pub struct Tree<S: Segment> {
    root: Root<S>,
}

#[derive(Drop)]
enum Root<S: Segment> {
    Empty(Rc<S>),
    Full(Rc<Node<S>>),
}

impl<S: Segment> Model for Tree<S> {
    ghost use Rattle.std.specs.Prelude.{List};

    ghost Value = { List S.Item };

    ghost use Rattle.cap_tree.specs.Root.{root_items, IsSummedUp};

    ghost view = { λ t. root_items t.root };

    ghost invariant = { λ t. IsSummedUp S.stands t.root };
}

/// A clone is the same list. It shares all nodes with the tree, takes constant time and allocates nothing. It fails
/// only if there are so many clones that they can't be counted.
impl<S: Segment> Clone for Tree<S> {
    ghost is_clone = { λ tree copy. copy ≡ tree };

    fn clone(&self) -> Result<Tree<S>, AllocError> {
        let root = match &self.root {
            Root::Empty(summary) => Root::Empty(summary.clone()?),
            Root::Full(node) => Root::Full(node.clone()?),
        };
        Ok(Tree { root })
    }
}

impl<S: Segment> Tree<S> {
    /// The tree of these items. It counts exactly one join fewer than there are items, and none for no items.
    pub fn from_list(
        alloc: Global,
        meter: &mut S::Meter,
        items: Vec<Rc<S::Item>>,
    ) -> Result<Tree<S>, NoMemory>
        requires few { vec_len items ≤ 2 ^ 30 }
        requires room { S.Meter.count meter.old + 2 ^ 32 < 2 ^ 64 }
        ensures list { IfOk result (λ t. t ≡ map (λ item. item.value) items.items) }
        ensures counted { OnOk result (S.Meter.count meter.new ≡ S.Meter.count meter.old + (vec_len items - 1)) }
        ensures not_less { S.Meter.count meter.old ≤ S.Meter.count meter.new }
        ensures joins { S.Meter.count meter.new ≤ S.Meter.count meter.old + (vec_len items - 1) }
    {
        if items.is_empty() {
            return Tree::empty(alloc);
        }
        let root = Node::build(alloc, meter, items.as_slice())?;
        Ok(Tree {
            root: Root::Full(root),
        })
    }

    fn empty(alloc: Global) -> Result<Tree<S>, NoMemory>
        ensures { IfOk result (λ t. t ≡ []) }
    {
        let summary = S::empty(alloc)?;
        Ok(Tree {
            root: Root::Empty(Rc::new(alloc, summary)?),
        })
    }

    /// How many items there are. Allocates nothing.
    pub fn len(&self) -> usize
        ensures { result ≡ length self.now }
    {
        match &self.root {
            Root::Empty(_) => 0,
            Root::Full(node) => node.len(),
        }
    }

    /// Whether there is no item. Allocates nothing.
    pub fn is_empty(&self) -> bool
        ensures { result ≡ (length self.now == 0) }
    {
        self.len() == 0
    }

    /// The item at a place below the length. Allocates nothing.
    pub fn get(&self, at: usize) -> &S::Item
        requires { at < length self.now }
        ensures { slice_get self.now at ≡ Some result.now }
    {
        let (run, offset) = self.leaf_at(at);
        &run[offset]
    }

    /// The items of the leaf that holds a place below the length, and the offset of the place in it. Allocates nothing.
    ///
    /// The next leaf begins at `at - offset + run.len()`, so a walk over the leaves descends the tree once for each.
    pub fn leaf_at(&self, at: usize) -> (&[Rc<S::Item>], usize)
        requires in_range { at < length self.now }
        ensures not_before { result.1 ≤ at }
        ensures within { result.1 < length result.0.now }
        ensures run { values result.0.now ≡ slice_range self.now (at - result.1) (at - result.1 + length result.0.now) }
    {
        match &self.root {
            Root::Empty(_) => unreachable!(),
            Root::Full(node) => node.leaf_at(at),
        }
    }

    /// The summary of all items. Allocates nothing and makes no join.
    pub fn summary(&self) -> &S
        ensures { S.stands result.now self.now }
    {
        match &self.root {
            Root::Empty(summary) => summary,
            Root::Full(node) => node.summary(),
        }
    }

    /// The tree with the item at the place, and those from there on one place later. The place is at most the length.
    ///
    /// Counts at most `12 * bits n + 12` joins, n the new length.
    pub fn insert(
        &self,
        alloc: Global,
        meter: &mut S::Meter,
        at: usize,
        item: Rc<S::Item>,
    ) -> Result<Tree<S>, NoMemory>
        requires in_range { at ≤ length self.now }
        requires few { length self.now < 2 ^ 30 }
        requires room { S.Meter.count meter.old + 2 ^ 32 < 2 ^ 64 }
        ensures list { IfOk result (λ t. t ≡ insert self.now at item.value) }
        ensures not_less { S.Meter.count meter.old ≤ S.Meter.count meter.new }
        ensures joins { S.Meter.count meter.new ≤ S.Meter.count meter.old + bound (length self.now + 1) }
    {
        self.edited(alloc, meter, at, Edit::Insert(item))
    }

    /// The tree without the item at the place, and those after it one place earlier.
    ///
    /// Counts at most `12 * bits n + 12` joins, n the old length.
    pub fn remove(
        &self,
        alloc: Global,
        meter: &mut S::Meter,
        at: usize,
    ) -> Result<Tree<S>, NoMemory>
        requires in_range { at < length self.now }
        requires room { S.Meter.count meter.old + 2 ^ 32 < 2 ^ 64 }
        ensures list { IfOk result (λ t. t ≡ remove self.now at) }
        ensures not_less { S.Meter.count meter.old ≤ S.Meter.count meter.new }
        ensures joins { S.Meter.count meter.new ≤ S.Meter.count meter.old + bound (length self.now) }
    {
        self.edited(alloc, meter, at, Edit::Remove)
    }

    /// The tree with this item in place of the one that is there. Counts at most `12 * bits n + 12` joins, n the length.
    pub fn replace(
        &self,
        alloc: Global,
        meter: &mut S::Meter,
        at: usize,
        item: Rc<S::Item>,
    ) -> Result<Tree<S>, NoMemory>
        requires in_range { at < length self.now }
        requires room { S.Meter.count meter.old + 2 ^ 32 < 2 ^ 64 }
        ensures list { IfOk result (λ t. t ≡ slice_set self.now at item.value) }
        ensures not_less { S.Meter.count meter.old ≤ S.Meter.count meter.new }
        ensures joins { S.Meter.count meter.new ≤ S.Meter.count meter.old + bound (length self.now) }
    {
        self.edited(alloc, meter, at, Edit::Replace(item))
    }

    /// The tree after an edit at a place.
    fn edited(
        &self,
        alloc: Global,
        meter: &mut S::Meter,
        at: usize,
        edit: Edit<S::Item>,
    ) -> Result<Tree<S>, NoMemory>
        requires allowed { IsAllowed edit (length self.now) at }
        requires room { S.Meter.count meter.old + 2 ^ 32 < 2 ^ 64 }
        ensures list { IfOk result (λ t. t ≡ edited edit self.now at) }
        ensures not_less { S.Meter.count meter.old ≤ S.Meter.count meter.new }
        ensures joins { (n : ℕ) → length self.now ≤ n → S.Meter.count meter.new ≤ S.Meter.count meter.old + bound n }
    {
        let Root::Full(root) = &self.root else {
            let Edit::Insert(item) = edit else {
                unreachable!()
            };
            return Tree::from_list(alloc, meter, run::single(alloc, item)?);
        };
        // Shows how high a node of so many items can be.
        let _height = root.height();
        match Node::edited(root, alloc, meter, at, edit)? {
            None => Tree::empty(alloc),
            Some((root, _)) => Ok(Tree {
                root: Root::Full(root),
            }),
        }
    }
}
