//! The items of a range of a tree, as an iterator that goes from leaf to leaf.
ghost use Rattle.std.specs.Prelude.{◌≡◌, ◌+◌, ◌<◌, ◌≤◌, length, slice_range};
ghost use Rattle.std.specs.Iterator.{YieldsFirstRef, item_count};
ghost use Rattle.cap_tree.specs.Run.{values};

use crate::segment::Segment;
use crate::tree::Tree;
use std::marker::Model;
use std::ops::Range;
use std::rc::Rc;

/// The items of a range of a tree, from the left. It descends the tree once for each leaf, and allocates nothing.
///
/// A contract sees the items that are still to come.
#[derive(Drop)]
pub struct Items<'a, S: Segment> {
    tree: &'a Tree<S>,
    run: &'a [Rc<S::Item>],
    next: usize,
    end: usize,
}

impl<'a, S: Segment> Model for Items<'a, S> {
    ghost use Rattle.std.specs.Prelude.{List, ◌≤◌, ◌++◌, length, slice_range};
    ghost use Rattle.cap_tree.specs.Run.{values};

    ghost Value = { List S.Item };

    ghost view = { λ a. values a.run.now ++ slice_range a.tree.now a.next a.end };

    ghost invariant = { λ a. (a.next ≤ a.end) × (a.end ≤ length a.tree.now) };
}

impl<S: Segment> Tree<S> {
    /// The items at the places of a range, from the left. The range must not end before it starts, nor after the last
    /// item. Allocates nothing, and descends the tree once for each leaf.
    pub fn range(&self, range: Range<usize>) -> Items<'_, S>
        requires in_order { range.start ≤ range.end }
        requires in_range { range.end ≤ length self.now }
        ensures items { result ≡ slice_range self.now range.start range.end }
    {
        Items {
            tree: self,
            run: &[],
            next: range.start,
            end: range.end,
        }
    }

    /// All items, from the left. Allocates nothing, and descends the tree once for each leaf.
    pub fn iter(&self) -> Items<'_, S>
        ensures items { result ≡ self.now }
    {
        self.range(0..self.len())
    }
}

/// The items from a place to the end of its leaf, or to `end` if that comes first.
fn leaf_part<S: Segment>(tree: &Tree<S>, at: usize, end: usize) -> &[Rc<S::Item>]
    requires some { at < end }
    requires in_range { end ≤ length tree.now }
    ensures some { 0 < length result.now }
    ensures not_past { at + length result.now ≤ end }
    ensures part { values result.now ≡ slice_range tree.now at (at + length result.now) }
{
    let (run, offset) = tree.leaf_at(at);
    let rest = &run[offset..];
    let most = end - at;
    if rest.len() > most {
        &rest[..most]
    } else {
        rest
    }
}

impl<'a, S: Segment> Iterator for Items<'a, S> {
    type Item = &'a S::Item;

    ghost next_gives = { YieldsFirstRef (λ items. items) };

    ghost remaining = { item_count (λ items. items) };

    fn next(&mut self) -> Option<&'a S::Item> {
        if self.run.is_empty() {
            if self.next == self.end {
                return None;
            }
            self.run = leaf_part(self.tree, self.next, self.end);
            self.next += self.run.len();
        }
        let (first, others) = self.run.split_first()?;
        self.run = others;
        Some(first)
    }
}
