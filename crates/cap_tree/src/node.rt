//! The nodes of a tree. A contract sees a node as its items, its height and its summary.
//!
//! A leaf holds a run of items and one summary of them, since a summary of each single item would take far more memory
//! than the items. A node's height is 0 for a leaf, else that of the higher part and one, and two parts are at most one
//! apart. An edit makes anew the leaf that holds its place and the nodes above it, and shares all others.
ghost use Rattle.std.specs.Prelude.{◌≡◌, ℕ, ◌+◌, ◌-◌, ◌*◌, ◌/◌, ◌^◌, ◌<◌, ◌≤◌, min, max, List, [], ◌∷◌, ◌++◌, length};
ghost use Rattle.std.specs.Prelude.{vec_len, slice_range, true, false, IfOk, OnOk, MatchOption, IfSome};
ghost use Rattle.cap_tree.specs.Alike.{AreAlike};
ghost use Rattle.cap_tree.specs.Edits.{edited, IsAllowed};
ghost use Rattle.cap_tree.specs.Heights.{DifferByAtMost, HaveChanged, IsLeastHeight};
ghost use Rattle.cap_tree.specs.Run.{values};
ghost use Rattle.cap_tree.specs.Sides.{beside, IsJoinAt};

use crate::no_memory::NoMemory;
use crate::run::{self, Edit};
use crate::segment::Segment;
use crate::similarity::{Side, Similarity};
use std::alloc::Global;
use std::marker::Model;
use std::rc::Rc;

/// The most items that a leaf holds.
const LEAF_ITEMS: usize = 48;

#[cycle(node)]
#[derive(Drop)]
pub(crate) struct Node<S: Segment> {
    summary: S,
    height: usize,
    shape: Shape<S>,
}

#[cycle(node)]
#[derive(Drop)]
enum Shape<S: Segment> {
    Leaf(Vec<Rc<S::Item>>),
    Branch(Rc<Node<S>>, Rc<Node<S>>),
}

impl<S: Segment> Model for Node<S> {
    ghost use Rattle.std.specs.Prelude.{ℕ, List, length};

    ghost Value = { List S.Item × ℕ × S };

    ghost use Rattle.cap_tree.specs.Shape.{items, IsGood};

    ghost view = { λ a. (items a.shape, a.height, a.summary) };

    ghost invariant = { λ a. IsGood S.stands S.composes a.summary a.height a.shape };

    ghost size = { λ d. d.1 };

    ghost use Rattle.cap_tree.specs.Falls.{depth_le_height};

    ghost size_decreases = { λ a h. depth_le_height S.Segment S.Meter.Counts a.shape a.height h.balanced };
}

impl<S: Segment> Node<S> {
    /// The summary of the items.
    pub(crate) fn summary(&self) -> &S
        ensures value { result.now ≡ self.now.2 }
        ensures stands { S.stands result.now self.now.0 }
    {
        &self.summary
    }

    /// How many items there are.
    pub(crate) fn len(&self) -> usize
        ensures count { result ≡ length self.now.0 }
        ensures some { 0 < result }
        ensures few { result ≤ 2 ^ 30 }
    {
        self.summary.len()
    }

    /// The levels above the leaves.
    pub(crate) fn height(&self) -> usize
        ensures value { result ≡ self.now.1 }
        ensures lower { self.now.1 < length self.now.0 }
        ensures wide { 2 ^ (self.now.1 / 2) ≤ length self.now.0 }
        ensures exceeds_leaf { 0 < self.now.1 → LEAF_ITEMS < length self.now.0 }
    {
        self.height
    }

    /// The leaf that holds a run.
    fn leaf(
        alloc: Global,
        meter: &mut S::Meter,
        run: Vec<Rc<S::Item>>,
    ) -> Result<Rc<Node<S>>, NoMemory>
        requires some { 0 < vec_len run }
        requires fits { vec_len run ≤ LEAF_ITEMS }
        requires room { S.Meter.count meter.old + vec_len run < 2 ^ 64 }
        ensures items { IfOk result (λ n. n.value.0 ≡ values run.items) }
        ensures height { IfOk result (λ n. n.value.1 ≡ 0) }
        ensures counted { OnOk result (S.Meter.count meter.new + 1 ≡ S.Meter.count meter.old + vec_len run) }
        ensures not_less { S.Meter.count meter.old ≤ S.Meter.count meter.new }
        ensures joins { S.Meter.count meter.new < S.Meter.count meter.old + vec_len run }
    {
        let summary = S::sum(alloc, meter, run.as_slice())?;
        let node = Node {
            summary,
            height: 0,
            shape: Shape::Leaf(run),
        };
        Ok(Rc::new(alloc, node)?)
    }

    /// The node over two parts, whose items in order are summed up. Two leaves must not fit into one.
    fn over(
        alloc: Global,
        summary: S,
        left: Rc<Node<S>>,
        right: Rc<Node<S>>,
    ) -> Result<Rc<Node<S>>, NoMemory>
        requires stands { S.stands summary (left.value.0 ++ right.value.0) }
        requires composed { S.composes left.value.2 right.value.2 summary }
        requires balanced { DifferByAtMost 1 left.value.1 right.value.1 }
        requires apart { left.value.1 ≡ 0 → right.value.1 ≡ 0
            → LEAF_ITEMS < length left.value.0 + length right.value.0 }
        requires few { length left.value.0 + length right.value.0 ≤ 2 ^ 30 }
        ensures items { IfOk result (λ n. n.value.0 ≡ left.value.0 ++ right.value.0) }
        ensures height { IfOk result (λ n. n.value.1 ≡ max left.value.1 right.value.1 + 1) }
        ensures summary { IfOk result (λ n. n.value.2 ≡ summary) }
    {
        let height = left.height().max(right.height()) + 1;
        let node = Node {
            summary,
            height,
            shape: Shape::Branch(left, right),
        };
        Ok(Rc::new(alloc, node)?)
    }

    /// The part on the side and the other one, whose heights are at most one apart. Two leaves must not fit into one.
    fn branch(
        alloc: Global,
        meter: &mut S::Meter,
        side: Side,
        part: Rc<Node<S>>,
        other: Rc<Node<S>>,
    ) -> Result<Rc<Node<S>>, NoMemory>
        requires balanced { DifferByAtMost 1 part.value.1 other.value.1 }
        requires apart { part.value.1 ≡ 0 → other.value.1 ≡ 0
            → LEAF_ITEMS < length part.value.0 + length other.value.0 }
        requires few { length part.value.0 + length other.value.0 ≤ 2 ^ 30 }
        requires room { S.Meter.count meter.old + 1 < 2 ^ 64 }
        ensures items { IfOk result (λ n. n.value.0 ≡ beside side part.value.0 other.value.0) }
        ensures count { IfOk result (λ n. length n.value.0 ≡ length part.value.0 + length other.value.0) }
        ensures height { IfOk result (λ n. n.value.1 ≡ max part.value.1 other.value.1 + 1) }
        ensures counted { OnOk result (S.Meter.count meter.new ≡ S.Meter.count meter.old + 1) }
        ensures not_less { S.Meter.count meter.old ≤ S.Meter.count meter.new }
        ensures joins { S.Meter.count meter.new ≤ S.Meter.count meter.old + 1 }
    {
        let (left, right) = side.order(part, other);
        let summary = S::join(alloc, meter, left.summary(), right.summary())?;
        Node::over(alloc, summary, left, right)
    }

    /// The part of a branch on the side, and the other one.
    fn parts(&self, side: Side) -> Result<(Rc<Node<S>>, Rc<Node<S>>), NoMemory>
        requires branch { 0 < self.now.1 }
        ensures items { IfOk result (λ two. beside side two.0.value.0 two.1.value.0 ≡ self.now.0) }
        ensures count { IfOk result (λ two. length two.0.value.0 + length two.1.value.0 ≡ length self.now.0) }
        ensures height { IfOk result (λ two. self.now.1 ≡ max two.0.value.1 two.1.value.1 + 1) }
        ensures balanced { IfOk result (λ two. DifferByAtMost 1 two.0.value.1 two.1.value.1) }
    {
        let Shape::Branch(left, right) = &self.shape else {
            unreachable!()
        };
        Ok(side.order(left.clone()?, right.clone()?))
    }

    /// The high part on the side and the low one, which an edit has set two levels apart: the inner part of the high
    /// one goes to the low one, or where it is the higher part, its own two parts go to either side. Leaves that meet
    /// become one where they fit.
    fn rotate(
        alloc: Global,
        meter: &mut S::Meter,
        side: Side,
        high: &Node<S>,
        low: Rc<Node<S>>,
    ) -> Result<Rc<Node<S>>, NoMemory>
        requires two_higher { high.now.1 ≡ low.value.1 + 2 }
        requires few { length high.now.0 + length low.value.0 ≤ 2 ^ 30 }
        requires room { S.Meter.count meter.old + 3 < 2 ^ 64 }
        ensures items { IfOk result (λ n. n.value.0 ≡ beside side high.now.0 low.value.0) }
        ensures height { IfOk result (λ n. DifferByAtMost 1 n.value.1 high.now.1) }
        ensures not_lower { LEAF_ITEMS ≤ length low.value.0 → IfOk result (λ n. high.now.1 ≤ n.value.1) }
        ensures not_less { S.Meter.count meter.old ≤ S.Meter.count meter.new }
        ensures joins { S.Meter.count meter.new ≤ S.Meter.count meter.old + 3 }
    {
        let (outer, inner) = high.parts(side)?;
        if outer.height() >= inner.height() {
            let lower = Node::united(alloc, meter, side, inner, low)?;
            return Node::branch(alloc, meter, side, outer, lower);
        }
        let middle: &Node<S> = &inner;
        let (near, far) = middle.parts(side)?;
        let front = Node::united(alloc, meter, side, outer, near)?;
        let back = Node::united(alloc, meter, side, far, low)?;
        Node::branch(alloc, meter, side, front, back)
    }

    /// Whether both are leaves whose items fit in one.
    fn fit_in_a_leaf(&self, other: &Node<S>) -> bool
        ensures leaf { result ≡ true → self.now.1 ≡ 0 }
        ensures other_leaf { result ≡ true → other.now.1 ≡ 0 }
        ensures fit { result ≡ true → length self.now.0 + length other.now.0 ≤ LEAF_ITEMS }
        ensures short { result ≡ true → length other.now.0 < LEAF_ITEMS }
        ensures apart { result ≡ false → self.now.1 ≡ 0 → other.now.1 ≡ 0
            → LEAF_ITEMS < length self.now.0 + length other.now.0 }
    {
        self.height == 0 && other.height == 0 && self.len() + other.len() <= LEAF_ITEMS
    }

    /// The leaf of the items of two leaves. Their summaries serve, so one join is enough.
    fn merge(
        alloc: Global,
        meter: &mut S::Meter,
        side: Side,
        part: &Node<S>,
        other: &Node<S>,
    ) -> Result<Rc<Node<S>>, NoMemory>
        requires leaf { part.now.1 ≡ 0 }
        requires other_leaf { other.now.1 ≡ 0 }
        requires fit { length part.now.0 + length other.now.0 ≤ LEAF_ITEMS }
        requires room { S.Meter.count meter.old + 1 < 2 ^ 64 }
        ensures items { IfOk result (λ n. n.value.0 ≡ beside side part.now.0 other.now.0) }
        ensures height { IfOk result (λ n. n.value.1 ≡ 0) }
        ensures counted { OnOk result (S.Meter.count meter.new ≡ S.Meter.count meter.old + 1) }
        ensures not_less { S.Meter.count meter.old ≤ S.Meter.count meter.new }
        ensures joins { S.Meter.count meter.new ≤ S.Meter.count meter.old + 1 }
    {
        let (left, right) = side.order(part, other);
        let (Shape::Leaf(front), Shape::Leaf(back)) = (&left.shape, &right.shape) else {
            unreachable!()
        };
        let run = run::joined(alloc, front, back)?;
        let summary = S::join(alloc, meter, &left.summary, &right.summary)?;
        let node = Node {
            summary,
            height: 0,
            shape: Shape::Leaf(run),
        };
        Ok(Rc::new(alloc, node)?)
    }

    /// The part on the side and the other one under a node, or as one leaf where they are leaves that fit into one.
    fn united(
        alloc: Global,
        meter: &mut S::Meter,
        side: Side,
        part: Rc<Node<S>>,
        other: Rc<Node<S>>,
    ) -> Result<Rc<Node<S>>, NoMemory>
        requires balanced { DifferByAtMost 1 part.value.1 other.value.1 }
        requires few { length part.value.0 + length other.value.0 ≤ 2 ^ 30 }
        requires room { S.Meter.count meter.old + 1 < 2 ^ 64 }
        ensures items { IfOk result (λ n. n.value.0 ≡ beside side part.value.0 other.value.0) }
        ensures count { IfOk result (λ n. length n.value.0 ≡ length part.value.0 + length other.value.0) }
        ensures not_lower { IfOk result (λ n. max part.value.1 other.value.1 ≤ n.value.1) }
        ensures not_higher { IfOk result (λ n. n.value.1 ≤ max part.value.1 other.value.1 + 1) }
        ensures higher { LEAF_ITEMS ≤ length other.value.0
            → IfOk result (λ n. max part.value.1 other.value.1 < n.value.1) }
        ensures not_less { S.Meter.count meter.old ≤ S.Meter.count meter.new }
        ensures joins { S.Meter.count meter.new ≤ S.Meter.count meter.old + 1 }
    {
        if part.fit_in_a_leaf(&other) {
            return Node::merge(alloc, meter, side, &part, &other);
        }
        Node::branch(alloc, meter, side, part, other)
    }

    /// This node with the part on the side in place of an old one, balanced anew, and what of both nodes is known to be
    /// the same; `similarity` says it of the parts. Two leaves become one as soon as one can hold all items.
    fn rebalance(
        &self,
        was: &Node<S>,
        alloc: Global,
        meter: &mut S::Meter,
        side: Side,
        part: Rc<Node<S>>,
        other: Rc<Node<S>>,
        similarity: Similarity,
    ) -> Result<(Rc<Node<S>>, Similarity), NoMemory>
        requires old { IsJoinAt S.composes side was.now.2 other.value.2 self.now.2 }
        requires alike { AreAlike S.same_effect S.same_precondition similarity was.now.2 part.value.2 }
        requires changed { HaveChanged was.now.1 part.value.1 other.value.1 self.now.1 }
        requires long { 0 < was.now.1 → LEAF_ITEMS ≤ length part.value.0 }
        requires few { length part.value.0 + length other.value.0 ≤ 2 ^ 30 }
        requires room { S.Meter.count meter.old + 3 < 2 ^ 64 }
        ensures items { IfOk result (λ new. new.0.value.0 ≡ beside side part.value.0 other.value.0) }
        ensures height { IfOk result (λ new. DifferByAtMost 1 new.0.value.1 self.now.1) }
        ensures alike { IfOk result (λ new. AreAlike S.same_effect S.same_precondition new.1 self.now.2 new.0.value.2) }
        ensures not_less { S.Meter.count meter.old ≤ S.Meter.count meter.new }
        ensures joins { S.Meter.count meter.new ≤ S.Meter.count meter.old + 3 }
    {
        let near = part.height();
        let far = other.height();
        if near > far + 1 {
            let node = Node::rotate(alloc, meter, side, &part, other)?;
            return Ok((node, Similarity::none()));
        }
        if far > near + 1 {
            let node = Node::rotate(alloc, meter, side.opposite(), &other, part)?;
            return Ok((node, Similarity::none()));
        }
        if part.fit_in_a_leaf(&other) {
            let node = Node::merge(alloc, meter, side, &part, &other)?;
            return Ok((node, Similarity::none()));
        }
        let (left, right) = side.order(part, other);
        let (summary, similarity) = S::rejoin(
            alloc,
            meter,
            left.summary(),
            right.summary(),
            &self.summary,
            was.summary(),
            side,
            similarity,
        )?;
        let whole = Node::over(alloc, summary, left, right)?;
        Ok((whole, similarity))
    }

    /// The node after an edit at a place, at most one level higher or lower, and what of both nodes is known to be the
    /// same; none where no item is left.
    pub(crate) fn edited(
        this: &Rc<Node<S>>,
        alloc: Global,
        meter: &mut S::Meter,
        at: usize,
        edit: Edit<S::Item>,
    ) -> Result<Option<(Rc<Node<S>>, Similarity)>, NoMemory>
        requires allowed { IsAllowed edit (length this.now.value.0) at }
        requires room { S.Meter.count meter.old + 2 ^ 32 < 2 ^ 64 }
        ensures items { IfOk result (λ o. MatchOption o (edited edit this.now.value.0 at ≡ [])
            (λ new. new.0.value.0 ≡ edited edit this.now.value.0 at)) }
        ensures height { IfOk result (λ o. MatchOption o (this.now.value.1 ≡ 0)
            (λ new. DifferByAtMost 1 new.0.value.1 this.now.value.1)) }
        ensures long { IfOk result (λ o. IfSome o
            (λ new. 0 < this.now.value.1 → LEAF_ITEMS ≤ length new.0.value.0)) }
        ensures alike { IfOk result (λ o. IfSome o
            (λ new. AreAlike S.same_effect S.same_precondition new.1 this.now.value.2 new.0.value.2)) }
        ensures not_less { S.Meter.count meter.old ≤ S.Meter.count meter.new }
        ensures joins { S.Meter.count meter.new
            ≤ S.Meter.count meter.old + min LEAF_ITEMS (length this.now.value.0) + 3 * this.now.value.1 }
    {
        let node: &Node<S> = this;
        match &node.shape {
            Shape::Leaf(_) => match Node::edit_leaf(this, alloc, meter, at, edit)? {
                None => Ok(None),
                Some(new) => Ok(Some((new, Similarity::none()))),
            },
            Shape::Branch(left, right) => {
                let (side, place) = Side::of_place(left.len(), at);
                let (part, other) = side.order(left, right);
                let changed = Node::edited(part, alloc, meter, place, edit)?;
                let kept = other.clone()?;
                match changed {
                    None => Ok(Some((kept, Similarity::none()))),
                    Some((changed, similarity)) => {
                        let new = node.rebalance(
                            part, alloc, meter, side, changed, kept, similarity,
                        )?;
                        Ok(Some(new))
                    }
                }
            }
        }
    }

    /// The leaf after an edit at a place, or a branch over two leaves; none where no item is left. For a new item at
    /// either end the leaf's own summary serves.
    fn edit_leaf(
        this: &Rc<Node<S>>,
        alloc: Global,
        meter: &mut S::Meter,
        at: usize,
        edit: Edit<S::Item>,
    ) -> Result<Option<Rc<Node<S>>>, NoMemory>
        requires leaf { this.now.value.1 ≡ 0 }
        requires allowed { IsAllowed edit (length this.now.value.0) at }
        requires room { S.Meter.count meter.old + 2 ^ 32 < 2 ^ 64 }
        ensures items { IfOk result (λ o. MatchOption o (edited edit this.now.value.0 at ≡ [])
            (λ n. n.value.0 ≡ edited edit this.now.value.0 at)) }
        ensures height { IfOk result (λ o. IfSome o (λ n. n.value.1 ≤ 1)) }
        ensures not_less { S.Meter.count meter.old ≤ S.Meter.count meter.new }
        ensures joins { S.Meter.count meter.new ≤ S.Meter.count meter.old + min LEAF_ITEMS (length this.now.value.0) }
    {
        let node: &Node<S> = this;
        let Shape::Leaf(run) = &node.shape else {
            unreachable!()
        };
        let new = match edit {
            Edit::Insert(item) if at == 0 || at == run.len() => {
                let side = if at == 0 { Side::Left } else { Side::Right };
                Node::insert_at_end(this, alloc, meter, side, item)?
            }
            edit => {
                let run = run::edited(alloc, run, at, edit)?;
                if run.is_empty() {
                    return Ok(None);
                }
                Node::leaves(alloc, meter, run)?
            }
        };
        Ok(Some(new))
    }

    /// The leaf with an item more at the end on the side, or a branch over it and the leaf of the item.
    fn insert_at_end(
        this: &Rc<Node<S>>,
        alloc: Global,
        meter: &mut S::Meter,
        side: Side,
        item: Rc<S::Item>,
    ) -> Result<Rc<Node<S>>, NoMemory>
        requires leaf { this.now.value.1 ≡ 0 }
        requires few { length this.now.value.0 ≤ LEAF_ITEMS }
        requires room { S.Meter.count meter.old + 1 < 2 ^ 64 }
        ensures items { IfOk result (λ n. n.value.0 ≡ beside side (item.value ∷ []) this.now.value.0) }
        ensures height { IfOk result (λ n. n.value.1 ≤ 1) }
        ensures not_less { S.Meter.count meter.old ≤ S.Meter.count meter.new }
        ensures joins { S.Meter.count meter.new ≤ S.Meter.count meter.old + 1 }
    {
        let old = this.clone()?;
        let new = Node::leaf(alloc, meter, run::single(alloc, item)?)?;
        Node::united(alloc, meter, side, new, old)
    }

    /// The leaf that holds a run, or a branch over its halves where the run has an item too many.
    fn leaves(
        alloc: Global,
        meter: &mut S::Meter,
        run: Vec<Rc<S::Item>>,
    ) -> Result<Rc<Node<S>>, NoMemory>
        requires some { 0 < vec_len run }
        requires at_most_one_more { vec_len run ≤ LEAF_ITEMS + 1 }
        requires room { S.Meter.count meter.old + vec_len run < 2 ^ 64 }
        ensures items { IfOk result (λ n. n.value.0 ≡ values run.items) }
        ensures height { IfOk result (λ n. n.value.1 ≤ 1) }
        ensures not_less { S.Meter.count meter.old ≤ S.Meter.count meter.new }
        ensures joins { S.Meter.count meter.new < S.Meter.count meter.old + vec_len run }
    {
        if run.len() <= LEAF_ITEMS {
            return Node::leaf(alloc, meter, run);
        }
        let (front, back) = Node::halves(alloc, meter, run.as_slice())?;
        Node::branch(alloc, meter, Side::Left, front, back)
    }

    /// The two leaves of a run that has an item too many for one. Each has at least half of what a leaf may hold.
    fn halves(
        alloc: Global,
        meter: &mut S::Meter,
        run: &[Rc<S::Item>],
    ) -> Result<(Rc<Node<S>>, Rc<Node<S>>), NoMemory>
        requires one_too_many { length run.now ≡ LEAF_ITEMS + 1 }
        requires room { S.Meter.count meter.old + length run.now < 2 ^ 64 }
        ensures items { IfOk result (λ two. two.0.value.0 ++ two.1.value.0 ≡ values run.now) }
        ensures count { IfOk result (λ two. length two.0.value.0 + length two.1.value.0 ≡ length run.now) }
        ensures front { IfOk result (λ two. (two.0.value.1 ≡ 0) × (LEAF_ITEMS / 2 ≤ length two.0.value.0)) }
        ensures back { IfOk result (λ two. (two.1.value.1 ≡ 0) × (LEAF_ITEMS / 2 ≤ length two.1.value.0)) }
        ensures counted { OnOk result (S.Meter.count meter.new + 2 ≡ S.Meter.count meter.old + length run.now) }
        ensures not_less { S.Meter.count meter.old ≤ S.Meter.count meter.new }
        ensures joins { S.Meter.count meter.new < S.Meter.count meter.old + length run.now }
    {
        let (front, back) = run.split_at(run.len() / 2);
        let left = Node::build(alloc, meter, front)?;
        let right = Node::build(alloc, meter, back)?;
        Ok((left, right))
    }

    /// The run of the leaf around the place, and where in it the place is.
    pub(crate) fn leaf_at(&self, at: usize) -> (&[Rc<S::Item>], usize)
        requires in_range { at < length self.now.0 }
        ensures not_before { result.1 ≤ at }
        ensures within { result.1 < length result.0.now }
        ensures run { values result.0.now
            ≡ slice_range self.now.0 (at - result.1) (at - result.1 + length result.0.now) }
    {
        match &self.shape {
            Shape::Leaf(run) => (run.as_slice(), at),
            Shape::Branch(left, right) => {
                let middle = left.len();
                if at < middle {
                    left.leaf_at(at)
                } else {
                    right.leaf_at(at - middle)
                }
            }
        }
    }

    /// Where a list of so many items is cut, so that each leaf but the last can be full, and half of the leaves or one
    /// more than that are before the cut.
    fn cut(count: usize) -> usize
        requires long { LEAF_ITEMS < count }
        requires few { count ≤ 2 ^ 30 }
        ensures whole_leaves { result ≡ LEAF_ITEMS * (result / LEAF_ITEMS) }
        ensures within { result < count }
        ensures not_below_half { count ≤ 2 * result }
        ensures near_half { 2 * result < count + 2 * LEAF_ITEMS }
    {
        ((count - 1) / (2 * LEAF_ITEMS) + 1) * LEAF_ITEMS
    }

    /// A node of these items, whose leaves are full but for the last.
    pub(crate) fn build(
        alloc: Global,
        meter: &mut S::Meter,
        list: &[Rc<S::Item>],
    ) -> Result<Rc<Node<S>>, NoMemory>
        requires some { 0 < length list.now }
        requires few { length list.now ≤ 2 ^ 30 }
        requires room { S.Meter.count meter.old + length list.now < 2 ^ 64 }
        ensures items { IfOk result (λ n. n.value.0 ≡ values list.now) }
        ensures height { IfOk result (λ n. IsLeastHeight LEAF_ITEMS n.value.1 (length list.now)) }
        ensures counted { OnOk result (S.Meter.count meter.new + 1 ≡ S.Meter.count meter.old + length list.now) }
        ensures not_less { S.Meter.count meter.old ≤ S.Meter.count meter.new }
        ensures joins { S.Meter.count meter.new < S.Meter.count meter.old + length list.now }
    {
        if list.len() <= LEAF_ITEMS {
            let run = run::shared(alloc, list)?;
            return Node::leaf(alloc, meter, run);
        }
        let (front, back) = list.split_at(Node::<S>::cut(list.len()));
        let left = Node::build(alloc, meter, front)?;
        let right = Node::build(alloc, meter, back)?;
        Node::branch(alloc, meter, Side::Left, left, right)
    }
}
