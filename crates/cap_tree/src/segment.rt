//! What can sum up a list of items. The clauses of the trait are the laws that the tree rests on.
ghost use Rattle.std.specs.Prelude.{◌≡◌, ℕ, ◌+◌, ◌^◌, ◌<◌, ◌≤◌, List, [], ◌∷◌, ◌++◌, length, IfOk, OnOk};
ghost use Rattle.cap_tree.specs.Alike.{AreAlike};
ghost use Rattle.cap_tree.specs.Run.{values};
ghost use Rattle.cap_tree.specs.Sides.{IsJoinAt, part_at, other_at};

use crate::meter::Counts;
use crate::no_memory::NoMemory;
use crate::similarity::{Side, Similarity};
use std::alloc::Global;
use std::rc::Rc;

/// A summary of a list of items. Two summaries join to that of the one list followed by the other.
///
/// The clauses below are the laws that every segment keeps; the tree knows nothing else of it. An `impl` gives `Item`,
/// `Meter`, `empty`, `one`, `len` and `join`, with what `stands` and `size` mean and the law `sized`.
///
/// One that has [`Segment::rejoin`] as well may share with what was there before an edit. It says by `composes`,
/// `same_effect` and `same_precondition` what it needs to know of that.
pub trait Segment: Drop {
    type Item: Drop;

    /// What joins are counted on.
    type Meter: Counts;

    /// The value sums up the list.
    ghost stands: { Self → List Self.Item → Type 0 };

    /// The length of the list that the value sums up.
    ghost size: { Self → ℕ };

    /// The third value is a join of the first and the second, as far as the type keeps track of it.
    ghost composes: { Self → Self → Self → Type 0 } = { λ _ _ _. Unit {0} };

    /// The items of both values do the same.
    ghost same_effect: { Self → Self → Type 0 } = { λ _ _. Unit {0} };

    /// The items of both values ask the same of what came before them.
    ghost same_precondition: { Self → Self → Type 0 } = { λ _ _. Unit {0} };

    /// The summary of no items.
    fn empty(alloc: Global) -> Result<Self, NoMemory>
        ensures { IfOk result (λ s. stands s []) };

    /// The summary of one item, which may be shared.
    fn one(alloc: Global, item: &Rc<Self::Item>) -> Result<Self, NoMemory>
        ensures { IfOk result (λ s. stands s (item.now.value ∷ [])) };

    /// How many items are summed up. Allocates nothing.
    fn len(&self) -> usize
        ensures { result ≡ size self.now };

    /// The summary of the left items followed by the right ones.
    ///
    /// The two lengths must be at most `2 ^ 30` together, and the meter must have room for one more. A join that
    /// succeeds counts one; one that fails counts at most one. Both parts stay as they are.
    fn join(
        alloc: Global,
        meter: &mut Self::Meter,
        left: &Self,
        right: &Self,
    ) -> Result<Self, NoMemory>
        requires few { size left.now + size right.now ≤ 2 ^ 30 }
        requires room { Self.Meter.count meter.old + 1 < 2 ^ 64 }
        ensures joined { IfOk result
            (λ s. (t u : List Self.Item) → stands left.now t → stands right.now u → stands s (t ++ u)) }
        ensures composed { IfOk result (λ s. composes left.now right.now s) }
        ensures counted { OnOk result (Self.Meter.count meter.new ≡ Self.Meter.count meter.old + 1) }
        ensures not_less { Self.Meter.count meter.old ≤ Self.Meter.count meter.new }
        ensures at_most_one { Self.Meter.count meter.new ≤ Self.Meter.count meter.old + 1 };

    /// The summary of one item or more, in order: that of the first, joined to those of the others one by one, unless this
    /// type has a cheaper way.
    ///
    /// There must be at most `2 ^ 30` items, and the meter must have room for as many joins. It counts one join fewer than
    /// there are items; a call that fails counts no more.
    fn sum(
        alloc: Global,
        meter: &mut Self::Meter,
        items: &[Rc<Self::Item>],
    ) -> Result<Self, NoMemory>
        requires some { 0 < length items.now }
        requires few { length items.now ≤ 2 ^ 30 }
        requires room { Self.Meter.count meter.old + length items.now < 2 ^ 64 }
        ensures stands { IfOk result (λ s. stands s (values items.now)) }
        ensures counted { OnOk result (Self.Meter.count meter.new + 1 ≡ Self.Meter.count meter.old + length items.now) }
        ensures not_less { Self.Meter.count meter.old ≤ Self.Meter.count meter.new }
        ensures at_most { Self.Meter.count meter.new < Self.Meter.count meter.old + length items.now }
    {
        let mut sum = Self::one(alloc, &items[0])?;
        for at in 1..items.len() {
            let next = Self::one(alloc, &items[at])?;
            sum = Self::join(alloc, meter, &sum, &next)?;
        }
        Ok(sum)
    }

    /// As [`Segment::join`] of both parts, where the one on the side replaces an old one: `old` is a join of `was`
    /// and the other part, and `similarity` says what of `was` and the new part is known to be the same. The new
    /// summary may share with the old one what is the same. The answer says too what of these two is known to be the
    /// same.
    fn rejoin(
        alloc: Global,
        meter: &mut Self::Meter,
        left: &Self,
        right: &Self,
        old: &Self,
        was: &Self,
        side: Side,
        similarity: Similarity,
    ) -> Result<(Self, Similarity), NoMemory>
        requires few { size left.now + size right.now ≤ 2 ^ 30 }
        requires room { Self.Meter.count meter.old + 1 < 2 ^ 64 }
        requires old { IsJoinAt composes side was.now (other_at side left.now right.now) old.now }
        requires alike { AreAlike same_effect same_precondition similarity was.now (part_at side left.now right.now) }
        ensures joined { IfOk result (λ new. (t u : List Self.Item) → stands left.now t → stands right.now u
            → stands new.0 (t ++ u)) }
        ensures composed { IfOk result (λ new. composes left.now right.now new.0) }
        ensures alike { IfOk result (λ new. AreAlike same_effect same_precondition new.1 old.now new.0) }
        ensures counted { OnOk result (Self.Meter.count meter.new ≡ Self.Meter.count meter.old + 1) }
        ensures not_less { Self.Meter.count meter.old ≤ Self.Meter.count meter.new }
        ensures at_most_one { Self.Meter.count meter.new ≤ Self.Meter.count meter.old + 1 }
    {
        let _ = old;
        let _ = was;
        let _ = (side, similarity);
        let new = Self::join(alloc, meter, left, right)?;
        Ok((new, Similarity::none()))
    }

    /// All lists that one value sums up have its length.
    ghost sized: { (s : Self) (t : List Self.Item) → stands s t → size s ≡ length t };
}
