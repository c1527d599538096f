//! Maps that are made of two.
ghost use Rattle.std.specs.Prelude.{◌≡◌, ◌+◌, ◌<◌, ◌||◌, if◌then◌else◌, ℕ, true, Option, Some, None, [], length};
ghost use Rattle.cap_summary.specs.{IfNone, IfOk, IfSome, Sorted.{Rises, RisesFrom, found}, is_some, option_copied};

use super::Map;
use cap_tree::NoMemory;
use std::alloc::Global;

/// What a merge makes of the values that two tables have at one key: a new value, or none, which leaves the key out.
pub trait Combine {
    type Left;

    type Right;

    type Out: Drop;

    /// What may stand at a key of the merged map, by what the two tables have there.
    ghost gives: { Self → ℕ → Option Self.Left → Option Self.Right → Option Self.Out → Type 0 };

    /// The value at a key that one of the tables has, or both.
    fn combine(
        &self,
        alloc: Global,
        key: u32,
        left: Option<&Self::Left>,
        right: Option<&Self::Right>,
    ) -> Result<Option<Self::Out>, NoMemory>
        ensures { IfOk result (λ out. gives self.now key (option_copied left.entry) (option_copied right.entry) out) };

    /// A key that neither table has may be left out.
    ghost neither: { (s : Self) (k : ℕ) → gives s k None None None };
}

/// The map that has at each key what `step` makes of the values that two lists of entries have there, whose keys must
/// strictly rise. It goes once over both, which stay as they are, and fails only where an allocation is refused.
pub fn merge<M: Combine>(
    alloc: Global,
    step: &M,
    left: &[(u32, M::Left)],
    right: &[(u32, M::Right)],
) -> Result<Map<M::Out>, NoMemory>
    requires left { Rises left.now }
    requires right { Rises right.now }
    ensures { IfOk result
        (λ merged. (k : ℕ) → M.gives step.now k (found left.now k) (found right.now k) (found merged k)) }
{
    let mut merged = Vec::with_capacity(alloc, left.len().saturating_add(right.len()))?;
    let mut lefts = left;
    let mut rights = right;
    while let Some(key) = first_key(lefts, rights) {
        let (a, after_a) = split_key(lefts, key);
        let (b, after_b) = split_key(rights, key);
        let made = step.combine(alloc, key, a, b)?;
        if let Some(value) = made {
            merged.push((key, value))?;
        }
        lefts = after_a;
        rights = after_b;
    }
    Ok(Map::from_sorted(merged))
}

/// The least key of both.
fn first_key<L, R>(lefts: &[(u32, L)], rights: &[(u32, R)]) -> Option<u32>
    requires left { Rises lefts.now }
    requires right { Rises rights.now }
    ensures left { IfSome result (λ key. RisesFrom key lefts.now) }
    ensures right { IfSome result (λ key. RisesFrom key rights.now) }
    ensures one { IfSome result (λ key. (is_some (found lefts.now key) || is_some (found rights.now key)) ≡ true) }
    ensures end { IfNone result ((lefts.now ≡ []) × (rights.now ≡ [])) }
{
    match (lefts.split_first(), rights.split_first()) {
        (Some((a, _)), Some((b, _))) => Some(a.0.min(b.0)),
        (Some((a, _)), None) => Some(a.0),
        (None, Some((b, _))) => Some(b.0),
        (None, None) => None,
    }
}

/// The value at a key that no entry is below, and the entries above it.
#[tactic(auto, using(crate::proofs::SortedFound::found_below_first, crate::proofs::SortedFound::found_nowhere))]
fn split_key<V>(entries: &[(u32, V)], key: u32) -> (Option<&V>, &[(u32, V)])
    requires { RisesFrom key entries.now }
    ensures value { option_copied result.0 ≡ found entries.now key }
    ensures rising { RisesFrom (key + 1) result.1.now }
    ensures above { (k : ℕ) → key < k → found result.1.now k ≡ found entries.now k }
    ensures fewer { length result.1.now + (if is_some (found entries.now key) then 1 else 0) ≡ length entries.now }
{
    match entries.split_first() {
        Some((first, above)) if first.0 == key => (Some(&first.1), above),
        _ => (None, entries),
    }
}
