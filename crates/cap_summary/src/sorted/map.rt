//! Maps that are changed in place.
ghost use Rattle.std.specs.Prelude.{IfErr, IfOk, None, OnErr, OnOk, Some, [], false, if◌then◌else◌, ℕ, ◌==◌, ◌≡◌};
ghost use Rattle.cap_summary.specs.{Sorted.IsAt, Sorted.IsGap, Sorted.Rises, Sorted.found, option_copied};

use cap_tree::NoMemory;
use std::alloc::{AllocError, Global};
use std::marker::Model;

/// Values by key, which are put in place. A contract sees the list of its entries, each a key and a value, whose keys
/// strictly rise.
#[derive(Drop)]
pub struct Map<V> {
    entries: Vec<(u32, V)>,
}

impl<V> Model for Map<V> {
    ghost use Rattle.cap_summary.specs.{List, ℕ, Sorted.Rises};

    ghost Value = { List (ℕ × V) };

    ghost view = { λ m. m.entries.items };

    ghost invariant = { λ m. Rises m.entries.items };
}

/// A clone has the same keys, and at each a clone of the value.
impl<V: Clone> Clone for Map<V> {
    ghost use Rattle.cap_summary.specs.{AllZip};

    ghost is_clone = { λ map copy. AllZip (λ x y. (y.0 ≡ x.0) × V.is_clone x.1 y.1) map copy };

    fn clone(&self) -> Result<Map<V>, AllocError> {
        let entries = self.entries.clone()?;
        Ok(Map { entries })
    }
}

impl<V: PartialEq> PartialEq for Map<V> {
    ghost use Rattle.std.specs.Cmp.{and_per, on_per, partial_equiv_from_equiv, nat_eq_equiv};
    ghost use Rattle.std.specs.Cmp.Lexicographic.{lists_per, pointwise};
    ghost use Rattle.std.specs.Prelude.{◌&&◌, ◌==◌};

    ghost eq = { pointwise (λ x y. x.0 == y.0 && V.eq x.1 y.1) };

    ghost laws = { lists_per (and_per (on_per (λ x. x.0) (partial_equiv_from_equiv nat_eq_equiv))
        (on_per (λ x. x.1) V.laws)) };

    fn eq(&self, other: &Map<V>) -> bool {
        self.entries == other.entries
    }
}

/// The index of the entry that has the key, or else where it would go. Halves the entries at each step.
fn place_of<V>(entries: &[(u32, V)], key: u32) -> Result<usize, usize>
    requires { Rises entries.now }
    ensures at { IfOk result (IsAt entries.now key) }
    ensures gap { IfErr result (IsGap entries.now key) }
    ensures absent { IfErr result (λ _. found entries.now key ≡ None) }
{
    entries.binary_search_by_key(&key, |entry| entry.0)
}

impl<V> Map<V> {
    /// The entries in the order of their keys. Allocates nothing.
    pub fn entries(&self) -> &[(u32, V)]
        ensures all { result.now ≡ self.now }
        ensures rising { Rises self.now }
    {
        &self.entries
    }

    /// The value at a key, if there is one. Halves the map at each step, and allocates nothing.
    #[tactic(auto, using(crate::proofs::SortedFound::found_at))]
    pub fn get(&self, key: u32) -> Option<&V>
        ensures { option_copied result ≡ found self.now key }
    {
        match place_of(&self.entries, key) {
            Ok(at) => Some(&self.entries[at].1),
            Err(_) => None,
        }
    }
}

impl<V: Drop> Map<V> {
    /// A map without entries. Allocates nothing.
    pub fn new(alloc: Global) -> Map<V>
        ensures { result ≡ [] }
    {
        Map {
            entries: Vec::new(alloc),
        }
    }

    /// A map without entries, with room for so many.
    pub fn with_capacity(alloc: Global, room: usize) -> Result<Map<V>, NoMemory>
        ensures { IfOk result (λ map. map ≡ []) }
    {
        Ok(Map {
            entries: Vec::with_capacity(alloc, room)?,
        })
    }

    /// The map of these entries, whose keys must strictly rise. It has no spare room.
    pub(super) fn from_sorted(entries: Vec<(u32, V)>) -> Map<V>
        requires { Rises entries.items }
        ensures { result ≡ entries.items }
    {
        let mut exact = entries;
        exact.shrink_to_fit();
        Map { entries: exact }
    }

    /// Puts a value at a key, in place of the one that was there. A new entry moves those above it, and takes room for
    /// itself alone, since most maps stay as they are for long. If it fails the map stays as it was.
    #[tactic(auto, using(crate::proofs::SortedFound::puts))]
    pub fn set(&mut self, key: u32, value: V) -> Result<(), NoMemory>
        ensures ok { OnOk result ((k : ℕ) → found self.new k ≡ (if k == key then Some value else found self.old k)) }
        ensures err { OnErr result (self.new ≡ self.old) }
    {
        match place_of(&self.entries, key) {
            Ok(at) => {
                self.entries[at] = (key, value);
                Ok(())
            }
            Err(at) => {
                self.entries.reserve_exact(1)?;
                Ok(self.entries.insert(at, (key, value))?)
            }
        }
    }

    /// Takes out the value at a key, if there is one. Those above it move, and the room stays. Allocates nothing.
    #[tactic(auto, using(crate::proofs::SortedFound::takes))]
    pub fn remove(&mut self, key: u32) -> Option<V>
        ensures value { result ≡ found self.old key }
        ensures others { (k : ℕ) → (k == key) ≡ false → found self.new k ≡ found self.old k }
    {
        match place_of(&self.entries, key) {
            Ok(at) => Some(self.entries.remove(at).1),
            Err(_) => None,
        }
    }
}
