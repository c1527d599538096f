//! Lists of at most three asks.

ghost use Rattle.std.specs.Prelude.{All, IfNone, IfSome, [], false, length, true, ◌++◌, ◌<◌, ◌||◌, ◌∷◌, ◌≡◌, ◌≤◌};
ghost use Rattle.cap_summary.specs.{Asks.AreWithin, Asks.are_sure_at, Effects.changed, Preconditions.IsPulledBack};
ghost use Rattle.cap_summary.specs.{Asks.AskWithin, Asks.any_holds, Asks.asks_of, Asks.each_kind, Keys.cells_of, State};
ghost use Rattle.cap_summary.specs.{Asks.CanHold, Asks.holds, Keys.Cells, Names.Names, list_all};

use crate::{Ask, Effect, Key, Kinds, Pulled};
use cap_rights::RightSet;

/// At most three asks.
#[derive(Clone, Copy, PartialEq, Eq)]
pub struct UpToThree {
    asks: [Ask; 3],
    count: usize,
}

impl UpToThree {
    #[inline(always)]
    pub(crate) fn none() -> UpToThree
        ensures { asks_of result ≡ [] }
    {
        let blank = Ask {
            pid: 0,
            key: Key::Mode,
            kinds: Kinds::NONE,
            lacking: Kinds::NONE,
            rights: RightSet::none(),
        };
        UpToThree {
            asks: [blank; 3],
            count: 0,
        }
    }

    /// The asks.
    pub fn as_slice(&self) -> &[Ask]
        ensures asks { result.now ≡ asks_of self.now }
        ensures few { length result.now ≤ 3 }
    {
        &self.asks[..self.count.min(3)]
    }

    /// Adds one at the end.
    #[inline(always)]
    pub(crate) fn push(&mut self, ask: Ask)
        requires { length (asks_of self.old) < 3 }
        ensures asks { asks_of self.new ≡ asks_of self.old ++ ask ∷ [] }
        ensures holds { (cells : Cells) → any_holds cells (asks_of self.new)
            ≡ (any_holds cells (asks_of self.old) || holds cells ask) }
        ensures names { (names : Names) → AreWithin names (asks_of self.old) → AskWithin names ask
            → AreWithin names (asks_of self.new) }
    {
        self.asks[self.count] = ask;
        self.count += 1;
    }

    /// What these ask before an earlier segment: `None` where the cell of one is given, and it holds.
    #[inline(always)]
    pub(crate) fn before(&self, first: &Effect) -> Option<UpToThree>
        ensures always { IfNone result ((s : State) → any_holds (changed first.now (cells_of s)) (asks_of self.now) ≡ true) }
        ensures asks { IfSome result (λ before. IsPulledBack first.now (asks_of self.now) (asks_of before) false) }
        ensures can { IfSome result (λ before. All CanHold (asks_of before)) }
    {
        let mut before = UpToThree::none();
        for ask in self.as_slice() {
            match ask.before(first) {
                Pulled::Always => return None,
                Pulled::Never => {}
                Pulled::Where(ask) => before.push(ask),
            }
        }
        Some(before)
    }

    /// Whether each cell passes one of these that is about the cell of an ask.
    fn are_sure_at(&self, at: &Ask) -> bool
        ensures { result ≡ list_all (are_sure_at (asks_of self.now) at.now.pid at.now.key) each_kind }
    {
        let mut kinds = Kinds::NONE;
        for ask in self.as_slice() {
            if ask.pid == at.pid && ask.key.number() == at.key.number() {
                kinds = kinds.join(&ask.sure_kinds());
            }
        }
        kinds.is_full()
    }

    /// Whether one of these holds in every state.
    pub(crate) fn is_certain(&self) -> bool
        ensures always { result ≡ true → (s : State) → any_holds (cells_of s) (asks_of self.now) ≡ true }
        ensures fails { result ≡ false → (s : State) × (any_holds (cells_of s) (asks_of self.now) ≡ false) }
    {
        self.as_slice().iter().any(|ask| self.are_sure_at(ask))
    }
}
