//! A count of the joins that were made, by which contracts bound what an edit costs.
ghost use Rattle.std.specs.Prelude.{◌≡◌, ℕ, ◌+◌, ◌^◌, ◌<◌};

use std::marker::Model;

/// What joins are counted on. The trait has no constructor and no call at all. So code that knows a meter by nothing
/// else, as that of the tree, can only hand on the one that it was given.
pub trait Counts {
    /// The joins counted.
    ghost count: { Self → ℕ };
}

/// A count of joins, from 0 to `u64::MAX`. A contract sees the number.
#[derive(Drop)]
pub struct Meter {
    count: u64,
}

impl Model for Meter {
    ghost Value = { ℕ };

    ghost view = { λ m. m.count };

    ghost invariant = { λ m. m.count < 2 ^ 64 };
}

impl Counts for Meter {
    ghost count = { λ joins. joins };
}

impl Meter {
    /// A meter that has counted no join.
    pub fn new() -> Meter
        ensures { result ≡ 0 }
    {
        Meter { count: 0 }
    }

    /// The joins counted since `new`.
    pub fn joins(&self) -> u64
        ensures { result ≡ self.now }
    {
        self.count
    }

    /// How many joins can still be counted.
    pub fn room(&self) -> u64
        ensures { self.now + result + 1 ≡ 2 ^ 64 }
    {
        u64::MAX - self.count
    }

    /// Counts one join. There must be room for it.
    pub fn tick(&mut self)
        requires { self.old + 1 < 2 ^ 64 }
        ensures { self.new ≡ self.old + 1 }
    {
        self.count += 1;
    }

    /// Counts so many joins. There must be room for them.
    pub fn add(&mut self, joins: u64)
        requires { self.old + joins < 2 ^ 64 }
        ensures { self.new ≡ self.old + joins }
    {
        self.count += joins;
    }
}
