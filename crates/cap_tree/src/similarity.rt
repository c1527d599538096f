//! What an edit knows of a whole: which of its two parts it replaces, and what is the same after it.
ghost use Rattle.std.specs.Prelude.{◌≡◌, false};
ghost use Rattle.cap_tree.specs.Sides.{part_at, other_at, opposite, IsAt};

/// One of the two parts of a whole.
#[derive(Clone, Copy)]
pub enum Side {
    Left,
    Right,
}

impl Side {
    /// Of a left and a right one, the one on this side, and then the other. Of these two again, the left and the right.
    pub fn order<T>(self, left: T, right: T) -> (T, T)
        ensures part { result.0 ≡ part_at self left right }
        ensures other { result.1 ≡ other_at self left right }
    {
        match self {
            Side::Left => (left, right),
            Side::Right => (right, left),
        }
    }

    /// The side of a place, where the left part has so many items, and the place within that part.
    pub(crate) fn of_place(middle: usize, at: usize) -> (Side, usize)
        ensures { IsAt result.0 middle at result.1 }
    {
        if at < middle {
            (Side::Left, at)
        } else {
            (Side::Right, at - middle)
        }
    }

    /// The other side.
    pub(crate) fn opposite(self) -> Side
        ensures { result ≡ opposite self }
    {
        match self {
            Side::Left => Side::Right,
            Side::Right => Side::Left,
        }
    }
}

/// What of two summaries is known to be the same.
#[derive(Clone, Copy)]
pub struct Similarity {
    /// What the items do.
    pub effect: bool,
    /// What the items ask of what came before them.
    pub precondition: bool,
}

impl Similarity {
    /// Nothing is known.
    pub fn none() -> Similarity
        ensures effect { result.effect ≡ false }
        ensures precondition { result.precondition ≡ false }
    {
        Similarity {
            effect: false,
            precondition: false,
        }
    }
}
