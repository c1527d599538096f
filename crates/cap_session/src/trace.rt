//! The lines of a trace by their positions, whatever keeps them.
ghost use Rattle.std.specs.Prelude.{◌≡◌, ◌-◌, List, length, Some, slice_get};
ghost use Rattle.cap_trace.specs.Entry.{Entry};
ghost use Rattle.cap_session.specs.Edits.{is_position};
ghost use Rattle.cap_session.specs.Code.Explained.{IsAt};
ghost use Rattle.cap_session.specs.Session.{lines_of};

use cap_summary::Summary;
use cap_trace::Line;
use cap_tree::Tree;

/// Whether a position is one of 1 to `last`.
pub fn is_position(position: usize, last: usize) -> bool
    ensures { result ≡ is_position position last }
{
    1 <= position && position <= last
}

/// The lines of a trace.
pub trait Trace {
    /// The lines, from the first.
    ghost lines: { Self → List Entry };

    /// The line at a position, from 1.
    fn line_at(&self, position: usize) -> &Line
        requires { IsAt (length (lines self.now)) position }
        ensures { slice_get (lines self.now) (position - 1) ≡ Some result.now };
}

impl Trace for Tree<Summary> {
    ghost lines = { lines_of };

    fn line_at(&self, position: usize) -> &Line {
        &self.get(position - 1).line
    }
}

impl Trace for Vec<Line> {
    ghost lines = { λ kept. kept.items };

    fn line_at(&self, position: usize) -> &Line {
        &self[position - 1]
    }
}
