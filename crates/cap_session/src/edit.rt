//! [`Edit`], an edit of a trace as a value, and the laws of edits. Each law is a function that does nothing.
ghost use Rattle.cap_session.specs.EditLaws.{AcceptedEditsGive, NoEditAsksForMemory, InsertedStands};

/// A change of a trace, one line at a time. Positions count from 1.
#[derive(Clone, Copy, Debug)]
pub enum Edit<'a> {
    /// Puts a line at the position, one past the last line at most. The lines from there on move up by one.
    Insert { position: usize, line: &'a [u8] },
    /// Takes the line at the position out. Those after it move down by one.
    Delete { position: usize },
    /// Puts a line in place of the one at the position.
    Replace { position: usize, line: &'a [u8] },
}

/// The trace after edits is the one that the accepted edits give, one after the other, with the others left out.
pub fn accepted_edits_give()
    ensures { AcceptedEditsGive }
{}

/// No edit is refused by its definition with `Memory`: that comes only where memory runs out.
pub fn no_edit_asks_for_memory()
    ensures { NoEditAsksForMemory }
{}

/// An inserted line is at its position, and deleting it there gives the trace back.
pub fn inserted_stands()
    ensures { InsertedStands }
{}
