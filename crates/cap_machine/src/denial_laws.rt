//! Laws of denials: which findings they exclude, their positions, and traces in turn. Each function does nothing: its
//! contract is the law.

ghost use Rattle.cap_machine.specs.DenialLaws.{WrongIsUnexplained, LackingIsRight, InsideIsRight, DenialsWithin};
ghost use Rattle.cap_machine.specs.DenialLaws.{DenialsInTurn, DenialsOneMore, RefusedIsDenied, LackingIsSome};
ghost use Rattle.cap_machine.specs.DenialLaws.{LackingIsEnough};

/// A refusal that a report calls wrong, by `refusal` or `moderefusal`, is unexplained.
pub fn wrong_refusals_are_unexplained()
    ensures { WrongIsUnexplained }
{}

/// A line that lacks a right, or that was denied inside capability mode, has no finding.
pub fn explained_denials_are_right()
    ensures rights { LackingIsRight }
    ensures mode { InsideIsRight }
{}

/// A line has a denial exactly where errno 93 or 94 refused it.
pub fn refused_lines_are_denied()
    ensures { RefusedIsDenied }
{}

/// What is said to be lacking is at least one right, and with these rights a descriptor would lack none.
pub fn lacking_rights_are_what_to_add()
    ensures some { LackingIsSome }
    ensures enough { LackingIsEnough }
{}

/// The position of each denial is from 1 to the length of the trace.
pub fn denials_are_within()
    ensures { DenialsWithin }
{}

/// The denials of a trace that follows another are those from the state after the first, that many lines later.
/// One step that follows adds what was lacking for it in that state, at the next position.
pub fn denials_in_turn()
    ensures denials { DenialsInTurn }
    ensures one { DenialsOneMore }
{}
