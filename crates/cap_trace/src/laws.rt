//! Laws of reading, beyond what the contract of each call says. Each function does nothing: its contract is what it
//! says.

ghost use Rattle.cap_trace.specs.Parsing.{OneLine, ReadingIsSpelling, WrittenIsRead};
ghost use Rattle.cap_trace.specs.Rewriting.{OnlyRightsAreRewritten};
ghost use Rattle.cap_trace.specs.Spoiled.{LongLineExactly, PidExactly, RightOnlyOfRights, SpoiledArgument};
ghost use Rattle.cap_trace.specs.Spoiled.{SpoiledAnswer};

/// The fault of a line is that of the field that is wrong.
pub fn faults_are_of_their_fields()
    // The line is too long exactly where it has more than 1,024 bytes.
    ensures too_long { LongLineExactly }
    // The pid is wrong exactly where the bytes before the first space spell none.
    ensures pid { PidExactly }
    // A right is wrong only in a limit, in a text that names no rights.
    ensures right { RightOnlyOfRights }
    // A good line with one argument spoiled has the fault of that argument.
    ensures argument { SpoiledArgument }
    // A good line of a call with its answer spoiled has the fault of the answer.
    ensures answer { SpoiledAnswer }
{}

/// Bytes spell at most one line.
pub fn one_line()
    ensures { OneLine }
{}

/// Reading from the left finds exactly the line that the bytes spell.
pub fn reading_is_spelling()
    ensures { ReadingIsSpelling }
{}

/// Of each line that bytes spell, the canonical text is read as that line again.
pub fn written_is_read()
    ensures { WrittenIsRead }
{}

/// The canonical text of a line is the text that was read, byte for byte; only the rights of a `cap_rights_limit`
/// may be spelled in another way.
pub fn only_rights_are_rewritten()
    ensures { OnlyRightsAreRewritten }
{}
