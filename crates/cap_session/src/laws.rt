//! Laws of texts and of scripts: how the input is cut never matters, a refused line is refused whatever follows, and a
//! script's reports are those of its edits; of explanations; and of the script that `limits` answers. Each function does
//! nothing: its contract is what it says.
ghost use Rattle.cap_session.specs.Laws.{BeginningDecides, GoodIsReported, BadIsRefused, PiecesAgree};
ghost use Rattle.cap_session.specs.Laws.{ExplainsWhatIsReported};
ghost use Rattle.cap_session.specs.ScriptLaws.{ScriptReportsWhatEditsGive, ScriptLeavesWhatEditsGive};
ghost use Rattle.cap_session.specs.ScriptLaws.{EachReportIsOfItsTrace};
ghost use Rattle.cap_session.specs.LimitTextLaws.{TracesAreSpelled, StartsAreSpelled, LimitsBeforeAreAccepted};
ghost use Rattle.cap_session.specs.LimitTextLaws.{MakerLimitsAreAccepted, LimitsBeforeAreEnough, MakerLimitsAreEnough};
ghost use Rattle.cap_session.specs.LimitTextLaws.{LimitsBeforeAreLeast, MakerLimitsAreLeast, EnteringBeforeIsForbidden};

/// The first refused line of a beginning is that of the text, whatever follows.
pub fn beginning_decides()
    ensures { BeginningDecides }
{}

/// Any pieces give the same: where a call that asks for findings or denials comes to an answer, it is that of the whole
/// text that its reader had, however the text was cut and however far it was read.
pub fn pieces_agree()
    ensures { PiecesAgree }
{}

/// Where the text was read to its end and no line is refused, such a call writes the report or the denials, unless memory
/// runs out or the writer fails. So a good trace is never refused.
pub fn good_is_reported()
    ensures { GoodIsReported }
{}

/// Where a line is refused, such a call answers with that line, unless the writer fails. Out of memory is never
/// answered in its place.
pub fn bad_is_refused()
    ensures { BadIsRefused }
{}

/// After the lines of any edits a script's `report` is replied to with the report of checking anew the trace which the
/// accepted edits give, unless memory runs out for it; and each edit with what it answers.
pub fn script_reports_what_edits_give()
    ensures { ScriptReportsWhatEditsGive }
{}

/// Whatever the lines of a script are, they leave the trace that the edits among them leave, one after the other:
/// comments, unknown commands, lines that are too long, and `show`, `count` and `report` change nothing.
pub fn script_leaves_what_edits_give()
    ensures { ScriptLeavesWhatEditsGive }
{}

/// Each `report` in a script is replied to with the report of checking anew the trace that the edits before it leave,
/// unless memory runs out for it.
pub fn each_report_is_of_its_trace()
    ensures { EachReportIsOfItsTrace }
{}

/// What an explanation finds in a line is what the check of the whole trace finds at its position, in order.
pub fn explains_what_is_reported()
    ensures { ExplainsWhatIsReported }
{}

/// What was read of a text can be spelled: each line of a trace, and each descriptor and each set of rights of a start.
/// The laws below are of such traces and starts.
pub fn read_texts_are_spelled()
    ensures trace { TracesAreSpelled }
    ensures start { StartsAreSpelled }
{}

/// `edit` accepts each line of the script of limits, while the trace has room and memory is there. Where it accepts all,
/// the trace has the lines of the script at their places.
pub fn limits_script_is_accepted()
    ensures before { LimitsBeforeAreAccepted }
    ensures makers { MakerLimitsAreAccepted }
{}

/// Limits are enough: with the script in it, a trace has only findings that it had without.
pub fn limits_script_is_enough()
    ensures before { LimitsBeforeAreEnough }
    ensures makers { MakerLimitsAreEnough }
{}

/// Limits are least: with any right less in one of them, some line has a finding that names the right, which it hadn't.
pub fn limits_script_is_least()
    ensures before { LimitsBeforeAreLeast }
    ensures makers { MakerLimitsAreLeast }
{}

/// Where the script says which line is in the way of capability mode, that line is forbidden once the process enters.
pub fn entering_before_is_forbidden()
    ensures { EnteringBeforeIsForbidden }
{}
