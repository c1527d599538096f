//! Traces: checked as they come from a reader, with the report to a writer ([`check_stream`]); kept, edited line by
//! line and reported when asked ([`Session`]); and worked on by a script of commands, with a reply to each
//! ([`edit_stream`]).
//!
//! After any edits a report is that of checking the edited trace anew ([`Session::report_after`]).
//!
//! ```
//! let mut session = Session::new(alloc, 10)?;
//! session.insert(1, b"100 @start(0,3)")?;
//! session.insert(2, b"100 cap_rights_limit(0,CAP_READ) RET 0")?;
//! session.insert(3, b"100 write(0) RET 5")?;
//! assert_eq!(session.report()?, b"3 100 write missing 0 CAP_WRITE\nfindings 1\n");
//! session.delete(2)?;
//! assert_eq!(session.report()?, b"findings 0\n");
//! ```
#![tactic(auto)]

mod chains;
mod changes;
mod check;
mod command;
mod counted;
mod devices;
mod edit;
mod editing;
mod entries;
mod explained;
mod explaining;
mod from_start;
mod last_report;
mod laws;
mod limits;
mod limits_text;
mod line_buffer;
mod line_ends;
mod lines;
mod loading;
mod origins;
mod outcome;
mod read;
mod refused;
mod replies;
mod report;
mod script;
mod session;
mod short_text;
mod start_fields;
mod start_text;
mod steps;
mod trace;
mod wording;
mod write;

pub use check::{check_stream, check_stream_as};
pub use command::number_of;
pub use counted::Counted;
pub use devices::{Failed, Sink, Source};
pub use edit::{Edit, accepted_edits_give, inserted_stands, no_edit_asks_for_memory};
pub use editing::{edit_stream, edit_stream_as, edit_stream_from_as};
pub use explained::ExplainedLine;
pub use explaining::{explain_stream, limits_stream};
pub use from_start::{check_stream_from, check_stream_from_as, denials_stream};
pub use laws::{
    bad_is_refused, beginning_decides, each_report_is_of_its_trace, entering_before_is_forbidden,
    explains_what_is_reported, good_is_reported, limits_script_is_accepted,
    limits_script_is_enough, limits_script_is_least, pieces_agree, read_texts_are_spelled,
    script_leaves_what_edits_give, script_reports_what_edits_give,
};
pub use limits::{LONGEST_LINE, LONGEST_PIECE, LONGEST_SCRIPT_LINE, MOST_LINES};
pub use outcome::{ExplainOutcome, Outcome};
pub use refused::Refused;
pub use session::{EditOutcome, Session, Setting};
pub use start_text::{StartFault, parse_start};
