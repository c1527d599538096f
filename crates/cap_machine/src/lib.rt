//! The machine: what is known of the descriptors and modes of each process after the lines of a trace, and what is said
//! of each line.
//!
//! A line is judged by its rule ([`rule_of`], [`judge`]), with the mode and the cells that are known before it, and
//! then changes what is known by what it records. What a trace doesn't show is unknown, and nothing is said against it.
//!
//! [`check`] answers what is found in a whole trace; a [`Checker`] takes its lines one by one and answers the report.
//! [`denials`] answers what was lacking for each line that errno 93 or 94 refused, and so does a checker that is asked
//! for it ([`Checker::for_denials`]). All begin from a start, which says what is known of each process before the first
//! line ([`Start`]). [`explain`] answers which lines what is said of one line rests on.
//!
//! ```
//! let mut checker = Checker::new(alloc, Profile::One);
//! for text in ["100 @start(0)", "100 cap_rights_limit(0,CAP_READ) RET 0", "100 write(0) RET 5"] {
//!     checker.line(&parse_line(alloc, text.as_bytes())?)?;
//! }
//! assert!(!checker.is_clean());
//! let report = checker.report()?;
//! assert_eq!(report.as_slice(), b"3 100 write missing 0 CAP_WRITE\nfindings 1\n");
//! ```
//!
//! There are two profiles. In profile 1 nothing is known of a process's descriptors after a successful exec. Profile 2
//! follows each descriptor's close-on-exec flag ([`OnExec`]): an exec closes those with the flag and keeps those
//! without it, and closefrom(2) closes the descriptors from its argument up.
#![tactic(auto)]

mod cell;
mod cells;
mod checker;
mod checking;
mod composed;
mod denial;
mod denial_laws;
mod denying;
mod effects;
mod errno;
mod explaining;
mod flags;
mod laws;
mod machine;
mod needs;
mod places;
mod provenance;
mod provenance_laws;
mod question;
mod report;
mod requirements;
mod rule;
mod rules;
mod start;
mod step;
mod table;
mod touched;
mod verdict;
mod walks;

pub use cap_rights::NoMemory;
pub use cell::{Cell, HeldOp, Mode, OnExec, Op, Profile};
pub use checker::Checker;
pub use checking::check;
pub use denial::{Denial, Denied, LineDenials};
pub use denial_laws::{
    denials_are_within, denials_in_turn, explained_denials_are_right,
    lacking_rights_are_what_to_add, refused_lines_are_denied, wrong_refusals_are_unexplained,
};
pub use denying::denials;
pub use effects::{effect_of_close, effect_of_line, keeps_cells};
pub use explaining::{Explanation, explain};
pub use laws::{
    no_alarm_lost, positions_are_within, profiles_agree, rules_name_what_stands_there,
    touches_what_it_names, traces_in_turn,
};
pub use machine::Machine;
pub use provenance::{CellEnd, CellLink, CellProvenance, ModeEnd, ModeLink, ModeProvenance};
pub use provenance_laws::{
    chains_are_enough, chains_skip_no_line, mode_matters_where_it_decides, named_lines_matter,
};
pub use question::Question;
pub use report::{
    put_count, put_denial, put_denial_count, put_denial_words, put_finding, put_finding_words,
};
pub use requirements::{requirement_of_fd_call, requirement_of_line};
pub use rule::{Check, Checks, Class, Effect, LimitWord, Reply, Requirement, Rule};
pub use rules::rule_of;
pub use start::Start;
pub use step::Step;
pub use touched::{Touched, Turned};
pub use verdict::{Finding, Found, Verdict, judge};
pub use walks::{CellWalk, ModeWalk, provenance_of_cell, provenance_of_mode, walks_may_leave_out};
