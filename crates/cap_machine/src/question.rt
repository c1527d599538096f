//! What a checker is asked about a trace.

ghost use Rattle.std.specs.Prelude.{◌≡◌, ◌≤◌, ◌++◌, IsTrue, IfOk, OnOk};
ghost use Rattle.cap_machine.specs.Questions.{line_count, line_text, LineHasNoEntry, last_text};
ghost use Rattle.cap_machine.specs.Code.Table.{state_of};

use crate::denying::was_let_through;
use crate::report::{put_count, put_denial_count, put_denials, put_verdict};
use crate::table::Table;
use cap_rights::NoMemory;
use cap_trace::LineRef;

/// What a checker is asked about a trace.
#[derive(Clone, Copy, Debug, PartialEq, Eq)]
pub enum Question {
    /// Its findings: which answers disagree with what is known.
    Findings,
    /// What was lacking for each line that errno 93 or 94 refused.
    Denials,
}

impl Question {
    /// Appends what is said of the line at a position, and answers how many lines that is.
    pub(crate) fn put_line(
        self,
        out: &mut Vec<u8>,
        at: usize,
        line: &LineRef<'_>,
        table: &Table,
    ) -> Result<usize, NoMemory>
        ensures few { IfOk result (λ count. count ≤ 3) }
        ensures count { IfOk result (λ count. count ≡ line_count self line.now (state_of table.now)) }
        ensures text { OnOk result
            (out.new.items ≡ out.old.items ++ line_text self at line.now (state_of table.now)) }
    {
        match self {
            Question::Findings => put_verdict(out, at, line, &table.findings_by_rule(line)),
            Question::Denials => put_denials(out, at, line, &table.denied_by_rule(line)),
        }
    }

    /// Whether nothing is said of a line, where that is seen without its rule.
    #[inline(always)]
    pub(crate) fn has_no_entry(self, line: &LineRef<'_>, table: &Table) -> bool
        ensures { IsTrue result → LineHasNoEntry self line.now (state_of table.now) }
    {
        match self {
            Question::Findings => table.has_no_finding(line),
            Question::Denials => was_let_through(line),
        }
    }

    /// Appends the last line, with how many were said.
    pub(crate) fn put_last(self, out: &mut Vec<u8>, count: usize) -> Result<(), NoMemory>
        ensures { OnOk result (out.new.items ≡ out.old.items ++ last_text self count) }
    {
        match self {
            Question::Findings => put_count(out, count),
            Question::Denials => put_denial_count(out, count),
        }
    }
}
