//! [`Checker`]: a trace that comes line by line. It keeps a table of processes, two counts and the text of what it
//! answers, and never a line.

ghost use Rattle.std.specs.Prelude.{◌≡◌, ◌≤◌, ◌*◌, [], ◌∷◌, ◌++◌, ◌<◌, ◌^◌, ◌↔◌, List, IsTrue, IfOk, OnOk};

use crate::cell::Profile;
use crate::question::Question;
use crate::start::Start;
use crate::table::Table;
use cap_rights::NoMemory;
use cap_trace::{Line, LineRef};
use std::alloc::Global;
use std::marker::Model;

/// A check that goes on line by line: what is known after the lines so far, and the text of what was found in them, or
/// of what was lacking where it is asked for the denials. It keeps no line. Its size grows with the processes and
/// descriptors that the lines name, and with that text.
#[derive(Drop)]
pub struct Checker {
    question: Question,
    profile: Profile,
    table: Table,
    lines: usize,
    said: usize,
    text: Vec<u8>,
}

impl Model for Checker {
    ghost use Rattle.std.specs.Prelude.{◌≤◌, ◌*◌};
    ghost use Rattle.cap_machine.specs.Code.Checked.{CheckerState};

    ghost Value = { CheckerState };

    ghost use Rattle.cap_machine.specs.Code.Known.{known};

    ghost view = { λ c. record {
      question = c.question;
      profile = c.profile;
      known = known c.table;
      lines = c.lines;
      said = c.said;
      text = c.text.items;
    } };

    ghost invariant = { λ c. c.said ≤ 3 * c.lines };
}

impl Checker {
    ghost use Rattle.cap_trace.specs.Entry.{Entry};
    ghost use Rattle.cap_machine.specs.declared.cell.Profile.{Profile};
    ghost use Rattle.cap_machine.specs.declared.question.Question.{Question};
    ghost use Rattle.cap_machine.specs.Steps.{steps};
    ghost use Rattle.cap_machine.specs.State.{State, usual};
    ghost use Rattle.cap_machine.specs.Questions.{answer, IsNothing};
    ghost use Rattle.cap_machine.specs.Code.Table.{Keeps};
    ghost use Rattle.cap_machine.specs.State.{start_state};
    ghost use Rattle.cap_machine.specs.Code.Checked.{IsAsked, HasChecked, HasDenied, lines_of};

    /// A checker that was given no line, from the usual start. It takes no memory.
    pub fn new(alloc: Global, profile: Profile) -> Checker
        ensures { HasChecked result profile usual [] }
    {
        Checker::over(alloc, profile, Table::unknown(alloc))
    }

    /// A checker that was given no line, from another start.
    ///
    /// `NoMemory` when out of memory.
    #[tactic(auto, unfolding(crate::specs::State::start_state))]
    pub fn from_start(alloc: Global, profile: Profile, start: &Start) -> Result<Checker, NoMemory>
        ensures { IfOk result (λ checker. HasChecked checker profile (start_state start.now) []) }
    {
        let table = start.table.copy(alloc)?;
        Ok(Checker::over(alloc, profile, table))
    }

    fn over(alloc: Global, profile: Profile, table: Table) -> Checker
        ensures { (s : State) → Keeps table s → HasChecked result profile s [] }
    {
        Checker {
            question: Question::Findings,
            profile,
            table,
            lines: 0,
            said: 0,
            text: Vec::new(alloc),
        }
    }

    /// A checker that is asked for the denials, not the findings: for each line that errno 93 or 94 refused, what was
    /// lacking. It was given no line yet.
    pub fn for_denials(self) -> Checker
        requires { lines_of self ≡ 0 }
        ensures { (profile : Profile) (s : State) → HasChecked self profile s [] → HasDenied result profile s [] }
    {
        let mut checker = self;
        checker.question = Question::Denials;
        checker
    }

    /// How many lines it was given.
    pub fn count(&self) -> usize
        ensures { result ≡ lines_of self.now }
    {
        self.lines
    }

    /// Checks the next line.
    ///
    /// `NoMemory` when out of memory. What the checker then answers isn't promised: drop it.
    pub fn line(&mut self, line: &Line) -> Result<(), NoMemory>
        requires room { lines_of self.old < 2 ^ 60 }
        ensures checked { (question : Question) (profile : Profile) (s : State) (trace : List Entry)
            → IsAsked self.old question profile s trace
            → OnOk result (IsAsked self.new question profile s (trace ++ line.now ∷ [])) }
    {
        self.line_ref(&line.view())
    }

    /// Checks the next line, whose texts lie elsewhere, as [`line`](Checker::line) does.
    ///
    /// A line without findings only moves the table on. Where that isn't seen at once, it goes by its rule.
    ///
    /// `NoMemory` when out of memory. What the checker then answers isn't promised: drop it.
    #[inline(always)]
    pub fn line_ref(&mut self, line: &LineRef<'_>) -> Result<(), NoMemory>
        requires room { lines_of self.old < 2 ^ 60 }
        ensures checked { (question : Question) (profile : Profile) (s : State) (trace : List Entry)
            → IsAsked self.old question profile s trace
            → OnOk result (IsAsked self.new question profile s (trace ++ line.now ∷ [])) }
    {
        if !self.question.has_no_entry(line, &self.table) {
            return self.line_by_rule(&line.copied());
        }
        self.table.apply_line(self.profile, line)?;
        self.lines += 1;
        Ok(())
    }

    /// Checks the next line by its rule, as [`line_ref`](Checker::line_ref) does where it may have something to say.
    #[inline(never)]
    fn line_by_rule(&mut self, line: &LineRef<'_>) -> Result<(), NoMemory>
        requires room { lines_of self.old < 2 ^ 60 }
        ensures checked { (question : Question) (profile : Profile) (s : State) (trace : List Entry)
            → IsAsked self.old question profile s trace
            → OnOk result (IsAsked self.new question profile s (trace ++ line.now ∷ [])) }
    {
        let at = self.lines + 1;
        let more = self
            .question
            .put_line(&mut self.text, at, line, &self.table)?;
        self.table.apply_by_rule(self.profile, line)?;
        self.lines = at;
        self.said += more;
        Ok(())
    }

    /// Whether nothing was found, or nothing was lacking where it is asked for the denials.
    pub fn is_clean(&self) -> bool
        ensures { (question : Question) (profile : Profile) (s : State) (trace : List Entry)
            → IsAsked self.now question profile s trace
            → (IsTrue result ↔ IsNothing question s (steps profile trace)) }
    {
        self.said == 0
    }

    /// The report of the lines that it was given, or the text of their denials.
    ///
    /// `NoMemory` when out of memory.
    pub fn report(self) -> Result<Vec<u8>, NoMemory>
        ensures { (question : Question) (profile : Profile) (s : State) (trace : List Entry)
            → IsAsked self question profile s trace
            → IfOk result (λ text. text.items ≡ answer question s (steps profile trace)) }
    {
        let mut text = self.text;
        self.question.put_last(&mut text, self.said)?;
        Ok(text)
    }
}
