//! Loading: the lines of a trace are kept for a session, through the same code that reads a trace for a check.
ghost use Rattle.std.specs.Prelude.{None, ◌≡◌, [], length, IfOk};
ghost use Rattle.cap_session.specs.Limits.{most_lines};
ghost use Rattle.cap_session.specs.Session.{LoadingState, IsKept, lines_of};
ghost use Rattle.cap_tree.specs.Run.{values};

use crate::entries::TraceSink;
use crate::limits::MOST_LINES;
use crate::refused::Refused;
use crate::session::{Session, Setting};
use crate::steps::step_of;
use cap_machine::{NoMemory, Profile, Start, Step};
use cap_trace::LineRef;
use std::alloc::Global;
use std::marker::Model;
use std::rc::Rc;

/// The lines of a trace in a profile, as many as a trace may have, for a session that takes them over at the end.
#[derive(Drop)]
pub struct Loading {
    alloc: Global,
    profile: Profile,
    steps: Vec<Rc<Step>>,
}

impl Model for Loading {
    ghost Value = { LoadingState };

    ghost view = { λ l. record { profile = l.profile; trace = lines_of (values l.steps.items) } };

    ghost invariant = { λ l. IsKept l.profile most_lines (values l.steps.items) };
}

impl Loading {
    /// One that holds no line, in a profile.
    pub fn new(alloc: Global, profile: Profile) -> Loading
        ensures { (result.profile ≡ profile) × (result.trace ≡ []) }
    {
        Loading {
            alloc,
            profile,
            steps: Vec::new(alloc),
        }
    }

    /// A session of the lines from a start, which holds as many as a trace may have.
    pub fn session(self, start: Start) -> Result<Session, Refused>
        ensures setting { IfOk result
            (λ session. session.setting ≡ record { profile = self.profile; start = start }) }
        ensures trace { IfOk result (λ session. session.trace ≡ self.trace) }
        ensures limit { IfOk result (λ session. session.limit ≡ most_lines) }
        ensures base { IfOk result (λ session. session.base ≡ None) }
    {
        let profile = self.profile;
        let mut session = Session::with_setting(
            self.alloc,
            MOST_LINES,
            Setting { profile, start },
        )?;
        session.load_steps(self.steps)?;
        Ok(session)
    }
}

impl TraceSink for Loading {
    ghost keeps = { λ loading inquiry entries. (loading.profile ≡ inquiry.profile) × (loading.trace ≡ entries) };

    ghost lines_of = { λ loading. length loading.trace };

    fn count(&self) -> usize {
        self.steps.len()
    }

    fn keep(&mut self, alloc: Global, text: &[u8], line: &LineRef<'_>) -> Result<(), NoMemory> {
        let line = line.to_line(alloc, text)?;
        let step = step_of(alloc, self.profile, line)?;
        self.steps.push(step)?;
        Ok(())
    }
}
