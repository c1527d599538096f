//! [`Session`]: a trace that is edited line by line, and reported when asked.
//!
//! The lines are in a tree with summaries of its parts. An edit makes a few of them anew. Where findings are few, a
//! report goes only into those in which something is found.
ghost use Rattle.std.specs.Prelude.{◌≡◌, ◌+◌, ◌≤◌, ◌<◌, ◌↔◌, ◌⊎◌, [], length, Ok, Err, IsOk, IfOk};
ghost use Rattle.std.specs.Prelude.{OnOk, OnErr, IsOkUnless, IsTrue, ◌*◌, vec_len, insert, remove, slice_set};
ghost use Rattle.std.specs.Prelude.{IfSome, None, Some};
ghost use Rattle.cap_machine.specs.Report.{report};
ghost use Rattle.cap_machine.specs.DenialReport.{denial_report};
ghost use Rattle.cap_machine.specs.State.{start_state};
ghost use Rattle.cap_machine.specs.Steps.{steps};
ghost use Rattle.cap_machine.specs.declared.cell.Profile.TheVariants.{One};
ghost use Rattle.cap_session.specs.Edits.{inserted, deleted, replaced, loaded, edited, after, answers};
ghost use Rattle.cap_session.specs.Explaining.{explained_line, explained_links, IsClean};
ghost use Rattle.cap_session.specs.LimitStreams.{IsLimitsText, IsOutside};
ghost use Rattle.cap_session.specs.Joins.{JoinsAfter};
ghost use Rattle.cap_session.specs.Limits.{most_lines};
ghost use Rattle.cap_session.specs.Shown.{shown, is_range, ranged};
ghost use Rattle.cap_session.specs.Session.{SessionState, RefusesExactly, ran_out, lines_of, lines_at, IsIn};
ghost use Rattle.cap_session.specs.Session.{IsSession, IsLast, base_kept};
ghost use Rattle.cap_session.specs.Settings.{found_by, report_by, state_before, usually};
ghost use Rattle.cap_session.specs.Changes.{changes};
ghost use Rattle.cap_session.specs.Origins.{IsKeptAs, moved, base_of, put_in, taken_out, made_new, origins_after};
ghost use Rattle.cap_summary.specs.Kept.{NameOrRefuseMany};
ghost use Rattle.cap_tree.specs.Bits.{bits};
ghost use Rattle.cap_tree.specs.Run.{values};

use crate::edit::Edit;
use crate::explained::{ExplainedLine, line_explained};
use crate::last_report::LastReport;
use crate::limits_text::{is_outside, limits_among};
use crate::refused::Refused;
use crate::report::{all_new, changed, denials_of, text_of};
use crate::steps::{copies_of, step_of, steps_of};
use crate::trace::is_position;
use cap_machine::{Found, NoMemory, Profile, Start, Step};
use cap_summary::{Earlier, Summary, explain, resolve, resolve_again, resolve_range};
use cap_trace::{Line, parse_line, write_line};
use cap_tree::{Meter, Tree};
use std::alloc::Global;
use std::marker::Model;
use std::rc::Rc;

/// By what a trace is checked: the rules of a profile, and what is known before its first line.
#[derive(Drop)]
pub struct Setting {
    pub profile: Profile,
    pub start: Start,
}

/// The lines of a trace, at most as many as a limit, with the profile and the start by which they are checked.
#[derive(Drop)]
pub struct Session {
    alloc: Global,
    setting: Setting,
    tree: Tree<Summary>,
    joins: u64,
    limit: usize,
    last: Option<LastReport>,
}

impl Model for Session {
    ghost Value = { SessionState };

    ghost view = { λ s. record {
      setting = s.setting;
      trace = lines_of s.tree;
      limit = s.limit;
      joins = s.joins;
      base = base_kept s.last;
    } };

    ghost invariant = { λ s. IsSession s.setting s.limit s.tree s.last };
}

/// What a list of edits gave.
#[derive(Drop)]
pub struct EditOutcome {
    /// What each edit answered, in order.
    pub answers: Vec<Result<usize, Refused>>,
    /// The report of the trace that the edits left; `Memory` where there was no memory for it.
    pub report: Result<Vec<u8>, Refused>,
}

/// Whether a range begins at a line, and ends at that line or after it.
fn is_range(first: usize, last: usize, count: usize) -> bool
    ensures { result ≡ is_range count first last }
{
    1 <= first && first <= last && last <= count
}

impl Session {
    /// A session in profile 1 and from the usual start that holds no lines, and at most `limit` later.
    ///
    /// The limit must be at most [`MOST_LINES`](crate::MOST_LINES). Answers `NoMemory` where there is no memory for a
    /// session.
    pub fn new(alloc: Global, limit: usize) -> Result<Session, NoMemory>
        requires { limit ≤ most_lines }
        ensures { IfOk result
            (λ s. s ≡ (record { setting = usually One; trace = []; limit = limit; joins = 0; base = None })) }
    {
        Session::with_profile(alloc, limit, Profile::One)
    }

    /// A session that holds no lines, at most `limit` later, and checks them in a profile from the usual start.
    ///
    /// The limit must be at most [`MOST_LINES`](crate::MOST_LINES). Answers `NoMemory` where there is no memory for a
    /// session.
    pub fn with_profile(alloc: Global, limit: usize, profile: Profile) -> Result<Session, NoMemory>
        requires { limit ≤ most_lines }
        ensures { IfOk result
            (λ s. s ≡ (record { setting = usually profile; trace = []; limit = limit; joins = 0; base = None })) }
    {
        let start = Start::unknown(alloc);
        Session::with_setting(alloc, limit, Setting { profile, start })
    }

    /// A session that holds no lines, at most `limit` later, and checks them by a profile and from a start.
    ///
    /// The limit must be at most [`MOST_LINES`](crate::MOST_LINES). Answers `NoMemory` where there is no memory for a
    /// session; the start is then dropped.
    pub fn with_setting(alloc: Global, limit: usize, setting: Setting) -> Result<Session, NoMemory>
        requires { limit ≤ most_lines }
        ensures { IfOk result
            (λ s. s ≡ (record { setting = setting; trace = []; limit = limit; joins = 0; base = None })) }
    {
        let mut meter = Meter::new();
        let Ok(tree) = Tree::from_list(alloc, &mut meter, Vec::new(alloc)) else {
            return Err(NoMemory);
        };
        Ok(Session {
            alloc,
            setting,
            tree,
            joins: 0,
            limit,
            last: None,
        })
    }

    /// How many lines the session holds.
    pub fn count(&self) -> usize
        ensures count { result ≡ length self.now.trace }
        ensures within { result ≤ self.now.limit }
    {
        self.tree.len()
    }

    /// Puts a list in place of the trace, and answers its length.
    ///
    /// `Full` where the list is longer than the limit, `Memory` where memory runs out; the list is then dropped.
    pub fn load(&mut self, lines: Vec<Line>) -> Result<usize, Refused>
        ensures accepted { IfOk result
            (λ count. (loaded self.old.limit lines.items ≡ Ok self.new.trace) × (count ≡ length self.new.trace)) }
        ensures refused { RefusesExactly (loaded self.old.limit lines.items) result }
        ensures memory { result ≡ Err Refused.Memory → IsOk (loaded self.old.limit lines.items) }
        ensures done { IsOk (loaded self.old.limit lines.items) → IsOkUnless result Refused.Memory }
        ensures unchanged { OnErr result (self.new ≡ self.old) }
        ensures limit { self.new.limit ≡ self.old.limit }
        ensures setting { self.new.setting ≡ self.old.setting }
        ensures joins { OnOk result (self.new.joins ≤ 2 * length self.new.trace) }
        ensures base { OnOk result (self.new.base ≡ None) }
    {
        if lines.len() > self.limit {
            return Err(Refused::Full);
        }
        let steps = steps_of(self.alloc, self.setting.profile, lines)?;
        Ok(self.load_steps(steps)?)
    }

    /// Puts a list of steps in its profile in place of the trace, and answers its length.
    pub(crate) fn load_steps(&mut self, steps: Vec<Rc<Step>>) -> Result<usize, cap_tree::NoMemory>
        requires few { vec_len steps ≤ self.old.limit }
        requires in_profile { IsIn self.old.setting.profile (values steps.items) }
        ensures trace { OnOk result (self.new.trace ≡ lines_of (values steps.items)) }
        ensures count { IfOk result (λ count. count ≡ length self.new.trace) }
        ensures joins { OnOk result (self.new.joins ≤ 2 * length self.new.trace) }
        ensures base { OnOk result (self.new.base ≡ None) }
        ensures unchanged { OnErr result (self.new ≡ self.old) }
        ensures limit { self.new.limit ≡ self.old.limit }
        ensures setting { self.new.setting ≡ self.old.setting }
    {
        let mut meter = Meter::new();
        let tree = Tree::from_list(self.alloc, &mut meter, steps)?;
        Ok(self.take_over(tree, None, &meter))
    }

    /// Puts a tree in the place of the one that there was, with what is kept of the last report, and answers its length.
    fn take_over(&mut self, tree: Tree<Summary>, last: Option<LastReport>, meter: &Meter) -> usize
        requires in_profile { IsIn self.old.setting.profile tree }
        requires few { length tree ≤ self.old.limit }
        requires last { IfSome last (IsLast self.old.setting tree) }
        ensures trace { self.new.trace ≡ lines_of tree }
        ensures base { self.new.base ≡ base_kept last }
        ensures count { result ≡ length tree }
        ensures joins { self.new.joins ≡ meter.now }
        ensures limit { self.new.limit ≡ self.old.limit }
        ensures setting { self.new.setting ≡ self.old.setting }
    {
        self.tree = tree;
        self.last = last;
        self.joins = meter.joins();
        self.count()
    }

    /// Puts the line that the bytes spell at a position, from 1 to one past the last, and answers the new count.
    /// The lines from there on move up by one.
    ///
    /// It looks for `Position` first, then for `Full`, where the session holds as many lines as its limit, then for
    /// the first fault of the line, and answers `Memory` only where none of these comes.
    pub fn insert(&mut self, position: usize, line: &[u8]) -> Result<usize, Refused>
        ensures accepted { IfOk result (λ count. (inserted self.old.limit self.old.trace position line.now
            ≡ Ok self.new.trace) × (count ≡ length self.new.trace)) }
        ensures refused { RefusesExactly (inserted self.old.limit self.old.trace position line.now) result }
        ensures memory { result ≡ Err Refused.Memory → IsOk (inserted self.old.limit self.old.trace position line.now) }
        ensures done { IsOk (inserted self.old.limit self.old.trace position line.now)
            → IsOkUnless result Refused.Memory }
        ensures unchanged { OnErr result (self.new ≡ self.old) }
        ensures limit { self.new.limit ≡ self.old.limit }
        ensures setting { self.new.setting ≡ self.old.setting }
        ensures joins { OnOk result (self.new.joins ≤ 12 * bits (length self.old.trace + 1) + 12) }
        ensures base { OnOk result (IsKeptAs (moved (put_in position) self.old.base) self.new.base) }
    {
        if !is_position(position, self.count() + 1) {
            return Err(Refused::Position);
        }
        if self.count() >= self.limit {
            return Err(Refused::Full);
        }
        let line = parse_line(self.alloc, line)?;
        self.insert_at(position - 1, line)
    }

    /// Takes the line at a position out, and answers the new count. Those after it move down by one.
    ///
    /// `Position` where there is no such line, and `Memory` where memory runs out.
    pub fn delete(&mut self, position: usize) -> Result<usize, Refused>
        ensures accepted { IfOk result
            (λ count. (deleted self.old.trace position ≡ Ok self.new.trace) × (count ≡ length self.new.trace)) }
        ensures refused { RefusesExactly (deleted self.old.trace position) result }
        ensures memory { result ≡ Err Refused.Memory → IsOk (deleted self.old.trace position) }
        ensures done { IsOk (deleted self.old.trace position) → IsOkUnless result Refused.Memory }
        ensures unchanged { OnErr result (self.new ≡ self.old) }
        ensures limit { self.new.limit ≡ self.old.limit }
        ensures setting { self.new.setting ≡ self.old.setting }
        ensures joins { OnOk result (self.new.joins ≤ 12 * bits (length self.old.trace) + 12) }
        ensures base { OnOk result (IsKeptAs (moved (taken_out position) self.old.base) self.new.base) }
    {
        if !is_position(position, self.count()) {
            return Err(Refused::Position);
        }
        self.remove_at(position - 1)
    }

    /// Puts the line that the bytes spell in place of the one at a position, and answers the count.
    ///
    /// It looks for `Position` first, then for the first fault of the line, and answers `Memory` only where none of
    /// these comes.
    pub fn replace(&mut self, position: usize, line: &[u8]) -> Result<usize, Refused>
        ensures accepted { IfOk result (λ count. (replaced self.old.trace position line.now ≡ Ok self.new.trace)
            × (count ≡ length self.new.trace)) }
        ensures refused { RefusesExactly (replaced self.old.trace position line.now) result }
        ensures memory { result ≡ Err Refused.Memory → IsOk (replaced self.old.trace position line.now) }
        ensures done { IsOk (replaced self.old.trace position line.now) → IsOkUnless result Refused.Memory }
        ensures unchanged { OnErr result (self.new ≡ self.old) }
        ensures limit { self.new.limit ≡ self.old.limit }
        ensures setting { self.new.setting ≡ self.old.setting }
        ensures joins { OnOk result (self.new.joins ≤ 12 * bits (length self.old.trace) + 12) }
        ensures base { OnOk result (IsKeptAs (moved (made_new position) self.old.base) self.new.base) }
    {
        if !is_position(position, self.count()) {
            return Err(Refused::Position);
        }
        let other = parse_line(self.alloc, line)?;
        self.replace_at(position - 1, other)
    }

    /// Puts a line at a place, from 0 to the count.
    fn insert_at(&mut self, at: usize, line: Line) -> Result<usize, Refused>
        requires in_range { at ≤ length self.old.trace }
        requires room { length self.old.trace < self.old.limit }
        ensures trace { OnOk result (self.new.trace ≡ insert self.old.trace at line) }
        ensures base { OnOk result (IsKeptAs (moved (λ origins. insert origins at None) self.old.base) self.new.base) }
        ensures count { IfOk result (λ count. count ≡ length self.new.trace) }
        ensures joins { OnOk result (self.new.joins ≤ 12 * bits (length self.old.trace + 1) + 12) }
        ensures only { IsOkUnless result Refused.Memory }
        ensures unchanged { OnErr result (self.new ≡ self.old) }
        ensures limit { self.new.limit ≡ self.old.limit }
        ensures setting { self.new.setting ≡ self.old.setting }
    {
        let step = step_of(self.alloc, self.setting.profile, line)?;
        let mut meter = Meter::new();
        let tree = self.tree.insert(self.alloc, &mut meter, at, step)?;
        let last = match self.last.take() {
            Some(last) => last.inserted(at),
            None => None,
        };
        Ok(self.take_over(tree, last, &meter))
    }

    /// Takes the line at a place out.
    fn remove_at(&mut self, at: usize) -> Result<usize, Refused>
        requires { at < length self.old.trace }
        ensures trace { OnOk result (self.new.trace ≡ remove self.old.trace at) }
        ensures base { OnOk result (IsKeptAs (moved (λ origins. remove origins at) self.old.base) self.new.base) }
        ensures count { IfOk result (λ count. count ≡ length self.new.trace) }
        ensures joins { OnOk result (self.new.joins ≤ 12 * bits (length self.old.trace) + 12) }
        ensures only { IsOkUnless result Refused.Memory }
        ensures unchanged { OnErr result (self.new ≡ self.old) }
        ensures limit { self.new.limit ≡ self.old.limit }
        ensures setting { self.new.setting ≡ self.old.setting }
    {
        let mut meter = Meter::new();
        let tree = self.tree.remove(self.alloc, &mut meter, at)?;
        let last = match self.last.take() {
            Some(last) => last.removed(at),
            None => None,
        };
        Ok(self.take_over(tree, last, &meter))
    }

    /// Puts a line in place of the one at a place.
    fn replace_at(&mut self, at: usize, line: Line) -> Result<usize, Refused>
        requires { at < length self.old.trace }
        ensures trace { OnOk result (self.new.trace ≡ slice_set self.old.trace at line) }
        ensures base { OnOk result (IsKeptAs (moved (λ origins. slice_set origins at None) self.old.base) self.new.base) }
        ensures count { IfOk result (λ count. count ≡ length self.new.trace) }
        ensures joins { OnOk result (self.new.joins ≤ 12 * bits (length self.old.trace) + 12) }
        ensures only { IsOkUnless result Refused.Memory }
        ensures unchanged { OnErr result (self.new ≡ self.old) }
        ensures limit { self.new.limit ≡ self.old.limit }
        ensures setting { self.new.setting ≡ self.old.setting }
    {
        let step = step_of(self.alloc, self.setting.profile, line)?;
        let mut meter = Meter::new();
        let tree = self.tree.replace(self.alloc, &mut meter, at, step)?;
        let last = match self.last.take() {
            Some(last) => last.replaced(at),
            None => None,
        };
        Ok(self.take_over(tree, last, &meter))
    }

    /// The lines as a tree of steps, each a line with the session's profile, and a summary of them all.
    ///
    /// A tree doesn't change: the next edit puts another in its place.
    pub fn tree(&self) -> &Tree<Summary>
        ensures { result.now ≡ steps self.now.setting.profile self.now.trace }
    {
        &self.tree
    }

    /// How many joins of two summaries the last accepted edit or load counted; 0 where there was none. A run of up to 48
    /// lines is summed up in one go, and counts one join fewer than it has lines.
    ///
    /// After an edit it is at most `12 * bits n + 12`, where n is the count before it, with an inserted line, and
    /// `bits n` the number of its binary digits. After a load of n lines it is at most `2 * n`. A refused edit or load
    /// leaves it as it was.
    pub fn joins(&self) -> u64
        ensures { result ≡ self.now.joins }
    {
        self.joins
    }

    /// What is found in the trace: where anything is, by the last report, where that is kept and edits since touched what
    /// few lines rest on, and else in one pass.
    fn found(&self) -> Result<Vec<Found>, cap_tree::NoMemory>
        ensures { IfOk result (λ found. found.items ≡ found_by self.now.setting self.now.trace) }
    {
        let start = &self.setting.start;
        if let Some(known) = self.tree.summary().known() {
            if !known.finds(start) {
                return Ok(Vec::new(self.alloc));
            }
        }
        if let Some(last) = &self.last {
            let earlier = Earlier {
                summary: last.tree.summary(),
                found: last.found.as_slice(),
                kept: last.origins.runs(),
            };
            if let Some(found) = resolve_again(self.alloc, self.tree.summary(), start, &earlier)? {
                return Ok(found);
            }
        }
        resolve(self.alloc, self.tree.summary(), start)
    }

    /// Keeps what is found in the trace as the last report. Where memory is refused for that, nothing is kept.
    fn keep(&mut self, found: Vec<Found>)
        requires { found.items ≡ found_by self.old.setting self.old.trace }
        ensures base { IsKeptAs (Some (base_of self.old.trace)) self.new.base }
        ensures unchanged { self.new ≡ record self.old { base = self.new.base } }
    {
        self.last = LastReport::of(self.alloc, &self.tree, found);
    }

    /// The report of the trace, checked from its first line under the session's start. It fails only when memory runs out.
    ///
    /// It is kept, so that [`changes`](Session::changes) can tell what changed since. Where there is no memory to keep it,
    /// the report is given all the same.
    pub fn report(&mut self) -> Result<Vec<u8>, Refused>
        ensures report { IfOk result (λ text. text.items ≡ report_by self.old.setting self.old.trace) }
        ensures only { IsOkUnless result Refused.Memory }
        ensures base { OnOk result (IsKeptAs (Some (base_of self.old.trace)) self.new.base) }
        ensures refused { OnErr result (self.new ≡ self.old) }
        ensures unchanged { self.new ≡ record self.old { base = self.new.base } }
    {
        let found = self.found()?;
        let text = text_of(self.alloc, &self.tree, found.as_slice())?;
        self.keep(found);
        Ok(text)
    }

    /// What went and what came in the report since the last one, that of `report` or of this call: a line for each finding
    /// that went, as it was, with its position then, after `- `; one for each that came, with its position now, after `+ `;
    /// and how many there are now. An edit puts in a new line, takes a line out, or makes a line new; the other lines move.
    /// A finding goes with its line, or where the line has other findings now. It fails only when memory runs out.
    ///
    /// Where no last report is kept it answers `all`, and each finding as one that came. None is kept before the first
    /// report, after a load, where memory was refused for it, and once the lines that stood make more than 4,096 runs: lines
    /// that stood one after another at that report, and do so now, are one run.
    pub fn changes(&mut self) -> Result<Vec<u8>, Refused>
        ensures text { IfOk result (λ text. text.items ≡ changes self.old.setting self.old.base self.old.trace) }
        ensures only { IsOkUnless result Refused.Memory }
        ensures base { OnOk result (IsKeptAs (Some (base_of self.old.trace)) self.new.base) }
        ensures refused { OnErr result (self.new ≡ self.old) }
        ensures unchanged { self.new ≡ record self.old { base = self.new.base } }
    {
        let found = self.found()?;
        let text = self.changed_to(found.as_slice())?;
        self.keep(found);
        Ok(text)
    }

    /// The text of what changed since the last report, for what is found now.
    fn changed_to(&self, found: &[Found]) -> Result<Vec<u8>, Refused>
        requires { found.now ≡ found_by self.now.setting self.now.trace }
        ensures text { IfOk result (λ text. text.items ≡ changes self.now.setting self.now.base self.now.trace) }
        ensures only { IsOkUnless result Refused.Memory }
    {
        let Some(last) = &self.last else {
            return Ok(all_new(self.alloc, &self.tree, found)?);
        };
        let changes = last
            .origins
            .changes(self.alloc, last.found.as_slice(), found)?;
        Ok(changed(self.alloc, &last.tree, &self.tree, &changes, found.len())?)
    }

    /// The report of the trace, checked from its first line under another start. It fails only when memory runs out.
    pub fn report_from(&self, start: &Start) -> Result<Vec<u8>, Refused>
        ensures report { IfOk result
            (λ text. text.items ≡ report (start_state start.now) (steps self.now.setting.profile self.now.trace)) }
        ensures only { IsOkUnless result Refused.Memory }
    {
        let found = resolve(self.alloc, self.tree.summary(), start)?;
        Ok(text_of(self.alloc, &self.tree, found.as_slice())?)
    }

    /// What was lacking for each line that errno 93 or 94 refused: a line for each denial, and how many they are. It fails
    /// only when memory runs out.
    pub fn denials(&self) -> Result<Vec<u8>, Refused>
        ensures denials { IfOk result (λ text. text.items
            ≡ denial_report (state_before self.now.setting) (steps self.now.setting.profile self.now.trace)) }
        ensures only { IsOkUnless result Refused.Memory }
    {
        Ok(denials_of(self.alloc, &self.setting, &self.tree)?)
    }

    /// The script of the limits that the trace needs: right after each line that made a descriptor; or before the line at a
    /// position, from 1, of the descriptors of its process. `limits_stream` says more. It copies the lines.
    ///
    /// `Position` where no line is at the position, and `Memory` where memory runs out.
    pub fn limits(&self, at: Option<usize>) -> Result<Vec<u8>, Refused>
        ensures text { IfOk result (λ text. IsLimitsText self.now.setting.profile at self.now.setting.start self.now.trace
            text.items) }
        ensures position { (result ≡ Err Refused.Position) ↔ IsOutside at self.now.trace }
        ensures only { OnErr result ((result ≡ Err Refused.Position) ⊎ (result ≡ Err Refused.Memory)) }
    {
        if is_outside(at, self.count()) {
            return Err(Refused::Position);
        }
        let lines = copies_of(self.alloc, &self.tree)?;
        limits_among(
            self.alloc,
            self.setting.profile,
            &self.setting.start,
            &lines,
            at,
        )
    }

    /// Whether the report of the trace has no finding. Where the last report still stands, that says so. It fails only when
    /// memory runs out, and takes none where something is known of the whole trace: that is, unless the trace names or
    /// refuses much.
    pub(crate) fn is_clean(&self) -> Result<bool, cap_tree::NoMemory>
        ensures clean { IfOk result (λ clean. IsTrue clean ↔ (found_by self.now.setting self.now.trace ≡ [])) }
        ensures few { OnErr result (NameOrRefuseMany (steps self.now.setting.profile self.now.trace)) }
    {
        if let Some(last) = &self.last {
            if last.stands() {
                return Ok(last.found.is_empty());
            }
        }
        self.is_clean_anew()
    }

    /// Whether the report has no finding, whatever the last one was.
    fn is_clean_anew(&self) -> Result<bool, cap_tree::NoMemory>
        ensures clean { IfOk result (λ clean. IsTrue clean ↔ (found_by self.now.setting self.now.trace ≡ [])) }
        ensures few { OnErr result (NameOrRefuseMany (steps self.now.setting.profile self.now.trace)) }
    {
        let start = &self.setting.start;
        let summary = self.tree.summary();
        if let Some(known) = summary.known() {
            return Ok(!known.finds(start));
        }
        let found = resolve(self.alloc, summary, start)?;
        Ok(found.is_empty())
    }

    /// The canonical text of the line at a position, without a line feed.
    ///
    /// `Position` where there is no such line, and `Memory` where memory runs out.
    pub fn show(&self, position: usize) -> Result<Vec<u8>, Refused>
        ensures text { IfOk result (λ text. shown self.now.trace position ≡ Ok text.items) }
        ensures position { (result ≡ Err Refused.Position) ↔ (shown self.now.trace position ≡ Err Refused.Position) }
        ensures only { OnErr result ((result ≡ Err Refused.Position) ⊎ (result ≡ Err Refused.Memory)) }
    {
        if !is_position(position, self.count()) {
            return Err(Refused::Position);
        }
        let mut text = Vec::new(self.alloc);
        write_line(&self.tree.get(position - 1).line, &mut text)?;
        Ok(text)
    }

    /// The findings of the whole check whose positions lie in `first` to `last`, a line each, and how many they are.
    ///
    /// `Position` unless 1 <= `first` <= `last` <= the number of lines, and `Memory` where memory runs out.
    pub fn report_range(&self, first: usize, last: usize) -> Result<Vec<u8>, Refused>
        ensures text { IfOk result (λ text. ranged self.now.setting self.now.trace first last ≡ Ok text.items) }
        ensures position { (result ≡ Err Refused.Position)
            ↔ (ranged self.now.setting self.now.trace first last ≡ Err Refused.Position) }
        ensures only { OnErr result ((result ≡ Err Refused.Position) ⊎ (result ≡ Err Refused.Memory)) }
    {
        if !is_range(first, last, self.count()) {
            return Err(Refused::Position);
        }
        let start = &self.setting.start;
        let found = resolve_range(self.alloc, self.tree.summary(), start, first, last)?;
        Ok(text_of(self.alloc, &self.tree, found.as_slice())?)
    }

    /// The line at a position, what is said of it, and the lines that this rests on.
    ///
    /// `Position` where no line is there, and `Memory` where memory runs out.
    pub fn explain(&self, position: usize) -> Result<ExplainedLine, Refused>
        ensures text { IfOk result (λ line. explained_line (state_before self.now.setting) self.now.setting.profile
            self.now.trace position ≡ Ok line.text.items) }
        ensures links { IfOk result (λ line. explained_links (state_before self.now.setting) self.now.setting.profile
            self.now.trace position ≡ Ok line.links) }
        ensures clean { IfOk result (λ line. IsTrue line.is_clean
            ↔ IsClean (state_before self.now.setting) self.now.setting.profile self.now.trace position) }
        ensures position { (result ≡ Err Refused.Position) ↔ (explained_line (state_before self.now.setting)
            self.now.setting.profile self.now.trace position ≡ Err Refused.Position) }
        ensures only { OnErr result ((result ≡ Err Refused.Position) ⊎ (result ≡ Err Refused.Memory)) }
    {
        if !is_position(position, self.count()) {
            return Err(Refused::Position);
        }
        let start = &self.setting.start;
        let Some(explanation) = explain(self.alloc, self.tree.summary(), start, position)? else {
            return Err(Refused::Position);
        };
        let line = line_explained(self.alloc, &self.tree, position, &explanation);
        drop(explanation);
        Ok(line?)
    }

    /// Makes one edit, as `insert`, `delete` and `replace` do.
    pub fn edit(&mut self, edit: &Edit<'_>) -> Result<usize, Refused>
        ensures accepted { IfOk result (λ count. (edited self.old.limit self.old.trace edit.now ≡ Ok self.new.trace)
            × (count ≡ length self.new.trace)) }
        ensures refused { RefusesExactly (edited self.old.limit self.old.trace edit.now) result }
        ensures memory { result ≡ Err Refused.Memory → IsOk (edited self.old.limit self.old.trace edit.now) }
        ensures done { IsOk (edited self.old.limit self.old.trace edit.now) → IsOkUnless result Refused.Memory }
        ensures unchanged { OnErr result (self.new ≡ self.old) }
        ensures limit { self.new.limit ≡ self.old.limit }
        ensures setting { self.new.setting ≡ self.old.setting }
        ensures joins { OnOk result
            (self.new.joins ≤ 12 * bits (lines_at (length self.old.trace) edit.now) + 12) }
        ensures base { OnOk result (IsKeptAs (moved (origins_after edit.now) self.old.base) self.new.base) }
    {
        match *edit {
            Edit::Insert { position, line } => self.insert(position, line),
            Edit::Delete { position } => self.delete(position),
            Edit::Replace { position, line } => self.replace(position, line),
        }
    }

    /// Makes edits one after the other, and answers what each of them answered. One that is refused leaves the
    /// trace as it was, and the next is made.
    ///
    /// `Memory` where there is no memory for the answers. No edit is made then.
    pub fn apply(&mut self, edits: &[Edit<'_>]) -> Result<Vec<Result<usize, Refused>>, Refused>
        // Each edit was made and has its answer.
        ensures each { IfOk result (λ answered. length answered.items ≡ length edits.now) }
        // The trace is that which the accepted edits give, and each answer is that of its edit.
        ensures trace { IfOk result
            (λ answered. self.new.trace ≡ after self.old.limit self.old.trace edits.now (ran_out answered.items)) }
        ensures answers { IfOk result
            (λ answered. answered.items ≡ answers self.old.limit self.old.trace edits.now (ran_out answered.items)) }
        ensures joins { IfOk result (λ answered. JoinsAfter self.old self.new answered.items) }
        ensures unchanged { OnErr result (self.new ≡ self.old) }
        ensures limit { self.new.limit ≡ self.old.limit }
        ensures setting { self.new.setting ≡ self.old.setting }
        ensures only { IsOkUnless result Refused.Memory }
    {
        let mut answered = Vec::with_capacity(self.alloc, edits.len())?;
        for edit in edits {
            let answer = self.edit(edit);
            answered.push(answer).unwrap();
        }
        Ok(answered)
    }

    /// Makes edits one after the other, as `apply` does, and reports the trace that they leave.
    ///
    /// `Memory` where there is no memory for the answers. No edit is made then.
    pub fn report_after(&mut self, edits: &[Edit<'_>]) -> Result<EditOutcome, Refused>
        // After any edits, the report is that of checking anew the trace which the accepted edits give.
        ensures report { IfOk result (λ r. IfOk r.report (λ text. text.items ≡ report_by self.old.setting
            (after self.old.limit self.old.trace edits.now (ran_out r.answers.items)))) }
        ensures report_only { IfOk result (λ r. IsOkUnless r.report Refused.Memory) }
        ensures each { IfOk result (λ r. length r.answers.items ≡ length edits.now) }
        ensures trace { IfOk result
            (λ r. self.new.trace ≡ after self.old.limit self.old.trace edits.now (ran_out r.answers.items)) }
        ensures answers { IfOk result
            (λ r. r.answers.items ≡ answers self.old.limit self.old.trace edits.now (ran_out r.answers.items)) }
        ensures joins { IfOk result (λ r. JoinsAfter self.old self.new r.answers.items) }
        ensures unchanged { OnErr result (self.new ≡ self.old) }
        ensures limit { self.new.limit ≡ self.old.limit }
        ensures setting { self.new.setting ≡ self.old.setting }
        ensures only { IsOkUnless result Refused.Memory }
    {
        let answers = self.apply(edits)?;
        Ok(EditOutcome {
            answers,
            report: self.report(),
        })
    }
}
