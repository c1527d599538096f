//! [`LastReport`]: what a session keeps of its last report.
ghost use Rattle.std.specs.Prelude.{◌≡◌, ◌≤◌, ◌<◌, length, IfSome, None, Ok, true, insert, remove, slice_set};
ghost use Rattle.cap_session.specs.Limits.{most_lines};
ghost use Rattle.cap_session.specs.Origins.{most_runs, runs_in, unmoved};

use crate::origins::Origins;
use cap_machine::Found;
use cap_summary::Summary;
use cap_tree::Tree;
use std::alloc::{AllocError, Global};

/// The most runs of lines that are kept.
const MOST_RUNS: usize = 4_096;

/// The last report: the trace of that time, what was found in it, and where each line of today
/// stood in it.
#[derive(Drop)]
pub struct LastReport {
    pub tree: Tree<Summary>,
    pub found: Vec<Found>,
    pub origins: Origins,
}

impl LastReport {
    /// What was found in a trace that is reported now. Nothing where there is no memory to keep it.
    pub fn of(alloc: Global, tree: &Tree<Summary>, found: Vec<Found>) -> Option<LastReport>
        requires { length tree.now ≤ most_lines }
        ensures trace { IfSome result (λ last. last.tree ≡ tree.now) }
        ensures found { IfSome result (λ last. last.found.items ≡ found.items) }
        ensures origins { IfSome result (λ last. last.origins ≡ unmoved (length tree.now)) }
    {
        let origins = Origins::unmoved(alloc, tree.len()).ok()?;
        let tree = tree.clone().ok()?;
        Some(LastReport {
            tree,
            found,
            origins,
        })
    }

    /// The report with where the lines stood behind an edit. Nothing where memory was refused for that, or where the lines
    /// make too many runs.
    fn with(
        tree: Tree<Summary>,
        found: Vec<Found>,
        edited: Result<Origins, AllocError>,
    ) -> Option<LastReport>
        ensures trace { IfSome result (λ last. last.tree ≡ tree) }
        ensures found { IfSome result (λ last. last.found.items ≡ found.items) }
        ensures origins { IfSome result (λ last. edited ≡ Ok last.origins) }
        ensures few { IfSome result (λ last. runs_in last.origins ≤ most_runs) }
    {
        let origins = edited.ok()?;
        if origins.count_runs() > MOST_RUNS {
            return None;
        }
        Some(LastReport {
            tree,
            found,
            origins,
        })
    }

    /// The report behind an edit that put a line in at a place, where it is still kept.
    pub fn inserted(self, at: usize) -> Option<LastReport>
        requires in_range { at ≤ length self.origins }
        requires room { length self.origins < most_lines }
        ensures trace { IfSome result (λ last. last.tree ≡ self.tree) }
        ensures found { IfSome result (λ last. last.found.items ≡ self.found.items) }
        ensures origins { IfSome result (λ last. last.origins ≡ insert self.origins at None) }
        ensures few { IfSome result (λ last. runs_in last.origins ≤ most_runs) }
    {
        let LastReport {
            tree,
            found,
            origins,
        } = self;
        LastReport::with(tree, found, origins.inserted(at))
    }

    /// The report behind an edit that took the line at a place out, where it is still kept.
    pub fn removed(self, at: usize) -> Option<LastReport>
        requires { at < length self.origins }
        ensures trace { IfSome result (λ last. last.tree ≡ self.tree) }
        ensures found { IfSome result (λ last. last.found.items ≡ self.found.items) }
        ensures origins { IfSome result (λ last. last.origins ≡ remove self.origins at) }
        ensures few { IfSome result (λ last. runs_in last.origins ≤ most_runs) }
    {
        let LastReport {
            tree,
            found,
            origins,
        } = self;
        LastReport::with(tree, found, origins.removed(at))
    }

    /// The report behind an edit that put another line at a place, where it is still kept.
    pub fn replaced(self, at: usize) -> Option<LastReport>
        requires { at < length self.origins }
        ensures trace { IfSome result (λ last. last.tree ≡ self.tree) }
        ensures found { IfSome result (λ last. last.found.items ≡ self.found.items) }
        ensures origins { IfSome result (λ last. last.origins ≡ slice_set self.origins at None) }
        ensures few { IfSome result (λ last. runs_in last.origins ≤ most_runs) }
    {
        let LastReport {
            tree,
            found,
            origins,
        } = self;
        LastReport::with(tree, found, origins.replaced(at))
    }

    /// Whether the trace is the one that was reported: no line is new, and none is gone.
    pub fn stands(&self) -> bool
        ensures { result ≡ true → (self.now.origins ≡ unmoved (length self.now.tree)) }
    {
        self.origins.are_unmoved(self.tree.len())
    }
}
