//! The text of a report, of what changed in one, and of denials, of trees of steps.
ghost use Rattle.std.specs.Prelude.{◌≡◌, ◌≤◌, ◌++◌, length, flat_map, codes, IfOk, OnOk};
ghost use Rattle.cap_machine.specs.DenialReport.{denial_report};
ghost use Rattle.cap_machine.specs.Report.{report_line, last_line};
ghost use Rattle.cap_session.specs.Changes.{gone_line, new_line};
ghost use Rattle.cap_session.specs.Limits.{most_lines};
ghost use Rattle.cap_session.specs.Session.{IsIn, StandWithin};
ghost use Rattle.cap_session.specs.Settings.{state_before};

use crate::changes::Changes;
use crate::session::Setting;
use cap_machine::{Checker, Found, NoMemory, put_count, put_finding};
use cap_summary::Summary;
use cap_tree::Tree;
use std::alloc::Global;

/// Appends a line for each finding, with that step of the tree that is at its position, and with these bytes before it.
fn put_lines(
    text: &mut Vec<u8>,
    before: &[u8],
    tree: &Tree<Summary>,
    found: &[Found],
) -> Result<(), NoMemory>
    requires { StandWithin (length tree.now) found.now }
    ensures { OnOk result
        (text.new.items ≡ text.old.items ++ flat_map (λ one. before.now ++ report_line tree.now one) found.now) }
{
    for one in found {
        let step = tree.get(one.at - 1);
        text.extend_from_slice(before)?;
        put_finding(text, one.at, &step.line.view(), &one.finding)?;
    }
    Ok(())
}

/// A line for each finding, with that step of the tree that is at its position, and how many they are.
pub fn text_of(alloc: Global, tree: &Tree<Summary>, found: &[Found]) -> Result<Vec<u8>, NoMemory>
    requires { StandWithin (length tree.now) found.now }
    ensures { IfOk result (λ text. text.items
        ≡ flat_map (report_line tree.now) found.now ++ last_line (length found.now)) }
{
    let mut text = Vec::new(alloc);
    put_lines(&mut text, b"", tree, found)?;
    put_count(&mut text, found.len())?;
    Ok(text)
}

/// A line for each finding, each as one that came, and how many they are.
pub fn all_new(alloc: Global, tree: &Tree<Summary>, found: &[Found]) -> Result<Vec<u8>, NoMemory>
    requires { StandWithin (length tree.now) found.now }
    ensures { IfOk result (λ text. text.items
        ≡ codes "all\n" ++ (flat_map (new_line tree.now) found.now ++ last_line (length found.now))) }
{
    let mut text = Vec::from_slice(alloc, b"all\n")?;
    put_lines(&mut text, b"+ ", tree, found)?;
    put_count(&mut text, found.len())?;
    Ok(text)
}

/// A line for each finding that went, with that step of the tree then that is at its position; one for each that came, with
/// the tree now; and how many findings there are.
pub fn changed(
    alloc: Global,
    before: &Tree<Summary>,
    now: &Tree<Summary>,
    changes: &Changes,
    count: usize,
) -> Result<Vec<u8>, NoMemory>
    requires went { StandWithin (length before.now) changes.now.went.items }
    requires came { StandWithin (length now.now) changes.now.came.items }
    ensures { IfOk result (λ text. text.items
        ≡ flat_map (gone_line before.now) changes.now.went.items
        ++ (flat_map (new_line now.now) changes.now.came.items ++ last_line count)) }
{
    let mut text = Vec::new(alloc);
    put_lines(&mut text, b"- ", before, &changes.went)?;
    put_lines(&mut text, b"+ ", now, &changes.came)?;
    put_count(&mut text, count)?;
    Ok(text)
}

/// The denials of the steps of a tree, all of the profile of this setting, from its start: a line for each, and their number.
pub fn denials_of(
    alloc: Global,
    setting: &Setting,
    tree: &Tree<Summary>,
) -> Result<Vec<u8>, NoMemory>
    requires few { length tree.now ≤ most_lines }
    requires in_profile { IsIn setting.now.profile tree.now }
    ensures { IfOk result (λ text. text.items ≡ denial_report (state_before setting.now) tree.now) }
{
    let mut checker = Checker::from_start(alloc, setting.profile, &setting.start)?.for_denials();
    for step in tree.iter() {
        checker.line(&step.line)?;
    }
    checker.report()
}
