//! The lines of a trace as the steps that a tree takes: each with its profile, and shared; and copies of the lines of such
//! a tree.
ghost use Rattle.std.specs.Prelude.{◌≡◌, IfOk};
ghost use Rattle.cap_machine.specs.Steps.{step, steps};
ghost use Rattle.cap_session.specs.Session.{lines_of};
ghost use Rattle.cap_tree.specs.Run.{values};

use cap_machine::{NoMemory, Profile, Step};
use cap_summary::Summary;
use cap_trace::{Line, write_line};
use cap_tree::Tree;
use std::alloc::Global;
use std::rc::Rc;

/// The step of a line in a profile.
pub fn step_of(alloc: Global, profile: Profile, line: Line) -> Result<Rc<Step>, NoMemory>
    ensures { IfOk result (λ shared. shared.value ≡ step profile line) }
{
    Ok(Rc::new(alloc, Step { profile, line })?)
}

/// The steps of lines in a profile.
pub fn steps_of(
    alloc: Global,
    profile: Profile,
    lines: Vec<Line>,
) -> Result<Vec<Rc<Step>>, NoMemory>
    ensures { IfOk result (λ shared. values shared.items ≡ steps profile lines.items) }
{
    let mut shared = Vec::with_capacity(alloc, lines.len())?;
    for line in lines {
        shared.push(step_of(alloc, profile, line)?)?;
    }
    Ok(shared)
}

/// A copy of a line.
fn copy_of(alloc: Global, line: &Line) -> Result<Line, NoMemory>
    ensures { IfOk result (λ copy. copy ≡ line.now) }
{
    let mut text = Vec::new(alloc);
    write_line(line, &mut text)?;
    line.view().to_line(alloc, text.as_slice())
}

/// Copies of the lines of a tree.
pub fn copies_of(alloc: Global, tree: &Tree<Summary>) -> Result<Vec<Line>, NoMemory>
    ensures { IfOk result (λ lines. lines.items ≡ lines_of tree.now) }
{
    let mut lines = Vec::new(alloc);
    for step in tree.iter() {
        let line = copy_of(alloc, &step.line)?;
        lines.push(line)?;
    }
    Ok(lines)
}
