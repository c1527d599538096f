//! A line that was explained ([`ExplainedLine`]), and the text of that.
ghost use Rattle.std.specs.Prelude.{◌≡◌, ◌++◌, ◌↔◌, ◌⊎◌, map, length, option_map, IfOk, OnOk, OnErr, IsTrue, Ok, Err};
ghost use Rattle.std.specs.Prelude.{[]};
ghost use Rattle.std.specs.List.{All};
ghost use Rattle.cap_machine.specs.Explain.{explained_by};
ghost use Rattle.cap_machine.specs.Judge.{listed};
ghost use Rattle.cap_machine.specs.declared.provenance.CellProvenance.{CellProvenance};
ghost use Rattle.cap_machine.specs.Provenance.{cell_chain_of, mode_chain_of};
ghost use Rattle.cap_machine.specs.Rule.{requirement};
ghost use Rattle.cap_machine.specs.State.{start_state};
ghost use Rattle.cap_session.specs.Code.Explained.{CellStands, AnyModeStands, FitsLine};
ghost use Rattle.cap_session.specs.Explaining.{finding_lines, denial_lines, all_cell_lines, any_mode_lines};
ghost use Rattle.cap_session.specs.Explaining.{chain_lines, explained_text, explained_line, said_lines, IsClean};
ghost use Rattle.cap_session.specs.Trace.{counted_lines};

use crate::chains::{put_cell_origin, put_mode_origin, put_numbered};
use crate::entries::count_lines;
use crate::refused::Refused;
use crate::trace::{Trace, is_position};
use crate::wording::{put_denied, put_found};
use cap_machine::{
    CellProvenance, Checks, Explanation, LineDenials, ModeProvenance, NoMemory, Profile, Start,
    Verdict, explain, requirement_of_line,
};
use cap_trace::Line;
use std::alloc::Global;

/// A line that was explained.
#[derive(Debug, Drop)]
pub struct ExplainedLine {
    /// The line, its findings, what was lacking for it, and the lines that these rest on; `docs/EXPLAIN.md` says how.
    pub text: Vec<u8>,
    /// How many lines of the text are of these chains: for each descriptor and for the mode, where it can matter, the lines that
    /// it comes from, and one for the start where they lead there.
    pub links: usize,
    /// Whether it has no finding.
    pub is_clean: bool,
}

/// Appends a line for each finding.
fn put_findings(out: &mut Vec<u8>, verdict: &Verdict) -> Result<(), NoMemory>
    ensures { OnOk result (out.new.items ≡ out.old.items ++ finding_lines verdict.now) }
{
    for finding in verdict.as_slice() {
        put_found(out, finding)?;
    }
    Ok(())
}

/// Appends a line for each denial.
fn put_denials(out: &mut Vec<u8>, denials: &LineDenials) -> Result<(), NoMemory>
    ensures { OnOk result (out.new.items ≡ out.old.items ++ denial_lines denials.now) }
{
    for denial in denials.as_slice() {
        put_denied(out, denial)?;
    }
    Ok(())
}

/// Appends where the cell of each checked descriptor comes from.
fn put_cells<T: Trace>(
    out: &mut Vec<u8>,
    trace: &T,
    checks: &Checks,
    cells: &[CellProvenance],
) -> Result<(), NoMemory>
    requires one_each { length cells.now ≡ length (listed checks.now) }
    requires stand { All (λ (provenance : CellProvenance). CellStands (length (T.lines trace.now))
        (cell_chain_of provenance))
        cells.now }
    ensures { OnOk result (out.new.items ≡ out.old.items
        ++ all_cell_lines (T.lines trace.now) (listed checks.now) (map cell_chain_of cells.now)) }
{
    match checks {
        Checks::Nothing => {}
        Checks::One(a) => put_cell_origin(out, trace, a.fd, &cells[0])?,
        Checks::Two(a, b) => {
            put_cell_origin(out, trace, a.fd, &cells[0])?;
            put_cell_origin(out, trace, b.fd, &cells[1])?;
        }
    }
    Ok(())
}

/// Appends where the mode comes from, where it can matter.
fn put_mode<T: Trace>(
    out: &mut Vec<u8>,
    trace: &T,
    mode: &Option<ModeProvenance>,
) -> Result<(), NoMemory>
    requires { AnyModeStands (length (T.lines trace.now)) (option_map mode_chain_of mode.now) }
    ensures { OnOk result (out.new.items ≡ out.old.items
        ++ any_mode_lines (T.lines trace.now) (option_map mode_chain_of mode.now)) }
{
    match mode {
        Some(provenance) => put_mode_origin(out, trace, provenance),
        None => Ok(()),
    }
}

/// What a line checks.
fn checks_of(line: &Line) -> Checks
    ensures { listed result ≡ listed (requirement line.now).checks }
{
    requirement_of_line(&line.view()).checks
}

/// Appends the line at a position, its findings, and what was lacking for it.
fn put_said<T: Trace>(
    out: &mut Vec<u8>,
    trace: &T,
    position: usize,
    explanation: &Explanation,
) -> Result<(), NoMemory>
    requires { FitsLine (T.lines trace.now) position (explained_by explanation.now) }
    ensures { OnOk result (out.new.items
        ≡ out.old.items ++ said_lines (T.lines trace.now) position (explained_by explanation.now)) }
{
    put_numbered(out, trace, position)?;
    put_findings(out, &explanation.verdict)?;
    put_denials(out, &explanation.denials)
}

/// Appends the lines that this rests on.
fn put_chains<T: Trace>(
    out: &mut Vec<u8>,
    trace: &T,
    position: usize,
    explanation: &Explanation,
) -> Result<(), NoMemory>
    requires { FitsLine (T.lines trace.now) position (explained_by explanation.now) }
    ensures { OnOk result (out.new.items
        ≡ out.old.items ++ chain_lines (T.lines trace.now) position (explained_by explanation.now)) }
{
    let checks = checks_of(trace.line_at(position));
    put_cells(out, trace, &checks, explanation.cells.as_slice())?;
    put_mode(out, trace, &explanation.mode)
}

/// The line at a position with its explanation.
pub fn line_explained<T: Trace>(
    alloc: Global,
    trace: &T,
    position: usize,
    explanation: &Explanation,
) -> Result<ExplainedLine, NoMemory>
    requires { FitsLine (T.lines trace.now) position (explained_by explanation.now) }
    ensures text { IfOk result
        (λ line. line.text.items ≡ explained_text (T.lines trace.now) position (explained_by explanation.now)) }
    ensures links { IfOk result (λ line. line.links
        ≡ counted_lines (chain_lines (T.lines trace.now) position (explained_by explanation.now))) }
    ensures clean { IfOk result (λ line. IsTrue line.is_clean ↔ ((explained_by explanation.now).findings ≡ [])) }
{
    let mut text = Vec::new(alloc);
    put_said(&mut text, trace, position, explanation)?;
    let before = text.len();
    put_chains(&mut text, trace, position, explanation)?;
    let links = count_lines(&text.as_slice()[before..]);
    Ok(ExplainedLine {
        text,
        links,
        is_clean: explanation.verdict.len() == 0,
    })
}

/// The line at a position of a list of lines, explained under a start.
pub fn explain_among(
    alloc: Global,
    profile: Profile,
    start: &Start,
    lines: &Vec<Line>,
    position: usize,
) -> Result<ExplainedLine, Refused>
    ensures text { IfOk result
        (λ line. explained_line (start_state start.now) profile lines.now.items position ≡ Ok line.text.items) }
    ensures clean { IfOk result
        (λ line. IsTrue line.is_clean ↔ IsClean (start_state start.now) profile lines.now.items position) }
    ensures position { (result ≡ Err Refused.Position)
        ↔ (explained_line (start_state start.now) profile lines.now.items position ≡ Err Refused.Position) }
    ensures only { OnErr result ((result ≡ Err Refused.Position) ⊎ (result ≡ Err Refused.Memory)) }
{
    let all = lines.as_slice();
    if !is_position(position, all.len()) {
        return Err(Refused::Position);
    }
    let Some(explanation) = explain(alloc, profile, start, all, position)? else {
        return Err(Refused::Position);
    };
    let line = line_explained(alloc, lines, position, &explanation);
    drop(explanation);
    Ok(line?)
}
