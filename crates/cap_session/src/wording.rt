//! Findings, denials, cells and modes in words.
ghost use Rattle.std.specs.Prelude.{◌≡◌, ◌++◌, decimal, OnOk};
ghost use Rattle.cap_machine.specs.DenialReport.{denial_words};
ghost use Rattle.cap_machine.specs.Report.{finding_words, line_of_words};
ghost use Rattle.cap_session.specs.Explaining.{cell_word, mode_word};

use cap_machine::{Cell, Denial, Finding, Mode, NoMemory, put_denial_words, put_finding_words};
use cap_rights::write_rights;
use cap_trace::put_number;

/// Appends a number, with a text before it and one after it.
pub fn put_between(
    out: &mut Vec<u8>,
    before: &[u8],
    number: u64,
    beyond: &[u8],
) -> Result<(), NoMemory>
    ensures { OnOk result (out.new.items ≡ out.old.items ++ (before.now ++ (decimal number ++ beyond.now))) }
{
    out.extend_from_slice(before)?;
    put_number(out, number)?;
    out.extend_from_slice(beyond)?;
    Ok(())
}

/// Appends the word of a finding, what belongs to it, and a line feed.
pub fn put_found(out: &mut Vec<u8>, finding: &Finding) -> Result<(), NoMemory>
    ensures { OnOk result (out.new.items ≡ out.old.items ++ line_of_words (finding_words finding.now)) }
{
    put_finding_words(out, finding)?;
    out.extend_from_slice(b"\n")?;
    Ok(())
}

/// Appends the word of a denial, what belongs to it, and a line feed.
pub fn put_denied(out: &mut Vec<u8>, denial: &Denial) -> Result<(), NoMemory>
    ensures { OnOk result (out.new.items ≡ out.old.items ++ line_of_words (denial_words denial.now)) }
{
    put_denial_words(out, denial)?;
    out.extend_from_slice(b"\n")?;
    Ok(())
}

/// Appends a cell, as a start text spells it.
pub fn put_cell(out: &mut Vec<u8>, cell: &Cell) -> Result<(), NoMemory>
    ensures { OnOk result (out.new.items ≡ out.old.items ++ cell_word cell.now) }
{
    match cell {
        Cell::Unknown => out.extend_from_slice(b"unknown")?,
        Cell::Closed => out.extend_from_slice(b"closed")?,
        Cell::Held(rights, _) => write_rights(rights, out)?,
    }
    Ok(())
}

/// A mode, as a start text spells it.
pub fn mode_word(mode: Mode) -> &'static [u8]
    ensures { result.now ≡ mode_word mode }
{
    match mode {
        Mode::Inside => b"in",
        Mode::Outside => b"out",
        Mode::Unsure => b"unsure",
    }
}
