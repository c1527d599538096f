//! The text of where a cell and a mode come from: a line for each link, newest first, and one for the start.
ghost use Rattle.std.specs.Prelude.{◌≡◌, ◌++◌, codes, length, OnOk};
ghost use Rattle.cap_machine.specs.Provenance.{cell_chain_of, mode_chain_of};
ghost use Rattle.cap_session.specs.Code.Explained.{IsAt, CellStands, ModeStands};
ghost use Rattle.cap_session.specs.Explaining.{numbered, link_line, start_line, cell_end_line, cell_lines};
ghost use Rattle.cap_session.specs.Explaining.{cell_word, mode_word, mode_end_line, mode_lines};

use crate::trace::Trace;
use crate::wording::{mode_word, put_between, put_cell};
use cap_machine::{Cell, CellEnd, CellProvenance, Mode, ModeEnd, ModeProvenance, NoMemory};
use cap_trace::{Fd, write_line};
use itoa::Buffer;

/// Appends a position and the line there.
pub fn put_numbered<T: Trace>(out: &mut Vec<u8>, trace: &T, position: usize) -> Result<(), NoMemory>
    requires { IsAt (length (T.lines trace.now)) position }
    ensures { OnOk result (out.new.items ≡ out.old.items ++ numbered (T.lines trace.now) position) }
{
    put_between(out, b"", position as u64, b" ")?;
    write_line(trace.line_at(position), out)?;
    out.extend_from_slice(b"\n")?;
    Ok(())
}

/// Appends the subject of a chain, a position, and the line there.
fn put_link<T: Trace>(out: &mut Vec<u8>, of: &[u8], trace: &T, at: usize) -> Result<(), NoMemory>
    requires { IsAt (length (T.lines trace.now)) at }
    ensures { OnOk result (out.new.items ≡ out.old.items ++ link_line of.now (T.lines trace.now) at) }
{
    out.extend_from_slice(of)?;
    out.extend_from_slice(b" ")?;
    put_numbered(out, trace, at)
}

/// Appends the subject of a chain of cells, and the cell at the start.
fn put_cell_start(out: &mut Vec<u8>, of: &[u8], cell: &Cell) -> Result<(), NoMemory>
    ensures { OnOk result (out.new.items ≡ out.old.items ++ start_line of.now (cell_word cell.now)) }
{
    out.extend_from_slice(of)?;
    out.extend_from_slice(b" start ")?;
    put_cell(out, cell)?;
    out.extend_from_slice(b"\n")?;
    Ok(())
}

/// Appends the mode at the start.
fn put_mode_start(out: &mut Vec<u8>, mode: Mode) -> Result<(), NoMemory>
    ensures { OnOk result (out.new.items ≡ out.old.items ++ start_line (codes "mode") (mode_word mode)) }
{
    out.extend_from_slice(b"mode start ")?;
    out.extend_from_slice(mode_word(mode))?;
    out.extend_from_slice(b"\n")?;
    Ok(())
}

/// Appends the line for the start, where a chain of cells leads there.
fn put_cell_end(out: &mut Vec<u8>, of: &[u8], end: &CellEnd) -> Result<(), NoMemory>
    ensures { OnOk result (out.new.items ≡ out.old.items ++ cell_end_line of.now end.now) }
{
    match end {
        CellEnd::Given(_) => Ok(()),
        CellEnd::Start(_, _, cell) => put_cell_start(out, of, cell),
    }
}

/// Appends the line for the start, where a chain of modes leads there.
fn put_mode_end(out: &mut Vec<u8>, end: &ModeEnd) -> Result<(), NoMemory>
    ensures { OnOk result (out.new.items ≡ out.old.items ++ mode_end_line end.now) }
{
    match end {
        ModeEnd::Given(_) => Ok(()),
        ModeEnd::Start(_, mode) => put_mode_start(out, *mode),
    }
}

/// Appends where the cell of a descriptor comes from.
pub fn put_cell_origin<T: Trace>(
    out: &mut Vec<u8>,
    trace: &T,
    fd: Fd,
    provenance: &CellProvenance,
) -> Result<(), NoMemory>
    requires { CellStands (length (T.lines trace.now)) (cell_chain_of provenance.now) }
    ensures { OnOk result
        (out.new.items ≡ out.old.items ++ cell_lines (T.lines trace.now) fd (cell_chain_of provenance.now)) }
{
    let mut buffer = Buffer::new();
    let of = buffer.format(fd).as_bytes();
    let links = provenance.links.as_slice();
    for link in links {
        put_link(out, of, trace, link.at)?;
    }
    put_cell_end(out, of, &provenance.end)
}

/// Appends where the mode of the process comes from.
pub fn put_mode_origin<T: Trace>(
    out: &mut Vec<u8>,
    trace: &T,
    provenance: &ModeProvenance,
) -> Result<(), NoMemory>
    requires { ModeStands (length (T.lines trace.now)) (mode_chain_of provenance.now) }
    ensures { OnOk result
        (out.new.items ≡ out.old.items ++ mode_lines (T.lines trace.now) (mode_chain_of provenance.now)) }
{
    for link in provenance.links.as_slice() {
        put_link(out, b"mode", trace, link.at)?;
    }
    put_mode_end(out, &provenance.end)
}
