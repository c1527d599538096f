//! Up to which sizes a summary keeps what is known.

use cap_machine::{Profile, Step};
use cap_summary::Summary;
use cap_trace::{parse_line, put_number};
use cap_tree::{Meter, NoMemory, Segment};
use std::alloc::{AllocError, Global};
use std::rc::Rc;
use std::test::Fail;

/// What the lines do, each of which has a number.
#[derive(Clone, Copy)]
enum Lines {
    /// The process of this number makes a pipe: a row and two cells.
    Pipe,
    /// The process of this number closes a descriptor: a row and a cell.
    Close,
    /// The process of this number does nothing that is kept.
    Nothing,
    /// One process copies a descriptor to this one: a cell, and a row for all of them.
    Copy,
}

/// What makes lines, how many times, and whether what is known of them is kept.
type Row = (&'static [Lines], u64, bool);

static ROWS: [Row; 6] = [
    // Of 512 lines 1,024 and 512 rows and cells are kept, and these are three of each.
    (&[Lines::Pipe], 512, true),
    (&[Lines::Pipe], 513, false),
    // At most 8,192 processes.
    (&[Lines::Close, Lines::Nothing], 8_192, true),
    (&[Lines::Close, Lines::Nothing], 8_193, false),
    // At most 131,072 rows and cells, of which one is the row.
    (&[Lines::Copy], 131_071, true),
    (&[Lines::Copy], 131_072, false),
];

/// The text of a line with this number.
fn put_line(text: &mut Vec<u8>, line: Lines, number: u64) -> Result<(), AllocError> {
    match line {
        Lines::Pipe => {
            put_number(text, number)?;
            text.extend_from_slice(b" pipe() RET 3,4")
        }
        Lines::Close => {
            put_number(text, number)?;
            text.extend_from_slice(b" close(3) RET 0")
        }
        Lines::Nothing => {
            put_number(text, number)?;
            text.extend_from_slice(b" getpid() RET 1")
        }
        Lines::Copy => {
            text.extend_from_slice(b"100 dup2(0,")?;
            put_number(text, number)?;
            text.extend_from_slice(b") RET ")?;
            put_number(text, number)
        }
    }
}

/// The steps of lines with these numbers, from 1.
fn steps_of(alloc: Global, lines: &[Lines], count: u64) -> Result<Vec<Rc<Step>>, Fail> {
    let mut steps = Vec::new(alloc);
    for number in 1..=count {
        for kind in lines {
            let mut text = Vec::new(alloc);
            put_line(&mut text, *kind, number)?;
            let line = parse_line(alloc, &text)?;
            let profile = Profile::One;
            steps.push(Rc::new(alloc, Step { profile, line })?)?;
        }
    }
    Ok(steps)
}

/// Whether what is known of these steps is kept.
fn is_kept(alloc: Global, steps: &[Rc<Step>]) -> Result<bool, NoMemory> {
    if steps.is_empty() || steps.len() > 1_000_000 {
        return Err(NoMemory);
    }
    let summary = Summary::sum(alloc, &mut Meter::new(), steps)?;
    Ok(summary.known().is_some())
}

#[test]
fn what_is_known_is_kept_up_to_its_bounds(rt: HostRuntime) -> Result<(), Fail> {
    for (lines, count, kept) in &ROWS {
        let steps = steps_of(rt.alloc(), lines, *count)?;
        assert!(rt; is_kept(rt.alloc(), &steps)? == *kept);
    }
    Ok(())
}
