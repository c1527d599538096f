//! What texts say: the lines of a trace, and rights. Where memory has run out there are no lines, and what is asked for
//! doesn't hold.

use cap_rights::{RightSet, parse_rights};
use cap_trace::{Line, parse_line};
use std::alloc::Global;

/// Adds the line that is read from a text, and says whether it could.
fn add_line(alloc: Global, lines: &mut Vec<Line>, text: &[u8]) -> bool {
    match parse_line(alloc, text) {
        Ok(line) => lines.push(line).is_ok(),
        Err(_) => false,
    }
}

/// The lines of a trace.
pub fn lines_of(alloc: Global, trace: &[u8]) -> Option<Vec<Line>> {
    let mut lines = Vec::new(alloc);
    for text in trace.split(|byte| *byte == b'\n') {
        if !add_line(alloc, &mut lines, text) {
            return None;
        }
    }
    Some(lines)
}

/// The rights that a text names, or none.
pub fn rights_of(text: &[u8]) -> RightSet {
    match parse_rights(text) {
        Ok(rights) => rights,
        Err(_) => RightSet::none(),
    }
}
