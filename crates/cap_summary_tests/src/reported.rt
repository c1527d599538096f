//! Where something is found in worked traces.

use crate::traces::{Parts, sum_of};
use cap_machine::{Found, Profile, Start};
use cap_summary::{Summary, report_range, resolve_range};
use cap_tree::NoMemory;
use std::alloc::Global;
use std::test::Fail;

/// Two limits and an lseek, which lacks CAP_SEEK.
const SEEK: Parts<'static> = &[
    ("100 cap_rights_limit(6,CAP_READ|CAP_SEEK) RET 0", 1),
    ("100 cap_rights_limit(6,CAP_READ) RET 0", 1),
    ("100 lseek(6) RET 0", 1),
];

/// A limit, and 300 writes to copies of the descriptor.
pub const COPIES: Parts<'static> = &[
    ("100 cap_rights_limit(3,CAP_READ) RET 0", 1),
    ("100 dup(3) RET 4\n100 write(4) RET 1", 300),
];

/// A trace, the first and the last position that are asked for, and where something is found.
type Row = (Parts<'static>, usize, usize, &'static [usize]);

static FOUND: [Row; 7] = [
    (&[], 1, 9, &[]),
    (SEEK, 1, 9, &[3]),
    (SEEK, 1, 2, &[]),
    (SEEK, 0, 0, &[]),
    (SEEK, 3, 2, &[]),
    (COPIES, 300, 309, &[301, 303, 305, 307, 309]),
    (COPIES, 600, 700, &[601]),
];

/// Whether something is found at just these positions.
fn are_at(found: &[Found], positions: &[usize]) -> bool {
    found.len() == positions.len() && found.iter().zip(positions).all(|(one, at)| one.at == *at)
}

/// Whether something is found in a summary at just the positions of a row.
fn has_findings(
    alloc: Global,
    whole: &Summary,
    start: &Start,
    row: &Row,
) -> Result<bool, NoMemory> {
    let found = resolve_range(alloc, whole, start, row.1, row.2)?;
    let is_right = are_at(&found, row.3);
    drop(found);
    let report = report_range(alloc, whole, start, row.1, row.2)?;
    Ok(is_right && are_at(&report.found, row.3))
}

/// Whether something is found in the trace of a row at just its positions.
fn is_found(alloc: Global, row: &Row) -> Result<bool, Fail> {
    let whole = sum_of(alloc, Profile::Two, row.0)?;
    Ok(has_findings(alloc, &whole, &Start::unknown(alloc), row)?)
}

#[test]
fn a_range_has_its_findings(rt: HostRuntime) -> Result<(), Fail> {
    for row in &FOUND {
        assert!(rt; is_found(rt.alloc(), row)?);
    }
    Ok(())
}
