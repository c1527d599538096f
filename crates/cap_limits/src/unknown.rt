//! What later lines need of unknown descriptors.

ghost use Rattle.std.specs.Prelude.{◌≡◌, ◌<◌, ◌^◌, IfOk, map};
ghost use Rattle.std.specs.List.{All};
ghost use Rattle.std.specs.Ordering.{nat_cmp};
ghost use Rattle.std.specs.BTreeMap.{IsOrdered};
ghost use Rattle.cap_limits.specs.declared.limit.Limit.{Limit};
ghost use Rattle.cap_limits.specs.Limits.{row_of};
ghost use Rattle.cap_limits.specs.Code.Rows.{option_rows};
ghost use Rattle.cap_machine.specs.State.{start_state};
ghost use Rattle.cap_limits.specs.Code.Unknown.{unknown_row, unknown_rows};

use crate::limit::{Limit, least_rights};
use crate::live::fd_rights::FdRights;
use cap_machine::{Cell, Machine};
use cap_rights::{NoMemory, RightSet};
use cap_trace::{Fd, Pid};
use std::alloc::Global;

/// What is needed of a descriptor, where nothing is known of it and something is needed.
fn unknown_limit(machine: &Machine, pid: Pid, fd: Fd, needed: &RightSet) -> Option<Limit>
    ensures { option_rows result ≡ unknown_row ((start_state machine.now).cell pid fd) fd needed.now }
{
    let rights = least_rights(&RightSet::all(), needed);
    match machine.cell(pid, fd) {
        Cell::Unknown if rights != RightSet::none() => Some(Limit { fd, rights }),
        _ => None,
    }
}

/// What is needed of the unknown descriptors of a process, whose flags aren't known either, from what is needed of each
/// by its flag.
pub(crate) fn unknown_limits(
    alloc: Global,
    machine: &Machine,
    pid: Pid,
    needed: FdRights,
) -> Result<Vec<Limit>, NoMemory>
    ensures rows { IfOk result (λ limits. map row_of limits.items
        ≡ unknown_rows ((start_state machine.now).cell pid) needed.map.entries) }
    ensures fds { IfOk result (λ limits. All (λ (limit : Limit). limit.fd < 2 ^ 32) limits.items) }
    ensures sorted { IfOk result (λ limits. IsOrdered nat_cmp needed.map) }
{
    let mut limits = Vec::with_capacity(alloc, needed.map.len())?;
    let mut rest = needed;
    while let Some(entry) = rest.map.pop_first() {
        if let Some(limit) = unknown_limit(machine, pid, entry.0, &entry.1.unsure) {
            limits.push(limit)?;
        }
    }
    Ok(limits)
}
