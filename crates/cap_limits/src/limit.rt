//! The least rights of one descriptor.

ghost use Rattle.std.specs.Prelude.{◌≡◌, IfOk, List, map};
ghost use Rattle.std.specs.List.{All};
ghost use Rattle.cap_machine.specs.declared.step.Step.{Step};
ghost use Rattle.cap_limits.specs.Limits.{IsLimit};
ghost use Rattle.cap_limits.specs.Code.LiveRights.{AreLive};
ghost use Rattle.cap_limits.specs.Code.Wanted.{wanted};
ghost use Rattle.cap_limits.specs.Limits.{row_of, least_of, AreInOrder};
ghost use Rattle.cap_limits.specs.Code.Rows.{option_rows, held_row, held_rows};
ghost use Rattle.cap_machine.specs.State.{start_state};

use crate::live::LiveRights;
use cap_machine::{Cell, Machine, OnExec};
use cap_rights::{NoMemory, RightSet};
use cap_trace::{Fd, Pid};
use std::alloc::Global;
use std::collections::BTreeSet;

/// A descriptor and rights by name: what cap_rights_limit(2) is asked for.
#[derive(Clone, Copy, Debug, PartialEq, Eq)]
pub struct Limit {
    /// The descriptor.
    pub fd: Fd,
    /// The rights, without FULL.
    pub rights: RightSet,
}

/// Those of the rights that a descriptor holds which later lines need of it, by name.
pub(crate) fn least_rights(held: &RightSet, needed: &RightSet) -> RightSet
    ensures { result ≡ least_of held.now needed.now }
{
    held.meet(needed).without_full()
}

/// The limit of a descriptor, where it is held.
fn limit_of(machine: &Machine, live: &LiveRights, pid: Pid, fd: Fd) -> Option<Limit>
    ensures { option_rows result ≡ held_row (start_state machine.now) (wanted live.now) pid fd }
{
    match machine.cell(pid, fd) {
        Cell::Held(rights, flag) => Some(Limit {
            fd,
            rights: least_rights(&rights, &live.needed(pid, fd, flag)),
        }),
        _ => None,
    }
}

/// The limit of each of these descriptors of a process that is held, in rising order: before the lines that `live` has
/// passed, by what `machine` knows there. It names only rights that are held and live.
///
/// `NoMemory` when out of memory.
pub fn limits_among(
    alloc: Global,
    machine: &Machine,
    live: &LiveRights,
    pid: Pid,
    fds: BTreeSet<Fd>,
) -> Result<Vec<Limit>, NoMemory>
    ensures rows { IfOk result (λ limits. map row_of limits.items
        ≡ held_rows (start_state machine.now) (wanted live.now) pid fds.keys) }
    ensures limits { IfOk result (λ limits. (later : List Step) → AreLive live.now later
        → All (IsLimit (start_state machine.now) later pid) (map row_of limits.items)) }
    ensures in_order { IfOk result (λ limits. AreInOrder (map row_of limits.items)) }
{
    let mut limits = Vec::with_capacity(alloc, fds.len())?;
    let mut rest = fds;
    while let Some(fd) = rest.pop_first() {
        if let Some(limit) = limit_of(machine, live, pid, fd) {
            limits.push(limit)?;
        }
    }
    Ok(limits)
}
