//! Which descriptors of a process are known by themselves, and not only as one of all others.

ghost use Rattle.std.specs.Prelude.{◌≡◌, ◌↔◌, ℕ, ◌==◌, ◌||◌, true, reverse, OnOk, IfOk};
ghost use Rattle.std.specs.List.{list_any};
ghost use Rattle.std.specs.BTreeSet.{contains};
ghost use Rattle.std.specs.Ordering.{nat_cmp};
ghost use Rattle.cap_trace.specs.Views.{fds_spelled};
ghost use Rattle.cap_machine.specs.declared.cell.Cell.{Cell};
ghost use Rattle.cap_machine.specs.Steps.{steps};
ghost use Rattle.cap_machine.specs.History.{ended};
ghost use Rattle.cap_machine.specs.State.{start_state};
ghost use Rattle.cap_limits.specs.Standing.{Stands, IsHeld};
ghost use Rattle.cap_limits.specs.Code.Singles.{has_fd, is_single, source_of};

use cap_machine::{Cell, Effect, Profile, Start, effect_of_line};
use cap_rights::NoMemory;
use cap_trace::{Fd, Line, Pid, fds_of};
use std::alloc::Global;
use std::collections::BTreeSet;

/// Adds these descriptors.
fn add_all(fds: &mut BTreeSet<Fd>, more: &[Fd]) -> Result<(), NoMemory>
    ensures { OnOk result ((f : ℕ) → has_fd fds.new f ≡ (list_any (λ g. f == g) more.now || has_fd fds.old f)) }
{
    for fd in more {
        fds.insert(*fd)?;
    }
    Ok(())
}

/// Adds descriptors that are listed with their cells.
fn add_listed(fds: &mut BTreeSet<Fd>, cells: &[(Fd, Cell)]) -> Result<(), NoMemory>
    ensures { OnOk result ((f : ℕ) → has_fd fds.new f
        ≡ (list_any (λ (entry : ℕ × Cell). f == entry.0) cells.now || has_fd fds.old f)) }
{
    for entry in cells {
        fds.insert(entry.0)?;
    }
    Ok(())
}

/// Adds the descriptors in the text of a start.
fn add_spelled(alloc: Global, fds: &mut BTreeSet<Fd>, spelled: &[u8]) -> Result<(), NoMemory>
    ensures { OnOk result ((f : ℕ)
        → has_fd fds.new f ≡ (list_any (λ g. f == g) (fds_spelled spelled.now) || has_fd fds.old f)) }
{
    let more = fds_of(alloc, spelled)?;
    add_all(fds, &more)
}

/// Adds the descriptors of a process that an effect of a line of process `me` gives or changes alone, or lists.
fn add_single(
    alloc: Global,
    fds: &mut BTreeSet<Fd>,
    effect: &Effect<'_>,
    me: Pid,
    pid: Pid,
) -> Result<(), NoMemory>
    ensures { OnOk result ((f : ℕ) → has_fd fds.new f ≡ (is_single effect.now me pid f || has_fd fds.old f)) }
{
    if pid != me {
        return Ok(());
    }
    match effect {
        Effect::Start(spelled) => add_spelled(alloc, fds, spelled),
        Effect::Give(fd, _) | Effect::Change(fd, _, _) => add_all(fds, &[*fd]),
        Effect::GiveTwo(first, second, _) => add_all(fds, &[*second, *first]),
        _ => Ok(()),
    }
}

/// The process from which a process has what else it has after an effect of a line of process `me`.
fn source(effect: &Effect<'_>, me: Pid, pid: Pid) -> Pid
    ensures { result ≡ source_of effect.now me pid }
{
    match effect {
        Effect::Fork(child) | Effect::ForkAs(child, _) => { if pid == *child { me } else { pid } }
        _ => pid,
    }
}

/// The descriptors that a process holds after these lines and that are known by themselves. Some that it doesn't hold
/// may be among them.
///
/// It goes through the lines once, from the last one back. `NoMemory` when out of memory.
pub fn standing_fds(
    alloc: Global,
    profile: Profile,
    start: &Start,
    lines: &[Line],
    pid: Pid,
) -> Result<BTreeSet<Fd>, NoMemory>
    ensures { IfOk result (λ fds. (f : ℕ) → IsHeld ((ended (start_state start.now) (steps profile lines.now)).cell pid f)
        → (contains nat_cmp fds f ≡ true) ↔ Stands start.now (reverse (steps profile lines.now)) pid f) }
{
    let mut fds = BTreeSet::new(alloc);
    let mut own = pid;
    let mut rest = lines;
    while let Some((line, earlier)) = rest.split_last() {
        let view = line.view();
        let me = view.pid;
        let effect = effect_of_line(profile, &view);
        add_single(alloc, &mut fds, &effect, me, own)?;
        own = source(&effect, me, own);
        rest = earlier;
    }
    add_listed(&mut fds, start.listed(own))?;
    Ok(fds)
}
