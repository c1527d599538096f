//! What one line asks of the cells before it.

ghost use Rattle.std.specs.Prelude.{All, false, if◌then◌else◌, length, map, true, ◌&&◌, ◌||◌, ◌≡◌, ◌≤◌};
ghost use Rattle.cap_summary.specs.{Check, LimitWord, State, declared.key.Key.Key, fault, faults, findings_of, list_any};
ghost use Rattle.cap_summary.specs.{listed};
ghost use Rattle.cap_summary.specs.Asks.{AreWithin, AskWithin, any_holds, asked_holds, holds, is_refusal, refusals_in};
ghost use Rattle.cap_summary.specs.Asks.{AgreeOn, AgreeOnLine, asks_in, asks_of, has_any, has_kind, is_lacked, lacks};
ghost use Rattle.cap_summary.specs.Names.{ChecksWithin, RequirementWithin, Names};
ghost use Rattle.cap_summary.specs.Keys.{Cells, cells_of, mode_cell};

use crate::{Ask, Key, Kinds, UpToThree};
use cap_machine::{Check, Checks, Class, Reply, Requirement};
use cap_rights::RightSet;
use cap_trace::{Fd, Pid};

/// Where something is found in a line.
#[derive(Clone, Copy)]
pub enum LineAsks {
    /// In every state.
    Always,
    /// Where one of these holds.
    Where(UpToThree),
    /// Where none of these holds: a refusal is wrongful unless a right is lacked.
    Unless(UpToThree),
}

/// The cell of the mode of a process has one of these kinds, if that is asked.
#[inline(always)]
fn of_mode(me: Pid, asked: bool, kinds: Kinds) -> UpToThree
    ensures holds { (s : State)
        → any_holds (cells_of s) (asks_of result) ≡ (asked && has_kind kinds (mode_cell (s.mode me))) }
    ensures one { length (asks_of result) ≤ 1 }
    ensures names { (names : Names) → names.pids me ≡ true → AreWithin names (asks_of result) }
{
    let mut asks = UpToThree::none();
    if asked {
        asks.push(Ask {
            pid: me,
            key: Key::Mode,
            kinds,
            lacking: Kinds::NONE,
            rights: RightSet::none(),
        });
    }
    asks
}

/// A descriptor has one of these kinds, or lacks some of the rights.
#[inline(always)]
fn lacking(me: Pid, fd: Fd, kinds: Kinds, rights: &RightSet) -> Ask
    ensures holds { (cells : Cells) → holds cells result
        ≡ (has_kind kinds (cells me (Key.Fd fd)) || lacks rights.now (cells me (Key.Fd fd))) }
    ensures at { (result.pid ≡ me) × (result.key ≡ Key.Fd fd) }
    ensures names { (names : Names) → names.pids me ≡ true → names.fds fd ≡ true → AskWithin names result }
{
    Ask {
        pid: me,
        key: Key::Fd(fd),
        kinds,
        lacking: Kinds::HELD,
        rights: *rights,
    }
}

/// A call that succeeded lacked the rights that a check needs. One that was refused may have lacked those with which that is
/// wrongful; where it never is, any cell may.
#[inline(always)]
fn of_check(me: Pid, check: &Check, refused: bool) -> Ask
    ensures holds { (word : LimitWord) (cells : Cells)
        → holds cells result ≡ is_lacked refused word check.now (cells me (Key.Fd check.now.fd)) }
    ensures same { refused ≡ false → (word : LimitWord) (s r : Cells) → AgreeOn s r result
        → fault word check.now (s me (Key.Fd check.now.fd)) ≡ fault word check.now (r me (Key.Fd check.now.fd)) }
    ensures names { (names : Names) → names.pids me ≡ true → names.fds check.now.fd ≡ true
        → AskWithin names result }
{
    if !refused {
        return lacking(me, check.fd, Kinds::CLOSED, &check.needs);
    }
    match &check.excuse {
        None => lacking(me, check.fd, Kinds::ALL, &check.needs),
        Some(excuse) => lacking(me, check.fd, Kinds::UNHELD, excuse),
    }
}

/// What is asked of the mode, and of the cell of each check.
#[inline(always)]
fn with_checks(mode: UpToThree, me: Pid, checks: &Checks, refused: bool) -> UpToThree
    requires { length (asks_of mode) ≤ 1 }
    ensures holds { (word : LimitWord) (s : State) → any_holds (cells_of s) (asks_of result) ≡ (any_holds (cells_of s) (asks_of mode)
        || list_any (λ (check : Check). is_lacked refused word check (s.cell me check.fd)) (listed checks.now)) }
    ensures mode { (s r : Cells) → All (AgreeOn s r) (asks_of result) → All (AgreeOn s r) (asks_of mode) }
    ensures same { refused ≡ false → (word : LimitWord) (s r : State)
        → All (AgreeOn (cells_of s) (cells_of r)) (asks_of result)
        → faults word (listed checks.now) (map (λ (check : Check). s.cell me check.fd) (listed checks.now))
        ≡ faults word (listed checks.now) (map (λ (check : Check). r.cell me check.fd) (listed checks.now)) }
    ensures names { (names : Names) → names.pids me ≡ true → ChecksWithin names checks.now
        → AreWithin names (asks_of mode) → AreWithin names (asks_of result) }
{
    let mut asks = mode;
    match checks {
        Checks::Nothing => {}
        Checks::One(a) => asks.push(of_check(me, a, refused)),
        Checks::Two(a, b) => {
            asks.push(of_check(me, a, refused));
            asks.push(of_check(me, b, refused));
        }
    }
    asks
}

impl LineAsks {
    /// What a line with this requirement of process `me` asks.
    pub fn of_line(me: Pid, requirement: &Requirement) -> LineAsks
        ensures holds { (s : State) → asked_holds (cells_of s) result ≡ has_any (findings_of requirement.now me s) }
        ensures same { (s r : State) → AgreeOnLine (cells_of s) (cells_of r) result
            → findings_of requirement.now me s ≡ findings_of requirement.now me r }
        ensures refusals { refusals_in result ≤ (if is_refusal requirement.now.reply then 1 else 0) }
        ensures names { (names : Names) → RequirementWithin names me requirement.now
            → AreWithin names (asks_in result) }
    {
        match (requirement.reply, requirement.class) {
            (Reply::Success, class) => {
                let mode = of_mode(me, matches!(class, Class::Forbidden), Kinds::CLOSED);
                LineAsks::Where(with_checks(mode, me, &requirement.checks, false))
            }
            (Reply::NotCapable, _) => match &requirement.checks {
                Checks::Nothing => LineAsks::Where(UpToThree::none()),
                checks => {
                    let mode = of_mode(me, requirement.at, Kinds::UNHELD);
                    LineAsks::Unless(with_checks(mode, me, checks, true))
                }
            },
            (Reply::NotPermitted, Class::Allowed) => LineAsks::Always,
            (Reply::NotPermitted, _) => LineAsks::Where(of_mode(me, true, Kinds::CLEAR)),
            (Reply::Other, _) => LineAsks::Where(UpToThree::none()),
        }
    }
}
