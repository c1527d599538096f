//! The findings of one line, by its rule and by what was known before it (capsicum(4), rights(4)).

ghost use Rattle.std.specs.Prelude.{◌≡◌, ◌≤◌, ◌<◌, ◌+◌, ◌++◌, [], ◌∷◌, length, option_to_list};
ghost use Rattle.cap_machine.specs.Judge.{listed, forbidden, fault, judged, is_excused};

use crate::cell::{Cell, Mode};
use crate::rule::{Check, Checks, Class, LimitWord, Reply, Requirement, Rule};
use cap_rights::RightSet;
use cap_trace::Fd;
use std::fmt;
use std::marker::Model;

/// What is wrong with a line.
#[derive(Clone, Copy, Debug, PartialEq, Eq)]
pub enum Finding {
    /// A call succeeded in capability mode that capability mode forbids.
    Forbidden,
    /// A call was refused for capability mode outside it, or one that capability mode allows.
    ModeRefusal,
    /// A call succeeded on this descriptor, which lacks these rights.
    Missing(Fd, RightSet),
    /// A limit gave this descriptor these rights, which it didn't hold.
    Expanded(Fd, RightSet),
    /// A call succeeded on this descriptor, which is closed.
    Closed(Fd),
    /// A call was refused for lack of rights that its descriptors hold.
    Refusal,
}

/// A finding, and the position of its line in the trace, from 1.
#[derive(Clone, Copy, Debug, PartialEq, Eq)]
pub struct Found {
    /// The position of the line.
    pub at: usize,
    /// What is wrong with it.
    pub finding: Finding,
}

/// What is said of one line: a list of at most three findings, in the order in which a report has them.
#[derive(Drop)]
pub struct Verdict {
    findings: [Finding; 3],
    count: usize,
}

impl Model for Verdict {
    ghost use Rattle.std.specs.Prelude.{◌≤◌, List, take};
    ghost use Rattle.cap_machine.specs.declared.verdict.Finding.{Finding};

    ghost Value = { List Finding };

    ghost view = { λ v. take v.count v.findings };

    ghost invariant = { λ v. v.count ≤ 3 };
}

impl Verdict {
    /// Nothing is said.
    pub fn silent() -> Verdict
        ensures { result ≡ [] }
    {
        Verdict {
            findings: [Finding::Forbidden; 3],
            count: 0,
        }
    }

    /// The findings, in order.
    pub fn as_slice(&self) -> &[Finding]
        ensures findings { result.now ≡ self.now }
        ensures few { length self.now ≤ 3 }
    {
        &self.findings[..self.count]
    }

    /// How many findings there are: at most three.
    pub fn len(&self) -> usize
        ensures count { result ≡ length self.now }
        ensures few { result ≤ 3 }
    {
        self.as_slice().len()
    }

    /// Adds a finding at the end, where there is one.
    fn add(&mut self, finding: Option<Finding>)
        requires room { length self.old < 3 }
        ensures added { self.new ≡ self.old ++ option_to_list finding }
        ensures one { length self.new ≤ length self.old + 1 }
    {
        if let Some(finding) = finding {
            self.findings[self.count] = finding;
            self.count += 1;
        }
    }

    fn only(finding: Finding) -> Verdict
        ensures { result ≡ finding ∷ [] }
    {
        let mut verdict = Verdict::silent();
        verdict.add(Some(finding));
        verdict
    }
}

/// The list of its findings.
impl fmt::Debug for Verdict {
    fn fmt<W: fmt::Write>(&self, f: &mut fmt::Formatter<W>) -> fmt::Result {
        write!(f, "{:?}", self.as_slice())
    }
}

/// What is said of a call that succeeded, by its class.
fn forbidden_of(class: Class, mode: Mode) -> Option<Finding>
    ensures { option_to_list result ≡ forbidden class mode }
{
    match (class, mode) {
        (Class::Forbidden, Mode::Inside) => Some(Finding::Forbidden),
        _ => None,
    }
}

/// What is said of one check of a call that succeeded.
fn fault_of(word: LimitWord, check: &Check, cell: Cell) -> Option<Finding>
    ensures { option_to_list result ≡ fault word check.now cell }
{
    match cell {
        Cell::Unknown => None,
        Cell::Closed => Some(Finding::Closed(check.fd)),
        Cell::Held(held, _) => {
            if held.has_all(&check.needs) {
                None
            } else {
                let lacking = check.needs.minus(&held);
                Some(match word {
                    LimitWord::Missing => Finding::Missing(check.fd, lacking),
                    LimitWord::Expanded => Finding::Expanded(check.fd, lacking),
                })
            }
        }
    }
}

fn is_excused_by(excuse: Option<RightSet>, cell: Cell) -> bool
    ensures { result ≡ is_excused excuse cell }
{
    match (excuse, cell) {
        (Some(excuse), Cell::Held(held, _)) => held.has_all(&excuse),
        _ => false,
    }
}

fn judge_success(requirement: &Requirement, mode: Mode, cells: &[Cell]) -> Verdict
    requires one_each { length cells.now ≡ length (listed requirement.now.checks) }
    requires success { requirement.now.reply ≡ Reply.Success }
    ensures { result ≡ judged requirement.now mode cells.now }
{
    let mut verdict = Verdict::silent();
    verdict.add(forbidden_of(requirement.class, mode));
    match &requirement.checks {
        Checks::Nothing => {}
        Checks::One(a) => verdict.add(fault_of(requirement.word, a, cells[0])),
        Checks::Two(a, b) => {
            verdict.add(fault_of(requirement.word, a, cells[0]));
            verdict.add(fault_of(requirement.word, b, cells[1]));
        }
    }
    verdict
}

fn judge_refusal(requirement: &Requirement, mode: Mode, cells: &[Cell]) -> Verdict
    requires one_each { length cells.now ≡ length (listed requirement.now.checks) }
    requires refused { requirement.now.reply ≡ Reply.NotCapable }
    ensures { result ≡ judged requirement.now mode cells.now }
{
    let excused = match &requirement.checks {
        Checks::Nothing => false,
        Checks::One(a) => is_excused_by(a.excuse, cells[0]),
        Checks::Two(a, b) => {
            is_excused_by(a.excuse, cells[0]) && is_excused_by(b.excuse, cells[1])
        }
    };
    if excused && (!requirement.at || mode == Mode::Outside) {
        Verdict::only(Finding::Refusal)
    } else {
        Verdict::silent()
    }
}

impl Requirement {
    /// What is said of a line with this requirement, in this mode and with the cell of each check in order. It takes no
    /// memory.
    pub fn judge(&self, mode: Mode, cells: &[Cell]) -> Verdict
        requires one_each { length cells.now ≡ length (listed self.now.checks) }
        ensures { result ≡ judged self.now mode cells.now }
    {
        match self.reply {
            Reply::Success => judge_success(self, mode, cells),
            Reply::NotCapable => judge_refusal(self, mode, cells),
            Reply::NotPermitted => {
                if mode == Mode::Outside || self.class == Class::Allowed {
                    Verdict::only(Finding::ModeRefusal)
                } else {
                    Verdict::silent()
                }
            }
            Reply::Other => Verdict::silent(),
        }
    }
}

/// What is said of a line with this rule, in this mode and with the cell of each check in order. It takes no memory.
///
/// What is known of a descriptor's close-on-exec flag makes no difference.
pub fn judge(rule: &Rule<'_>, mode: Mode, cells: &[Cell]) -> Verdict
    requires one_each { length cells.now ≡ length (listed rule.now.requirement.checks) }
    ensures { result ≡ judged rule.now.requirement mode cells.now }
{
    rule.requirement.judge(mode, cells)
}
