//! What was lacking for one line that errno 93 or 94 refused, by its rule and by what was known before it (errno(2)).

ghost use Rattle.std.specs.Prelude.{◌≡◌, ◌≤◌, ◌<◌, ◌+◌, ◌++◌, [], ◌∷◌, length, option_to_list};
ghost use Rattle.cap_machine.specs.Judge.{listed};
ghost use Rattle.cap_machine.specs.Denials.{lack, lacks, or_unexplained, denied_with};

use crate::cell::{Cell, Mode};
use crate::rule::{Check, Checks, Class, Reply, Requirement};
use cap_rights::RightSet;
use cap_trace::Fd;
use std::fmt;
use std::marker::Model;

/// What was lacking for a call that errno 93 or 94 refused.
#[derive(Clone, Copy, Debug, PartialEq, Eq)]
pub enum Denial {
    /// Errno 93: this descriptor is held without these rights, which the call needs.
    Lacks(Fd, RightSet),
    /// Errno 94: the process is in capability mode, which doesn't always allow the call.
    Inside,
    /// Nothing that is known explains the errno.
    Unexplained,
}

/// A denial, and the position of its line in the trace, from 1.
#[derive(Clone, Copy, Debug, PartialEq, Eq)]
pub struct Denied {
    /// The position of the line.
    pub at: usize,
    /// What was lacking.
    pub denial: Denial,
}

/// What was lacking for one line: a list of at most two denials, in the order of its descriptors. It is empty for a
/// line that neither errno refused.
#[derive(Drop)]
pub struct LineDenials {
    denials: [Denial; 2],
    count: usize,
}

impl Model for LineDenials {
    ghost use Rattle.std.specs.Prelude.{◌≤◌, List, take};
    ghost use Rattle.cap_machine.specs.declared.denial.Denial.{Denial};

    ghost Value = { List Denial };

    ghost view = { λ v. take v.count v.denials };

    ghost invariant = { λ v. v.count ≤ 2 };
}

impl LineDenials {
    /// Nothing was lacking.
    pub fn none() -> LineDenials
        ensures { result ≡ [] }
    {
        LineDenials {
            denials: [Denial::Unexplained; 2],
            count: 0,
        }
    }

    /// The denials, in order.
    pub fn as_slice(&self) -> &[Denial]
        ensures denials { result.now ≡ self.now }
        ensures few { length self.now ≤ 2 }
    {
        &self.denials[..self.count]
    }

    /// How many denials there are: at most two.
    pub fn len(&self) -> usize
        ensures count { result ≡ length self.now }
        ensures few { result ≤ 2 }
    {
        self.as_slice().len()
    }

    /// Adds a denial at the end, where there is one.
    fn add(&mut self, denial: Option<Denial>)
        requires room { length self.old < 2 }
        ensures added { self.new ≡ self.old ++ option_to_list denial }
        ensures one { length self.new ≤ length self.old + 1 }
    {
        if let Some(denial) = denial {
            self.denials[self.count] = denial;
            self.count += 1;
        }
    }

    fn only(denial: Denial) -> LineDenials
        ensures { result ≡ denial ∷ [] }
    {
        let mut denials = LineDenials::none();
        denials.add(Some(denial));
        denials
    }

    /// These denials; if there is none, that nothing explains the errno.
    fn or_unexplained(self) -> LineDenials
        ensures { result ≡ or_unexplained self }
    {
        if self.count == 0 {
            LineDenials::only(Denial::Unexplained)
        } else {
            self
        }
    }
}

/// The list of its denials.
impl fmt::Debug for LineDenials {
    fn fmt<W: fmt::Write>(&self, f: &mut fmt::Formatter<W>) -> fmt::Result {
        write!(f, "{:?}", self.as_slice())
    }
}

/// What a descriptor that is checked lacks.
fn lack_of(check: &Check, cell: Cell) -> Option<Denial>
    ensures { option_to_list result ≡ lack check.now cell }
{
    match cell {
        Cell::Unknown | Cell::Closed => None,
        Cell::Held(held, _) => {
            if held.has_all(&check.needs) {
                None
            } else {
                Some(Denial::Lacks(check.fd, check.needs.minus(&held)))
            }
        }
    }
}

/// The rights that each checked descriptor lacks, in the order of the checks.
fn lacks_of(checks: &Checks, cells: &[Cell]) -> LineDenials
    requires one_each { length cells.now ≡ length (listed checks.now) }
    ensures { result ≡ lacks (listed checks.now) cells.now }
{
    let mut denials = LineDenials::none();
    match checks {
        Checks::Nothing => {}
        Checks::One(a) => denials.add(lack_of(a, cells[0])),
        Checks::Two(a, b) => {
            denials.add(lack_of(a, cells[0]));
            denials.add(lack_of(b, cells[1]));
        }
    }
    denials
}

impl Requirement {
    /// What was lacking for a line with this requirement, in this mode and with the cell of each check in order. It
    /// takes no memory.
    pub fn denials(&self, mode: Mode, cells: &[Cell]) -> LineDenials
        requires one_each { length cells.now ≡ length (listed self.now.checks) }
        ensures { result ≡ denied_with self.now mode cells.now }
    {
        match self.reply {
            Reply::NotCapable => lacks_of(&self.checks, cells).or_unexplained(),
            Reply::NotPermitted => {
                if mode == Mode::Inside && self.class != Class::Allowed {
                    LineDenials::only(Denial::Inside)
                } else {
                    LineDenials::only(Denial::Unexplained)
                }
            }
            Reply::Success | Reply::Other => LineDenials::none(),
        }
    }
}
