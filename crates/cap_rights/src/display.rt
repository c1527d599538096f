//! How a set of rights is printed: as its text, so that `println!` and a failed test name the rights.

ghost use Rattle.std.specs.Prelude.{Some, ◌++◌, codes};
ghost use Rattle.std.specs.List.{join_with_byte};
ghost use Rattle.cap_rights.specs.Text.{bar, held_names, text};

use crate::bits::RightBits;
use crate::set::RightSet;
use bitflags::Flags;
use std::fmt;

/// The names of the rights that a set holds, with bars between them.
#[derive(Clone, Copy)]
struct Names(RightSet);

impl fmt::Display for Names {
    ghost output = { λ names. Some (join_with_byte bar (held_names names.0)) };

    fn fmt<W: fmt::Write>(&self, f: &mut fmt::Formatter<W>) -> fmt::Result {
        let flags = RightBits::flags();
        let mut separator = "";
        'rights: for right in 0..63 {
            if self.0.holds(right) {
                f.write_str(separator)?;
                f.write_str(flags[right as usize].name)?;
                separator = "|";
            }
        }
        Ok(())
    }
}

/// The text that `write_rights` writes, as `CAP_READ|CAP_SEEK`.
impl fmt::Display for RightSet {
    ghost output = { λ rights. Some (text rights) };

    #[tactic(auto, unfolding(crate::specs::Text::text))]
    fn fmt<W: fmt::Write>(&self, f: &mut fmt::Formatter<W>) -> fmt::Result {
        if *self == RightSet::all() {
            return f.write_str("ALL");
        }
        if *self == RightSet::none() {
            return f.write_str("NONE");
        }
        write!(f, "{}", Names(*self))
    }
}

/// The text in brackets, as `RightSet(CAP_READ|CAP_SEEK)`.
impl fmt::Debug for RightSet {
    ghost debug_output = { λ rights. Some (codes "RightSet(" ++ text rights ++ codes ")") };

    fn fmt<W: fmt::Write>(&self, f: &mut fmt::Formatter<W>) -> fmt::Result {
        write!(f, "RightSet({self})")
    }
}
