//! The rule of a line.

ghost use Rattle.std.specs.Prelude.{true, ◌≡◌, ℕ};
ghost use Rattle.cap_machine.specs.Rule.{requirement};
ghost use Rattle.cap_machine.specs.Steps.{step};
ghost use Rattle.cap_machine.specs.Touch.{touch, turn};
ghost use Rattle.cap_machine.specs.Effect.{IsWithin, effect_touch, effect_turn, is_on_table};
ghost use Rattle.cap_machine.specs.Named.{is_table_step};

use crate::cell::Profile;
use crate::effects::effect_of_line;
use crate::requirements::requirement_of_line;
use crate::rule::Rule;
use cap_trace::LineRef;

/// The rule of a line in a profile: what [`requirement_of_line`] and [`effect_of_line`](crate::effect_of_line) answer.
///
/// The requirement follows rights(4) and cap_enter(2); the effect follows what the line records, close(2) and
/// cap_rights_limit(2) among others, whatever is said of the line.
// Inlined: a large value that is returned is copied by each function that it goes through.
#[inline(always)]
pub fn rule_of<'a>(profile: Profile, line: &LineRef<'a>) -> Rule<'a>
    ensures requirement { result.requirement ≡ requirement line.now }
    // The effect is that of `effect_of_line`.
    ensures cells { (p f : ℕ) → effect_touch result.effect line.now.pid p f ≡ touch (step profile line.now) p f }
    ensures modes { (p : ℕ) → effect_turn result.effect line.now.pid p ≡ turn (step profile line.now) p }
    ensures within { IsWithin result.effect }
    ensures tables { is_on_table result.effect ≡ true → is_table_step (step profile line.now) ≡ true }
{
    Rule {
        requirement: requirement_of_line(line),
        effect: effect_of_line(profile, line),
    }
}
