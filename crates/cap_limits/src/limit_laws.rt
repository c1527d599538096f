//! Laws of the rights that are live in a cell: limits to them are enough, and no less would do. Each function does
//! nothing: its contract is what it says.

ghost use Rattle.cap_limits.specs.LimitLaws.{LimitsAreEnough, LimitsAreLeast, BlockedIsForbidden};
ghost use Rattle.cap_limits.specs.LimitLaws.{ScriptsAreLeast, EnteringIsForbidden};
ghost use Rattle.cap_limits.specs.LimitLaws.{AllLimitsAreEnough, AllLimitsAreLeast};

/// Limits to the live rights, put in at one place, are enough: they have no finding, and no later line has a finding
/// that it didn't have without them. So is cap_enter(2) after them, where no later line is in the way.
pub fn limits_are_enough()
    ensures { LimitsAreEnough }
{}

/// With any right less, in a state or in a row of a script, a later line lacks that right, and didn't before.
pub fn limits_are_least()
    ensures state { LimitsAreLeast }
    ensures script { ScriptsAreLeast }
{}

/// Where a later line is in the way of entering capability mode, it is forbidden once the process has entered, as
/// after a script that enters.
pub fn blocked_is_forbidden()
    ensures state { BlockedIsForbidden }
    ensures script { EnteringIsForbidden }
{}

/// Limits to the live rights, put in at many places at once, are enough.
pub fn all_limits_are_enough()
    ensures { AllLimitsAreEnough }
{}

/// With any right less in one of many limits, a later line or a later limit lacks that right, and didn't before.
pub fn all_limits_are_least()
    ensures { AllLimitsAreLeast }
{}
