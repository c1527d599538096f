//! A line of a trace with the profile by which it is checked.

use crate::cell::Profile;
use cap_trace::Line;

/// A line of a trace with the profile by which it is checked. A trace in a profile is its lines, each with that
/// profile.
#[derive(Debug, Drop)]
pub struct Step {
    /// By which rules the line changes what is known.
    pub profile: Profile,
    /// The line.
    pub line: Line,
}
