//! Limits: to which rights each descriptor of a process can be limited at one place of a trace, so that the later lines
//! still have all that they need, and whether the process may enter capability mode there.
//!
//! A right is live in a descriptor where a later line needs it of what is held there ([`LiveRights`], a backward
//! analysis). [`limits_before`] answers the least rights before a line; [`limits_of_makers`] those of each descriptor
//! right after the line that made it. They are enough, and no less would do ([`limits_are_enough`],
//! [`limits_are_least`]).
#![tactic(auto)]

mod limit;
mod limit_laws;
mod limits;
mod live;
mod makers;
mod standing;
mod unknown;

pub use limit::{Limit, limits_among};
pub use limit_laws::{
    all_limits_are_enough, all_limits_are_least, blocked_is_forbidden, limits_are_enough,
    limits_are_least,
};
pub use limits::{Entering, Limits, LimitsBefore, limits_before, live_after, machine_after};
pub use live::LiveRights;
pub use makers::{MakerLimit, MakerRow, limits_of_makers};
pub use standing::standing_fds;
