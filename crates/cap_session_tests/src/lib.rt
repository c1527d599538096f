//! Tests of `cap_session` through what it offers to others: traces from broken readers to broken writers, start texts,
//! edits and scripts, and each public function once where it succeeds.
#![tactic(auto)]

#[cfg(test)]
mod answers;
#[cfg(test)]
mod checks;
#[cfg(test)]
mod denials;
pub mod devices;
#[cfg(test)]
mod explanations;
#[cfg(test)]
mod faults;
#[cfg(test)]
mod from_starts;
#[cfg(test)]
mod joins;
#[cfg(test)]
mod limits;
#[cfg(test)]
mod scripts;
#[cfg(test)]
mod sessions;
#[cfg(test)]
mod shown;
#[cfg(test)]
mod starts;
#[cfg(test)]
mod texts;
