//! Tests of the machine: worked traces and their reports, starts, and each public function once.
#![tactic(auto)]

#[cfg(test)]
mod calls;
#[cfg(test)]
mod denied;
#[cfg(test)]
mod explanations;
#[cfg(test)]
mod lines;
#[cfg(test)]
mod machines;
#[cfg(test)]
mod ops;
#[cfg(test)]
mod reports;
#[cfg(test)]
mod starts;
#[cfg(test)]
mod traces;
#[cfg(test)]
mod walks;
