//! Tests of the lines of a trace, through the public functions of `cap_trace`.
#![tactic(auto)]

#[cfg(test)]
mod tests;
