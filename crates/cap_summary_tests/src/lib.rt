//! Tests of cap_summary, of what no contract says: calls succeed, joined summaries share their steps, and definitions
//! say what was meant, also where a worked trace is cut in two and its parts are joined. What is found in worked traces,
//! and what single lines rest on, is in tests/cases.
#![tactic(auto)]

#[cfg(test)]
mod again;
#[cfg(test)]
mod bounds;
#[cfg(test)]
mod cut;
#[cfg(test)]
mod edited;
#[cfg(test)]
mod explained;
#[cfg(test)]
mod known;
#[cfg(test)]
mod reported;
#[cfg(test)]
mod rows;
#[cfg(test)]
mod traces;
