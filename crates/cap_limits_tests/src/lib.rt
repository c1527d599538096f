//! Tests of cap_limits: live rights and limits of worked traces, and each public function once.
#![tactic(auto)]

#[cfg(test)]
mod limits;
#[cfg(test)]
mod texts;
