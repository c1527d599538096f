//! Tests of sets of rights and of their text, through the public functions of `cap_rights`.
#![tactic(auto)]

#[cfg(test)]
mod tests;
