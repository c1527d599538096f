//! The texts of what is refused, and the refusals of codes.

use cap_session::{Outcome, Refused, StartFault};
use std::alloc::Global;

/// Each reason why a session refuses, and its text.
static REFUSALS: [(Refused, &str); 9] = [
    (Refused::LongLine, "the line is longer than 1,024 bytes"),
    (Refused::Shape, "the line has no known shape"),
    (Refused::Pid, "the pid is no number from 1 to 99,999"),
    (Refused::Argument, "an argument is not of its kind"),
    (Refused::Right, "a right has no such name"),
    (Refused::Answer, "the result is none that the call can have"),
    (Refused::Position, "the position is out of range"),
    (Refused::Full, "the trace is full"),
    (Refused::Memory, "out of memory"),
];

/// Whether a refusal is printed so.
fn is_shown(alloc: Global, refused: Refused, text: &str) -> bool {
    match format!(in alloc; "{refused}") {
        Ok(shown) => shown.as_str() == text,
        Err(_) => false,
    }
}

#[test]
fn a_refusal_has_a_text(rt: HostRuntime) {
    for (refused, text) in &REFUSALS {
        assert!(rt; is_shown(rt.alloc(), *refused, text));
    }
}

/// Whether all that answer this code, or none, have this refusal.
fn all_have(code: u8, refused: Option<Refused>) -> bool {
    Outcome::Refused { code, line: 7 }.refusal() == refused
        && Outcome::StartRefused { code, line: 7 }.refusal() == refused
        && StartFault::Bad { code, line: 7 }.refusal() == refused
}

#[test]
fn a_code_has_its_refusal(rt: HostRuntime) {
    for (refused, _) in &REFUSALS {
        assert!(rt; all_have(refused.code(), Some(*refused)));
    }
    assert!(rt; all_have(0, None) && all_have(10, None));
    assert!(rt; Outcome::Findings.refusal() == None && StartFault::Memory.refusal() == None);
}

/// Whether a fault of a start text is printed so.
fn fault_is_shown(alloc: Global, fault: StartFault, text: &str) -> bool {
    match format!(in alloc; "{fault}") {
        Ok(shown) => shown.as_str() == text,
        Err(_) => false,
    }
}

#[test]
fn a_fault_of_a_start_has_a_text(rt: HostRuntime) {
    let bad = StartFault::Bad { code: 4, line: 12 };
    let text = "a line of the start isn't good: E4, line 12";
    assert!(rt; fault_is_shown(rt.alloc(), bad, text));
    assert!(rt; fault_is_shown(rt.alloc(), StartFault::Memory, "out of memory"));
}
