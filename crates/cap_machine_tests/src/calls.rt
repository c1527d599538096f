//! Rules, judging, and laws.

use crate::starts::rights_of;
use cap_machine::{
    Cell, Checks, Effect, Finding, Mode, OnExec, Profile, Step, Verdict, effect_of_line, judge,
    no_alarm_lost, positions_are_within, profiles_agree, rule_of, rules_name_what_stands_there,
    touches_what_it_names, traces_in_turn,
};
use cap_trace::{Line, parse_line};
use std::alloc::Global;

/// What is said of the one check of a line that does nothing.
fn findings_of(line: &Line, cell: Cell) -> Option<Finding> {
    let rule = rule_of(Profile::Two, &line.view());
    match rule.requirement.checks {
        Checks::One(_) if matches!(rule.effect, Effect::Keep) => {
            judge(&rule, Mode::Unsure, &[cell])
                .as_slice()
                .first()
                .copied()
        }
        _ => None,
    }
}

/// Whether the right to write is missing on a descriptor that is held for reading.
fn is_missing(alloc: Global, flag: OnExec) -> bool {
    let held = Cell::Held(rights_of(b"CAP_READ"), flag);
    let missing = Finding::Missing(0, rights_of(b"CAP_WRITE"));
    match parse_line(alloc, b"100 write(0) RET 1") {
        Ok(line) => findings_of(&line, held) == Some(missing),
        Err(_) => false,
    }
}

#[test]
fn a_line_is_judged(rt: HostRuntime) {
    for flag in &[OnExec::Set, OnExec::Clear, OnExec::Unsure] {
        assert!(rt; is_missing(rt.alloc(), *flag));
    }
}

/// Whether a step is an exec in its profile.
fn is_exec(step: &Step) -> bool {
    matches!(
        effect_of_line(step.profile, &step.line.view()),
        Effect::Exec
    )
}

/// How many findings there are of a call without checks that succeeded in capability mode and forgets in the first
/// profile.
fn said_inside(line: &Line) -> usize {
    let rule = rule_of(Profile::One, &line.view());
    match rule.requirement.checks {
        Checks::Nothing if matches!(rule.effect, Effect::Forget) => {
            rule.requirement.judge(Mode::Inside, &[]).len()
        }
        _ => 0,
    }
}

/// Whether a line is an exec in the second profile and forgets in the first, and is found once inside.
fn is_step(alloc: Global, text: &[u8]) -> bool {
    match parse_line(alloc, text) {
        Ok(line) => {
            let profile = Profile::Two;
            let step = Step { profile, line };
            is_exec(&step) && said_inside(&step.line) == 1
        }
        Err(_) => false,
    }
}

#[test]
fn a_step_is_a_line_in_a_profile(rt: HostRuntime) {
    assert!(rt; is_step(rt.alloc(), b"100 execve(\"a\") RET 0") && Verdict::silent().len() == 0);
}

/// Each law may be called.
#[test]
fn the_laws_are_called() {
    traces_in_turn();
    profiles_agree();
    no_alarm_lost();
    touches_what_it_names();
    rules_name_what_stands_there();
    positions_are_within();
}
