//! `capcheck`: checks a recorded trace of system calls against the rights that its descriptors held and
//! against capability mode, and prints the report on standard output.
//!
//! `words` is the command line as `clap` is given it, `help` what it says of it to people, `plan` what the
//! words ask for, `system` what is asked of the system, `texts` where a text is read from, and `run` does what the plan
//! says. `messages` says in words why there is no report, from the notes that `notes` takes of what is read, and `wrong`
//! what is wrong with a line.
#![tactic(auto)]

mod help;
mod messages;
mod notes;
mod plan;
#[cfg(test)]
mod plan_tests;
mod run;
mod system;
mod texts;
mod words;
mod write;
mod wrong;

use cap_session::Counted;
use messages::Output;
use notes::Notes;
use std::io;
use std::io::IsTerminal;
use std::process::ExitCode;
use system::Host;
use texts::SystemTexts;

fn main(rt: HostRuntime) -> ExitCode {
    let notes = Notes::new(rt.alloc(), rt.stderr().is_terminal());
    let mut texts = SystemTexts::new(Host::new(&rt), &notes);
    let mut output = Counted::new(Output::new(io::writer(&rt), &rt, &notes));
    ExitCode::from(run::run(&rt, &Host::new(&rt), &mut texts, &notes, &mut output))
}
