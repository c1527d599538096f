//! Laws of whole traces: one that follows another, the two profiles, what a line touches, the positions of findings. Each
//! function does nothing: its contract is what it says.

ghost use Rattle.cap_machine.specs.Laws.{EndsInTurn, ChecksInTurn, ChecksOneMore};
ghost use Rattle.cap_machine.specs.ProfileLaws.{ProfilesAgree, NoAlarmLost};
ghost use Rattle.cap_machine.specs.Named.{OwnProcesses, OwnModes, NamedDescriptors, NamedSources, NamedEffects};
ghost use Rattle.cap_machine.specs.Named.{NamedChecks, PositionsWithin};

/// A trace that follows another is checked from the state after the first, and its findings are that many lines later.
/// One step that follows adds what is said of it in that state, at the next position.
pub fn traces_in_turn()
    ensures ends { EndsInTurn }
    ensures checks { ChecksInTurn }
    ensures one { ChecksOneMore }
{}

/// A trace without a successful execve(2), fexecve(2) or closefrom(2) has the same report in both profiles, from every
/// state.
pub fn profiles_agree()
    ensures { ProfilesAgree }
{}

/// Where a trace without a successful closefrom(2) has no finding in profile 2, it has none in profile 1, from every
/// state.
pub fn no_alarm_lost()
    ensures { NoAlarmLost }
{}

/// A line touches no other process than its own and, of a fork, its child. But for lines that may change every cell of
/// a process (starts, exits, forks, execve(2), fexecve(2), closefrom(2)), it touches only descriptors in its arguments
/// or its answer. It takes a cell only from its own process, and from another descriptor only where both are there.
pub fn touches_what_it_names()
    ensures processes { OwnProcesses }
    ensures modes { OwnModes }
    ensures descriptors { NamedDescriptors }
    ensures sources { NamedSources }
{}

/// The descriptors of a rule are in its line: those that its effect has one by one in an argument or the answer, and
/// those of its checks in an argument.
pub fn rules_name_what_stands_there()
    ensures effects { NamedEffects }
    ensures checks { NamedChecks }
{}

/// The position of each finding is from 1 to the length of the trace.
pub fn positions_are_within()
    ensures { PositionsWithin }
{}
