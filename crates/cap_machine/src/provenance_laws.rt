//! Laws of where a cell and a mode come from. Each function does nothing: its contract is what it says.

ghost use Rattle.cap_machine.specs.ExplainLaws.{SaidInAnyMode, SaidByMode};
ghost use Rattle.cap_machine.specs.ProvenanceLaws.{CellsAreReplayed, ModesAreFollowed, CellsSkipNone, ModesSkipNone};
ghost use Rattle.cap_machine.specs.ProvenanceLaws.{UnnamedLeaves, NamedChanges};

/// Where an explanation has no chain of the mode, the same is said of the line in every mode. Where it has one, what is
/// said depends on the mode, with some cells of the descriptors that the line checks.
pub fn mode_matters_where_it_decides()
    ensures same { SaidInAnyMode }
    ensures differs { SaidByMode }
{}

/// A chain is enough: what its lines did, in turn, makes the cell or the mode of the one at its end.
pub fn chains_are_enough()
    ensures cells { CellsAreReplayed }
    ensures modes { ModesAreFollowed }
{}

/// A chain names each line that gave, moved or changed the cell or the mode which it follows, and no other.
pub fn chains_skip_no_line()
    ensures cells { CellsSkipNone }
    ensures modes { ModesSkipNone }
{}

/// A line that a chain leaves out, where the descriptor is the one that it follows, leaves the cell as it was; one that
/// it names gives the cell, takes that of another descriptor, or changes it.
pub fn named_lines_matter()
    ensures left_out { UnnamedLeaves }
    ensures named { NamedChanges }
{}
