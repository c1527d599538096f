//! The joins of a session's edits, beside those of the same edits of a tree that the test keeps; and the session's tree.

use crate::answers::wanted;
use crate::sessions::{edited, lines_of};
use crate::texts::repeated;
use cap_machine::{Profile, Start, Step};
use cap_session::Edit::{self, Delete, Insert, Replace};
use cap_session::{Refused, Session};
use cap_summary::{Summary, resolve};
use cap_trace::parse_line;
use cap_tree::{Meter, NoMemory, Segment, Tree};
use std::alloc::Global;
use std::rc::Rc;
use std::test::Fail;

const CALL: &[u8] = b"100 foo() RET 0";

/// More lines than any test has.
const MOST: usize = 1_000;

/// The call as a step.
fn call(alloc: Global) -> Result<Rc<Step>, NoMemory> {
    match parse_line(alloc, CALL) {
        Ok(line) => {
            let profile = Profile::One;
            Ok(Rc::new(alloc, Step { profile, line })?)
        }
        Err(_) => Err(NoMemory),
    }
}

/// The tree after an edit. A place out of range answers `NoMemory`.
fn edited_tree(
    alloc: Global,
    meter: &mut Meter,
    tree: &Tree<Summary>,
    edit: &Edit<'_>,
) -> Result<Tree<Summary>, NoMemory> {
    if meter.room() < 1 << 33 || tree.len() >= MOST {
        return Err(NoMemory);
    }
    let (Insert { position, .. } | Replace { position, .. } | Delete { position }) = edit;
    let at = position.saturating_sub(1);
    match edit {
        Insert { .. } if at <= tree.len() => tree.insert(alloc, meter, at, call(alloc)?),
        Replace { .. } if at < tree.len() => tree.replace(alloc, meter, at, call(alloc)?),
        Delete { .. } if at < tree.len() => tree.remove(alloc, meter, at),
        _ => Err(NoMemory),
    }
}

/// Makes an edit of a tree: how many joins it makes.
fn edit_tree(alloc: Global, tree: &mut Tree<Summary>, edit: &Edit<'_>) -> Result<u64, NoMemory> {
    let mut meter = Meter::new();
    *tree = edited_tree(alloc, &mut meter, tree, edit)?;
    Ok(meter.joins())
}

/// Edits, how often each is made, and whether it is refused. There are no lines before the first.
static EDITS: [(Edit<'static>, usize, bool); 9] = [
    (
        Insert {
            position: 1,
            line: CALL,
        },
        40,
        false,
    ),
    (
        Insert {
            position: 20,
            line: CALL,
        },
        1,
        false,
    ),
    (
        Insert {
            position: 50,
            line: CALL,
        },
        1,
        true,
    ),
    (
        Replace {
            position: 1,
            line: b"x",
        },
        1,
        true,
    ),
    (Delete { position: 42 }, 1, true),
    (Delete { position: 1 }, 41, false),
    (
        Insert {
            position: 1,
            line: CALL,
        },
        300,
        false,
    ),
    (
        Replace {
            position: 150,
            line: CALL,
        },
        20,
        false,
    ),
    (Delete { position: 1 }, 20, false),
];

/// Fails a test where an edit makes other joins in a session than in a tree, or, where it is refused, changes the joins.
fn joins_alike(
    alloc: Global,
    session: &mut Session,
    tree: &mut Tree<Summary>,
    edit: &Edit<'_>,
    is_refused: bool,
) -> Result<(), Fail> {
    let before = session.joins();
    let answer = edited(session, edit);
    let joins = if is_refused {
        before
    } else {
        edit_tree(alloc, tree, edit)?
    };
    wanted(
        answer.is_err() == is_refused && session.joins() == joins,
        "the joins of an edit",
    )
}

/// Makes an edit of a session and of a tree so many times, and compares the joins each time.
fn join_alike(
    alloc: Global,
    session: &mut Session,
    tree: &mut Tree<Summary>,
    row: &(Edit<'static>, usize, bool),
) -> Result<(), Fail> {
    let (edit, times, is_refused) = row;
    for _ in 0..*times {
        joins_alike(alloc, session, tree, edit, *is_refused)?;
    }
    Ok(())
}

/// Makes all edits of a session and a tree without lines, and compares the joins. Both have 280 lines then.
fn all_join_alike(
    alloc: Global,
    session: &mut Session,
    tree: &mut Tree<Summary>,
) -> Result<(), Fail> {
    wanted(
        session.load(Vec::new(alloc)) == Ok(0) && session.joins() == 0,
        "no joins of no lines",
    )?;
    for row in &EDITS {
        join_alike(alloc, session, tree, row)?;
    }
    wanted(session.count() == 280 && tree.len() == 280, "280 lines")
}

/// Makes all edits of a session and of a new tree, and compares the joins.
fn join_as_a_tree(alloc: Global, session: &mut Session) -> Result<(), Fail> {
    let mut tree = Tree::from_list(alloc, &mut Meter::new(), Vec::new(alloc))?;
    let result = all_join_alike(alloc, session, &mut tree);
    drop(tree);
    result
}

/// Loads a hundred lines into a session without lines: whether it makes 99 joins, after none.
fn joins_hundred(alloc: Global, session: &mut Session) -> Result<bool, Refused> {
    let text = repeated(alloc, b"", b"100 foo() RET 0\n", 100, b"")?;
    let lines = lines_of(alloc, &text);
    drop(text);
    let joins = session.joins();
    let count = session.load(lines?)?;
    Ok(joins == 0 && count == 100 && session.joins() == 99)
}

/// A load makes one join fewer than there are lines. Then the joins of a session's edits are those of a tree's.
#[test]
fn joins_are_those_of_the_same_edits_of_a_tree(rt: HostRuntime) -> Result<(), Fail> {
    let mut session = Session::new(rt.alloc(), MOST)?;
    let result = match joins_hundred(rt.alloc(), &mut session) {
        Ok(true) => join_as_a_tree(rt.alloc(), &mut session),
        _ => wanted(false, "99 joins"),
    };
    drop(session);
    result
}

/// Inserts a start and a call: whether a session has them in its tree.
fn has_two(session: &mut Session) -> bool {
    if session.insert(1, b"100 @start()") != Ok(1)
        || session.insert(2, b"100 write(0) RET 5") != Ok(2)
    {
        return false;
    }
    for step in session.tree().iter() {
        if step.profile != Profile::Two || step.line.pid() != 100 {
            return false;
        }
    }
    session.tree().len() == 2 && session.tree().summary().len() == 2
}

/// Whether a summary has one finding from the usual start.
fn finds_one(alloc: Global, summary: &Summary) -> bool {
    let start = Start::unknown(alloc);
    let found = resolve(alloc, summary, &start);
    drop(start);
    match &found {
        Ok(found) => found.len() == 1,
        Err(_) => false,
    }
}

#[test]
fn the_tree_has_the_lines_and_their_summary(rt: HostRuntime) -> Result<(), Fail> {
    let mut session = Session::with_profile(rt.alloc(), MOST, Profile::Two)?;
    let is_right = has_two(&mut session) && finds_one(rt.alloc(), session.tree().summary());
    drop(session);
    wanted(is_right, "100 write(0) RET 5")
}
