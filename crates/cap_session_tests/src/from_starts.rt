//! Worked traces with a start text or in a profile.

use crate::answers::Call::{Check, CheckAs, CheckFrom, CheckFromAs};
use crate::answers::{Worked, are_answered};
use cap_machine::Profile::{One, Two};
use cap_session::ExplainOutcome::Ended;
use cap_session::Outcome::{Clean, Findings, StartRefused};
use std::test::Fail;

const READ: &[u8] = b"100 read(3) RET 1";

const EXEC: &[u8] = b"100 execve(\"/bin/x\") RET 0\n100 read(6) RET 1\n100 read(5) RET 1\n";

/// A descriptor that is closed on exec.
const CLOSED_ON_EXEC: &[u8] =
    b"100 @start(0,3)\n100 open(\"a\",O_RDONLY|O_CLOEXEC) RET 5\n100 execve(\"/bin/x\") RET 0\n100 read(5) RET 1\n";

static TEXTS: [Worked<'static>; 17] = [
    (
        CheckFromAs(One),
        READ,
        b"100 out closed 0=ALL",
        Ended(Findings),
        "1 100 read closed 3\nfindings 1\n",
    ),
    (
        CheckFromAs(One),
        b"100 open(\"a\",O_RDONLY) RET 3",
        b"100 in unknown",
        Ended(Findings),
        "1 100 open forbidden\nfindings 1\n",
    ),
    (
        CheckFromAs(One),
        b"100 write(7) RET 5",
        b"",
        Ended(Clean),
        "findings 0\n",
    ),
    (
        CheckFromAs(One),
        READ,
        b"101 out closed\n100 out closed",
        Ended(StartRefused { code: 3, line: 2 }),
        "refused E3 start line 2\n",
    ),
    (
        CheckFromAs(One),
        READ,
        b"100 up closed",
        Ended(StartRefused { code: 4, line: 1 }),
        "refused E4 start line 1\n",
    ),
    (
        CheckFromAs(Two),
        READ,
        b"100 out",
        Ended(StartRefused { code: 4, line: 1 }),
        "refused E4 start line 1\n",
    ),
    (
        CheckFromAs(One),
        READ,
        b"100 out closed 3",
        Ended(StartRefused { code: 4, line: 1 }),
        "refused E4 start line 1\n",
    ),
    (
        CheckFromAs(One),
        READ,
        b"100 out closed 3=ALL 3=ALL",
        Ended(StartRefused { code: 4, line: 1 }),
        "refused E4 start line 1\n",
    ),
    (
        CheckFromAs(One),
        b"x",
        b"100 out open",
        Ended(StartRefused { code: 5, line: 1 }),
        "refused E5 start line 1\n",
    ),
    (
        CheckFromAs(One),
        READ,
        b"100 out closed 0=CAP_SEEK_TELL",
        Ended(StartRefused { code: 5, line: 1 }),
        "refused E5 start line 1\n",
    ),
    (
        CheckFromAs(One),
        b"100 write(0) RET 1",
        b"100 unsure unknown 0=CAP_READ",
        Ended(Findings),
        "1 100 write missing 0 CAP_WRITE\nfindings 1\n",
    ),
    (
        CheckFromAs(Two),
        EXEC,
        b"100 out closed 5=ALL",
        Ended(Findings),
        "2 100 read closed 6\nfindings 1\n",
    ),
    (
        CheckFromAs(One),
        EXEC,
        b"100 out closed 5=ALL",
        Ended(Clean),
        "findings 0\n",
    ),
    // A profile that is left out is the first.
    (
        CheckFrom,
        EXEC,
        b"100 out closed 5=ALL",
        Ended(Clean),
        "findings 0\n",
    ),
    // A start that is left out is the usual one.
    (
        Check,
        b"100 write(0) RET 1",
        b"",
        Ended(Clean),
        "findings 0\n",
    ),
    // The profile decides what an exec closes.
    (
        CheckAs(One),
        CLOSED_ON_EXEC,
        b"",
        Ended(Clean),
        "findings 0\n",
    ),
    (
        CheckAs(Two),
        CLOSED_ON_EXEC,
        b"",
        Ended(Findings),
        "4 100 read closed 5\nfindings 1\n",
    ),
];

#[test]
fn a_trace_is_checked_from_a_start_in_pieces_of_any_size(rt: HostRuntime) -> Result<(), Fail> {
    are_answered(rt.alloc(), &TEXTS)
}
