//! Worked scripts, with the replies to them.

use crate::answers::Call::{Edit, EditAs, EditFrom};
use crate::answers::{Worked, are_answered, is_answered, wanted};
use crate::texts::repeated;
use cap_machine::Profile::{One, Two};
use cap_session::ExplainOutcome::Ended;
use cap_session::Outcome::{Clean, Findings, Refused, StartRefused};
use std::test::Fail;

/// A trace that a descriptor was limited in.
const LIMITED: &[u8] =
    b"100 @start(0,3)\n100 cap_rights_limit(0,CAP_READ) RET 0\n100 write(0) RET 5\n";

/// A descriptor that an exec closes is read from after it.
const EXECUTED: &[u8] =
    b"100 @start(0,3)\n100 open(\"a\",O_RDONLY|O_CLOEXEC) RET 5\n100 execve(\"/bin/x\") RET 0\n100 read(5) RET 1\n";

/// What is known of a process: that it may read from a descriptor.
const READING: &[u8] = b"100 unsure unknown 0=CAP_READ\n";

static SCRIPTS: [Worked<'static>; 18] = [
    (
        Edit,
        b"100 @start(0,3)\n100 cap_rights_limit(0,CAP_READ) RET 0\n100 cap_rights_limit(0,CAP_READ|CAP_WRITE) RET 0\n100 write(0) RET 1\n",
        b"delete 9\nreplace 2 100 read(4 RET 1\nreport\nreport 4 4\nundo\n",
        Ended(Findings),
        "refused E7\nrefused E2\n3 100 cap_rights_limit expanded 0 CAP_WRITE\n4 100 write missing 0 CAP_WRITE\nfindings 2\n4 100 write missing 0 CAP_WRITE\nfindings 1\nrefused E10\n",
    ),
    (
        Edit,
        b"100 @start(0,3)\n100 cap_rights_limit(3,CAP_READ) RET 0\n100 fork() RET 101\n100 close(3) RET 0\n101 write(3) RET 1\n",
        b"delete 2\nreport",
        Ended(Clean),
        "ok 4\nfindings 0\n",
    ),
    (
        Edit,
        b"100 @start(0,3)\n100 cap_rights_limit(3,CAP_LOOKUP|CAP_RENAMEAT_SOURCE) RET 0\n100 renameat(3,\"a\",9,\"b\") RET 0\n",
        b"insert 2 100 @foreign(9)\nreport\n",
        Ended(Clean),
        "ok 4\nfindings 0\n",
    ),
    (
        Edit,
        b"100 @start(0,3)\n100 ioctl(0) RET -1 errno 93\n100 cap_ioctls_limit(3) RET 0\n100 openat(3,\"a\",O_RDONLY) RET -1 errno 93\n",
        b"delete 3\nreport\n",
        Ended(Findings),
        "ok 3\n3 100 openat refusal\nfindings 1\n",
    ),
    (
        Edit,
        LIMITED,
        b"count\n\n# note\nshow 2\nshow 4\ncount \nreport 1\nreport 0 1\nreport 1 2\ninsert 1\ninsert 1 \n",
        Ended(Findings),
        "3\n100 cap_rights_limit(0,CAP_READ) RET 0\nrefused E7\nrefused E10\nrefused E10\nrefused E7\nfindings 0\nrefused E10\nrefused E3\n",
    ),
    (
        Edit,
        b"100 cap_rights_limit(3,CAP_WRITE|CAP_PREAD|CAP_READ) RET 0",
        b"show 1",
        Ended(Clean),
        "100 cap_rights_limit(3,CAP_READ|CAP_WRITE|CAP_SEEK) RET 0\n",
    ),
    (
        Edit,
        b"100 @start(0)\n# note\n\n100 read(x) RET 1\n",
        b"count\n",
        Ended(Refused { code: 4, line: 4 }),
        "refused E4 line 4\n",
    ),
    (
        EditFrom(One, READING),
        b"100 write(0) RET 1\n",
        b"report\nreport 1 1\nchanges\ninsert 1 100 close(0) RET 0\nchanges\n",
        Ended(Findings),
        "1 100 write missing 0 CAP_WRITE\nfindings 1\n1 100 write missing 0 CAP_WRITE\nfindings 1\nfindings 1\nok 2\n- 1 100 write missing 0 CAP_WRITE\n+ 2 100 write closed 0\nfindings 1\n",
    ),
    (
        EditFrom(Two, b""),
        EXECUTED,
        b"report\ndelete 3\n",
        Ended(Clean),
        "4 100 read closed 5\nfindings 1\nok 3\n",
    ),
    (
        EditFrom(One, b"100 up closed\n"),
        b"x\n",
        b"count\n",
        Ended(StartRefused { code: 4, line: 1 }),
        "refused E4 start line 1\n",
    ),
    (
        Edit,
        LIMITED,
        b"explain 3\nexplain 4\nexplain\ndenials\nlimits\ndelete 2\nexplain 2\n",
        Ended(Clean),
        "3 100 write(0) RET 5\nmissing 0 CAP_WRITE\n0 2 100 cap_rights_limit(0,CAP_READ) RET 0\n0 1 100 @start(0,3)\nexplained 2\nrefused E7\nrefused E10\ndenials 0\nlimits 0\nok 2\n2 100 write(0) RET 5\n0 1 100 @start(0,3)\nexplained 1\n",
    ),
    (
        EditFrom(One, READING),
        b"100 write(0) RET -1 errno 93\n100 read(0) RET 1\n",
        b"denials\nlimits 2\nlimits 3\nlimits x\nexplain 1\n",
        Ended(Clean),
        "1 100 write lacks 0 CAP_WRITE\ndenials 1\n# process 100 before line 2\ninsert 2 100 cap_rights_limit(0,CAP_READ) RET 0\ninsert 3 100 cap_enter() RET 0\nlimits 2\nrefused E7\nrefused E10\n1 100 write(0) RET -1 errno 93\nlacks 0 CAP_WRITE\n0 start CAP_READ\nexplained 1\n",
    ),
    (Edit, b"", &[b'#'; 1056], Ended(Clean), ""),
    (Edit, b"", &[b'#'; 1057], Ended(Clean), "refused E1\n"),
    (
        EditAs(Two),
        EXECUTED,
        b"report\ndelete 3\nreport\n",
        Ended(Clean),
        "4 100 read closed 5\nfindings 1\nok 3\nfindings 0\n",
    ),
    (
        EditAs(Two),
        EXECUTED,
        b"report 4 4\nreport 1 3\n",
        Ended(Findings),
        "4 100 read closed 5\nfindings 1\nfindings 0\n",
    ),
    (
        EditAs(One),
        EXECUTED,
        b"report\ndelete 3\nreport\n",
        Ended(Clean),
        "findings 0\nok 3\nfindings 0\n",
    ),
    (
        EditAs(One),
        EXECUTED,
        b"report 4 4\nreport 1 3\n",
        Ended(Clean),
        "findings 0\nfindings 0\n",
    ),
];

#[test]
fn scripts_are_replied_to_in_pieces_of_any_size(rt: HostRuntime) -> Result<(), Fail> {
    are_answered(rt.alloc(), &SCRIPTS)
}

/// A line of a script may hold a line of a trace that has as many bytes as it may.
#[test]
fn the_longest_line_is_inserted(rt: HostRuntime) -> Result<(), Fail> {
    let script = repeated(rt.alloc(), b"insert 1 100 foo(", b"x", 1009, b") RET 0")?;
    let is_longest = script.len() == 9 + 1024;
    let worked = (
        Edit,
        b"".as_slice(),
        script.as_slice(),
        Ended(Clean),
        "ok 1\n",
    );
    let is_inserted = is_answered(rt.alloc(), &worked);
    drop(script);
    is_inserted?;
    wanted(is_longest, "insert 1 100 foo(")
}
