//! Readers and writers that are broken: each read and each byte that is written fails in turn, and each number of reads is
//! allowed that is too small. What was written is what the bytes before that are answered with.

use crate::answers::{Call, Run, ends};
use cap_machine::Profile;
use cap_session::ExplainOutcome::{Ended, OutOfRange};
use cap_session::Outcome;
use std::alloc::Global;
use std::test::Fail;

/// A run in which each read of one text in turn is not answered, and each byte that is written.
struct Sweep {
    run: Run<'static>,
    /// Whether they are the reads of the trace, or else of the start or the script. That text comes byte by byte.
    is_of_trace: bool,
    /// How many reads are made of the other text.
    other_reads: u64,
    /// Where lines of the text end, and what is written up to there.
    replies: &'static [(u64, &'static str)],
    /// How many bytes of the trace, and of the start or the script, come with a read where the writer fails.
    pieces: (usize, usize),
}

impl Sweep {
    /// The number after that of the last read, which finds the end of the text.
    fn end(&self) -> u64 {
        let (text, _, _) = if self.is_of_trace {
            self.run.trace
        } else {
            self.run.other
        };
        (text.len() as u64).saturating_add(2)
    }

    /// What is written where so many bytes of the text were read.
    fn replied(&self, given: u64) -> &'static str {
        let mut replies = "";
        for (end, text) in self.replies {
            if *end <= given {
                replies = *text;
            }
        }
        replies
    }

    /// The run as it ends after so many reads of the text. The last fails or brings a byte.
    fn after(&self, reads: u64, is_failing: bool) -> Run<'static> {
        let mut run = self.run;
        let fails_at = if is_failing {
            run.outcome = Ended(Outcome::ReadFault);
            run.written = self.replied(reads.saturating_sub(1));
            reads
        } else {
            run.outcome = Ended(Outcome::TooLong);
            run.written = self.replied(reads);
            run.turns = reads;
            0
        };
        if self.is_of_trace {
            run.trace.2 = fails_at;
            run.reads = Some(reads);
            run.other_reads = Some(self.other_reads);
        } else {
            run.other.2 = fails_at;
            run.reads = Some(self.other_reads);
            run.other_reads = Some(reads);
        }
        run
    }

    /// The run as it ends once the writer took so many bytes, at most so many at once.
    fn cut(&self, size: usize, most: usize) -> Run<'static> {
        let mut run = self.run;
        run.trace.1 = self.pieces.0;
        run.other.1 = self.pieces.1;
        run.room = (size, most);
        run.outcome = Ended(Outcome::WriteFault);
        run.written = run.written.get(..most).unwrap_or(run.written);
        run
    }
}

/// Each read in turn fails, or may not be made.
fn ends_at_each_read(alloc: Global, sweep: &Sweep) -> Result<(), Fail> {
    for read in 1..sweep.end() {
        ends(alloc, &sweep.after(read, true))?;
        if read > sweep.other_reads {
            ends(alloc, &sweep.after(read.saturating_sub(1), false))?;
        }
    }
    Ok(())
}

/// Each byte that is written fails in turn, where one, three or all may be written at once.
fn ends_at_each_byte(alloc: Global, sweep: &Sweep) -> Result<(), Fail> {
    for most in 0..sweep.run.written.len() {
        ends(alloc, &sweep.cut(1, most))?;
        ends(alloc, &sweep.cut(3, most))?;
        ends(alloc, &sweep.cut(256, most))?;
    }
    Ok(())
}

#[test]
fn each_read_and_each_byte_fails_in_turn(rt: HostRuntime) -> Result<(), Fail> {
    for sweep in &SWEEPS {
        ends(rt.alloc(), &sweep.run.by(1))?;
        ends_at_each_read(rt.alloc(), sweep)?;
        ends_at_each_byte(rt.alloc(), sweep)?;
    }
    Ok(())
}

/// A descriptor that an exec closes is read from after it.
const EXECUTED: &[u8] =
    b"100 @start(0,3)\n100 open(\"a\",O_RDONLY|O_CLOEXEC) RET 5\n100 execve(\"/bin/x\") RET 0\n100 read(5) RET 1\n";

/// Descriptors before an exec, and calls after it.
const START: &[u8] = b"# before\n100 out closed 5=ALL\n";

const STARTED: &[u8] = b"100 execve(\"/bin/x\") RET 0\n100 read(6) RET 1\n100 read(5) RET 1\n";

const STARTED_REPORT: &str = "2 100 read closed 6\nfindings 1\n";

const SCRIPT: &[u8] = b"report\ndelete 3\ninsert 3 x\n# note\nreport\nshow 3\n";

const ALL_REPLIES: &str =
    "4 100 read closed 5\nfindings 1\nok 3\nrefused E3\nfindings 0\n100 read(5) RET 1\n";

/// Where lines of the script end, and the replies up to there.
const REPLIES: &[(u64, &str)] = &[
    (0, ""),
    (7, "4 100 read closed 5\nfindings 1\n"),
    (16, "4 100 read closed 5\nfindings 1\nok 3\n"),
    (27, "4 100 read closed 5\nfindings 1\nok 3\nrefused E3\n"),
    (
        41,
        "4 100 read closed 5\nfindings 1\nok 3\nrefused E3\nfindings 0\n",
    ),
    (48, ALL_REPLIES),
];

const _: () = prove!(SCRIPT.len() == 48);

/// A trace that a descriptor was limited in, and what is found in it.
const LIMITED: &[u8] =
    b"100 @start(0,3)\n100 cap_rights_limit(0,CAP_READ) RET 0\n100 write(0) RET 5";

const LIMITED_REPORT: &str = "3 100 write missing 0 CAP_WRITE\nfindings 1\n";

/// A descriptor that was limited before a fork.
const FORKED: &[u8] =
    b"100 @start(0,3)\n100 cap_rights_limit(3,CAP_READ) RET 0\n100 fork() RET 101\n100 close(3) RET 0\n101 write(3) RET 1\n";

const FORKED_SCRIPT: &[u8] = b"delete 2\nreport\n";

const FORKED_REPLIES: &str = "ok 4\nfindings 0\n";

const CHECKED: Run<'static> = Run {
    call: Call::CheckAs(Profile::Two),
    turns: 4096,
    trace: (EXECUTED, 1, 0),
    other: (b"", 1, 0),
    room: (9, 256),
    outcome: Ended(Outcome::Findings),
    written: "4 100 read closed 5\nfindings 1\n",
    reads: None,
    other_reads: None,
};

const CHECKED_FROM: Run<'static> = Run {
    call: Call::CheckFromAs(Profile::Two),
    trace: (STARTED, 1, 0),
    other: (START, 1, 0),
    written: STARTED_REPORT,
    ..CHECKED
};

/// A right that the start leaves out.
const DENIED_START: &[u8] = b"# before\n100 out closed 5=CAP_SEEK\n";

const DENIED: Run<'static> = Run {
    call: Call::Denials(Profile::Two),
    trace: (b"100 read(6) RET 1\n100 read(5) RET -1 errno 93\n", 1, 0),
    other: (DENIED_START, 1, 0),
    written: "2 100 read lacks 5 CAP_READ\ndenials 1\n",
    ..CHECKED
};

/// The limits before a line, of a descriptor that the start lists.
const LIMITS: Run<'static> = Run {
    call: Call::Limits(Profile::Two, Some(1)),
    trace: (b"100 read(5) RET 1\n", 1, 0),
    other: (START, 1, 0),
    outcome: Ended(Outcome::Clean),
    written: "# process 100 before line 1\n\
insert 1 100 cap_rights_limit(5,CAP_READ) RET 0\n\
insert 2 100 cap_enter() RET 0\n",
    ..CHECKED
};

const EDITED: Run<'static> = Run {
    call: Call::EditAs(Profile::Two),
    other: (SCRIPT, 1, 0),
    outcome: Ended(Outcome::Clean),
    written: ALL_REPLIES,
    ..CHECKED
};

const EDITED_IN_ONE: Run<'static> = Run {
    call: Call::Edit,
    trace: (FORKED, 1, 0),
    other: (FORKED_SCRIPT, 1, 0),
    room: (1, 256),
    written: FORKED_REPLIES,
    ..EDITED
};

static SWEEPS: [Sweep; 14] = [
    Sweep {
        run: CHECKED,
        is_of_trace: true,
        other_reads: 0,
        replies: &[],
        pieces: (64, 1),
    },
    // The start comes first.
    Sweep {
        run: CHECKED_FROM,
        is_of_trace: false,
        other_reads: 0,
        replies: &[],
        pieces: (64, 1),
    },
    Sweep {
        run: Run {
            other: (START, 16, 0),
            ..CHECKED_FROM
        },
        is_of_trace: true,
        other_reads: 3,
        replies: &[],
        pieces: (64, 16),
    },
    // A start that leaves the mode open, in profile 1.
    Sweep {
        run: Run {
            call: Call::CheckFrom,
            trace: (b"100 write(0) RET 1\n", 1, 0),
            other: (b"100 unsure unknown 0=CAP_READ\n", 1, 0),
            written: "1 100 write missing 0 CAP_WRITE\nfindings 1\n",
            ..CHECKED_FROM
        },
        is_of_trace: false,
        other_reads: 0,
        replies: &[],
        pieces: (64, 1),
    },
    // Faults while denials are asked for.
    Sweep {
        run: DENIED,
        is_of_trace: false,
        other_reads: 0,
        replies: &[],
        pieces: (64, 1),
    },
    Sweep {
        run: Run {
            other: (DENIED_START, 16, 0),
            ..DENIED
        },
        is_of_trace: true,
        other_reads: 4,
        replies: &[],
        pieces: (64, 16),
    },
    // And of limits: after the lines that made descriptors, before a line, and where there is no such line.
    Sweep {
        run: Run {
            call: Call::Limits(Profile::Two, None),
            trace: (b"100 dup(5) RET 6\n100 read(6) RET 1\n", 1, 0),
            written: "insert 2 100 cap_rights_limit(6,CAP_READ) RET 0\n",
            ..LIMITS
        },
        is_of_trace: false,
        other_reads: 0,
        replies: &[],
        pieces: (64, 1),
    },
    Sweep {
        run: Run {
            other: (START, 16, 0),
            ..LIMITS
        },
        is_of_trace: true,
        other_reads: 3,
        replies: &[],
        pieces: (64, 16),
    },
    Sweep {
        run: Run {
            call: Call::Limits(Profile::Two, Some(2)),
            other: (START, 16, 0),
            outcome: OutOfRange,
            written: "refused E7\n",
            ..LIMITS
        },
        is_of_trace: true,
        other_reads: 3,
        replies: &[],
        pieces: (64, 16),
    },
    // The trace comes first, and a fault of it leaves the script unread.
    Sweep {
        run: EDITED,
        is_of_trace: true,
        other_reads: 0,
        replies: &[],
        pieces: (64, 1),
    },
    // A fault of the script leaves the replies before it.
    Sweep {
        run: Run {
            trace: (EXECUTED, 256, 0),
            ..EDITED
        },
        is_of_trace: false,
        other_reads: 2,
        replies: REPLIES,
        pieces: (64, 10),
    },
    // Faults of a check in profile 1.
    Sweep {
        run: Run {
            call: Call::Check,
            trace: (LIMITED, 1, 0),
            room: (1, 256),
            written: LIMITED_REPORT,
            ..CHECKED
        },
        is_of_trace: true,
        other_reads: 0,
        replies: &[],
        pieces: (20, 1),
    },
    Sweep {
        run: EDITED_IN_ONE,
        is_of_trace: true,
        other_reads: 0,
        replies: &[],
        pieces: (50, 1),
    },
    Sweep {
        run: Run {
            trace: (FORKED, 50, 0),
            room: (7, 256),
            ..EDITED_IN_ONE
        },
        is_of_trace: false,
        other_reads: 4,
        replies: &[(9, "ok 4\n"), (16, FORKED_REPLIES)],
        pieces: (50, 5),
    },
];

/// A check of a text that comes at once.
const AT_ONCE: Run<'static> = Run {
    call: Call::Check,
    turns: 9,
    trace: (LIMITED, 99, 0),
    other: (b"", 64, 0),
    room: (99, 99),
    outcome: Ended(Outcome::WriteFault),
    written: "",
    reads: Some(2),
    other_reads: None,
};

/// A check from a start that isn't taken: the trace isn't read.
const NOT_FROM: Run<'static> = Run {
    call: Call::CheckFromAs(Profile::Two),
    trace: (b"100 read(3) RET 1", 99, 0),
    other: (b"100 out closed\n", 99, 0),
    room: (7, 256),
    outcome: Ended(Outcome::ReadFault),
    reads: Some(0),
    other_reads: Some(1),
    ..AT_ONCE
};

/// A script on the limited trace that is cut short.
const CUT: Run<'static> = Run {
    call: Call::Edit,
    turns: 99,
    trace: (
        b"100 @start(0,3)\n100 cap_rights_limit(0,CAP_READ) RET 0\n100 write(0) RET 5\n",
        99,
        0,
    ),
    outcome: Ended(Outcome::ReadFault),
    written: "3\n",
    reads: None,
    ..AT_ONCE
};

/// A text that comes without end.
const ENDLESS: Run<'static> = Run {
    call: Call::Edit,
    turns: 99,
    trace: (&[b'\n'; 200], 1, 0),
    other: (b"count\n", 1, 0),
    room: (64, 256),
    outcome: Ended(Outcome::TooLong),
    reads: Some(99),
    other_reads: Some(0),
    ..AT_ONCE
};

static BROKEN: [Run<'static>; 24] = [
    // A profile decides what an exec closes.
    Run {
        trace: (EXECUTED, 20, 0),
        ..CHECKED
    },
    Run {
        call: Call::CheckAs(Profile::One),
        trace: (EXECUTED, 20, 0),
        outcome: Ended(Outcome::Clean),
        written: "findings 0\n",
        ..CHECKED
    },
    // A check may make as many reads as it needs, or not.
    Run {
        turns: 15,
        trace: (b"100 @start(0)\n", 1, 0),
        outcome: Ended(Outcome::Clean),
        written: "findings 0\n",
        reads: Some(15),
        ..AT_ONCE
    },
    Run {
        turns: 14,
        trace: (b"100 @start(0)\n", 1, 0),
        outcome: Ended(Outcome::TooLong),
        reads: Some(14),
        ..AT_ONCE
    },
    Run {
        room: (99, 10),
        written: "3 100 writ",
        ..AT_ONCE
    },
    Run {
        trace: (LIMITED, 20, 2),
        outcome: Ended(Outcome::ReadFault),
        ..AT_ONCE
    },
    Run {
        room: (1, 99),
        outcome: Ended(Outcome::Findings),
        written: LIMITED_REPORT,
        ..AT_ONCE
    },
    Run {
        room: (0, 99),
        ..AT_ONCE
    },
    // A line is refused before a read that would fail, or not.
    Run {
        trace: (b"100 read(x) RET 1\n", 99, 2),
        outcome: Ended(Outcome::Refused { code: 4, line: 1 }),
        written: "refused E4 line 1\n",
        reads: Some(1),
        ..AT_ONCE
    },
    Run {
        trace: (b"100 read(x) RET 1", 99, 2),
        outcome: Ended(Outcome::ReadFault),
        ..AT_ONCE
    },
    Run {
        turns: 99,
        trace: (
            b"x\n\n\n\n\n\n\n\n\n\n\n\n\n\n\n\n\n\n\n\n\n\n\n\n\n\n\n\n\n\n\n\n\n\n\n\n\n\n\n\n\n\n\n\n\n\n\n\n\n\n\n\n\n\n\n\n\n\n\n\n\n\n\n\n\n\n\n\n\n\n\n\n\n\n\n\n\n\n\n\n\n\n\n\n\n\n\n\n\n\n\n\n\n\n\n\n\n\n\n\n\n",
            1,
            0,
        ),
        outcome: Ended(Outcome::Refused { code: 3, line: 1 }),
        written: "refused E3 line 1\n",
        ..AT_ONCE
    },
    Run {
        trace: (&[b'#'; 1025], 1025, 2),
        outcome: Ended(Outcome::Refused { code: 1, line: 1 }),
        written: "refused E1 line 1\n",
        reads: Some(1),
        ..AT_ONCE
    },
    Run {
        turns: 100,
        trace: (&[b'\n'; 1000], 1, 0),
        outcome: Ended(Outcome::TooLong),
        reads: Some(100),
        ..AT_ONCE
    },
    // A start that is not taken leaves the trace unread.
    Run {
        other: (b"100 out closed\n", 99, 1),
        ..NOT_FROM
    },
    Run {
        other: (b"100 out closed\n", 99, 2),
        other_reads: Some(2),
        ..NOT_FROM
    },
    Run {
        turns: 1,
        outcome: Ended(Outcome::TooLong),
        ..NOT_FROM
    },
    Run {
        other: (b"x\n100 out closed\n", 99, 2),
        outcome: Ended(Outcome::StartRefused { code: 3, line: 1 }),
        written: "refused E3 start line 1\n",
        ..NOT_FROM
    },
    Run {
        other: (b"x\n100 out closed\n", 99, 2),
        room: (7, 12),
        outcome: Ended(Outcome::WriteFault),
        written: "refused E3 s",
        ..NOT_FROM
    },
    // Nor is the script of an edit read.
    Run {
        call: Call::EditFrom(Profile::One, b"x\n100 out closed\n"),
        other: (b"count\n", 99, 0),
        outcome: Ended(Outcome::StartRefused { code: 3, line: 1 }),
        written: "refused E3 start line 1\n",
        other_reads: Some(0),
        ..NOT_FROM
    },
    // Replies before a fault stand.
    Run {
        other: (b"count\n", 1, 7),
        other_reads: Some(7),
        ..CUT
    },
    Run {
        other: (b"count\ncount", 1, 0),
        room: (99, 3),
        outcome: Ended(Outcome::WriteFault),
        written: "3\n3",
        other_reads: Some(12),
        ..CUT
    },
    Run {
        other: (b"count\nshow", 1, 9),
        other_reads: Some(9),
        ..CUT
    },
    // Neither text of a script is read without an end.
    ENDLESS,
    Run {
        trace: (b"", 1, 0),
        other: (&[b'\n'; 200], 1, 0),
        reads: Some(1),
        other_reads: Some(99),
        ..ENDLESS
    },
];

#[test]
fn a_broken_device_ends_the_call(rt: HostRuntime) -> Result<(), Fail> {
    for run in &BROKEN {
        ends(rt.alloc(), run)?;
    }
    Ok(())
}

/// A script of two lines that comes byte by byte, for a writer that takes nothing.
static UNWRITTEN: Run<'static> = Run {
    other: (b"count\ncount\n", 1, 0),
    room: (99, 0),
    outcome: Ended(Outcome::WriteFault),
    written: "",
    other_reads: Some(6),
    ..CUT
};

/// The first line has six bytes with its end. The second isn't read before the reply to the first is written.
#[test]
fn a_writer_that_fails_at_once_leaves_the_second_line_unread(rt: HostRuntime) -> Result<(), Fail> {
    ends(rt.alloc(), &UNWRITTEN)
}
