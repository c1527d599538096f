//! Worked texts, with what is answered to them; long texts; and devices of std.

use crate::answers::{Call, Run, Worked, are_answered, ends, wanted};
use crate::texts::repeated;
use bstr::ByteSlice;
use cap_machine::Profile;
use cap_session::ExplainOutcome::{Ended, OutOfRange};
use cap_session::{
    Counted, Failed, Outcome, Refused, Sink, Source, accepted_edits_give, bad_is_refused,
    beginning_decides, check_stream, each_report_is_of_its_trace, explains_what_is_reported,
    good_is_reported, inserted_stands, no_edit_asks_for_memory, number_of, pieces_agree,
    script_leaves_what_edits_give, script_reports_what_edits_give,
};
use std::alloc::Global;
use std::io::{self, ErrorKind, Read, Write};
use std::test::Fail;

/// A trace that a descriptor was limited in, and what is found in it.
const LIMITED: &[u8] =
    b"100 @start(0,3)\n100 cap_rights_limit(0,CAP_READ) RET 0\n100 write(0) RET 5";

const LIMITED_REPORT: &str = "3 100 write missing 0 CAP_WRITE\nfindings 1\n";

static TEXTS: [Worked<'static>; 12] = [
    (Call::Check, b"", b"", Ended(Outcome::Clean), "findings 0\n"),
    (
        Call::Check,
        LIMITED,
        b"",
        Ended(Outcome::Findings),
        LIMITED_REPORT,
    ),
    (
        Call::Check,
        b"100 write(7) RET 5\n",
        b"",
        Ended(Outcome::Clean),
        "findings 0\n",
    ),
    (
        Call::Check,
        b"100 @start(0,3)\n100 cap_rights_limit(0,CAP_READ) RET 0\n100 cap_rights_limit(0,CAP_READ|CAP_WRITE) RET 0\n100 write(0) RET 1\n",
        b"",
        Ended(Outcome::Findings),
        "3 100 cap_rights_limit expanded 0 CAP_WRITE\n4 100 write missing 0 CAP_WRITE\nfindings 2\n",
    ),
    (
        Call::Check,
        b"100 @start(0,3)\n100 read(0) RET -1 errno 93\n",
        b"",
        Ended(Outcome::Findings),
        "2 100 read refusal\nfindings 1\n",
    ),
    (
        Call::Check,
        b"100 cap_rights_limit(6,CAP_READ) RET 0\n100 write(6) RET 1\n",
        b"",
        Ended(Outcome::Findings),
        "2 100 write missing 6 CAP_WRITE\nfindings 1\n",
    ),
    (
        Call::Check,
        b"100 @start(0)\n# note\n\n100 read(x) RET 1\n",
        b"",
        Ended(Outcome::Refused { code: 4, line: 4 }),
        "refused E4 line 4\n",
    ),
    (
        Call::Check,
        b"100 @start(0)\n100 read(4)",
        b"",
        Ended(Outcome::Refused { code: 2, line: 2 }),
        "refused E2 line 2\n",
    ),
    (
        Call::Check,
        b"\n\r\n",
        b"",
        Ended(Outcome::Refused { code: 3, line: 2 }),
        "refused E3 line 2\n",
    ),
    (
        Call::Check,
        &[b'#'; 1025],
        b"",
        Ended(Outcome::Refused { code: 1, line: 1 }),
        "refused E1 line 1\n",
    ),
    (
        Call::Check,
        &[b'#'; 1024],
        b"",
        Ended(Outcome::Clean),
        "findings 0\n",
    ),
    // A refused line ends an explanation, too.
    (
        Call::Explain(Profile::One, 1),
        b"100 @start(0)\n# note\n\n100 read(x) RET 1\n",
        b"",
        Ended(Outcome::Refused { code: 4, line: 4 }),
        "refused E4 line 4\n",
    ),
];

#[test]
fn a_text_is_reported_in_pieces_of_any_size(rt: HostRuntime) -> Result<(), Fail> {
    are_answered(rt.alloc(), &TEXTS)
}

/// A trace has a million lines at most: a comment may follow them, and nothing else.
#[test]
fn a_line_past_the_millionth_is_refused(rt: HostRuntime) -> Result<(), Fail> {
    let thousand = repeated(rt.alloc(), b"", b"1 @start()\n", 1_000, b"")?;
    let million = repeated(rt.alloc(), b"", &thousand, 1_000, b"# x\nx");
    drop(thousand);
    let text = million?;
    let is_refused = ends(
        rt.alloc(),
        &Run {
            call: Call::Check,
            turns: 4096,
            trace: (&text, 65_536, 0),
            other: (b"", 1, 0),
            room: (64, 256),
            outcome: Ended(Outcome::Refused {
                code: 8,
                line: 1_000_002,
            }),
            written: "refused E8 line 1000002\n",
            reads: None,
            other_reads: None,
        },
    );
    drop(text);
    is_refused
}

/// A reader of std that gives a text at once, but fails at one of its reads, counted from 1.
#[derive(Drop)]
struct Given<'a> {
    rest: &'a [u8],
    fails_at: u64,
    reads: u64,
}

impl<'a> Read for Given<'a> {
    fn read(&mut self, buffer: &mut [u8]) -> io::Result<usize> {
        self.reads = self.reads.saturating_add(1);
        if self.reads == self.fails_at {
            return Err(io::Error::from(ErrorKind::TimedOut));
        }
        let n = buffer.len().min(self.rest.len());
        let rest = self.rest;
        buffer[..n].copy_from_slice(&rest[..n]);
        self.rest = &rest[n..];
        Ok(n)
    }
}

/// A writer of std that takes so many bytes, and from then on none.
#[derive(Drop)]
struct Room {
    left: usize,
    taken: Vec<u8>,
    writes: u64,
}

impl Write for Room {
    fn write(&mut self, bytes: &[u8]) -> io::Result<usize> {
        self.writes = self.writes.saturating_add(1);
        let n = bytes.len().min(self.left);
        if self.taken.extend_from_slice(&bytes[..n]).is_err() {
            return Err(io::Error::from(ErrorKind::OutOfMemory));
        }
        self.left -= n;
        Ok(n)
    }

    fn flush(&mut self) -> io::Result<()> {
        Ok(())
    }
}

/// A writer that takes so many bytes.
fn room_of(alloc: Global, left: usize) -> Room {
    Room {
        left,
        taken: Vec::new(alloc),
        writes: 0,
    }
}

/// Checks a text over devices of std: the outcome, and how many reads were made.
fn checked_by_std(alloc: Global, text: &[u8], fails_at: u64, room: &mut Room) -> (Outcome, u64) {
    let mut given = Given {
        rest: text,
        fails_at,
        reads: 0,
    };
    let mut reader = Counted::new(&mut given);
    let ended = check_stream(alloc, 9, &mut reader, &mut Counted::new(room));
    (ended, given.reads)
}

/// Which read of std fails, how many bytes its writer takes, the outcome, its status, how many reads are made, and how
/// much of the report is written.
type OfStd = (u64, usize, Outcome, u8, u64, usize);

static OF_STD: [OfStd; 4] = [
    (0, 256, Outcome::Findings, 1, 2, LIMITED_REPORT.len()),
    (0, 10, Outcome::WriteFault, 3, 2, 10),
    (2, 256, Outcome::ReadFault, 3, 2, 0),
    (1, 256, Outcome::ReadFault, 3, 1, 0),
];

/// Whether devices of std end a check as a row says.
fn ends_by_std(alloc: Global, row: &OfStd) -> bool {
    let (fails_at, left, outcome, status, reads, written) = row;
    let mut room = room_of(alloc, *left);
    let (ended, made) = checked_by_std(alloc, LIMITED, *fails_at, &mut room);
    ended == *outcome
        && ended.status() == *status
        && made == *reads
        && Some(room.taken.as_slice()) == LIMITED_REPORT.as_bytes().get(..*written)
}

/// A device of std is asked no more than the calls that are counted. One that fails once is not asked again, though it
/// would go on.
#[test]
fn devices_of_std_fail_only_where_they_do(rt: HostRuntime) {
    for row in &OF_STD {
        assert!(rt; ends_by_std(rt.alloc(), row));
    }
}

/// Whether this is a report of 3,200 findings, from position 3 on.
fn is_long_report(text: &[u8]) -> bool {
    let Some(findings) = text.strip_suffix(b"findings 3200\n".as_slice()) else {
        return false;
    };
    for (position, line) in (3..3203).zip(findings.lines()) {
        let number = line.strip_suffix(b" 100 write missing 0 CAP_WRITE".as_slice());
        if number_of(number.unwrap_or(b"")) != Some(position) {
            return false;
        }
    }
    text.len() == 110_913
}

/// A limit and 3,200 writes after it have a report of more than 100,000 bytes, to a writer that takes all at once.
#[test]
fn a_long_report_is_written_whole(rt: HostRuntime) -> Result<(), Fail> {
    let head = b"100 @start(0,3)\n100 cap_rights_limit(0,CAP_READ) RET 0\n";
    let trace = repeated(rt.alloc(), head, b"100 write(0) RET 5\n", 3200, b"")?;
    let mut room = room_of(rt.alloc(), 200_000);
    let (ended, _) = checked_by_std(rt.alloc(), &trace, 0, &mut room);
    let is_whole = ended == Outcome::Findings && is_long_report(&room.taken);
    drop(room);
    drop(trace);
    wanted(is_whole, "findings 3200")
}

/// Whether a counted reader counts each of its reads.
fn counts_reads() -> bool {
    let mut reader = Counted::new(Given {
        rest: b"abc",
        fails_at: 2,
        reads: 0,
    });
    let mut buffer = [0_u8; 2];
    Source::room(&reader) == u64::MAX
        && Source::read(&mut reader, &mut buffer) == Ok(2)
        && Source::read(&mut reader, &mut buffer) == Err(Failed)
        && Source::read(&mut reader, &mut buffer) == Ok(1)
        && Source::read(&mut reader, &mut buffer) == Ok(0)
        && Source::room(&reader) == u64::MAX - 4
}

/// Whether a counted writer with room for 3 bytes counts each of its writes.
fn counts_writes(room: &mut Room) -> bool {
    let mut writer = Counted::new(room);
    Sink::write(&mut writer, b"ab") == Ok(2)
        && Sink::write(&mut writer, b"cd") == Ok(1)
        && Sink::write(&mut writer, b"d") == Err(Failed)
        && Sink::room(&writer) == u64::MAX - 1
}

/// Each read of a counted reader and each write of a counted writer, on its own.
#[test]
fn counted_devices_count_their_calls(rt: HostRuntime) {
    let mut room = room_of(rt.alloc(), 3);
    let is_counted = counts_writes(&mut room) && room.writes == 3;
    drop(room);
    assert!(rt; is_counted && counts_reads());
}

#[test]
fn statuses_and_codes_have_their_numbers(rt: HostRuntime) {
    assert!(rt;
        Ended(Outcome::Clean).status() == 0
            && Ended(Outcome::Findings).status() == 1
            && OutOfRange.status() == 2
            && Ended(Outcome::Memory).status() == 3
            && Refused::Shape.code() == 2
            && Refused::Position.code() == 7
    );
}

#[test]
fn the_laws_are_calls() {
    beginning_decides();
    pieces_agree();
    good_is_reported();
    bad_is_refused();
    script_leaves_what_edits_give();
    each_report_is_of_its_trace();
    script_reports_what_edits_give();
    explains_what_is_reported();
    accepted_edits_give();
    inserted_stands();
    no_edit_asks_for_memory();
}
