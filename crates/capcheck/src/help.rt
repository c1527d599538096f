//! The texts of help beside what `clap` makes of the command line, and the version. No contract reads them.

/// The version, which `--version` prints. A release gets a section in `CHANGELOG.md`.
pub const VERSION: &str = "0.2.0";

/// The end of `capcheck --help`.
pub const PROGRAM: &str = "\
Exit status:
  0  nothing was found; also after help and limits
  1  something was found
  2  the command line is wrong, or a line of the trace was refused
  3  no answer, for the reason on standard error:
     capcheck: E9   memory ran out
     capcheck: E11  a file can't be opened, or reading failed
     capcheck: E12  writing to standard output failed
     capcheck: E13  the input has no end

With -v, or where standard error is a terminal, it also says in words what is wrong.

Examples:
  capcheck check server.trace
  capcheck edit server.trace session.script
  capcheck explain server.trace 9
  capcheck denials server.trace
  capcheck limits server.trace 5

`capcheck help check` and the same for each other command say more.";

/// The end of `capcheck check --help`.
pub const CHECK: &str = "\
Reads a trace, with a line for each completed call or marker:
  100 @start(0,3)
  100 cap_rights_limit(0,CAP_READ) RET 0
  100 write(0) RET 5
Empty lines and lines that begin with `#` are skipped.

Prints a line for each finding, and then how many there are. Here process 100
wrote at line 3 to descriptor 0, which lacked CAP_WRITE:
  3 100 write missing 0 CAP_WRITE
  findings 1
Where a line can't be read, that is printed in place of the report, with the
line's number in the file:
  refused E2 line 7
With -v, or where standard error is a terminal, that says what is wrong:
  capcheck: server.trace:7: E2: no ) after the arguments, but 0 RET 5
The codes: E1 more than 1,024 bytes, E2 the line's shape, E3 its pid, E4 an
argument, E5 a right, E6 its result, E8 a line after the 1,000,000th.

The start says what is known of processes before the trace, with a line for each:
its pid, in ascending order; `in`, `out` or `unsure` for capability mode; what all
descriptors are that aren't listed; and those that are, in ascending order. A
descriptor is `unknown`, `closed`, or open with rights:
  100 out closed 0=ALL 3=CAP_READ|CAP_SEEK 5=unknown
Of other processes nothing is known. A line that can't be read is printed in
place of the report, as `refused E4 start line 2`, and the trace isn't read. The
codes: E1 more than 1,024 bytes, E3 the pid, E4 the mode or a descriptor's number,
E5 what a descriptor is.

In profile 1 nothing is known of the descriptors of a process after a successful
exec, and closefrom(2) changes nothing. Profile 2 follows the close-on-exec flags
and closefrom(2).

Exit status:
  0  nothing was found
  1  something was found
  2  the command line is wrong, or a line was refused
  3  no answer: memory ran out (E9), a file can't be opened or read (E11),
     standard output can't be written (E12), or an input has no end (E13)

Examples:
  capcheck check server.trace
  capcheck check --profile 2 --start server.start server.trace";

/// The end of `capcheck edit --help`.
pub const EDIT: &str = "\
Loads the trace, and replies to each line of the script before it works through
the next. Empty lines and lines that begin with `#` are skipped, and positions count
the lines of the trace that are not, from 1. The commands:
  insert K LINE   puts LINE at position K, 1 to the number of lines and one more
  replace K LINE  puts LINE in the place of line K
  delete K        takes line K out
  show K          prints line K
  count           prints the number of lines
  report          prints the findings of the whole trace, and how many
  report A B      prints the findings at positions A to B, and how many
  changes         prints what went (`- `) and what came (`+ `) since the last
                  `report` or `changes`, and how many there are now; `all` and
                  each finding where there is nothing to compare with
  explain K       prints what `capcheck explain` prints of line K, and `explained`
                  with the number of lines that begin with a descriptor or `mode`
  denials         prints what `capcheck denials` prints
  limits [K]      prints the script that `capcheck limits` prints, and `limits`
                  with the number of its inserts

The reply to an edit is `ok` and the number of lines. The reply to what can't be
done is `refused` and a code, and the trace stays as it was:
  E1 to E6  the line, as in `capcheck check --help`; E1 also a command of more
            than 1,056 bytes
  E7        there is no such position
  E8        the trace has 1,000,000 lines
  E9        memory ran out
  E10       there is no such command
A trace or a start with a line that can't be read is refused as by `check`, and the
script isn't read. The files are not changed. The start and the profiles are those
of `check`.

Exit status:
  0  nothing is found in the trace as it is at the end
  1  something is found in it
  2  the command line is wrong, or a line of the trace was refused
  3  no answer: memory ran out (E9), a file can't be opened or read (E11),
     standard output can't be written (E12), or an input has no end (E13)

Example:
  printf 'delete 2\\nreport\\n' | capcheck edit server.trace";

/// The end of `capcheck explain --help`.
pub const EXPLAIN: &str = "\
Reads the trace, and prints line K, its findings, and the lines that they rest on:
  9 201 shutdown(4) RET 0
  missing 4 CAP_SHUTDOWN
  4 4 201 cap_rights_limit(4,CAP_READ|CAP_WRITE) RET 0
  4 3 200 fork() RET 201
  4 2 200 accept(3) RET 4
After the findings comes each descriptor that the line checks, with the lines that
its rights come from, newest first: the descriptor, a position, and the line there.
Here process 201 limited descriptor 4 at line 4, has it from the fork of its parent
at line 3, and its parent made it at line 2. `mode` in place of the descriptor stands
for capability mode, where it can matter. Where these lines lead back to what was
known before the trace, the last says so: `4 start unknown`, `mode start unsure`.
A line without findings is explained alike.

A trace or a start with a line that can't be read is refused as by `check`. Where
the trace has no line K, that is refused:
  refused E7
The start and the profiles are those of `check`.

Exit status:
  0  the line has no finding
  1  it has some
  2  the command line is wrong, a line was refused, or there is no line K
  3  no answer: memory ran out (E9), a file can't be opened or read (E11),
     standard output can't be written (E12), or an input has no end (E13)

Examples:
  capcheck explain server.trace 9
  capcheck explain --profile 2 --start server.start server.trace 9";

/// The end of `capcheck denials --help`.
pub const DENIALS: &str = "\
Reads a trace, and prints what was lacking for each call that was refused with
errno 93 (ENOTCAPABLE) or 94 (ECAPMODE), and then how many there are:
  30 100 read lacks 5 CAP_READ
  41 100 open inside
  52 100 ioctl unexplained
  denials 3
At line 30 descriptor 5 was held without CAP_READ, which the call needs. At line 41
the process was in capability mode, which doesn't always allow the call. At line 52
nothing that is known explains the refusal: it may be another limit, a path that
leaves its directory, or an unknown descriptor; where `check` has a finding, the
refusal is wrong.

A line that can't be read is refused as by `check`. Starts and profiles are those of
`check`.

Exit status:
  0  no call was refused
  1  some calls were refused
  2  the command line is wrong, or a line was refused
  3  no answer: memory ran out (E9), a file can't be opened or read (E11),
     standard output can't be written (E12), or an input has no end (E13)

Example:
  capcheck denials server.trace";

/// The end of `capcheck limits --help`.
pub const LIMITS: &str = "\
Reads the trace, and prints a script for `capcheck edit` that limits descriptors to
the rights which later lines need of them. With K the limits stand before line K, for
the process of that line:
  # process 201 before line 4
  insert 4 201 cap_rights_limit(0,NONE) RET 0
  insert 5 201 cap_rights_limit(1,NONE) RET 0
  insert 6 201 cap_rights_limit(2,NONE) RET 0
  insert 7 201 cap_rights_limit(3,NONE) RET 0
  # descriptor 4 isn't known; later calls need CAP_READ|CAP_WRITE
  insert 8 201 cap_enter() RET 0
There is a limit for each descriptor that is known to be held, but for those that a
start gives only by what it says of all others. In place of cap_enter() a comment may
say that the process is in capability mode already, or name the first line that the
mode would forbid:
  # process 201 is in capability mode already
  # no cap_enter: line 5, openat of process 201

Without K there is a limit right after each line that made a descriptor which is
then known to be held. The last comes first, so that each position is one of the
trace:
  insert 8 300 cap_rights_limit(4,CAP_READ) RET 0
  insert 3 300 cap_rights_limit(3,CAP_READ|CAP_SEEK) RET 0

With the script in the trace no line has a finding that it hadn't before, and with
one right less some line lacks that right. Calls that failed need nothing.

A trace or a start with a line that can't be read is refused as by `check`. Where
the trace has no line K, that is refused:
  refused E7
The start and the profiles are those of `check`.

Exit status:
  0  the script was printed
  2  the command line is wrong, a line was refused, or there is no line K
  3  no answer: memory ran out (E9), a file can't be opened or read (E11),
     standard output can't be written (E12), or an input has no end (E13)

Examples:
  capcheck limits server.trace
  capcheck limits server.trace 5 | capcheck edit server.trace";
