//! Reading a line: from bytes, and again from the text that a [`Line`] keeps.

ghost use Rattle.std.specs.Prelude.{◌≡◌, ℕ, List, IfOk, IfSome, Ok, Err};
ghost use Rattle.cap_trace.specs.Reading.{line_of};
ghost use Rattle.cap_trace.specs.Code.Rows.{head_view};
ghost use Rattle.cap_trace.specs.Code.FastPath.{Starts};
ghost use Rattle.cap_trace.specs.Names.{listed};
ghost use Rattle.cap_trace.specs.declared.calls.Form.TheVariants as forms;
ghost use Rattle.cap_trace.specs.declared.fault.LineFault.TheVariants.{Memory};
ghost use Rattle.cap_trace.specs.Spelling.{Spells};
ghost use Rattle.cap_trace.specs.Parsing.{SpellsSome, FaultsAreExact, ReadsOnly, MatchesReading};

use crate::calls::{Form, NeedsMarker};
use crate::fast_path::{Start, call_after, needs, on_fd, start_of};
use crate::fault::LineFault;
use crate::limits::Pid;
use crate::line::{Call, Item, Line, LineRef};
use crate::names::Head;
use crate::quotes::cut;
use crate::scan::line;
use crate::scan_fields::pid_of;
use cap_rights::NoMemory;
use std::alloc::Global;

/// A line with a marker of needs, where that is read in one pass.
#[inline(always)]
fn needs_fast(pid: Pid, marker: NeedsMarker, text: &[u8]) -> Option<LineRef<'_>>
    requires { (bytes : List ℕ) × Starts bytes pid (listed (forms.Needs marker)) text.now }
    ensures { (bytes : List ℕ) → Starts bytes pid (listed (forms.Needs marker)) text.now
        → IfSome result (λ l. line_of bytes ≡ Ok l) }
{
    // With a `?` in place of the match there is no proof.
    match needs(marker, text) {
        Some(item) => Some(LineRef { pid, item }),
        None => None,
    }
}

/// A line with a call, where that is read in one pass.
#[inline(always)]
fn call_fast(start: Start<'_>) -> Option<LineRef<'_>>
    requires { (bytes : List ℕ) × Starts bytes start.pid (head_view start.head) start.text.now }
    ensures { (bytes : List ℕ) → Starts bytes start.entry.pid (head_view start.entry.head) start.entry.text.now
        → IfSome result (λ l. line_of bytes ≡ Ok l) }
{
    match call_after(start.head, start.text) {
        Some((call, answer)) => Some(LineRef {
            pid: start.pid,
            item: Item::Call { call, answer },
        }),
        None => None,
    }
}

/// A line with either, where that is read in one pass.
#[inline(always)]
fn other_fast(start: Start<'_>) -> Option<LineRef<'_>>
    requires { (bytes : List ℕ) × Starts bytes start.pid (head_view start.head) start.text.now }
    ensures { (bytes : List ℕ) → Starts bytes start.entry.pid (head_view start.entry.head) start.entry.text.now
        → IfSome result (λ l. line_of bytes ≡ Ok l) }
{
    let Head::Listed(form) = start.head else {
        return call_fast(start);
    };
    let Form::Needs(marker) = form else {
        return call_fast(start);
    };
    needs_fast(start.pid, marker, start.text)
}

/// What the bytes say, where that is read in one pass. It takes no memory.
///
/// `None` says nothing: [`read_slow`] then tells, and gives what this gives wherever this gives a line.
///
/// A call on one descriptor, which two lines of three have, is told from the others first.
#[inline(always)]
pub fn read_fast(bytes: &[u8]) -> Option<LineRef<'_>>
    // What is read is what reading from the left gives.
    ensures { IfSome result (λ l. line_of bytes.now ≡ Ok l) }
{
    let start = start_of(bytes)?;
    let Head::Listed(form) = start.head else {
        return other_fast(start);
    };
    let Form::OnFd(call) = form else {
        return other_fast(start);
    };
    let (fd, answer) = on_fd(call, start.text)?;
    let call = Call::OnFd(call, fd);
    Some(LineRef {
        pid: start.pid,
        item: Item::Call { call, answer },
    })
}

/// What the bytes say, read with care. It takes no memory. It stays a call, since [`read_fast`] reads most lines.
///
/// # Errors
///
/// The first fault of the bytes, from the left. It is never [`LineFault::Memory`].
#[inline(never)]
pub fn read_slow(bytes: &[u8]) -> Result<LineRef<'_>, LineFault>
    ensures read { MatchesReading bytes.now result }
    ensures memory { result ≡ Err Memory → ⊥ }
{
    match line(bytes) {
        Ok((pid, item)) => Ok(LineRef { pid, item }),
        Err(fault) => Err(LineFault::of(fault)),
    }
}

/// What the bytes say, or their first fault.
pub(crate) fn read(bytes: &[u8]) -> Result<LineRef<'_>, LineFault>
    ensures read { MatchesReading bytes.now result }
    ensures memory { result ≡ Err Memory → ⊥ }
{
    match read_fast(bytes) {
        Some(line) => Ok(line),
        None => read_slow(bytes),
    }
}

/// The line that the bytes spell: at most 1,024 of them, without a line feed at their end.
///
/// The line keeps these bytes. Else reading takes no memory.
///
/// # Errors
///
/// The first fault of the bytes, from the left. [`LineFault::Memory`] comes only where the bytes spell a line, and
/// memory ran out.
#[inline(never)]
pub fn parse_line(alloc: Global, bytes: &[u8]) -> Result<Line, LineFault>
    // What is read is spelled so.
    ensures found { IfOk result (λ l. Spells bytes.now l) }
    // Which fault it is.
    ensures faults { FaultsAreExact bytes.now result }
    // Memory runs out only for a line.
    ensures memory { result ≡ Err Memory → SpellsSome bytes.now }
    // What is spelled so is read, unless memory runs out.
    ensures only { ReadsOnly bytes.now result }
    // The function that reads from the left says the same.
    ensures reads { MatchesReading bytes.now result }
{
    match read(bytes) {
        Ok(line) => match line.to_line(alloc, bytes) {
            Ok(line) => Ok(line),
            Err(_) => Err(LineFault::Memory),
        },
        Err(fault) => Err(fault),
    }
}

impl<'a> LineRef<'a> {
    /// An owned copy of the line, which keeps these bytes that spell it.
    ///
    /// # Errors
    ///
    /// [`NoMemory`] where memory ran out.
    pub fn to_line(&self, alloc: Global, bytes: &[u8]) -> Result<Line, NoMemory>
        requires spelled { line_of bytes.now ≡ Ok self.now }
        ensures { IfOk result (λ l. l ≡ self.now) }
    {
        let text = Vec::from_slice(alloc, bytes)?;
        Ok(Line { text })
    }
}

impl Line {
    ghost use Rattle.cap_trace.specs.Entry.{head_of};
    ghost use Rattle.cap_trace.specs.Names.{name_of};

    /// What the line says. It is read from its text, and takes no memory.
    pub fn view(&self) -> LineRef<'_>
        ensures { result ≡ self.now }
    {
        match read(&self.text) {
            Ok(line) => line,
            Err(_) => unreachable!(),
        }
    }

    /// The process of the line. Only the front of its text is read.
    pub fn pid(&self) -> Pid
        ensures { result ≡ self.now.pid }
    {
        let Some((pid, _)) = cut(b' ', &self.text) else {
            unreachable!()
        };
        let Ok(pid) = pid_of(pid) else { unreachable!() };
        pid
    }

    /// The name of the line's call; of a marker its word with the `@`.
    pub fn name(&self) -> &[u8]
        ensures { result.now ≡ name_of (head_of self.now.item) }
    {
        self.view().name()
    }
}
