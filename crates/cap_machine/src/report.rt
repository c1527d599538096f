//! The text of a report.

ghost use Rattle.cap_rights.specs.Text.{text};
ghost use Rattle.std.specs.Prelude.{◌≡◌, ◌≤◌, [], ◌∷◌, ◌++◌, decimal, length, take, flat_map, IfOk, OnOk, OnErr};
ghost use Rattle.std.specs.List.{join_with_byte};
ghost use Rattle.cap_trace.specs.Entry.{head_of};
ghost use Rattle.cap_trace.specs.Names.{name_of};
ghost use Rattle.cap_machine.specs.Check.{found_at};
ghost use Rattle.cap_machine.specs.Denials.{denied_at};
ghost use Rattle.cap_machine.specs.Report.{finding_words, finding_line, last_line, line_of_words};
ghost use Rattle.cap_machine.specs.DenialReport.{front_of, denial_words, denial_line, last_denial_line};

use crate::denial::{Denial, LineDenials};
use crate::verdict::{Finding, Verdict};
use cap_rights::{NoMemory, RightSet, write_rights};
use cap_trace::{Fd, LineRef, put_number};

/// Appends a descriptor and rights, with one space between.
fn put_rights(out: &mut Vec<u8>, fd: Fd, rights: &RightSet) -> Result<(), NoMemory>
    ensures ok { OnOk result (out.new.items ≡ out.old.items ++ join_with_byte 32 (decimal fd ∷ text rights.now ∷ [])) }
    ensures err { OnErr result (take (length out.old.items) out.new.items ≡ out.old.items) }
{
    put_number(out, u64::from(fd))?;
    out.extend_from_slice(b" ")?;
    write_rights(rights, out)
}

/// Appends the word of a finding and what belongs to it, with one space between.
///
/// `NoMemory` when out of memory; the vector then still begins with what it had, and a part may follow.
pub fn put_finding_words(out: &mut Vec<u8>, finding: &Finding) -> Result<(), NoMemory>
    ensures ok { OnOk result (out.new.items ≡ out.old.items ++ join_with_byte 32 (finding_words finding.now)) }
    ensures err { OnErr result (take (length out.old.items) out.new.items ≡ out.old.items) }
{
    match finding {
        Finding::Forbidden => out.extend_from_slice(b"forbidden")?,
        Finding::ModeRefusal => out.extend_from_slice(b"moderefusal")?,
        Finding::Refusal => out.extend_from_slice(b"refusal")?,
        Finding::Closed(fd) => {
            out.extend_from_slice(b"closed ")?;
            put_number(out, u64::from(*fd))?;
        }
        Finding::Missing(fd, lacking) => {
            out.extend_from_slice(b"missing ")?;
            put_rights(out, *fd, lacking)?;
        }
        Finding::Expanded(fd, lacking) => {
            out.extend_from_slice(b"expanded ")?;
            put_rights(out, *fd, lacking)?;
        }
    }
    Ok(())
}

/// Appends the word of a denial and what belongs to it, with one space between.
///
/// `NoMemory` when out of memory; the vector then still begins with what it had, and a part may follow.
pub fn put_denial_words(out: &mut Vec<u8>, denial: &Denial) -> Result<(), NoMemory>
    ensures ok { OnOk result (out.new.items ≡ out.old.items ++ join_with_byte 32 (denial_words denial.now)) }
    ensures err { OnErr result (take (length out.old.items) out.new.items ≡ out.old.items) }
{
    match denial {
        Denial::Lacks(fd, lacking) => {
            out.extend_from_slice(b"lacks ")?;
            put_rights(out, *fd, lacking)?;
        }
        Denial::Inside => out.extend_from_slice(b"inside")?,
        Denial::Unexplained => out.extend_from_slice(b"unexplained")?,
    }
    Ok(())
}

/// Appends a number and a space. On an `Err` a part of it may have been appended.
fn put_number_and_space(out: &mut Vec<u8>, number: u64) -> Result<(), NoMemory>
    ensures ok { OnOk result (out.new.items ≡ out.old.items ++ (decimal number ++ 32 ∷ [])) }
    ensures err { OnErr result (take (length out.old.items) out.new.items ≡ out.old.items) }
{
    put_number(out, number)?;
    out.extend_from_slice(b" ")?;
    Ok(())
}

/// Appends the position, the process and the name of the call, with one space after each. On an `Err` a part of it may
/// have been appended.
fn put_front(out: &mut Vec<u8>, at: usize, line: &LineRef<'_>) -> Result<(), NoMemory>
    ensures ok { OnOk result (out.new.items ≡ out.old.items
        ++ front_of (decimal at) (decimal line.now.pid) (name_of (head_of line.now.item))) }
    ensures err { OnErr result (take (length out.old.items) out.new.items ≡ out.old.items) }
{
    put_number_and_space(out, at as u64)?;
    put_number_and_space(out, u64::from(line.pid))?;
    out.extend_from_slice(line.name())?;
    out.extend_from_slice(b" ")?;
    Ok(())
}

/// Appends the position, the process, the name of the call, and what was found. On an `Err` a part of it may have been
/// appended.
fn put_all(
    out: &mut Vec<u8>,
    at: usize,
    line: &LineRef<'_>,
    finding: &Finding,
) -> Result<(), NoMemory>
    ensures ok { OnOk result (out.new.items ≡ out.old.items ++ finding_line line.now (found_at at finding.now)) }
    ensures err { OnErr result (take (length out.old.items) out.new.items ≡ out.old.items) }
{
    put_front(out, at, line)?;
    put_finding_words(out, finding)?;
    out.extend_from_slice(b"\n")?;
    Ok(())
}

/// Appends the position, the process, the name of the call, and what was lacking. On an `Err` a part of it may have
/// been appended.
fn put_all_denied(
    out: &mut Vec<u8>,
    at: usize,
    line: &LineRef<'_>,
    denial: &Denial,
) -> Result<(), NoMemory>
    ensures ok { OnOk result (out.new.items ≡ out.old.items ++ denial_line line.now (denied_at at denial.now)) }
    ensures err { OnErr result (take (length out.old.items) out.new.items ≡ out.old.items) }
{
    put_front(out, at, line)?;
    put_denial_words(out, denial)?;
    out.extend_from_slice(b"\n")?;
    Ok(())
}

/// Appends the report's line on a finding about the line at a position: the position, the process, the name of the
/// call, the finding's word and what belongs to it, with one space between and a line feed at the end.
///
/// `NoMemory` when out of memory; the vector is then as before.
pub fn put_finding(
    out: &mut Vec<u8>,
    at: usize,
    line: &LineRef<'_>,
    finding: &Finding,
) -> Result<(), NoMemory>
    ensures ok { OnOk result (out.new.items ≡ out.old.items ++ finding_line line.now (found_at at finding.now)) }
    ensures err { OnErr result (out.new.items ≡ out.old.items) }
{
    let start = out.len();
    match put_all(out, at, line, finding) {
        Ok(()) => Ok(()),
        Err(NoMemory) => {
            out.truncate(start);
            Err(NoMemory)
        }
    }
}

/// Appends the line on what was lacking for the line at a position: the position, the process, the name of the call,
/// the denial's word and what belongs to it, with one space between and a line feed at the end.
///
/// `NoMemory` when out of memory; the vector is then as before.
pub fn put_denial(
    out: &mut Vec<u8>,
    at: usize,
    line: &LineRef<'_>,
    denial: &Denial,
) -> Result<(), NoMemory>
    ensures ok { OnOk result (out.new.items ≡ out.old.items ++ denial_line line.now (denied_at at denial.now)) }
    ensures err { OnErr result (out.new.items ≡ out.old.items) }
{
    let start = out.len();
    match put_all_denied(out, at, line, denial) {
        Ok(()) => Ok(()),
        Err(NoMemory) => {
            out.truncate(start);
            Err(NoMemory)
        }
    }
}

/// Appends the report's lines on the line at a position, and answers how many they are.
pub(crate) fn put_verdict(
    out: &mut Vec<u8>,
    at: usize,
    line: &LineRef<'_>,
    verdict: &Verdict,
) -> Result<usize, NoMemory>
    ensures text { OnOk result
        (out.new.items ≡ out.old.items ++ flat_map (λ f. finding_line line.now (found_at at f)) verdict.now) }
    ensures count { IfOk result (λ n. n ≡ length verdict.now) }
    ensures few { IfOk result (λ n. n ≤ 3) }
{
    for finding in verdict.as_slice() {
        put_finding(out, at, line, finding)?;
    }
    Ok(verdict.len())
}

/// Appends the lines on what was lacking for the line at a position, and answers how many they are.
pub(crate) fn put_denials(
    out: &mut Vec<u8>,
    at: usize,
    line: &LineRef<'_>,
    denials: &LineDenials,
) -> Result<usize, NoMemory>
    ensures text { OnOk result
        (out.new.items ≡ out.old.items ++ flat_map (λ d. denial_line line.now (denied_at at d)) denials.now) }
    ensures count { IfOk result (λ n. n ≡ length denials.now) }
    ensures few { IfOk result (λ n. n ≤ 3) }
{
    for denial in denials.as_slice() {
        put_denial(out, at, line, denial)?;
    }
    Ok(denials.len())
}

/// Appends a word and a number. On an `Err` a part of it may have been appended.
fn put_last(out: &mut Vec<u8>, word: &[u8], count: usize) -> Result<(), NoMemory>
    ensures ok { OnOk result (out.new.items ≡ out.old.items ++ line_of_words (word.now ∷ decimal count ∷ [])) }
    ensures err { OnErr result (take (length out.old.items) out.new.items ≡ out.old.items) }
{
    out.extend_from_slice(word)?;
    out.extend_from_slice(b" ")?;
    put_number(out, count as u64)?;
    out.extend_from_slice(b"\n")?;
    Ok(())
}

/// Appends a word and a number; on an `Err` nothing.
fn put_last_whole(out: &mut Vec<u8>, word: &[u8], count: usize) -> Result<(), NoMemory>
    ensures ok { OnOk result (out.new.items ≡ out.old.items ++ line_of_words (word.now ∷ decimal count ∷ [])) }
    ensures err { OnErr result (out.new.items ≡ out.old.items) }
{
    let start = out.len();
    match put_last(out, word, count) {
        Ok(()) => Ok(()),
        Err(NoMemory) => {
            out.truncate(start);
            Err(NoMemory)
        }
    }
}

/// Appends the last line of a report: how many findings it has.
///
/// `NoMemory` when out of memory; the vector is then as before.
pub fn put_count(out: &mut Vec<u8>, count: usize) -> Result<(), NoMemory>
    ensures ok { OnOk result (out.new.items ≡ out.old.items ++ last_line count) }
    ensures err { OnErr result (out.new.items ≡ out.old.items) }
{
    put_last_whole(out, b"findings", count)
}

/// Appends the last line of a text of denials: how many it has.
///
/// `NoMemory` when out of memory; the vector is then as before.
pub fn put_denial_count(out: &mut Vec<u8>, count: usize) -> Result<(), NoMemory>
    ensures ok { OnOk result (out.new.items ≡ out.old.items ++ last_denial_line count) }
    ensures err { OnErr result (out.new.items ≡ out.old.items) }
{
    put_last_whole(out, b"denials", count)
}
