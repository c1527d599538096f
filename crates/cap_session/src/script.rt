//! The lines of a script, as they come in pieces: each is performed on the session, and its reply is written.
ghost use Rattle.std.specs.Prelude.{◌≡◌, ◌<◌, ◌≤◌, [], ◌∷◌, ◌++◌, length, take, OnOk, OnErr};
ghost use Rattle.cap_session.specs.Limits.{longest_piece, most_held, most_lines};
ghost use Rattle.cap_session.specs.Lines.{last_piece};
ghost use Rattle.cap_session.specs.Code.Performs.{command_asked, Performs, state_of, text_of};
ghost use Rattle.cap_session.specs.Scripts.{Answers, Scripting, Replied, Broken, due, due_line, due_piece, due_end};

use crate::command::{Command, command_of};
use crate::devices::{Failed, Sink};
use crate::edit::Edit;
use crate::entries::{count_lines, is_skipped};
use crate::limits::{LONGEST_SCRIPT_LINE, MOST_HELD};
use crate::line_buffer::LineBuffer;
use crate::line_ends::LineEnds;
use crate::refused::Refused;
use crate::session::Session;
use crate::short_text::ShortText;
use crate::wording::put_between;
use crate::write::write_text;
use std::marker::Model;

/// The number in the reply to a line that is no command.
const NO_COMMAND: u8 = 10;

/// The text of a reply. A short one takes no memory.
#[derive(Drop)]
enum Reply {
    Short(ShortText),
    Long(Vec<u8>),
}

impl Reply {
    fn as_slice(&self) -> &[u8]
        ensures { result.now ≡ text_of self.now }
    {
        match self {
            Reply::Short(text) => text.as_slice(),
            Reply::Long(text) => text.as_slice(),
        }
    }
}

/// Makes an edit, and replies with the new count.
fn perform_edit(session: &mut Session, edit: &Edit<'_>) -> Result<Reply, Refused>
    requires { session.old.limit ≡ most_lines }
    ensures performs { Performs session.old.setting (state_of session.old)
        (command_asked (Command.Edit edit.now)) result (state_of session.new) }
    ensures limit { session.new.limit ≡ session.old.limit }
    ensures setting { session.new.setting ≡ session.old.setting }
{
    match session.edit(edit) {
        Ok(count) => Ok(Reply::Short(ShortText::numbered(b"ok ", count as u64))),
        Err(refused) => Err(refused),
    }
}

/// Replies with the text of a line.
fn perform_show(session: &Session, position: usize) -> Result<Reply, Refused>
    ensures { Performs session.now.setting (state_of session.now)
        (command_asked (Command.Show position)) result (state_of session.now) }
{
    let mut text = session.show(position)?;
    text.push(b'\n')?;
    Ok(Reply::Long(text))
}

/// Replies with the explanation of a line, and how many lines it rests on.
fn perform_explain(session: &Session, position: usize) -> Result<Reply, Refused>
    ensures { Performs session.now.setting (state_of session.now)
        (command_asked (Command.Explain position)) result (state_of session.now) }
{
    let mut line = session.explain(position)?;
    put_between(&mut line.text, b"explained ", line.links as u64, b"\n")?;
    Ok(Reply::Long(line.text))
}

/// Replies with the script of limits, and how many lines it puts in.
fn perform_limits(session: &Session, at: Option<usize>) -> Result<Reply, Refused>
    ensures { Performs session.now.setting (state_of session.now)
        (command_asked (Command.Limits at)) result (state_of session.now) }
{
    let mut text = session.limits(at)?;
    let count = count_lines(text.as_slice());
    put_between(&mut text, b"limits ", count as u64, b"\n")?;
    Ok(Reply::Long(text))
}

/// Does a command, and gives its reply.
fn perform(session: &mut Session, command: &Command<'_>) -> Result<Reply, Refused>
    requires { session.old.limit ≡ most_lines }
    ensures performs { Performs session.old.setting (state_of session.old)
        (command_asked command.now) result (state_of session.new) }
    ensures limit { session.new.limit ≡ session.old.limit }
    ensures setting { session.new.setting ≡ session.old.setting }
{
    match *command {
        Command::Edit(edit) => perform_edit(session, &edit),
        Command::Show(position) => perform_show(session, position),
        Command::Count => {
            let count = session.count() as u64;
            Ok(Reply::Short(ShortText::numbered(b"", count)))
        }
        Command::Report => Ok(Reply::Long(session.report()?)),
        Command::ReportRange(first, last) => Ok(Reply::Long(session.report_range(first, last)?)),
        Command::Changes => Ok(Reply::Long(session.changes()?)),
        Command::Explain(position) => perform_explain(session, position),
        Command::Denials => Ok(Reply::Long(session.denials()?)),
        Command::Limits(at) => perform_limits(session, at),
    }
}

/// The reply to a line; an empty text where the line is skipped.
fn reply_to(session: &mut Session, line: &[u8]) -> Reply
    requires { session.old.limit ≡ most_lines }
    ensures answers { Answers session.old.setting (state_of session.old) line.now (text_of result) (state_of session.new) }
    ensures limit { session.new.limit ≡ session.old.limit }
    ensures setting { session.new.setting ≡ session.old.setting }
{
    if line.len() > LONGEST_SCRIPT_LINE {
        return Reply::Short(ShortText::refused(Refused::LongLine.code()));
    }
    if is_skipped(line) {
        return Reply::Short(ShortText::new());
    }
    let Some(command) = command_of(line) else {
        return Reply::Short(ShortText::refused(NO_COMMAND));
    };
    match perform(session, &command) {
        Ok(reply) => reply,
        Err(refused) => Reply::Short(ShortText::refused(refused.code())),
    }
}

/// Replies to a line.
fn answer<W: Sink>(session: &mut Session, line: &[u8], writer: &mut W) -> Result<(), Failed>
    requires limit { session.old.limit ≡ most_lines }
    requires room { 1 ≤ (W.state writer.old).room }
    ensures ok { OnOk result (Replied session.old.setting (state_of session.old) (W.state writer.old) (W.state writer.new)
        (line.now ∷ []) (state_of session.new)) }
    ensures err { OnErr result
        (Broken session.old.setting (state_of session.old) (W.state writer.old) (W.state writer.new) (line.now ∷ [])) }
    ensures limit { session.new.limit ≡ session.old.limit }
    ensures setting { session.new.setting ≡ session.old.setting }
{
    let reply = reply_to(session, line);
    write_text(writer, reply.as_slice())
}

/// What is known while a script comes. Of the line that is begun no more than [`MOST_HELD`] bytes are kept:
/// with those the line is too long, and was replied to.
#[derive(Drop)]
pub struct Script {
    pub session: Session,
    pub held: LineBuffer<MOST_HELD>,
}

impl Model for Script {
    ghost Value = { Scripting };

    ghost view = { λ s. record { setting = s.session.setting; state = state_of s.session; held = s.held } };

    ghost invariant = { λ s. s.session.limit ≡ most_lines };
}

impl Script {
    /// Replies to the line that is begun, which these bytes complete.
    fn line<W: Sink>(&mut self, bytes: &[u8], writer: &mut W) -> Result<(), Failed>
        requires { 1 ≤ (W.state writer.old).room }
        ensures ok { OnOk result (Replied self.old.setting self.old.state (W.state writer.old) (W.state writer.new)
            (due_line self.old.held bytes.now) self.new.state) }
        ensures held { OnOk result (self.new.held ≡ []) }
        ensures err { OnErr result (Broken self.old.setting self.old.state (W.state writer.old) (W.state writer.new)
            (due_line self.old.held bytes.now)) }
        ensures setting { self.new.setting ≡ self.old.setting }
    {
        if self.held.len() > LONGEST_SCRIPT_LINE {
            self.held.clear();
            return Ok(());
        }
        if self.held.is_empty() {
            return answer(&mut self.session, bytes, writer);
        }
        self.held.add_front(bytes);
        let answered = answer(&mut self.session, self.held.as_slice(), writer);
        self.held.clear();
        answered
    }

    /// Begins a line or goes on with it, and replies where it gets too long.
    fn hold<W: Sink>(&mut self, bytes: &[u8], writer: &mut W) -> Result<(), Failed>
        requires { 1 ≤ (W.state writer.old).room }
        ensures ok { OnOk result (Replied self.old.setting self.old.state (W.state writer.old) (W.state writer.new)
            (due_piece self.old.held bytes.now) self.new.state) }
        ensures held { OnOk result (self.new.held ≡ take most_held (self.old.held ++ bytes.now)) }
        ensures err { OnErr result (Broken self.old.setting self.old.state (W.state writer.old) (W.state writer.new)
            (due_piece self.old.held bytes.now)) }
        ensures setting { self.new.setting ≡ self.old.setting }
    {
        let was_long = self.held.len() > LONGEST_SCRIPT_LINE;
        self.held.add_front(bytes);
        if was_long || self.held.len() <= LONGEST_SCRIPT_LINE {
            return Ok(());
        }
        answer(&mut self.session, self.held.as_slice(), writer)
    }

    /// Works the next piece through, each reply written before the next line.
    pub fn feed<W: Sink>(&mut self, piece: &[u8], writer: &mut W) -> Result<(), Failed>
        requires room { 1 ≤ (W.state writer.old).room }
        requires short { length piece.now ≤ longest_piece }
        ensures ok { OnOk result (Replied self.old.setting self.old.state (W.state writer.old) (W.state writer.new)
            (due self.old.held piece.now) self.new.state) }
        ensures held { OnOk result (self.new.held ≡ take most_held (last_piece self.old.held piece.now)) }
        ensures err { OnErr result (Broken self.old.setting self.old.state (W.state writer.old) (W.state writer.new)
            (due self.old.held piece.now)) }
        ensures setting { self.new.setting ≡ self.old.setting }
    {
        let mut ends = LineEnds::of(piece);
        while let Some(line) = ends.next() {
            self.line(line, writer)?;
        }
        self.hold(ends.rest(), writer)
    }

    /// Replies to the line that is begun, which is the last.
    pub fn end<W: Sink>(&mut self, writer: &mut W) -> Result<(), Failed>
        requires { 1 ≤ (W.state writer.old).room }
        ensures ok { OnOk result (Replied self.old.setting self.old.state (W.state writer.old) (W.state writer.new)
            (due_end self.old.held) self.new.state) }
        ensures err { OnErr result
            (Broken self.old.setting self.old.state (W.state writer.old) (W.state writer.new) (due_end self.old.held)) }
        ensures setting { self.new.setting ≡ self.old.setting }
    {
        if self.held.is_empty() || self.held.len() > LONGEST_SCRIPT_LINE {
            return Ok(());
        }
        answer(&mut self.session, self.held.as_slice(), writer)
    }
}
