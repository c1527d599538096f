//! Reading a whole line from the left over its bytes. Nothing here takes memory.

ghost use Rattle.cap_trace.specs.Names.{listed, unlisted};
ghost use Rattle.cap_trace.specs.Reading.{Gives, after_bracket, item_at, line_of};
ghost use Rattle.cap_trace.specs.Views.{item_view};

use crate::answers::answer;
use crate::calls::Form;
use crate::fault::FirstFault;
use crate::forms::{Event, event_of, other};
use crate::limits::{LONGEST_LINE, Pid};
use crate::line::Item;
use crate::names::{Head, head_of};
use crate::quotes::{cut, cut_outside_quotes};
use crate::scan_fields::pid_of;

/// What follows the opening bracket, where the name has a form of its own.
#[tactic(auto, unfolding(crate::specs::Reading::ended))]
fn listed_item<'a>(form: Form, rest: &'a [u8]) -> Result<Item<'a>, FirstFault>
    ensures { Gives item_view result (after_bracket (listed form) rest.now) }
{
    let Some((args, tail)) = cut_outside_quotes(b')', rest) else {
        return Err(FirstFault::Shape);
    };
    match event_of(form, args) {
        Ok(Event::Call(call)) => {
            let answer = answer(call.kind(), tail)?;
            Ok(Item::Call { call, answer })
        }
        Ok(Event::Marker(item)) if tail.is_empty() => Ok(item),
        Ok(Event::Marker(_)) => Err(FirstFault::Shape),
        Err(fault) => Err(fault),
    }
}

/// What follows the opening bracket, where the name has none.
#[tactic(auto, unfolding(crate::specs::Reading::ended))]
fn unlisted_item<'a>(name: &'a [u8], rest: &'a [u8]) -> Result<Item<'a>, FirstFault>
    ensures { Gives item_view result (after_bracket (unlisted name.now) rest.now) }
{
    let Some((args, tail)) = cut(b')', rest) else {
        return Err(FirstFault::Shape);
    };
    match other(name, args) {
        Ok(call) => {
            let answer = answer(call.kind(), tail)?;
            Ok(Item::Call { call, answer })
        }
        Err(fault) => Err(fault),
    }
}

/// What follows the pid.
#[tactic(auto, unfolding(crate::specs::Reading::item_at))]
fn item(text: &[u8]) -> Result<Item<'_>, FirstFault>
    ensures { Gives item_view result (item_at text.now) }
{
    let Some((name, rest)) = cut(b'(', text) else {
        return Err(FirstFault::Shape);
    };
    match head_of(name) {
        Some(Head::Listed(form)) => listed_item(form, rest),
        Some(Head::Unlisted(name)) => unlisted_item(name, rest),
        None => Err(FirstFault::Shape),
    }
}

/// What a line says, or its first fault.
#[tactic(auto, unfolding(crate::specs::Reading::line_of, crate::specs::Reading::entry_at))]
pub(crate) fn line(bytes: &[u8]) -> Result<(Pid, Item<'_>), FirstFault>
    ensures { Gives (λ l. record { pid = l.0; item = item_view l.1 }) result (line_of bytes.now) }
{
    if bytes.len() > LONGEST_LINE {
        return Err(FirstFault::LongLine);
    }
    let Some((pid, rest)) = cut(b' ', bytes) else {
        pid_of(bytes)?;
        return Err(FirstFault::Shape);
    };
    let pid = pid_of(pid)?;
    match item(rest) {
        Ok(item) => Ok((pid, item)),
        Err(fault) => Err(fault),
    }
}
