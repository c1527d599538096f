//! Paths of any bytes, as they are written between quotes: `\"`, `\\`, and `\x` with two digits for a byte that isn't
//! printable.

ghost use Rattle.std.specs.Prelude.{◌≡◌, ◌++◌, ◌<◌, IfOk, OnOk, option_map};
ghost use Rattle.cap_trace.specs.declared.fault.LineFault.TheVariants.{Argument};
ghost use Rattle.cap_trace.specs.Code.Escaping.{hex_of, escape_of, escaped, lacks_zero, hex_byte, first_byte, SpellsBytes};
ghost use Rattle.cap_trace.specs.Code.Escaping.{OnePath};
ghost use Rattle.cap_trace.specs.Fields.{are_items};
ghost use Rattle.cap_trace.specs.Code.Making.{MakesWhere};

use crate::fault::LineFault;
use crate::fields::{hex_value, items, plain};
use cap_rights::NoMemory;
use std::alloc::{AllocError, Global};
use std::marker::Model;

/// The text of a path, as it stands between its quotes: printable bytes stand for themselves, `"` and `\` follow a
/// `\`, and any other byte but 0 is `\x` and its two hexadecimal digits in lower case.
#[derive(Debug, Drop)]
pub struct Path {
    items: Vec<u8>,
}

impl Model for Path {
    ghost use Rattle.std.specs.Prelude.{List, ℕ, IsTrue};
    ghost use Rattle.cap_trace.specs.Fields.{are_items};

    ghost Value = { List ℕ };

    ghost view = { λ x. x.items.items };

    ghost invariant = { λ x. IsTrue (are_items x.items.items) };
}

/// A hexadecimal digit, in lower case.
fn hex(digit: u8) -> u8
    requires { digit < 16 }
    ensures { result ≡ hex_of digit }
{
    if digit < 10 {
        b'0' + digit
    } else {
        b'a' + (digit - 10)
    }
}

fn put_escaped(byte: u8, out: &mut Vec<u8>) -> Result<(), AllocError>
    ensures { OnOk result (out.new.items ≡ out.old.items ++ escape_of byte) }
{
    if plain(byte) {
        out.extend_from_slice(&[byte])
    } else if byte == b'"' || byte == b'\\' {
        out.extend_from_slice(&[b'\\', byte])
    } else {
        out.extend_from_slice(&[b'\\', b'x', hex(byte / 16), hex(byte % 16)])
    }
}

fn escaped_bytes(alloc: Global, bytes: &[u8]) -> Result<Vec<u8>, AllocError>
    ensures { IfOk result (λ v. v.items ≡ escaped bytes.now) }
{
    let mut items = Vec::new(alloc);
    for byte in bytes {
        put_escaped(*byte, &mut items)?;
    }
    Ok(items)
}

fn has_no_zero(bytes: &[u8]) -> bool
    ensures { result ≡ lacks_zero bytes.now }
{
    bytes.iter().all(|byte| *byte != 0)
}

/// The byte that two hexadecimal digits write, and what follows them.
fn hex_pair(text: &[u8]) -> Option<(u8, &[u8])>
    ensures { option_map (λ p. (p.0, p.1.now)) result ≡ hex_byte text.now }
{
    match text {
        [high, low, rest @ ..] => Some((16 * hex_value(*high)? + hex_value(*low)?, rest)),
        _ => None,
    }
}

/// The byte that the first item of a text spells, and what follows the item.
fn first_item(text: &[u8]) -> Option<(u8, &[u8])>
    ensures { option_map (λ p. (p.0, p.1.now)) result ≡ first_byte text.now }
{
    let (first, rest) = text.split_first()?;
    if *first != b'\\' {
        return Some((*first, rest));
    }
    let (second, rest) = rest.split_first()?;
    if *second != b'x' {
        return Some((*second, rest));
    }
    hex_pair(rest)
}

impl Path {
    /// The path with this text between its quotes.
    ///
    /// # Errors
    ///
    /// [`LineFault::Argument`] where the text isn't of that form; [`LineFault::Memory`] where memory ran out.
    pub fn new(alloc: Global, text: &[u8]) -> Result<Path, LineFault>
        ensures { MakesWhere (are_items text.now) Argument text.now result }
    {
        if !items(text) {
            return Err(LineFault::Argument);
        }
        match Vec::from_slice(alloc, text) {
            Ok(items) => Ok(Path { items }),
            Err(_) => Err(LineFault::Memory),
        }
    }

    /// The bytes between the quotes, escapes as they are spelled.
    pub fn as_bytes(&self) -> &[u8]
        ensures { result.now ≡ self.now }
    {
        self.items.as_slice()
    }

    /// The path of these bytes, as its text: printable bytes stand for themselves, `"` and `\` follow a `\`,
    /// and any other byte is `\x` and its two hexadecimal digits.
    ///
    /// # Errors
    ///
    /// [`LineFault::Argument`] where there is a byte 0, which no path has; [`LineFault::Memory`] where memory ran
    /// out.
    pub fn escape(alloc: Global, bytes: &[u8]) -> Result<Path, LineFault>
        ensures { MakesWhere (lacks_zero bytes.now) Argument (escaped bytes.now) result }
    {
        if !has_no_zero(bytes) {
            return Err(LineFault::Argument);
        }
        match escaped_bytes(alloc, bytes) {
            Ok(items) => Ok(Path { items }),
            Err(_) => Err(LineFault::Memory),
        }
    }

    /// The bytes of the path: those whose text, as [`Path::escape`] writes it, is between the quotes.
    ///
    /// # Errors
    ///
    /// [`NoMemory`] where memory ran out.
    pub fn unescape(&self, alloc: Global) -> Result<Vec<u8>, NoMemory>
        ensures { IfOk result (λ v. SpellsBytes self.now v.items) }
    {
        let mut bytes = Vec::new(alloc);
        let mut text = self.items.as_slice();
        while let Some((byte, rest)) = first_item(text) {
            bytes.push(byte)?;
            text = rest;
        }
        Ok(bytes)
    }
}

/// A text spells the bytes of one path at most: what [`Path::unescape`] finds in what [`Path::escape`] wrote of some
/// bytes is those bytes.
pub fn one_path()
    ensures { OnePath }
{}
