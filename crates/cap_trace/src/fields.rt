//! Flags, commands and paths, byte by byte.

ghost use Rattle.std.specs.Prelude.{◌≡◌, ◌==◌, ◌<◌, IfSome};
ghost use Rattle.std.specs.List.{list_all, slice_split};
ghost use Rattle.cap_trace.specs.Code.FlagSteps.{flag_step};
ghost use Rattle.cap_trace.specs.Fields.{is_flag_byte, is_word, is_flags, is_plain, hex_digit, is_escaped, item_step};
ghost use Rattle.cap_trace.specs.Fields.{is_between, are_items, is_free};
ghost use Rattle.cap_trace.specs.Spelling.{is_command};

/// 1 for each byte that may stand in the name of a flag.
static FLAG_BYTES: [u8; 256] = [
    0, 0, 0, 0, 0, 0, 0, 0, 0, 0, 0, 0, 0, 0, 0, 0, 0, 0, 0, 0, 0, 0, 0, 0, 0, 0, 0, 0, 0, 0, 0, 0,
    0, 0, 0, 0, 0, 0, 0, 0, 0, 0, 0, 0, 0, 0, 0, 0, 1, 1, 1, 1, 1, 1, 1, 1, 1, 1, 0, 0, 0, 0, 0, 0,
    0, 1, 1, 1, 1, 1, 1, 1, 1, 1, 1, 1, 1, 1, 1, 1, 1, 1, 1, 1, 1, 1, 1, 1, 1, 1, 1, 0, 0, 0, 0, 1,
    0, 0, 0, 0, 0, 0, 0, 0, 0, 0, 0, 0, 0, 0, 0, 0, 0, 0, 0, 0, 0, 0, 0, 0, 0, 0, 0, 0, 0, 0, 0, 0,
    0, 0, 0, 0, 0, 0, 0, 0, 0, 0, 0, 0, 0, 0, 0, 0, 0, 0, 0, 0, 0, 0, 0, 0, 0, 0, 0, 0, 0, 0, 0, 0,
    0, 0, 0, 0, 0, 0, 0, 0, 0, 0, 0, 0, 0, 0, 0, 0, 0, 0, 0, 0, 0, 0, 0, 0, 0, 0, 0, 0, 0, 0, 0, 0,
    0, 0, 0, 0, 0, 0, 0, 0, 0, 0, 0, 0, 0, 0, 0, 0, 0, 0, 0, 0, 0, 0, 0, 0, 0, 0, 0, 0, 0, 0, 0, 0,
    0, 0, 0, 0, 0, 0, 0, 0, 0, 0, 0, 0, 0, 0, 0, 0, 0, 0, 0, 0, 0, 0, 0, 0, 0, 0, 0, 0, 0, 0, 0, 0,
];

#[inline(always)]
pub(crate) fn flag_byte(byte: u8) -> bool
    ensures { result ≡ is_flag_byte byte }
{
    FLAG_BYTES[usize::from(byte)] == 1
}

fn all_flag_bytes(text: &[u8]) -> bool
    ensures { result ≡ list_all is_flag_byte text.now }
{
    text.iter().all(|byte| flag_byte(*byte))
}

/// Whether a text is one name of a flag or a command.
fn word(text: &[u8]) -> bool
    ensures { result ≡ is_word text.now }
{
    match text {
        [] => false,
        [first, rest @ ..] => first.is_ascii_uppercase() && all_flag_bytes(rest),
    }
}

/// Whether after this byte a name has to begin, where the byte may stand there.
fn after_flag_byte(begins: bool, byte: u8) -> Option<bool>
    ensures { result ≡ flag_step begins byte }
{
    match byte {
        _ if begins && byte.is_ascii_uppercase() => Some(false),
        b'|' if !begins => Some(true),
        _ if !begins && flag_byte(byte) => Some(false),
        _ => None,
    }
}

/// Whether a text is names joined by a bar.
fn names(text: &[u8]) -> bool
    ensures { result ≡ list_all is_word (slice_split (λ c. c == 124) text.now) }
{
    let mut begins = true;
    for byte in text {
        match after_flag_byte(begins, *byte) {
            Some(next) => begins = next,
            None => return false,
        }
    }
    !begins
}

/// Whether a text spells flags: `0`, or names joined by a bar.
pub fn is_valid_flags(text: &[u8]) -> bool
    ensures { result ≡ is_flags text.now }
{
    text == b"0".as_slice() || names(text)
}

/// Whether a text is a command of `fcntl` for [`crate::Call::Fcntl`]: any but `F_SETFD`, `F_DUP2FD` and
/// `F_DUP2FD_CLOEXEC`, which ask for a third argument.
pub fn is_valid_command(text: &[u8]) -> bool
    ensures { result ≡ is_command text.now }
{
    word(text)
        && !(text == b"F_SETFD".as_slice()
            || text == b"F_DUP2FD".as_slice()
            || text == b"F_DUP2FD_CLOEXEC".as_slice())
}

/// Where a byte is in a path.
#[derive(Clone, Copy)]
enum Place {
    /// Between two items.
    Between,
    /// After a backslash.
    Slash,
    /// After `\x`.
    Digits,
    /// After `\x` and this digit.
    OneDigit(u8),
}

/// 1 for each byte that stands for itself in a path.
static PLAIN_BYTES: [u8; 256] = [
    0, 0, 0, 0, 0, 0, 0, 0, 0, 0, 0, 0, 0, 0, 0, 0, 0, 0, 0, 0, 0, 0, 0, 0, 0, 0, 0, 0, 0, 0, 0, 0,
    1, 1, 0, 1, 1, 1, 1, 1, 1, 1, 1, 1, 1, 1, 1, 1, 1, 1, 1, 1, 1, 1, 1, 1, 1, 1, 1, 1, 1, 1, 1, 1,
    1, 1, 1, 1, 1, 1, 1, 1, 1, 1, 1, 1, 1, 1, 1, 1, 1, 1, 1, 1, 1, 1, 1, 1, 1, 1, 1, 1, 0, 1, 1, 1,
    1, 1, 1, 1, 1, 1, 1, 1, 1, 1, 1, 1, 1, 1, 1, 1, 1, 1, 1, 1, 1, 1, 1, 1, 1, 1, 1, 1, 1, 1, 1, 0,
    0, 0, 0, 0, 0, 0, 0, 0, 0, 0, 0, 0, 0, 0, 0, 0, 0, 0, 0, 0, 0, 0, 0, 0, 0, 0, 0, 0, 0, 0, 0, 0,
    0, 0, 0, 0, 0, 0, 0, 0, 0, 0, 0, 0, 0, 0, 0, 0, 0, 0, 0, 0, 0, 0, 0, 0, 0, 0, 0, 0, 0, 0, 0, 0,
    0, 0, 0, 0, 0, 0, 0, 0, 0, 0, 0, 0, 0, 0, 0, 0, 0, 0, 0, 0, 0, 0, 0, 0, 0, 0, 0, 0, 0, 0, 0, 0,
    0, 0, 0, 0, 0, 0, 0, 0, 0, 0, 0, 0, 0, 0, 0, 0, 0, 0, 0, 0, 0, 0, 0, 0, 0, 0, 0, 0, 0, 0, 0, 0,
];

#[inline(always)]
pub(crate) fn plain(byte: u8) -> bool
    ensures { result ≡ is_plain byte }
{
    PLAIN_BYTES[usize::from(byte)] == 1
}

/// The value of a hexadecimal digit in lower case.
pub(crate) fn hex_value(byte: u8) -> Option<u8>
    ensures value { result ≡ hex_digit byte }
    ensures bound { IfSome result (λ d. d < 16) }
{
    match byte {
        b'0'..=b'9' => Some(byte - b'0'),
        b'a'..=b'f' => Some(byte - b'a' + 10),
        _ => None,
    }
}

/// Whether a byte is written by its number.
fn escaped(byte: u16) -> bool
    ensures { result ≡ is_escaped byte }
{
    (1..=31).contains(&byte) || (127..=255).contains(&byte)
}

impl Place {
    fn is_between(self) -> bool
        ensures { result ≡ is_between self }
    {
        match self {
            Place::Between => true,
            _ => false,
        }
    }

    /// Where the next byte is, where this one may be here.
    fn after(self, byte: u8) -> Option<Place>
        ensures { result ≡ item_step self byte }
    {
        match self {
            Place::Between if byte == b'\\' => Some(Place::Slash),
            Place::Between if plain(byte) => Some(Place::Between),
            Place::Between => None,
            Place::Slash if byte == b'"' || byte == b'\\' => Some(Place::Between),
            Place::Slash if byte == b'x' => Some(Place::Digits),
            Place::Slash => None,
            Place::Digits => hex_value(byte).map(Place::OneDigit),
            Place::OneDigit(first) => match hex_value(byte) {
                Some(second) if escaped(16 * u16::from(first) + u16::from(second)) => {
                    Some(Place::Between)
                }
                _ => None,
            },
        }
    }
}

/// Whether a text is the items of a path.
pub(crate) fn items(text: &[u8]) -> bool
    ensures { result ≡ are_items text.now }
{
    let mut place = Place::Between;
    for byte in text {
        match place.after(*byte) {
            Some(next) => place = next,
            None => return false,
        }
    }
    place.is_between()
}

/// Whether a text may be the arguments of a call that has no form of its own: any bytes but `(`, `)` and line feeds.
pub fn is_valid_arguments(text: &[u8]) -> bool
    ensures { result ≡ list_all is_free text.now }
{
    text.iter()
        .all(|byte| *byte != b'(' && *byte != b')' && *byte != b'\n')
}
