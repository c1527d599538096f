//! Flags as they are spelled: whether a name is among them, and whether all of them are known ones.

ghost use Rattle.std.specs.Prelude.{◌≡◌, map};
ghost use Rattle.cap_machine.specs.Flags.{has_flag, is_one_of, all_known};

/// Whether a name is among the flags.
pub(crate) fn has_flag_of(flags: &[u8], name: &[u8]) -> bool
    ensures { result ≡ has_flag flags.now name.now }
{
    flags.split(|byte| *byte == b'|').any(|word| word == name)
}

/// Whether a word is one of these names.
pub(crate) fn is_one_of_these(known: &[&[u8]], word: &[u8]) -> bool
    ensures { result ≡ is_one_of (map (λ name. name.now) known.now) word.now }
{
    known.iter().any(|name| word == *name)
}

/// Whether the flags have no other names than these.
pub(crate) fn all_known_of(known: &[&[u8]], flags: &[u8]) -> bool
    ensures { result ≡ all_known (map (λ name. name.now) known.now) flags.now }
{
    flags
        .split(|byte| *byte == b'|')
        .all(|word| is_one_of_these(known, word))
}
