//! Calls at a directory (openat(2)): which descriptor the path is looked up from, and what the call needs of it.

ghost use Rattle.std.specs.Prelude.{◌≡◌, [], ◌∷◌, ◌&&◌, not, if◌then◌else◌};
ghost use Rattle.cap_rights.specs.Rights.{all};
ghost use Rattle.cap_machine.specs.Places.{is_global, below};
ghost use Rattle.cap_machine.specs.Rule.{place_check, both, place_checks, at_excuse, at_requirement, has_empty};
ghost use Rattle.cap_machine.specs.Rule.{has_global};
ghost use Rattle.cap_machine.specs.Code.PlaceView.{place_view};

use crate::rule::{Check, Checks, Class, LimitWord, Requirement, reply_of};
use cap_rights::RightSet;
use cap_trace::{Answer, Dir, Fd};

/// A directory, a path that is looked up there, and the rights that the lookup needs of the directory.
#[derive(Clone, Copy)]
pub(crate) struct Place<'a> {
    pub(crate) dir: Dir,
    pub(crate) path: &'a [u8],
    pub(crate) needs: RightSet,
}

/// Whether the path begins in a global name space.
fn is_global_of(dir: Dir, path: &[u8]) -> bool
    ensures { result ≡ is_global dir path.now }
{
    match path {
        [] => false,
        [first, ..] => match dir {
            Dir::Cwd => true,
            Dir::Fd(_) => *first == b'/',
        },
    }
}

/// The descriptor of the directory below which a relative path is looked up.
pub(crate) fn below_of(dir: Dir, path: &[u8]) -> Option<Fd>
    ensures { result ≡ below dir path.now }
{
    match path {
        [] => None,
        [first, ..] => {
            if *first == b'/' {
                return None;
            }
            match dir {
                Dir::Cwd => None,
                Dir::Fd(fd) => Some(fd),
            }
        }
    }
}

/// What is checked of a directory.
fn place_check(excuse: Option<RightSet>, place: &Place<'_>) -> Option<Check>
    ensures { result ≡ place_check excuse (place_view place.now) }
{
    match below_of(place.dir, place.path) {
        None => None,
        Some(fd) => Some(Check {
            fd,
            needs: place.needs,
            excuse,
        }),
    }
}

fn both_of(first: Option<Check>, second: Option<Check>) -> Checks
    ensures { result ≡ both first second }
{
    match (first, second) {
        (None, None) => Checks::Nothing,
        (Some(a), None) => Checks::One(a),
        (None, Some(b)) => Checks::One(b),
        (Some(a), Some(b)) => Checks::Two(a, b),
    }
}

/// With which rights errno 93 of a call at a directory is wrongful.
fn excuse_where(is_judged: bool) -> Option<RightSet>
    ensures { result ≡ (if is_judged then Some all else None) }
{
    if is_judged {
        Some(RightSet::all())
    } else {
        None
    }
}

fn class_where(is_global: bool) -> Class
    ensures { result ≡ (if is_global then Class.Forbidden else Class.Either) }
{
    if is_global {
        Class::Forbidden
    } else {
        Class::Either
    }
}

/// What a call at one directory is judged by.
pub(crate) fn at_one(is_plain: bool, a: &Place<'_>, answer: &Answer) -> Requirement
    ensures { result ≡ at_requirement is_plain (place_view a.now ∷ []) answer.now }
{
    let excuse = excuse_where(is_plain && !a.path.is_empty());
    Requirement {
        class: class_where(is_global_of(a.dir, a.path)),
        checks: both_of(place_check(excuse, a), None),
        reply: reply_of(answer),
        at: true,
        word: LimitWord::Missing,
    }
}

/// Whether errno 93 of a call at two directories can be judged.
fn is_judged(is_plain: bool, a: &Place<'_>, b: &Place<'_>) -> bool
    ensures { result ≡ (is_plain && not (has_empty (place_view a.now ∷ place_view b.now ∷ []))) }
{
    is_plain && !a.path.is_empty() && !b.path.is_empty()
}

/// Whether one of two paths begins in a global name space.
fn one_is_global(a: &Place<'_>, b: &Place<'_>) -> bool
    ensures { result ≡ has_global (place_view a.now ∷ place_view b.now ∷ []) }
{
    is_global_of(a.dir, a.path) || is_global_of(b.dir, b.path)
}

/// The checks of two directories.
fn two_checks(is_plain: bool, a: &Place<'_>, b: &Place<'_>) -> Checks
    ensures { let places = place_view a.now ∷ place_view b.now ∷ [] in
        result ≡ place_checks (at_excuse is_plain places) places }
{
    let is_judged = is_judged(is_plain, a, b);
    let first = place_check(excuse_where(is_judged), a);
    let second = place_check(excuse_where(is_judged), b);
    both_of(first, second)
}

/// What a call at two directories is judged by.
pub(crate) fn at_two(is_plain: bool, a: &Place<'_>, b: &Place<'_>, answer: &Answer) -> Requirement
    ensures { result ≡ at_requirement is_plain (place_view a.now ∷ place_view b.now ∷ []) answer.now }
{
    Requirement {
        class: class_where(one_is_global(a, b)),
        checks: two_checks(is_plain, a, b),
        reply: reply_of(answer),
        at: true,
        word: LimitWord::Missing,
    }
}
