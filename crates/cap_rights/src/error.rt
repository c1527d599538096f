//! What can go wrong with rights: a text that is not a set of rights, and no memory left.

ghost use Rattle.std.specs.Prelude.{⊤};

use std::alloc::{AllocError, AllocFailed};
use thiserror::Error;

/// The text is not a set of rights.
///
/// ```
/// assert_eq!(parse_rights(b"CAP_SEEK_TELL"), Err(BadRight));
/// ```
#[derive(Clone, Copy, Debug, PartialEq, Eq, Error)]
#[error("not a set of rights")]
pub struct BadRight;

/// Out of memory: the allocator refused a request. `?` converts the error of an allocation to this one.
///
/// ```
/// fn copied(alloc: Global, text: &[u8]) -> Result<Vec<u8>, NoMemory> {
///     Ok(text.to_vec(alloc)?)
/// }
/// ```
#[derive(Clone, Copy, Debug, PartialEq, Eq, Error)]
#[error("out of memory")]
pub struct NoMemory;

impl From<AllocError> for NoMemory {
    // There is only one `NoMemory`, so there is nothing to say of it.
    ghost from_gives = { λ _ _. ⊤ };

    fn from(_error: AllocError) -> NoMemory {
        NoMemory
    }
}

impl<T: Drop> From<AllocFailed<T>> for NoMemory {
    ghost from_gives = { λ _ _. ⊤ };

    fn from(_error: AllocFailed<T>) -> NoMemory {
        NoMemory
    }
}
