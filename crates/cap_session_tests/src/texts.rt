//! Long texts.

use cap_machine::NoMemory;
use std::alloc::Global;

/// A head, these bytes so many times, and a tail.
pub fn repeated(
    alloc: Global,
    head: &[u8],
    bytes: &[u8],
    times: usize,
    tail: &[u8],
) -> Result<Vec<u8>, NoMemory> {
    let mut text = Vec::from_slice(alloc, head)?;
    for _ in 0..times {
        text.extend_from_slice(bytes)?;
    }
    text.extend_from_slice(tail)?;
    Ok(text)
}
