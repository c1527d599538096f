//! Calls that the tree's edits don't make.

use crate::listed::Listed;
use cap_tree::{Meter, NoMemory, Segment, Side, Similarity};
use std::alloc::Global;

/// Whether the trait's own `rejoin` joins nothing to nothing, on a meter that has counted two joins.
fn rejoins(alloc: Global) -> Result<bool, NoMemory> {
    let none = Listed::empty(alloc)?;
    let mut meter = Meter::new();
    meter.add(2);
    let (new, _) = Listed::rejoin(
        alloc,
        &mut meter,
        &none,
        &none,
        &none,
        &none,
        Side::Left,
        Similarity::none(),
    )?;
    Ok(new.len() == 0 && meter.joins() == 3 && meter.room() == u64::MAX - 3)
}

/// Whether out of memory is printed so.
fn is_shown(alloc: Global, words: &str) -> Result<bool, NoMemory> {
    let text = NoMemory.to_string(alloc)?;
    Ok(text.as_str() == words)
}

#[test]
fn other_calls(rt: HostRuntime) -> Result<(), NoMemory> {
    let is_right = rejoins(rt.alloc())? && is_shown(rt.alloc(), "out of memory")?;
    assert!(rt; is_right && Side::Right.order(1, 2) == (2, 1));
    Ok(())
}
