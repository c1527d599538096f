//! A segment that counts its items. Items and summaries share cells, in which it counts what it is asked for, and by
//! which it refuses a summary.
ghost use Rattle.std.specs.Prelude.{◌≡◌, length};

use cap_tree::{Meter, NoMemory, Segment, Side, Similarity};
use std::alloc::Global;
use std::cell::Cell;
use std::rc::Rc;

/// What all items and summaries share. It is the item too.
#[derive(Drop)]
pub struct Watch {
    /// How many joins succeeded.
    pub joins: Cell<u64>,
    /// How many summaries may still be made.
    pub allowed: Cell<u64>,
    /// How many calls of `rejoin` were told that all is the same.
    pub told: Cell<u64>,
}

impl Watch {
    /// Refuses a summary if none is allowed, or allows one fewer.
    fn allows(&self) -> Result<(), NoMemory> {
        let allowed = self.allowed.get();
        if allowed == 0 {
            return Err(NoMemory);
        }
        self.allowed.set(allowed - 1);
        Ok(())
    }
}

/// How many items there are.
#[derive(Drop)]
pub struct Watched {
    pub count: usize,
    pub watch: Rc<Watch>,
}

impl Segment for Watched {
    type Item = Watch;

    type Meter = Meter;

    ghost stands = { λ s xs. s.count ≡ length xs };

    ghost size = { λ s. s.count };

    /// Has a watch of its own.
    fn empty(alloc: Global) -> Result<Watched, NoMemory> {
        let watch = Watch {
            joins: Cell::new(0),
            allowed: Cell::new(u64::MAX),
            told: Cell::new(0),
        };
        let watch = Rc::new(alloc, watch)?;
        Ok(Watched { count: 0, watch })
    }

    fn one(_alloc: Global, item: &Rc<Watch>) -> Result<Watched, NoMemory> {
        item.allows()?;
        let watch = item.clone()?;
        Ok(Watched { count: 1, watch })
    }

    fn len(&self) -> usize {
        self.count
    }

    fn join(
        _alloc: Global,
        meter: &mut Meter,
        left: &Watched,
        right: &Watched,
    ) -> Result<Watched, NoMemory> {
        left.watch.allows()?;
        let watch = left.watch.clone()?;
        watch.joins.set(watch.joins.get().wrapping_add(1));
        meter.tick();
        let count = left.count + right.count;
        Ok(Watched { count, watch })
    }

    /// Says that all is the same.
    fn rejoin(
        alloc: Global,
        meter: &mut Meter,
        left: &Watched,
        right: &Watched,
        _old: &Watched,
        _was: &Watched,
        _side: Side,
        similarity: Similarity,
    ) -> Result<(Watched, Similarity), NoMemory> {
        let told = &left.watch.told;
        if similarity.effect && similarity.precondition {
            told.set(told.get().wrapping_add(1));
        }
        let new = Watched::join(alloc, meter, left, right)?;
        let same = Similarity {
            effect: true,
            precondition: true,
        };
        Ok((new, same))
    }

    ghost sized = { λ s t e. e };
}
