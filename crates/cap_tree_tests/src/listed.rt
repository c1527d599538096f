//! A segment that is its list of numbers, so that a summary can be compared with the items. It has the trait's own
//! `sum` and `rejoin`.
ghost use Rattle.std.specs.Prelude.{◌≡◌, length};
ghost use Rattle.std.proofs.Common.{ap};

use cap_tree::{Meter, NoMemory, Segment};
use std::alloc::Global;
use std::rc::Rc;

/// The numbers as they are.
#[derive(Drop)]
pub struct Listed {
    pub list: Vec<u32>,
}

impl Segment for Listed {
    type Item = u32;

    type Meter = Meter;

    ghost stands = { λ s xs. s.list.items ≡ xs };

    ghost size = { λ s. length s.list.items };

    fn empty(alloc: Global) -> Result<Listed, NoMemory> {
        Ok(Listed {
            list: Vec::new(alloc),
        })
    }

    fn one(alloc: Global, item: &Rc<u32>) -> Result<Listed, NoMemory> {
        let mut list = Vec::new(alloc);
        list.push(**item)?;
        Ok(Listed { list })
    }

    fn len(&self) -> usize {
        self.list.len()
    }

    fn join(
        _alloc: Global,
        meter: &mut Meter,
        left: &Listed,
        right: &Listed,
    ) -> Result<Listed, NoMemory> {
        let mut list = left.list.clone()?;
        list.extend_from_slice(right.list.as_slice())?;
        meter.tick();
        Ok(Listed { list })
    }

    ghost sized = { λ s t e. ap length e };
}
