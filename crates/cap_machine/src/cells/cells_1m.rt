//! The cells of 1,048,576 descriptors: two more levels of nodes over `cells_16k`, under a name of their own.

use crate::cell::Cell;
use crate::cells::cells_16k::Cells16K;
use crate::cells::deferred::Deferred;
use crate::cells::node::Node;
use crate::cells::subtree::Subtree;
use cap_rights::NoMemory;
use std::alloc::{AllocError, Global};

/// The cells of 1,048,576 descriptors that stand next to each other. A type of its own keeps what is to be proved
/// small.
#[derive(Drop)]
pub(crate) struct Cells1M {
    pub(crate) node: Node<Node<Cells16K, 16384>, 131072>,
}

impl Clone for Cells1M {
    ghost use Rattle.std.specs.Prelude.{◌≡◌, ℕ};
    ghost use Rattle.cap_machine.specs.Code.Cells.Cells1M.{in_cells_1m};

    ghost is_clone = { λ a b. (f : ℕ) → in_cells_1m b f ≡ in_cells_1m a f };

    #[tactic(auto, unfolding(crate::specs::Code::Cells::Cells1M::in_cells_1m))]
    fn clone(&self) -> Result<Cells1M, AllocError> {
        Ok(Cells1M {
            node: self.node.clone()?,
        })
    }
}

impl Subtree for Cells1M {
    ghost use Rattle.std.specs.Prelude.{ℕ, ◌<◌};
    ghost use Rattle.cap_machine.specs.Code.Cells.Cells1M.{in_cells_1m};

    ghost cell_at = { in_cells_1m };

    ghost has = { λ f. f < 1048576 };

    #[tactic(auto, unfolding(crate::specs::Code::Cells::Cells1M::in_cells_1m))]
    fn all(alloc: Global, cell: Cell) -> Result<Cells1M, NoMemory> {
        Ok(Cells1M {
            node: Node::all(alloc, cell)?,
        })
    }

    #[tactic(auto, unfolding(crate::specs::Code::Cells::Cells1M::in_cells_1m))]
    fn cell(&self, fd: usize) -> Cell {
        self.node.cell(fd)
    }

    #[tactic(auto, unfolding(crate::specs::Code::Cells::Cells1M::in_cells_1m))]
    fn write(&mut self, fd: usize, cell: Cell) -> Result<(), NoMemory> {
        self.node.write(fd, cell)
    }

    #[tactic(auto, unfolding(crate::specs::Code::Cells::Cells1M::in_cells_1m))]
    fn apply_deferred(&mut self, deferred: Deferred) {
        self.node.apply_deferred(deferred);
    }

    #[tactic(auto, unfolding(crate::specs::Code::Cells::Cells1M::in_cells_1m))]
    fn close_from(&mut self, fd: usize) -> Result<(), NoMemory> {
        self.node.close_from(fd)
    }

    ghost same_in_clone = { λ a b same f. same f };
}
