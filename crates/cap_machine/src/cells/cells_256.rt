//! The cells of 256 descriptors: two levels of nodes under a name of their own, which keeps the prover's terms small.

use crate::cell::Cell;
use crate::cells::deferred::Deferred;
use crate::cells::leaf::Leaf;
use crate::cells::node::Node;
use crate::cells::subtree::Subtree;
use cap_rights::NoMemory;
use std::alloc::{AllocError, Global};

/// The cells of 256 descriptors that stand next to each other. A type of its own keeps what is to be proved small.
#[derive(Drop)]
pub(crate) struct Cells256 {
    pub(crate) node: Node<Node<Leaf<4>, 4>, 32>,
}

impl Clone for Cells256 {
    ghost use Rattle.std.specs.Prelude.{◌≡◌, ℕ};
    ghost use Rattle.cap_machine.specs.Code.Cells.Cells256.{in_cells_256};

    ghost is_clone = { λ a b. (f : ℕ) → in_cells_256 b f ≡ in_cells_256 a f };

    #[tactic(auto, unfolding(crate::specs::Code::Cells::Cells256::in_cells_256))]
    fn clone(&self) -> Result<Cells256, AllocError> {
        Ok(Cells256 {
            node: self.node.clone()?,
        })
    }
}

impl Subtree for Cells256 {
    ghost use Rattle.std.specs.Prelude.{ℕ, ◌<◌};
    ghost use Rattle.cap_machine.specs.Code.Cells.Cells256.{in_cells_256};

    ghost cell_at = { in_cells_256 };

    ghost has = { λ f. f < 256 };

    #[tactic(auto, unfolding(crate::specs::Code::Cells::Cells256::in_cells_256))]
    fn all(alloc: Global, cell: Cell) -> Result<Cells256, NoMemory> {
        Ok(Cells256 {
            node: Node::all(alloc, cell)?,
        })
    }

    #[tactic(auto, unfolding(crate::specs::Code::Cells::Cells256::in_cells_256))]
    fn cell(&self, fd: usize) -> Cell {
        self.node.cell(fd)
    }

    #[tactic(auto, unfolding(crate::specs::Code::Cells::Cells256::in_cells_256))]
    fn write(&mut self, fd: usize, cell: Cell) -> Result<(), NoMemory> {
        self.node.write(fd, cell)
    }

    #[tactic(auto, unfolding(crate::specs::Code::Cells::Cells256::in_cells_256))]
    fn apply_deferred(&mut self, deferred: Deferred) {
        self.node.apply_deferred(deferred);
    }

    #[tactic(auto, unfolding(crate::specs::Code::Cells::Cells256::in_cells_256))]
    fn close_from(&mut self, fd: usize) -> Result<(), NoMemory> {
        self.node.close_from(fd)
    }

    ghost same_in_clone = { λ a b same f. same f };
}
