//! What is left of cells that no process has any more. It is freed a few parts at a time, so that no line takes longer
//! for the number of descriptors that a process had.

ghost use Rattle.std.specs.Prelude.{◌≡◌, ◌+◌, ◌-◌, ◌≤◌, nat_lt, IsTrue};
ghost use Rattle.std.specs.Vec.{vec_len};
ghost use Rattle.cap_machine.specs.Code.Cells.DeferredFree.{left_at_most};

use crate::cells::cells_1m::Cells1M;
use crate::cells::cells_16k::Cells16K;
use crate::cells::cells_256::Cells256;
use crate::cells::leaf::Leaf;
use crate::cells::node::Node;
use cap_rights::NoMemory;
use std::alloc::Global;
use std::rc::Rc;

/// So many parts are freed before a line changes anything. It makes at most 14, seven for each cell that it writes, at
/// once or when its process forks: so lines make fewer parts than they free, while anything is left.
const FREED_AT_ONCE: usize = 16;

/// Parts of trees that nobody has any more, those of each kind in a list of their own. Each had no other owner when it
/// was added, and nobody can have got it since: so a part that is taken out is freed.
///
/// The lowest list that isn't empty is worked off first. So each list but the first has at most the eight parts of one
/// node.
#[derive(Drop)]
pub(crate) struct DeferredFree {
    highs: Vec<Rc<Cells1M>>,
    upper: Vec<Rc<Node<Cells16K, 16384>>>,
    regions: Vec<Rc<Cells16K>>,
    middle: Vec<Rc<Node<Cells256, 256>>>,
    blocks: Vec<Rc<Cells256>>,
    lower: Vec<Rc<Node<Leaf<4>, 4>>>,
}

/// Adds those parts of a node that have no other owner. The others lose one. A part for which there is no room would be
/// freed at once, with all below it.
fn leave<T: Drop, const WIDTH: usize>(node: Node<T, WIDTH>, parts: &mut Vec<Rc<T>>)
    ensures { vec_len parts.new ≤ vec_len parts.old + 8 }
{
    for part in node.parts {
        if Rc::strong_count(&part) == 1 {
            let _ = parts.push(part);
        }
    }
}

/// Frees a node, and adds its parts.
fn free_node<T: Drop, const WIDTH: usize>(node: Rc<Node<T, WIDTH>>, parts: &mut Vec<Rc<T>>)
    ensures { vec_len parts.new ≤ vec_len parts.old + 8 }
{
    if let Some(node) = Rc::into_inner(node) {
        leave(node, parts);
    }
}

impl DeferredFree {
    /// Nothing is left. It takes no memory.
    #[tactic(auto, unfolding(crate::specs::Code::Cells::DeferredFree::left_at_most))]
    pub(crate) fn nothing(alloc: Global) -> DeferredFree
        ensures { left_at_most result ≡ 0 }
    {
        DeferredFree {
            highs: Vec::new(alloc),
            upper: Vec::new(alloc),
            regions: Vec::new(alloc),
            middle: Vec::new(alloc),
            blocks: Vec::new(alloc),
            lower: Vec::new(alloc),
        }
    }

    /// Adds cells that soon nobody has.
    #[tactic(auto, unfolding(crate::specs::Code::Cells::DeferredFree::left_at_most))]
    pub(crate) fn add(&mut self, high: Rc<Cells1M>) -> Result<(), NoMemory>
        ensures { left_at_most self.new ≤ left_at_most self.old + 37449 }
    {
        self.upper.reserve(8)?;
        self.regions.reserve(8)?;
        self.middle.reserve(8)?;
        self.blocks.reserve(8)?;
        self.lower.reserve(8)?;
        self.highs.push(high)?;
        Ok(())
    }

    /// Frees one part, and its leaves if it has some. Answers whether there was one.
    #[tactic(auto, unfolding(crate::specs::Code::Cells::DeferredFree::left_at_most))]
    fn free_one(&mut self) -> bool
        ensures some { result ≡ nat_lt 0 (left_at_most self.old) }
        ensures fewer { left_at_most self.new ≤ left_at_most self.old - 1 }
    {
        if let Some(node) = self.lower.pop() {
            drop(node);
        } else if let Some(block) = self.blocks.pop() {
            if let Some(block) = Rc::into_inner(block) {
                leave(block.node, &mut self.lower);
            }
        } else if let Some(node) = self.middle.pop() {
            free_node(node, &mut self.blocks);
        } else if let Some(region) = self.regions.pop() {
            if let Some(region) = Rc::into_inner(region) {
                leave(region.node, &mut self.middle);
            }
        } else if let Some(node) = self.upper.pop() {
            free_node(node, &mut self.regions);
        } else if let Some(high) = self.highs.pop() {
            if let Some(high) = Rc::into_inner(high) {
                leave(high.node, &mut self.upper);
            }
        } else {
            return false;
        }
        true
    }

    /// Whether nothing is left.
    #[tactic(auto, unfolding(crate::specs::Code::Cells::DeferredFree::left_at_most))]
    fn is_nothing(&self) -> bool
        ensures { IsTrue result → left_at_most self.now ≡ 0 }
    {
        self.lower.is_empty()
            && self.blocks.is_empty()
            && self.middle.is_empty()
            && self.regions.is_empty()
            && self.upper.is_empty()
            && self.highs.is_empty()
    }

    /// Frees some parts, or all where there are fewer. Mostly nothing is left, and then nothing is called.
    #[inline(always)]
    pub(crate) fn free_some(&mut self)
        ensures { left_at_most self.new ≤ left_at_most self.old - 16 }
    {
        if !self.is_nothing() {
            self.free_next();
        }
    }

    /// Frees some parts, or all where there are fewer.
    #[inline(never)]
    fn free_next(&mut self)
        ensures { left_at_most self.new ≤ left_at_most self.old - 16 }
    {
        for _ in 0..FREED_AT_ONCE {
            if !self.free_one() {
                return;
            }
        }
    }
}
