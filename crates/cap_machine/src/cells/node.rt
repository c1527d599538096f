//! A node of the tree: eight parts that stand next to each other, each shared, with what is still to be done to it.

ghost use Rattle.std.specs.Prelude.{◌≡◌, ℕ, ◌<◌, ◌/◌, ◌%◌, IfOk, nat_le, if◌then◌else◌, slice_get};
ghost use Rattle.std.specs.List.{slice_index_or};
ghost use Rattle.std.specs.Option.{option_map_or};
ghost use Rattle.cap_machine.specs.Code.Cells.Deferred.{with_deferred};

use crate::cell::Cell;
use crate::cells::deferred::Deferred;
use crate::cells::shared::{close_part, write_part};
use crate::cells::subtree::Subtree;
use cap_rights::NoMemory;
use std::alloc::{AllocError, Global};
use std::rc::Rc;

/// Eight parts that stand next to each other, of so many descriptors each. A clone shares them, and a write makes anew
/// the one that it is in. What was done to a whole part is deferred: it is done to the parts of the part only once one
/// of them is written.
#[derive(Drop)]
pub(crate) struct Node<T, const WIDTH: usize> {
    pub(crate) parts: [Rc<T>; 8],
    deferred: [Deferred; 8],
}

impl<T: Subtree, const WIDTH: usize> Clone for Node<T, WIDTH> {
    ghost use Rattle.cap_machine.specs.Code.Cells.Parts.{in_node};

    ghost is_clone = { λ a b. (f : ℕ) → in_node T.cell_at WIDTH b f ≡ in_node T.cell_at WIDTH a f };

    fn clone(&self) -> Result<Node<T, WIDTH>, AllocError> {
        Ok(Node {
            parts: self.parts.clone()?,
            deferred: self.deferred,
        })
    }
}

/// One part four times.
fn four<T: Subtree>(part: Rc<T>) -> Result<(Rc<T>, Rc<T>, Rc<T>, Rc<T>), NoMemory>
    ensures { IfOk result (λ parts. (parts.0.value ≡ part.value) × (parts.1.value ≡ part.value)
        × (parts.2.value ≡ part.value) × (parts.3.value ≡ part.value)) }
{
    Ok((part.clone()?, part.clone()?, part.clone()?, part))
}

/// One part eight times.
fn eight<T: Subtree>(part: Rc<T>) -> Result<[Rc<T>; 8], NoMemory>
    ensures { IfOk result (λ parts. (i f : ℕ) → i < 8
        → option_map_or (λ p. T.cell_at p.value f) (slice_get parts i) Cell.Unknown ≡ T.cell_at part.value f) }
{
    let (a, b, c, d) = four(part.clone()?)?;
    let (e, f, g, h) = four(part)?;
    Ok([a, b, c, d, e, f, g, h])
}

/// Does this to each of eight parts, once it must.
fn defer_to_parts(deferred: &mut [Deferred; 8], next: Deferred)
    ensures { (i : ℕ) (c : Cell) → i < 8 → with_deferred (slice_index_or deferred.new i Deferred.Nothing) c
        ≡ with_deferred next (with_deferred (slice_index_or deferred.old i Deferred.Nothing) c) }
{
    for k in 0..8 {
        deferred[k] = next.after(deferred[k]);
    }
}

/// Closes the parts from one on.
fn close_all(deferred: &mut [Deferred; 8], from: usize)
    ensures { (i : ℕ) (c : Cell) → i < 8 → with_deferred (slice_index_or deferred.new i Deferred.Nothing) c
        ≡ (if nat_le from i then Cell.Closed else with_deferred (slice_index_or deferred.old i Deferred.Nothing) c) }
{
    for k in from..8 {
        deferred[k] = Deferred::Close;
    }
}

impl<T: Subtree, const WIDTH: usize> Subtree for Node<T, WIDTH> {
    ghost use Rattle.cap_machine.specs.Code.Cells.Parts.{in_node};

    ghost cell_at = { in_node T.cell_at WIDTH };

    ghost has = { λ f. (0 < WIDTH) × (f / WIDTH < 8) × T.has (f % WIDTH) };

    fn all(alloc: Global, cell: Cell) -> Result<Node<T, WIDTH>, NoMemory> {
        let part = Rc::new(alloc, T::all(alloc, cell)?)?;
        Ok(Node {
            parts: eight(part)?,
            deferred: [Deferred::Nothing; 8],
        })
    }

    fn cell(&self, fd: usize) -> Cell {
        let at = fd / WIDTH;
        self.deferred[at].on(self.parts[at].cell(fd % WIDTH))
    }

    fn write(&mut self, fd: usize, cell: Cell) -> Result<(), NoMemory> {
        let at = fd / WIDTH;
        write_part(&mut self.parts[at], self.deferred[at], fd % WIDTH, cell)?;
        self.deferred[at] = Deferred::Nothing;
        Ok(())
    }

    #[tactic(auto, unfolding(crate::specs::Code::Cells::Parts::in_node))]
    fn apply_deferred(&mut self, deferred: Deferred) {
        defer_to_parts(&mut self.deferred, deferred);
    }

    fn close_from(&mut self, fd: usize) -> Result<(), NoMemory> {
        let at = fd / WIDTH;
        close_part(&mut self.parts[at], self.deferred[at], fd % WIDTH)?;
        self.deferred[at] = Deferred::Nothing;
        close_all(&mut self.deferred, at + 1);
        Ok(())
    }

    ghost same_in_clone = { λ a b same f. same f };
}
