//! A part of the tree that processes share until one of them writes to it.

ghost use Rattle.std.specs.Prelude.{◌≡◌, ℕ, OnOk, IfOk, IfSome, ◌==◌, nat_le, if◌then◌else◌};
ghost use Rattle.cap_machine.specs.Code.Cells.Deferred.{with_deferred};

use crate::cell::Cell;
use crate::cells::deferred::Deferred;
use crate::cells::subtree::Subtree;
use cap_rights::NoMemory;
use std::alloc::{AllocError, Global};
use std::rc::Rc;

/// Does what is deferred of a part to it.
fn apply_to_part<T: Subtree>(part: &mut T, deferred: Deferred)
    ensures { (f : ℕ) → T.has f → T.cell_at part.new f ≡ with_deferred deferred (T.cell_at part.old f) }
{
    match deferred {
        Deferred::Nothing => {}
        _ => part.apply_deferred(deferred),
    }
}

/// Writes one cell of a shared part with something deferred, in a part of its own, in which then nothing is deferred.
#[inline(never)]
pub(crate) fn write_part<T: Subtree>(
    part: &mut Rc<T>,
    deferred: Deferred,
    fd: usize,
    cell: Cell,
) -> Result<(), NoMemory>
    requires { T.has fd }
    ensures { OnOk result ((f : ℕ) → T.has f
        → T.cell_at part.new.value f ≡ (if f == fd then cell
        else with_deferred deferred (T.cell_at part.old.value f))) }
{
    let below = Rc::make_mut(part)?;
    apply_to_part(below, deferred);
    below.write(fd, cell)
}

/// Closes the descriptors of a shared part with something deferred from one on, in a part of its own, in which then
/// nothing is deferred.
pub(crate) fn close_part<T: Subtree>(
    part: &mut Rc<T>,
    deferred: Deferred,
    fd: usize,
) -> Result<(), NoMemory>
    requires { T.has fd }
    ensures { OnOk result ((f : ℕ) → T.has f → T.cell_at part.new.value f
        ≡ (if nat_le fd f then Cell.Closed else with_deferred deferred (T.cell_at part.old.value f))) }
{
    let below = Rc::make_mut(part)?;
    apply_to_part(below, deferred);
    below.close_from(fd)
}

/// A part with something deferred. A clone shares it until one of the two writes.
#[derive(Drop)]
pub(crate) struct Shared<T> {
    deferred: Deferred,
    part: Rc<T>,
}

impl<T: Drop> Shared<T> {
    /// The part, if nobody else has it.
    pub(crate) fn sole(&self) -> Result<Option<Rc<T>>, NoMemory>
        ensures { IfOk result (λ part. IfSome part (λ part. part.value ≡ self.now.part.value)) }
    {
        if Rc::strong_count(&self.part) != 1 {
            return Ok(None);
        }
        Ok(Some(self.part.clone()?))
    }
}

impl<T: Subtree> Shared<T> {
    ghost use Rattle.cap_machine.specs.Code.Cells.Parts.{in_shared};

    /// The part, where nothing is deferred.
    #[tactic(auto, unfolding(crate::specs::Code::Cells::Parts::in_shared))]
    #[inline(always)]
    pub(crate) fn up_to_date(&self) -> Option<&T>
        ensures { IfSome result (λ part. (f : ℕ) → T.cell_at part.now f ≡ in_shared T.cell_at self.now f) }
    {
        match self.deferred {
            Deferred::Nothing => Some(&*self.part),
            _ => None,
        }
    }
}

impl<T: Subtree> Clone for Shared<T> {
    ghost use Rattle.cap_machine.specs.Code.Cells.Parts.{in_shared};

    ghost is_clone = { λ a b. (f : ℕ) → in_shared T.cell_at b f ≡ in_shared T.cell_at a f };

    #[tactic(auto, unfolding(crate::specs::Code::Cells::Parts::in_shared))]
    fn clone(&self) -> Result<Shared<T>, AllocError> {
        Ok(Shared {
            deferred: self.deferred,
            part: self.part.clone()?,
        })
    }
}

impl<T: Subtree> Subtree for Shared<T> {
    ghost use Rattle.cap_machine.specs.Code.Cells.Parts.{in_shared};

    ghost cell_at = { in_shared T.cell_at };

    ghost has = { T.has };

    #[tactic(auto, unfolding(crate::specs::Code::Cells::Parts::in_shared))]
    fn all(alloc: Global, cell: Cell) -> Result<Shared<T>, NoMemory> {
        Ok(Shared {
            deferred: Deferred::Nothing,
            part: Rc::new(alloc, T::all(alloc, cell)?)?,
        })
    }

    #[tactic(auto, unfolding(crate::specs::Code::Cells::Parts::in_shared))]
    fn cell(&self, fd: usize) -> Cell {
        self.deferred.on(self.part.cell(fd))
    }

    // In place where nobody else has the part and nothing is deferred; else `write_part`, which would do the same
    // there, after it made the part its own and did what was deferred.
    #[tactic(auto, unfolding(crate::specs::Code::Cells::Parts::in_shared))]
    #[inline(always)]
    fn write(&mut self, fd: usize, cell: Cell) -> Result<(), NoMemory> {
        if let Deferred::Nothing = self.deferred {
            if let Some(part) = Rc::get_mut(&mut self.part) {
                return part.write(fd, cell);
            }
        }
        write_part(&mut self.part, self.deferred, fd, cell)?;
        self.deferred = Deferred::Nothing;
        Ok(())
    }

    #[tactic(auto, unfolding(crate::specs::Code::Cells::Parts::in_shared))]
    fn apply_deferred(&mut self, deferred: Deferred) {
        self.deferred = deferred.after(self.deferred);
    }

    #[tactic(auto, unfolding(crate::specs::Code::Cells::Parts::in_shared))]
    fn close_from(&mut self, fd: usize) -> Result<(), NoMemory> {
        close_part(&mut self.part, self.deferred, fd)?;
        self.deferred = Deferred::Nothing;
        Ok(())
    }

    ghost same_in_clone = { λ a b same f. same f };
}
