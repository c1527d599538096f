//! Runs of shared items, as a leaf holds them, and edits of them. Each is made with room for its items and no more.
ghost use Rattle.std.specs.Prelude.{◌≡◌, ◌+◌, ◌^◌, ◌<◌, ◌≤◌, [], ◌∷◌, ◌++◌, length, vec_len, IfOk, OnOk};
ghost use Rattle.cap_tree.specs.Edits.{edited, IsAllowed};
ghost use Rattle.cap_tree.specs.Run.{values};

use crate::no_memory::NoMemory;
use std::alloc::Global;
use std::rc::Rc;

/// What an edit does at a place: it puts a new item before the one that is there, or in its place, or takes that away.
#[derive(Drop)]
pub(crate) enum Edit<T: Drop> {
    Insert(Rc<T>),
    Replace(Rc<T>),
    Remove,
}

/// Adds the items of a run, shared with it.
fn share<T: Drop>(run: &mut Vec<Rc<T>>, more: &[Rc<T>]) -> Result<(), NoMemory>
    ensures { OnOk result (values run.new.items ≡ values run.old.items ++ values more.now) }
{
    run.extend_from_slice(more)?;
    Ok(())
}

/// A run of one item.
pub(crate) fn single<T: Drop>(alloc: Global, item: Rc<T>) -> Result<Vec<Rc<T>>, NoMemory>
    ensures item { IfOk result (λ run. values run.items ≡ item.value ∷ []) }
    ensures one { IfOk result (λ run. vec_len run ≡ 1) }
{
    let mut run = Vec::with_capacity(alloc, 1)?;
    run.push(item)?;
    Ok(run)
}

/// A copy of a run, which shares the items.
pub(crate) fn shared<T: Drop>(alloc: Global, items: &[Rc<T>]) -> Result<Vec<Rc<T>>, NoMemory>
    ensures { IfOk result (λ run. values run.items ≡ values items.now) }
{
    let mut run = Vec::with_capacity(alloc, items.len())?;
    share(&mut run, items)?;
    Ok(run)
}

/// The items of the one run and then those of the other.
pub(crate) fn joined<T: Drop>(
    alloc: Global,
    front: &[Rc<T>],
    back: &[Rc<T>],
) -> Result<Vec<Rc<T>>, NoMemory>
    requires { length front.now + length back.now ≤ 2 ^ 30 }
    ensures { IfOk result (λ run. values run.items ≡ values front.now ++ values back.now) }
{
    let mut run = Vec::with_capacity(alloc, front.len() + back.len())?;
    share(&mut run, front)?;
    share(&mut run, back)?;
    Ok(run)
}

/// The items of the one run, then this one, and then those of the other.
fn joined_by<T: Drop>(
    alloc: Global,
    front: &[Rc<T>],
    item: Rc<T>,
    back: &[Rc<T>],
) -> Result<Vec<Rc<T>>, NoMemory>
    requires { length front.now + length back.now ≤ 2 ^ 30 }
    ensures { IfOk result (λ run. values run.items ≡ values front.now ++ item.value ∷ values back.now) }
{
    let mut run = Vec::with_capacity(alloc, front.len() + back.len() + 1)?;
    share(&mut run, front)?;
    run.push(item)?;
    share(&mut run, back)?;
    Ok(run)
}

/// The run after an edit at a place.
pub(crate) fn edited<T: Drop>(
    alloc: Global,
    run: &[Rc<T>],
    at: usize,
    edit: Edit<T>,
) -> Result<Vec<Rc<T>>, NoMemory>
    requires allowed { IsAllowed edit (length run.now) at }
    requires few { length run.now ≤ 2 ^ 30 }
    ensures { IfOk result (λ new. values new.items ≡ edited edit (values run.now) at) }
{
    match edit {
        Edit::Insert(item) => joined_by(alloc, &run[..at], item, &run[at..]),
        Edit::Replace(item) => joined_by(alloc, &run[..at], item, &run[at + 1..]),
        Edit::Remove => joined(alloc, &run[..at], &run[at + 1..]),
    }
}
