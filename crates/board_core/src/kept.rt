//! Lists whose room is taken at the start.

ghost use Rattle.std.specs.Prelude.{◌≡◌, ◌≤◌, ◌<◌, [], ◌∷◌, ◌++◌, IfOk, length, vec_capacity};

use ras_io::NoMemory;
use std::alloc::Global;

/// A list with room for so many items, so that adding one takes no memory.
#[derive(Drop)]
pub(crate) struct Kept<T> {
    pub(crate) items: Vec<T>,
    pub(crate) room: usize,
    ghost fits: { room ≤ vec_capacity items },
}

impl<T: Drop> Kept<T> {
    /// No items, with room for so many. `NoMemory` comes where that room wasn't found.
    pub(crate) fn new(alloc: Global, room: usize) -> Result<Kept<T>, NoMemory>
        ensures items { IfOk result (λ kept. kept.items.items ≡ []) }
        ensures room { IfOk result (λ kept. kept.room ≡ room) }
    {
        let items = Vec::with_capacity(alloc, room).map_err(|_| NoMemory)?;
        Ok(Kept { items, room })
    }

    /// Adds an item at the end.
    pub(crate) fn push(&mut self, item: T)
        requires { length self.old.items.items < self.old.room }
        ensures items { self.new.items.items ≡ self.old.items.items ++ item ∷ [] }
        ensures room { self.new.room ≡ self.old.room }
    {
        if self.items.push(item).is_err() {
            unreachable!()
        }
    }
}
