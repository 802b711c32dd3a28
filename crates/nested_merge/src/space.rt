ghost use Rattle.std.specs.Prelude.{◌≡◌, ◌<◌, ◌≤◌, ◌++◌, [], ◌∷◌, IfOk, vec_len, vec_capacity};

use std::alloc::{AllocError, Global};

/// A list that is still empty, with its room.
#[derive(Drop)]
pub struct Space<T> {
    items: Vec<T>,
    pub ghost empty: { vec_len items ≡ 0 },
}

impl<T> Space<T> {
    pub fn new(alloc: Global, room: usize) -> Result<Space<T>, AllocError>
        ensures { IfOk result (λ s. vec_capacity s.items ≡ room) }
    {
        Ok(Space {
            items: Vec::with_capacity(alloc, room)?,
        })
    }

    pub fn into_items(self) -> Vec<T>
        ensures items { result.items ≡ [] }
        ensures room { vec_capacity result ≡ vec_capacity self.items }
    {
        self.items
    }
}

/// One more item in a list that has room for it.
pub fn put<T: Drop>(items: &mut Vec<T>, item: T)
    requires { vec_len items.old < vec_capacity items.old }
    ensures items { items.new.items ≡ items.old.items ++ item ∷ [] }
    ensures room { vec_capacity items.old ≤ vec_capacity items.new }
{
    let _ = items.push(item);
}
