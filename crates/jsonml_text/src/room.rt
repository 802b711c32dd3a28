ghost use Rattle.std.specs.Prelude.{◌≡◌, ◌≤◌, [], IfSome, OnSome, drop, length, take};

use json::Scratch;
use jsonml_tree::LentTree;
use std::alloc::Global;
use std::mem;

/// What a reader uses again and again.
#[derive(Drop)]
pub(crate) struct Room<'a> {
    /// The trees that wait for the end of the element around them.
    pub(crate) trees: Vec<LentTree<'a>>,
    /// Room for strings with escapes.
    pub(crate) scratch: Scratch,
}

impl<'a> Room<'a> {
    pub(crate) fn new(alloc: Global) -> Room<'a>
        ensures { result.trees.items ≡ [] }
    {
        Room {
            trees: Vec::new(alloc),
            scratch: Scratch::new(alloc),
        }
    }

    /// Takes off the trees behind the first ones, without spare room. Nothing for want of memory, and where they are more
    /// than positions reach.
    ///
    /// All of them are handed out as they are, and not copied, so that a document's many rows take their room once.
    pub(crate) fn take_from(&mut self, alloc: Global, waiting: usize) -> Option<Vec<LentTree<'a>>>
        requires { waiting ≤ length self.old.trees.items }
        ensures taken { IfSome result (λ v. v.items ≡ drop waiting self.old.trees.items) }
        ensures few { IfSome result (λ v. length v.items ≤ 4294967295) }
        ensures left { OnSome result (self.new.trees.items ≡ take waiting self.old.trees.items) }
    {
        if self.trees.len() - waiting > u32::MAX as usize {
            return None;
        }
        if waiting > 0 {
            return self.trees.split_off(waiting).ok();
        }
        let mut all = mem::replace(&mut self.trees, Vec::new(alloc));
        all.shrink_to_fit();
        Some(all)
    }
}
