//! What the lines of a case are done with.
use crate::given::Given;
use crate::scene::Scene;
use crate::scope::Scope;
use std::alloc::Global;

/// A line and what its words stand for, and what was done so far.
#[derive(Drop)]
pub(crate) struct Interpreter<'a> {
    pub(crate) scope: Scope<'a>,
    pub(crate) scene: Scene,
}

impl<'a> Interpreter<'a> {
    pub(crate) fn new(alloc: Global, shared: &'a Given) -> Interpreter<'a> {
        Interpreter {
            scope: Scope::new(alloc, Some(shared)),
            scene: Scene::new(alloc),
        }
    }
}
