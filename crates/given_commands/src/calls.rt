//! The calls that can fail.
use std::alloc::Global;
use xa_outside::{FolderCall, FolderFail};

/// What fails.
#[derive(Clone, Copy)]
pub(crate) enum Object {
    Folder(FolderCall),
    Input,
    Output,
    Errors,
}

pub(crate) const OBJECTS: &[(&str, Object)] = &[
    ("length", Object::Folder(FolderCall::Length)),
    ("read_at", Object::Folder(FolderCall::ReadAt)),
    ("begin", Object::Folder(FolderCall::Begin)),
    ("append", Object::Folder(FolderCall::Append)),
    ("commit", Object::Folder(FolderCall::Commit)),
    ("input", Object::Input),
    ("output", Object::Output),
    ("errors", Object::Errors),
];

/// The object of this name.
pub(crate) fn object_of(text: &str) -> Option<Object> {
    for (name, object) in OBJECTS {
        if *name == text {
            return Some(*object);
        }
    }
    None
}

/// Which calls fail, counted from 1.
#[derive(Drop)]
pub(crate) struct Fails {
    pub(crate) folder: Vec<FolderFail>,
    pub(crate) input: Vec<u64>,
    pub(crate) output: Vec<u64>,
    pub(crate) errors: Vec<u64>,
}

impl Fails {
    pub(crate) fn none(alloc: Global) -> Fails {
        Fails {
            folder: Vec::new(alloc),
            input: Vec::new(alloc),
            output: Vec::new(alloc),
            errors: Vec::new(alloc),
        }
    }

    /// This call alone, if there is memory for it.
    pub(crate) fn one(alloc: Global, object: Object, number: u64) -> Fails {
        let mut fails = Fails::none(alloc);
        fails.list(object, number);
        fails
    }

    /// Lists a call among those that fail, and answers whether there was memory for it.
    pub(crate) fn list(&mut self, object: Object, number: u64) -> bool {
        match object {
            Object::Folder(call) => self.folder.push(FolderFail { call, number }).is_ok(),
            Object::Input => self.input.push(number).is_ok(),
            Object::Output => self.output.push(number).is_ok(),
            Object::Errors => self.errors.push(number).is_ok(),
        }
    }
}
