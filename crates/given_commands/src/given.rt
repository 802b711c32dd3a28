//! Named bytes.
use crate::scope::Scope;
use std::alloc::Global;

#[derive(Drop)]
pub(crate) struct Constant {
    pub(crate) name: Vec<u8>,
    pub(crate) bytes: Vec<u8>,
}

/// Named bytes.
#[derive(Drop)]
pub struct Given {
    pub(crate) constants: Vec<Constant>,
}

impl Given {
    pub fn new(alloc: Global) -> Given {
        Given {
            constants: Vec::new(alloc),
        }
    }

    pub(crate) fn find(&self, name: &[u8]) -> Option<&[u8]> {
        for constant in self.constants.iter() {
            if constant.name.as_slice() == name {
                return Some(constant.bytes.as_slice());
            }
        }
        None
    }
}

pub(crate) fn is_remark(text: &str) -> bool {
    text.is_empty() || text.starts_with('#')
}

/// The named bytes of a text of lines `let NAME PIECES`; else the number of its first line that is none.
pub fn read_given(alloc: Global, text: &str) -> Result<Given, u64> {
    let mut scope = Scope::new(alloc, None);
    let mut number = 0u64;
    for text in text.lines() {
        number = number.saturating_add(1);
        if !is_remark(text) && !scope.is_named(text) {
            return Err(number);
        }
    }
    Ok(scope.own)
}
