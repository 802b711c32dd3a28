use crate::inode::Sort;
use crate::state::{State, refused};
use std::alloc::AllocError;
use std::cell::{RefCell, RefMut};
use std::io;
use std::io::ErrorKind;

/// A file system in memory.
#[derive(Drop)]
pub struct MemDisk {
    state: RefCell<State>,
}

/// The disk as a system.
#[derive(Clone, Copy)]
pub struct OnDisk<'a> {
    pub(crate) disk: &'a MemDisk,
}

impl MemDisk {
    pub fn new(state: State) -> MemDisk {
        MemDisk {
            state: RefCell::new(state),
        }
    }

    /// All that there is. Let it go before the next call of the disk.
    pub fn state(&self) -> io::Result<RefMut<'_, State>> {
        match self.state.try_borrow_mut() {
            Ok(state) => Ok(state),
            Err(_) => refused(ErrorKind::ResourceBusy),
        }
    }

    /// Opens the inode at the lowest descriptor that is free and not below the given one.
    pub(crate) fn opened(&self, inode: usize, least: usize) -> io::Result<usize> {
        Ok(self.state()?.opened(inode, least)?)
    }

    /// Nothing has the descriptor any more.
    pub fn close(&self, number: usize) {
        if let Ok(mut state) = self.state() {
            state.close(number);
        }
    }

    /// The disk as a system.
    pub fn on(&self) -> OnDisk<'_> {
        OnDisk { disk: self }
    }
}

impl State {
    /// These pieces are the standard input.
    pub fn say(&mut self, pieces: &[&[u8]]) -> Result<(), AllocError> {
        if let Some(input) = self.inodes.get_mut(1) {
            input.bytes.clear();
            for piece in pieces {
                input.bytes.extend_from_slice(piece)?;
            }
        }
        Ok(())
    }

    /// Puts what was printed into a file of this name, as if nothing had been printed.
    pub fn keep_printed(&mut self, name: &str) -> Result<(), AllocError> {
        let printed = Vec::from_slice(self.alloc, self.printed())?;
        self.put(name, Sort::File, &printed)?;
        if let Some(output) = self.inodes.get_mut(2) {
            output.bytes.clear();
        }
        Ok(())
    }
}
