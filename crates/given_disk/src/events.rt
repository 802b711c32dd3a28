use crate::inode::Sort;
use crate::state::State;
use crate::trouble::Event;
use std::alloc::AllocError;

/// What other processes do.
impl State {
    pub(crate) fn happen(&mut self, event: Event) -> Result<(), AllocError> {
        match event {
            Event::Rewrites(name, bytes) => self.rewrite(name, bytes),
            Event::Replaces(name, bytes) => self.replace(name, bytes),
            Event::Copies(from, to) => self.copy(from, to),
            Event::Moves(from, to) => self.give_name(from, to),
            Event::Removes(name) => {
                self.forget(name);
                Ok(())
            }
        }
    }

    fn replace(&mut self, name: &str, bytes: &[u8]) -> Result<(), AllocError> {
        let made = self.put(name, Sort::File, bytes)?;
        self.touch(made, true);
        Ok(())
    }

    fn rewrite(&mut self, name: &str, bytes: &[u8]) -> Result<(), AllocError> {
        let Some(index) = self.inode_of(name) else {
            return self.replace(name, bytes);
        };
        if let Some(inode) = self.inodes.get_mut(index) {
            inode.bytes.clear();
            inode.bytes.extend_from_slice(bytes)?;
        }
        self.touch(index, true);
        Ok(())
    }

    fn copy(&mut self, from: &str, to: &str) -> Result<(), AllocError> {
        let Some(inode) = self.found(from) else {
            return Ok(());
        };
        let bytes = Vec::from_slice(self.alloc, &inode.bytes)?;
        self.rewrite(to, &bytes)
    }

    /// Gives what has the first name the second one in its place.
    pub(crate) fn give_name(&mut self, from: &str, to: &str) -> Result<(), AllocError> {
        let Some(inode) = self.inode_of(from) else {
            return Ok(());
        };
        self.forget(from);
        self.name(to, inode)?;
        self.touch(inode, false);
        Ok(())
    }
}
