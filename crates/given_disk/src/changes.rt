use crate::inode::{Inode, Sort};
use crate::paths::folder_of;
use crate::state::{Name, State, refused};
use std::alloc::AllocError;
use std::io;
use std::io::ErrorKind;

impl State {
    /// The index of the name that is spelled so.
    pub(crate) fn index_of(&self, name: &str) -> Option<usize> {
        for index in 0..self.names.len() {
            if self.names[index].name.as_str() == name {
                return Some(index);
            }
        }
        None
    }

    /// The inode of the name that is spelled so.
    pub fn inode_of(&self, name: &str) -> Option<usize> {
        let index = self.index_of(name)?;
        Some(self.names.get(index)?.inode)
    }

    /// What stands under the name that is spelled so.
    pub fn found(&self, name: &str) -> Option<&Inode> {
        self.inodes.get(self.inode_of(name)?)
    }

    /// The file system that a name stands on: that of its folder.
    pub(crate) fn device_of(&self, name: &str) -> u64 {
        match self.found(folder_of(name)) {
            Some(inode) => inode.device,
            None => 1,
        }
    }

    /// Puts this under the name, in place of what stands there, and gives its inode. It counts as no call.
    pub fn put(&mut self, name: &str, sort: Sort, bytes: &[u8]) -> Result<usize, AllocError> {
        let made = self.inodes.len();
        let device = match sort {
            Sort::Mount => 2,
            _ => self.device_of(name),
        };
        self.inodes
            .push(Inode::new(self.alloc, sort, bytes, device)?)?;
        self.name(name, made)?;
        Ok(made)
    }

    /// Gives the inode this name, which is another one's no more.
    pub(crate) fn name(&mut self, name: &str, inode: usize) -> Result<(), AllocError> {
        self.forget(name);
        self.push_name(name, inode)
    }

    pub(crate) fn push_name(&mut self, name: &str, inode: usize) -> Result<(), AllocError> {
        let name = String::from_str(self.alloc, name)?;
        self.names.push(Name { name, inode })?;
        Ok(())
    }

    /// Takes the name that is spelled so away.
    pub fn forget(&mut self, name: &str) {
        if let Some(index) = self.index_of(name) {
            if index < self.names.len() {
                self.names.remove(index);
            }
        }
    }

    /// The inode is changed now, and its bytes too where that is said.
    pub(crate) fn touch(&mut self, index: usize, bytes: bool) {
        let now = self.now;
        if let Some(inode) = self.inodes.get_mut(index) {
            inode.changed = now;
            if bytes {
                inode.modified = now;
            }
        }
    }

    /// Puts bytes of the inode from the offset on at the front of the buffer.
    pub(crate) fn read(&self, inode: usize, at: u64, buf: &mut [u8]) -> usize {
        let (Some(inode), Ok(at)) = (self.inodes.get(inode), usize::try_from(at)) else {
            return 0;
        };
        let Some(rest) = inode.bytes.get(at..) else {
            return 0;
        };
        let count = rest.len().min(buf.len()).min(self.limits.piece);
        buf[..count].copy_from_slice(&rest[..count]);
        count
    }

    /// Adds bytes to the inode, as far as there is room.
    pub(crate) fn append(&mut self, index: usize, buf: &[u8]) -> io::Result<usize> {
        let (piece, room) = (self.limits.piece, self.limits.room);
        let room = usize::try_from(room).unwrap_or(usize::MAX);
        let count = buf.len().min(piece).min(room);
        if count == 0 && !buf.is_empty() {
            return refused(ErrorKind::StorageFull);
        }
        let Some(inode) = self.inodes.get_mut(index) else {
            return refused(ErrorKind::InvalidInput);
        };
        inode.bytes.extend_from_slice(&buf[..count])?;
        self.limits.room = self.limits.room.saturating_sub(count as u64);
        self.touch(index, true);
        Ok(count)
    }
}
