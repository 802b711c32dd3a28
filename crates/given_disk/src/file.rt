ghost use Rattle.std.specs.Io.{ReadsAtMost};

use crate::disk::MemDisk;
use crate::trouble::CallKind;
use std::io;
use std::io::Write;

/// An open file of the disk. Its descriptor is free again once it is dropped.
pub struct MemFile<'a> {
    disk: &'a MemDisk,
    inode: usize,
    number: usize,
}

impl Drop for MemFile<'_> {
    fn drop(self) {
        let MemFile {
            disk,
            inode: _,
            number,
        } = self;
        disk.close(number);
    }
}

impl<'a> MemFile<'a> {
    /// The inode, opened at the lowest descriptor that is free and not below the given one.
    pub(crate) fn new(disk: &'a MemDisk, inode: usize, least: usize) -> io::Result<MemFile<'a>> {
        let number = disk.opened(inode, least)?;
        Ok(MemFile {
            disk,
            inode,
            number,
        })
    }

    pub(crate) fn inode(&self) -> usize {
        self.inode
    }

    pub(crate) fn number(&self) -> usize {
        self.number
    }

    pub(crate) fn read_from(&self, at: u64, buf: &mut [u8]) -> io::Result<usize>
        ensures bound { ReadsAtMost result buf.new }
    {
        let mut state = self.disk.state()?;
        state.meet(CallKind::Read, self.inode)?;
        Ok(state.read(self.inode, at, buf).min(buf.len()))
    }
}

/// It is written at its end: each file is made empty, and written from the front on.
impl Write for MemFile<'_> {
    fn write(&mut self, buf: &[u8]) -> io::Result<usize> {
        let mut state = self.disk.state()?;
        state.meet(CallKind::Write, self.inode)?;
        Ok(state.append(self.inode, buf)?.min(buf.len()))
    }

    fn flush(&mut self) -> io::Result<()> {
        Ok(())
    }
}
