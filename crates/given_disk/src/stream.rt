use crate::disk::MemDisk;
use std::io;
use std::io::{Read, Write};

/// A standard stream: what is written goes to whatever has its descriptor, and fails where nothing has.
#[derive(Clone, Copy)]
pub struct MemStream<'a> {
    disk: &'a MemDisk,
    number: usize,
    at: u64,
}

impl MemDisk {
    /// The stream of this descriptor.
    pub fn stream(&self, number: usize) -> MemStream<'_> {
        MemStream {
            disk: self,
            number,
            at: 0,
        }
    }
}

impl Read for MemStream<'_> {
    fn read(&mut self, buf: &mut [u8]) -> io::Result<usize> {
        let state = self.disk.state()?;
        let inode = state.behind(self.number)?;
        let count = state.read(inode, self.at, buf).min(buf.len());
        self.at = self.at.saturating_add(count as u64);
        Ok(count)
    }
}

impl Write for MemStream<'_> {
    fn write(&mut self, buf: &[u8]) -> io::Result<usize> {
        let mut state = self.disk.state()?;
        let inode = state.behind(self.number)?;
        Ok(state.append(inode, buf)?.min(buf.len()))
    }

    fn flush(&mut self) -> io::Result<()> {
        Ok(())
    }
}
