use crate::disk::OnDisk;
use crate::file::MemFile;
use crate::state::FIRST;
use crate::trouble::CallKind;
use real_objects::{Seen, System};
use std::alloc::Global;
use std::io;

impl<'a> System for OnDisk<'a> {
    type File = MemFile<'a>;

    fn now(&self) -> io::Result<i64> {
        self.disk.state()?.time()
    }

    fn seen(&self, path: &str) -> io::Result<Seen> {
        self.disk.state()?.look(path, true)
    }

    fn seen_here(&self, path: &str) -> io::Result<Seen> {
        self.disk.state()?.look(path, false)
    }

    fn seen_open(&self, file: &MemFile<'a>) -> io::Result<Seen> {
        self.disk.state()?.look_at(file.inode())
    }

    fn link_text(&self, alloc: Global, path: &str) -> io::Result<String> {
        self.disk.state()?.text_of(alloc, path)
    }

    fn open(&self, path: &str) -> io::Result<MemFile<'a>> {
        let inode = self.disk.state()?.open(path)?;
        MemFile::new(self.disk, inode, 0)
    }

    fn make(&self, path: &str, mode: u32) -> io::Result<MemFile<'a>> {
        let inode = self.disk.state()?.make(path, mode)?;
        MemFile::new(self.disk, inode, 0)
    }

    fn raised(&self, file: MemFile<'a>) -> io::Result<MemFile<'a>> {
        if file.number() >= FIRST {
            return Ok(file);
        }
        self.disk.state()?.meet(CallKind::Raise, file.inode())?;
        MemFile::new(self.disk, file.inode(), FIRST)
    }

    fn read_at(&self, file: &MemFile<'a>, at: u64, buf: &mut [u8]) -> io::Result<usize> {
        file.read_from(at, buf)
    }

    fn give(&self, file: &MemFile<'a>, owner: u32, group: u32) -> io::Result<()> {
        self.disk.state()?.give(file.inode(), owner, group)
    }

    fn set_mode(&self, file: &MemFile<'a>, mode: u32) -> io::Result<()> {
        self.disk.state()?.set_mode(file.inode(), mode)
    }

    fn sync(&self, file: &MemFile<'a>) -> io::Result<()> {
        self.disk.state()?.meet(CallKind::Sync, file.inode())
    }

    fn rename(&self, from: &str, to: &str) -> io::Result<()> {
        self.disk.state()?.rename(from, to)
    }

    fn remove(&self, path: &str) -> io::Result<()> {
        self.disk.state()?.remove(path)
    }
}
