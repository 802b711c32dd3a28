use crate::inode::{Inode, Sort};
use crate::judged::is_draft;
use crate::state::{State, refused};
use crate::trouble::{CallKind, NO_INODE};
use real_objects::{Kind, Mark, Moment, Seen};
use std::alloc::Global;
use std::io;
use std::io::ErrorKind;

fn moment(seconds: i64) -> Moment {
    Moment {
        seconds,
        nanoseconds: 0,
    }
}

fn kind_of(sort: Sort) -> Kind {
    match sort {
        Sort::File => Kind::File,
        Sort::Link => Kind::Link,
        _ => Kind::Other,
    }
}

fn seen_of(number: usize, inode: &Inode) -> Seen {
    let mark = Mark {
        device: inode.device,
        inode: number as u64,
        length: inode.bytes.len() as u64,
        modified: moment(inode.modified),
        changed: moment(inode.changed),
    };
    Seen {
        kind: kind_of(inode.sort),
        mark,
        mode: inode.access.mode,
        owner: inode.access.owner,
        group: inode.access.group,
    }
}

/// What each call does, once what comes at it has come.
impl State {
    pub(crate) fn time(&mut self) -> io::Result<i64> {
        self.meet(CallKind::Now, NO_INODE)?;
        Ok(self.now)
    }

    fn seen(&self, number: usize) -> io::Result<Seen> {
        match self.inodes.get(number) {
            Some(inode) => Ok(seen_of(number, inode)),
            None => refused(ErrorKind::NotFound),
        }
    }

    /// Looks at what a path leads to.
    pub(crate) fn look(&mut self, path: &str, follows: bool) -> io::Result<Seen> {
        self.meet(CallKind::Look, NO_INODE)?;
        let inode = self.led(path, follows)?;
        self.seen(inode)
    }

    /// Looks at an open file.
    pub(crate) fn look_at(&mut self, inode: usize) -> io::Result<Seen> {
        self.meet(CallKind::LookAtOpen, inode)?;
        self.seen(inode)
    }

    /// The text of a link, as it is spelled.
    pub(crate) fn text_of(&mut self, alloc: Global, path: &str) -> io::Result<String> {
        self.meet(CallKind::ReadLink, NO_INODE)?;
        let name = self.resolved(path, false)?;
        let text = self.link_at(name.as_str())?;
        Ok(String::from_str(alloc, text)?)
    }

    /// The inode that is to be opened to read.
    pub(crate) fn open(&mut self, path: &str) -> io::Result<usize> {
        self.meet(CallKind::Open, NO_INODE)?;
        let inode = self.led(path, true)?;
        let Some(found) = self.inodes.get(inode) else {
            return refused(ErrorKind::NotFound);
        };
        match found.sort {
            Sort::File | Sort::Folder | Sort::Mount => Ok(inode),
            Sort::Closed => refused(ErrorKind::PermissionDenied),
            // (it would be waited for)
            _ => refused(ErrorKind::TimedOut),
        }
    }

    /// A call that changes the disk begins.
    fn meet_change(&mut self, kind: CallKind) -> io::Result<()> {
        self.meet(kind, NO_INODE)?;
        if self.limits.is_read_only {
            return refused(ErrorKind::ReadOnlyFilesystem);
        }
        Ok(())
    }

    /// Makes a file under a name that nothing has, be it a link.
    pub(crate) fn make(&mut self, path: &str, mode: u32) -> io::Result<usize> {
        self.meet_change(CallKind::Make)?;
        let name = self.resolved(path, false)?;
        self.make_at(name.as_str(), mode)
    }

    fn make_at(&mut self, name: &str, mode: u32) -> io::Result<usize> {
        if self.index_of(name).is_some() {
            return refused(ErrorKind::AlreadyExists);
        }
        let made = self.put(name, Sort::File, b"")?;
        let mode = mode & !self.limits.umask & 0o777;
        if let Some(inode) = self.inodes.get_mut(made) {
            inode.access.mode = mode;
        }
        self.touch(made, true);
        self.tell(made, false);
        Ok(made)
    }

    pub(crate) fn set_mode(&mut self, index: usize, mode: u32) -> io::Result<()> {
        self.meet(CallKind::SetMode, index)?;
        if let Some(inode) = self.inodes.get_mut(index) {
            inode.access.mode = mode;
        }
        self.touch(index, false);
        Ok(())
    }

    pub(crate) fn give(&mut self, index: usize, owner: u32, group: u32) -> io::Result<()> {
        self.meet(CallKind::Give, index)?;
        if !self.limits.may_give {
            return refused(ErrorKind::PermissionDenied);
        }
        if let Some(inode) = self.inodes.get_mut(index) {
            inode.access.owner = owner;
            inode.access.group = group;
        }
        self.touch(index, false);
        Ok(())
    }

    pub(crate) fn rename(&mut self, from: &str, to: &str) -> io::Result<()> {
        self.meet_change(CallKind::Rename)?;
        let from = self.resolved(from, false)?;
        let to = self.resolved(to, false)?;
        self.rename_at(from.as_str(), to.as_str())
    }

    fn rename_at(&mut self, from: &str, to: &str) -> io::Result<()> {
        let Some(inode) = self.inode_of(from) else {
            return refused(ErrorKind::NotFound);
        };
        if self.device_of(from) != self.device_of(to) {
            return refused(ErrorKind::CrossesDevices);
        }
        if self.is_folder(to) {
            return refused(ErrorKind::IsADirectory);
        }
        self.tell(inode, !is_draft(to));
        Ok(self.give_name(from, to)?)
    }

    pub(crate) fn remove(&mut self, path: &str) -> io::Result<()> {
        self.meet_change(CallKind::Remove)?;
        let name = self.resolved(path, false)?;
        self.remove_at(name.as_str())
    }

    fn remove_at(&mut self, name: &str) -> io::Result<()> {
        if self.is_folder(name) {
            return refused(ErrorKind::IsADirectory);
        }
        if self.index_of(name).is_none() {
            return refused(ErrorKind::NotFound);
        }
        self.forget(name);
        Ok(())
    }

    fn is_folder(&self, name: &str) -> bool {
        match self.found(name) {
            Some(inode) => inode.is_folder(),
            None => false,
        }
    }
}
