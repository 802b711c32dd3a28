use crate::inode::{Inode, Row, Sort};
use crate::trouble::{Call, CallKind, Trouble, What};
use std::alloc::{AllocError, Global};
use std::io;
use std::io::ErrorKind;

/// What the disk and its process may do.
#[derive(Clone, Copy)]
pub struct Limits {
    /// How many bytes may still be added.
    pub room: u64,
    pub is_read_only: bool,
    /// How many bytes one read or write moves at most.
    pub piece: usize,
    /// No time passes.
    pub is_still: bool,
    /// Files may be given to any owner.
    pub may_give: bool,
    /// The bits that a new file does not get.
    pub umask: u32,
}

pub const NO_LIMITS: Limits = Limits {
    room: u64::MAX,
    is_read_only: false,
    piece: usize::MAX,
    is_still: false,
    may_give: true,
    umask: 0o022,
};

/// A name, spelled without links, and its inode.
#[derive(Drop)]
pub struct Name {
    pub name: String,
    pub inode: usize,
}

/// All of a disk and of the process that uses it. The first inode is the folder that the process runs in, whose name is empty,
/// and the three behind it are its standard streams.
#[derive(Drop)]
pub struct State {
    pub(crate) alloc: Global,
    pub inodes: Vec<Inode>,
    pub names: Vec<Name>,
    pub limits: Limits,
    /// Counts calls, unless no time passes.
    pub now: i64,
    /// The inode of each descriptor.
    pub(crate) numbers: Vec<Option<usize>>,
    pub log: Vec<Call>,
    come: Option<Trouble>,
    interrupts: u32,
    is_dead: bool,
}

/// The first descriptor that is no standard stream's.
pub(crate) const FIRST: usize = 3;

/// An error of this kind.
pub(crate) fn refused<T>(kind: ErrorKind) -> io::Result<T> {
    Err(io::Error::from(kind))
}

impl State {
    pub fn alloc(&self) -> Global {
        self.alloc
    }

    fn empty(alloc: Global) -> State {
        State {
            alloc,
            inodes: Vec::new(alloc),
            names: Vec::new(alloc),
            limits: NO_LIMITS,
            now: 1_000_000,
            numbers: Vec::new(alloc),
            log: Vec::new(alloc),
            come: None,
            interrupts: 0,
            is_dead: false,
        }
    }

    /// A disk with these names, and a process with three streams and no other open file.
    pub fn of(alloc: Global, rows: &[Row]) -> Result<State, AllocError> {
        let mut state = State::empty(alloc);
        state.put("", Sort::Folder, b"")?;
        state.put_streams()?;
        state.put_rows(rows)?;
        Ok(state)
    }

    fn put_streams(&mut self) -> Result<(), AllocError> {
        for number in 0..FIRST {
            self.inodes
                .push(Inode::new(self.alloc, Sort::Pipe, b"", 1)?)?;
            self.numbers.push(Some(number + 1))?;
        }
        Ok(())
    }

    fn put_rows(&mut self, rows: &[Row]) -> Result<(), AllocError> {
        for row in rows {
            let made = self.put(row.0, row.1, row.2)?;
            if let Some(inode) = self.inodes.get_mut(made) {
                inode.access = row.3;
            }
        }
        Ok(())
    }

    /// The same names and files on another disk, with the same limits and a process of its own.
    pub fn copied(&self) -> Result<State, AllocError> {
        let mut other = State::empty(self.alloc);
        other.limits = self.limits;
        other.put_streams()?;
        other.inodes.clear();
        other.copy_inodes(self)?;
        other.copy_names(self)?;
        Ok(other)
    }

    fn copy_inodes(&mut self, from: &State) -> Result<(), AllocError> {
        for inode in &from.inodes {
            self.inodes.push(inode.copied(self.alloc)?)?;
        }
        Ok(())
    }

    fn copy_names(&mut self, from: &State) -> Result<(), AllocError> {
        for name in &from.names {
            self.push_name(name.name.as_str(), name.inode)?;
        }
        Ok(())
    }

    /// From now on this comes, to a process that is alive. Its calls are counted and logged anew.
    pub fn plan(&mut self, come: Option<Trouble>) {
        self.come = come;
        self.log.clear();
        self.interrupts = 0;
        self.is_dead = false;
    }

    /// A call begins: it is logged, and what is to come at it comes.
    pub(crate) fn meet(&mut self, kind: CallKind, inode: usize) -> io::Result<()> {
        if self.is_dead {
            return refused(ErrorKind::Other);
        }
        if self.interrupts > 0 {
            self.interrupts -= 1;
            return refused(ErrorKind::Interrupted);
        }
        let number = self.log.len();
        self.log(kind, inode)?;
        match self.come {
            Some(trouble) if trouble.at == number => self.suffer(trouble.what, kind),
            _ => Ok(()),
        }
    }

    fn log(&mut self, kind: CallKind, inode: usize) -> Result<(), AllocError> {
        if !self.limits.is_still {
            self.now = self.now.saturating_add(1);
        }
        self.log.push(Call {
            kind,
            inode: 0,
            mode: 0,
            names: false,
        })?;
        self.tell(inode, false);
        Ok(())
    }

    /// Says which inode the call that was logged last leads to, and whether this gets a name that is not a draft's.
    pub(crate) fn tell(&mut self, inode: usize, names: bool) {
        let mode = match self.inodes.get(inode) {
            Some(found) => found.access.mode,
            None => 0,
        };
        if let Some(call) = self.log.last_mut() {
            call.inode = inode;
            call.mode = mode;
            call.names = names;
        }
    }

    fn suffer(&mut self, what: What, kind: CallKind) -> io::Result<()> {
        match what {
            What::Fails(error) => refused(error),
            What::IsInterrupted(times) => self.interrupt(times, kind),
            What::Stops => {
                self.is_dead = true;
                refused(ErrorKind::Other)
            }
            What::Meets(event) => Ok(self.happen(event)?),
        }
    }

    fn interrupt(&mut self, times: u32, kind: CallKind) -> io::Result<()> {
        if times == 0 || matches!(kind, CallKind::Now | CallKind::Raise) {
            return Ok(());
        }
        self.interrupts = times - 1;
        refused(ErrorKind::Interrupted)
    }
}
