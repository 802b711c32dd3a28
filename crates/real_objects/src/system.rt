ghost use Rattle.std.specs.Prelude.{◌≡◌, ◌↔◌, IsTrue};
ghost use Rattle.std.specs.Io.{ReadsAtMost};

use std::alloc::Global;
use std::fs::{File, FileType, Metadata, OpenFile, OpenOptions, Permissions};
use std::io;
use std::io::Write;
use std::os::fd::AsRawFd;
use std::os::unix::fs::{FileExt, MetadataExt, OpenOptionsExt, PermissionsExt, fchown};
use std::rt::{Clock, Files, LibcRuntime};

/// A moment: seconds since 1970, and nanoseconds.
#[derive(Clone, Copy, PartialEq, Eq)]
pub struct Moment {
    pub seconds: i64,
    pub nanoseconds: i64,
}

impl Moment {
    pub fn is_same(&self, other: &Moment) -> bool
        ensures { IsTrue result ↔ ((self.now.seconds ≡ other.now.seconds)
            × (self.now.nanoseconds ≡ other.now.nanoseconds)) }
    {
        self.seconds == other.seconds && self.nanoseconds == other.nanoseconds
    }
}

/// Which file, and in which state. Two marks that are equal are of one file that nobody wrote in between, if it was
/// settled at the first.
#[derive(Clone, Copy, PartialEq, Eq)]
pub struct Mark {
    /// The file system.
    pub device: u64,
    /// The file's number there: no two files that exist have one number.
    pub inode: u64,
    /// In bytes.
    pub length: u64,
    /// When the bytes last changed, as a program may set it.
    pub modified: Moment,
    /// When the bytes or the metadata last changed, which no program sets.
    pub changed: Moment,
}

impl Mark {
    ghost use Rattle.real_objects.specs.Mark.{IsSame};

    /// Whether both are of one file in one state.
    pub fn is_same(&self, other: &Mark) -> bool
        ensures { IsTrue result ↔ IsSame self.now other.now }
    {
        if self.device != other.device || self.inode != other.inode {
            return false;
        }
        if self.length != other.length {
            return false;
        }
        self.modified.is_same(&other.modified) && self.changed.is_same(&other.changed)
    }
}

/// What a path leads to.
#[derive(Clone, Copy, PartialEq, Eq)]
pub enum Kind {
    File,
    Link,
    /// A folder, a pipe or a device.
    Other,
}

/// What the system tells of a file.
#[derive(Clone, Copy)]
pub struct Seen {
    pub kind: Kind,
    pub mark: Mark,
    /// Who may read, write and run it: nine bits.
    pub mode: u32,
    pub owner: u32,
    pub group: u32,
}

/// A file system: the calls that the folder makes. Each is one call of the system and decides nothing but which number an open
/// file has, so a disk in memory can stand in for it. A call that was interrupted may say so: it is tried again by its caller.
pub trait System {
    /// An open file. It is written at its own place, which begins at the front, and is closed where it is dropped.
    type File: Write + Drop;

    /// The seconds since 1970, by the clock that files are marked with.
    fn now(&self) -> io::Result<i64>;

    /// What the path leads to, through all links. `NotFound` where there is nothing, `NotADirectory` where the path
    /// goes through a file.
    fn seen(&self, path: &str) -> io::Result<Seen>;

    /// What stands at the path, be it a link.
    fn seen_here(&self, path: &str) -> io::Result<Seen>;

    /// What the open file is now.
    fn seen_open(&self, file: &Self::File) -> io::Result<Seen>;

    /// Where the link at the path leads: its text as it stands.
    fn link_text(&self, alloc: Global, path: &str) -> io::Result<String>;

    /// Opens a file to read, or a folder to sync it.
    fn open(&self, path: &str) -> io::Result<Self::File>;

    /// Makes a file to write and to read, with this mode as the umask narrows it. `AlreadyExists` where anything stands at the
    /// path, be it a link that leads nowhere.
    fn make(&self, path: &str, mode: u32) -> io::Result<Self::File>;

    /// The same open file, whose number is above those of the three standard streams.
    fn raised(&self, file: Self::File) -> io::Result<Self::File>;

    /// Puts bytes of the file from the offset on at the front of the buffer, and answers how many. It may be fewer than there
    /// are; none only at the end of the file, or where the buffer is empty.
    fn read_at(&self, file: &Self::File, at: u64, buf: &mut [u8]) -> io::Result<usize>
        ensures bound { ReadsAtMost result buf.new };

    /// Gives the file to this owner and this group.
    fn give(&self, file: &Self::File, owner: u32, group: u32) -> io::Result<()>;

    /// Sets the nine bits.
    fn set_mode(&self, file: &Self::File, mode: u32) -> io::Result<()>;

    /// Returns when the disk has the file, or the folder's names. `InvalidInput` or `Unsupported` where the file system has
    /// no such call.
    fn sync(&self, file: &Self::File) -> io::Result<()>;

    /// Gives what stands at the first path the second one, in place of a file that stands there. `CrossesDevices` where that is
    /// on another file system.
    fn rename(&self, from: &str, to: &str) -> io::Result<()>;

    /// Removes the name, be it that of a link.
    fn remove(&self, path: &str) -> io::Result<()>;
}

fn kind_of(found: FileType) -> Kind {
    if found.is_file() {
        Kind::File
    } else if found.is_symlink() {
        Kind::Link
    } else {
        Kind::Other
    }
}

fn seen_of(found: &Metadata) -> Seen {
    let modified = Moment {
        seconds: found.mtime(),
        nanoseconds: found.mtime_nsec(),
    };
    let changed = Moment {
        seconds: found.ctime(),
        nanoseconds: found.ctime_nsec(),
    };
    let mark = Mark {
        device: found.dev(),
        inode: found.ino(),
        length: found.len(),
        modified,
        changed,
    };
    Seen {
        kind: kind_of(found.file_type()),
        mark,
        mode: found.mode() & 0o777,
        owner: found.uid(),
        group: found.gid(),
    }
}

/// The system that the program runs on.
impl System for LibcRuntime {
    type File = File;

    fn now(&self) -> io::Result<i64> {
        Ok(self.since_1970()?.as_secs().cast_signed())
    }

    fn seen(&self, path: &str) -> io::Result<Seen> {
        Ok(seen_of(&self.metadata(path)?))
    }

    fn seen_here(&self, path: &str) -> io::Result<Seen> {
        Ok(seen_of(&self.symlink_metadata(path)?))
    }

    fn seen_open(&self, file: &File) -> io::Result<Seen> {
        Ok(seen_of(&OpenFile::metadata(file)?))
    }

    fn link_text(&self, alloc: Global, path: &str) -> io::Result<String> {
        Ok(self.read_link(alloc, path)?.into_string())
    }

    fn open(&self, path: &str) -> io::Result<File> {
        OpenOptions::new().read(true).open(self, path)
    }

    fn make(&self, path: &str, mode: u32) -> io::Result<File> {
        let mut how = OpenOptions::new();
        how.read(true).write(true).create_new(true).mode(mode);
        how.open(self, path)
    }

    fn raised(&self, file: File) -> io::Result<File> {
        // (a copy is given a number above those of the standard streams)
        if file.as_raw_fd() > 2 {
            Ok(file)
        } else {
            file.try_clone()
        }
    }

    fn read_at(&self, file: &File, at: u64, buf: &mut [u8]) -> io::Result<usize> {
        FileExt::read_at(file, buf, at)
    }

    fn give(&self, file: &File, owner: u32, group: u32) -> io::Result<()> {
        fchown(file, Some(owner), Some(group))
    }

    fn set_mode(&self, file: &File, mode: u32) -> io::Result<()> {
        file.set_permissions(Permissions::from_mode(mode))
    }

    fn sync(&self, file: &File) -> io::Result<()> {
        file.sync_all()
    }

    fn rename(&self, from: &str, to: &str) -> io::Result<()> {
        Files::rename(self, from, to)
    }

    fn remove(&self, path: &str) -> io::Result<()> {
        self.remove_file(path)
    }
}
