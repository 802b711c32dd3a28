//! What stands on a disk, and what stands there once a file is put under a name.
use given_disk::{Access, Limits, MemDisk, NO_LIMITS, PLAIN, Row, Sort, State};
use given_outside::is_stored;
use real_objects::DiskFolder;
use std::alloc::{AllocError, Global};

/// A disk, the name under which `NEW` is put there, and where it then is.
pub struct Case {
    pub about: &'static str,
    pub limits: Limits,
    pub before: &'static [Row],
    pub name: &'static str,
    pub made: Made,
}

/// Where the new file is.
#[derive(Clone, Copy)]
pub enum Made {
    /// Under this name, spelled without links, with this access. All else is as before.
    At(&'static str, Access),
    /// Nowhere: it is refused.
    Nowhere,
}

pub const OLD: &[u8] = b"what stood there";

pub const NEW: &[u8] = b"what comes in its place, which is longer";

const FILE: Sort = Sort::File;

const FOLDER: Sort = Sort::Folder;

const LINK: Sort = Sort::Link;

const PRIVATE: Access = Access {
    mode: 0o600,
    owner: 1000,
    group: 1000,
};

const LOCKED: Access = Access {
    mode: 0o444,
    owner: 1000,
    group: 1000,
};

const SHARED: Access = Access {
    mode: 0o640,
    owner: 1000,
    group: 50,
};

/// Its group is shut out.
const SHUT_OUT: Access = Access {
    mode: 0o604,
    owner: 1000,
    group: 50,
};

/// What a file becomes whose group is not given: the group and all others may do what both might.
const UNSHARED: Access = Access {
    mode: 0o600,
    owner: 1000,
    group: 1000,
};

const OPEN: Access = Access {
    mode: 0o666,
    owner: 1000,
    group: 1000,
};

const NO_MASK: Limits = Limits {
    umask: 0,
    ..NO_LIMITS
};

const MAY_NOT_GIVE: Limits = Limits {
    may_give: false,
    ..NO_LIMITS
};

const READ_ONLY: Limits = Limits {
    is_read_only: true,
    ..NO_LIMITS
};

/// Cases in which something comes at each call in turn.
pub const TROUBLED: &[Case] = &[
    Case {
        about: "a new file",
        limits: NO_LIMITS,
        before: &[Row("B", FILE, OLD, PLAIN)],
        name: "A",
        made: Made::At("A", PLAIN),
    },
    Case {
        about: "a file that is replaced",
        limits: NO_LIMITS,
        before: &[Row("A", FILE, OLD, PLAIN)],
        name: "A",
        made: Made::At("A", PLAIN),
    },
    Case {
        about: "a file of another group",
        limits: NO_LIMITS,
        before: &[Row("A", FILE, OLD, SHARED)],
        name: "A",
        made: Made::At("A", SHARED),
    },
    Case {
        about: "a file of another group that may not be given",
        limits: MAY_NOT_GIVE,
        before: &[Row("A", FILE, OLD, SHARED)],
        name: "A",
        made: Made::At("A", UNSHARED),
    },
    Case {
        about: "a file whose group is shut out, and may not be given",
        limits: MAY_NOT_GIVE,
        before: &[Row("A", FILE, OLD, SHUT_OUT)],
        name: "A",
        made: Made::At("A", UNSHARED),
    },
    Case {
        about: "a chain of links",
        limits: NO_LIMITS,
        before: &[
            Row("t", FOLDER, b"", PLAIN),
            Row("A", LINK, b"./t/B", PLAIN),
            Row("t/B", LINK, b"../C", PLAIN),
            Row("C", LINK, b"t/D", PLAIN),
            Row("t/D", FILE, OLD, PLAIN),
        ],
        name: "A",
        made: Made::At("t/D", PLAIN),
    },
    Case {
        about: "a link that leads nowhere",
        limits: NO_LIMITS,
        before: &[Row("A", LINK, b"B", PLAIN)],
        name: "A",
        made: Made::At("B", PLAIN),
    },
    Case {
        about: "a new file on another file system",
        limits: NO_LIMITS,
        before: &[Row("t", Sort::Mount, b"", PLAIN)],
        name: "t/A",
        made: Made::At("t/A", PLAIN),
    },
    Case {
        about: "a link to a file on another file system",
        limits: NO_LIMITS,
        before: &[
            Row("t", Sort::Mount, b"", PLAIN),
            Row("t/B", FILE, OLD, SHARED),
            Row("A", LINK, b"t/B", PLAIN),
        ],
        name: "A",
        made: Made::At("t/B", SHARED),
    },
];

pub const OTHERS: &[Case] = &[
    Case {
        about: "a new file where all may write",
        limits: NO_MASK,
        before: &[],
        name: "A",
        made: Made::At("A", OPEN),
    },
    Case {
        about: "a file that only its owner reads",
        limits: NO_LIMITS,
        before: &[Row("A", FILE, OLD, PRIVATE)],
        name: "A",
        made: Made::At("A", PRIVATE),
    },
    Case {
        about: "a file that nobody writes",
        limits: NO_LIMITS,
        before: &[Row("A", FILE, OLD, LOCKED)],
        name: "A",
        made: Made::At("A", LOCKED),
    },
    Case {
        about: "a link",
        limits: NO_LIMITS,
        before: &[Row("A", LINK, b"B", PLAIN), Row("B", FILE, OLD, PRIVATE)],
        name: "A",
        made: Made::At("B", PRIVATE),
    },
    Case {
        about: "a loop of links",
        limits: NO_LIMITS,
        before: &[Row("A", LINK, b"B", PLAIN), Row("B", LINK, b"A", PLAIN)],
        name: "A",
        made: Made::Nowhere,
    },
    Case {
        about: "a link from the root",
        limits: NO_LIMITS,
        before: &[Row("A", LINK, b"/B", PLAIN), Row("B", FILE, OLD, PLAIN)],
        name: "./A",
        made: Made::At("B", PLAIN),
    },
    Case {
        about: "a folder behind a link",
        limits: NO_LIMITS,
        before: &[
            Row("t", FOLDER, b"", PLAIN),
            Row("l", LINK, b"t", PLAIN),
            Row("t/A", FILE, OLD, PLAIN),
        ],
        name: "l/A",
        made: Made::At("t/A", PLAIN),
    },
    Case {
        about: "a folder",
        limits: NO_LIMITS,
        before: &[Row("A", FOLDER, b"", PLAIN)],
        name: "A",
        made: Made::Nowhere,
    },
    Case {
        about: "a pipe",
        limits: NO_LIMITS,
        before: &[Row("A", Sort::Pipe, b"", PLAIN)],
        name: "A",
        made: Made::Nowhere,
    },
    Case {
        about: "a folder that is closed",
        limits: NO_LIMITS,
        before: &[Row("t", Sort::Closed, b"", PLAIN)],
        name: "t/A",
        made: Made::Nowhere,
    },
    Case {
        about: "a folder that is not there",
        limits: NO_LIMITS,
        before: &[],
        name: "t/A",
        made: Made::Nowhere,
    },
    Case {
        about: "a path through a file",
        limits: NO_LIMITS,
        before: &[Row("t", FILE, OLD, PLAIN)],
        name: "t/A",
        made: Made::Nowhere,
    },
    Case {
        about: "a NUL in a name",
        limits: NO_LIMITS,
        before: &[],
        name: "A\0",
        made: Made::Nowhere,
    },
    Case {
        about: "a draft's name",
        limits: NO_LIMITS,
        before: &[Row("t", FOLDER, b"", PLAIN)],
        name: "t/.xarch-draft",
        made: Made::Nowhere,
    },
    Case {
        about: "a link to a draft",
        limits: NO_LIMITS,
        before: &[Row("A", LINK, b".xarch-draft", PLAIN)],
        name: "A",
        made: Made::Nowhere,
    },
    Case {
        about: "a disk that is only read",
        limits: READ_ONLY,
        before: &[Row("A", FILE, OLD, PLAIN)],
        name: "A",
        made: Made::Nowhere,
    },
];

/// A case, and its disk before and after.
#[derive(Drop)]
pub struct Course {
    alloc: Global,
    name: &'static str,
    pub is_allowed: bool,
    pub before: State,
    pub after: State,
}

/// The disk where the new file is made.
fn after_of(alloc: Global, case: &Case) -> Result<State, AllocError> {
    let mut after = State::of(alloc, case.before)?;
    if let Made::At(name, access) = case.made {
        let made = after.put(name, FILE, NEW)?;
        if let Some(inode) = after.inodes.get_mut(made) {
            inode.access = access;
        }
    }
    Ok(after)
}

impl Course {
    pub fn of(alloc: Global, case: &Case) -> Result<Course, AllocError> {
        let mut before = State::of(alloc, case.before)?;
        before.limits = case.limits;
        let after = after_of(alloc, case)?;
        Ok(Course {
            alloc,
            name: case.name,
            is_allowed: matches!(case.made, Made::At(_, _)),
            before,
            after,
        })
    }

    /// Whether `NEW` is put there, by a process that then ends.
    pub fn is_put(&self, disk: &MemDisk) -> bool {
        let on = disk.on();
        let mut folder = DiskFolder::new(&on, self.alloc);
        let is_put = is_stored(&mut folder, self.name, &[NEW]);
        folder.discard();
        is_put
    }

    /// The disk as it is to be then: with the new file, where the folder says that it is put there.
    pub fn then(&self, is_put: bool) -> &State {
        if is_put { &self.after } else { &self.before }
    }
}
