//! What the folder puts under a name, over a disk in memory: where links lead, who may read it, what fails, who else writes.
use crate::cases::{Case, Course, NEW, OTHERS, TROUBLED};
use given_disk::{Event, MemDisk, Trouble, What};
use given_outside::told;
use std::alloc::Global;
use std::io;
use std::io::ErrorKind;
use std::test::Fail;

const THEIRS: &[u8] = b"what another command has drafted until now";

/// What comes at each call in turn. Another command begins its draft, here or in the folder `t`, or takes its draft away.
const TROUBLES: &[What] = &[
    What::Fails(ErrorKind::Other),
    What::Fails(ErrorKind::StorageFull),
    What::Fails(ErrorKind::PermissionDenied),
    What::IsInterrupted(1),
    What::IsInterrupted(2_000),
    What::Stops,
    What::Meets(Event::Replaces(".xarch-draft", THEIRS)),
    What::Meets(Event::Replaces("t/.xarch-draft", THEIRS)),
    What::Meets(Event::Removes(".xarch-draft")),
];

impl Course {
    /// Whether it goes as the case says where reads and writes move at most so many bytes.
    fn goes_in_pieces(&self, piece: usize) -> io::Result<bool> {
        let mut state = self.before.copied()?;
        state.limits.piece = piece;
        let disk = MemDisk::new(state);
        let is_put = self.is_put(&disk);
        let state = disk.state()?;
        Ok(
            is_put == self.is_allowed
                && state.is_like(self.then(is_put))
                && state.is_dressed_like(self.then(is_put))
                && !state.has_draft()
                && state.are_calls_in_order(),
        )
    }

    /// Whether it ends well where only so many bytes can be added.
    fn fits(&self, room: u64) -> io::Result<bool> {
        let mut state = self.before.copied()?;
        state.limits.room = room;
        let disk = MemDisk::new(state);
        let is_put = self.is_put(&disk);
        let state = disk.state()?;
        let has_room = room >= NEW.len() as u64;
        Ok(state.is_like(self.then(is_put)) && (has_room || !is_put) && !state.has_draft())
    }

    /// Whether it ends well where this comes, on a disk where it has not come yet.
    fn ends_well(&self, disk: &MemDisk, come: Trouble) -> io::Result<bool> {
        let is_put = self.is_put(disk);
        let state = disk.state()?;
        Ok(match come.what {
            What::Fails(_) => {
                state.is_like(self.then(is_put)) && (!is_put || state.may_go_on(come.at))
            }
            What::IsInterrupted(1) => {
                is_put && state.is_like(&self.after) && state.is_dressed_like(&self.after)
            }
            What::Stops => state.is_between(&self.before, &self.after),
            _ => state.is_like(self.then(is_put)),
        })
    }

    /// Whether another process puts the file there after the first one is dead.
    fn goes_on(&self, disk: &MemDisk) -> io::Result<bool> {
        disk.state()?.plan(None);
        let is_put = self.is_put(disk);
        let state = disk.state()?;
        Ok(is_put && state.is_like(&self.after))
    }

    /// Whether it ends well with this trouble, and goes well once it is over.
    fn is_overcome(&self, come: Trouble) -> io::Result<bool> {
        let mut state = self.before.copied()?;
        state.plan(Some(come));
        let disk = MemDisk::new(state);
        Ok(self.ends_well(&disk, come)? && self.goes_on(&disk)?)
    }

    /// How many calls it takes.
    fn calls(&self) -> io::Result<usize> {
        let disk = MemDisk::new(self.before.copied()?);
        let _ = self.is_put(&disk);
        let calls = disk.state()?.log.len();
        Ok(calls)
    }
}

/// Checks that a case goes as it says.
fn done(alloc: Global, case: &Case) -> Result<(), Fail> {
    let course = Course::of(alloc, case)?;
    for piece in [usize::MAX, 7, 1] {
        told(course.goes_in_pieces(piece)?, case.about)?;
    }
    Ok(())
}

#[test]
fn each_case_goes_as_it_says(rt: HostRuntime) -> Result<(), Fail> {
    for case in TROUBLED {
        done(rt.alloc(), case)?;
    }
    for case in OTHERS {
        done(rt.alloc(), case)?;
    }
    Ok(())
}

/// Checks that a case ends well with each trouble at each call.
fn overcome(alloc: Global, case: &Case) -> Result<(), Fail> {
    let course = Course::of(alloc, case)?;
    for at in 0..course.calls()? {
        for what in TROUBLES {
            let come = Trouble { at, what: *what };
            told(course.is_overcome(come)?, case.about)?;
        }
    }
    Ok(())
}

#[test]
fn whatever_comes_at_a_call_the_file_is_the_new_one_or_the_old(
    rt: HostRuntime,
) -> Result<(), Fail> {
    for case in TROUBLED {
        overcome(rt.alloc(), case)?;
    }
    Ok(())
}

/// Checks that a case ends well on a disk with little room. The new file has 40 bytes, and is written twice where it goes to another
/// file system.
fn fitted(alloc: Global, case: &Case) -> Result<(), Fail> {
    let course = Course::of(alloc, case)?;
    for room in [0, 1, 39, 40, 41, 79, 80] {
        told(course.fits(room)?, case.about)?;
    }
    Ok(())
}

#[test]
fn a_full_disk_keeps_its_files(rt: HostRuntime) -> Result<(), Fail> {
    for case in TROUBLED {
        fitted(rt.alloc(), case)?;
    }
    Ok(())
}
