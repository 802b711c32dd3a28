ghost use Rattle.std.specs.Prelude.{◌≡◌, ◌↔◌, ◌++◌, [], IfSome, IsFalse, IsTrue, None};
ghost use Rattle.std.specs.Io.KnownBytes.{Appends};
ghost use Rattle.real_objects.specs.Draft.{IsAdded};

use crate::access::dress;
use crate::calls;
use crate::system::{Mark, Seen, System};
use crate::target::{DRAFT, Target, folder_of};
use std::alloc::Global;
use std::io;
use std::io::{ErrorKind, Write};

/// How much of a draft is gathered before it is written, and copied at a time.
const GATHERED: usize = 65536;

/// The mode of a draft: its owner alone may read and write it.
const OWN: u32 = 0o600;

/// A file that is written and not yet given its name.
///
/// It is made under a name that all drafts of a folder have, so that one that was left by a killed command goes with the next.
/// Another command may do so at any time. So before it is given a user's name it is taken to a name that no other command
/// uses, made of its number in the file system, and what stands there is looked at.
#[derive(Drop)]
pub struct Draft<'a, R: System> {
    rt: &'a R,
    alloc: Global,
    file: R::File,
    // The name that all drafts of the folder have, and the one that this draft alone has.
    common_name: String,
    own_name: String,
    has_own_name: bool,
    device: u64,
    inode: u64,
    // How many bytes were written, beside those gathered.
    written: u64,
    gathered: Vec<u8>,
    // A write failed, so it is not known how much of it stands there.
    is_spoiled: bool,
}

/// Makes an empty file. What has its name is removed before: a draft that was left, or a link to another file, which is
/// not to be written, or a pipe, which would have to be waited for. Another command may do the same in between, so it is tried
/// twice. None on a failure.
fn make_file<R: System>(rt: &R, name: &str) -> Option<R::File> {
    let _ = calls::remove(rt, name);
    match calls::make(rt, name, OWN) {
        Ok(file) => return Some(file),
        Err(error) if error.kind() == ErrorKind::AlreadyExists => {}
        Err(_) => return None,
    }
    let _ = calls::remove(rt, name);
    calls::make(rt, name, OWN).ok()
}

/// The file that was made under this name, as an empty draft. None on a failure.
fn draft_of<'a, R: System>(
    rt: &'a R,
    alloc: Global,
    name: &str,
    file: R::File,
) -> Option<Draft<'a, R>>
    ensures { IfSome result (λ d. (d.gathered.items ≡ []) × (d.written ≡ 0)
        × IsFalse d.is_spoiled) }
{
    let file = rt.raised(file).ok()?;
    let mark = calls::seen_open(rt, &file).ok()?.mark;
    let common_name = String::from_str(alloc, name).ok()?;
    let own_name = format!(in alloc; "{name}.{}", mark.inode).ok()?;
    Some(Draft {
        rt,
        alloc,
        file,
        common_name,
        own_name,
        has_own_name: false,
        device: mark.device,
        inode: mark.inode,
        written: 0,
        gathered: Vec::new(alloc),
        is_spoiled: false,
    })
}

impl<'a, R: System> Draft<'a, R> {
    /// Makes an empty draft in a folder, whose path ends in a slash or is empty. None on a failure.
    pub fn make(rt: &'a R, alloc: Global, folder: &str) -> Option<Draft<'a, R>>
        ensures { IfSome result (λ d. (d.gathered.items ≡ []) × (d.written ≡ 0)
            × IsFalse d.is_spoiled) }
    {
        let name = format!(in alloc; "{folder}{DRAFT}").ok()?;
        let file = make_file(rt, name.as_str())?;
        let draft = draft_of(rt, alloc, name.as_str(), file);
        if draft.is_none() {
            let _ = calls::remove(rt, name.as_str());
        }
        draft
    }

    /// The name that the draft has, unless another command took it.
    fn name(&self) -> &str {
        if self.has_own_name {
            self.own_name.as_str()
        } else {
            self.common_name.as_str()
        }
    }

    /// Whether this is the draft's file, be it as it may.
    fn is_file(&self, seen: &Seen) -> bool
        ensures { IsTrue result ↔ ((seen.now.mark.device ≡ self.now.device)
            × (seen.now.mark.inode ≡ self.now.inode)) }
    {
        seen.mark.device == self.device && seen.mark.inode == self.inode
    }

    /// Removes the draft's name, if it still has one. Nothing is done about a failure.
    pub fn remove(self) {
        match calls::seen_here(self.rt, self.name()) {
            Ok(seen) if self.is_file(&seen) => {
                let _ = calls::remove(self.rt, self.name());
            }
            _ => {}
        }
    }

    /// Writes a piece behind what was written. None on a failure.
    fn write(&mut self, piece: &[u8]) -> Option<()>
        ensures spoiled { result ≡ None → IsTrue self.new.is_spoiled }
        ensures taken { IfSome result (λ done.
            Appends (R.File.contents self.old.file) (R.File.contents self.new.file) piece.now) }
        ensures gathered { self.new.gathered ≡ self.old.gathered }
    {
        if self.file.write_all(piece).is_err() {
            self.is_spoiled = true;
            return None;
        }
        self.written = self.written.saturating_add(piece.len() as u64);
        Some(())
    }

    /// Writes what was gathered. None on a failure.
    fn flush(&mut self) -> Option<()>
        ensures gathered { IfSome result (λ done. self.new.gathered.items ≡ []) }
        ensures spoiled { result ≡ None → IsTrue self.new.is_spoiled }
        ensures taken { IfSome result (λ done. Appends (R.File.contents self.old.file)
            (R.File.contents self.new.file) self.old.gathered.items) }
    {
        if self.file.write_all(&self.gathered).is_err() {
            self.is_spoiled = true;
            return None;
        }
        self.written = self.written.saturating_add(self.gathered.len() as u64);
        self.gathered.clear();
        Some(())
    }

    /// Keeps a piece behind what was gathered. None for want of memory.
    fn gather(&mut self, piece: &[u8]) -> Option<()>
        ensures gathered { IfSome result (λ done.
            self.new.gathered.items ≡ self.old.gathered.items ++ piece.now) }
        ensures file { self.new.file ≡ self.old.file }
    {
        match self.gathered.extend_from_slice(piece) {
            Ok(()) => Some(()),
            Err(_) => None,
        }
    }

    /// Adds a piece: gathers it, or writes it where it is long. None on a failure.
    #[tactic(auto, using(crate::proofs::DraftLemmas::gathered, crate::proofs::DraftLemmas::passed, crate::proofs::DraftLemmas::written))]
    pub fn append(&mut self, piece: &[u8]) -> Option<()>
        ensures sound { IsTrue self.old.is_spoiled → result ≡ None }
        ensures taken { IfSome result (λ done. IsAdded
            (R.File.contents self.old.file) self.old.gathered.items
            (R.File.contents self.new.file) self.new.gathered.items piece.now) }
    {
        if self.is_spoiled {
            return None;
        }
        if self.gathered.len().saturating_add(piece.len()) <= GATHERED {
            return self.gather(piece);
        }
        self.flush()?;
        if piece.len() < GATHERED {
            self.gather(piece)
        } else {
            self.write(piece)
        }
    }

    /// Makes the draft the file at the target: writes what was gathered, gives the file the target's access, has it brought to
    /// the disk, takes it to its own name, looks at it, renames it, and has the folder brought to the disk. Where the
    /// target is on another file system, the same is done with a copy beside it. None on a failure: what stands at the target is as
    /// before.
    pub fn put(&mut self, target: &Target) -> Option<()>
        ensures sound { IsTrue self.old.is_spoiled → result ≡ None }
    {
        let mark = self.finish(target)?;
        match self.rename(mark, target) {
            Ok(()) => {}
            Err(error) if error.kind() == ErrorKind::CrossesDevices => self.carry(target)?,
            Err(_) => return None,
        }
        target.sync_folder(self.rt, self.alloc);
        Some(())
    }

    /// Does all that has to be done before the rename, and gives what stands under the draft's own name then. None on a failure.
    fn finish(&mut self, target: &Target) -> Option<Mark>
        ensures sound { IsTrue self.old.is_spoiled → result ≡ None }
        ensures own { IfSome result (λ mark. (mark.device ≡ self.new.device)
            × (mark.inode ≡ self.new.inode) × (mark.length ≡ self.new.written)) }
        ensures written { IfSome result (λ mark. self.new.gathered.items ≡ []) }
        ensures taken { IfSome result (λ mark. Appends (R.File.contents self.old.file)
            (R.File.contents self.new.file) self.old.gathered.items) }
    {
        if self.is_spoiled || self.flush().is_none() {
            return None;
        }
        dress(
            self.rt,
            self.alloc,
            &self.file,
            self.own_name.as_str(),
            target.replaced,
        )?;
        self.sync()?;
        self.claim()
    }

    /// Has the bytes brought to the disk. None on a failure, after which nobody knows which of them are there. A file system that
    /// knows no such call does what it can.
    fn sync(&mut self) -> Option<()>
        ensures gathered { self.new.gathered ≡ self.old.gathered }
        ensures file { self.new.file ≡ self.old.file }
    {
        match calls::sync(self.rt, &self.file) {
            Ok(()) => Some(()),
            Err(error)
                if matches!(
                    error.kind(),
                    ErrorKind::InvalidInput | ErrorKind::Unsupported
                ) => { Some(()) }
            Err(_) => {
                self.is_spoiled = true;
                None
            }
        }
    }

    /// What stands under the draft's own name, if it is seen to be all that this draft wrote.
    fn seen_whole(&self) -> Option<Mark>
        ensures { IfSome result (λ mark. (mark.device ≡ self.now.device)
            × (mark.inode ≡ self.now.inode) × (mark.length ≡ self.now.written)) }
    {
        let seen = calls::seen_here(self.rt, self.own_name.as_str()).ok()?;
        if self.is_file(&seen) && seen.mark.length == self.written {
            Some(seen.mark)
        } else {
            None
        }
    }

    /// Takes the draft from the common name to its own, unless it is there, and looks at what stands there. It is given back if it
    /// is not seen to be all that this draft wrote: then it may be another command's. None on a failure.
    fn claim(&mut self) -> Option<Mark>
        ensures own { IfSome result (λ mark. (mark.device ≡ self.new.device)
            × (mark.inode ≡ self.new.inode) × (mark.length ≡ self.new.written)) }
        ensures gathered { self.new.gathered ≡ self.old.gathered }
        ensures file { self.new.file ≡ self.old.file }
    {
        if !self.has_own_name {
            let (common, own) = (self.common_name.as_str(), self.own_name.as_str());
            calls::rename(self.rt, common, own).ok()?;
            self.has_own_name = true;
        }
        if let Some(mark) = self.seen_whole() {
            return Some(mark);
        }
        let (common, own) = (self.common_name.as_str(), self.own_name.as_str());
        let _ = calls::rename(self.rt, own, common);
        self.has_own_name = false;
        None
    }

    /// Renames the draft to the target. It was seen under its own name, whole.
    fn rename(&self, seen: Mark, target: &Target) -> io::Result<()>
        requires own { (seen.device ≡ self.now.device) × (seen.inode ≡ self.now.inode)
            × (seen.length ≡ self.now.written) }
        requires written { self.now.gathered.items ≡ [] }
    {
        calls::rename(self.rt, self.own_name.as_str(), target.path.as_str())
    }

    /// Copies the draft to one beside the target, and makes that the file there. None on a failure, and nothing is left of the copy.
    /// The draft's name goes first, so that nothing of that name is left by a command that is killed meanwhile.
    fn carry(&self, target: &Target) -> Option<()> {
        let _ = calls::remove(self.rt, self.own_name.as_str());
        let folder = folder_of(self.alloc, target.path.as_str())?;
        let mut copy = Draft::make(self.rt, self.alloc, folder.as_str())?;
        if copy.put_copy(self, target).is_none() {
            copy.remove();
            return None;
        }
        Some(())
    }

    /// Copies another draft into this one, which is empty, and makes it the file at the target. None on a failure.
    fn put_copy(&mut self, from: &Draft<'a, R>, target: &Target) -> Option<()> {
        self.append_all(from)?;
        let seen = self.finish(target)?;
        self.rename(seen, target).ok()
    }

    /// Adds all that was written of another draft. None on a failure.
    fn append_all(&mut self, from: &Draft<'a, R>) -> Option<()> {
        let mut room = Vec::new(self.alloc);
        room.resize(GATHERED, 0u8).ok()?;
        let mut at = 0u64;
        let mut left = from.written;
        while left > 0 {
            let count = calls::read_at(self.rt, &from.file, at, &mut room).ok()?;
            if count == 0 {
                return None;
            }
            self.append(&room[..count])?;
            at = at.saturating_add(count as u64);
            left = left.saturating_sub(count as u64);
        }
        Some(())
    }
}
