use crate::inode::Sort;
use crate::judged::is_draft;
use crate::state::State;

impl State {
    /// Whether the same stands under the name on both.
    fn agrees(&self, other: &State, name: &str) -> bool {
        match (self.found(name), other.found(name)) {
            (Some(inode), Some(found)) => inode.is_like(found),
            (None, None) => true,
            _ => false,
        }
    }

    /// Whether under each name of these, drafts apart, stands what stands there on one of the two.
    fn has_each(&self, names: &State, before: &State, after: &State) -> bool {
        for name in &names.names {
            let name = name.name.as_str();
            if !is_draft(name) && !self.agrees(before, name) && !self.agrees(after, name) {
                return false;
            }
        }
        true
    }

    /// Whether the other disk has the same names with the same bytes, drafts apart.
    pub fn is_like(&self, other: &State) -> bool {
        self.has_each(self, other, other) && self.has_each(other, other, other)
    }

    /// Whether each name, drafts apart, is as on one of the two disks.
    pub fn is_between(&self, before: &State, after: &State) -> bool {
        self.has_each(self, before, after)
            && self.has_each(before, before, after)
            && self.has_each(after, before, after)
    }

    /// Whether the names of the other disk are those of files with the same modes and owners.
    pub fn is_dressed_like(&self, other: &State) -> bool {
        for name in &other.names {
            let name = name.name.as_str();
            match (self.found(name), other.found(name)) {
                (Some(inode), Some(found)) if inode.access == found.access => {}
                _ => return false,
            }
        }
        true
    }

    /// Whether the name that is spelled so is that of a file of these bytes.
    pub fn holds(&self, name: &str, bytes: &[u8]) -> bool {
        match self.found(name) {
            Some(inode) => inode.sort == Sort::File && inode.bytes.as_slice() == bytes,
            None => false,
        }
    }

    /// What the standard output was given.
    pub fn printed(&self) -> &[u8] {
        match self.inodes.get(2) {
            Some(output) => &output.bytes,
            None => b"",
        }
    }

    /// Whether a draft stands on the disk, in whichever folder.
    pub fn has_draft(&self) -> bool {
        for name in &self.names {
            if is_draft(name.name.as_str()) {
                return true;
            }
        }
        false
    }
}
