use crate::inode::Sort;
use crate::state::State;
use crate::trouble::{Call, CallKind};

/// How a draft's name begins.
const DRAFT: &str = ".xarch-draft";

/// Whether a name is a draft's, in whichever folder.
pub(crate) fn is_draft(name: &str) -> bool {
    match name.rsplit_once('/') {
        Some((_, last)) => last.starts_with(DRAFT),
        None => name.starts_with(DRAFT),
    }
}

impl State {
    /// Whether the calls were made in an order that loses nothing and shows nothing: files were written while their owner alone may
    /// read them, and what got a user's name was on the disk by then.
    pub fn are_calls_in_order(&self) -> bool {
        for index in 0..self.log.len() {
            let call = self.log[index];
            if call.kind == CallKind::Write && call.mode & 0o077 != 0 {
                return false;
            }
            if call.names && !self.is_synced(index, call.inode) {
                return false;
            }
        }
        true
    }

    /// Whether the inode was given to the disk after it was written last, before the call of this number.
    fn is_synced(&self, number: usize, inode: usize) -> bool {
        let mut is_synced = false;
        for call in self.log.iter().take(number) {
            if call.inode == inode && call.kind == CallKind::Write {
                is_synced = false;
            }
            if call.inode == inode && call.kind == CallKind::Sync {
                is_synced = true;
            }
        }
        is_synced
    }

    /// Whether a call may fail and all goes on: a draft of before is removed, a file is given away, or a folder is synced.
    fn may_fail(&self, call: Call) -> bool {
        match call.kind {
            CallKind::Remove | CallKind::Give | CallKind::Open => true,
            CallKind::Sync => match self.inodes.get(call.inode) {
                Some(inode) => inode.sort != Sort::File,
                None => true,
            },
            _ => false,
        }
    }

    /// Whether all may go on though the call of this number failed. Once a file has its name nothing that fails is a fault.
    pub fn may_go_on(&self, at: usize) -> bool {
        let mut is_done = false;
        for index in 0..self.log.len() {
            let call = self.log[index];
            if index >= at {
                return is_done || self.may_fail(call);
            }
            is_done = is_done || call.names;
        }
        true
    }
}
