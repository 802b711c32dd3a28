use crate::calls;
use crate::system::{Seen, System};
use std::alloc::Global;

/// What a new file would have, were it not for the umask.
const ALL: u32 = 0o666;

/// Gives a draft the access that its file is to have: the owner, the group and the mode of the file that it replaces, or, where it
/// replaces none, the mode that a new file has in the draft's folder. The draft's own name serves to find that out. None on a
/// failure. That an owner or a group may not be given is none.
pub fn dress<R: System>(
    rt: &R,
    alloc: Global,
    file: &R::File,
    own_name: &str,
    replaced: Option<Seen>,
) -> Option<()> {
    let now = calls::seen_open(rt, file).ok()?;
    let mode = match replaced {
        Some(old) => give_as(rt, file, now, old),
        None => new_mode(rt, alloc, own_name)?,
    };
    if mode == now.mode {
        return Some(());
    }
    calls::set_mode(rt, file, mode).ok()
}

/// Gives the file the group and the owner of the old one, as far as that is allowed, and answers the mode that it may have
/// then.
fn give_as<R: System>(rt: &R, file: &R::File, now: Seen, old: Seen) -> u32 {
    let has_group = now.group == old.group || calls::give(rt, file, now.owner, old.group).is_ok();
    let group = if has_group { old.group } else { now.group };
    if now.owner != old.owner {
        let _ = calls::give(rt, file, old.owner, group);
    }
    if has_group {
        old.mode
    } else {
        without_group(old.mode)
    }
}

/// The mode where the group is another: the group and all others may do what both of them might. So nobody gains a right, be he in
/// the old group, in the new one, in both or in none.
fn without_group(mode: u32) -> u32 {
    let both = mode >> 3 & mode & 0o007;
    mode & 0o700 | both << 3 | both
}

/// The mode of a new file, as the umask or the folder has it: an empty one is made, looked at and removed. None on a failure.
fn new_mode<R: System>(rt: &R, alloc: Global, own_name: &str) -> Option<u32> {
    let name = format!(in alloc; "{own_name}.new").ok()?;
    let _ = calls::remove(rt, name.as_str());
    let file = calls::make(rt, name.as_str(), ALL).ok()?;
    let seen = calls::seen_open(rt, &file);
    let _ = calls::remove(rt, name.as_str());
    Some(seen.ok()?.mode)
}
