use crate::calls::{self, is_absent};
use crate::system::{Kind, Seen, System};
use std::alloc::Global;

/// How many links are followed, as the system has it.
const LINKS: u32 = 40;

/// How the names of drafts begin. No file of a user has such a name, in any folder.
pub const DRAFT: &str = ".xarch-draft";

/// Whether a name is one of a draft: what stands behind its last slash, if it has one. So a draft is told by each spelling of its
/// path.
pub fn is_draft(name: &str) -> bool {
    match name.rsplit_once('/') {
        Some((_, last)) => last.starts_with(DRAFT),
        None => name.starts_with(DRAFT),
    }
}

/// The folder of a path, with its slash: nothing where that is the folder that the program runs in. None for want of memory.
pub fn folder_of(alloc: Global, path: &str) -> Option<String> {
    match path.rsplit_once('/') {
        Some((folder, _)) => format!(in alloc; "{folder}/").ok(),
        None => Some(String::new(alloc)),
    }
}

/// What a draft is to become: a path that is no link, and the file that stands there now.
#[derive(Drop)]
pub struct Target {
    pub path: String,
    pub replaced: Option<Seen>,
}

impl Target {
    /// Has the target's folder brought to the disk, so that the new name is there. Nothing is done about a failure: some file
    /// systems have no such call.
    pub fn sync_folder<R: System>(&self, rt: &R, alloc: Global) {
        let Some(folder) = folder_of(alloc, self.path.as_str()) else {
            return;
        };
        let path = if folder.is_empty() {
            "."
        } else {
            folder.as_str()
        };
        if let Ok(open) = calls::open(rt, path) {
            let _ = calls::sync(rt, &open);
        }
    }
}

/// What stands at a path, be it a link. Some of None where there is nothing, None on a failure.
fn seen_here<R: System>(rt: &R, path: &str) -> Option<Option<Seen>> {
    match calls::seen_here(rt, path) {
        Ok(seen) => Some(Some(seen)),
        Err(error) if is_absent(&error) => Some(None),
        Err(_) => None,
    }
}

/// The path that the link at this path names: what it says, from the folder of the link on. None on a failure.
fn behind<R: System>(rt: &R, alloc: Global, path: &str) -> Option<String> {
    let text = calls::link_text(rt, alloc, path).ok()?;
    if text.as_str().starts_with('/') {
        return Some(text);
    }
    let mut behind = folder_of(alloc, path)?;
    behind.push_str(text.as_str()).ok()?;
    Some(behind)
}

/// Follows links from this path to the file that is replaced, or to the name of a new one: a link may lead nowhere. None on a
/// failure, where there are too many links, and where anything else than a file stands there, or a draft has the name.
pub fn followed<R: System>(rt: &R, alloc: Global, name: &str) -> Option<Target> {
    let mut path = String::from_str(alloc, name).ok()?;
    for _ in 0..=LINKS {
        if is_draft(path.as_str()) {
            return None;
        }
        match seen_here(rt, path.as_str())? {
            Some(seen) if seen.kind == Kind::Link => path = behind(rt, alloc, path.as_str())?,
            Some(seen) if seen.kind == Kind::Other => return None,
            replaced => return Some(Target { path, replaced }),
        }
    }
    None
}
