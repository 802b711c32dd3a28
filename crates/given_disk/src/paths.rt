use crate::inode::Sort;
use crate::state::{State, refused};
use std::alloc::AllocError;
use std::io;
use std::io::ErrorKind;

/// How many links are followed for one path.
const LINKS: usize = 40;

/// Where a walk along a path is.
#[derive(Drop)]
enum Walk {
    /// At this name, spelled without links; nothing need have it.
    At(String),
    /// At a link: the path goes on as this one.
    On(String),
}

/// The first part of a path, and what stands behind its slash, if it has one.
fn first_part(path: &str) -> (&str, Option<&str>) {
    match path.split_once('/') {
        Some((part, rest)) => (part, Some(rest)),
        None => (path, None),
    }
}

/// The folder that a name stands in.
pub(crate) fn folder_of(name: &str) -> &str {
    match name.rsplit_once('/') {
        Some((folder, _)) => folder,
        None => "",
    }
}

/// Fails unless one may look into what is of this sort.
fn may_enter(sort: Option<Sort>) -> io::Result<()> {
    match sort {
        Some(Sort::Folder | Sort::Mount) => Ok(()),
        Some(Sort::Closed) => refused(ErrorKind::PermissionDenied),
        Some(_) => refused(ErrorKind::NotADirectory),
        None => refused(ErrorKind::NotFound),
    }
}

impl State {
    /// The name behind a path, spelled without links, slashes that say nothing, and dots. The root is the folder that the process
    /// runs in. A link at the path's end is followed where that is asked for.
    pub(crate) fn resolved(&self, path: &str, follows: bool) -> io::Result<String> {
        if path.is_empty() {
            return refused(ErrorKind::NotFound);
        }
        if path.as_bytes().contains(&0) {
            return refused(ErrorKind::InvalidInput);
        }
        let mut path = String::from_str(self.alloc, path)?;
        for _ in 0..=LINKS {
            match self.walk(path.as_str(), follows)? {
                Walk::At(name) => return Ok(name),
                Walk::On(other) => path = other,
            }
        }
        refused(ErrorKind::FilesystemLoop)
    }

    /// Goes along the path up to its end or to the first link.
    fn walk(&self, path: &str, follows: bool) -> io::Result<Walk> {
        let mut done = String::new(self.alloc);
        let mut rest = Some(path);
        for _ in 0..=path.len() {
            let Some(left) = rest else {
                break;
            };
            let (part, behind) = first_part(left);
            rest = behind;
            match self.step(done.as_str(), part, behind, follows)? {
                Walk::At(name) => done = name,
                Walk::On(path) => return Ok(Walk::On(path)),
            }
        }
        Ok(Walk::At(done))
    }

    /// Goes from a folder to one of its names.
    fn step(
        &self,
        folder: &str,
        part: &str,
        behind: Option<&str>,
        follows: bool,
    ) -> io::Result<Walk> {
        let name = self.joined(folder, part)?;
        let sort = self.sort_of(name.as_str());
        let goes_on = behind.is_some();
        if sort == Some(Sort::Link) && (follows || goes_on) {
            return self.onward(folder, name.as_str(), behind);
        }
        if goes_on {
            may_enter(sort)?;
        }
        Ok(Walk::At(name))
    }

    fn sort_of(&self, name: &str) -> Option<Sort> {
        Some(self.found(name)?.sort)
    }

    /// The name of a part in a folder.
    fn joined(&self, folder: &str, part: &str) -> Result<String, AllocError> {
        match part {
            "" | "." => String::from_str(self.alloc, folder),
            ".." => String::from_str(self.alloc, folder_of(folder)),
            _ if folder.is_empty() => String::from_str(self.alloc, part),
            _ => format!(in self.alloc; "{folder}/{part}"),
        }
    }

    /// The text of the link that has this name.
    pub(crate) fn link_at(&self, name: &str) -> io::Result<&str> {
        match self.found(name) {
            Some(inode) if inode.sort == Sort::Link => match str::from_utf8(&inode.bytes) {
                Ok(text) => Ok(text),
                Err(_) => refused(ErrorKind::InvalidFilename),
            },
            _ => refused(ErrorKind::InvalidInput),
        }
    }

    /// The path that goes on from a link in this folder.
    fn onward(&self, folder: &str, link: &str, behind: Option<&str>) -> io::Result<Walk> {
        let text = self.link_at(link)?;
        let front = if text.starts_with('/') { "" } else { folder };
        let path = match behind {
            Some(behind) => format!(in self.alloc; "{front}/{text}/{behind}")?,
            None => format!(in self.alloc; "{front}/{text}")?,
        };
        Ok(Walk::On(path))
    }

    /// The inode that a path leads to.
    pub(crate) fn led(&self, path: &str, follows: bool) -> io::Result<usize> {
        let name = self.resolved(path, follows)?;
        match self.inode_of(name.as_str()) {
            Some(inode) => Ok(inode),
            None => refused(ErrorKind::NotFound),
        }
    }
}
