//! The calls of the system, each of which is made again where it was interrupted.
ghost use Rattle.std.specs.Io.{ReadsAtMost};

use crate::again::{TRIES, is_interrupted};
use crate::system::{Seen, System};
use std::alloc::Global;
use std::io;
use std::io::ErrorKind;

macro_rules! again {
    ($call:expr) => {{
        for _ in 0..TRIES {
            match $call {
                Err(error) if is_interrupted(&error) => {}
                answer => return answer,
            }
        }
        Err(ErrorKind::Interrupted.into())
    }};
}

pub fn seen<R: System>(rt: &R, path: &str) -> io::Result<Seen> {
    again!(rt.seen(path))
}

pub fn seen_here<R: System>(rt: &R, path: &str) -> io::Result<Seen> {
    again!(rt.seen_here(path))
}

pub fn seen_open<R: System>(rt: &R, file: &R::File) -> io::Result<Seen> {
    again!(rt.seen_open(file))
}

pub fn link_text<R: System>(rt: &R, alloc: Global, path: &str) -> io::Result<String> {
    again!(rt.link_text(alloc, path))
}

pub fn open<R: System>(rt: &R, path: &str) -> io::Result<R::File> {
    again!(rt.open(path))
}

pub fn make<R: System>(rt: &R, path: &str, mode: u32) -> io::Result<R::File> {
    again!(rt.make(path, mode))
}

pub fn read_at<R: System>(rt: &R, file: &R::File, at: u64, buf: &mut [u8]) -> io::Result<usize>
    ensures bound { ReadsAtMost result buf.new }
{
    again!(rt.read_at(file, at, buf))
}

pub fn give<R: System>(rt: &R, file: &R::File, owner: u32, group: u32) -> io::Result<()> {
    again!(rt.give(file, owner, group))
}

pub fn set_mode<R: System>(rt: &R, file: &R::File, mode: u32) -> io::Result<()> {
    again!(rt.set_mode(file, mode))
}

pub fn sync<R: System>(rt: &R, file: &R::File) -> io::Result<()> {
    again!(rt.sync(file))
}

pub fn rename<R: System>(rt: &R, from: &str, to: &str) -> io::Result<()> {
    again!(rt.rename(from, to))
}

pub fn remove<R: System>(rt: &R, path: &str) -> io::Result<()> {
    again!(rt.remove(path))
}

/// Whether a path led nowhere: there is nothing, or it goes through a file.
pub fn is_absent(error: &io::Error) -> bool {
    matches!(error.kind(), ErrorKind::NotFound | ErrorKind::NotADirectory)
}
