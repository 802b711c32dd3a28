//! Runs, and what they come to.
use crate::calls::{Fails, Object};
use crate::runs::Runs;
use std::alloc::Global;
use xa_outside::{Folder, FolderCall, MemFolder, MemSink, MemSource, Sink, Source};

/// What is run, and over what. The files are those of these names.
#[derive(Clone, Copy)]
pub(crate) struct Trial<'a> {
    pub(crate) alloc: Global,
    pub(crate) words: &'a [String],
    pub(crate) input: &'a [u8],
    pub(crate) folder: &'a MemFolder,
    pub(crate) names: &'a [String],
}

/// The objects of a run behind it, and its status.
#[derive(Drop)]
pub(crate) struct Tried {
    pub(crate) folder: MemFolder,
    pub(crate) input: MemSource,
    pub(crate) out: MemSink,
    pub(crate) err: MemSink,
    pub(crate) status: u8,
    /// Whether there was memory for the objects.
    pub(crate) has_memory: bool,
}

/// Puts a copy of the bytes there, and answers whether there was memory for it.
fn is_put(alloc: Global, folder: &mut MemFolder, name: &str, bytes: &[u8]) -> bool {
    match Vec::from_slice(alloc, bytes) {
        Ok(bytes) => folder.put(name, bytes).is_ok(),
        Err(_) => false,
    }
}

impl Tried {
    pub(crate) fn new(alloc: Global, input: &[u8], fails: Fails) -> Tried {
        let input = Vec::from_slice(alloc, input);
        let has_memory = input.is_ok();
        let input = input.unwrap_or(Vec::new(alloc));
        Tried {
            folder: MemFolder::new(alloc, fails.folder),
            input: MemSource::new(input, fails.input),
            out: MemSink::new(alloc, fails.output),
            err: MemSink::new(alloc, fails.errors),
            status: 0,
            has_memory,
        }
    }

    /// Puts copies of the files there that have these names.
    fn put_files(&mut self, alloc: Global, folder: &MemFolder, names: &[String]) {
        for name in names {
            if let Some(bytes) = folder.file(name.as_str()) {
                let is_put = is_put(alloc, &mut self.folder, name.as_str(), bytes);
                self.has_memory = self.has_memory && is_put;
            }
        }
    }

    fn run<R: Runs>(&mut self, runs: &mut R, alloc: Global, words: &[String]) {
        let (input, out, err) = (&mut self.input, &mut self.out, &mut self.err);
        self.status = runs.run(alloc, words, &mut self.folder, input, out, err);
    }

    /// What the run comes to with this input where these calls fail.
    pub(crate) fn of<R: Runs>(runs: &mut R, trial: &Trial, input: &[u8], fails: Fails) -> Tried {
        let alloc = trial.alloc;
        let mut tried = Tried::new(alloc, input, fails);
        tried.put_files(alloc, trial.folder, trial.names);
        tried.run(runs, alloc, trial.words);
        tried
    }

    pub(crate) fn written(&self) -> &[u8] {
        self.out.taken()
    }

    pub(crate) fn said(&self) -> &[u8] {
        self.err.taken()
    }

    /// Makes one more call of the object, and says whether it fails.
    fn fails_now(&mut self, object: Object) -> bool {
        let mut byte = [0u8; 1];
        match object {
            Object::Folder(FolderCall::Length) => self.folder.length("").is_err(),
            Object::Folder(FolderCall::ReadAt) => self.folder.read_at("", 0, &mut byte).is_err(),
            Object::Folder(FolderCall::Begin) => self.folder.begin().is_err(),
            Object::Folder(FolderCall::Append) => self.folder.append(&[]).is_err(),
            Object::Folder(FolderCall::Commit) => self.folder.commit("").is_err(),
            Object::Input => self.input.read(&mut byte).is_err(),
            Object::Output => self.out.write(&[]).is_err(),
            Object::Errors => self.err.write(&[]).is_err(),
        }
    }

    /// Whether the call of this number was not made: then it is among so many further ones.
    pub(crate) fn has_to_come(&mut self, object: Object, number: u64) -> bool {
        for _ in 0..number {
            if self.fails_now(object) {
                return true;
            }
        }
        false
    }
}

fn is_same(one: &MemFolder, other: &MemFolder, name: &str) -> bool {
    match (one.file(name), other.file(name)) {
        (Some(one), Some(other)) => one == other,
        (None, None) => true,
        _ => false,
    }
}

/// How many files of these names are not the same in both folders.
pub(crate) fn count_changed(one: &MemFolder, other: &MemFolder, names: &[String]) -> u64 {
    let mut count = 0u64;
    for name in names {
        if !is_same(one, other, name.as_str()) {
            count = count.saturating_add(1);
        }
    }
    count
}
