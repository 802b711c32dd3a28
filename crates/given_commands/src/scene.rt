//! A folder, and what was run over it last.
use crate::calls::Fails;
use crate::failing::{Verdict, is_batch, try_each_call};
use crate::runs::Runs;
use crate::shown::{beyond, difference};
use crate::tried::{Trial, Tried, count_changed};
use std::alloc::Global;
use std::mem;

#[derive(Drop)]
pub(crate) struct Scene {
    pub(crate) alloc: Global,
    /// The names of files that were spoken of.
    names: Vec<String>,
    /// What the next run is over.
    pub(crate) input: Vec<u8>,
    pub(crate) fails: Fails,
    /// Whether the next run is tried with each call failing in turn.
    pub(crate) each_call_fails: bool,
    /// How often something was run, the last run, whose folder holds the files, and the one before it.
    pub(crate) runs: u64,
    pub(crate) last: Tried,
    pub(crate) before: Tried,
    pub(crate) is_status_judged: bool,
    pub(crate) is_output_judged: bool,
    /// What is not as it was wanted.
    pub(crate) difference: Option<String>,
    /// Whether there was memory for all that was done.
    pub(crate) has_memory: bool,
}

fn has_name(names: &[String], name: &str) -> bool {
    for known in names {
        if known.as_str() == name {
            return true;
        }
    }
    false
}

impl Scene {
    pub(crate) fn new(alloc: Global) -> Scene {
        Scene {
            alloc,
            names: Vec::new(alloc),
            input: Vec::new(alloc),
            fails: Fails::none(alloc),
            each_call_fails: false,
            runs: 0,
            last: Tried::new(alloc, &[], Fails::none(alloc)),
            before: Tried::new(alloc, &[], Fails::none(alloc)),
            is_status_judged: true,
            is_output_judged: true,
            difference: None,
            has_memory: true,
        }
    }

    /// Notes what is not as it was wanted, if something is not.
    pub(crate) fn tell(&mut self, difference: Option<String>) {
        if self.difference.is_none() {
            self.difference = difference;
        }
    }

    /// Notes whether there was memory.
    fn heed(&mut self, has_memory: bool) {
        self.has_memory = self.has_memory && has_memory;
    }

    fn add_name(&mut self, name: &str) {
        let is_added = match String::from_str(self.alloc, name) {
            Ok(name) => self.names.push(name).is_ok(),
            Err(_) => false,
        };
        self.heed(is_added);
    }

    /// From now on it is seen what becomes of this file.
    pub(crate) fn know(&mut self, name: &str) {
        if !has_name(&self.names, name) {
            self.add_name(name);
        }
    }

    pub(crate) fn put(&mut self, name: &str, bytes: Vec<u8>) {
        self.know(name);
        let is_put = self.last.folder.put(name, bytes).is_ok();
        self.heed(is_put);
    }

    /// The bytes of the file of this name, which should be there.
    pub(crate) fn file(&mut self, name: &str) -> &[u8] {
        self.know(name);
        if self.last.folder.file(name).is_none() {
            let told = difference(self.alloc, name, b"a file", b"none");
            self.tell(told);
        }
        self.last.folder.file(name).unwrap_or(&[])
    }

    /// Judges that the file of this name has these bytes.
    pub(crate) fn judge_file(&mut self, name: &str, wanted: &[u8]) {
        let alloc = self.alloc;
        let told = difference(alloc, name, wanted, self.file(name));
        self.tell(told);
    }

    /// Judges that a number is between these two.
    pub(crate) fn judge_number(&mut self, what: &str, least: u64, most: u64, came: u64) {
        let told = beyond(self.alloc, what, least, most, came);
        self.tell(told);
    }

    /// Judges the status, and the lines that were said.
    pub(crate) fn judge_status(&mut self, wanted: u64, lines: &[u8]) {
        self.is_status_judged = true;
        let status = u64::from(self.last.status);
        self.judge_number("the status", wanted, wanted, status);
        let told = difference(self.alloc, "the lines of errors", lines, self.last.said());
        self.tell(told);
    }

    /// Judges that the output is this.
    pub(crate) fn judge_output(&mut self, wanted: &[u8]) {
        self.is_output_judged = true;
        let told = difference(self.alloc, "the output", wanted, self.last.written());
        self.tell(told);
    }

    /// Judges what has to be judged and was not: the run went well, and wrote nothing.
    pub(crate) fn end_run(&mut self) {
        if !self.is_status_judged {
            self.judge_status(0, &[]);
        }
        if !self.is_output_judged {
            self.judge_output(&[]);
        }
    }

    /// A refused command leaves each file as it was, and one that is not refused all but one.
    fn judge_files(&mut self, words: &[String], tried: &Tried) {
        if !is_batch(words) {
            let most = if tried.status == 0 { 1 } else { 0 };
            let changed = count_changed(&tried.folder, &self.last.folder, &self.names);
            self.judge_number("changed files", 0, most, changed);
        }
    }

    /// What is run next, but for the calls that fail.
    fn trial<'b>(&'b self, words: &'b [String]) -> Trial<'b> {
        Trial {
            alloc: self.alloc,
            words,
            input: &self.input,
            folder: &self.last.folder,
            names: &self.names,
        }
    }

    fn judge_calls<R: Runs>(&mut self, runs: &mut R, words: &[String], tried: &Tried) {
        let trial = self.trial(words);
        let verdict = try_each_call(runs, &trial, tried);
        if let Verdict::Differs(message) = verdict {
            self.tell(Some(message));
        }
    }

    fn take_run(&mut self, tried: Tried) {
        self.before = mem::replace(&mut self.last, tried);
        self.runs = self.runs.saturating_add(1);
        self.input = Vec::new(self.alloc);
        self.each_call_fails = false;
        self.is_status_judged = false;
        self.is_output_judged = false;
    }

    fn know_all(&mut self, names: &[String]) {
        for name in names {
            self.know(name.as_str());
        }
    }

    /// Runs the words over the files.
    pub(crate) fn run<R: Runs>(&mut self, runs: &mut R, words: &[String]) {
        self.know_all(words);
        let fails = mem::replace(&mut self.fails, Fails::none(self.alloc));
        let trial = self.trial(words);
        let tried = Tried::of(runs, &trial, trial.input, fails);
        self.heed(tried.has_memory);
        self.judge_files(words, &tried);
        if self.each_call_fails {
            self.judge_calls(runs, words, &tried);
        }
        self.take_run(tried);
    }
}
