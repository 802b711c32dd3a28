//! Lines that do something.
use crate::calls::object_of;
use crate::interpreter::Interpreter;
use crate::line::Line;
use crate::runs::Runs;
use crate::verb::Verb;

impl<'a> Interpreter<'a> {
    /// Has these bytes be the file of the name that was read last.
    fn put(&mut self, bytes: Vec<u8>) {
        self.scene.put(&self.scope.name, bytes);
    }

    fn put_pieces(&mut self) {
        self.scope.take_name();
        let bytes = self.scope.bytes();
        self.put(bytes);
    }

    /// A copy of the file whose name is the next word.
    pub(crate) fn copied(&mut self) -> Vec<u8> {
        self.scope.take_name();
        let file = self.scene.file(&self.scope.name);
        self.scope.spelled.begin();
        self.scope.spelled.add(file);
        self.scope.spelled.taken()
    }

    fn copy(&mut self) {
        let bytes = self.copied();
        self.scope.take_name();
        self.put(bytes);
    }

    /// Keeps so many bytes of the front of a file, or all but so many of its end.
    fn shorten(&mut self, is_kept: bool) {
        let mut bytes = self.copied();
        let count = self.scope.number() as usize;
        if count > bytes.len() {
            self.scope.fail("the file has fewer bytes");
        }
        let rest = bytes.len().saturating_sub(count);
        bytes.truncate(if is_kept { count } else { rest });
        self.put(bytes);
    }

    /// Turns all bits of the byte at this place.
    fn flip(&mut self) {
        let mut bytes = self.copied();
        match bytes.get_mut(self.scope.number() as usize) {
            Some(byte) => *byte ^= 0xff,
            None => self.scope.fail("the file has fewer bytes"),
        }
        self.put(bytes);
    }

    /// Has the new bytes in the place of the old ones, which stand there in the file.
    fn change(&mut self) {
        self.scope.take_name();
        let at = self.scope.number() as usize;
        let old = self.scope.word();
        let new = self.scope.word();
        let file = self.scene.file(&self.scope.name);
        self.scope.spelled.add_changed(file, at, &old, &new);
        let bytes = self.scope.spelled.taken();
        self.put(bytes);
    }

    fn watch(&mut self) {
        for _ in 0..self.scope.line.rest.len() {
            if !self.scope.line.rest.is_empty() {
                self.scope.take_name();
                self.scene.know(&self.scope.name);
            }
        }
    }

    /// Lists a call that fails in the next run.
    fn fail_call(&mut self) {
        self.scope.take_name();
        let number = self.scope.number();
        let is_listed = match object_of(&self.scope.name) {
            Some(object) => self.scene.fails.list(object, number),
            None => false,
        };
        if !is_listed {
            self.scope.fail("no such call can fail");
        }
    }

    pub(crate) fn run<R: Runs>(&mut self, runs: &mut R) {
        let words = self.scope.texts();
        self.scene.end_run();
        self.scene.run(runs, &words);
    }

    /// Makes the next word's bytes a file, and runs what the line says of it.
    fn store<R: Runs>(&mut self, runs: &mut R, name: &str, words: &'static [u8]) {
        let bytes = self.scope.word();
        self.scene.put(name, bytes);
        let line = self.scope.line;
        self.scope.line = Line { rest: words };
        self.run(runs);
        self.scope.line = line;
    }

    /// Makes the archive `A` by a specification of some documents, each of which is taken.
    pub(crate) fn archive<R: Runs>(&mut self, runs: &mut R) {
        self.store(runs, "spec", b"init A spec");
        for _ in 0..self.scope.line.rest.len() {
            if !self.scope.line.rest.is_empty() {
                self.store(runs, "doc", b"add A doc");
            }
        }
        self.scene.end_run();
    }

    /// Does what the line asks for, which runs nothing.
    pub(crate) fn take_step(&mut self, verb: Verb) {
        match verb {
            Verb::Put => self.put_pieces(),
            Verb::Copy => self.copy(),
            Verb::Cut => self.shorten(true),
            Verb::Drop => self.shorten(false),
            Verb::Change => self.change(),
            Verb::Flip => self.flip(),
            Verb::Watch => self.watch(),
            Verb::Input => self.scene.input = self.scope.bytes(),
            Verb::Fail => self.fail_call(),
            Verb::EachCallFails => self.scene.each_call_fails = true,
            Verb::Has => self.judge_file(),
            Verb::HasNo => self.judge_absence(),
            Verb::Length => self.judge_length(),
            Verb::Alike => self.judge_likeness(),
            _ => self.judge_run(verb),
        }
    }
}
