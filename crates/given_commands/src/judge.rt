//! Lines that judge the last run and the files.
use crate::interpreter::Interpreter;
use crate::shown::difference;
use crate::verb::Verb;

/// Whether the bytes have this part, which is not empty.
fn has_part(bytes: &[u8], part: &[u8]) -> bool {
    for at in 0..bytes.len() {
        if bytes.get(at..).unwrap_or(&[]).starts_with(part) {
            return true;
        }
    }
    false
}

/// Whether the output is to these bytes as the line asks for.
fn is_wanted(written: &[u8], verb: Verb, bytes: &[u8]) -> bool {
    match verb {
        Verb::OutAny => true,
        Verb::OutBegins => written.starts_with(bytes),
        Verb::OutHolds => has_part(written, bytes),
        Verb::OutPrefix => bytes.starts_with(written),
        _ => written == bytes,
    }
}

impl Interpreter<'_> {
    /// Judges the status, and the lines that were said. It may also go well, with status 0 and no line, where that is said.
    fn judge_status(&mut self, may_go_well: bool) {
        let wanted = self.scope.number();
        self.scope.spell();
        if may_go_well && self.scene.last.status == 0 {
            self.scene.judge_status(0, &[]);
        } else {
            self.scene.judge_status(wanted, self.scope.spelled.made());
        }
    }

    fn judge_output(&mut self, verb: Verb) {
        self.scope.spell();
        let bytes = self.scope.spelled.made();
        if is_wanted(self.scene.last.written(), verb, bytes) {
            self.scene.is_output_judged = true;
        } else {
            self.scene.judge_output(bytes);
        }
    }

    /// Judges that the output has so many bytes at least, with which those behind the number begin.
    fn judge_prefix(&mut self) {
        let least = self.scope.number();
        let length = self.scene.last.written().len() as u64;
        self.scene
            .judge_number("bytes of output", least, u64::MAX, length);
        self.judge_output(Verb::OutPrefix);
    }

    /// Judges that the run has written what the one before it wrote.
    fn judge_same(&mut self) {
        if self.scene.runs < 2 {
            self.scope.fail("nothing was run before");
        }
        let (before, last) = (self.scene.before.written(), self.scene.last.written());
        let told = difference(self.scene.alloc, "the output", before, last);
        self.scene.tell(told);
        self.scene.is_output_judged = true;
    }

    fn judge_at_most(&mut self, what: &str, came: u64) {
        let most = self.scope.number();
        self.scene.judge_number(what, 0, most, came);
    }

    /// Judges how many bytes the last run has read.
    fn judge_reads(&mut self) {
        let pulled = self.scene.last.folder.pulled();
        self.judge_at_most("bytes read", pulled);
    }

    /// Judges what was read since the draft was begun, and by how much that was ahead of what was written.
    fn judge_reading(&mut self) {
        let (since, gap) = (self.scene.last.folder.since(), self.scene.last.folder.gap());
        self.judge_at_most("bytes read", since);
        self.judge_at_most("bytes read ahead", gap);
    }

    /// Judges the bytes of a file.
    pub(crate) fn judge_file(&mut self) {
        self.scope.take_name();
        self.scope.spell();
        let (name, bytes) = self.scope.named();
        self.scene.judge_file(name, bytes);
    }

    pub(crate) fn judge_absence(&mut self) {
        self.scope.take_name();
        self.scene.know(&self.scope.name);
        if self.scene.last.folder.file(&self.scope.name).is_some() {
            let told = difference(self.scene.alloc, &self.scope.name, b"no file", b"one");
            self.scene.tell(told);
        }
    }

    pub(crate) fn judge_length(&mut self) {
        self.scope.take_name();
        let wanted = self.scope.number();
        let length = self.scene.file(&self.scope.name).len() as u64;
        self.scene
            .judge_number(&self.scope.name, wanted, wanted, length);
    }

    /// Judges that two files have the same bytes.
    pub(crate) fn judge_likeness(&mut self) {
        let bytes = self.copied();
        self.scope.take_name();
        let name = &self.scope.name;
        let told = difference(self.scene.alloc, name, self.scene.file(name), &bytes);
        self.scene.tell(told);
    }

    /// Judges what the line asks for of the last run.
    pub(crate) fn judge_run(&mut self, verb: Verb) {
        match verb {
            _ if self.scene.runs == 0 => self.scope.fail("nothing was run"),
            Verb::Is => self.judge_status(false),
            Verb::IsOr => self.judge_status(true),
            Verb::Out | Verb::OutAny | Verb::OutBegins | Verb::OutHolds => self.judge_output(verb),
            Verb::OutPrefix => self.judge_prefix(),
            Verb::OutSame => self.judge_same(),
            Verb::ReadsAtMost => self.judge_reads(),
            Verb::HasRead => self.judge_reading(),
            _ => self.scope.fail("no line of a case begins with this word"),
        }
    }
}
