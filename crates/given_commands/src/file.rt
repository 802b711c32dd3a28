//! A file of cases.
use crate::given::{Given, is_remark};
use crate::interpreter::Interpreter;
use crate::runs::Runs;
use crate::scene::Scene;
use crate::verb::{Verb, verb_of};
use std::alloc::{AllocError, Global};
use std::mem;

/// How many cases agree, and a line for each that does not.
#[derive(Drop)]
pub struct Report {
    pub agreed: u64,
    pub differing: Vec<String>,
}

impl Report {
    fn none(alloc: Global) -> Report {
        Report {
            agreed: 0,
            differing: Vec::new(alloc),
        }
    }
}

/// Lines that are done more than once: the index of the first, and how often.
#[derive(Clone, Copy)]
struct Block {
    first: usize,
    rounds: u64,
}

#[derive(Drop)]
struct Progress<'a> {
    alloc: Global,
    file: &'a str,
    /// The lines that each case begins with, and their numbers.
    always: Vec<(usize, &'a str)>,
    block: Option<Block>,
    case: &'a str,
    /// Whether the case has to differ, and so shows that such a difference is found.
    is_wrong: bool,
    /// Whether a case was begun each line of which held so far.
    is_on: bool,
    interpreter: Interpreter<'a>,
    /// The line of the last run.
    run_line: usize,
    report: Report,
    has_memory: bool,
}

impl<'a> Progress<'a> {
    fn new(alloc: Global, shared: &'a Given, file: &'a str) -> Progress<'a> {
        Progress {
            alloc,
            file,
            always: Vec::new(alloc),
            block: None,
            case: "no case",
            is_wrong: false,
            is_on: false,
            interpreter: Interpreter::new(alloc, shared),
            run_line: 0,
            report: Report::none(alloc),
            has_memory: true,
        }
    }

    fn note(&mut self, line: usize, message: &str) {
        let (file, case) = (self.file, self.case);
        let is_noted = match format!(in self.alloc; "{file}:{line}: {case}: {message}") {
            Ok(note) => self.report.differing.push(note).is_ok(),
            Err(_) => false,
        };
        self.has_memory = self.has_memory && is_noted;
    }

    fn agree(&mut self) {
        self.report.agreed = self.report.agreed.saturating_add(1);
    }

    /// Ends the case for a line that is none, or that cannot be done.
    fn refuse(&mut self, line: usize, fault: &str) {
        self.is_on = false;
        self.interpreter.scene.difference = None;
        self.note(line, fault);
    }

    /// Ends the case where the line does not hold. It agrees where that is what it is to show.
    fn differ(&mut self, line: usize, message: &str) {
        self.is_on = false;
        if self.is_wrong {
            self.agree();
        } else {
            self.note(line, message);
        }
    }

    fn settle(&mut self, line: usize) {
        self.has_memory = self.has_memory && self.interpreter.scene.has_memory;
        if let Some(fault) = self.interpreter.scope.spelled.fault.take() {
            self.refuse(line, fault);
        } else if let Some(message) = self.interpreter.scene.difference.take() {
            self.differ(line, &message);
        }
    }

    /// Ends the last run, and the case where something of it was not judged that has to be.
    fn end_run(&mut self) {
        self.interpreter.scene.end_run();
        self.settle(self.run_line);
    }

    /// Ends the case, if there is one.
    fn end_case(&mut self, line: usize) {
        if self.is_on {
            self.end_run();
        }
        if self.is_on && self.is_wrong {
            self.note(line, "it agrees, though it is wrong");
        } else if self.is_on {
            self.agree();
        }
        self.is_on = false;
    }

    fn begin<R: Runs>(&mut self, runs: &mut R, line: usize, case: &'a str, is_wrong: bool) {
        self.end_case(line);
        self.case = case;
        self.is_wrong = is_wrong;
        self.is_on = true;
        self.interpreter.scene = Scene::new(self.alloc);
        if self.block.take().is_some() {
            self.refuse(line, "the lines above it are not ended by again");
        }
        for index in 0..self.always.len() {
            let (line, text) = match self.always.get(index) {
                Some(numbered) => *numbered,
                None => (0, ""),
            };
            self.take_plain(runs, line, text);
        }
    }

    fn open_block(&mut self, line: usize) {
        let rounds = self.interpreter.scope.number();
        self.block = Some(Block {
            first: line,
            rounds,
        });
    }

    fn skip(&mut self) {
        self.interpreter.scope.line.rest = &[];
    }

    /// Does a line that runs something, where the last run was as it should.
    fn take_run<R: Runs>(&mut self, runs: &mut R, line: usize, verb: Verb) {
        self.end_run();
        self.run_line = line;
        match verb {
            _ if !self.is_on => self.skip(),
            Verb::Archive => self.interpreter.archive(runs),
            _ => self.interpreter.run(runs),
        }
    }

    /// Takes a line of words. The line behind it has the index `line`.
    fn take_words<R: Runs>(&mut self, runs: &mut R, line: usize, verb: Verb) {
        match verb {
            Verb::Let => self.interpreter.scope.take_let(),
            Verb::And => self.interpreter.scope.take_and(),
            Verb::Times => self.open_block(line),
            _ if !self.is_on => self.skip(),
            Verb::Run | Verb::Archive => self.take_run(runs, line, verb),
            _ => self.interpreter.take_step(verb),
        }
    }

    fn take_plain<R: Runs>(&mut self, runs: &mut R, line: usize, text: &'a str) {
        match self.interpreter.scope.begin(text) {
            Some(verb) => self.take_words(runs, line, verb),
            None if is_remark(text) => self.skip(),
            None => self.interpreter.scope.fail("no line begins with this word"),
        }
        if !self.interpreter.scope.line.rest.is_empty() {
            self.interpreter.scope.fail("such a line has other words");
        }
        self.settle(line);
    }

    fn take_round<R: Runs>(&mut self, runs: &mut R, first: usize, lines: &[&'a str]) {
        for (index, text) in lines.iter().enumerate() {
            let line = first.saturating_add(index).saturating_add(1);
            self.take_plain(runs, line, text);
        }
    }

    /// Does the lines of the block that ends before this one.
    fn end_block<R: Runs>(&mut self, runs: &mut R, lines: &[&'a str], line: usize) {
        let Some(Block { first, rounds }) = self.block.take() else {
            self.interpreter.scope.spelled.fail("nothing is done again");
            return self.settle(line);
        };
        let inner = lines.get(first..line.saturating_sub(1)).unwrap_or(&[]);
        for round in 1..=rounds {
            self.interpreter.scope.round = round;
            self.take_round(runs, first, inner);
        }
        self.interpreter.scope.round = 0;
    }

    fn add_always(&mut self, line: usize, text: &'a str) {
        let is_added = self.always.push((line, text)).is_ok();
        self.has_memory = self.has_memory && is_added;
    }

    /// Takes the line of this number, counted from 1.
    fn take_line<R: Runs>(&mut self, runs: &mut R, lines: &[&'a str], line: usize, text: &'a str) {
        let (verb, rest) = verb_of(text);
        match verb {
            Some(Verb::Case) => self.begin(runs, line, rest, false),
            Some(Verb::Wrong) => self.begin(runs, line, rest, true),
            Some(Verb::Always) => self.add_always(line, rest),
            Some(Verb::Again) => self.end_block(runs, lines, line),
            _ if self.block.is_none() => self.take_plain(runs, line, text),
            _ => {}
        }
    }

    fn take_lines<R: Runs>(&mut self, runs: &mut R, lines: &[&'a str]) {
        for (index, text) in lines.iter().enumerate() {
            self.take_line(runs, lines, index.saturating_add(1), text);
        }
        self.end_case(lines.len());
    }

    fn taken_report(&mut self) -> Result<Report, AllocError> {
        if self.has_memory {
            Ok(mem::replace(&mut self.report, Report::none(self.alloc)))
        } else {
            Err(AllocError)
        }
    }
}

/// Does the cases of a file of this name and text.
pub fn check<'a, R: Runs>(
    alloc: Global,
    runs: &mut R,
    shared: &'a Given,
    name: &'a str,
    text: &'a str,
) -> Result<Report, AllocError> {
    let lines: Vec<&'a str> = text.lines().collect(alloc)?;
    let mut progress = Progress::new(alloc, shared, name);
    progress.take_lines(runs, &lines);
    progress.taken_report()
}
