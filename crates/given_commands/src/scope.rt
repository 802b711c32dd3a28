//! What words stand for.
use crate::given::{Constant, Given};
use crate::line::Line;
use crate::number::range_of;
use crate::spelled::Spelled;
use crate::verb::{Verb, verb_of};
use std::alloc::Global;

const NO_NAME: &str = "nothing has this name";

const NO_NUMBER: &str = "no number stands there";

/// A line, and what its words stand for: the names of all files and of this one, and the number of the round.
#[derive(Drop)]
pub(crate) struct Scope<'a> {
    alloc: Global,
    shared: Option<&'a Given>,
    pub(crate) own: Given,
    pub(crate) round: u64,
    pub(crate) line: Line<'a>,
    pub(crate) spelled: Spelled<'a>,
    /// The name that was read last.
    pub(crate) name: String,
}

impl<'a> Scope<'a> {
    pub(crate) fn new(alloc: Global, shared: Option<&'a Given>) -> Scope<'a> {
        Scope {
            alloc,
            shared,
            own: Given::new(alloc),
            round: 0,
            line: Line { rest: &[] },
            spelled: Spelled::new(alloc),
            name: String::new(alloc),
        }
    }

    /// Begins a line, and answers what it asks for, if its first word says so.
    pub(crate) fn begin(&mut self, text: &'a str) -> Option<Verb> {
        let (verb, rest) = verb_of(text);
        let rest = rest.as_bytes();
        self.line = Line { rest };
        verb
    }

    pub(crate) fn fail(&mut self, fault: &'static str) {
        self.spelled.fail(fault);
    }

    /// The number that is the next word.
    pub(crate) fn number(&mut self) -> u64 {
        self.line.skip_blank();
        match range_of(self.line.take_bare(), self.round) {
            Some((1, number)) => number,
            _ => {
                self.fail(NO_NUMBER);
                0
            }
        }
    }

    fn add_named(&mut self, name: &[u8]) {
        match (self.own.find(name), self.shared) {
            (Some(bytes), _) => self.spelled.add(bytes),
            (None, Some(shared)) => self.add_shared(shared, name),
            (None, None) => self.spelled.fail(NO_NAME),
        }
    }

    fn add_shared(&mut self, shared: &Given, name: &[u8]) {
        match shared.find(name) {
            Some(bytes) => self.spelled.add(bytes),
            None => self.spelled.fail(NO_NAME),
        }
    }

    fn add_bare(&mut self) {
        match self.line.take_bare() {
            [b'0', b'x', digits @ ..] => self.spelled.add_digits(digits),
            name => self.add_named(name),
        }
    }

    fn add_quoted(&mut self) {
        self.spelled.add_text(self.line.take_quoted(), self.round);
        match self.line.rest {
            [_, rest @ ..] => self.line.rest = rest,
            [] => self.fail("a text has no end"),
        }
    }

    /// Repeats the piece before this count.
    fn add_count(&mut self) {
        match range_of(self.line.take_bare(), self.round) {
            Some((first, last)) => self.spelled.repeat(first, last),
            None => self.fail(NO_NUMBER),
        }
    }

    /// Adds the next piece, if there is one.
    fn add_piece(&mut self) {
        match self.line.rest {
            [] => {}
            [b'\'', rest @ ..] => {
                self.line.rest = rest;
                self.add_quoted();
            }
            [b'*', rest @ ..] => {
                self.line.rest = rest;
                self.add_count();
            }
            _ => self.add_bare(),
        }
    }

    /// Spells the pieces of the next word.
    fn spell_word(&mut self) {
        self.line.skip_blank();
        self.spelled.begin();
        if self.line.rest.is_empty() {
            self.fail("a word is missing");
        }
        for _ in 0..self.line.rest.len() {
            match self.line.rest {
                [b' ', ..] => return,
                _ => self.add_piece(),
            }
        }
    }

    /// Spells all pieces that are left.
    pub(crate) fn spell(&mut self) {
        self.spelled.begin();
        for _ in 0..self.line.rest.len() {
            self.line.skip_blank();
            self.add_piece();
        }
    }

    /// The bytes of the next word.
    pub(crate) fn word(&mut self) -> Vec<u8> {
        self.spell_word();
        self.spelled.taken()
    }

    /// The bytes of all pieces that are left.
    pub(crate) fn bytes(&mut self) -> Vec<u8> {
        self.spell();
        self.spelled.taken()
    }

    /// Spells the next word, where one that stands bare is itself.
    fn spell_itself(&mut self) {
        self.line.skip_blank();
        let whole = self.line;
        let bare = self.line.take_bare();
        match self.line.rest {
            [] | [b' ', ..] if !bare.is_empty() => {
                self.spelled.begin();
                self.spelled.add(bare);
            }
            _ => {
                self.line = whole;
                self.spell_word();
            }
        }
    }

    /// The text of the next word.
    fn text(&mut self) -> String {
        self.spell_itself();
        match String::from_utf8(self.spelled.taken()) {
            Ok(text) => text,
            Err(_) => {
                self.fail("these bytes are no text");
                String::new(self.alloc)
            }
        }
    }

    /// Reads the next word as a name.
    pub(crate) fn take_name(&mut self) {
        self.name = self.text();
    }

    /// The name that was read last, and the bytes that were spelled behind it.
    pub(crate) fn named(&self) -> (&str, &[u8]) {
        (&self.name, self.spelled.made())
    }

    /// The texts of all words that are left.
    pub(crate) fn texts(&mut self) -> Vec<String> {
        let mut texts = Vec::new(self.alloc);
        for _ in 0..self.line.rest.len() {
            if !self.line.rest.is_empty() {
                let has_memory = texts.push(self.text()).is_ok();
                self.spelled.heed(has_memory);
            }
        }
        texts
    }

    /// Gives a name to the bytes behind it.
    pub(crate) fn take_let(&mut self) {
        self.spell_itself();
        let name = self.spelled.taken();
        let bytes = self.bytes();
        let has_memory = self.own.constants.push(Constant { name, bytes }).is_ok();
        self.spelled.heed(has_memory);
    }

    /// Adds to the bytes that were named last.
    pub(crate) fn take_and(&mut self) {
        self.spell();
        match self.own.constants.last_mut() {
            Some(constant) => {
                let has_memory = constant
                    .bytes
                    .extend_from_slice(self.spelled.made())
                    .is_ok();
                self.spelled.heed(has_memory);
            }
            None => self.fail("no bytes were named"),
        }
    }

    /// Whether the line names bytes, and can be read.
    pub(crate) fn is_named(&mut self, text: &'a str) -> bool {
        match self.begin(text) {
            Some(Verb::Let) => self.take_let(),
            Some(Verb::And) => self.take_and(),
            _ => return false,
        }
        self.spelled.fault.is_none()
    }
}
