//! Bytes that are put together of pieces.
use crate::shown::behind;
use std::alloc::{AllocError, Global};
use std::mem;

const NO_MEMORY: &str = "there is no more memory";

/// The bytes of the pieces so far, and what of their line cannot be read.
#[derive(Drop)]
pub(crate) struct Spelled<'a> {
    alloc: Global,
    bytes: Vec<u8>,
    /// Where the last piece begins.
    last: usize,
    /// The text in quotes that the last piece is.
    text: &'a [u8],
    /// Whether a number comes into that text.
    is_numbered: bool,
    pub(crate) fault: Option<&'static str>,
}

fn digit(byte: u8) -> Option<u8> {
    match byte {
        b'0'..=b'9' => Some(byte - b'0'),
        b'a'..=b'f' => Some(byte - b'a' + 10),
        _ => None,
    }
}

impl<'a> Spelled<'a> {
    pub(crate) fn new(alloc: Global) -> Spelled<'a> {
        Spelled {
            alloc,
            bytes: Vec::new(alloc),
            last: 0,
            text: &[],
            is_numbered: false,
            fault: None,
        }
    }

    /// Notes that the line cannot be read, or not be done.
    pub(crate) fn fail(&mut self, fault: &'static str) {
        if let None = self.fault {
            self.fault = Some(fault);
        }
    }

    /// Fails where something found no memory.
    pub(crate) fn heed(&mut self, has_memory: bool) {
        if !has_memory {
            self.fail(NO_MEMORY);
        }
    }

    fn push(&mut self, byte: u8) {
        let has_memory = self.bytes.push(byte).is_ok();
        self.heed(has_memory);
    }

    pub(crate) fn add(&mut self, bytes: &[u8]) {
        self.last = self.bytes.len();
        self.is_numbered = false;
        let has_memory = self.bytes.extend_from_slice(bytes).is_ok();
        self.heed(has_memory);
    }

    fn add_number(&mut self, number: u64) {
        self.is_numbered = true;
        let has_memory = match format!(in self.alloc; "{number}") {
            Ok(digits) => self.bytes.extend_from_slice(digits.as_bytes()).is_ok(),
            Err(_) => false,
        };
        self.heed(has_memory);
    }

    /// Adds the byte that two digits write.
    fn add_digits_of_byte(&mut self, high: u8, low: u8) {
        match (digit(high), digit(low)) {
            (Some(high), Some(low)) => self.push(high.wrapping_mul(16) | low),
            _ => self.fail("these are no digits"),
        }
    }

    fn add_escaped(&mut self, byte: u8, number: u64) {
        match byte {
            b'n' => self.push(b'\n'),
            b't' => self.push(b'\t'),
            b'r' => self.push(b'\r'),
            b'\\' | b'\'' => self.push(byte),
            b'#' => self.add_number(number),
            _ => self.fail("a text has no such escape"),
        }
    }

    /// Adds what a text has in front, and gives what stands behind that.
    fn add_front<'t>(&mut self, text: &'t [u8], number: u64) -> &'t [u8] {
        match text {
            [b'\\', b'x', high, low, rest @ ..] => {
                self.add_digits_of_byte(*high, *low);
                rest
            }
            [b'\\', byte, rest @ ..] => {
                self.add_escaped(*byte, number);
                rest
            }
            [byte, rest @ ..] => {
                self.push(*byte);
                rest
            }
            [] => &[],
        }
    }

    /// Adds what stands in quotes, with the number where one comes in.
    fn add_copy(&mut self, text: &[u8], number: u64) {
        let mut rest = text;
        for _ in 0..text.len() {
            rest = self.add_front(rest, number);
        }
    }

    pub(crate) fn add_text(&mut self, text: &'a [u8], number: u64) {
        self.last = self.bytes.len();
        self.text = text;
        self.is_numbered = false;
        self.add_copy(text, number);
    }

    /// Adds the bytes that these digits write, two a byte.
    pub(crate) fn add_digits(&mut self, digits: &[u8]) {
        self.last = self.bytes.len();
        self.is_numbered = false;
        for pair in digits.chunks(2) {
            match pair {
                [high, low] => self.add_digits_of_byte(*high, *low),
                _ => self.fail("half a byte stands there"),
            }
        }
    }

    fn add_numbered(&mut self, first: u64, last: u64) {
        for number in first..=last {
            self.add_copy(self.text, number);
        }
    }

    fn add_again(&mut self, piece: &[u8], first: u64, last: u64) {
        for _ in first..=last {
            let has_memory = self.bytes.extend_from_slice(piece).is_ok();
            self.heed(has_memory);
        }
    }

    /// Takes the last piece away.
    fn taken_piece(&mut self) -> Vec<u8> {
        let piece = match self.bytes.get(self.last..) {
            Some(piece) => Vec::from_slice(self.alloc, piece),
            None => Err(AllocError),
        };
        self.heed(piece.is_ok());
        self.bytes.truncate(self.last);
        piece.unwrap_or(Vec::new(self.alloc))
    }

    /// Has copies of the last piece in its place, from this number to that.
    pub(crate) fn repeat(&mut self, first: u64, last: u64) {
        let piece = self.taken_piece();
        if self.is_numbered {
            self.add_numbered(first, last);
        } else {
            self.add_again(&piece, first, last);
        }
        self.is_numbered = false;
    }

    /// Adds these bytes, with the new ones in the place of the old ones, which stand behind so many.
    pub(crate) fn add_changed(&mut self, bytes: &[u8], at: usize, old: &[u8], new: &[u8]) {
        match behind(bytes.get(at..).unwrap_or(&[]), old) {
            Some(back) => {
                self.add(bytes.get(..at).unwrap_or(&[]));
                self.add(new);
                self.add(back);
            }
            None => self.fail("the file has other bytes there"),
        }
    }

    /// Begins anew.
    pub(crate) fn begin(&mut self) {
        self.bytes.truncate(0);
    }

    pub(crate) fn made(&self) -> &[u8] {
        &self.bytes
    }

    /// Takes the bytes, and begins anew.
    pub(crate) fn taken(&mut self) -> Vec<u8> {
        mem::replace(&mut self.bytes, Vec::new(self.alloc))
    }
}
