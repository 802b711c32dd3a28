//! A line as words, each of which is pieces with no blank between them.

/// What is left of a line.
#[derive(Clone, Copy)]
pub(crate) struct Line<'a> {
    pub(crate) rest: &'a [u8],
}

/// How many bytes stand before the first blank, quote or star.
fn bare_length(bytes: &[u8]) -> usize {
    for (index, byte) in bytes.iter().enumerate() {
        if matches!(*byte, b' ' | b'\'' | b'*') {
            return index;
        }
    }
    bytes.len()
}

/// How many bytes stand before the quote that ends a text.
fn quoted_length(bytes: &[u8]) -> usize {
    let mut is_escaped = false;
    for (index, byte) in bytes.iter().enumerate() {
        if *byte == b'\'' && !is_escaped {
            return index;
        }
        is_escaped = *byte == b'\\' && !is_escaped;
    }
    bytes.len()
}

impl<'a> Line<'a> {
    pub(crate) fn skip_blank(&mut self) {
        if let [b' ', rest @ ..] = self.rest {
            self.rest = rest;
        }
    }

    fn take(&mut self, count: usize) -> &'a [u8] {
        match self.rest.split_at_checked(count) {
            Some((front, rest)) => {
                self.rest = rest;
                front
            }
            None => &[],
        }
    }

    /// Takes the bytes up to a blank, a quote or a star.
    pub(crate) fn take_bare(&mut self) -> &'a [u8] {
        self.take(bare_length(self.rest))
    }

    /// Takes the bytes up to the quote that ends a text, which stays.
    pub(crate) fn take_quoted(&mut self) -> &'a [u8] {
        self.take(quoted_length(self.rest))
    }
}
