ghost use Rattle.std.specs.Prelude.{◌≡◌, ◌<◌, ◌≤◌, drop, get_or};
ghost use Rattle.std.specs.Cmp.Lexicographic.{slice_cmp};
ghost use Rattle.std.specs.Ordering.{nat_cmp};
ghost use Rattle.key_annotate.specs.Front.{AreBytes, spelled};

use std::cmp::Ordering;

/// A text with its first sixteen bytes beside it, which mostly settle a comparison without a look at the text.
#[derive(Clone, Copy)]
pub(crate) struct Fronted<'a> {
    text: &'a str,
    front: u64,
    next: u64,
    ghost bytes: { AreBytes text.now },
    ghost first: { front ≡ spelled 8 0 text.now },
    ghost second: { next ≡ spelled 8 0 (drop 8 text.now) },
}

impl<'a> Fronted<'a> {
    ghost use Rattle.key_annotate.specs.FrontedText.{fronted_text};

    pub(crate) fn new(text: &'a str) -> Fronted<'a>
        ensures { fronted_text result ≡ text.now }
    {
        let bytes = text.as_bytes();
        let front = number_at(bytes, 0);
        let next = number_at(bytes, 8);
        Fronted { text, front, next }
    }

    pub(crate) fn text(&self) -> &'a str
        ensures { result.now ≡ fronted_text self.now }
    {
        self.text
    }

    /// By the bytes of the texts.
    pub(crate) fn order(&self, other: &Fronted<'_>) -> Ordering
        ensures { result ≡ slice_cmp nat_cmp (fronted_text self.now) (fronted_text other.now) }
    {
        if self.front != other.front {
            return self.front.cmp(&other.front);
        }
        if self.next != other.next {
            return self.next.cmp(&other.next);
        }
        self.text.cmp(other.text)
    }
}

/// The number that eight bytes from a place on spell, the greatest first, and a 0 for each that is missing.
fn number_at(bytes: &[u8], from: usize) -> u64
    requires { from ≤ 8 }
    ensures number { result ≡ spelled 8 0 (drop from bytes.now) }
    ensures bytes { AreBytes bytes.now }
{
    let mut number = 0;
    for at in from..from + 8 {
        number = number * 256 + byte_at(bytes, at);
    }
    number
}

/// The byte at a place, or a 0 where there is none.
fn byte_at(bytes: &[u8], at: usize) -> u64
    ensures byte { result ≡ get_or bytes.now at 0 }
    ensures bound { result < 256 }
{
    match bytes.get(at) {
        Some(byte) => *byte as u64,
        None => 0,
    }
}
