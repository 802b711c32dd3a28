// A text that is compared with bytes while it is written.
ghost use Rattle.std.specs.Prelude.{◌≡◌, ◌≢◌, ◌<◌, ◌≤◌, ◌↔◌, ◌++◌, ◌∷◌, [], length, Some, None, IfOk, IsTrue, slice_get};
ghost use Rattle.std.specs.Option.{ForSome, ForNone};
ghost use Rattle.std.specs.Io.{WritesAtMost};
ghost use Rattle.xa_outside.specs.Causes.{HasCause};
ghost use Rattle.xa_outside.specs.Taken.{Writes};

use xa_outside::{Failed, Sink};

/// How many bytes are compared at once. Where these are not awaited, they are taken byte by byte until the first that is
/// another one, and each time what is left of them is compared anew: so few are compared in vain, however long a piece is.
const AT_ONCE: usize = 4096;

/// A sink that awaits some bytes. It takes them as far as they come, and the first byte that is another one, and then it
/// fails.
#[derive(Drop)]
pub(crate) struct Expected<'a> {
    bytes: &'a [u8],
    done: usize,
    odd: Option<u8>,
    failures: u64,
    ghost within: { done ≤ length bytes.now },
    ghost differs: { ForSome odd (λ b. slice_get bytes.now done ≢ Some b) },
    ghost in_vain: { ForNone odd (failures ≡ 0) },
}

impl<'a> Expected<'a> {
    ghost use Rattle.archive_text.specs.Expected.{awaited, came, failures_of};

    pub(crate) fn new(bytes: &'a [u8]) -> Expected<'a>
        ensures awaits { awaited result ≡ bytes.now }
        ensures nothing { came result ≡ [] }
        ensures sure { failures_of result ≡ 0 }
    {
        Expected {
            bytes,
            done: 0,
            odd: None,
            failures: 0,
        }
    }

    /// Whether all have come, and no other byte.
    pub(crate) fn is_whole(&self) -> bool
        ensures { IsTrue result ↔ (came self.now ≡ awaited self.now) }
    {
        self.odd.is_none() && self.done == self.bytes.len()
    }

    /// Takes one byte.
    fn take_one(&mut self, byte: u8)
        requires { self.old.odd ≡ None }
        ensures awaits { awaited self.new ≡ awaited self.old }
        ensures more { came self.new ≡ came self.old ++ byte ∷ [] }
        ensures same { failures_of self.new ≡ failures_of self.old }
    {
        match self.bytes.get(self.done) {
            Some(next) if *next == byte => self.done += 1,
            _ => self.odd = Some(byte),
        }
    }
}

impl Sink for Expected<'_> {
    ghost use Rattle.archive_text.specs.Expected.{awaited, expected_taken, failures_of};

    ghost taken = { expected_taken };

    ghost faults = { failures_of };

    fn write(&mut self, piece: &[u8]) -> Result<usize, Failed>
        ensures bound { WritesAtMost result piece.now }
        ensures some { IfOk result (λ n. 0 < length piece.now → 0 < n) }
        ensures bytes { Writes (expected_taken self.old) (expected_taken self.new)
            result piece.now }
        ensures cause { HasCause (failures_of self.old) (failures_of self.new) result }
        ensures awaits { awaited self.new ≡ awaited self.old }
    {
        if self.odd.is_some() {
            self.failures = self.failures.saturating_add(1);
            return Err(Failed);
        }
        let front = &piece[..piece.len().min(AT_ONCE)];
        if self.bytes[self.done..].starts_with(front) {
            self.done += front.len();
            return Ok(front.len());
        }
        self.take_one(piece[0]);
        Ok(1)
    }
}
