ghost use Rattle.std.specs.Prelude.{◌≡◌, ◌+◌, ◌≤◌, ◌↔◌, [], ◌++◌, drop, length, IsTrue};
ghost use Rattle.xa_outside.specs.declared.held.TheConstants.{SIZE};

/// How many bytes can be held.
pub(crate) const SIZE: usize = 65_536;

/// Bytes that wait, in a buffer of fixed size.
#[derive(Drop)]
pub(crate) struct Held {
    bytes: [u8; SIZE],
    start: usize,
    end: usize,
    ghost ordered: { start ≤ end },
    ghost in_range: { end ≤ SIZE },
}

impl Held {
    ghost use Rattle.xa_outside.specs.Held.{held_bytes, held_end};

    pub(crate) fn new() -> Held
        ensures { held_bytes result ≡ [] }
    {
        Held {
            bytes: [0; SIZE],
            start: 0,
            end: 0,
        }
    }

    pub(crate) fn waiting(&self) -> &[u8]
        ensures { result.now ≡ held_bytes self.now }
    {
        &self.bytes[self.start..self.end]
    }

    /// Whether the piece fits behind what waits.
    pub(crate) fn has_room(&self, count: usize) -> bool
        ensures { IsTrue result ↔ (held_end self.now + count ≤ SIZE) }
    {
        count <= SIZE - self.end
    }

    /// Lets the first bytes go. Once none waits, there is room for all again.
    pub(crate) fn drop_front(&mut self, count: usize)
        requires { count ≤ length (held_bytes self.old) }
        ensures bytes { held_bytes self.new ≡ drop count (held_bytes self.old) }
        ensures room { held_bytes self.new ≡ [] → held_end self.new ≡ 0 }
    {
        self.start += count;
        if self.start == self.end {
            self.start = 0;
            self.end = 0;
        }
    }

    pub(crate) fn add(&mut self, piece: &[u8])
        requires { held_end self.old + length piece.now ≤ SIZE }
        ensures { held_bytes self.new ≡ held_bytes self.old ++ piece.now }
    {
        let end = self.end + piece.len();
        self.bytes[self.end..end].copy_from_slice(piece);
        self.end = end;
    }
}
