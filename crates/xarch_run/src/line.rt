ghost use Rattle.std.specs.Prelude.{◌≡◌, ◌+◌, ◌≤◌, ◌++◌, ℕ, List, [], OnOk, false, length, nat_lt, vec_len};
ghost use Rattle.xarch_words.specs.declared.limits.TheConstants.{LINE};
ghost use Rattle.xarch_run.specs.Lines.{is_blank};

use std::alloc::{AllocError, Global};
use xarch_words::limits::LINE;

/// A line as far as it has come. Of a longer line than there may be only the front is kept, with
/// one byte more than a line may have.
#[derive(Drop)]
pub(crate) struct Line {
    bytes: Vec<u8>,
    blank: bool,
    ghost short: { vec_len bytes ≤ LINE + 1 },
}

impl Line {
    ghost use Rattle.xarch_run.specs.Shown.{Shows};

    pub(crate) fn new(alloc: Global) -> Line
        ensures { Shows result [] }
    {
        Line {
            bytes: Vec::new(alloc),
            blank: true,
        }
    }

    pub(crate) fn clear(&mut self)
        ensures { Shows self.new [] }
    {
        self.bytes.clear();
        self.blank = true;
    }

    /// Puts a piece behind what has come.
    pub(crate) fn add(&mut self, piece: &[u8]) -> Result<(), AllocError>
        ensures { (bytes : List ℕ) → Shows self.old bytes
            → OnOk result (Shows self.new (bytes ++ piece.now)) }
    {
        let room = LINE + 1 - self.bytes.len();
        self.bytes
            .extend_from_slice(&piece[..piece.len().min(room)])?;
        self.blank = self.blank && is_blank_piece(piece);
        Ok(())
    }

    /// Whether it has only spaces, tabs and CRs, however long it is.
    pub(crate) fn is_blank(&self) -> bool
        ensures { result ≡ self.now.blank }
    {
        self.blank
    }

    /// Whether it is longer than a line may be.
    pub(crate) fn is_too_long(&self) -> bool
        ensures { (bytes : List ℕ) → Shows self.now bytes → result ≡ nat_lt LINE (length bytes) }
    {
        self.bytes.len() > LINE
    }

    /// The whole line, where it is not too long.
    pub(crate) fn bytes(&self) -> &[u8]
        ensures { (bytes : List ℕ) → Shows self.now bytes → nat_lt LINE (length bytes) ≡ false
            → result.now ≡ bytes }
    {
        &self.bytes
    }
}

fn is_blank_piece(piece: &[u8]) -> bool
    ensures { result ≡ is_blank piece.now }
{
    piece
        .iter()
        .all(|byte| matches!(byte, b' ' | b'\t' | b'\r'))
}
