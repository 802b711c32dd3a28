ghost use Rattle.std.specs.Io.{ReadsAtMost, WritesAtMost};
ghost use Rattle.std.specs.Io.KnownBytes.{ReadConsumes, WriteAppends};

use std::io::{Error, ErrorKind, Read, Result, Write};

/// How often a call is made, at most, that a signal interrupts each time.
pub(crate) const TRIES: u32 = 1000;

pub(crate) fn is_interrupted(error: &Error) -> bool {
    error.kind() == ErrorKind::Interrupted
}

/// Reads once, and again while a signal interrupts it: at most 1,000 times.
pub(crate) fn read_again<R: Read>(reader: &mut R, buf: &mut [u8]) -> Result<usize>
    ensures bound { ReadsAtMost result buf.new }
    ensures bytes { ReadConsumes (R.remaining reader.old) (R.remaining reader.new) result buf.new }
{
    for _ in 1..TRIES {
        match reader.read(buf) {
            Err(error) if is_interrupted(&error) => {}
            done => return done,
        }
    }
    reader.read(buf)
}

/// Writes once, and again while a signal interrupts it: at most 1,000 times.
pub(crate) fn write_again<W: Write>(writer: &mut W, piece: &[u8]) -> Result<usize>
    ensures bound { WritesAtMost result piece.now }
    ensures bytes { WriteAppends (W.contents writer.old) (W.contents writer.new) result piece.now }
{
    for _ in 1..TRIES {
        match writer.write(piece) {
            Err(error) if is_interrupted(&error) => {}
            done => return done,
        }
    }
    writer.write(piece)
}
