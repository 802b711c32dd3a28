ghost use Rattle.std.specs.Io.{ReadsAtMost, WritesAtMost};

use real_objects::{ReaderSource, WriterSink};
use std::io;
use std::io::{ErrorKind, Read, Write};
use xa_outside::{Failed, Sink, Source};

/// A stream of which so many calls are interrupted by a signal, before each that is not. It reads and writes one byte at a time.
#[derive(Drop)]
struct Interrupted {
    times: u32,
    left: u32,
}

impl Interrupted {
    fn new(times: u32) -> Interrupted {
        Interrupted { times, left: times }
    }

    fn is_interrupted(&mut self) -> bool {
        if self.left == 0 {
            self.left = self.times;
            return false;
        }
        self.left -= 1;
        true
    }
}

impl Read for Interrupted {
    fn read(&mut self, buf: &mut [u8]) -> io::Result<usize>
        ensures bound { ReadsAtMost result buf.new }
    {
        if self.is_interrupted() {
            return Err(ErrorKind::Interrupted.into());
        }
        match buf.first_mut() {
            Some(first) => {
                *first = b'x';
                Ok(1)
            }
            None => Ok(0),
        }
    }
}

impl Write for Interrupted {
    fn write(&mut self, piece: &[u8]) -> io::Result<usize>
        ensures bound { WritesAtMost result piece.now }
    {
        if self.is_interrupted() {
            return Err(ErrorKind::Interrupted.into());
        }
        Ok(piece.len().min(1))
    }

    fn flush(&mut self) -> io::Result<()> {
        Ok(())
    }
}

#[test]
fn an_interrupted_call_is_made_again(rt: HostRuntime) {
    let mut byte = [0u8; 1];
    for times in [1, 7, 999] {
        let mut input = ReaderSource::new(Interrupted::new(times));
        assert!(rt; input.read(&mut byte) == Ok(1) && byte == [b'x']);
        assert!(rt; input.read(&mut byte) == Ok(1));
        let mut out = WriterSink::new(Interrupted::new(times));
        assert!(rt; out.write(b"ab") == Ok(1) && out.write(b"b") == Ok(1));
    }
}

#[test]
fn a_call_that_is_always_interrupted_fails(rt: HostRuntime) {
    let mut byte = [0u8; 1];
    let mut input = ReaderSource::new(Interrupted::new(1000));
    assert!(rt; input.read(&mut byte) == Err(Failed) && input.read(&mut byte) == Ok(1));
    let mut out = WriterSink::new(Interrupted::new(1000));
    assert!(rt; out.write(b"ab") == Err(Failed) && out.write(b"ab") == Ok(1));
}
