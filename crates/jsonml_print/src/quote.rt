ghost use Rattle.std.specs.Prelude.{◌≡◌, ◌++◌, ◌∷◌, [], ◌<◌, ◌≤◌, length, take, MatchResult, IfOk};
ghost use Rattle.std.specs.Char.{digit_char};
ghost use Rattle.xa_outside.specs.Taken.{Takes};
ghost use Rattle.json.specs.Print.{escape, escape_byte, quoted};
ghost use Rattle.xa_outside.specs.Taken.{Puts, TakesPrefix};
ghost use Rattle.xa_outside.specs.Causes.{HasCause};

use crate::run::plain_run;
use xa_outside::{Failed, Sink, put_all};

/// Writes a text as a JSON string.
pub fn write_quoted<K: Sink>(text: &str, sink: &mut K) -> Result<(), Failed>
    ensures bytes { Puts (K.taken sink.old) (K.taken sink.new) result (quoted text.now) }
    ensures cause { HasCause (K.faults sink.old) (K.faults sink.new) result }
{
    put_all(sink, b"\"")?;
    write_behind_quote(text, sink)
}

/// Writes what stands behind the first quote of a text as a JSON string.
pub fn write_behind_quote<K: Sink>(text: &str, sink: &mut K) -> Result<(), Failed>
    ensures bytes { Puts (K.taken sink.old) (K.taken sink.new) result (escape text.now ++ 34 ∷ []) }
    ensures cause { HasCause (K.faults sink.old) (K.faults sink.new) result }
{
    write_escaped(text.as_bytes(), sink)?;
    put_all(sink, b"\"")
}

/// Writes bytes with their escapes, in as few and as long pieces as can be.
pub(crate) fn write_escaped<K: Sink>(bytes: &[u8], sink: &mut K) -> Result<(), Failed>
    ensures bytes { Puts (K.taken sink.old) (K.taken sink.new) result (escape bytes.now) }
    ensures cause { HasCause (K.faults sink.old) (K.faults sink.new) result }
{
    let done = write_run(bytes, sink)?;
    if done < bytes.len() {
        return write_runs(&bytes[done..], sink);
    }
    Ok(())
}

/// The same, run by run.
#[inline(never)]
fn write_runs<K: Sink>(bytes: &[u8], sink: &mut K) -> Result<(), Failed>
    ensures bytes { Puts (K.taken sink.old) (K.taken sink.new) result (escape bytes.now) }
    ensures cause { HasCause (K.faults sink.old) (K.faults sink.new) result }
{
    let mut done = 0;
    while done < bytes.len() {
        done += write_run(&bytes[done..], sink)?;
    }
    Ok(())
}

/// Writes the bytes up to and with the first that has an escape, and answers how many these are.
#[inline]
fn write_run<K: Sink>(bytes: &[u8], sink: &mut K) -> Result<usize, Failed>
    ensures bytes { MatchResult result
        (λ n. Takes (K.taken sink.old) (K.taken sink.new) (escape (take n bytes.now)))
        (λ _. TakesPrefix (K.taken sink.old) (K.taken sink.new) (escape bytes.now)) }
    ensures within { IfOk result (λ n. n ≤ length bytes.now) }
    ensures some { IfOk result (λ n. 0 < length bytes.now → 0 < n) }
    ensures cause { HasCause (K.faults sink.old) (K.faults sink.new) result }
{
    let run = plain_run(bytes);
    put_all(sink, &bytes[..run])?;
    match bytes.get(run) {
        None => Ok(run),
        Some(byte) => {
            write_byte(*byte, sink)?;
            Ok(run + 1)
        }
    }
}

/// Writes what stands in a string for a byte.
#[inline(never)]
#[tactic(auto, unfolding(json::specs::Print::escape_byte))]
fn write_byte<K: Sink>(byte: u8, sink: &mut K) -> Result<(), Failed>
    ensures bytes { Puts (K.taken sink.old) (K.taken sink.new) result (escape_byte byte) }
    ensures cause { HasCause (K.faults sink.old) (K.faults sink.new) result }
{
    match byte {
        b'"' => put_all(sink, b"\\\""),
        b'\\' => put_all(sink, b"\\\\"),
        8 => put_all(sink, b"\\b"),
        12 => put_all(sink, b"\\f"),
        b'\n' => put_all(sink, b"\\n"),
        b'\r' => put_all(sink, b"\\r"),
        b'\t' => put_all(sink, b"\\t"),
        0..=31 => put_all(
            sink,
            &[
                b'\\',
                b'u',
                b'0',
                b'0',
                hex_digit(byte / 16),
                hex_digit(byte % 16),
            ],
        ),
        _ => put_all(sink, &[byte]),
    }
}

fn hex_digit(n: u8) -> u8
    requires { n < 16 }
    ensures { result ≡ digit_char n }
{
    if n < 10 { b'0' + n } else { b'a' + (n - 10) }
}
