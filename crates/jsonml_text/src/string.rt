ghost use Rattle.std.specs.Prelude.{◌≡◌, ◌⊎◌, ◌-◌, ◌<◌, ◌≤◌, length, drop, slice_index, IfSome, string_bytes};
ghost use Rattle.std.specs.Cow.{cow_str_bytes};
ghost use Rattle.std.specs.Str.{IsUtf8};
ghost use Rattle.json.specs.Lex.{token, between, in_string, lex};
ghost use Rattle.json.specs.Token.{string};
ghost use Rattle.jsonml_text.specs.Straight.{HasLexeme, HasString, HasKey};

use crate::scan::{ends_value, is_sign, skip_blanks};
use json::{Reader, Scratch, Token};
use jsonml_print::plain_run;
use std::alloc::Global;
use std::borrow::CowStr;

/// The string value at an offset, if a comma or the sign that closes its array or object comes behind it, and where that
/// stands.
pub(crate) fn read_text<'a>(
    alloc: Global,
    text: &'a str,
    at: usize,
    close: u8,
    scratch: &mut Scratch,
) -> Option<(CowStr<'a, Global>, usize)>
    requires { (close ≡ 93) ⊎ (close ≡ 125) }
    ensures { IfSome result (λ r. HasString text.now at (cow_str_bytes r.0) r.1) }
{
    let (string, end) = read_string(alloc, text, at, scratch)?;
    let next = skip_blanks(text, end);
    if ends_value(text, next, close) {
        Some((string, next))
    } else {
        None
    }
}

/// The name at an offset, with its colon, and where its value stands.
pub(crate) fn read_key<'a>(
    alloc: Global,
    text: &'a str,
    at: usize,
    scratch: &mut Scratch,
) -> Option<(CowStr<'a, Global>, usize)>
    ensures { IfSome result (λ r. HasKey text.now at (cow_str_bytes r.0) r.1) }
{
    let (string, end) = read_string(alloc, text, at, scratch)?;
    let colon = skip_blanks(text, end);
    if is_sign(text, colon, b':') {
        Some((string, skip_blanks(text, colon + 1)))
    } else {
        None
    }
}

/// The string at an offset, and where the text goes on behind it.
fn read_string<'a>(
    alloc: Global,
    text: &'a str,
    at: usize,
    scratch: &mut Scratch,
) -> Option<(CowStr<'a, Global>, usize)>
    ensures lexeme { IfSome result
        (λ r. HasLexeme text.now at (token (string (cow_str_bytes r.0))) r.1) }
    ensures utf8 { IfSome result (λ r. IsUtf8 (cow_str_bytes r.0)) }
{
    let bytes = text.as_bytes();
    if at >= bytes.len() || bytes[at] != b'"' {
        return None;
    }
    let start = at + 1;
    let end = start + plain_run(&bytes[start..]);
    if end < bytes.len() && bytes[end] == b'"' {
        return Some((CowStr::Borrowed(&text[start..end]), end + 1));
    }
    let (string, next) = read_escaped(alloc, text, at, scratch)?;
    Some((CowStr::Owned(string), next))
}

/// The string at an offset, where a quote stands, with its escapes undone.
fn read_escaped(
    alloc: Global,
    text: &str,
    at: usize,
    scratch: &mut Scratch,
) -> Option<(String, usize)>
    requires within { at < length text.now }
    requires quote { slice_index text.now at ≡ 34 }
    ensures { IfSome result (λ r. HasLexeme text.now at (token (string (string_bytes r.0))) r.1) }
{
    let end = string_end(text, at + 1)?;
    let mut reader = Reader::new(&text[at..end], scratch).ok()?;
    match reader.next() {
        Some(Token::String(string)) => Some((String::from_str(alloc, string).ok()?, end)),
        _ => None,
    }
}

/// Where the text goes on behind the string whose content begins at an offset.
fn string_end(text: &str, from: usize) -> Option<usize>
    ensures passed { IfSome result
        (λ end. lex in_string (drop from text.now) ≡ lex between (drop end text.now)) }
    ensures quote { IfSome result (λ end. slice_index text.now (end - 1) ≡ 34) }
    ensures bounds { IfSome result (λ end. (from < end) × (end ≤ length text.now)) }
{
    let bytes = text.as_bytes();
    let mut at = from;
    while at < bytes.len() {
        if bytes[at] == b'"' {
            return Some(at + 1);
        }
        if bytes[at] == b'\\' {
            at += 2;
        } else {
            at += 1;
        }
    }
    None
}
