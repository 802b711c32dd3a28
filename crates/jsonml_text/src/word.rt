ghost use Rattle.std.specs.Prelude.{◌≡◌, ◌≤◌, IfSome, IsTrue, length};
ghost use Rattle.std.specs.Fmt.{signed_decimal};
ghost use Rattle.jsonml_tree.specs.Data.{whole};
ghost use Rattle.jsonml_tree.specs.LentAttrs.{lent_scalar_view};
ghost use Rattle.jsonml_tree.specs.WellFormed.{is_in_range};
ghost use Rattle.jsonml_print.specs.Printed.{scalar_text};
ghost use Rattle.jsonml_text.specs.Straight.{HasScalar, is_word};

use crate::scan::{skip_blanks, word_end};
use itoa::Buffer;
use jsonml_tree::LentScalar;

/// The literal or whole number at an offset, and where the text goes on behind it and its blanks.
pub(crate) fn read_word<'a>(text: &'a str, at: usize) -> Option<(LentScalar<'a>, usize)>
    requires { at ≤ length text.now }
    ensures scalar { IfSome result (λ r. HasScalar text.now at (lent_scalar_view r.0) r.1) }
    ensures in_range { IfSome result (λ r. IsTrue (is_in_range (lent_scalar_view r.0))) }
{
    let end = word_end(text, at);
    let scalar = word_from(&text.as_bytes()[at..end])?;
    Some((scalar, skip_blanks(text, end)))
}

/// The scalar that is written so, without quotes.
fn word_from<'a>(word: &[u8]) -> Option<LentScalar<'a>>
    ensures text { IfSome result (λ x. word.now ≡ scalar_text (lent_scalar_view x)) }
    ensures word { IfSome result (λ x. IsTrue (is_word (lent_scalar_view x))) }
    ensures in_range { IfSome result (λ x. IsTrue (is_in_range (lent_scalar_view x))) }
{
    match word {
        b"null" => Some(LentScalar::Null),
        b"false" => Some(LentScalar::Bool(false)),
        b"true" => Some(LentScalar::Bool(true)),
        _ => Some(LentScalar::Whole(whole_from(word)?)),
    }
}

/// The whole number of 64 bits that is written so.
fn whole_from(word: &[u8]) -> Option<i128>
    ensures text { IfSome result (λ n. word.now ≡ signed_decimal n) }
    ensures in_range { IfSome result (λ n. IsTrue (is_in_range (whole n))) }
{
    let n = value_of(word);
    let mut buffer = Buffer::new();
    let is_written_so = buffer.format(n).as_bytes() == word;
    if is_written_so && n >= i64::MIN as i128 && n <= u64::MAX as i128 {
        Some(n)
    } else {
        None
    }
}

/// The number that these bytes write, if they write one.
fn value_of(word: &[u8]) -> i128 {
    let mut size: i128 = 0;
    for byte in word {
        if byte.is_ascii_digit() {
            size = size.wrapping_mul(10).wrapping_add((*byte - b'0') as i128);
        }
    }
    if word.starts_with(b"-") {
        size.wrapping_neg()
    } else {
        size
    }
}
