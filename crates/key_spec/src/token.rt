// The tokens of a line, taken off one by one.
ghost use Rattle.std.specs.Prelude.{◌≡◌, ◌≤◌, option_map, option_and_then, length, drop, true};
ghost use Rattle.std.specs.List.{prefix_len};
ghost use Rattle.key_spec.specs.Lines.{is_blank};
ghost use Rattle.key_spec.specs.Form.{tokens, behind, first_word, is_sign, is_word_byte};

use crate::line::is_blank;

/// What stands behind this sign, where it is the next token.
pub(crate) fn behind(line: &str, sign: char) -> Option<&str>
    requires { is_sign sign ≡ true }
    ensures { option_map (λ rest. tokens rest.now) result ≡ behind sign (tokens line.now) }
{
    trimmed(line).strip_prefix(sign)
}

/// What stands behind these two signs, where they are the next two tokens.
pub(crate) fn behind_both(line: &str, first: char, second: char) -> Option<&str>
    requires first { is_sign first ≡ true }
    requires second { is_sign second ≡ true }
    ensures { option_map (λ rest. tokens rest.now) result
        ≡ option_and_then (behind second) (behind first (tokens line.now)) }
{
    behind(behind(line, first)?, second)
}

/// The next token and what stands behind it, where it is a word.
pub(crate) fn first_word(line: &str) -> Option<(&str, &str)>
    ensures { option_map (λ r. (r.0.now, tokens r.1.now)) result ≡ first_word (tokens line.now) }
{
    let line = trimmed(line);
    let end = word_len(line.as_bytes());
    if end == 0 {
        return None;
    }
    Some((&line[..end], &line[end..]))
}

/// What stands behind the blanks at the front.
pub(crate) fn trimmed(line: &str) -> &str
    ensures { result.now ≡ drop (prefix_len is_blank line.now) line.now }
{
    let blanks = blank_len(line.as_bytes());
    &line[blanks..]
}

fn blank_len(bytes: &[u8]) -> usize
    ensures count { result ≡ prefix_len is_blank bytes.now }
    ensures within { result ≤ length bytes.now }
{
    for (i, b) in bytes.iter().enumerate() {
        if !is_blank(*b) {
            return i;
        }
    }
    bytes.len()
}

fn word_len(bytes: &[u8]) -> usize
    ensures count { result ≡ prefix_len is_word_byte bytes.now }
    ensures within { result ≤ length bytes.now }
{
    for (i, b) in bytes.iter().enumerate() {
        if !is_word_byte(*b) {
            return i;
        }
    }
    bytes.len()
}

fn is_word_byte(b: u8) -> bool
    ensures { result ≡ is_word_byte b }
{
    !is_blank(b) && !matches!(b, b'(' | b')' | b'{' | b'}' | b',')
}
