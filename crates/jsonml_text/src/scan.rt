ghost use Rattle.std.specs.Prelude.{◌≡◌, ◌⊎◌, ◌+◌, ◌≤◌, ◌||◌, length, drop, IsTrue, false};
ghost use Rattle.json.specs.Lex.{begins_colon, operator_lexeme};
ghost use Rattle.json.specs.Word.{ends_word, is_operator, is_space};
ghost use Rattle.jsonml_text.specs.Straight.{lexemes, HasLexeme};

fn is_blank(byte: u8) -> bool
    ensures { result ≡ is_space byte }
{
    byte == b' ' || byte == b'\t' || byte == b'\n' || byte == b'\r'
}

/// Where the text goes on behind blanks.
pub(crate) fn skip_blanks(text: &str, from: usize) -> usize
    requires { from ≤ length text.now }
    ensures same { lexemes text.now result ≡ lexemes text.now from }
    ensures later { from ≤ result }
    ensures within { result ≤ length text.now }
{
    let bytes = text.as_bytes();
    let mut at = from;
    while at < bytes.len() && is_blank(bytes[at]) {
        at += 1;
    }
    at
}

/// Whether this bracket, brace, comma or colon stands at the offset.
pub(crate) fn is_sign(text: &str, at: usize, sign: u8) -> bool
    requires { IsTrue (is_operator sign) }
    ensures { IsTrue result → HasLexeme text.now at (operator_lexeme sign) (at + 1) }
{
    let bytes = text.as_bytes();
    at < bytes.len() && bytes[at] == sign
}

/// Whether a comma, or the sign that closes the array or the object, stands at the offset.
pub(crate) fn ends_value(text: &str, at: usize, close: u8) -> bool
    requires { (close ≡ 93) ⊎ (close ≡ 125) }
    ensures { IsTrue result → begins_colon (lexemes text.now at) ≡ false }
{
    is_sign(text, at, b',') || is_sign(text, at, close)
}

fn is_delimiter(byte: u8) -> bool
    ensures { result ≡ (is_operator byte || is_space byte) }
{
    matches!(byte, b'{' | b'}' | b'[' | b']' | b':' | b',') || is_blank(byte)
}

/// Where the word that begins at an offset ends: at a sign, at a blank, or with the text.
pub(crate) fn word_end(text: &str, from: usize) -> usize
    requires { from ≤ length text.now }
    ensures ended { IsTrue (ends_word (drop result text.now)) }
    ensures later { from ≤ result }
    ensures within { result ≤ length text.now }
{
    let bytes = text.as_bytes();
    let mut at = from;
    while at < bytes.len() && !is_delimiter(bytes[at]) {
        at += 1;
    }
    at
}
