// How long the documents of tables are.
ghost use Rattle.std.specs.Prelude.{◌≡◌, ◌+◌, length};
ghost use Rattle.json.specs.Print.{escape_byte};
ghost use Rattle.jsonml_print.specs.Printed.{document_text};
ghost use Rattle.key_spec.specs.View.{names_view};
ghost use Rattle.csv_tables.specs.Documents.{table_tree};
ghost use Rattle.csv_tables.specs.Lengths.{at_most, quoted_size, sizes, frame};
ghost use Rattle.csv_tables.specs.Records.{IsRegular};
ghost use Rattle.csv_tables.specs.View.{table_view};

use crate::table::Table;

/// How many bytes the printed document of the table has, with its line feed, or 2^128 - 1 where there are more.
///
/// It takes no memory, prints nothing, and looks at each byte of the table once.
pub fn text_length(table: &Table, tag: &str) -> u128
    requires { IsRegular (table_view table.now) }
    ensures { result
        ≡ at_most (length (document_text (table_tree (table_view table.now) tag.now))) }
{
    let row = row_frame(&table.heading);
    let mut length = sum(quoted_length(tag), 3);
    for fields in &table.rows {
        length = sum(length, sum(row, texts_length(fields)));
    }
    length
}

/// The bytes of a row besides its fields: the comma in front, its brackets and its tag, and where it
/// has columns a comma, the braces, and for each column its name, a colon, and a comma for all but one.
fn row_frame(heading: &[String]) -> u128
    ensures { result ≡ at_most (frame (names_view heading.now)) }
{
    match heading {
        [] => 8,
        _ => sum(texts_length(heading), 10 + 2 * heading.len() as u128),
    }
}

fn texts_length(texts: &[String]) -> u128
    ensures { result ≡ at_most (sizes (names_view texts.now)) }
{
    let mut length = 0;
    for text in texts {
        length = sum(length, quoted_length(text.as_str()));
    }
    length
}

/// The bytes of a text as a JSON string.
fn quoted_length(text: &str) -> u128
    ensures { result ≡ at_most (quoted_size text.now) }
{
    let mut length = 2;
    for byte in text.as_bytes() {
        length = sum(length, escaped_length(*byte));
    }
    length
}

/// The bytes that stand in a string for a byte.
#[tactic(auto, unfolding(json::specs::Print::escape_byte))]
fn escaped_length(byte: u8) -> u128
    ensures { result ≡ length (escape_byte byte) }
{
    match byte {
        b'"' | b'\\' | 8 | 9 | 10 | 12 | 13 => 2,
        0..=31 => 6,
        _ => 1,
    }
}

/// The sum, or the greatest number where it is more.
fn sum(a: u128, b: u128) -> u128
    ensures { result ≡ at_most (a + b) }
{
    if a > u128::MAX - b { u128::MAX } else { a + b }
}
