ghost use Rattle.jsonml_tree.specs.Fits.{IsElement};
ghost use Rattle.jsonml_tree.specs.View.{tree_view};

use crate::asked::{Asked, is_content, is_so};
use given_parts::bytes::{Pieces, joined};
use given_parts::documents::{lend, read};
use given_parts::{all_told, told};
use jsonml_text::{DocFault, Printer, content_of, read_document, scalar_of, write_tree};
use jsonml_tree::{Content, Scalar, Tree};
use serde_json::Value;
use std::alloc::{AllocError, Global};
use std::test::Fail;
use xa_outside::{Failed, MemSink};

/// A text of more than a mebibyte.
const LETTERS: (&[u8], usize) = (
    b"0123456789012345678901234567890123456789012345678901234567890123",
    17_000,
);

/// More items than two bytes count.
const ITEMS: (&[u8], usize) = (b",\"\"", 66_000);

/// 65 attributes.
const ATTRIBUTES: &[u8] = b"{\"a\":0,\
    \"b00\":\"x\",\"b01\":\"x\",\"b02\":\"x\",\"b03\":\"x\",\"b04\":\"x\",\"b05\":\"x\",\"b06\":\"x\",\"b07\":\"x\",\
    \"b10\":\"x\",\"b11\":\"x\",\"b12\":\"x\",\"b13\":\"x\",\"b14\":\"x\",\"b15\":\"x\",\"b16\":\"x\",\"b17\":\"x\",\
    \"b20\":\"x\",\"b21\":\"x\",\"b22\":\"x\",\"b23\":\"x\",\"b24\":\"x\",\"b25\":\"x\",\"b26\":\"x\",\"b27\":\"x\",\
    \"b30\":\"x\",\"b31\":\"x\",\"b32\":\"x\",\"b33\":\"x\",\"b34\":\"x\",\"b35\":\"x\",\"b36\":\"x\",\"b37\":\"x\",\
    \"b40\":\"x\",\"b41\":\"x\",\"b42\":\"x\",\"b43\":\"x\",\"b44\":\"x\",\"b45\":\"x\",\"b46\":\"x\",\"b47\":\"x\",\
    \"b50\":\"x\",\"b51\":\"x\",\"b52\":\"x\",\"b53\":\"x\",\"b54\":\"x\",\"b55\":\"x\",\"b56\":\"x\",\"b57\":\"x\",\
    \"b60\":\"x\",\"b61\":\"x\",\"b62\":\"x\",\"b63\":\"x\",\"b64\":\"x\",\"b65\":\"x\",\"b66\":\"x\",\"b67\":\"x\",\
    \"b70\":\"x\",\"b71\":\"x\",\"b72\":\"x\",\"b73\":\"x\",\"b74\":\"x\",\"b75\":\"x\",\"b76\":\"x\",\"b77\":\"x\"}";

const LENT: &[u8] =
    b"[\"db\",{\"a\":\"x\\ty\"},\"\\\"one\\\"\",[\"e\",\"plain\"],[\"f\",{\"n\":-7},[\"g\"],\"two\",[\"h\",\"\\n\"]]]";

const ESCAPED: &[u8] =
    b"[\"a\",\"\\u0000\\u0007\\b\\t\\n\\u000b\\f\\r\\u001f\",\"\\\"\\\\/\x7f\xc3\xa9\"]";

const WORDS: &[u8] =
    b"[\"a\",{\"f\":false,\"g\":18446744073709551615,\"l\":-9223372036854775808,\"n\":null,\"t\":true}]";

/// An object with a name twice is read by way of a JSON value, and the last value stays.
const TWICE: &[u8] = b"[\"db\",{\"a\":1,\"a\":2}";

/// A document, and what is printed of it.
const PRINTED: &[(&str, Pieces, Pieces)] = &[
    (
        "no blanks",
        &[(
            b" [ \"db\" , { \"b\" : 1 , \"a\" : \"x\" } , [ \"e\" ] , \"t\" ]\n",
            1,
        )],
        &[(b"[\"db\",{\"a\":\"x\",\"b\":1},[\"e\"],\"t\"]", 1)],
    ),
    ("all kinds of items", &[(LENT, 1)], &[(LENT, 1)]),
    (
        "names of attributes with escapes",
        &[(b"[\"a\",{\"\\u006e\":1,\"m\\n\":\"x\"}]", 1)],
        &[(b"[\"a\",{\"m\\n\":\"x\",\"n\":1}]", 1)],
    ),
    (
        "one line feed at the end is left out",
        &[(b"[\"db\"]\n", 1)],
        &[(b"[\"db\"]", 1)],
    ),
    (
        "depth 120 is accepted",
        &[(b"[\"db\"", 1), (b",[\"a\"", 119), (b"]", 120)],
        &[(b"[\"db\"", 1), (b",[\"a\"", 119), (b"]", 120)],
    ),
    (
        "control characters, quotes and backslashes are escaped",
        &[(ESCAPED, 1)],
        &[(ESCAPED, 1)],
    ),
    (
        "attributes are whole numbers of 64 bits and words",
        &[(WORDS, 1)],
        &[(WORDS, 1)],
    ),
    (
        "an empty object is no attributes",
        &[(b"[\"db\",{},\"a\"]", 1)],
        &[(b"[\"db\",\"a\"]", 1)],
    ),
    (
        "the empty text is an item",
        &[(b"[\"db\",\"\",\"a\"]", 1)],
        &[(b"[\"db\",\"\",\"a\"]", 1)],
    ),
    (
        "a document above a mebibyte",
        &[(b"[\"db\",\"", 1), LETTERS, (b"\"]", 1)],
        &[(b"[\"db\",\"", 1), LETTERS, (b"\"]", 1)],
    ),
    (
        "a large document in a rare form",
        &[(TWICE, 1), (b",\"", 1), LETTERS, (b"\"]", 1)],
        &[(b"[\"db\",{\"a\":2},\"", 1), LETTERS, (b"\"]", 1)],
    ),
    (
        "more items than two bytes count",
        &[(b"[\"db\"", 1), ITEMS, (b"]", 1)],
        &[(b"[\"db\"", 1), ITEMS, (b"]", 1)],
    ),
    (
        "as many in a rare form",
        &[(TWICE, 1), ITEMS, (b"]", 1)],
        &[(b"[\"db\",{\"a\":2}", 1), ITEMS, (b"]", 1)],
    ),
    (
        "65 attributes",
        &[(b"[\"db\",", 1), (ATTRIBUTES, 1), (b",\"y\"]", 1)],
        &[(b"[\"db\",", 1), (ATTRIBUTES, 1), (b",\"y\"]", 1)],
    ),
];

/// Whether this is written of a tree.
fn is_put(sink: &mut MemSink, tree: &Tree, text: &[u8]) -> bool
    requires { IsElement (tree_view tree.now) }
{
    write_tree(tree, sink).is_ok() && text == sink.taken()
}

fn is_written(alloc: Global, tree: &Tree, text: Pieces) -> bool
    requires { IsElement (tree_view tree.now) }
{
    let mut sink = MemSink::new(alloc, Vec::new(alloc));
    match joined(alloc, text) {
        Ok(text) => is_put(&mut sink, tree, text.as_slice()),
        Err(_) => false,
    }
}

/// Whether both ways to read a document give one tree, and this is printed of it.
fn is_read_and_written(alloc: Global, document: &[u8], text: Pieces) -> bool {
    match read(alloc, document) {
        Some(tree) => {
            let lent = lend(alloc, document);
            is_so(alloc, lent, Asked::Owns(&tree)) && is_written(alloc, &tree, text)
        }
        None => false,
    }
}

fn is_printed(alloc: Global, document: Pieces, text: Pieces) -> bool {
    match joined(alloc, document) {
        Ok(document) => is_read_and_written(alloc, &document, text),
        Err(_) => false,
    }
}

#[test]
fn documents_are_printed(rt: HostRuntime) -> Result<(), Fail> {
    for (name, document, text) in PRINTED {
        told(is_printed(rt.alloc(), document, text), name)?;
    }
    Ok(())
}

/// What is wrong with a document.
enum Wrong {
    /// No tree: the place and why.
    Misshapen(&'static [u32], u8),
    /// Too deep at this place.
    Deep(&'static [u32]),
    Json,
}

const WRONG: &[(&str, &[u8], Wrong)] = &[
    (
        "an element without a tag",
        b"[\"db\",[]]",
        Wrong::Misshapen(&[1], 1),
    ),
    (
        "a tag that is a number",
        b"[\"db\",[5]]",
        Wrong::Misshapen(&[1], 2),
    ),
    (
        "attributes behind an item",
        b"[\"db\",{\"a\":\"x\"},{}]",
        Wrong::Misshapen(&[1], 3),
    ),
    (
        "an attribute that is an array",
        b"[\"db\",{\"a\":[]}]",
        Wrong::Misshapen(&[], 4),
    ),
    (
        "an attribute that is a fraction",
        b"[\"db\",{\"a\":1.5}]",
        Wrong::Misshapen(&[], 5),
    ),
    ("a text alone", b"\"db\"", Wrong::Misshapen(&[], 6)),
    ("attributes alone", b"{}", Wrong::Misshapen(&[], 3)),
    (
        "the first fault in preorder",
        b"[\"db\",{},\"x\",[\"e\",[\"f\",null]],[]]",
        Wrong::Misshapen(&[2, 1, 1], 3),
    ),
    ("half an array", b"[", Wrong::Json),
];

/// Whether a fault lies at the first item of the first item and so on, or wherever it should.
fn is_wrong(found: &Result<Tree, DocFault>, wrong: &Wrong) -> bool {
    match (found, wrong) {
        (Err(DocFault::BadShape { place, why }), Wrong::Misshapen(steps, code)) => {
            place.steps.as_slice() == *steps && *why == *code
        }
        (Err(DocFault::TooDeep { place }), Wrong::Deep(steps)) => {
            place.steps.as_slice() == *steps
        }
        (Err(DocFault::BadJson), Wrong::Json) => true,
        _ => false,
    }
}

fn is_read_as_wrong(alloc: Global, document: &[u8], wrong: &Wrong) -> bool {
    if document.len() > 10_000 {
        return false;
    }
    is_wrong(&read_document(alloc, document), wrong)
}

#[test]
fn faults_have_their_place_and_why(rt: HostRuntime) -> Result<(), Fail> {
    for (name, document, wrong) in WRONG {
        told(is_read_as_wrong(rt.alloc(), document, wrong), name)?;
    }
    Ok(())
}

/// The document of depth 121.
const DEEP: Pieces = &[(b"[\"db\"", 1), (b",[\"a\"", 120), (b"]", 121)];

fn is_too_deep(alloc: Global, document: Pieces, wrong: &Wrong) -> bool {
    match joined(alloc, document) {
        Ok(document) => is_read_as_wrong(alloc, &document, wrong),
        Err(_) => false,
    }
}

fn is_lent_printed(alloc: Global) -> bool {
    is_so(alloc, lend(alloc, LENT), Asked::Prints(LENT))
}

/// What a JSON value is.
enum Meant {
    /// The scalar 3.
    Three,
    NoScalar,
    /// An array whose values are the content of this text.
    Content(&'static str),
    /// An array whose values are no content.
    NoContent,
}

const VALUES: &[(&str, &str, Meant)] = &[
    ("a number", "3", Meant::Three),
    ("an array", "[]", Meant::NoScalar),
    (
        "an array of a text",
        "[\"finance\"]",
        Meant::Content("finance"),
    ),
    ("an array of a number", "[5]", Meant::NoContent),
    ("an element without a tag", "[[]]", Meant::NoContent),
    ("attributes behind an item", "[\"x\",{}]", Meant::NoContent),
    ("a fraction", "[{\"a\":1.5}]", Meant::NoContent),
    ("a null", "[null]", Meant::NoContent),
];

/// Whether a scalar was found, the number 3, or none.
fn is_three(found: &Result<Option<Scalar>, AllocError>, wanted: bool) -> bool {
    match found {
        Ok(Some(scalar)) => wanted && *scalar == Scalar::Whole(3),
        Ok(None) => !wanted,
        Err(_) => false,
    }
}

/// Whether a content was found, of this text, or none.
fn is_of_text(
    alloc: Global,
    found: &Result<Option<Content>, AllocError>,
    text: Option<&str>,
) -> bool {
    match (found, text) {
        (Ok(Some(content)), Some(text)) => is_content(Content::of_text(alloc, text), content),
        (Ok(None), None) => true,
        _ => false,
    }
}

fn is_value(alloc: Global, value: &Value, meant: &Meant) -> bool {
    match (value, meant) {
        (_, Meant::Three) => is_three(&scalar_of(alloc, value), true),
        (_, Meant::NoScalar) => is_three(&scalar_of(alloc, value), false),
        (Value::Array(values), Meant::Content(text)) => {
            is_of_text(alloc, &content_of(alloc, values), Some(text))
        }
        (Value::Array(values), Meant::NoContent) => {
            is_of_text(alloc, &content_of(alloc, values), None)
        }
        _ => false,
    }
}

fn is_meant(alloc: Global, text: &str, meant: &Meant) -> bool {
    match Value::from_str(alloc, text) {
        Ok(value) => is_value(alloc, &value, meant),
        Err(_) => false,
    }
}

#[test]
fn values_are_scalars_contents_or_neither(rt: HostRuntime) -> Result<(), Fail> {
    for (name, text, meant) in VALUES {
        told(is_meant(rt.alloc(), text, meant), name)?;
    }
    Ok(())
}

/// What two elements in one another print by single calls.
fn print_by_calls(sink: &mut MemSink) -> Result<(), Failed> {
    let mut printer = Printer::new();
    printer.begin_elem(sink, "db")?;
    printer.attr(sink, "a", &Scalar::Whole(-1))?;
    printer.attr(sink, "b", &Scalar::Null)?;
    printer.text(sink, "x")?;
    printer.begin_elem(sink, "e")?;
    printer.end_elem(sink)?;
    printer.end_elem(sink)
}

fn are_calls_printed(alloc: Global) -> bool {
    let mut sink = MemSink::new(alloc, Vec::new(alloc));
    let is_printed = print_by_calls(&mut sink).is_ok();
    is_printed && sink.taken() == b"[\"db\",{\"a\":-1,\"b\":null},\"x\",[\"e\"]]".as_slice()
}

/// Whether a write that fails leaves what was written before.
fn is_prefix_left(sink: &mut MemSink, tree: &Tree) -> bool
    requires { IsElement (tree_view tree.now) }
{
    write_tree(tree, sink).is_err() && sink.taken() == b"[\"db".as_slice()
}

/// Whether that is so where the sink fails at its third write.
fn is_prefix_of(alloc: Global, document: &[u8], fails: Vec<u64>) -> bool {
    let mut sink = MemSink::new(alloc, fails);
    match read(alloc, document) {
        Some(tree) => is_prefix_left(&mut sink, &tree),
        None => false,
    }
}

fn is_third_write_failed(alloc: Global) -> bool {
    match vec![in alloc; 3] {
        Ok(fails) => is_prefix_of(alloc, b"[\"db\",[\"e\"]]", fails),
        Err(_) => false,
    }
}

#[test]
fn documents_are_printed_call_by_call_and_cut_off(rt: HostRuntime) -> Result<(), Fail> {
    let alloc = rt.alloc();
    all_told(&[
        (
            "depth 121",
            is_too_deep(alloc, DEEP, &Wrong::Deep(&[1; 120])),
        ),
        ("a lent content between calls", is_lent_printed(alloc)),
        ("a list of calls", are_calls_printed(alloc)),
        (
            "a write that fails leaves a prefix",
            is_third_write_failed(alloc),
        ),
    ])
}
