use crate::reading::COMPANY;
use given_outside::texts;
use given_parts::bytes::{Pieces, joined};
use given_parts::documents::parse;
use given_parts::{all_told, told};
use key_spec::{Context, KeyPath, Spec, SpecFault};
use std::alloc::{AllocError, Global};
use std::test::Fail;

const COMPANY_TEXT: &[u8] = b"(/, (db, {}))
(/db, (dept, {name}))
(/db/dept, (emp, {fn, ln}))
(/db/dept, (name, {}))
(/db/dept/emp, (fn, {}))
(/db/dept/emp, (ln, {}))
(/db/dept/emp, (sal, {}))
(/db/dept/emp, (tel, {.}))
";

/// A text, and the canonical text of what it specifies.
const CANONICAL: &[(&str, &[u8], &[u8])] = &[
    ("the company", COMPANY, COMPANY_TEXT),
    ("the canonical company", COMPANY_TEXT, COMPANY_TEXT),
    // A carriage return belongs to the end of a line.
    (
        "blanks and carriage returns",
        b"\r\n (\t/ ,(db , { } ) ) \r\n(/db, (e, {@id}))\r",
        b"(/, (db, {}))\n(/db, (e, {@id}))\n",
    ),
];

fn has_text(alloc: Global, spec: &Spec, wanted: &[u8]) -> bool {
    match spec.text(alloc) {
        Ok(text) => text.as_bytes() == wanted,
        Err(_) => false,
    }
}

/// What is asked of a specification.
#[derive(Clone, Copy)]
enum Asked<'a> {
    /// Whether this is its canonical text.
    Text(&'a [u8]),
    /// Whether the company's rules are found.
    Rules,
    /// Whether a walk goes past a name of 200,000 bytes.
    LongWalk,
}

fn answers(alloc: Global, spec: &Spec, asked: Asked<'_>) -> bool {
    match asked {
        Asked::Text(wanted) => has_text(alloc, spec, wanted),
        Asked::Rules => are_found(alloc, spec),
        Asked::LongWalk => is_long_walk(alloc, spec),
    }
}

fn is_so(alloc: Global, text: &[u8], asked: Asked<'_>) -> bool {
    match parse(alloc, text) {
        Some(spec) => answers(alloc, &spec, asked),
        None => false,
    }
}

#[test]
fn specifications_have_their_canonical_texts(rt: HostRuntime) -> Result<(), Fail> {
    for (name, text, wanted) in CANONICAL {
        told(is_so(rt.alloc(), text, Asked::Text(wanted)), name)?;
    }
    told(COMPANY_TEXT.len() == 190, "the company's length")
}

/// A text, and the line and why of its fault, or no line and no why.
const FAULTS: &[(&[u8], (u32, u8))] = &[
    (b"(/, (db, {})", (1, 1)),
    (b"(/db, (a, {}))", (1, 2)),
    (b"(/, (db, {}))\n(/, (db, {}))", (2, 3)),
    (b"(/, (db, {a, a}))", (1, 4)),
    (b"(/, (db, {a}))\n(/db, (a, {b}))", (2, 5)),
    (b"(/, (db, {a}))\n(/db/a, (c, {}))", (2, 6)),
    (b"(/, (db, {a/b/c/d/e/f/g/h/i}))", (1, 7)),
    // A key for an implied rule is refused also before the line that implies it.
    (
        b"(/, (db, {}))\n(/db/x, (a, {b}))\n(/db, (x, {a/c}))",
        (2, 5),
    ),
    // The first pass comes before the second.
    (b"(/db, (a, {}))\n(/, (db, {a, a}))", (2, 4)),
    // A comment may hold any bytes.
    (b" \t# \xff\xfe\n(/, (db, {}))\n", (0, 0)),
    (b"(/, (d\xff, {}))\n", (1, 1)),
    (b"(/, (db, {}))\r\r\n", (1, 1)),
    // A dot stands alone.
    (b"(/, (db, {.}))", (0, 0)),
    (b"(/, (db, {., a}))", (1, 4)),
    (b"(/, (., {}))", (1, 1)),
    (b"(/, (db, {./a}))", (1, 1)),
    (b"(/, (db, {a/@b, @b, a/b}))", (0, 0)),
    // Blanks stand between tokens only.
    (b"(/, (db, {}))\n(/db /a, (b, {}))", (2, 1)),
    (b"(/, (db, {a,}))", (1, 1)),
    (b"(/, (db, {})) x", (1, 1)),
    // Sixteen key paths of eight tags are enough.
    (
        b"(/, (db, {a0, a1, a2, a3, a4, a5, a6, a7, a8, a9, a10, a11, a12, a13, a14, a15}))\n",
        (0, 0),
    ),
    (
        b"(/, (db, {a0, a1, a2, a3, a4, a5, a6, a7, a8, a9, a10, a11, a12, a13, a14, a15, a16}))\n",
        (1, 7),
    ),
    (b"(/, (db, {a/b/c/d/e/f/g/h/@i}))", (0, 0)),
];

fn fault_in(found: &Result<Spec, SpecFault>) -> Option<(u32, u8)> {
    match found {
        Ok(_) => Some((0, 0)),
        Err(SpecFault::Bad { line, why }) => Some((*line, *why)),
        Err(_) => None,
    }
}

fn fault(alloc: Global, text: &[u8]) -> Option<(u32, u8)> {
    if text.len() > 1_048_576 {
        return None;
    }
    let found = Spec::parse(alloc, text);
    fault_in(&found)
}

/// The first row of another fault.
fn first_other(alloc: Global, rows: &[(&[u8], (u32, u8))]) -> Option<usize> {
    for (index, (text, wanted)) in rows.iter().enumerate() {
        if fault(alloc, text) != Some(*wanted) {
            return Some(index);
        }
    }
    None
}

#[test]
fn each_fault_has_its_line_and_why(rt: HostRuntime) {
    let other = first_other(rt.alloc(), FAULTS);
    assert!(rt; other.is_none(), "text {other:?}");
}

/// A rule of a long tag, which stands in the rules of its three key paths, too; and the fault.
const LONG: &[(&str, Pieces, (u32, u8))] = &[
    (
        "a canonical text of less than a mebibyte",
        &[(TAG, 1), (LETTERS, 25_000), (KEY_PATHS, 1)],
        (0, 0),
    ),
    (
        "a canonical text of more than a mebibyte",
        &[(TAG, 1), (LETTERS, 40_000), (KEY_PATHS, 1)],
        (0, 7),
    ),
];

const TAG: &[u8] = b"(/, (db, {}))\n(/db, (";

const LETTERS: &[u8] = b"abcdefghij";

const KEY_PATHS: &[u8] = b", {k, l, m}))\n";

fn is_long_fault(alloc: Global, text: Pieces, wanted: (u32, u8)) -> bool {
    match joined(alloc, text) {
        Ok(text) => fault(alloc, &text) == Some(wanted),
        Err(_) => false,
    }
}

#[test]
fn a_canonical_text_has_at_most_a_mebibyte(rt: HostRuntime) -> Result<(), Fail> {
    for (name, text, wanted) in LONG {
        told(is_long_fault(rt.alloc(), text, *wanted), name)?;
    }
    Ok(())
}

/// A rule with a key, 4,094 rules below it, and this line.
fn with_rules(alloc: Global, last: &str) -> Result<String, AllocError> {
    let mut text = String::from_str(alloc, "(/, (r, {k}))\n")?;
    for i in 0..4094 {
        text.push_str(format!(in alloc; "(/r, (t{i}, {{}}))\n")?.as_str())?;
    }
    text.push_str(last)?;
    Ok(text)
}

fn fault_of_many(alloc: Global, last: &str) -> Option<(u32, u8)> {
    match with_rules(alloc, last) {
        Ok(text) => fault(alloc, text.as_bytes()),
        Err(_) => None,
    }
}

/// Whether the frontier is at this context, or not.
fn is_frontier(alloc: Global, spec: &Spec, context: &[&str], wanted: bool) -> bool {
    match texts(alloc, context) {
        Ok(context) => spec.is_frontier(&context) == wanted,
        Err(_) => false,
    }
}

fn is_path(alloc: Global, path: &KeyPath, text: &str) -> bool {
    match path.text(alloc) {
        Ok(found) => found.as_str() == text,
        Err(_) => false,
    }
}

fn are_two(alloc: Global, paths: &[KeyPath], first: &str, second: &str) -> bool {
    match paths {
        [one, other] => is_path(alloc, one, first) && is_path(alloc, other, second),
        _ => false,
    }
}

/// Whether the employees' rule has these key paths, and a salary none.
fn are_rules(alloc: Global, spec: &Spec, dept: &[String], first: &str, second: &str) -> bool {
    match (spec.rule(dept, "sal"), spec.rule(dept, "emp")) {
        (None, Some(rule)) => are_two(alloc, rule.paths.as_slice(), first, second),
        _ => false,
    }
}

fn are_paths(alloc: Global, spec: &Spec, first: &str, second: &str) -> bool {
    match texts(alloc, &["db", "dept"]) {
        Ok(dept) => are_rules(alloc, spec, &dept, first, second),
        Err(_) => false,
    }
}

/// A rule of the company with two key paths, and where the frontier is.
fn are_found(alloc: Global, spec: &Spec) -> bool {
    spec.rules().len() == 8
        && are_paths(alloc, spec, "fn", "ln")
        && is_frontier(alloc, spec, &["db", "dept", "emp", "tel"], true)
        && is_frontier(alloc, spec, &["db", "dept"], false)
}

#[test]
fn rules_are_found_by_context_and_tag(rt: HostRuntime) -> Result<(), Fail> {
    told(is_so(rt.alloc(), COMPANY, Asked::Rules), "rules")
}

/// What is shown, tags on the way down from the root, and whether the frontier is there, if all have rules.
type Walk = (&'static str, &'static [&'static str], Option<bool>);

const WALKS: &[Walk] = &[
    ("the root", &[], Some(false)),
    ("no rule below the root", &["dept"], None),
    ("the root element", &["db"], Some(false)),
    ("a tag that has a rule elsewhere", &["db", "emp"], None),
    ("an inner element", &["db", "dept", "emp"], Some(false)),
    ("an implied rule", &["db", "dept", "name"], Some(true)),
    ("below the frontier", &["db", "dept", "name", "name"], None),
    (
        "another implied rule",
        &["db", "dept", "emp", "ln"],
        Some(true),
    ),
    ("the last rule", &["db", "dept", "emp", "tel"], Some(true)),
];

/// Whether the frontier is where the tags lead.
fn frontier_below(context: Context<'_>, tags: &[&str]) -> Option<bool> {
    let mut place = context;
    for tag in tags {
        let (_, inside) = place.rule(tag)?;
        place = inside;
    }
    Some(place.is_frontier())
}

fn are_walks(spec: &Spec, walks: &[Walk]) -> Result<(), Fail> {
    for (name, tags, wanted) in walks {
        told(frontier_below(spec.root(), tags) == *wanted, name)?;
    }
    Ok(())
}

fn are_walks_by(alloc: Global, text: &[u8], walks: &[Walk]) -> Result<(), Fail> {
    match parse(alloc, text) {
        Some(spec) => are_walks(&spec, walks),
        None => Err(Fail::new("no specification")),
    }
}

#[test]
fn a_walk_goes_down_the_rules(rt: HostRuntime) -> Result<(), Fail> {
    are_walks_by(rt.alloc(), COMPANY, WALKS)
}

/// A rule, a hundred rules below it, and one below the 78th.
fn with_many(alloc: Global) -> Result<String, AllocError> {
    let mut text = String::from_str(alloc, "(/, (r, {}))\n(/r/t77, (u, {}))\n")?;
    for i in 0..100 {
        text.push_str(format!(in alloc; "(/r, (t{i}, {{}}))\n")?.as_str())?;
    }
    Ok(text)
}

const MANY_WALKS: &[Walk] = &[
    ("the first of many", &["r", "t0"], Some(true)),
    ("one of many", &["r", "t78"], Some(true)),
    ("one with a rule below it", &["r", "t77"], Some(false)),
    ("the rule below it", &["r", "t77", "u"], Some(true)),
    ("that rule below another", &["r", "t78", "u"], None),
    ("the last of many", &["r", "t99"], Some(true)),
    ("behind the last", &["r", "t999"], None),
];

#[test]
fn a_walk_finds_one_of_many_rules(rt: HostRuntime) -> Result<(), Fail> {
    match with_many(rt.alloc()) {
        Ok(text) => are_walks_by(rt.alloc(), text.as_bytes(), MANY_WALKS),
        Err(_) => Err(Fail::new("no memory")),
    }
}

/// Three rules, one below the other, of which the second has a name of 200,000 bytes.
const LONG_NAME: Pieces = &[
    (b"(/, (r, {}))\n(/r, (", 1),
    (LETTERS, 20_000),
    (b", {}))\n(/r/", 1),
    (LETTERS, 20_000),
    (b", (u, {}))\n", 1),
];

fn is_long_walk(alloc: Global, spec: &Spec) -> bool {
    match joined(alloc, &[(LETTERS, 20_000)]) {
        Ok(bytes) => match str::from_utf8(&bytes) {
            Ok(name) => frontier_below(spec.root(), &["r", name, "u"]) == Some(true),
            Err(_) => false,
        },
        Err(_) => false,
    }
}

fn is_long_name_passed(alloc: Global) -> bool {
    match joined(alloc, LONG_NAME) {
        Ok(text) => is_so(alloc, &text, Asked::LongWalk),
        Err(_) => false,
    }
}

fn key_path(alloc: Global, tags: &[&str], attr: &str) -> Result<KeyPath, AllocError> {
    let attr = Some(String::from_str(alloc, attr)?);
    let tags = texts(alloc, tags)?;
    Ok(KeyPath { tags, attr })
}

fn is_path_text(alloc: Global, tags: &[&str], attr: &str, text: &str) -> bool {
    match key_path(alloc, tags, attr) {
        Ok(path) => is_path(alloc, &path, text),
        Err(_) => false,
    }
}

/// Whether faults are equal by their numbers.
fn are_faults_equal(fault: SpecFault) -> bool {
    fault == SpecFault::Bad { line: 3, why: 1 }
        && fault != SpecFault::Bad { line: 3, why: 2 }
        && fault != SpecFault::Bad { line: 1, why: 1 }
        && fault != SpecFault::Memory
}

#[test]
fn faults_lengths_and_key_paths(rt: HostRuntime) -> Result<(), Fail> {
    let alloc = rt.alloc();
    all_told(&[
        (
            "4,096 closed rules",
            fault_of_many(alloc, "") == Some((0, 0)),
        ),
        (
            "one rule more",
            fault_of_many(alloc, "(/r, (last, {}))") == Some((0, 7)),
        ),
        ("a walk past a long name", is_long_name_passed(alloc)),
        (
            "a key path as it is read",
            is_path_text(alloc, &["a", "b"], "c", "a/b/@c"),
        ),
        (
            "faults of the same numbers",
            are_faults_equal(SpecFault::Bad { line: 3, why: 1 }),
        ),
    ])
}
