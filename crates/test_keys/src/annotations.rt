use crate::keyed_trees::is_spelled;
use crate::reading::{COMPANY, keyed_of};
use given_parts::documents::parse;
use given_parts::told;
use jsonml_tree::LentTree;
use key_annotate::{LentKeyed, lent_keyed};
use key_spec::Spec;
use std::alloc::Global;
use std::borrow::CowStr;
use std::test::Fail;

const TINY: &[u8] = b"(/, (db, {}))\n";

const ROWS: &[u8] = b"(/, (db, {}))\n(/db, (row, {id}))\n(/db/row, (name, {}))\n";

const ROWS_BY_ATTRIBUTE: &[u8] = b"(/, (db, {}))\n(/db, (row, {@id}))\n(/db/row, (name, {}))\n";

const MIXED: &[u8] =
    b"(/, (db, {}))\n(/db, (a, {}))\n(/db, (c, {}))\n(/db, (m, {.}))\n(/db, (r, {k}))\n(/db, (z, {}))\n";

const IN_KEY_ORDER: &[u8] =
    br#"["db",["dept",["emp",["fn","John"],["ln","Doe"],["sal","90K"],["tel","123-4567"]],["name","finance"]]]"#;

/// A specification, a document, and the document that its keyed tree spells.
const SPELLED: &[(&str, &[u8], &[u8], &[u8])] = &[
    (
        "siblings come in key order",
        COMPANY,
        br#"["db",["dept",["emp",["tel","123-4567"],["sal","90K"],["ln","Doe"],["fn","John"]],["name","finance"]]]"#,
        IN_KEY_ORDER,
    ),
    (
        "blank strings above the frontier are dropped",
        COMPANY,
        br#"["db","\n  ",["dept","\n    ",["name","finance"],"\n    ",["emp","\n      ",["fn","John"],["ln","Doe"],["sal","90K"],["tel","123-4567"],"\n    "],"\n  "],"\n"]"#,
        IN_KEY_ORDER,
    ),
    (
        "blank strings at the frontier stay",
        TINY,
        br#"["db","","a"]"#,
        br#"["db","","a"]"#,
    ),
    (
        "an attribute above the frontier comes back",
        COMPANY,
        br#"["db",["dept",{"floor":3},["name","finance"]]]"#,
        br#"["db",["dept",{"floor":3},["name","finance"]]]"#,
    ),
    (
        "rows come in the order of their keys",
        ROWS,
        br#"["db",["row",["name","e"],["id","a key that is long 2"]],["row",["id","a key that is long 1"]],["row",["id","a\u0000"]],["row",["name","b"],["id","a"]],["row",["id",""]]]"#,
        br#"["db",["row",["id",""]],["row",["id","a"],["name","b"]],["row",["id","a\u0000"]],["row",["id","a key that is long 1"]],["row",["id","a key that is long 2"],["name","e"]]]"#,
    ),
    (
        "elements with and without key values stand in the order of their tags",
        MIXED,
        br#"["db",{"a":1},["z","1"],["m","b"],["a",["i"]],["m",{"x":1},"a"],["c","2"],["r",["k","2"]],["r",["k","1"]]]"#,
        br#"["db",{"a":1},["a",["i"]],["c","2"],["m","b"],["m",{"x":1},"a"],["r",["k","1"]],["r",["k","2"]],["z","1"]]"#,
    ),
    (
        "an attribute of a row of leaves comes back",
        ROWS_BY_ATTRIBUTE,
        br#"["db",["row",{"id":1},["name","e"]],["row",{"id":2,"x":true},["name","f"]]]"#,
        br#"["db",["row",{"id":1},["name","e"]],["row",{"id":2,"x":true},["name","f"]]]"#,
    ),
];

fn is_keyed_as(alloc: Global, spec: &[u8], doc: &[u8], plain: &[u8]) -> bool {
    match keyed_of(alloc, spec, doc) {
        Some(tree) => is_spelled(alloc, &tree, plain),
        None => false,
    }
}

#[test]
fn keyed_trees_spell_documents(rt: HostRuntime) -> Result<(), Fail> {
    for (name, spec, doc, plain) in SPELLED {
        told(is_keyed_as(rt.alloc(), spec, doc, plain), name)?;
    }
    Ok(())
}

fn has_no_kids(tree: &LentKeyed<'_, '_>) -> bool {
    match tree {
        LentKeyed::Inner { kids, .. } => kids.is_empty(),
        _ => false,
    }
}

fn is_blank_dropped(alloc: Global, spec: &Spec) -> bool {
    let doc = LentTree::Leaf {
        tag: CowStr::Borrowed("db"),
        text: CowStr::Borrowed(" "),
    };
    match lent_keyed(alloc, spec, &doc) {
        Ok(tree) => has_no_kids(&tree),
        Err(_) => false,
    }
}

fn is_blank_dropped_by(alloc: Global, text: &[u8]) -> bool {
    match parse(alloc, text) {
        Some(spec) => is_blank_dropped(alloc, &spec),
        None => false,
    }
}

#[test]
fn a_blank_text_alone_above_the_frontier_is_dropped(rt: HostRuntime) {
    assert!(rt; is_blank_dropped_by(rt.alloc(), COMPANY));
}
