use crate::asked::{Asked, is_content, is_so, is_tree};
use given_parts::documents::{lend, read};
use given_parts::{all_told, told};
use jsonml_tree::{Content, LentContent, LentTree, Scalar, Tree};
use std::alloc::{AllocError, Global};
use std::cmp::Ordering;
use std::test::Fail;

/// Scalars, each before the next: by kind and then by value.
fn scalars(alloc: Global) -> Result<[Scalar; 6], AllocError> {
    let three = String::from_str(alloc, "3")?;
    Ok([
        Scalar::Null,
        Scalar::Bool(false),
        Scalar::Bool(true),
        Scalar::Whole(-1),
        Scalar::Whole(3),
        Scalar::Text(three),
    ])
}

fn is_same_copy(copy: Result<Scalar, AllocError>, scalar: &Scalar) -> bool {
    match &copy {
        Ok(copy) => copy.same(scalar),
        Err(_) => false,
    }
}

fn is_scalar_copied(alloc: Global, scalar: &Scalar) -> bool {
    is_same_copy(scalar.copy(alloc), scalar) && is_same_copy(scalar.lend().own(alloc), scalar)
}

fn ascend(first: &Scalar, second: &Scalar) -> bool {
    first.same(first)
        && first.order(second) == Ordering::Less
        && second.order(first) == Ordering::Greater
        && first.lend().order(second.lend()) == Ordering::Less
}

/// Whether each scalar comes before the next, which is copied.
fn do_ascend(alloc: Global, scalars: &[Scalar]) -> bool {
    for pair in scalars.windows(2) {
        if !is_scalar_copied(alloc, &pair[1]) || !ascend(&pair[0], &pair[1]) {
            return false;
        }
    }
    true
}

fn do_scalars_ascend(alloc: Global) -> bool {
    match scalars(alloc) {
        Ok(scalars) => do_ascend(alloc, &scalars),
        Err(_) => false,
    }
}

/// What holds of a document.
enum Holds {
    /// The first of its two items comes before the second.
    Ascends,
    /// Copies of it and of its content are the same.
    IsCopied,
    /// Its copy is not this document.
    IsNotCopiedAs(&'static [u8]),
    /// A tree that is lent, and one that is kept, own the same tree again.
    IsOwnedAgain,
    /// It is lent as a leaf.
    IsLentAsLeaf,
    /// Its only attribute, `n`, is lent, the text `x`.
    HasAttribute,
}

const DEPARTMENT: &[u8] = br#"["dept",{"floor":3},["name","finance"]]"#;

const TEXT: &[u8] = br#"["name","finance"]"#;

const DOCUMENTS: &[(&str, &[u8], Holds)] = &[
    (
        "the text z comes before the element a",
        br#"["db","z",["a"]]"#,
        Holds::Ascends,
    ),
    ("a copy is the same", DEPARTMENT, Holds::IsCopied),
    (
        "a copy is as deep",
        DEPARTMENT,
        Holds::IsNotCopiedAs(br#"["dept"]"#),
    ),
    (
        "a lent element owns the same",
        br#"["dept",["name","finance"]]"#,
        Holds::IsOwnedAgain,
    ),
    ("a lent text owns the same", TEXT, Holds::IsOwnedAgain),
    (
        "a lent attribute owns the same",
        DEPARTMENT,
        Holds::IsOwnedAgain,
    ),
    (
        "an element of one text is lent as a leaf",
        TEXT,
        Holds::IsLentAsLeaf,
    ),
    (
        "an attribute without escapes",
        br#"["a",{"n":"x"}]"#,
        Holds::HasAttribute,
    ),
    (
        "an escape in the value",
        br#"["a",{"n":"\u0078"}]"#,
        Holds::HasAttribute,
    ),
    (
        "an escape in the name",
        br#"["a",{"\u006e":"x"}]"#,
        Holds::HasAttribute,
    ),
];

fn items(tree: &Tree) -> &[Tree] {
    match tree {
        Tree::Text(_) => &[],
        Tree::Elem { content, .. } => &content.items,
    }
}

/// Whether the first of two items comes before the second.
fn do_items_ascend(items: &[Tree]) -> bool {
    match items {
        [first, second] => first.order(second) == Ordering::Less && !first.same(second),
        _ => false,
    }
}

fn is_content_copied(alloc: Global, tree: &Tree) -> bool {
    match tree {
        Tree::Text(_) => false,
        Tree::Elem { content, .. } => is_content(content.copy(alloc), content),
    }
}

fn is_copy(alloc: Global, tree: &Tree, other: &[u8]) -> bool {
    match read(alloc, other) {
        Some(other) => is_tree(tree.copy(alloc), &other),
        None => true,
    }
}

fn is_copy_kept(alloc: Global, tree: &Tree) -> bool {
    match tree.copy(alloc) {
        Ok(copy) => is_so(alloc, LentTree::keep(alloc, copy).ok(), Asked::Owns(tree)),
        Err(_) => false,
    }
}

fn is_lent_as(alloc: Global, tree: &Tree, asked: Asked<'_>) -> bool {
    is_so(alloc, LentTree::lend(alloc, tree).ok(), asked)
}

/// Whether this holds of the document, whose tree that is.
fn is_held_of(alloc: Global, tree: &Tree, document: &[u8], holds: &Holds) -> bool {
    match holds {
        Holds::Ascends => do_items_ascend(items(tree)),
        Holds::IsCopied => is_tree(tree.copy(alloc), tree) && is_content_copied(alloc, tree),
        Holds::IsNotCopiedAs(other) => {
            is_tree(tree.copy(alloc), tree) && !is_copy(alloc, tree, other)
        }
        Holds::IsOwnedAgain => is_lent_as(alloc, tree, Asked::Owns(tree))
            && is_copy_kept(alloc, tree),
        Holds::IsLentAsLeaf => is_lent_as(alloc, tree, Asked::IsLeaf),
        Holds::HasAttribute => is_so(alloc, lend(alloc, document), Asked::HasAttribute),
    }
}

fn is_held(alloc: Global, document: &[u8], holds: &Holds) -> bool {
    match read(alloc, document) {
        Some(tree) => is_held_of(alloc, &tree, document, holds),
        None => false,
    }
}

#[test]
fn trees_are_ordered_copied_lent_and_kept(rt: HostRuntime) -> Result<(), Fail> {
    for (name, document, holds) in DOCUMENTS {
        told(is_held(rt.alloc(), document, holds), name)?;
    }
    Ok(())
}

fn is_lent_text(alloc: Global, text: &str) -> bool {
    match LentContent::Text(text).own(alloc) {
        Ok(content) => is_content(Content::of_text(alloc, text), &content),
        Err(_) => false,
    }
}

#[test]
fn scalars_ascend_and_texts_are_contents(rt: HostRuntime) -> Result<(), Fail> {
    all_told(&[
        (
            "scalars go by kind and then by value",
            do_scalars_ascend(rt.alloc()),
        ),
        (
            "a lent text is a content",
            is_lent_text(rt.alloc(), "finance"),
        ),
    ])
}
