use jsonml_text::{Printer, print_lent_content};
use jsonml_tree::{Content, LentAttr, LentContent, LentScalar, LentTree, Tree};
use std::alloc::{AllocError, Global};
use std::cmp::Ordering;
use xa_outside::{Failed, MemSink};

/// What is asked of a tree whose texts are lent.
#[derive(Clone, Copy)]
pub enum Asked<'a> {
    /// Whether it owns this tree.
    Owns(&'a Tree),
    /// Whether it is an element of one text.
    IsLeaf,
    /// Whether the text `x` is its only attribute, `n`.
    HasAttribute,
    /// Whether its attributes stand in the document as they are, or do not.
    AreLent(bool),
    /// Whether this is printed of it.
    Prints(&'a [u8]),
}

pub fn is_tree(found: Result<Tree, AllocError>, tree: &Tree) -> bool {
    match found {
        Ok(found) => found.same(tree) && found == *tree,
        Err(_) => false,
    }
}

pub fn is_content(found: Result<Content, AllocError>, content: &Content) -> bool {
    match found {
        Ok(found) => found.same(content),
        Err(_) => false,
    }
}

pub fn is_so(alloc: Global, lent: Option<LentTree<'_>>, asked: Asked<'_>) -> bool {
    match lent {
        Some(lent) => answers(alloc, &lent, asked),
        None => false,
    }
}

fn answers(alloc: Global, lent: &LentTree<'_>, asked: Asked<'_>) -> bool {
    match asked {
        Asked::Owns(tree) => is_tree(lent.own(alloc), tree),
        Asked::IsLeaf => matches!(lent, LentTree::Leaf { .. }),
        Asked::HasAttribute => is_one(attrs(lent), "n", "x"),
        Asked::AreLent(wanted) => are_lent(attrs(lent)) == wanted,
        Asked::Prints(text) => is_printed(alloc, lent, text),
    }
}

fn attrs<'a, 'b>(tree: &'a LentTree<'b>) -> &'a [LentAttr<'b>] {
    match tree {
        LentTree::Elem { row, .. } => &row.attrs,
        _ => &[],
    }
}

/// Whether there is one attribute, of this name and text.
fn is_one(attrs: &[LentAttr<'_>], name: &str, text: &str) -> bool {
    match attrs {
        [attr] => {
            attr.name() == name && attr.value().order(LentScalar::Text(text)) == Ordering::Equal
        }
        _ => false,
    }
}

/// Whether there are attributes, and all stand in the document as they are.
fn are_lent(attrs: &[LentAttr<'_>]) -> bool {
    for attr in attrs {
        let LentAttr::Lent { .. } = attr else {
            return false;
        };
    }
    !attrs.is_empty()
}

// Prints an element that holds more than a text.
fn print_lent(tree: &LentTree<'_>, sink: &mut MemSink) -> Option<()> {
    match tree {
        LentTree::Elem { tag, row } => print_around(tag.as_str(), LentContent::Row(row), sink).ok(),
        _ => None,
    }
}

// Prints an element of this tag and content.
fn print_around(tag: &str, content: LentContent<'_, '_>, sink: &mut MemSink) -> Result<(), Failed> {
    let mut printer = Printer::new();
    printer.begin_elem(sink, tag)?;
    print_lent_content(content, &mut printer, sink)?;
    printer.end_elem(sink)
}

fn is_printed(alloc: Global, lent: &LentTree<'_>, text: &[u8]) -> bool {
    let mut sink = MemSink::new(alloc, Vec::new(alloc));
    print_lent(lent, &mut sink).is_some() && sink.taken() == text
}
