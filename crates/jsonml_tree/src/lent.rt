//! Trees whose texts are lent: by the bytes of a document, say.

ghost use Rattle.std.specs.Prelude.{◌≡◌, IfOk, IfSome, map};
ghost use Rattle.jsonml_tree.specs.Data.{element, only_text};
ghost use Rattle.jsonml_tree.specs.LentView.{lent_content_view, lent_row_view, lent_tree_view};
ghost use Rattle.jsonml_tree.specs.View.{content_view, tree_view};

use crate::lent_attr::{LentAttr, keep_attrs, lend_attrs, own_attrs};
use crate::tree::{Content, Tree, element_of, text_of};
use std::alloc::{AllocError, Global};
use std::borrow::CowStr;

/// A tree whose texts are lent, and its own where no lender spells them as they are.
///
/// It stands for the same values as a `Tree`. An element that holds one text and nothing else may be a leaf, which takes no
/// row.
#[cycle(lent)]
#[derive(Drop)]
pub enum LentTree<'a> {
    Text(CowStr<'a, Global>),
    Leaf {
        tag: CowStr<'a, Global>,
        text: CowStr<'a, Global>,
    },
    Elem {
        tag: CowStr<'a, Global>,
        row: LentRow<'a>,
    },
}

/// The attributes of an element, ascending by the bytes of their names, and its items.
#[cycle(lent)]
#[derive(Drop)]
pub struct LentRow<'a> {
    pub attrs: Vec<LentAttr<'a>>,
    pub items: Vec<LentTree<'a>>,
}

/// What an element holds behind its tag: one text and nothing else, or a row.
#[derive(Clone, Copy)]
pub enum LentContent<'a, 'b> {
    Text(&'a str),
    Row(&'a LentRow<'b>),
}

impl<'a> LentTree<'a> {
    /// The same tree, whose texts it lends. It takes memory for rows, and recurses as deep as elements nest.
    ///
    /// An element that holds one text and nothing else becomes a leaf.
    #[cycle(lend)]
    pub fn lend(alloc: Global, tree: &'a Tree) -> Result<LentTree<'a>, AllocError>
        ensures { IfOk result (λ t. lent_tree_view t ≡ tree_view tree.now) }
    {
        match tree {
            Tree::Text(text) => Ok(LentTree::Text(CowStr::Borrowed(text.as_str()))),
            Tree::Elem { tag, content } => LentTree::lend_element(alloc, tag.as_str(), content),
        }
    }

    /// The element of that tag and content, whose texts it lends, as `lend` does.
    #[cycle(lend)]
    pub fn lend_element(
        alloc: Global,
        tag: &'a str,
        content: &'a Content,
    ) -> Result<LentTree<'a>, AllocError>
        ensures { IfOk result (λ t. lent_tree_view t ≡ element tag.now (content_view content.now)) }
    {
        let tag = CowStr::Borrowed(tag);
        match only_text(content) {
            Some(text) => Ok(LentTree::Leaf {
                tag,
                text: CowStr::Borrowed(text),
            }),
            None => Ok(LentTree::Elem {
                tag,
                row: lend_row(alloc, content)?,
            }),
        }
    }

    /// The same tree, which keeps its texts: none is copied. It recurses as deep as elements nest.
    #[cycle(keep)]
    pub fn keep(alloc: Global, tree: Tree) -> Result<LentTree<'a>, AllocError>
        ensures { IfOk result (λ t. lent_tree_view t ≡ tree_view tree) }
    {
        match tree {
            Tree::Text(text) => Ok(LentTree::Text(CowStr::Owned(text))),
            Tree::Elem { tag, content } => Ok(LentTree::Elem {
                tag: CowStr::Owned(tag),
                row: kept_row(alloc, content)?,
            }),
        }
    }

    /// A tree of its own with the same value. It recurses as deep as elements nest.
    #[cycle(own)]
    pub fn own(&self, alloc: Global) -> Result<Tree, AllocError>
        ensures { IfOk result (λ t. tree_view t ≡ lent_tree_view self.now) }
    {
        match self {
            LentTree::Text(text) => text_of(alloc, text.as_str()),
            LentTree::Leaf { tag, text } => {
                element_of(alloc, tag.as_str(), Content::of_text(alloc, text.as_str())?)
            }
            LentTree::Elem { tag, row } => element_of(alloc, tag.as_str(), own_row(alloc, row)?),
        }
    }
}

impl LentContent<'_, '_> {
    /// A content of its own with the same value. It recurses as deep as elements nest.
    pub fn own(&self, alloc: Global) -> Result<Content, AllocError>
        ensures { IfOk result (λ c. content_view c ≡ lent_content_view self.now) }
    {
        match self {
            LentContent::Text(text) => Content::of_text(alloc, text),
            LentContent::Row(row) => own_row(alloc, row),
        }
    }
}

#[cycle(keep)]
fn kept_row<'a>(alloc: Global, content: Content) -> Result<LentRow<'a>, AllocError>
    ensures { IfOk result (λ row. lent_row_view row ≡ content_view content) }
{
    Ok(LentRow {
        attrs: keep_attrs(alloc, content.attrs)?,
        items: kept_items(alloc, content.items)?,
    })
}

#[cycle(keep)]
fn kept_items<'a>(alloc: Global, trees: Vec<Tree>) -> Result<Vec<LentTree<'a>>, AllocError>
    ensures { IfOk result (λ v. map lent_tree_view v.items ≡ map tree_view trees.items) }
{
    let mut items = Vec::with_capacity(alloc, trees.len())?;
    for tree in trees {
        items.push_reserved(LentTree::keep(alloc, tree)?);
    }
    Ok(items)
}

/// The text of a content that holds it and nothing else.
fn only_text(content: &Content) -> Option<&str>
    ensures { IfSome result (λ s. content_view content.now ≡ only_text s.now) }
{
    match content.items.as_slice() {
        [Tree::Text(text)] if content.attrs.is_empty() => Some(text.as_str()),
        _ => None,
    }
}

#[cycle(lend)]
fn lend_row<'a>(alloc: Global, content: &'a Content) -> Result<LentRow<'a>, AllocError>
    ensures { IfOk result (λ row. lent_row_view row ≡ content_view content.now) }
{
    Ok(LentRow {
        attrs: lend_attrs(alloc, &content.attrs)?,
        items: lend_items(alloc, &content.items)?,
    })
}

#[cycle(lend)]
fn lend_items<'a>(alloc: Global, trees: &'a [Tree]) -> Result<Vec<LentTree<'a>>, AllocError>
    ensures { IfOk result (λ v. map lent_tree_view v.items ≡ map tree_view trees.now) }
{
    let mut items = Vec::with_capacity(alloc, trees.len())?;
    for tree in trees {
        items.push_reserved(LentTree::lend(alloc, tree)?);
    }
    Ok(items)
}

#[cycle(own)]
fn own_row(alloc: Global, row: &LentRow<'_>) -> Result<Content, AllocError>
    ensures { IfOk result (λ c. content_view c ≡ lent_row_view row.now) }
{
    Ok(Content {
        attrs: own_attrs(alloc, &row.attrs)?,
        items: own_items(alloc, &row.items)?,
    })
}

#[cycle(own)]
fn own_items(alloc: Global, items: &[LentTree<'_>]) -> Result<Vec<Tree>, AllocError>
    ensures { IfOk result (λ v. map tree_view v.items ≡ map lent_tree_view items.now) }
{
    let mut trees = Vec::with_capacity(alloc, items.len())?;
    for item in items {
        trees.push_reserved(item.own(alloc)?);
    }
    Ok(trees)
}
