#![tactic(auto, using(jsonml_tree::proofs::Trees::trees, keyed_tree::proofs::Views::views, crate::proofs::LentViews::lent_views))]

ghost use Rattle.std.specs.Prelude.{◌≡◌, ◌++◌, [], IfOk, IfSome, IfNone, map};
ghost use Rattle.jsonml_tree.specs.LentAttrs.{lent_attr_view};
ghost use Rattle.jsonml_tree.specs.LentView.{lent_content_view};
ghost use Rattle.keyed_tree.specs.Data.{label_of};
ghost use Rattle.keyed_tree.specs.Order.{label_cmp};
ghost use Rattle.keyed_tree.specs.Plain.{name_bytes};
ghost use Rattle.keyed_tree.specs.View.{keyed_view, label_view};
ghost use Rattle.key_annotate.specs.KeyedOf.{attr_leaf};
ghost use Rattle.key_annotate.specs.LabelView.{key_list_view, keyed_label_view};
ghost use Rattle.key_annotate.specs.LentView.{bare_leaf, lent_view};

use crate::label::{KeyList, KeyedLabel, copy_tag, order_tag_own};
use jsonml_tree::{Content, LentAttr, LentContent, LentRow};
use keyed_tree::{KeyVal, Keyed, Label, Name};
use std::alloc::{AllocError, Global};
use std::cmp::Ordering;

/// A keyed tree whose tags, key values and bodies a specification and a document lend, for `'a`, and the document's lender
/// its texts, for `'t`.
///
/// It takes 40 bytes. A label that has key values, and the head of an inner node, stand beside it. A leaf without key
/// values takes nothing more.
#[derive(Drop)]
pub enum LentKeyed<'a, 't> {
    /// A leaf without key values, which holds one text and nothing else.
    Text {
        tag: &'a str,
        text: &'a str,
    },
    /// Another leaf without key values.
    Row {
        tag: &'a str,
        row: &'a LentRow<'t>,
    },
    /// A leaf with key values.
    Leaf {
        label: Box<KeyedLabel<'a, 't>>,
        content: LentContent<'a, 't>,
    },
    /// An inner node. Its first kids are the attributes of its element; the others stand in the order of their labels.
    Inner {
        head: Box<Head<'a, 't>>,
        kids: Vec<LentKeyed<'a, 't>>,
    },
}

/// The label of an inner node, and its attributes, each a leaf with its name and no key values.
#[derive(Drop)]
pub struct Head<'a, 't> {
    pub label: KeyedLabel<'a, 't>,
    pub attrs: &'a [LentAttr<'t>],
}

impl<'a, 't> LentKeyed<'a, 't> {
    /// The leaf of this tag without key values.
    pub(crate) fn bare(tag: &'a str, content: LentContent<'a, 't>) -> LentKeyed<'a, 't>
        ensures { lent_view result ≡ bare_leaf tag.now (lent_content_view content.entry) }
    {
        match content {
            LentContent::Text(text) => LentKeyed::Text { tag, text },
            LentContent::Row(row) => LentKeyed::Row { tag, row },
        }
    }

    /// The tag of the element that it is.
    pub fn tag(&self) -> &'a str
        ensures { result.now ≡ name_bytes (label_of (lent_view self.now)).name }
    {
        match self {
            LentKeyed::Text { tag, .. } => tag,
            LentKeyed::Row { tag, .. } => tag,
            LentKeyed::Leaf { label, .. } => label.tag(),
            LentKeyed::Inner { head, .. } => head.label.tag(),
        }
    }

    /// Its label, unless it is a leaf whose label is the tag alone.
    pub fn label(&self) -> Option<&KeyedLabel<'a, 't>>
        ensures some { IfSome result (λ l. keyed_label_view l.now ≡ label_of (lent_view self.now)) }
        ensures none { IfNone result ((label_of (lent_view self.now)).keys ≡ []) }
    {
        match self {
            LentKeyed::Text { .. } => None,
            LentKeyed::Row { .. } => None,
            LentKeyed::Leaf { label, .. } => Some(label),
            LentKeyed::Inner { head, .. } => Some(&head.label),
        }
    }

    /// The key values of its label.
    pub fn keys(&self) -> KeyList<'_, 'a, 't>
        ensures { key_list_view result ≡ (label_of (lent_view self.now)).keys }
    {
        match self.label() {
            Some(label) => label.keys(),
            None => KeyList::Row(Default::default()),
        }
    }

    /// By the labels. It takes no memory.
    pub(crate) fn order(&self, other: &LentKeyed<'_, '_>) -> Ordering
        ensures { result
            ≡ label_cmp (label_of (lent_view self.now)) (label_of (lent_view other.now)) }
    {
        match (self.label(), other.label()) {
            (Some(ours), Some(theirs)) => ours.order(theirs),
            (Some(ours), None) => ours.order_tag(other.tag()),
            (None, Some(theirs)) => theirs.order_tag(self.tag()).reverse(),
            (None, None) => self.tag().cmp(other.tag()),
        }
    }

    /// The order of its label, against one of its own. It takes no memory.
    pub fn order_own(&self, other: &Label) -> Ordering
        ensures { result ≡ label_cmp (label_of (lent_view self.now)) (label_view other.now) }
    {
        match self.label() {
            Some(label) => label.order_own(other),
            None => order_tag_own(self.tag(), other),
        }
    }

    /// A keyed tree of its own with the same value. It recurses as deep as nodes and elements nest.
    #[cycle(own)]
    pub fn own(&self, alloc: Global) -> Result<Keyed, AllocError>
        ensures { IfOk result (λ k. keyed_view k ≡ lent_view self.now) }
    {
        match self {
            LentKeyed::Text { tag, text } => Ok(Keyed::Leaf {
                label: copy_tag(alloc, tag)?,
                body: KeyVal::Content(Content::of_text(alloc, text)?),
            }),
            LentKeyed::Row { tag, row } => Ok(Keyed::Leaf {
                label: copy_tag(alloc, tag)?,
                body: KeyVal::Content(LentContent::Row(row).own(alloc)?),
            }),
            LentKeyed::Leaf { label, content } => Ok(Keyed::Leaf {
                label: label.copy(alloc)?,
                body: KeyVal::Content(content.own(alloc)?),
            }),
            LentKeyed::Inner { head, kids } => Ok(Keyed::Inner {
                label: head.label.copy(alloc)?,
                kids: behind_attrs(alloc, head.attrs, own_kids(alloc, kids)?)?,
            }),
        }
    }
}

#[cycle(own)]
fn own_kids(alloc: Global, kids: &[LentKeyed<'_, '_>]) -> Result<Vec<Keyed>, AllocError>
    ensures { IfOk result (λ v. map keyed_view v.items ≡ map lent_view kids.now) }
{
    let mut copies = Vec::with_capacity(alloc, kids.len())?;
    for kid in kids {
        copies.push(kid.own(alloc)?)?;
    }
    Ok(copies)
}

/// A leaf for each attribute, and then the kids.
fn behind_attrs(
    alloc: Global,
    attrs: &[LentAttr<'_>],
    kids: Vec<Keyed>,
) -> Result<Vec<Keyed>, AllocError>
    ensures { IfOk result
        (λ v. map keyed_view v.items
        ≡ map attr_leaf (map lent_attr_view attrs.now) ++ map keyed_view kids.items) }
{
    let mut all = Vec::with_capacity(alloc, attrs.len() + kids.len())?;
    for attr in attrs {
        all.push(own_attr(alloc, attr)?)?;
    }
    let mut kids = kids;
    all.append(&mut kids)?;
    Ok(all)
}

/// The leaf of an attribute, as a keyed tree of its own.
pub fn own_attr(alloc: Global, attr: &LentAttr<'_>) -> Result<Keyed, AllocError>
    ensures { IfOk result (λ k. keyed_view k ≡ attr_leaf (lent_attr_view attr.now)) }
{
    let name = Name::Attr(String::from_str(alloc, attr.name())?);
    let label = Label {
        name,
        keys: Vec::new(alloc),
    };
    let body = KeyVal::Scalar(attr.value().own(alloc)?);
    Ok(Keyed::Leaf { label, body })
}
