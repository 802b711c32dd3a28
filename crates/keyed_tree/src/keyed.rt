//! Keyed elements, what is asked of them, and the elements that they spell.

ghost use Rattle.std.specs.Prelude.{◌≡◌, ◌↔◌, IsTrue, IfOk, IfSome, IsNone, map, []};
ghost use Rattle.std.specs.Option.{option_map, option_to_list};
ghost use Rattle.jsonml_tree.specs.View.{attr_view, tree_view, content_view};
ghost use Rattle.jsonml_tree.specs.Data.{content, list_of};
ghost use Rattle.jsonml_tree.specs.WellFormed.{IsWellFormed};
ghost use Rattle.keyed_tree.specs.Data.{label_of, kids_of, kids_from};
ghost use Rattle.keyed_tree.specs.Kids.{ascend, Ascend, is_ordered, are_ordered, IsOrdered, kid_at, HasNoKid};
ghost use Rattle.keyed_tree.specs.Lists.{Has};
ghost use Rattle.keyed_tree.specs.Same.{is_same, are_same};
ghost use Rattle.keyed_tree.specs.Paths.{node_at};
ghost use Rattle.keyed_tree.specs.Holds.{Holds};
ghost use Rattle.keyed_tree.specs.WellFormed.{IsKeyedWellFormed};
ghost use Rattle.keyed_tree.specs.Proper.{IsElement, is_proper, are_proper, IsProper};
ghost use Rattle.keyed_tree.specs.Plain.{content_of, attr_onto, attrs_among, items_among, plain};
ghost use Rattle.keyed_tree.specs.View.{key_view, label_view, keyed_view};

use crate::label::{KeyVal, Label, Name};
use jsonml_tree::{Attr, Content, Tree};
use std::alloc::{AllocError, Global};

/// What a leaf holds: a scalar at an attribute, a content at an element.
pub type Body = KeyVal;

/// A keyed element: above the frontier an inner node with kids, at the frontier a leaf with its body.
#[derive(Debug, Drop)]
pub enum Keyed {
    Inner { label: Label, kids: Vec<Keyed> },
    Leaf { label: Label, body: Body },
}

impl Keyed {
    /// The label of this node. It takes no memory.
    pub fn label(&self) -> &Label
        ensures { label_view result.now ≡ label_of (keyed_view self.now) }
    {
        match self {
            Keyed::Inner { label, .. } => label,
            Keyed::Leaf { label, .. } => label,
        }
    }

    /// Whether both are the same value. It takes no memory, and recurses as deep as nodes and elements nest.
    #[tactic(auto, using(crate::proofs::SameLemmas::same))]
    pub fn same(&self, other: &Keyed) -> bool
        ensures { IsTrue result ↔ (keyed_view self.now ≡ keyed_view other.now) }
    {
        self.matches(other)
    }

    #[cycle(same)]
    fn matches(&self, other: &Keyed) -> bool
        ensures { result ≡ is_same (keyed_view self.now) (keyed_view other.now) }
    {
        match (self, other) {
            (Keyed::Inner { label: a, kids: c }, Keyed::Inner { label: b, kids: d }) => {
                a.order(b).is_eq() && all_match(c, d)
            }
            (Keyed::Leaf { label: a, body: c }, Keyed::Leaf { label: b, body: d }) => {
                a.order(b).is_eq() && c.order(d).is_eq()
            }
            _ => false,
        }
    }

    /// A keyed tree of its own with the same value.
    #[cycle(copy)]
    pub fn copy(&self, alloc: Global) -> Result<Keyed, AllocError>
        ensures { IfOk result (λ k. keyed_view k ≡ keyed_view self.now) }
    {
        match self {
            Keyed::Inner { label, kids } => Ok(Keyed::Inner {
                label: label.copy(alloc)?,
                kids: copy_kids(alloc, kids)?,
            }),
            Keyed::Leaf { label, body } => Ok(Keyed::Leaf {
                label: label.copy(alloc)?,
                body: body.copy(alloc)?,
            }),
        }
    }

    /// The kid with that label, by halving. It takes no memory.
    #[tactic(auto, using(crate::proofs::Views::views))]
    pub fn find(&self, label: &Label) -> Option<&Keyed>
        requires { Ascend (kids_from (kids_of (keyed_view self.now))) }
        ensures found { option_map (λ k. keyed_view k.now) result
            ≡ kid_at (label_view label.now) (kids_of (keyed_view self.now)) }
        ensures label { IfSome result (λ k. label_of (keyed_view k.now) ≡ label_view label.now) }
        ensures kid { IfSome result (λ k. Has (keyed_view k.now) (kids_of (keyed_view self.now))) }
        ensures none { IsNone result ↔ HasNoKid (label_view label.now) (keyed_view self.now) }
        ensures ordered { IsOrdered (keyed_view self.now)
            → IfSome result (λ k. IsOrdered (keyed_view k.now)) }
    {
        match self {
            Keyed::Inner { kids, .. } => find_kid(kids, label),
            Keyed::Leaf { .. } => None,
        }
    }

    /// Whether this node has the first label and, where the path goes on, some kid holds the rest. It takes no memory.
    pub fn holds(&self, path: &[Label]) -> bool
        requires { IsOrdered (keyed_view self.now) }
        ensures { IsTrue result ↔ Holds (map label_view path.now) (keyed_view self.now) }
    {
        match path {
            [] => true,
            [first, below @ ..] => self.label().order(first).is_eq() && self.at(below).is_some(),
        }
    }

    /// The element that this tree spells: an inner node has its attribute kids back as attributes and its element kids
    /// as items, in their order, and a leaf has its body as content. It recurses as deep as nodes and elements nest.
    pub fn plain(&self, alloc: Global) -> Result<Tree, AllocError>
        requires element { IsElement (keyed_view self.now) }
        requires proper { IsProper (keyed_view self.now) }
        ensures spelled { IfOk result (λ t. tree_view t ≡ plain (keyed_view self.now)) }
        ensures well_formed { IsKeyedWellFormed (keyed_view self.now)
            → IfOk result (λ t. IsWellFormed (tree_view t)) }
    {
        spell(alloc, self)
    }

    /// Whether the tree is named by a tag. It takes no memory.
    pub fn is_element(&self) -> bool
        ensures { IsTrue result ↔ IsElement (keyed_view self.now) }
    {
        match self {
            Keyed::Inner { label, .. } => label.name.is_tag(),
            Keyed::Leaf { label, .. } => label.name.is_tag(),
        }
    }

    /// Whether kids ascend strictly at every node. It takes no memory, and recurses as deep as nodes nest.
    #[cycle(ordered)]
    pub fn is_ordered(&self) -> bool
        ensures { result ≡ is_ordered (keyed_view self.now) }
    {
        match self {
            Keyed::Inner { kids, .. } => do_ascend(kids) && are_ordered(kids),
            Keyed::Leaf { .. } => true,
        }
    }

    /// Whether the tree is proper: kids ascend strictly at every node, a node named by an attribute is a leaf without
    /// key values whose body is a scalar, and a leaf named by a tag has a content as body. It takes no memory, and
    /// recurses as deep as nodes nest.
    #[cycle(proper)]
    pub fn is_proper(&self) -> bool
        ensures { result ≡ is_proper (keyed_view self.now) }
    {
        match self {
            Keyed::Inner { label, kids } => {
                label.name.is_tag() && do_ascend(kids) && are_proper(kids)
            }
            Keyed::Leaf { label, body } => match (&label.name, body) {
                (Name::Attr(_), KeyVal::Scalar(_)) => label.keys.is_empty(),
                (Name::Attr(_), KeyVal::Content(_)) => false,
                (Name::Tag(_), KeyVal::Scalar(_)) => false,
                (Name::Tag(_), KeyVal::Content(_)) => true,
            },
        }
    }

    // The node that the path leads to, from a kid of this one on.
    fn at(&self, path: &[Label]) -> Option<&Keyed>
        requires { IsOrdered (keyed_view self.now) }
        ensures { option_map (λ k. keyed_view k.now) result
            ≡ node_at (map label_view path.now) (keyed_view self.now) }
    {
        let mut node = self;
        for label in path {
            node = node.find(label)?;
        }
        Some(node)
    }
}

#[cycle(same)]
fn all_match(ours: &[Keyed], theirs: &[Keyed]) -> bool
    ensures { result
        ≡ are_same (kids_from (map keyed_view ours.now)) (kids_from (map keyed_view theirs.now)) }
{
    let mut others = theirs.iter();
    for a in ours {
        let Some(b) = others.next() else {
            return false;
        };
        if !a.matches(b) {
            return false;
        }
    }
    others.next().is_none()
}

#[cycle(copy)]
fn copy_kids(alloc: Global, kids: &[Keyed]) -> Result<Vec<Keyed>, AllocError>
    ensures { IfOk result (λ v. map keyed_view v.items ≡ map keyed_view kids.now) }
{
    let mut copies = Vec::with_capacity(alloc, kids.len())?;
    for kid in kids {
        copies.push_reserved(kid.copy(alloc)?);
    }
    Ok(copies)
}

fn find_kid<'a>(kids: &'a [Keyed], label: &Label) -> Option<&'a Keyed>
    requires { Ascend (kids_from (map keyed_view kids.now)) }
    ensures { option_map (λ k. keyed_view k.now) result
        ≡ kid_at (label_view label.now) (map keyed_view kids.now) }
{
    match kids.binary_search_by(|kid| kid.label().order(label)) {
        Ok(at) => Some(&kids[at]),
        Err(_) => None,
    }
}

#[cycle(plain)]
fn spell(alloc: Global, tree: &Keyed) -> Result<Tree, AllocError>
    ensures { IfOk result (λ t. tree_view t ≡ plain (keyed_view tree.now)) }
{
    match tree {
        Keyed::Inner { label, kids } => Ok(Tree::Elem {
            tag: String::from_str(alloc, label.name.as_str())?,
            content: gather(alloc, kids)?,
        }),
        Keyed::Leaf { label, body } => Ok(Tree::Elem {
            tag: String::from_str(alloc, label.name.as_str())?,
            content: copy_content(alloc, body)?,
        }),
    }
}

// The content of an inner node with these kids.
#[cycle(plain)]
fn gather(alloc: Global, kids: &[Keyed]) -> Result<Content, AllocError>
    ensures { IfOk result (λ c. content_view c
        ≡ content
        (attrs_among (kids_from (map keyed_view kids.now)))
        (items_among (kids_from (map keyed_view kids.now)))) }
{
    let attrs = attrs_of(alloc, kids)?;
    let items = items_of(alloc, kids, kids.len().saturating_sub(attrs.len()))?;
    Ok(Content { attrs, items })
}

// The items of an inner node with these kids, of which so many are likely to be elements.
#[cycle(plain)]
fn items_of(alloc: Global, kids: &[Keyed], likely: usize) -> Result<Vec<Tree>, AllocError>
    ensures { IfOk result (λ v. map tree_view v.items
        ≡ list_of (items_among (kids_from (map keyed_view kids.now)))) }
{
    let mut items = Vec::with_capacity(alloc, likely)?;
    for kid in kids {
        if kid.label().name.is_tag() {
            items.push(spell(alloc, kid)?)?;
        }
    }
    Ok(items)
}

fn attrs_of(alloc: Global, kids: &[Keyed]) -> Result<Vec<Attr>, AllocError>
    ensures { IfOk result (λ v. map attr_view v.items
        ≡ attrs_among (kids_from (map keyed_view kids.now))) }
{
    let mut attrs = Vec::new(alloc);
    for kid in kids {
        if let Some(attr) = attr_of(alloc, kid)? {
            attrs.push(attr)?;
        }
    }
    Ok(attrs)
}

// The attribute that a leaf spells, if it is named by one.
fn attr_of(alloc: Global, kid: &Keyed) -> Result<Option<Attr>, AllocError>
    ensures { IfOk result (λ a. map attr_view (option_to_list a)
        ≡ attr_onto (keyed_view kid.now) []) }
{
    match kid {
        Keyed::Inner { .. } => Ok(None),
        Keyed::Leaf { label, body } => match (&label.name, body) {
            (Name::Attr(name), KeyVal::Scalar(value)) => Ok(Some(Attr {
                name: String::from_str(alloc, name.as_str())?,
                value: value.copy(alloc)?,
            })),
            _ => Ok(None),
        },
    }
}

fn copy_content(alloc: Global, body: &KeyVal) -> Result<Content, AllocError>
    ensures { IfOk result (λ c. content_view c ≡ content_of (key_view body.now)) }
{
    match body {
        KeyVal::Content(content) => content.copy(alloc),
        // In a proper tree a scalar stands at an attribute alone.
        KeyVal::Scalar(_) => Ok(Content {
            attrs: Vec::new(alloc),
            items: Vec::new(alloc),
        }),
    }
}

#[cycle(ordered)]
fn are_ordered(kids: &[Keyed]) -> bool
    ensures { result ≡ are_ordered (kids_from (map keyed_view kids.now)) }
{
    for kid in kids {
        if !kid.is_ordered() {
            return false;
        }
    }
    true
}

#[cycle(proper)]
fn are_proper(kids: &[Keyed]) -> bool
    ensures { result ≡ are_proper (kids_from (map keyed_view kids.now)) }
{
    for kid in kids {
        if !kid.is_proper() {
            return false;
        }
    }
    true
}

fn do_ascend(kids: &[Keyed]) -> bool
    ensures { result ≡ ascend (kids_from (map keyed_view kids.now)) }
{
    let Some((first, rest)) = kids.split_first() else {
        return true;
    };
    let mut last = first.label();
    for kid in rest {
        if !last.order(kid.label()).is_lt() {
            return false;
        }
        last = kid.label();
    }
    true
}
