ghost use Rattle.std.specs.Prelude.{◌≡◌, ◌↔◌, ◌<◌, ◌^◌, IsTrue, IfOk, map};
ghost use Rattle.std.specs.Cmp.Lexicographic.{slice_cmp};
ghost use Rattle.jsonml_tree.specs.Data.{text, element, only_text, tree_depth, trees_depth};
ghost use Rattle.jsonml_tree.specs.Order.{tree_cmp, content_cmp};
ghost use Rattle.jsonml_tree.specs.View.{tree_view, content_view, items_view, attr_view};

use crate::scalar::Attr;
use std::alloc::{AllocError, Global};
use std::cmp::Ordering;

/// A place in a document: the positions, from 1, of the items from the root element down.
///
/// The root's own place has no steps. Positions count the items of an element, texts among them; the tag and the
/// attributes are not counted.
#[derive(Debug, Drop)]
pub struct Place {
    pub steps: Vec<u32>,
}

/// What an element holds behind its tag.
///
/// In a well formed content the attributes ascend strictly by the bytes of their names; the type itself holds more.
#[cycle(tree)]
#[derive(Debug, Drop)]
pub struct Content {
    pub attrs: Vec<Attr>,
    pub items: Vec<Tree>,
}

/// A text, or an element with its content.
#[cycle(tree)]
#[derive(Debug, Drop)]
pub enum Tree {
    Text(String),
    Elem { tag: String, content: Content },
}

impl Content {
    /// The content of one text and nothing else.
    pub fn of_text(alloc: Global, text: &str) -> Result<Content, AllocError>
        ensures { IfOk result (λ c. content_view c ≡ only_text text.now) }
    {
        let text = String::from_str(alloc, text)?;
        let mut items = Vec::with_capacity(alloc, 1)?;
        items.push_reserved(Tree::Text(text));
        let attrs = Vec::new(alloc);
        Ok(Content { attrs, items })
    }

    /// Whether both are the same value. It takes no memory, and recurses as deep as elements nest.
    #[tactic(auto, using(crate::specs::Laws::equal))]
    pub fn same(&self, other: &Content) -> bool
        ensures equal { IsTrue result ↔ (content_view self.now ≡ content_view other.now) }
        ensures order { IsTrue result
            ↔ (content_cmp (content_view self.now) (content_view other.now) ≡ Ordering.Equal) }
    {
        self.order(other).is_eq()
    }

    /// By the list of attributes, each by its name and then its value, then by the list of items. A list that
    /// another one continues comes before it.
    #[cycle(order)]
    pub fn order(&self, other: &Content) -> Ordering
        ensures { result ≡ content_cmp (content_view self.now) (content_view other.now) }
    {
        self.attrs
            .as_slice()
            .cmp(other.attrs.as_slice())
            .then(order_items(&self.items, &other.items))
    }

    /// A content of its own with the same value.
    #[cycle(copy)]
    pub fn copy(&self, alloc: Global) -> Result<Content, AllocError>
        ensures { IfOk result (λ c. content_view c ≡ content_view self.now) }
    {
        Ok(Content {
            attrs: copy_attrs(alloc, &self.attrs)?,
            items: copy_items(alloc, &self.items)?,
        })
    }
}

impl Tree {
    /// Whether both are the same value. It takes no memory, and recurses as deep as elements nest.
    #[tactic(auto, using(crate::specs::Laws::equal))]
    pub fn same(&self, other: &Tree) -> bool
        ensures equal { IsTrue result ↔ (tree_view self.now ≡ tree_view other.now) }
        ensures order { IsTrue result
            ↔ (tree_cmp (tree_view self.now) (tree_view other.now) ≡ Ordering.Equal) }
    {
        self.order(other).is_eq()
    }

    /// A text before an element; texts by their bytes; elements by the bytes of their tags, then by content.
    #[cycle(order)]
    pub fn order(&self, other: &Tree) -> Ordering
        ensures { result ≡ tree_cmp (tree_view self.now) (tree_view other.now) }
    {
        match (self, other) {
            (Tree::Text(a), Tree::Text(b)) => a.as_str().cmp(b.as_str()),
            (Tree::Text(_), Tree::Elem { .. }) => Ordering::Less,
            (Tree::Elem { .. }, Tree::Text(_)) => Ordering::Greater,
            (Tree::Elem { tag: a, content: c }, Tree::Elem { tag: b, content: d }) => {
                a.as_str().cmp(b.as_str()).then(c.order(d))
            }
        }
    }

    /// How deep elements nest: 0 for a text, else one more than the deepest item. It takes no memory.
    #[cycle(depth)]
    pub fn depth(&self) -> u32
        requires { tree_depth (tree_view self.now) < 2 ^ 32 }
        ensures { result ≡ tree_depth (tree_view self.now) }
    {
        match self {
            Tree::Text(_) => 0,
            Tree::Elem { content, .. } => deepest(&content.items) + 1,
        }
    }

    /// A tree of its own with the same value.
    #[cycle(copy)]
    pub fn copy(&self, alloc: Global) -> Result<Tree, AllocError>
        ensures { IfOk result (λ t. tree_view t ≡ tree_view self.now) }
    {
        match self {
            Tree::Text(text) => text_of(alloc, text.as_str()),
            Tree::Elem { tag, content } => element_of(alloc, tag.as_str(), content.copy(alloc)?),
        }
    }
}

impl PartialEq for Content {
    ghost use Rattle.std.specs.Ordering.{eq_by_cmp, on};
    ghost use Rattle.std.specs.Cmp.{on_total, eq_by_cmp_equiv, partial_equiv_from_equiv};
    ghost use Rattle.jsonml_tree.specs.Laws.{content_cmp_total};
    ghost use Rattle.jsonml_tree.specs.Order.{content_cmp};
    ghost use Rattle.jsonml_tree.specs.View.{content_view};

    ghost eq = { eq_by_cmp (on content_view content_cmp) };

    ghost laws = { partial_equiv_from_equiv (eq_by_cmp_equiv (on_total content_view content_cmp_total)) };

    fn eq(&self, other: &Content) -> bool {
        self.order(other).is_eq()
    }
}

impl Eq for Content {
    ghost use Rattle.std.specs.Ordering.{on};
    ghost use Rattle.std.specs.Cmp.{on_total, eq_by_cmp_equiv};
    ghost use Rattle.jsonml_tree.specs.Laws.{content_cmp_total};
    ghost use Rattle.jsonml_tree.specs.View.{content_view};

    ghost laws = { eq_by_cmp_equiv (on_total content_view content_cmp_total) };
}

impl PartialOrd for Content {
    ghost use Rattle.std.specs.Ordering.{on, as_partial_cmp};
    ghost use Rattle.std.specs.Cmp.{on_total, partial_order_from_total};
    ghost use Rattle.jsonml_tree.specs.Laws.{content_cmp_total};
    ghost use Rattle.jsonml_tree.specs.Order.{content_cmp};
    ghost use Rattle.jsonml_tree.specs.View.{content_view};

    ghost partial_cmp = { as_partial_cmp (on content_view content_cmp) };

    ghost laws = { partial_order_from_total (on_total content_view content_cmp_total) };

    fn partial_cmp(&self, other: &Content) -> Option<Ordering> {
        Some(self.order(other))
    }
}

impl Ord for Content {
    ghost use Rattle.std.proofs.Common.{refl};
    ghost use Rattle.std.specs.Ordering.{on};
    ghost use Rattle.std.specs.Cmp.{on_total};
    ghost use Rattle.jsonml_tree.specs.Laws.{content_cmp_total};
    ghost use Rattle.jsonml_tree.specs.Order.{content_cmp};
    ghost use Rattle.jsonml_tree.specs.View.{content_view};

    ghost cmp = { on content_view content_cmp };

    ghost total = { on_total content_view content_cmp_total };

    ghost matches_partial_cmp = { λ x y. refl };

    ghost matches_eq = { λ x y. refl };

    fn cmp(&self, other: &Content) -> Ordering {
        self.order(other)
    }
}

impl PartialEq for Tree {
    ghost use Rattle.std.specs.Ordering.{eq_by_cmp, on};
    ghost use Rattle.std.specs.Cmp.{on_total, eq_by_cmp_equiv, partial_equiv_from_equiv};
    ghost use Rattle.jsonml_tree.specs.Laws.{tree_cmp_total};
    ghost use Rattle.jsonml_tree.specs.Order.{tree_cmp};
    ghost use Rattle.jsonml_tree.specs.View.{tree_view};

    ghost eq = { eq_by_cmp (on tree_view tree_cmp) };

    ghost laws = { partial_equiv_from_equiv (eq_by_cmp_equiv (on_total tree_view tree_cmp_total)) };

    fn eq(&self, other: &Tree) -> bool {
        self.order(other).is_eq()
    }
}

impl Eq for Tree {
    ghost use Rattle.std.specs.Ordering.{on};
    ghost use Rattle.std.specs.Cmp.{on_total, eq_by_cmp_equiv};
    ghost use Rattle.jsonml_tree.specs.Laws.{tree_cmp_total};
    ghost use Rattle.jsonml_tree.specs.View.{tree_view};

    ghost laws = { eq_by_cmp_equiv (on_total tree_view tree_cmp_total) };
}

impl PartialOrd for Tree {
    ghost use Rattle.std.specs.Ordering.{on, as_partial_cmp};
    ghost use Rattle.std.specs.Cmp.{on_total, partial_order_from_total};
    ghost use Rattle.jsonml_tree.specs.Laws.{tree_cmp_total};
    ghost use Rattle.jsonml_tree.specs.Order.{tree_cmp};
    ghost use Rattle.jsonml_tree.specs.View.{tree_view};

    ghost partial_cmp = { as_partial_cmp (on tree_view tree_cmp) };

    ghost laws = { partial_order_from_total (on_total tree_view tree_cmp_total) };

    fn partial_cmp(&self, other: &Tree) -> Option<Ordering> {
        Some(self.order(other))
    }
}

impl Ord for Tree {
    ghost use Rattle.std.proofs.Common.{refl};
    ghost use Rattle.std.specs.Ordering.{on};
    ghost use Rattle.std.specs.Cmp.{on_total};
    ghost use Rattle.jsonml_tree.specs.Laws.{tree_cmp_total};
    ghost use Rattle.jsonml_tree.specs.Order.{tree_cmp};
    ghost use Rattle.jsonml_tree.specs.View.{tree_view};

    ghost cmp = { on tree_view tree_cmp };

    ghost total = { on_total tree_view tree_cmp_total };

    ghost matches_partial_cmp = { λ x y. refl };

    ghost matches_eq = { λ x y. refl };

    fn cmp(&self, other: &Tree) -> Ordering {
        self.order(other)
    }
}

/// The text of these bytes.
pub(crate) fn text_of(alloc: Global, bytes: &str) -> Result<Tree, AllocError>
    ensures { IfOk result (λ t. tree_view t ≡ text bytes.now) }
{
    Ok(Tree::Text(String::from_str(alloc, bytes)?))
}

/// The element of this tag and content.
pub(crate) fn element_of(alloc: Global, tag: &str, content: Content) -> Result<Tree, AllocError>
    ensures { IfOk result (λ t. tree_view t ≡ element tag.now (content_view content)) }
{
    Ok(Tree::Elem {
        tag: String::from_str(alloc, tag)?,
        content,
    })
}

#[cycle(order)]
fn order_items(ours: &[Tree], theirs: &[Tree]) -> Ordering
    ensures { result ≡ slice_cmp tree_cmp (map tree_view ours.now) (map tree_view theirs.now) }
{
    let mut others = theirs.iter();
    for a in ours {
        let Some(b) = others.next() else {
            return Ordering::Greater;
        };
        match a.order(b) {
            Ordering::Equal => {}
            order => return order,
        }
    }
    if others.next().is_some() {
        Ordering::Less
    } else {
        Ordering::Equal
    }
}

pub(crate) fn copy_attrs(alloc: Global, attrs: &[Attr]) -> Result<Vec<Attr>, AllocError>
    ensures { IfOk result (λ v. map attr_view v.items ≡ map attr_view attrs.now) }
{
    let mut copies = Vec::with_capacity(alloc, attrs.len())?;
    for attr in attrs {
        copies.push_reserved(attr.copy(alloc)?);
    }
    Ok(copies)
}

#[cycle(copy)]
fn copy_items(alloc: Global, items: &[Tree]) -> Result<Vec<Tree>, AllocError>
    ensures { IfOk result (λ v. map tree_view v.items ≡ map tree_view items.now) }
{
    let mut copies = Vec::with_capacity(alloc, items.len())?;
    for item in items {
        copies.push_reserved(item.copy(alloc)?);
    }
    Ok(copies)
}

// The depth of the deepest.
#[cycle(depth)]
fn deepest(items: &[Tree]) -> u32
    requires { trees_depth (items_view items.now) < 2 ^ 32 }
    ensures { result ≡ trees_depth (items_view items.now) }
{
    let mut depth = 0;
    for item in items {
        depth = depth.max(item.depth());
    }
    depth
}
