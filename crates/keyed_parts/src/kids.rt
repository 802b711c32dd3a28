// The kids of a node, one after another.
ghost use Rattle.std.specs.Prelude.{◌≡◌, ◌∷◌, [], None, IfSome};
ghost use Rattle.key_annotate.specs.LentView.{lent_view};
ghost use Rattle.keyed_parts.specs.View.{kid_view, kids_view};

use crate::kid::Kid;
use jsonml_tree::LentAttr;
use key_annotate::LentKeyed;
use std::slice;

/// The kids of a lent keyed tree that are left, in the order of their labels.
///
/// It is a few references: a copy costs next to nothing.
#[derive(Clone, Copy)]
pub struct Kids<'k, 'a, 't> {
    pub(crate) attrs: &'k [LentAttr<'t>],
    pub(crate) nodes: &'k [LentKeyed<'a, 't>],
}

impl<'k, 'a, 't> Kids<'k, 'a, 't> {
    /// The row that has this tree alone.
    pub fn only(tree: &'k LentKeyed<'a, 't>) -> Kids<'k, 'a, 't>
        ensures { kids_view result ≡ lent_view tree.now ∷ [] }
    {
        Kids {
            attrs: none(),
            nodes: slice::from_ref(tree),
        }
    }

    /// The first kid and those behind it.
    pub fn split_first(self) -> Option<(Kid<'k, 'a, 't>, Kids<'k, 'a, 't>)>
        ensures some { IfSome result (λ r. kids_view self.entry ≡ kid_view r.0 ∷ kids_view r.1) }
        ensures none { result ≡ None → kids_view self.entry ≡ [] }
    {
        if let Some((attr, attrs)) = self.attrs.split_first() {
            let rest = Kids {
                attrs,
                nodes: self.nodes,
            };
            return Some((Kid::Attr(attr), rest));
        }
        match self.nodes.split_first() {
            Some((node, nodes)) => {
                let rest = Kids {
                    attrs: self.attrs,
                    nodes,
                };
                Some((Kid::Node(node), rest))
            }
            None => None,
        }
    }
}

/// The row that has nothing.
fn none<'k, T>() -> &'k [T]
    ensures { result.now ≡ [] }
{
    &[]
}
