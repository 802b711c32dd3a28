// The order of attributes' labels, against labels of their own.
ghost use Rattle.std.specs.Prelude.{◌≡◌, [], map};
ghost use Rattle.std.specs.Cmp.Lexicographic.{slice_cmp};
ghost use Rattle.std.specs.Ordering.{ordering_then};
ghost use Rattle.jsonml_tree.specs.LentAttrs.{lent_attr_view};
ghost use Rattle.jsonml_tree.specs.Order.{text_cmp};
ghost use Rattle.keyed_tree.specs.Data.{label_of};
ghost use Rattle.keyed_tree.specs.Order.{key_cmp, label_cmp};
ghost use Rattle.keyed_tree.specs.View.{key_view, label_view};
ghost use Rattle.key_annotate.specs.KeyedOf.{attr_leaf};

use jsonml_tree::LentAttr;
use keyed_tree::{KeyVal, Label, Name};
use std::cmp::Ordering;

/// The label of an attribute against another.
pub(crate) fn order_attr(attr: &LentAttr<'_>, other: &Label) -> Ordering
    ensures { result
        ≡ label_cmp (label_of (attr_leaf (lent_attr_view attr.now))) (label_view other.now) }
{
    match &other.name {
        Name::Attr(name) => order_alone(attr.name(), name.as_str(), &other.keys),
        Name::Tag(_) => Ordering::Less,
    }
}

/// A name without key values against another name and its key values.
fn order_alone(ours: &str, theirs: &str, keys: &[KeyVal]) -> Ordering
    ensures { result
        ≡ ordering_then (text_cmp ours.now theirs.now)
        (slice_cmp key_cmp [] (map key_view keys.now)) }
{
    match ours.cmp(theirs) {
        Ordering::Equal if !keys.is_empty() => Ordering::Less,
        order => order,
    }
}
