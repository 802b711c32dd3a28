#![tactic(auto, using(jsonml_tree::proofs::Trees::trees, keyed_tree::proofs::Views::views, crate::proofs::LentViews::lent_views))]

ghost use Rattle.std.specs.Prelude.{◌≡◌, map};
ghost use Rattle.std.specs.Option.{option_map};
ghost use Rattle.keyed_tree.specs.Data.{kids_from};
ghost use Rattle.keyed_tree.specs.Kids.{ascend};
ghost use Rattle.key_annotate.specs.LentView.{lent_view};
ghost use Rattle.key_annotate.specs.Ordered.{kids_in_order};

use crate::lent::LentKeyed;

/// The kids in the order of their labels, unless two have the same label. It takes no memory.
pub(crate) fn in_order<'a, 't>(mut kids: Vec<LentKeyed<'a, 't>>) -> Option<Vec<LentKeyed<'a, 't>>>
    ensures { option_map (λ ks. map lent_view ks.items) result
        ≡ kids_in_order (map lent_view kids.entry.items) }
{
    kids.sort_unstable_by(|a, b| a.order(b));
    if ascends(&kids) { Some(kids) } else { None }
}

/// Whether each label is above the one before it.
fn ascends(kids: &[LentKeyed<'_, '_>]) -> bool
    ensures { result ≡ ascend (kids_from (map lent_view kids.now)) }
{
    for i in 1..kids.len() {
        if !kids[i - 1].order(&kids[i]).is_lt() {
            return false;
        }
    }
    true
}
