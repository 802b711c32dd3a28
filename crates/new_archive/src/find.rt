// The place of a kid's label in a row, by halving.
ghost use Rattle.std.specs.Prelude.{◌≡◌, map};
ghost use Rattle.keyed_tree.specs.Data.{label_of};
ghost use Rattle.keyed_tree.specs.Lists.{Ascends};
ghost use Rattle.keyed_tree.specs.Order.{label_cmp};
ghost use Rattle.keyed_parts.specs.View.{kid_view};
ghost use Rattle.new_archive.specs.Full.{full_label};
ghost use Rattle.new_archive.specs.Place.{IsPlaceOf};
ghost use Rattle.new_archive.specs.View.{full_view, row_view};

use crate::node::NewNode;
use keyed_parts::Kid;
use std::cmp::Ordering;

// The place of the node that has the kid's label, or the place where it would stand. Where it is
// the first node, or none before that, it looks at no other.
pub fn place_of(row: &[NewNode], kid: Kid<'_, '_, '_>) -> Result<usize, usize>
    requires { Ascends label_cmp (map full_label (row_view row.now)) }
    ensures { IsPlaceOf (label_of (kid_view kid.entry)) (row_view row.now) result }
{
    let Some(node) = row.first() else {
        return Err(0);
    };
    match order(node, kid) {
        Ordering::Equal => Ok(0),
        Ordering::Greater => Err(0),
        Ordering::Less => halve(row, kid),
    }
}

fn halve(row: &[NewNode], kid: Kid<'_, '_, '_>) -> Result<usize, usize>
    requires { Ascends label_cmp (map full_label (row_view row.now)) }
    ensures { IsPlaceOf (label_of (kid_view kid.entry)) (row_view row.now) result }
{
    row.binary_search_by(|node| order(node, kid))
}

// The order of a node's label, against that of a kid.
fn order(node: &NewNode, kid: Kid<'_, '_, '_>) -> Ordering
    ensures { result ≡ label_cmp (full_label (full_view node.now)) (label_of (kid_view kid.entry)) }
{
    kid.order(node.label()).reverse()
}
