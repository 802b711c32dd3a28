// The order of labels as they stand in bytes. A comparison ends where it is decided.
ghost use Rattle.std.specs.Prelude.{◌≡◌, drop, map};
ghost use Rattle.std.specs.Cmp.Lexicographic.{slice_cmp};
ghost use Rattle.keyed_tree.specs.Order.{key_cmp, label_cmp};
ghost use Rattle.keyed_tree.specs.View.{key_view, label_view};
ghost use Rattle.xa_fields.specs.Reading.{many_at};
ghost use Rattle.record_parts.specs.Reading.{value_at, label_at};
ghost use Rattle.record_parts.specs.Compares.{Compares};

use crate::lent::lent_name;
use crate::order_scalars::order_name;
use crate::order_values::order_value;
use keyed_tree::{KeyVal, Label};
use std::cmp::Ordering;
use xa_fields::take_u32;

fn order_keys(bytes: &[u8], at: usize, count: u32, others: &[KeyVal]) -> Option<(Ordering, usize)>
    ensures { Compares (λ ks. slice_cmp key_cmp ks (map key_view others.now))
        (many_at value_at count (drop at bytes.now)) bytes.now result }
{
    let mut at = at;
    let mut rest = others;
    for _ in 0..count {
        let Some((other, tail)) = rest.split_first() else {
            return Some((Ordering::Greater, at));
        };
        let Some((order, next)) = order_value(bytes, at, other) else {
            return None;
        };
        if order.is_ne() {
            return Some((order, next));
        }
        at = next;
        rest = tail;
    }
    if rest.is_empty() {
        return Some((Ordering::Equal, at));
    }
    Some((Ordering::Less, at))
}

/// The order of the label at the offset, and, if it is equal, the offset behind it.
pub fn order_label(bytes: &[u8], at: usize, other: &Label) -> Option<(Ordering, usize)>
    ensures { Compares (λ l. label_cmp l (label_view other.now))
        (label_at (drop at bytes.now)) bytes.now result }
{
    let Some((order, at)) = order_name(bytes, at, lent_name(&other.name)) else {
        return None;
    };
    if order.is_ne() {
        return Some((order, at));
    }
    let Some((count, at)) = take_u32(bytes, at) else {
        return None;
    };
    order_keys(bytes, at, count, &other.keys)
}
