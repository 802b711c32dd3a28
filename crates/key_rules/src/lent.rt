#![tactic(auto, using(jsonml_tree::proofs::Trees::trees))]

ghost use Rattle.std.specs.Prelude.{◌≡◌, map, IfOk};
ghost use Rattle.std.specs.Cmp.Lexicographic.{slice_cmp};
ghost use Rattle.keyed_tree.specs.Order.{key_cmp, label_cmp};
ghost use Rattle.keyed_tree.specs.View.{key_view, label_view};
ghost use Rattle.keyed_tree.specs.LentView.{lent_val_view};
ghost use Rattle.key_rules.specs.LentView.{lent_keys_view, lent_label_view};

use keyed_tree::{KeyVal, Label, LentVal, Name};
use std::alloc::{AllocError, Global};
use std::cmp::Ordering;
use std::slice;

/// The key values of a label. One alone takes no memory.
#[derive(Drop)]
pub enum LentKeys<'a, 't> {
    One(LentVal<'a, 't>),
    Row(Vec<LentVal<'a, 't>>),
}

/// The label of an element, whose key values the document lends. The tag is that of the rule.
#[derive(Drop)]
pub struct LentLabel<'a, 't> {
    pub tag: &'a str,
    pub keys: LentKeys<'a, 't>,
}

impl<'a, 't> LentKeys<'a, 't> {
    /// All of them.
    pub fn as_slice(&self) -> &[LentVal<'a, 't>]
        ensures { map lent_val_view result.now ≡ lent_keys_view self.now }
    {
        match self {
            LentKeys::One(key) => slice::from_ref(key),
            LentKeys::Row(keys) => keys,
        }
    }
}

impl LentLabel<'_, '_> {
    /// The order of labels. It takes no memory.
    pub fn order(&self, other: &LentLabel<'_, '_>) -> Ordering
        ensures { result ≡ label_cmp (lent_label_view self.now) (lent_label_view other.now) }
    {
        match self.tag.cmp(other.tag) {
            Ordering::Equal => order_keys(self.keys.as_slice(), other.keys.as_slice()),
            order => order,
        }
    }

    /// The order of labels, against one of its own. It takes no memory.
    pub fn order_own(&self, other: &Label) -> Ordering
        ensures { result ≡ label_cmp (lent_label_view self.now) (label_view other.now) }
    {
        match &other.name {
            Name::Attr(_) => Ordering::Greater,
            Name::Tag(tag) => match self.tag.cmp(tag.as_str()) {
                Ordering::Equal => order_keys_own(self.keys.as_slice(), &other.keys),
                order => order,
            },
        }
    }

    /// A label of its own with the same value.
    pub fn copy(&self, alloc: Global) -> Result<Label, AllocError>
        ensures { IfOk result (λ l. label_view l ≡ lent_label_view self.now) }
    {
        let name = Name::Tag(String::from_str(alloc, self.tag)?);
        let keys = copy_keys(alloc, self.keys.as_slice())?;
        Ok(Label { name, keys })
    }
}

impl PartialEq for LentLabel<'_, '_> {
    ghost use Rattle.std.specs.Ordering.{eq_by_cmp, on};
    ghost use Rattle.std.specs.Cmp.{on_total, eq_by_cmp_equiv, partial_equiv_from_equiv};
    ghost use Rattle.keyed_tree.specs.Laws.{label_cmp_total};
    ghost use Rattle.keyed_tree.specs.Order.{label_cmp};
    ghost use Rattle.key_rules.specs.LentView.{lent_label_view};

    ghost eq = { eq_by_cmp (on lent_label_view label_cmp) };

    ghost laws = { partial_equiv_from_equiv (eq_by_cmp_equiv (on_total lent_label_view label_cmp_total)) };

    fn eq(&self, other: &Self) -> bool {
        self.order(other).is_eq()
    }
}

impl Eq for LentLabel<'_, '_> {
    ghost use Rattle.std.specs.Cmp.{on_total, eq_by_cmp_equiv};
    ghost use Rattle.keyed_tree.specs.Laws.{label_cmp_total};
    ghost use Rattle.key_rules.specs.LentView.{lent_label_view};

    ghost laws = { eq_by_cmp_equiv (on_total lent_label_view label_cmp_total) };
}

impl PartialOrd for LentLabel<'_, '_> {
    ghost use Rattle.std.specs.Ordering.{on, as_partial_cmp};
    ghost use Rattle.std.specs.Cmp.{on_total, partial_order_from_total};
    ghost use Rattle.keyed_tree.specs.Laws.{label_cmp_total};
    ghost use Rattle.keyed_tree.specs.Order.{label_cmp};
    ghost use Rattle.key_rules.specs.LentView.{lent_label_view};

    ghost partial_cmp = { as_partial_cmp (on lent_label_view label_cmp) };

    ghost laws = { partial_order_from_total (on_total lent_label_view label_cmp_total) };

    fn partial_cmp(&self, other: &Self) -> Option<Ordering> {
        Some(self.order(other))
    }
}

impl Ord for LentLabel<'_, '_> {
    ghost use Rattle.std.proofs.Common.{refl};
    ghost use Rattle.std.specs.Ordering.{on};
    ghost use Rattle.std.specs.Cmp.{on_total};
    ghost use Rattle.keyed_tree.specs.Laws.{label_cmp_total};
    ghost use Rattle.keyed_tree.specs.Order.{label_cmp};
    ghost use Rattle.key_rules.specs.LentView.{lent_label_view};

    ghost cmp = { on lent_label_view label_cmp };

    ghost total = { on_total lent_label_view label_cmp_total };

    ghost matches_partial_cmp = { λ x y. refl };

    ghost matches_eq = { λ x y. refl };

    fn cmp(&self, other: &Self) -> Ordering {
        self.order(other)
    }
}

fn order_keys(ours: &[LentVal<'_, '_>], theirs: &[LentVal<'_, '_>]) -> Ordering
    ensures { result
        ≡ slice_cmp key_cmp (map lent_val_view ours.now) (map lent_val_view theirs.now) }
{
    let mut others = theirs.iter();
    for a in ours {
        let Some(b) = others.next() else {
            return Ordering::Greater;
        };
        match a.order(*b) {
            Ordering::Equal => {}
            order => return order,
        }
    }
    if others.next().is_some() {
        Ordering::Less
    } else {
        Ordering::Equal
    }
}

fn order_keys_own(ours: &[LentVal<'_, '_>], theirs: &[KeyVal]) -> Ordering
    ensures { result ≡ slice_cmp key_cmp (map lent_val_view ours.now) (map key_view theirs.now) }
{
    let mut others = theirs.iter();
    for a in ours {
        let Some(b) = others.next() else {
            return Ordering::Greater;
        };
        match a.order_own(b) {
            Ordering::Equal => {}
            order => return order,
        }
    }
    if others.next().is_some() {
        Ordering::Less
    } else {
        Ordering::Equal
    }
}

fn copy_keys(alloc: Global, keys: &[LentVal<'_, '_>]) -> Result<Vec<KeyVal>, AllocError>
    ensures { IfOk result (λ v. map key_view v.items ≡ map lent_val_view keys.now) }
{
    let mut copies = Vec::with_capacity(alloc, keys.len())?;
    for key in keys {
        copies.push_reserved(key.own(alloc)?);
    }
    Ok(copies)
}
