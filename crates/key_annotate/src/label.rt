#![tactic(auto, using(jsonml_tree::proofs::Trees::trees, keyed_tree::proofs::Views::views))]

ghost use Rattle.std.specs.Cmp.Lexicographic.{slice_cmp};
ghost use Rattle.std.specs.Prelude.{◌≡◌, [], IfOk, map};
ghost use Rattle.keyed_tree.specs.Order.{key_cmp, label_cmp};
ghost use Rattle.keyed_tree.specs.Plain.{name_bytes};
ghost use Rattle.keyed_tree.specs.View.{label_view};
ghost use Rattle.keyed_tree.specs.LentView.{lent_val_view};
ghost use Rattle.key_rules.specs.LentView.{lent_label_view};
ghost use Rattle.key_annotate.specs.LabelView.{key_list_view, key_of_text, keyed_label_view, label_of_one, label_of_tag, text_key_view, values_view};

use crate::fronted::Fronted;
use jsonml_tree::{LentContent, LentScalar};
use key_rules::{LentKeys, LentLabel};
use keyed_tree::{Label, LentVal, Name};
use std::alloc::{AllocError, Global};
use std::cmp::Ordering;
use std::slice;

/// The label of a keyed tree that a document lends.
#[derive(Drop)]
pub struct KeyedLabel<'a, 't> {
    values: Values<'a, 't>,
}

/// A tag and its key values. Mostly it is one, and a text.
#[derive(Drop)]
enum Values<'a, 't> {
    Text { tag: &'a str, key: TextKey<'a> },
    Other(LentLabel<'a, 't>),
}

/// A key value that is one text: a scalar, or all that an element holds.
#[derive(Clone, Copy)]
struct TextKey<'a> {
    text: Fronted<'a>,
    is_scalar: bool,
}

/// The key values of a label.
#[derive(Clone, Copy)]
pub enum KeyList<'k, 'a, 't> {
    One(LentVal<'a, 't>),
    Row(&'k [LentVal<'a, 't>]),
}

impl<'a, 't> KeyList<'_, 'a, 't> {
    /// All of them.
    pub fn as_slice(&self) -> &[LentVal<'a, 't>]
        ensures { map lent_val_view result.now ≡ key_list_view self.now }
    {
        match self {
            KeyList::One(key) => slice::from_ref(key),
            KeyList::Row(keys) => keys,
        }
    }
}

impl<'a> TextKey<'a> {
    /// A scalar before a content, and both by the bytes of their texts.
    #[tactic(auto, using(crate::proofs::TextKeys::same_kind))]
    fn order(&self, other: &TextKey<'_>) -> Ordering
        ensures { result ≡ key_cmp (text_key_view self.now) (text_key_view other.now) }
    {
        if self.is_scalar == other.is_scalar {
            return self.text.order(&other.text);
        }
        if self.is_scalar {
            Ordering::Less
        } else {
            Ordering::Greater
        }
    }

    /// The key value as the document lends it.
    fn lent<'t>(&self) -> LentVal<'a, 't>
        ensures { lent_val_view result ≡ text_key_view self.now }
    {
        if self.is_scalar {
            LentVal::Scalar(LentScalar::Text(self.text.text()))
        } else {
            LentVal::Content(LentContent::Text(self.text.text()))
        }
    }
}

impl<'a, 't> KeyedLabel<'a, 't> {
    pub(crate) fn new(label: LentLabel<'a, 't>) -> KeyedLabel<'a, 't>
        ensures { keyed_label_view result ≡ lent_label_view label.entry }
    {
        let values = values_of(label);
        KeyedLabel { values }
    }

    /// The tag.
    pub fn tag(&self) -> &'a str
        ensures { result.now ≡ name_bytes (keyed_label_view self.now).name }
    {
        match &self.values {
            Values::Text { tag, .. } => tag,
            Values::Other(label) => label.tag,
        }
    }

    /// The order of labels. It takes no memory.
    pub(crate) fn order(&self, other: &KeyedLabel<'_, '_>) -> Ordering
        ensures { result ≡ label_cmp (keyed_label_view self.now) (keyed_label_view other.now) }
    {
        order_values(&self.values, &other.values)
    }

    /// The order of labels, against one of its own. It takes no memory.
    pub fn order_own(&self, other: &Label) -> Ordering
        ensures { result ≡ label_cmp (keyed_label_view self.now) (label_view other.now) }
    {
        match &self.values {
            Values::Text { tag, key } => lent_label(tag, key).order_own(other),
            Values::Other(label) => label.order_own(other),
        }
    }

    /// The order of labels, against a tag without key values. It takes no memory.
    pub(crate) fn order_tag(&self, tag: &str) -> Ordering
        ensures { result ≡ label_cmp (keyed_label_view self.now) (label_of_tag tag.now) }
    {
        match self.tag().cmp(tag) {
            Ordering::Equal => order_none(self.keys().as_slice()),
            order => order,
        }
    }

    /// The key values.
    pub fn keys(&self) -> KeyList<'_, 'a, 't>
        ensures { key_list_view result ≡ (keyed_label_view self.now).keys }
    {
        match &self.values {
            Values::Text { key, .. } => KeyList::One(key.lent()),
            Values::Other(label) => KeyList::Row(label.keys.as_slice()),
        }
    }

    /// A label of its own with the same value.
    pub fn copy(&self, alloc: Global) -> Result<Label, AllocError>
        ensures { IfOk result (λ l. label_view l ≡ keyed_label_view self.now) }
    {
        match &self.values {
            Values::Text { tag, key } => lent_label(tag, key).copy(alloc),
            Values::Other(label) => label.copy(alloc),
        }
    }
}

/// Key values against none.
fn order_none(keys: &[LentVal<'_, '_>]) -> Ordering
    ensures { result ≡ slice_cmp key_cmp (map lent_val_view keys.now) [] }
{
    if keys.is_empty() {
        Ordering::Equal
    } else {
        Ordering::Greater
    }
}

fn values_of<'a, 't>(label: LentLabel<'a, 't>) -> Values<'a, 't>
    ensures { values_view result ≡ lent_label_view label.entry }
{
    match &label.keys {
        LentKeys::One(LentVal::Content(LentContent::Text(text))) => text_values(
            label.tag, text, false,
        ),
        LentKeys::One(LentVal::Scalar(LentScalar::Text(text))) => {
            text_values(label.tag, text, true)
        }
        _ => Values::Other(label),
    }
}

fn text_values<'a, 't>(tag: &'a str, text: &'a str, is_scalar: bool) -> Values<'a, 't>
    ensures { values_view result ≡ label_of_one tag.now (key_of_text is_scalar text.now) }
{
    let text = Fronted::new(text);
    let key = TextKey { text, is_scalar };
    Values::Text { tag, key }
}

fn order_values(ours: &Values<'_, '_>, theirs: &Values<'_, '_>) -> Ordering
    ensures { result ≡ label_cmp (values_view ours.now) (values_view theirs.now) }
{
    match (ours, theirs) {
        (Values::Text { tag: a, key: k }, Values::Text { tag: b, key: l }) => match a.cmp(b) {
            Ordering::Equal => k.order(l),
            order => order,
        },
        (Values::Text { tag, key }, Values::Other(label)) => lent_label(tag, key).order(label),
        (Values::Other(label), Values::Text { tag, key }) => label.order(&lent_label(tag, key)),
        (Values::Other(a), Values::Other(b)) => a.order(b),
    }
}

/// The label as the document lends it.
fn lent_label<'a, 't>(tag: &'a str, key: &TextKey<'a>) -> LentLabel<'a, 't>
    ensures { lent_label_view result ≡ label_of_one tag.now (text_key_view key.now) }
{
    let keys = LentKeys::One(key.lent());
    LentLabel { tag, keys }
}

/// A tag without key values against a label. It takes no memory.
pub(crate) fn order_tag_own(tag: &str, other: &Label) -> Ordering
    ensures { result ≡ label_cmp (label_of_tag tag.now) (label_view other.now) }
{
    let Name::Tag(theirs) = &other.name else {
        return Ordering::Greater;
    };
    match tag.cmp(theirs.as_str()) {
        Ordering::Equal if !other.keys.is_empty() => Ordering::Less,
        order => order,
    }
}

/// A label of its own of this tag without key values.
pub(crate) fn copy_tag(alloc: Global, tag: &str) -> Result<Label, AllocError>
    ensures { IfOk result (λ l. label_view l ≡ label_of_tag tag.now) }
{
    let name = Name::Tag(String::from_str(alloc, tag)?);
    let keys = Vec::new(alloc);
    Ok(Label { name, keys })
}
