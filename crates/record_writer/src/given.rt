// Labels and bodies that are given to a writer.
use keyed_tree::{Body, Label, LentVal, NameView};
use record_format::{BodyView, LabelView};

/// A label that a record lends, a new one, or one that a document lends. What a record lends is written as it stands, byte by
/// byte.
#[derive(Drop)]
pub enum LabelFrom<'a, 't> {
    Old(LabelView<'a>),
    New(&'a Label),
    Lent {
        name: NameView<'a>,
        keys: &'a [LentVal<'a, 't>],
    },
}

/// A body that a record lends, a new one, or one that a document lends. What a record lends is written as it stands, byte by
/// byte.
#[derive(Drop)]
pub enum BodyFrom<'a, 't> {
    Old(BodyView<'a>),
    New(&'a Body),
    Lent(LentVal<'a, 't>),
}
