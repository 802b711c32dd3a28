// The parts of records, lent.
use record_parts::{BodyView, LabelView, StampView};

/// The parts of a record that opens a node, or of an alternative.
#[derive(Drop)]
pub enum View<'a> {
    Inner {
        label: LabelView<'a>,
        stamp: StampView<'a>,
    },
    Leaf {
        label: LabelView<'a>,
        stamp: StampView<'a>,
    },
    Alt {
        stamp: StampView<'a>,
        body: BodyView<'a>,
    },
}
