// What a cursor gives.
ghost use Rattle.std.specs.Prelude.{◌≡◌, length, option_map, IfSome};
ghost use Rattle.record_format.specs.Reading.{record_of};
ghost use Rattle.record_format.specs.Whole.{with_parts};
ghost use Rattle.record_cursor.specs.Items.{item_of};
ghost use Rattle.record_cursor.specs.Steps.{IsRead, IsLent, read_item};
ghost use Rattle.record_cursor.specs.View.{shown_item};
ghost use Rattle.record_cursor.specs.declared.item.Read.TheVariants.{Parts};

use record_format::{BodyView, LabelView, StampView, View, view_body};

/// A record, whose parts are lent, or that the file ended as it should.
#[derive(Drop)]
pub enum Item<'a> {
    /// An inner node opens.
    Inner {
        label: LabelView<'a>,
        stamp: StampView<'a>,
    },
    /// A leaf opens.
    Leaf {
        label: LabelView<'a>,
        stamp: StampView<'a>,
    },
    /// The next alternative of the leaf that is open.
    Alt {
        stamp: StampView<'a>,
        body: BodyView<'a>,
    },
    /// The leaf closes.
    LeafEnd,
    /// The last open inner node closes, or the virtual root: the length of its directory.
    End {
        length: u64,
    },
    /// The file ended behind the virtual root.
    Finish,
}

/// What was read of a record: its kind, where the bytes of the buffer are parts to lend.
#[derive(Clone, Copy)]
pub(crate) enum Read {
    Parts { kind: u8 },
    LeafEnd,
    End { length: u64 },
    Finish,
}

/// The item that was read, with its parts lent out of the buffer.
#[inline(always)]
pub(crate) fn lend(read: Read, buffer: &[u8]) -> Option<Item<'_>>
    ensures found { option_map shown_item result ≡ read_item read buffer.now }
    ensures is { IfSome result (λ item. IsRead read (length buffer.now) (shown_item item)) }
    ensures spelled { IfSome result (λ item. IsLent read buffer.now (shown_item item)) }
{
    match read {
        Read::Parts { kind } => lend_parts(kind, buffer),
        Read::LeafEnd => Some(Item::LeafEnd),
        Read::End { length } => Some(Item::End { length }),
        Read::Finish => Some(Item::Finish),
    }
}

#[inline(always)]
fn lend_parts(kind: u8, body: &[u8]) -> Option<Item<'_>>
    ensures found { option_map shown_item result
        ≡ option_map item_of (with_parts (record_of kind body.now)) }
    ensures is { IfSome result (λ item. IsRead (Parts kind) (length body.now) (shown_item item)) }
    ensures spelled { IfSome result (λ item. IsLent (Parts kind) body.now (shown_item item)) }
{
    match view_body(kind, body)? {
        View::Inner { label, stamp } => Some(Item::Inner { label, stamp }),
        View::Leaf { label, stamp } => Some(Item::Leaf { label, stamp }),
        View::Alt { stamp, body } => Some(Item::Alt { stamp, body }),
    }
}
