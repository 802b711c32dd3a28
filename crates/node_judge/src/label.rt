// A label that is kept.
ghost use Rattle.std.specs.Prelude.{◌==◌, ◌||◌, is_some, length, IsTrue};
ghost use Rattle.record_parts.specs.Reading.{label_at};
ghost use Rattle.xa_fields.specs.Reading.{whole};

use record_parts::{LabelView, lend_label};
use std::alloc::{AllocError, Global};

/// A label as its encoding, in room that is used again; no bytes before the first label.
#[derive(Drop)]
pub struct KeptLabel {
    bytes: Vec<u8>,
    ghost valid: { IsTrue (length bytes.items == 0 || is_some (whole label_at bytes.items)) },
}

impl KeptLabel {
    ghost use Rattle.std.specs.Prelude.{◌≡◌, None, Some, IsSome, OnOk};
    ghost use Rattle.record_parts.specs.ShownViews.{shown_label};
    ghost use Rattle.node_judge.specs.FrameView.{kept_label};
    ghost use Rattle.node_judge.specs.Rows.{is_above};

    /// No label yet. It takes no memory.
    pub fn none(alloc: Global) -> KeptLabel
        ensures { kept_label result ≡ None }
    {
        KeptLabel {
            bytes: Vec::new(alloc),
        }
    }

    /// Whether the label may come behind it. It takes no memory.
    pub(crate) fn is_below(&self, label: &LabelView<'_>) -> bool
        ensures { result ≡ is_above (kept_label self.now) (shown_label label.now) }
    {
        if self.bytes.is_empty() {
            return true;
        }
        lend_label(&self.bytes).compare(label).is_lt()
    }

    /// Keeps the label. The one before it is let go, and its room used.
    pub fn set(&mut self, label: &LabelView<'_>) -> Result<(), AllocError>
        ensures { OnOk result (kept_label self.new ≡ Some (shown_label label.now)) }
    {
        self.bytes.clear();
        self.bytes.extend_from_slice(label.bytes())
    }

    /// The label that is kept.
    pub fn lend(&self) -> LabelView<'_>
        requires { IsSome (kept_label self.now) }
        ensures { Some (shown_label result) ≡ kept_label self.now }
    {
        lend_label(&self.bytes)
    }
}
