// Labels, timestamps and bodies that are lent out of bytes.
ghost use Rattle.record_parts.specs.Whole.{IsLabelBytes, IsStampBytes, IsValueBytes};

/// A label, seen as the label that it shows.
#[derive(Clone, Copy)]
pub struct LabelView<'a> {
    pub(crate) bytes: &'a [u8],
    ghost valid: { IsLabelBytes bytes.now },
}

/// A timestamp, seen as the timestamp that it shows.
#[derive(Clone, Copy)]
pub struct StampView<'a> {
    pub(crate) bytes: &'a [u8],
    ghost valid: { IsStampBytes bytes.now },
}

/// A body, seen as the body that it shows.
#[derive(Clone, Copy)]
pub struct BodyView<'a> {
    pub(crate) bytes: &'a [u8],
    ghost valid: { IsValueBytes bytes.now },
}
