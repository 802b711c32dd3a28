/// The last call of a printer: none, one that began an element, an attribute, or a text or the end of an element. A printer
/// of what an element holds has opened an array, and nothing stands in it yet.
#[derive(Clone, Copy)]
pub(crate) enum Last {
    Nothing,
    Opened,
    Begun,
    Attribute,
    Item,
}
