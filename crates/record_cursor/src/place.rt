// Where a cursor stands among the nodes of a file.
ghost use Rattle.std.specs.Prelude.{◌≡◌, option_map};
ghost use Rattle.record_cursor.specs.Steps.{after_kind, after_kind_in_nodes, after_kind_in_leaf};
ghost use Rattle.record_cursor.specs.View.{place_view};

use record_format::{ALT, DEEPEST, END, INNER, LEAF, LEAF_END};

/// Where the next record comes, and below how many open inner nodes; or, behind the END of the
/// root, the length of its body.
#[derive(Clone, Copy)]
pub(crate) enum Place {
    Nodes { depth: u32 },
    Leaf { depth: u32 },
    Tail { length: u64 },
    Finished,
}

/// Where a record of this kind, with a body of so many bytes, leads, if it may come there.
#[inline(always)]
pub(crate) fn behind(place: Place, kind: u8, size: u64) -> Option<Place>
    ensures { option_map place_view result ≡ after_kind (place_view place) kind size }
{
    match place {
        Place::Nodes { depth } => behind_nodes(depth, kind, size),
        Place::Leaf { depth } => behind_leaf(depth, kind, size),
        Place::Tail { .. } | Place::Finished => None,
    }
}

#[inline(always)]
fn behind_nodes(depth: u32, kind: u8, size: u64) -> Option<Place>
    ensures { option_map place_view result ≡ after_kind_in_nodes depth size kind }
{
    match kind {
        INNER if depth < DEEPEST => Some(Place::Nodes { depth: depth + 1 }),
        LEAF => Some(Place::Leaf { depth }),
        END if depth == 0 => Some(Place::Tail { length: size }),
        END => Some(Place::Nodes { depth: depth - 1 }),
        _ => None,
    }
}

#[inline(always)]
fn behind_leaf(depth: u32, kind: u8, size: u64) -> Option<Place>
    ensures { option_map place_view result ≡ after_kind_in_leaf depth size kind }
{
    match kind {
        ALT => Some(Place::Leaf { depth }),
        LEAF_END if size == 0 => Some(Place::Nodes { depth }),
        _ => None,
    }
}
