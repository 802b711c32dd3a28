// The alternatives of one leaf, which are held until all have been read.
ghost use Rattle.std.specs.Prelude.{◌≡◌, ◌≢◌, ◌≤◌, [], ◌∷◌, ◌++◌, None, OnOk, IfOk};
ghost use Rattle.version_set.specs.Members.{members};
ghost use Rattle.version_set.specs.View.{pairs_of};
ghost use Rattle.archive_tree.specs.Stands.{head_or};
ghost use Rattle.archive_tree.specs.View.{stamp_view};
ghost use Rattle.xa_fields.specs.Reading.{whole};
ghost use Rattle.record_parts.specs.Reading.{value_at};
ghost use Rattle.record_parts.specs.ShownViews.{value_in, shown_stamp, shown_body};
ghost use Rattle.record_parts.specs.Whole.{IsValueBytes};
ghost use Rattle.archive_cut.specs.Held.{Holds, InOrder, Pushed};

use crate::held::Held;
use crate::window::{Window, cut_stamp};
use archive_tree::effective;
use record_format::{BodyView, StampView};
use record_parts::parts_are_read_as_spelled;
use std::alloc::{AllocError, Global};
use version_set::VersionSet;

/// Holds what is left of an alternative of a leaf of which this set is left.
pub(crate) fn hold(
    window: &Window,
    now: &VersionSet,
    stamp: StampView<'_>,
    body: BodyView<'_>,
    held: &mut Vec<Held>,
) -> Result<(), AllocError>
    ensures { OnOk result (Holds window.entry.now.first window.entry.now.last
        (pairs_of now.entry.now)
        (record { stamp = shown_stamp stamp.entry; body = shown_body body.entry })
        held.old.items held.new.items) }
{
    let old = stamp.copy(window.alloc)?;
    match cut_stamp(window, &old, now)? {
        Some(new) => push(window.alloc, now, new, body, held),
        None => Ok(()),
    }
}

// Holds an alternative with this stamp, of a leaf that has the set.
fn push(
    alloc: Global,
    now: &VersionSet,
    stamp: Option<VersionSet>,
    body: BodyView<'_>,
    held: &mut Vec<Held>,
) -> Result<(), AllocError>
    ensures { OnOk result (Pushed (pairs_of now.entry.now)
        (record { stamp = stamp_view stamp; body = shown_body body.entry })
        held.old.items held.new.items) }
{
    let first = first_of(effective(&stamp, now));
    let body = copied(alloc, body)?;
    held.push(Held { first, stamp, body })?;
    Ok(())
}

// The bytes of a body.
fn copied(alloc: Global, body: BodyView<'_>) -> Result<Vec<u8>, AllocError>
    ensures valid { IfOk result (λ v. IsValueBytes v.items) }
    ensures same { IfOk result (λ v.
        value_in (whole value_at v.items) ≡ shown_body body.entry) }
{
    parts_are_read_as_spelled();
    Vec::from_slice(alloc, body.bytes())
}

// The least of the versions, 0 where there is none.
fn first_of(set: &VersionSet) -> u32
    ensures { result ≡ head_or 0 (members (pairs_of set.now)) }
{
    match set.pairs().first() {
        Some(pair) => pair.0,
        None => 0,
    }
}

/// Puts them into the order of their first versions.
pub(crate) fn in_order(mut held: Vec<Held>) -> Vec<Held>
    ensures { InOrder held.items result.items }
{
    held.sort_unstable_by_key(|alternative| alternative.first);
    held
}
