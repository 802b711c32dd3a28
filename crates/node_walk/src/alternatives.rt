// The alternatives of a leaf.
ghost use Rattle.std.specs.Prelude.{◌≡◌, ◌≤◌};
ghost use Rattle.node_judge.specs.FrameView.{leaf_view};
ghost use Rattle.node_judge.specs.HeldView.{held_leaf, held_view};
ghost use Rattle.node_walk.specs.Places.{IsInLeaf};
ghost use Rattle.record_parts.specs.ShownViews.{shown_body, shown_stamp};
ghost use Rattle.node_walk.specs.Walked.{AltHeld, AlternativeJudged, AlternativesJudged};
ghost use Rattle.node_walk.specs.Seen.{seen};

use crate::verdict::or_damage;
use node_judge::{Held, Leaf};
use record_cursor::{Cursor, CursorFault, Item};
use record_parts::{BodyView, StampView};
use std::alloc::Global;
use xa_outside::Folder;

/// Judges the alternatives of a leaf, to the record that closes it.
pub(crate) fn judge_alternatives<F: Folder>(
    alloc: Global,
    folder: &mut F,
    cursor: &mut Cursor,
    leaf: Leaf<'_>,
) -> Result<(), CursorFault>
    requires within { cursor.old.at ≤ cursor.old.length }
    requires inside { IsInLeaf cursor.old.standing }
    ensures { AlternativesJudged (leaf_view leaf.entry)
        (seen F.files F.draft F.numbers F.faults folder.old cursor.old)
        (seen F.files F.draft F.numbers F.faults folder.new cursor.new) result }
{
    let mut held = Held::of(alloc, leaf);
    loop {
        if !judge_alternative(alloc, folder, cursor, &mut held)? {
            return or_damage(held.close());
        }
    }
}

/// Holds the next alternative of the leaf, or passes over the record that closes it, where there is
/// no more: then it answers false.
fn judge_alternative<F: Folder>(
    alloc: Global,
    folder: &mut F,
    cursor: &mut Cursor,
    held: &mut Held<'_>,
) -> Result<bool, CursorFault>
    requires within { cursor.old.at ≤ cursor.old.length }
    requires inside { IsInLeaf cursor.old.standing }
    ensures leaf { held_leaf held.new ≡ held_leaf held.old }
    ensures judged { AlternativeJudged (held_leaf held.old)
        (held_view held.old) (held_view held.new)
        (seen F.files F.draft F.numbers F.faults folder.old cursor.old)
        (seen F.files F.draft F.numbers F.faults folder.new cursor.new) result }
{
    match cursor.next(folder) {
        Ok(Item::Alt { stamp, body }) => hold(alloc, held, &stamp, &body),
        Ok(Item::LeafEnd) => Ok(false),
        Ok(_) => Err(CursorFault::Damage),
        Err(fault) => Err(fault),
    }
}

/// Holds the alternative with this timestamp and this body. One that is not right is damage.
fn hold(
    alloc: Global,
    held: &mut Held<'_>,
    stamp: &StampView<'_>,
    body: &BodyView<'_>,
) -> Result<bool, CursorFault>
    ensures leaf { held_leaf held.new ≡ held_leaf held.old }
    ensures held { AltHeld (held_leaf held.old) (held_view held.old) (held_view held.new)
        (record { stamp = shown_stamp stamp.now; body = shown_body body.now }) result }
{
    let stamp = stamp.copy(alloc)?;
    if !held.is_body(alloc, body)? {
        return Err(CursorFault::Damage);
    }
    if held.add(alloc, &stamp, body)? {
        Ok(true)
    } else {
        Err(CursorFault::Damage)
    }
}
