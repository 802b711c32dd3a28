// The next node of a row in each archive, as far as there is one.
ghost use Rattle.std.specs.Prelude.{◌≡◌, ◌≤◌, None, IsSome};
ghost use Rattle.std.specs.Option.{option_map};
ghost use Rattle.archive_join.specs.Heads.{HeadsRead, PassedAlone, head_cmp, one_of, turn, two_of};
ghost use Rattle.archive_join.specs.State.{beside};
ghost use Rattle.record_copy.specs.Faults.{fault_of};
ghost use Rattle.record_copy.specs.Parts.{head_view};
ghost use Rattle.record_copy.specs.State.{state};
ghost use Rattle.record_writer.specs.Data.{PlainWriter};
ghost use Rattle.record_writer.specs.View.{writer_view};
ghost use Rattle.version_set.specs.View.{pairs_of};

use crate::fault::{JoinFault, of_side};
use crate::sets::alone_stamp;
use crate::sides::Sides;
use archive_tree::effective;
use record_copy::{CopyFault, Head, Raise, copy_node, read_head};
use record_cursor::Cursor;
use record_parts::lend_label;
use record_writer::Writer;
use std::cmp::Ordering;
use version_set::VersionSet;
use xa_outside::Folder;

/// The next node of a row in the first archive, and in the second, or None behind the last.
#[derive(Drop)]
pub(crate) struct Heads {
    pub one: Option<Head>,
    pub two: Option<Head>,
}

/// Reads the next node of a row in each archive, or the END behind the row.
pub(crate) fn read_heads<F: Folder>(
    sides: &Sides,
    folder: &mut F,
    left: &mut Cursor,
    right: &mut Cursor,
) -> Result<Heads, JoinFault>
    requires left { left.old.at ≤ left.old.length }
    requires right { right.old.at ≤ right.old.length }
    ensures { (w : PlainWriter) → HeadsRead sides.entry.now.two.by
        (beside F.files F.draft F.numbers F.faults folder.old left.old right.old w)
        (beside F.files F.draft F.numbers F.faults folder.new left.new right.new w)
        result }
{
    let one = of_side(false, read_head(&sides.one, folder, left))?;
    let two = of_side(true, read_head(&sides.two, folder, right))?;
    Ok(Heads { one, two })
}

/// Which of them comes next: less is that of the first alone, greater that of the second, equal are
/// both; or None where there is none.
pub(crate) fn next_of(heads: &Heads) -> Option<Ordering>
    ensures { result ≡ turn (one_of heads.now) (two_of heads.now) }
{
    match (&heads.one, &heads.two) {
        (Some(one), Some(two)) => Some(order(one, two)),
        (Some(_), None) => Some(Ordering::Less),
        (None, Some(_)) => Some(Ordering::Greater),
        (None, None) => None,
    }
}

// The order of two nodes: by their labels, and of two kinds that of the first comes first, which
// sound archives of one specification do not have.
fn order(one: &Head, two: &Head) -> Ordering
    ensures { result ≡ head_cmp (head_view one.now) (head_view two.now) }
{
    let order = lend_label(&one.label).compare(&lend_label(&two.label));
    if order.is_eq() && one.kind != two.kind {
        return Ordering::Less;
    }
    order
}

/// Writes the node whose head was read as one that its archive alone has, under a parent that has
/// the set there and the other set in the other archive, and reads the next head.
pub(crate) fn pass_alone<F: Folder>(
    raise: &Raise,
    folder: &mut F,
    cursor: &mut Cursor,
    writer: &mut Writer,
    own: &VersionSet,
    other: &VersionSet,
    head: &mut Option<Head>,
) -> Result<(), CopyFault>
    requires within { cursor.old.at ≤ cursor.old.length }
    requires no_leaf { (writer_view writer.old).leaf ≡ None }
    requires some { IsSome head.old }
    ensures { PassedAlone raise.now.by (pairs_of own.now) (pairs_of other.now)
        (option_map head_view head.old) (option_map head_view head.new)
        (state F.files F.draft F.numbers F.faults folder.old cursor.old writer.old)
        (state F.files F.draft F.numbers F.faults folder.new cursor.new writer.new)
        (fault_of result) }
{
    let Some(node) = &*head else {
        return Ok(());
    };
    let stamp = alone_stamp(own, other, &node.stamp)?;
    let set = effective(&node.stamp, own);
    copy_node(raise, folder, cursor, writer, node, &stamp, set)?;
    *head = read_head(raise, folder, cursor)?;
    Ok(())
}
