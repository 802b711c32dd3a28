// Reading the records that open nodes.
ghost use Rattle.std.specs.Prelude.{◌≡◌, ◌+◌, ◌-◌, ◌≤◌, ◌++◌, ℕ, List, length, false, IfOk, IfSome, IsSomeAnd};
ghost use Rattle.xa_outside.specs.Numbers.{PullsAtMost, after_pull};
ghost use Rattle.record_parts.specs.Shown.{shown_name};
ghost use Rattle.record_parts.specs.ShownViews.{shown_label};
ghost use Rattle.archive_tree.specs.Data.{PlainNode, node_label};
ghost use Rattle.record_format.specs.Bounds.{IsRec};
ghost use Rattle.record_format.specs.Spelling.{rec_bytes};
ghost use Rattle.record_cursor.specs.Items.{item_of};
ghost use Rattle.record_cursor.specs.Moves.{TellsFront};
ghost use Rattle.record_cursor.specs.Next.{read_for, size_of};
ghost use Rattle.record_cursor.specs.Places.{among_nodes};
ghost use Rattle.record_cursor.specs.Steps.{OnlyReads, fault_of, Filled};
ghost use Rattle.record_cursor.specs.View.{shown_item};
ghost use Rattle.file_rows.specs.StandsAt.{StandsAt};
ghost use Rattle.file_get.specs.Inside.{is_inner, opening_rec, OpeningIs};

use crate::span::Ask;
use file_rows::Child;
use record_cursor::{Buffer, CursorFault, Item, records_give_their_items};
use record_format::LabelView;
use record_parts::NameView;
use xa_outside::Folder;

/// The record that opens a node: its name, whether it is inner, and the offset behind the record.
#[derive(Drop)]
pub(crate) struct Opening<'a> {
    pub(crate) name: NameView<'a>,
    pub(crate) is_inner: bool,
    pub(crate) behind: u64,
}

/// The record that opens a child, lent out of the bytes that are read. Memory is taken only for a
/// record that ends within the child.
pub(crate) fn read_opening<'a, F: Folder>(
    ask: &Ask<'_>,
    folder: &mut F,
    child: Child,
    room: &'a mut Buffer,
) -> Result<Opening<'a>, CursorFault>
    ensures reads { OnlyReads F.files F.draft F.faults folder.old folder.new (fault_of result) }
    ensures within { IfOk result (λ o. (child.first ≤ o.behind) × (o.behind ≤ child.end)) }
    ensures numbers { IfOk result (λ o. F.numbers folder.new
        ≡ after_pull (F.numbers folder.old) (o.behind - child.first)) }
    ensures pulls { PullsAtMost (child.end - child.first)
        (F.numbers folder.old) (F.numbers folder.new) }
    ensures told { (end : ℕ) (bytes more : List ℕ) (k : PlainNode)
        → TellsFront (F.files folder.old) ask.now.name.now end bytes → child.end ≤ end
        → StandsAt bytes child.first (rec_bytes (opening_rec k) ++ more)
        → child.end ≡ child.first + length (rec_bytes (opening_rec k) ++ more)
        → IsRec (opening_rec k) → (is_inner k ≡ false → child.dir ≡ 0)
        → Filled result (OpeningIs k child.first)
        × PullsAtMost (length (rec_bytes (opening_rec k)))
        (F.numbers folder.old) (F.numbers folder.new) }
{
    // A law, for the proof of `told`.
    records_give_their_items();
    match record_cursor::read_opening(folder, ask.name, child.first, child.end, room) {
        Ok((item, behind)) => opening_of(item, behind, child.dir).ok_or(CursorFault::Damage),
        Err(fault) => Err(fault),
    }
}

// What the item opens that ends at this offset, where an END with a body of so many bytes may close
// it: none closes a leaf.
fn opening_of(item: Item<'_>, behind: u64, dir: u64) -> Option<Opening<'_>>
    ensures behind { IfSome result (λ o. o.behind ≡ behind) }
    ensures whole { IfSome result (λ _. read_for (among_nodes 0) (shown_item item.entry)
        ≡ size_of (among_nodes 0) (shown_item item.entry)) }
    ensures told { (k : PlainNode) → shown_item item.entry ≡ item_of (opening_rec k)
        → (is_inner k ≡ false → dir ≡ 0)
        → IsSomeAnd result (λ o. (shown_name o.name ≡ (node_label k).name)
        × (o.is_inner ≡ is_inner k)) }
{
    match item {
        Item::Inner { label, .. } => Some(named_by(label, true, behind)),
        Item::Leaf { label, .. } if dir == 0 => Some(named_by(label, false, behind)),
        _ => None,
    }
}

// The opening of a node with this label.
fn named_by(label: LabelView<'_>, is_inner: bool, behind: u64) -> Opening<'_>
    ensures name { shown_name result.name ≡ (shown_label label.entry).name }
    ensures inner { result.is_inner ≡ is_inner }
    ensures behind { result.behind ≡ behind }
{
    Opening {
        name: label.name(),
        is_inner,
        behind,
    }
}
