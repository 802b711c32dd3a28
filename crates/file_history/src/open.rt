// Looking at the record that opens a child.
ghost use Rattle.std.specs.Prelude.{◌≡◌, ◌+◌, ◌-◌, ◌≤◌, ℕ, List, length, Some, IfErr};
ghost use Rattle.std.specs.declared.cmp.Ordering.{Ordering};
ghost use Rattle.keyed_tree.specs.Order.{label_cmp};
ghost use Rattle.keyed_tree.specs.View.{label_view};
ghost use Rattle.archive_tree.specs.Data.{PlainNode, node_label};
ghost use Rattle.xa_outside.specs.Numbers.{PullsAtMost};
ghost use Rattle.record_format.specs.Nodes.{node_piece};
ghost use Rattle.record_format.specs.Probed.{opening};
ghost use Rattle.record_format.specs.Spelling.{rec_bytes};
ghost use Rattle.record_cursor.specs.Faults.{IfFolder};
ghost use Rattle.record_cursor.specs.Steps.{OnlyReads, fault_of, Filled, Finds};
ghost use Rattle.record_cursor.specs.View.{shown_item};
ghost use Rattle.file_rows.specs.StandsAt.{ChildLaid};
ghost use Rattle.file_rows.specs.View.{child_view};
ghost use Rattle.file_history.specs.Opened.{met_by, met_of, met_node, OpenedIs, ChildIs};
ghost use Rattle.file_history.specs.Pulled.{PullsBut};
ghost use Rattle.file_history.specs.View.{met_view, left_opened};

use file_rows::{Child, Row, row_of};
use keyed_tree::Label;
use record_cursor::{Cursor, CursorFault, Item};
use std::alloc::Global;
use std::cmp::Ordering;
use version_set::VersionSet;
use xa_outside::Folder;

/// A child that was looked for: its stored set, and its own children, if it is an inner node, or
/// where it stands, if it is a leaf.
#[derive(Drop)]
pub(crate) struct Found {
    pub(crate) stamp: Option<VersionSet>,
    pub(crate) row: Option<Row>,
    pub(crate) leaf: Option<Child>,
}

/// A child stands before the one that is looked for or behind it, or is that one, with its stored
/// set.
#[derive(Drop)]
pub(crate) enum Met {
    Before,
    Behind,
    Inner { stamp: Option<VersionSet> },
    Leaf { stamp: Option<VersionSet> },
}

/// A child stands before the one that is looked for or behind it, or is that one.
#[derive(Drop)]
pub(crate) enum Opened {
    Before,
    Behind,
    Here { found: Found },
}

/// Looks at the record that opens a child, below so many inner nodes that stand open.
///
/// Whatever the file is, it reads at most the child's bytes, and leaves those of the row inside.
pub(crate) fn open_child<F: Folder>(
    alloc: Global,
    folder: &mut F,
    cursor: &mut Cursor,
    depth: u32,
    child: Child,
    wanted: &Label,
) -> Result<Opened, CursorFault>
    ensures reads { OnlyReads F.files F.draft F.faults folder.old folder.new (fault_of result) }
    ensures name { cursor.new.name ≡ cursor.old.name }
    ensures pulls { PullsBut (child.end - child.first) (left_opened result)
        (F.numbers folder.old) (F.numbers folder.new) }
    ensures told { (bytes : List ℕ) (parent : List (ℕ × ℕ)) (k : PlainNode)
        → ChildIs (F.files folder.old) cursor.old.name bytes depth (child_view child) parent k
        → Filled result
        (OpenedIs bytes parent k (label_cmp (node_label k) (label_view wanted.now))) }
    ensures few { (bytes : List ℕ) (parent : List (ℕ × ℕ)) (k : PlainNode)
        → ChildIs (F.files folder.old) cursor.old.name bytes depth (child_view child) parent k
        → PullsAtMost (length (rec_bytes (opening k)))
        (F.numbers folder.old) (F.numbers folder.new) }
{
    cursor.seek(depth, child.first, child.end);
    match cursor.next(folder) {
        Ok(item) => match meet(alloc, child.dir, item, wanted) {
            Ok(met) => enter(child, cursor.at(), met),
            Err(fault) => Err(fault),
        },
        Err(fault) => Err(fault),
    }
}

/// What the node that a record opens is to the label that is wanted. A leaf has no END.
fn meet(alloc: Global, dir: u64, item: Item<'_>, wanted: &Label) -> Result<Met, CursorFault>
    ensures found { Finds (λ met. Some (met_view met)) result
        (met_of dir (label_view wanted.now) (shown_item item.entry)) }
    ensures inside { IfErr result (λ e. IfFolder e ⊥) }
{
    match item {
        Item::Inner { label, stamp } => match label.order(wanted) {
            Ordering::Less => Ok(Met::Before),
            Ordering::Greater => Ok(Met::Behind),
            Ordering::Equal => Ok(Met::Inner {
                stamp: stamp.copy(alloc)?,
            }),
        },
        Item::Leaf { label, stamp } if dir == 0 => match label.order(wanted) {
            Ordering::Less => Ok(Met::Before),
            Ordering::Greater => Ok(Met::Behind),
            Ordering::Equal => Ok(Met::Leaf {
                stamp: stamp.copy(alloc)?,
            }),
        },
        _ => Err(CursorFault::Damage),
    }
}

/// What was met of a child, whose opening record ends at this offset, and the row inside it.
fn enter(child: Child, behind: u64, met: Met) -> Result<Opened, CursorFault>
    ensures within { left_opened result ≤ child.end - behind }
    ensures inside { IfErr result (λ e. IfFolder e ⊥) }
    ensures told { (bytes : List ℕ) (parent : List (ℕ × ℕ)) (k : PlainNode) (order : Ordering)
        → ChildLaid bytes (child_view child) (node_piece parent k)
        → behind ≡ child.first + length (rec_bytes (opening k))
        → met_view met ≡ met_by order (met_node k)
        → Filled result (OpenedIs bytes parent k order) }
{
    match met {
        Met::Before => Ok(Opened::Before),
        Met::Behind => Ok(Opened::Behind),
        Met::Leaf { stamp } => Ok(Opened::Here {
            found: Found {
                stamp,
                row: None,
                leaf: Some(child),
            },
        }),
        Met::Inner { stamp } => match row_of(child, behind) {
            Some(row) => Ok(Opened::Here {
                found: Found {
                    stamp,
                    row: Some(row),
                    leaf: None,
                },
            }),
            None => Err(CursorFault::Damage),
        },
    }
}
