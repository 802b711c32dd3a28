// Searching a row by halving.
ghost use Rattle.std.specs.Prelude.{◌≡◌, ◌+◌, ◌-◌, ◌*◌, ◌<◌, ◌≤◌, ℕ, List, length, IfOk, OnOk};
ghost use Rattle.keyed_tree.specs.View.{label_view};
ghost use Rattle.archive_tree.specs.Data.{PlainNode, PlainNodes, nodes_list};
ghost use Rattle.archive_tree.specs.Seek.{node_with};
ghost use Rattle.xa_outside.specs.Numbers.{PullsAtMost};
ghost use Rattle.record_format.specs.Probed.{most_probes, row_probed};
ghost use Rattle.record_cursor.specs.Steps.{OnlyReads, fault_of, Filled};
ghost use Rattle.file_rows.specs.View.{row_view, child_view};
ghost use Rattle.file_history.specs.Halving.{probes};
ghost use Rattle.file_history.specs.Parts.{PartIs, ProbedIs, IsFoundIn, IsTurned, IsSmaller, cost};
ghost use Rattle.file_history.specs.Pulled.{PullsBut};
ghost use Rattle.file_history.specs.Rows.{RowIs};
ghost use Rattle.file_history.specs.View.{part_view, span_of, room_of, left_probed, left_found, OnFound};

use crate::open::{Found, Opened, open_child};
use file_rows::{Child, Row, count_children, read_child};
use keyed_tree::Label;
use record_cursor::{Cursor, CursorFault};
use std::alloc::Global;
use std::sync::ledger::Ledger;
use timestamp_tree::Steps;
use xa_outside::Folder;

/// The children of a row at the positions from `low` on and below `high`, which stand between two
/// offsets, below so many inner nodes that stand open.
#[derive(Clone, Copy)]
pub(crate) struct Part {
    pub(crate) depth: u32,
    pub(crate) low: u32,
    pub(crate) high: u32,
    pub(crate) low_at: u64,
    pub(crate) high_at: u64,
}

/// The child that is looked for, or the part of the row where it would stand.
#[derive(Drop)]
pub(crate) enum Probed {
    Here { found: Found },
    Beside { part: Part },
}

/// The child of a row, below so many inner nodes that stand open, that has this label, if there is
/// one. Each child that is looked at is a step.
pub(crate) fn find<F: Folder, L: Ledger>(
    alloc: Global,
    folder: &mut F,
    cursor: &mut Cursor,
    name: &str,
    depth: u32,
    row: Row,
    wanted: &Label,
    steps: &mut Steps<L>,
) -> Result<Option<Found>, CursorFault>
    requires { cursor.old.name ≡ name.now }
    ensures reads { OnlyReads F.files F.draft F.faults folder.old folder.new (fault_of result) }
    ensures name { cursor.new.name ≡ cursor.old.name }
    ensures pulls { PullsBut (span_of row) (left_found result)
        (F.numbers folder.old) (F.numbers folder.new) }
    ensures told { (bytes : List ℕ) (parent : List (ℕ × ℕ)) (ks : PlainNodes)
        → RowIs (F.files folder.old) name.now bytes depth (row_view row) parent ks
        → Filled result
        (IsFoundIn bytes parent (node_with (label_view wanted.now) (nodes_list ks))) }
    ensures few { (bytes : List ℕ) (parent : List (ℕ × ℕ)) (ks : PlainNodes)
        → RowIs (F.files folder.old) name.now bytes depth (row_view row) parent ks
        → PullsAtMost (row_probed (nodes_list ks)) (F.numbers folder.old) (F.numbers folder.new) }
    ensures steps { (bytes : List ℕ) (parent : List (ℕ × ℕ)) (ks : PlainNodes)
        → RowIs (F.files folder.old) name.now bytes depth (row_view row) parent ks
        → steps.new ≤ steps.old + most_probes (length (nodes_list ks)) }
    ensures exactly { (bytes : List ℕ) (parent : List (ℕ × ℕ)) (ks : PlainNodes)
        → RowIs (F.files folder.old) name.now bytes depth (row_view row) parent ks
        → OnOk result (steps.new ≡ steps.old + probes (label_view wanted.now) (nodes_list ks)) }
    ensures counted { OnFound result (steps.old < steps.new) }
{
    let count = match count_children(folder, name, row) {
        Ok(count) => count,
        Err(fault) => return Err(fault),
    };
    let part = Part {
        depth,
        low: 0,
        high: count,
        low_at: row.first,
        high_at: row.end,
    };
    find_in(alloc, folder, cursor, name, row, part, wanted, steps)
}

/// The child in a part of a row that has this label, if there is one.
fn find_in<F: Folder, L: Ledger>(
    alloc: Global,
    folder: &mut F,
    cursor: &mut Cursor,
    name: &str,
    row: Row,
    part: Part,
    wanted: &Label,
    steps: &mut Steps<L>,
) -> Result<Option<Found>, CursorFault>
    requires name { cursor.old.name ≡ name.now }
    requires room { 4 + 24 * part.high ≤ row.dir }
    ensures reads { OnlyReads F.files F.draft F.faults folder.old folder.new (fault_of result) }
    ensures name { cursor.new.name ≡ cursor.old.name }
    ensures pulls { PullsBut (room_of part) (left_found result)
        (F.numbers folder.old) (F.numbers folder.new) }
    ensures told { (bytes : List ℕ) (parent : List (ℕ × ℕ)) (front mid back : List PlainNode)
        → PartIs (F.files folder.old) name.now bytes (row_view row) parent (part_view part)
        front mid back
        → Filled result (IsFoundIn bytes parent (node_with (label_view wanted.now) mid)) }
    ensures few { (bytes : List ℕ) (parent : List (ℕ × ℕ)) (front mid back : List PlainNode)
        → PartIs (F.files folder.old) name.now bytes (row_view row) parent (part_view part)
        front mid back
        → PullsAtMost (cost mid) (F.numbers folder.old) (F.numbers folder.new) }
    ensures steps { (bytes : List ℕ) (parent : List (ℕ × ℕ)) (front mid back : List PlainNode)
        → PartIs (F.files folder.old) name.now bytes (row_view row) parent (part_view part)
        front mid back
        → steps.new ≤ steps.old + most_probes (length mid) }
    ensures exactly { (bytes : List ℕ) (parent : List (ℕ × ℕ)) (front mid back : List PlainNode)
        → PartIs (F.files folder.old) name.now bytes (row_view row) parent (part_view part)
        front mid back
        → OnOk result (steps.new ≡ steps.old + probes (label_view wanted.now) mid) }
    ensures counted { OnFound result (steps.old < steps.new) }
{
    if part.low >= part.high {
        return Ok(None);
    }
    steps.tick();
    match probe(alloc, folder, cursor, name, row, part, wanted) {
        Ok(Probed::Here { found }) => Ok(Some(found)),
        Ok(Probed::Beside { part: next }) => {
            find_in(alloc, folder, cursor, name, row, next, wanted, steps)
        }
        Err(fault) => Err(fault),
    }
}

/// Looks at the child in the middle of a part of a row.
fn probe<F: Folder>(
    alloc: Global,
    folder: &mut F,
    cursor: &mut Cursor,
    name: &str,
    row: Row,
    part: Part,
    wanted: &Label,
) -> Result<Probed, CursorFault>
    requires name { cursor.old.name ≡ name.now }
    requires some { part.low < part.high }
    requires room { 4 + 24 * part.high ≤ row.dir }
    ensures reads { OnlyReads F.files F.draft F.faults folder.old folder.new (fault_of result) }
    ensures name { cursor.new.name ≡ cursor.old.name }
    ensures pulls { PullsBut (room_of part) (left_probed result)
        (F.numbers folder.old) (F.numbers folder.new) }
    ensures smaller { IfOk result (IsSmaller part) }
    ensures told { (bytes : List ℕ) (parent : List (ℕ × ℕ)) (front mid back : List PlainNode)
        → PartIs (F.files folder.old) name.now bytes (row_view row) parent (part_view part)
        front mid back
        → Filled result (ProbedIs (F.files folder.old) name.now bytes (row_view row) parent
        (label_view wanted.now) mid (F.numbers folder.old) (F.numbers folder.new)) }
    ensures few { (bytes : List ℕ) (parent : List (ℕ × ℕ)) (front mid back : List PlainNode)
        → PartIs (F.files folder.old) name.now bytes (row_view row) parent (part_view part)
        front mid back
        → PullsAtMost (cost mid) (F.numbers folder.old) (F.numbers folder.new) }
{
    let middle = part.low + (part.high - part.low) / 2;
    match read_child(folder, name, row, middle, part.low_at, part.high_at) {
        Ok(child) => match open_child(alloc, folder, cursor, part.depth, child, wanted) {
            Ok(opened) => Ok(turn(part, middle, child, opened)),
            Err(fault) => Err(fault),
        },
        Err(fault) => Err(fault),
    }
}

/// The child in the middle of a part, or what is left of the part beside it.
fn turn(part: Part, middle: u32, child: Child, opened: Opened) -> Probed
    requires { middle < part.high }
    ensures { IsTurned (part_view part) middle (child_view child) opened result }
{
    match opened {
        Opened::Here { found } => Probed::Here { found },
        Opened::Before => Probed::Beside {
            part: Part {
                depth: part.depth,
                low: middle + 1,
                high: part.high,
                low_at: child.end,
                high_at: part.high_at,
            },
        },
        Opened::Behind => Probed::Beside {
            part: Part {
                depth: part.depth,
                low: part.low,
                high: middle,
                low_at: part.low_at,
                high_at: child.first,
            },
        },
    }
}
