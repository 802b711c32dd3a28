// Looking at one node of a stored tree.
ghost use Rattle.std.specs.Prelude.{◌≡◌, ◌+◌, ◌-◌, ◌*◌, ◌/◌, ◌^◌, ◌<◌, ◌≤◌, ℕ, List, length, map, IfOk, IfErr};
ghost use Rattle.xa_outside.specs.Numbers.{PullsAtMost};
ghost use Rattle.archive_tree.specs.Data.{PlainNode};
ghost use Rattle.record_cursor.specs.Steps.{OnlyReads, fault_of, Filled};
ghost use Rattle.file_rows.specs.View.{PlainRow};
ghost use Rattle.std.specs.List.{AllByRecursion};
ghost use Rattle.record_parts.specs.Bounds.{IsSet};
ghost use Rattle.record_cursor.specs.Faults.{IfFolder};
ghost use Rattle.file_get.specs.Kids.{set_of};
ghost use Rattle.file_get.specs.Stands.{SpanIs};
ghost use Rattle.file_get.specs.Looked.{IsLook, IsInnerNode, OkWhere, looked, left_of, right_of, own_read, NodeOf, sight_of, tree_over, LookTold, LookIs};
ghost use Rattle.file_get.specs.Searched.{searched};
ghost use Rattle.file_get.specs.declared.look.Sight.TheVariants.{Parts};

use crate::node::{Probe, read_leaf, read_node};
use crate::span::{Ask, Span};
use record_cursor::CursorFault;
use std::sync::ledger::Ledger;
use timestamp_tree::Steps;
use xa_outside::Folder;

/// What a node of a stored tree says: no child of the part has the version, the only one does, or
/// one in either of two parts.
#[derive(Clone, Copy)]
pub(crate) enum Sight {
    Lacks,
    Child,
    Parts { left: Span, right: Span },
}

/// Looks at the node of the stored tree at the front of a part of a row. In one of more than eight
/// intervals the version is looked for by halving.
pub(crate) fn look<F: Folder, L: Ledger>(
    ask: &Ask<'_>,
    folder: &mut F,
    steps: &mut Steps<L>,
    span: Span,
) -> Result<Sight, CursorFault>
    requires ordered { span.at ≤ span.limit }
    requires short { span.limit < 2 ^ 64 }
    requires some { 1 ≤ span.count }
    requires few { span.position + span.count < 2 ^ 32 }
    ensures reads { OnlyReads F.files F.draft F.faults folder.old folder.new (fault_of result) }
    ensures is { IfOk result (IsLook span) }
    ensures pulls { PullsAtMost (looked span result) (F.numbers folder.old) (F.numbers folder.new) }
    ensures steps { steps.new ≡ steps.old + 1 }
    ensures told { (bytes : List ℕ) (end : ℕ) (row : PlainRow) (parent : List (ℕ × ℕ))
        (front ks behind : List PlainNode)
        → LookTold (F.files folder.old) ask.now.name.now bytes end row span parent
        front ks behind
        → Filled result (LookIs ask.now.version bytes row parent front ks behind)
        × PullsAtMost (own_read (tree_over parent ks))
        (F.numbers folder.old) (F.numbers folder.new) }
{
    steps.tick();
    if span.count == 1 {
        return look_at_leaf(ask, folder, span);
    }
    match read_node(ask, folder, span.at, span.limit) {
        Ok(probe) => judge(span, probe),
        Err(fault) => Err(fault),
    }
}

// Looks at the stored leaf over the only child of a part. A long set is not read whole.
fn look_at_leaf<F: Folder>(ask: &Ask<'_>, folder: &mut F, span: Span) -> Result<Sight, CursorFault>
    requires ordered { span.at ≤ span.limit }
    requires short { span.limit < 2 ^ 64 }
    requires one { span.count ≡ 1 }
    ensures reads { OnlyReads F.files F.draft F.faults folder.old folder.new (fault_of result) }
    ensures is { IfOk result (IsLook span) }
    ensures pulls { PullsAtMost (looked span result) (F.numbers folder.old) (F.numbers folder.new) }
    ensures few { PullsAtMost (12 + 8 * searched ((span.limit - span.at - 12) / 8))
        (F.numbers folder.old) (F.numbers folder.new) }
    ensures told { (bytes : List ℕ) (end : ℕ) (row : PlainRow) (parent : List (ℕ × ℕ))
        (front ks behind : List PlainNode)
        → LookTold (F.files folder.old) ask.now.name.now bytes end row span parent
        front ks behind
        → Filled result (LookIs ask.now.version bytes row parent front ks behind)
        × PullsAtMost (own_read (tree_over parent ks))
        (F.numbers folder.old) (F.numbers folder.new) }
{
    match read_leaf(ask, folder, span.at, span.limit) {
        Ok(has) => Ok(sight_of(has)),
        Err(fault) => Err(fault),
    }
}

fn sight_of(has: bool) -> Sight
    ensures { result ≡ sight_of has }
{
    if has { Sight::Child } else { Sight::Lacks }
}

// What a node of two children or more says, where its left part has the size that it may have.
fn judge(span: Span, probe: Probe) -> Result<Sight, CursorFault>
    requires within { span.at + probe.size ≤ span.limit }
    requires many { 1 < span.count }
    requires few { span.position + span.count < 2 ^ 32 }
    ensures is { IfOk result (IsLook span) }
    ensures size { probe.size ≤ looked span result }
    ensures cause { IfErr result (λ e. IfFolder e ⊥) }

    // In any file, and whether the node has the version or not.
    ensures inner { OkWhere result (IsInnerNode span probe) }
    ensures told { (i : ℕ) (bytes : List ℕ) (row : PlainRow) (parent : List (ℕ × ℕ))
        (front ks behind : List PlainNode) → SpanIs bytes row span parent front ks behind
        → AllByRecursion IsSet (map (set_of parent) ks)
        → NodeOf i (tree_over parent ks) probe
        → Filled result (LookIs i bytes row parent front ks behind) }
{
    let at = span.at + probe.size;
    if probe.left == 0 || span.limit - at <= probe.left {
        return Err(CursorFault::Damage);
    }
    if !probe.has {
        return Ok(Sight::Lacks);
    }
    Ok(halves(span, at, at + probe.left))
}

// Both parts behind a node that ends at `at`, the right one at `middle`.
fn halves(span: Span, at: u64, middle: u64) -> Sight
    requires few { span.position + span.count < 2 ^ 32 }
    ensures { result ≡ Parts (left_of span at middle) (right_of span middle) }
{
    let half = span.count.div_ceil(2);
    let left = Span {
        at,
        limit: middle,
        position: span.position,
        count: half,
    };
    let right = Span {
        at: middle,
        limit: span.limit,
        position: span.position + half,
        count: span.count - half,
    };
    Sight::Parts { left, right }
}
