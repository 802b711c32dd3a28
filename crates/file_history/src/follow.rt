// Following a path through a file.
ghost use Rattle.std.specs.Prelude.{◌≡◌, ◌≢◌, ◌+◌, ◌-◌, ◌<◌, ◌≤◌, ℕ, List, map, length, None, IfOk, IfErr, OnOk};
ghost use Rattle.version_set.specs.Members.{members, upto_pairs};
ghost use Rattle.version_set.specs.View.{pairs_of};
ghost use Rattle.key_spec.specs.Data.{PlainRule};
ghost use Rattle.keyed_tree.specs.Data.{PlainKeyed};
ghost use Rattle.keyed_tree.specs.View.{label_view};
ghost use Rattle.archive_tree.specs.Data.{PlainArchive, PlainNodes};
ghost use Rattle.archive_tree.specs.History.{hist};
ghost use Rattle.archive_tree.specs.Stands.{ArchiveOf};
ghost use Rattle.archive_tree.specs.View.{stamp_view};
ghost use Rattle.archive_file.specs.Sound.{SoundAs};
ghost use Rattle.record_format.specs.Nodes.{set_in};
ghost use Rattle.record_format.specs.Probed.{probed, path_probed, path_steps, steps_along};
ghost use Rattle.record_parts.specs.Bounds.{deepest};
ghost use Rattle.record_cursor.specs.Moves.{TellsFront, IsHeaderOf};
ghost use Rattle.record_cursor.specs.Steps.{OnlyReads, fault_of, Filled};
ghost use Rattle.record_cursor.specs.View.{header_view, IsHeader};
ghost use Rattle.xa_outside.specs.Causes.{Rose};
ghost use Rattle.xa_outside.specs.Numbers.{PullsAtMost};
ghost use Rattle.file_rows.specs.View.{row_view};
ghost use Rattle.file_history.specs.Halving.{path_probes, probes_along};
ghost use Rattle.file_history.specs.Leads.{IsFollowed, node_along};
ghost use Rattle.file_history.specs.Rows.{FileIs, RowIs};
ghost use Rattle.file_history.specs.Told.{IfFailed};
ghost use Rattle.file_history.specs.View.{span_of, OnFound};
ghost use Rattle.file_history.specs.declared.fault.HistFault.TheVariants.{Damage};

use crate::fault::HistFault;
use crate::search::find;
use file_rows::{Child, Row, root_row};
use keyed_tree::Label;
use record_cursor::{Cursor, CursorFault, Header};
use std::alloc::Global;
use std::sync::ledger::Ledger;
use timestamp_tree::Steps;
use version_set::VersionSet;
use xa_outside::Folder;

/// What a path leads to: its set, and where it stands, if it is a leaf.
#[derive(Drop)]
pub(crate) struct Spot {
    pub(crate) set: VersionSet,
    pub(crate) leaf: Option<Child>,
}

/// The versions that hold the element at a path, in the archive in the file of this name.
///
/// At each node the sorted children are searched by halving: an entry of 24 bytes and one opening
/// record are read for each child that is looked at, which is a step. The empty path is held by all
/// versions.
pub fn history<F: Folder, L: Ledger>(
    alloc: Global,
    folder: &mut F,
    name: &str,
    header: &Header,
    path: &[Label],
    steps: &mut Steps<L>,
) -> Result<VersionSet, HistFault>
    requires { IsHeader (header_view header.now) }
    ensures members { (bytes : List ℕ) (rules : List PlainRule) (vs : List PlainKeyed)
        → TellsFront (F.files folder.old) name.now (header_view header.now).length bytes
        → IsHeaderOf (header_view header.now) bytes → SoundAs rules vs bytes
        → IfOk result (λ set. members (pairs_of set) ≡ hist vs (map label_view path.now)) }
    ensures undamaged { (bytes : List ℕ) (rules : List PlainRule) (vs : List PlainKeyed)
        → TellsFront (F.files folder.old) name.now (header_view header.now).length bytes
        → IsHeaderOf (header_view header.now) bytes → SoundAs rules vs bytes
        → IfErr result (λ e. e ≢ Damage) }
    ensures files { F.files folder.new ≡ F.files folder.old }
    ensures draft { F.draft folder.new ≡ F.draft folder.old }
    ensures later { F.faults folder.old ≤ F.faults folder.new }
    ensures cause { IfFailed result (Rose (F.faults folder.old) (F.faults folder.new)) }

    // Whatever the file is, no more bytes are pulled than it has behind its header; over a sound
    // archive no more than the search looks at.
    ensures pulls { PullsAtMost
        ((header_view header.now).length - (header_view header.now).first)
        (F.numbers folder.old) (F.numbers folder.new) }
    ensures few { (bytes : List ℕ) (rules : List PlainRule) (vs : List PlainKeyed)
        (a : PlainArchive)
        → TellsFront (F.files folder.old) name.now (header_view header.now).length bytes
        → IsHeaderOf (header_view header.now) bytes → SoundAs rules vs bytes → ArchiveOf vs a
        → PullsAtMost (8 + probed a (map label_view path.now))
        (F.numbers folder.old) (F.numbers folder.new) }
    ensures steps { (bytes : List ℕ) (rules : List PlainRule) (vs : List PlainKeyed)
        (a : PlainArchive)
        → TellsFront (F.files folder.old) name.now (header_view header.now).length bytes
        → IsHeaderOf (header_view header.now) bytes → SoundAs rules vs bytes → ArchiveOf vs a
        → steps.new ≤ steps.old + steps_along a (map label_view path.now) }

    // Exactly the children are counted that a search by halving looks at.
    ensures exactly { (bytes : List ℕ) (rules : List PlainRule) (vs : List PlainKeyed)
        (a : PlainArchive)
        → TellsFront (F.files folder.old) name.now (header_view header.now).length bytes
        → IsHeaderOf (header_view header.now) bytes → SoundAs rules vs bytes → ArchiveOf vs a
        → OnOk result (steps.new ≡ steps.old + probes_along a (map label_view path.now)) }

    // Where the path leads to a node, at least one step is taken for each of its labels.
    ensures counted { (bytes : List ℕ) (rules : List PlainRule) (vs : List PlainKeyed)
        (a : PlainArchive)
        → TellsFront (F.files folder.old) name.now (header_view header.now).length bytes
        → IsHeaderOf (header_view header.now) bytes → SoundAs rules vs bytes → ArchiveOf vs a
        → node_along a (map label_view path.now) ≢ None
        → OnOk result (steps.old + length path.now ≤ steps.new) }
{
    let all = VersionSet::upto(alloc, header.versions);
    match search(alloc, folder, name, header, all, path, steps) {
        Ok(Some(spot)) => Ok(spot.set),
        Ok(None) => Ok(VersionSet::empty(alloc)),
        Err(fault) => Err(HistFault::from(fault)),
    }
}

/// Reads the tail, and follows the path from the virtual root on.
pub(crate) fn search<F: Folder, L: Ledger>(
    alloc: Global,
    folder: &mut F,
    name: &str,
    header: &Header,
    all: VersionSet,
    path: &[Label],
    steps: &mut Steps<L>,
) -> Result<Option<Spot>, CursorFault>
    requires { IsHeader (header_view header.now) }
    ensures reads { OnlyReads F.files F.draft F.faults folder.old folder.new (fault_of result) }
    ensures pulls { PullsAtMost
        ((header_view header.now).length - (header_view header.now).first)
        (F.numbers folder.old) (F.numbers folder.new) }
    ensures told { (bytes : List ℕ) (a : PlainArchive)
        → FileIs (F.files folder.old) name.now bytes (header_view header.now) a
        → pairs_of all ≡ upto_pairs a.n → Filled result
        (IsFollowed bytes (map label_view path.now) (pairs_of all) a.kids) }
    ensures few { (bytes : List ℕ) (a : PlainArchive)
        → FileIs (F.files folder.old) name.now bytes (header_view header.now) a
        → pairs_of all ≡ upto_pairs a.n
        → PullsAtMost (8 + probed a (map label_view path.now))
        (F.numbers folder.old) (F.numbers folder.new) }
    ensures steps { (bytes : List ℕ) (a : PlainArchive)
        → FileIs (F.files folder.old) name.now bytes (header_view header.now) a
        → pairs_of all ≡ upto_pairs a.n
        → steps.new ≤ steps.old + steps_along a (map label_view path.now) }
    ensures exactly { (bytes : List ℕ) (a : PlainArchive)
        → FileIs (F.files folder.old) name.now bytes (header_view header.now) a
        → pairs_of all ≡ upto_pairs a.n
        → OnOk result (steps.new ≡ steps.old + probes_along a (map label_view path.now)) }
    ensures counted { OnFound result (steps.old + length path.now ≤ steps.new) }
{
    let mut cursor = Cursor::start(alloc, name, header)?;
    match root_row(folder, name, header.first, header.length) {
        Ok(row) => follow(alloc, folder, &mut cursor, name, row, all, path, steps),
        Err(fault) => Err(fault),
    }
}

/// The node that the path leads to, if there is one, from the row of the virtual root, which has this set.
fn follow<F: Folder, L: Ledger>(
    alloc: Global,
    folder: &mut F,
    cursor: &mut Cursor,
    name: &str,
    row: Row,
    parent: VersionSet,
    path: &[Label],
    steps: &mut Steps<L>,
) -> Result<Option<Spot>, CursorFault>
    requires { cursor.old.name ≡ name.now }
    ensures reads { OnlyReads F.files F.draft F.faults folder.old folder.new (fault_of result) }
    ensures pulls { PullsAtMost (span_of row) (F.numbers folder.old) (F.numbers folder.new) }
    ensures told { (bytes : List ℕ) (ks : PlainNodes)
        → RowIs (F.files folder.old) name.now bytes 0 (row_view row) (pairs_of parent) ks
        → Filled result
        (IsFollowed bytes (map label_view path.now) (pairs_of parent) ks) }
    ensures few { (bytes : List ℕ) (ks : PlainNodes)
        → RowIs (F.files folder.old) name.now bytes 0 (row_view row) (pairs_of parent) ks
        → PullsAtMost (path_probed (map label_view path.now) ks)
        (F.numbers folder.old) (F.numbers folder.new) }
    ensures steps { (bytes : List ℕ) (ks : PlainNodes)
        → RowIs (F.files folder.old) name.now bytes 0 (row_view row) (pairs_of parent) ks
        → steps.new ≤ steps.old + path_steps (map label_view path.now) ks }
    ensures exactly { (bytes : List ℕ) (ks : PlainNodes)
        → RowIs (F.files folder.old) name.now bytes 0 (row_view row) (pairs_of parent) ks
        → OnOk result (steps.new ≡ steps.old + path_probes (map label_view path.now) ks) }
    ensures counted { OnFound result (steps.old + length path.now ≤ steps.new) }
{
    let mut set = parent;
    let mut here = Some(row);
    let mut leaf = None;
    let mut depth = 0;
    for label in path {
        let inside = match here {
            Some(inside) => inside,
            None => return Ok(None),
        };
        let answer = match find(alloc, folder, cursor, name, depth, inside, label, steps) {
            Ok(answer) => answer,
            Err(fault) => return Err(fault),
        };
        let found = match answer {
            Some(found) => found,
            None => return Ok(None),
        };
        here = found.row;
        leaf = found.leaf;
        depth = one_deeper(depth);
        set = inherited(found.stamp, set);
    }
    Ok(Some(Spot { set, leaf }))
}

/// One inner node more stands open. Below the deepest one the cursor lets none be opened.
fn one_deeper(depth: u32) -> u32
    ensures { depth < deepest → result ≡ depth + 1 }
{
    depth.saturating_add(1)
}

/// The set that is stored, else the parent's.
fn inherited(stamp: Option<VersionSet>, parent: VersionSet) -> VersionSet
    ensures { pairs_of result ≡ set_in (stamp_view stamp) (pairs_of parent) }
{
    match stamp {
        Some(set) => set,
        None => parent,
    }
}
