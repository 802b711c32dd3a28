// Finding the leaf that a path leads to.
ghost use Rattle.std.specs.Prelude.{◌≡◌, ◌≢◌, ◌+◌, ◌-◌, ◌≤◌, ℕ, List, map, length, None, IfOk, IfErr, OnOk};
ghost use Rattle.key_spec.specs.Data.{PlainRule};
ghost use Rattle.keyed_tree.specs.Data.{PlainKeyed};
ghost use Rattle.keyed_tree.specs.View.{label_view};
ghost use Rattle.archive_tree.specs.Data.{PlainArchive};
ghost use Rattle.archive_tree.specs.Stands.{ArchiveOf};
ghost use Rattle.archive_file.specs.Sound.{SoundAs};
ghost use Rattle.record_format.specs.Probed.{probed, steps_along};
ghost use Rattle.record_cursor.specs.Moves.{TellsFront, IsHeaderOf};
ghost use Rattle.record_cursor.specs.View.{header_view, IsHeader};
ghost use Rattle.xa_outside.specs.Causes.{Rose};
ghost use Rattle.xa_outside.specs.Numbers.{PullsAtMost};
ghost use Rattle.file_history.specs.Halving.{probes_along};
ghost use Rattle.file_history.specs.Leads.{IsLeafOf, leaf_of, leaf_with, node_along};
ghost use Rattle.file_history.specs.Told.{IfFailed};
ghost use Rattle.file_history.specs.declared.fault.HistFault.TheVariants.{Damage};

use crate::fault::HistFault;
use crate::follow::{Spot, search};
use file_rows::Child;
use keyed_tree::Label;
use record_cursor::Header;
use std::alloc::Global;
use std::sync::ledger::Ledger;
use timestamp_tree::Steps;
use version_set::VersionSet;
use xa_outside::Folder;

/// A leaf in a file: where it stands, and the versions that have it.
#[derive(Drop)]
pub struct LeafAt {
    pub child: Child,
    pub set: VersionSet,
}

/// The leaf that a path leads to, in the archive in the file of this name; None where the path leads
/// to an inner node or nowhere.
///
/// It searches as `history` does, and reads nothing of the leaf but the record that opens it.
pub fn find_leaf<F: Folder, L: Ledger>(
    alloc: Global,
    folder: &mut F,
    name: &str,
    header: &Header,
    path: &[Label],
    steps: &mut Steps<L>,
) -> Result<Option<LeafAt>, HistFault>
    requires { IsHeader (header_view header.now) }
    ensures found { (bytes : List ℕ) (rules : List PlainRule) (vs : List PlainKeyed)
        (a : PlainArchive)
        → TellsFront (F.files folder.old) name.now (header_view header.now).length bytes
        → IsHeaderOf (header_view header.now) bytes → SoundAs rules vs bytes → ArchiveOf vs a
        → IfOk result (IsLeafOf bytes (node_along a (map label_view path.now))) }
    ensures undamaged { (bytes : List ℕ) (rules : List PlainRule) (vs : List PlainKeyed)
        → TellsFront (F.files folder.old) name.now (header_view header.now).length bytes
        → IsHeaderOf (header_view header.now) bytes → SoundAs rules vs bytes
        → IfErr result (λ e. e ≢ Damage) }
    ensures files { F.files folder.new ≡ F.files folder.old }
    ensures draft { F.draft folder.new ≡ F.draft folder.old }
    ensures later { F.faults folder.old ≤ F.faults folder.new }
    ensures cause { IfFailed result (Rose (F.faults folder.old) (F.faults folder.new)) }

    // Whatever the file is, no more bytes are pulled than it has behind its header; over a sound
    // archive no more than the search looks at.
    ensures pulls { PullsAtMost
        ((header_view header.now).length - (header_view header.now).first)
        (F.numbers folder.old) (F.numbers folder.new) }
    ensures few { (bytes : List ℕ) (rules : List PlainRule) (vs : List PlainKeyed)
        (a : PlainArchive)
        → TellsFront (F.files folder.old) name.now (header_view header.now).length bytes
        → IsHeaderOf (header_view header.now) bytes → SoundAs rules vs bytes → ArchiveOf vs a
        → PullsAtMost (8 + probed a (map label_view path.now))
        (F.numbers folder.old) (F.numbers folder.new) }
    ensures steps { (bytes : List ℕ) (rules : List PlainRule) (vs : List PlainKeyed)
        (a : PlainArchive)
        → TellsFront (F.files folder.old) name.now (header_view header.now).length bytes
        → IsHeaderOf (header_view header.now) bytes → SoundAs rules vs bytes → ArchiveOf vs a
        → steps.new ≤ steps.old + steps_along a (map label_view path.now) }

    // Exactly the children are counted that a search by halving looks at.
    ensures exactly { (bytes : List ℕ) (rules : List PlainRule) (vs : List PlainKeyed)
        (a : PlainArchive)
        → TellsFront (F.files folder.old) name.now (header_view header.now).length bytes
        → IsHeaderOf (header_view header.now) bytes → SoundAs rules vs bytes → ArchiveOf vs a
        → OnOk result (steps.new ≡ steps.old + probes_along a (map label_view path.now)) }

    // Where the path leads to a node, at least one step is taken for each of its labels.
    ensures counted { (bytes : List ℕ) (rules : List PlainRule) (vs : List PlainKeyed)
        (a : PlainArchive)
        → TellsFront (F.files folder.old) name.now (header_view header.now).length bytes
        → IsHeaderOf (header_view header.now) bytes → SoundAs rules vs bytes → ArchiveOf vs a
        → node_along a (map label_view path.now) ≢ None
        → OnOk result (steps.old + length path.now ≤ steps.new) }
{
    let all = VersionSet::upto(alloc, header.versions);
    match search(alloc, folder, name, header, all, path, steps) {
        Ok(spot) => Ok(leaf_in(spot)),
        Err(fault) => Err(HistFault::from(fault)),
    }
}

/// The leaf, where the path led to one.
fn leaf_in(spot: Option<Spot>) -> Option<LeafAt>
    ensures { result ≡ leaf_of spot }
{
    match spot {
        Some(spot) => leaf_by(spot.set, spot.leaf),
        None => None,
    }
}

fn leaf_by(set: VersionSet, leaf: Option<Child>) -> Option<LeafAt>
    ensures { result ≡ leaf_with set leaf }
{
    match leaf {
        Some(child) => Some(LeafAt { child, set }),
        None => None,
    }
}
