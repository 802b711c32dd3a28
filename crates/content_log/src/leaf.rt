// Writing the log of a leaf.
ghost use Rattle.std.specs.Prelude.{◌≡◌, ◌≢◌, ◌+◌, ◌-◌, ◌≤◌, ℕ, List, map, length, None, IfErr, OnOk};
ghost use Rattle.key_spec.specs.Data.{PlainRule};
ghost use Rattle.keyed_tree.specs.Data.{PlainKeyed, name_bytes};
ghost use Rattle.keyed_tree.specs.View.{label_view, name_view};
ghost use Rattle.archive_tree.specs.Data.{PlainArchive};
ghost use Rattle.archive_tree.specs.Stands.{ArchiveOf};
ghost use Rattle.archive_file.specs.Sound.{SoundAs};
ghost use Rattle.record_format.specs.Probed.{probed, steps_along};
ghost use Rattle.record_cursor.specs.Moves.{TellsFront, IsHeaderOf};
ghost use Rattle.record_cursor.specs.View.{header_view, IsHeader};
ghost use Rattle.xa_outside.specs.Numbers.{PullsAtMost};
ghost use Rattle.xa_outside.specs.Taken.{Puts, Takes};
ghost use Rattle.file_history.specs.Halving.{probes_along};
ghost use Rattle.file_history.specs.Leads.{node_along};
ghost use Rattle.content_log.specs.Text.{last_name, log_text};
ghost use Rattle.content_log.specs.Told.{IsCaused, fault_of};
ghost use Rattle.content_log.specs.Written.{AloneOrStored, LeafWritten, Lines, leaf_bytes, seen};
ghost use Rattle.content_log.specs.declared.fault.LogFault.TheVariants.{Damage};

use crate::alternatives::put_leaf;
use crate::fault::LogFault;
use file_history::{LeafAt, find_leaf};
use keyed_tree::{Label, Name};
use record_cursor::Header;
use std::alloc::Global;
use std::sync::ledger::Ledger;
use timestamp_tree::Steps;
use xa_outside::{Buffered, Folder, Sink};

/// Writes what the leaf at a path has held over time, in the archive in the file of this name: for
/// each different body a line with the versions that have it, a blank and the body, in the order of
/// their first versions. Where the path leads to no leaf, it writes nothing.
///
/// The leaf is searched for as a history is, and then read once, record by record. Memory is taken
/// for one record, its printed set, and a scalar; the content of an element is printed straight out
/// of its bytes, over a buffer of 64 KiB in front of the output.
pub fn log<F: Folder, O: Sink, L: Ledger>(
    alloc: Global,
    folder: &mut F,
    name: &str,
    header: &Header,
    path: &[Label],
    out: &mut O,
    steps: &mut Steps<L>,
) -> Result<(), LogFault>
    requires { IsHeader (header_view header.now) }

    // Of a sound archive the lines of the log are written, or a prefix of them on a fault.
    ensures lines { (bytes : List ℕ) (rules : List PlainRule) (vs : List PlainKeyed)
        → TellsFront (F.files folder.old) name.now (header_view header.now).length bytes
        → IsHeaderOf (header_view header.now) bytes → SoundAs rules vs bytes
        → Puts (O.taken out.old) (O.taken out.new) result (log_text vs (map label_view path.now)) }
    ensures undamaged { (bytes : List ℕ) (rules : List PlainRule) (vs : List PlainKeyed)
        → TellsFront (F.files folder.old) name.now (header_view header.now).length bytes
        → IsHeaderOf (header_view header.now) bytes → SoundAs rules vs bytes
        → IfErr result (λ e. e ≢ Damage) }

    // Whatever the file is. What is written are the lines of alternatives, or a prefix of them, whose
    // records are together no longer than the file, and of which one stands alone or each one stores
    // its set: so what one inherits is written at most once.
    ensures gained { (bytes : List ℕ) × Takes (O.taken out.old) (O.taken out.new) bytes }
    ensures told_once { (set : List (ℕ × ℕ)) × Lines AloneOrStored
        (last_name (map label_view path.now)) set (header_view header.now).length
        (O.taken out.old) (O.taken out.new) }
    ensures files { F.files folder.new ≡ F.files folder.old }
    ensures draft { F.draft folder.new ≡ F.draft folder.old }
    ensures later { F.faults folder.old ≤ F.faults folder.new }
    ensures out_later { O.faults out.old ≤ O.faults out.new }
    ensures cause { IsCaused (F.faults folder.old) (F.faults folder.new) (O.faults out.old)
        (O.faults out.new) (fault_of result) }

    // Whatever the file is, no more bytes are pulled than it has behind its header, for the search,
    // and than it has, for the leaf; over a sound archive no more than the tail has, the search looks
    // at, and the leaf has.
    ensures pulls { PullsAtMost ((header_view header.now).length - (header_view header.now).first
        + (header_view header.now).length) (F.numbers folder.old) (F.numbers folder.new) }
    ensures few { (bytes : List ℕ) (rules : List PlainRule) (vs : List PlainKeyed)
        (a : PlainArchive)
        → TellsFront (F.files folder.old) name.now (header_view header.now).length bytes
        → IsHeaderOf (header_view header.now) bytes → SoundAs rules vs bytes → ArchiveOf vs a
        → PullsAtMost (8 + probed a (map label_view path.now)
        + leaf_bytes (node_along a (map label_view path.now)))
        (F.numbers folder.old) (F.numbers folder.new) }
    ensures steps { (bytes : List ℕ) (rules : List PlainRule) (vs : List PlainKeyed)
        (a : PlainArchive)
        → TellsFront (F.files folder.old) name.now (header_view header.now).length bytes
        → IsHeaderOf (header_view header.now) bytes → SoundAs rules vs bytes → ArchiveOf vs a
        → steps.new ≤ steps.old + steps_along a (map label_view path.now) }

    // Exactly the children are counted that a search by halving looks at.
    ensures exactly { (bytes : List ℕ) (rules : List PlainRule) (vs : List PlainKeyed)
        (a : PlainArchive)
        → TellsFront (F.files folder.old) name.now (header_view header.now).length bytes
        → IsHeaderOf (header_view header.now) bytes → SoundAs rules vs bytes → ArchiveOf vs a
        → OnOk result (steps.new ≡ steps.old + probes_along a (map label_view path.now)) }

    // Where the path leads to a node, at least one step is taken for each of its labels.
    ensures counted { (bytes : List ℕ) (rules : List PlainRule) (vs : List PlainKeyed)
        (a : PlainArchive)
        → TellsFront (F.files folder.old) name.now (header_view header.now).length bytes
        → IsHeaderOf (header_view header.now) bytes → SoundAs rules vs bytes → ArchiveOf vs a
        → node_along a (map label_view path.now) ≢ None
        → OnOk result (steps.old + length path.now ≤ steps.new) }
{
    match find_leaf(alloc, folder, name, header, path, steps) {
        Ok(Some(leaf)) => write_leaf(alloc, folder, name, header, &leaf, tag_of(path), out),
        Ok(None) => Ok(()),
        Err(fault) => Err(LogFault::from(fault)),
    }
}

// The name of the last label.
fn tag_of(path: &[Label]) -> &str
    ensures { result.now ≡ last_name (map label_view path.now) }
{
    match path.last() {
        Some(last) => name_of(&last.name),
        None => "",
    }
}

fn name_of(name: &Name) -> &str
    ensures { result.now ≡ name_bytes (name_view name.now) }
{
    match name {
        Name::Attr(text) => text.as_str(),
        Name::Tag(text) => text.as_str(),
    }
}

// Writes the entries of a leaf, over a buffer. One that goes on behind the file is damage.
fn write_leaf<F: Folder, O: Sink>(
    alloc: Global,
    folder: &mut F,
    name: &str,
    header: &Header,
    leaf: &LeafAt,
    tag: &str,
    out: &mut O,
) -> Result<(), LogFault>
    requires { IsHeader (header_view header.now) }
    ensures { LeafWritten name.now tag.now (header_view header.now).length leaf.now
        (seen F.files F.draft F.numbers F.faults O.taken O.faults folder.old out.old)
        (seen F.files F.draft F.numbers F.faults O.taken O.faults folder.new out.new)
        (fault_of result) }
{
    if leaf.child.end > header.length {
        return Err(LogFault::Damage);
    }
    let mut buffered = Buffered::new(out);
    put_leaf(alloc, folder, name, header, leaf, tag, &mut buffered)?;
    buffered.flush()?;
    Ok(())
}
