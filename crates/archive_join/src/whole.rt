// Joining the files of two archives.
ghost use Rattle.std.specs.Prelude.{◌≡◌, ◌+◌, ◌-◌, ◌≤◌, ◌++◌, [], ℕ, List, None, IfErr, OnOk, IfOk, true, false};
ghost use Rattle.archive_join.specs.Faults.{fault_of};
ghost use Rattle.archive_join.specs.Join.{Appended, IfDamaged, IfFailed, IfTooLong, IsArchive, Overfull};
ghost use Rattle.archive_join.specs.Whole.{ArchivesJoined, Begun, NodesJoined};
ghost use Rattle.key_spec.specs.Data.{PlainRule};
ghost use Rattle.keyed_tree.specs.Data.{PlainKeyed};
ghost use Rattle.record_copy.specs.Raised.{raised};
ghost use Rattle.record_cursor.specs.Places.{among_nodes};
ghost use Rattle.record_cursor.specs.View.{header_view, IsHeader};
ghost use Rattle.record_format.specs.Files.{FileOf};
ghost use Rattle.record_parts.specs.declared.limits.TheConstants.{MOST_VERSIONS};
ghost use Rattle.record_writer.specs.View.{writer_view};
ghost use Rattle.version_set.specs.Members.{upto_pairs};
ghost use Rattle.version_set.specs.View.{pairs_of};
ghost use Rattle.xa_outside.specs.Causes.{Rose};
ghost use Rattle.xa_outside.specs.Numbers.{PullsAndDrafts};
ghost use Rattle.xa_outside.specs.Folder.{IsBlank, Lengthens};

use crate::fault::{JoinFault, of_side};
use crate::sets::Sets;
use crate::sides::Sides;
use crate::walk::join_row;
use record_copy::{CopyFault, Raise, read_finish, written};
use record_cursor::{Cursor, Header};
use record_writer::Writer;
use std::alloc::{AllocError, Global};
use version_set::VersionSet;
use xa_outside::Folder;

/// Appends to the draft the archive of the versions of the first and behind them those of the
/// second, and commits nothing. Both have one specification.
///
/// Both files are read once, side by side, and what was read is written before the next is read,
/// but for the next node of each, and the alternatives of one leaf of the second. Nothing else is
/// held but a record, and of the nodes that stand open their labels and sets, and an entry and a set
/// for each finished child.
pub fn join<F: Folder>(
    alloc: Global,
    folder: &mut F,
    one: &Header,
    left: Cursor,
    two: &Header,
    right: Cursor,
) -> Result<(), JoinFault>
    requires one { IsHeader (header_view one.now) }
    requires left { left ≡ record {
      name = left.name;
      length = (header_view one.now).length;
      standing = among_nodes 0;
      at = (header_view one.now).first;
    } }
    requires two { IsHeader (header_view two.now) }
    requires right { right ≡ record {
      name = right.name;
      length = (header_view two.now).length;
      standing = among_nodes 0;
      at = (header_view two.now).first;
    } }
    requires rules { (header_view one.now).rules ≡ (header_view two.now).rules }
    requires few { (header_view one.now).versions + (header_view two.now).versions ≤ MOST_VERSIONS }
    requires draft { IsBlank (F.draft folder.old) }

    // Over sound archives the draft becomes the file of the versions of both. Whatever the archives
    // are, the files stay, and the draft only grows; and the new file is too long only where a call
    // of the writer does not fit that is given short parts.
    ensures appended { OnOk result (Appended (header_view one.now) left.name (header_view two.now)
        right.name (F.files folder.old) (F.draft folder.old) (F.draft folder.new)) }
    ensures files { F.files folder.new ≡ F.files folder.old }
    ensures drafted { Lengthens (F.draft folder.old) (F.draft folder.new) }
    ensures too_long { (rules : List PlainRule) (vs us : List PlainKeyed)
        → IsArchive (F.files folder.old) left.name (header_view one.now) rules vs
        → IsArchive (F.files folder.old) right.name (header_view two.now) rules us
        → IfErr result (λ e. IfTooLong e ((file : List ℕ) → ¬ (FileOf rules (vs ++ us) file))) }
    ensures no_room { (b : ℕ) → (header_view one.now).length + 12 ≤ b
        → (header_view two.now).length + 12 ≤ b → IfErr result (λ e. IfTooLong e (Overfull b
        (header_view one.now).rules (header_view one.now).versions (header_view two.now).versions
        (F.draft folder.new))) }

    // An archive is said to be damaged only where it is not sound, whatever the other is.
    ensures first_undamaged { (rules : List PlainRule) (vs : List PlainKeyed)
        → IsArchive (F.files folder.old) left.name (header_view one.now) rules vs
        → IfErr result (λ e. IfDamaged false e ⊥) }
    ensures second_undamaged { (rules : List PlainRule) (us : List PlainKeyed)
        → IsArchive (F.files folder.old) right.name (header_view two.now) rules us
        → IfErr result (λ e. IfDamaged true e ⊥) }

    ensures later { F.faults folder.old ≤ F.faults folder.new }
    ensures cause { IfFailed result (Rose (F.faults folder.old) (F.faults folder.new)) }

    // Each archive is read once.
    ensures pulls { PullsAndDrafts (((header_view one.now).length - (header_view one.now).first)
        + ((header_view two.now).length - (header_view two.now).first))
        (F.numbers folder.old) (F.numbers folder.new) }
{
    let sides = Sides {
        one: Raise { alloc, by: 0 },
        two: Raise {
            alloc,
            by: one.versions,
        },
    };
    join_archives(&sides, folder, one, left, two, right)
}

// Appends the archive of the versions of both.
fn join_archives<F: Folder>(
    sides: &Sides,
    folder: &mut F,
    one: &Header,
    left: Cursor,
    two: &Header,
    right: Cursor,
) -> Result<(), JoinFault>
    requires left { left.at ≤ left.length }
    requires right { right.at ≤ right.length }
    requires second { sides.now.two.by ≡ (header_view one.now).versions }
    requires few { (header_view one.now).versions + (header_view two.now).versions ≤ MOST_VERSIONS }
    ensures { ArchivesJoined F.files F.draft F.numbers F.faults (header_view one.now)
        (header_view two.now).versions folder.old folder.new left right (fault_of result) }
{
    let versions = one.versions + two.versions;
    let writer = of_side(false, start(sides.one.alloc, folder, one, versions))?;
    let sets = first_sets(sides.one.alloc, one.versions, two.versions)?;
    let mut left = left;
    let mut right = right;
    join_nodes(sides, folder, &mut left, &mut right, writer, &sets)
}

// A writer that has appended the header of an archive of so many versions.
fn start<F: Folder>(
    alloc: Global,
    folder: &mut F,
    header: &Header,
    versions: u32,
) -> Result<Writer, CopyFault>
    ensures { Begun F.files F.draft F.numbers F.faults (header_view header.now) versions folder.old
        folder.new result }
{
    Ok(Writer::start(alloc, folder, &header.spec, versions)?)
}

// All versions of the first, and those of the second behind them.
fn first_sets(alloc: Global, one: u32, two: u32) -> Result<Sets, AllocError>
    requires { one + two ≤ MOST_VERSIONS }
    ensures one { IfOk result (λ sets. pairs_of sets.one ≡ upto_pairs one) }
    ensures two { IfOk result (λ sets. pairs_of sets.two ≡ raised one (upto_pairs two)) }
    ensures both { IfOk result (λ sets. pairs_of sets.both ≡ upto_pairs (one + two)) }
{
    Ok(Sets {
        one: VersionSet::upto(alloc, one),
        two: VersionSet::upto(alloc, two).shift(i64::from(one))?,
        both: VersionSet::upto(alloc, one + two),
    })
}

// Appends the nodes of both archives to the draft, and what stands behind them.
fn join_nodes<F: Folder>(
    sides: &Sides,
    folder: &mut F,
    left: &mut Cursor,
    right: &mut Cursor,
    writer: Writer,
    sets: &Sets,
) -> Result<(), JoinFault>
    requires left { left.old.at ≤ left.old.length }
    requires right { right.old.at ≤ right.old.length }
    requires no_leaf { (writer_view writer).leaf ≡ None }
    requires no_inner { (writer_view writer).inners ≡ [] }
    ensures { NodesJoined F.files F.draft F.numbers F.faults sides.entry.now.two.by
        (pairs_of sets.entry.now.one) (pairs_of sets.entry.now.two) (pairs_of sets.entry.now.both)
        folder.old folder.new left.old right.old writer (fault_of result) }
{
    let mut writer = writer;
    join_row(sides, folder, left, right, &mut writer, sets)?;
    of_side(false, written(writer.finish(folder)))?;
    of_side(false, read_finish(folder, left))?;
    of_side(true, read_finish(folder, right))
}
