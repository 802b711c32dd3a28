// Cutting some versions out of the file of an archive.
ghost use Rattle.std.specs.Prelude.{◌≡◌, ◌≢◌, ◌+◌, ◌-◌, ◌≤◌, [], ℕ, List, None, IfErr, OnOk};
ghost use Rattle.archive_file.specs.Sound.{SoundAs};
ghost use Rattle.key_spec.specs.Data.{PlainRule};
ghost use Rattle.keyed_tree.specs.Data.{PlainKeyed};
ghost use Rattle.version_set.specs.View.{pairs_of};
ghost use Rattle.record_cursor.specs.Moves.{IsHeaderOf, TellsFront};
ghost use Rattle.record_cursor.specs.Places.{among_nodes};
ghost use Rattle.record_cursor.specs.View.{header_view, IsHeader};
ghost use Rattle.record_format.specs.Files.{FileOf};
ghost use Rattle.record_writer.specs.View.{writer_view};
ghost use Rattle.xa_outside.specs.Causes.{Rose};
ghost use Rattle.xa_outside.specs.Numbers.{PullsAndDrafts};
ghost use Rattle.record_copy.specs.Faults.{fault_of};
ghost use Rattle.archive_cut.specs.Cut.{Appended, Overfull, IfTooLong, IfFailed};
ghost use Rattle.archive_cut.specs.Sliced.{cut_set, items};
ghost use Rattle.archive_cut.specs.Whole.{NodesCut, VersionsCut};
ghost use Rattle.archive_cut.specs.declared.fault.CutFault.TheVariants.{Damage};
ghost use Rattle.xa_outside.specs.Folder.{IsBlank, Lengthens};

use crate::fault::{CutFault, done};
use crate::walk::cut_row;
use crate::window::Window;
use record_copy::{CopyFault, written};
use record_cursor::{Cursor, Header, Item};
use record_writer::Writer;
use std::alloc::Global;
use version_set::VersionSet;
use xa_outside::Folder;

/// Appends to the draft the archive of the versions from the first to the last, which are counted
/// from 1 there, and commits nothing.
///
/// The records are read once, and what is left of each is written before the next is read, but for
/// the alternatives of one leaf: these are held, and sorted by their first versions. Nothing else is
/// held of the archive but a record, and of the nodes that stand open their sets, and an entry and
/// a set for each finished child.
pub fn cut<F: Folder>(
    alloc: Global,
    folder: &mut F,
    header: &Header,
    cursor: Cursor,
    first: u32,
    last: u32,
) -> Result<(), CutFault>
    requires header { IsHeader (header_view header.now) }
    requires cursor { cursor ≡ record {
      name = cursor.name;
      length = (header_view header.now).length;
      standing = among_nodes 0;
      at = (header_view header.now).first;
    } }
    requires draft { IsBlank (F.draft folder.old) }
    requires from { 1 ≤ first }
    requires order { first ≤ last }
    requires most { last ≤ (header_view header.now).versions }

    // Over a sound archive the draft becomes the file of these versions. Whatever the archive is,
    // the files stay, and the draft only grows; and the new file is too long only where a call of
    // the writer does not fit that is given short parts.
    ensures appended { OnOk result (Appended (header_view header.now) cursor.name first last
        (F.files folder.old) (F.draft folder.old) (F.draft folder.new)) }
    ensures files { F.files folder.new ≡ F.files folder.old }
    ensures drafted { Lengthens (F.draft folder.old) (F.draft folder.new) }
    ensures too_long { (bytes : List ℕ) (rules : List PlainRule) (vs : List PlainKeyed)
        → TellsFront (F.files folder.old) cursor.name (header_view header.now).length bytes
        → IsHeaderOf (header_view header.now) bytes → SoundAs rules vs bytes
        → IfErr result (λ e. IfTooLong e ((file : List ℕ)
        → ¬ (FileOf rules (items first last vs) file))) }
    ensures no_room { (b : ℕ) → (header_view header.now).length + 12 ≤ b
        → IfErr result (λ e. IfTooLong e (Overfull b
        (header_view header.now).rules first last (F.draft folder.new))) }
    ensures undamaged { (bytes : List ℕ) (rules : List PlainRule) (vs : List PlainKeyed)
        → TellsFront (F.files folder.old) cursor.name (header_view header.now).length bytes
        → IsHeaderOf (header_view header.now) bytes → SoundAs rules vs bytes
        → IfErr result (λ e. e ≢ Damage) }

    ensures later { F.faults folder.old ≤ F.faults folder.new }
    ensures cause { IfFailed result (Rose (F.faults folder.old) (F.faults folder.new)) }

    // The archive is read once.
    ensures pulls { PullsAndDrafts
        ((header_view header.now).length - (header_view header.now).first)
        (F.numbers folder.old) (F.numbers folder.new) }
{
    let window = Window { alloc, first, last };
    done(cut_versions(&window, folder, header, cursor))
}

// Appends the archive of the versions.
fn cut_versions<F: Folder>(
    window: &Window,
    folder: &mut F,
    header: &Header,
    cursor: Cursor,
) -> Result<(), CopyFault>
    requires within { (header_view header.now).first ≤ (header_view header.now).length }
    requires length { cursor.length ≡ (header_view header.now).length }
    requires standing { cursor.standing ≡ among_nodes 0 }
    requires first { cursor.at ≡ (header_view header.now).first }
    requires most { window.now.last ≤ (header_view header.now).versions }
    ensures { VersionsCut F.files F.draft F.numbers F.faults (header_view header.now)
        window.entry.now.first window.entry.now.last folder.old folder.new cursor
        (fault_of result) }
{
    let versions = window.last - window.first + 1;
    let writer = Writer::start(window.alloc, folder, &header.spec, versions)?;
    let before = VersionSet::upto(window.alloc, header.versions);
    let now = VersionSet::upto(window.alloc, versions);
    let mut cursor = cursor;
    cut_nodes(window, folder, &mut cursor, writer, &before, &now)
}

// Appends what is left of the nodes of the archive to the draft, and what stands behind them.
fn cut_nodes<F: Folder>(
    window: &Window,
    folder: &mut F,
    cursor: &mut Cursor,
    writer: Writer,
    before: &VersionSet,
    now: &VersionSet,
) -> Result<(), CopyFault>
    requires within { cursor.old.at ≤ cursor.old.length }
    requires no_leaf { (writer_view writer).leaf ≡ None }
    requires no_inner { (writer_view writer).inners ≡ [] }
    requires left { pairs_of now.now
        ≡ cut_set window.now.first window.now.last (pairs_of before.now) }
    ensures { NodesCut F.files F.draft F.numbers F.faults window.entry.now.first
        window.entry.now.last (pairs_of before.entry.now) folder.old folder.new cursor.old writer
        (fault_of result) }
{
    let mut writer = writer;
    cut_row(window, folder, cursor, &mut writer, before, now)?;
    written(writer.finish(folder))?;
    match cursor.next(folder)? {
        Item::Finish => Ok(()),
        _ => Err(CopyFault::Damage),
    }
}
