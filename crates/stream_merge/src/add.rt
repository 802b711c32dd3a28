// Adding a version to the file of an archive.
ghost use Rattle.std.specs.Prelude.{◌≡◌, ◌≢◌, ◌↔◌, ◌+◌, ◌-◌, ◌≤◌, ◌<◌, ◌++◌, ◌∷◌, [], ℕ, List, length, max, None, Err, IfErr, OnOk, OnErr};
ghost use Rattle.archive_tree.specs.Data.{PlainArchive};
ghost use Rattle.archive_tree.specs.Stands.{ArchiveOf};
ghost use Rattle.archive_file.specs.KeyedBy.{IsKeyedBy};
ghost use Rattle.archive_file.specs.Sound.{SoundAs};
ghost use Rattle.key_spec.specs.Data.{PlainRule};
ghost use Rattle.keyed_tree.specs.Data.{PlainKeyed};
ghost use Rattle.keyed_tree.specs.Kids.{IsOrdered};
ghost use Rattle.keyed_tree.specs.Plain.{plain};
ghost use Rattle.jsonml_text.specs.Texts.{AreTexts};
ghost use Rattle.key_annotate.specs.LentView.{lent_view};
ghost use Rattle.nested_merge.specs.Merged.{fresh};
ghost use Rattle.record_cursor.specs.Moves.{IsHeaderOf, TellsFront};
ghost use Rattle.record_cursor.specs.Places.{among_nodes};
ghost use Rattle.record_cursor.specs.View.{header_view, IsHeader};
ghost use Rattle.record_format.specs.Files.{FileOf, header_bytes, largest};
ghost use Rattle.record_format.specs.Shapes.{IsShapedNode};
ghost use Rattle.record_parts.specs.declared.limits.TheConstants.{MOST_VERSIONS};
ghost use Rattle.record_writer.specs.View.{writer_view};
ghost use Rattle.xa_outside.specs.Causes.{Rose};
ghost use Rattle.xa_outside.specs.Folder.{committed, emptied, IsBlank, Lengthens};
ghost use Rattle.xa_outside.specs.Numbers.{PullsAndDrafts, lead};
ghost use Rattle.stream_merge.specs.Added.{Added, Appended, Overfull, IfTooLong, IfFailed};
ghost use Rattle.stream_merge.specs.Appended.{NodesAppended, VersionAppended};
ghost use Rattle.stream_merge.specs.Passes.{fault_of};
ghost use Rattle.stream_merge.specs.Short.{IsShortTree};
ghost use Rattle.stream_merge.specs.View.{inherited_view};
ghost use Rattle.stream_merge.specs.declared.fault.AddFault.TheVariants.{Damage, Limit};

use crate::fault::{AddFault, MergeFault};
use crate::inherited::Inherited;
use crate::merge::merge_row;
use key_annotate::LentKeyed;
use keyed_parts::Kids;
use record_cursor::{Cursor, Header, Item};
use record_format::MOST_VERSIONS;
use record_writer::Writer;
use std::alloc::Global;
use version_set::VersionSet;
use xa_outside::Folder;

/// Adds a version to the archive in the file of this name, and makes that the file.
///
/// It reads and holds what `stream_append` does. After a fault the files are as before.
pub fn stream_add<F: Folder>(
    alloc: Global,
    folder: &mut F,
    name: &str,
    header: &Header,
    cursor: Cursor,
    new: &LentKeyed<'_, '_>,
) -> Result<(), AddFault>
    requires header { IsHeader (header_view header.now) }
    requires cursor { cursor ≡ record {
      name = name.now;
      length = (header_view header.now).length;
      standing = among_nodes 0;
      at = (header_view header.now).first;
    } }
    requires draft { IsBlank (F.draft folder.old) }
    requires keyed { IsKeyedBy (header_view header.now).rules (lent_view new.now) }
    requires texts { AreTexts (plain (lent_view new.now)) }

    // The file of a sound archive becomes that of its versions and the new one. Whatever the
    // archive is, no other file changes, and the draft is empty then, or has only grown; and the new
    // file is too long only where a call of the writer does not fit that is given short parts, if
    // the labels and bodies of the version are short.
    ensures added { OnOk result (Added (header_view header.now) name.now (lent_view new.now)
        (F.files folder.old) (F.files folder.new) (F.draft folder.old) (F.draft folder.new)) }
    ensures refused { OnErr result (F.files folder.new ≡ F.files folder.old) }
    ensures drafted { OnErr result (Lengthens (F.draft folder.old) (F.draft folder.new)) }
    ensures too_long { (bytes : List ℕ) (rules : List PlainRule) (vs : List PlainKeyed)
        → TellsFront (F.files folder.old) name.now (header_view header.now).length bytes
        → IsHeaderOf (header_view header.now) bytes → SoundAs rules vs bytes
        → IfErr result (λ e. IfTooLong e ((file : List ℕ)
        → ¬ (FileOf rules (vs ++ lent_view new.now ∷ []) file))) }
    ensures no_room { (b : ℕ) → (header_view header.now).length + 12 ≤ b
        → IsShortTree b (lent_view new.now)
        → IfErr result (λ e. IfTooLong e (Overfull b
        (header_view header.now).rules ((header_view header.now).versions + 1)
        (F.draft folder.new))) }
    ensures undamaged { (bytes : List ℕ) (rules : List PlainRule) (vs : List PlainKeyed)
        → TellsFront (F.files folder.old) name.now (header_view header.now).length bytes
        → IsHeaderOf (header_view header.now) bytes → SoundAs rules vs bytes
        → IfErr result (λ e. e ≢ Damage) }

    ensures limit { (result ≡ Err Limit) ↔ ((header_view header.now).versions ≡ MOST_VERSIONS) }
    ensures later { F.faults folder.old ≤ F.faults folder.new }
    ensures cause { IfFailed result (Rose (F.faults folder.old) (F.faults folder.new)) }

    // The archive is read once, and over a sound one little of it is held.
    ensures pulls { PullsAndDrafts
        ((header_view header.now).length - (header_view header.now).first)
        (F.numbers folder.old) (F.numbers folder.new) }
    ensures gap { (bytes : List ℕ) (rules : List PlainRule) (vs : List PlainKeyed)
        (a : PlainArchive)
        → TellsFront (F.files folder.old) name.now (header_view header.now).length bytes
        → IsHeaderOf (header_view header.now) bytes → SoundAs rules vs bytes → ArchiveOf vs a
        → (F.numbers folder.new).gap ≤ max (F.numbers folder.old).gap
        (lead (F.numbers folder.old) - length (header_bytes rules a.n) + largest rules a) }
    ensures ahead { (bytes : List ℕ)
        → TellsFront (F.files folder.old) name.now (header_view header.now).length bytes
        → IsHeaderOf (header_view header.now) bytes
        → OnOk result (lead (F.numbers folder.new) ≤ lead (F.numbers folder.old)
        - (header_view header.now).first) }
{
    stream_append(alloc, folder, name, header, cursor, new)?;
    commit(folder, name)
}

/// Appends to the draft the archive in the file of this name, with one more version.
///
/// The records are read once, and each is written before the next is read; nothing is held of the
/// archive but a record, and of the nodes that stand open their sets, and an entry and a set for
/// each finished child.
pub fn stream_append<F: Folder>(
    alloc: Global,
    folder: &mut F,
    name: &str,
    header: &Header,
    cursor: Cursor,
    new: &LentKeyed<'_, '_>,
) -> Result<(), AddFault>
    requires header { IsHeader (header_view header.now) }
    requires cursor { cursor ≡ record {
      name = name.now;
      length = (header_view header.now).length;
      standing = among_nodes 0;
      at = (header_view header.now).first;
    } }
    requires draft { IsBlank (F.draft folder.old) }
    requires keyed { IsKeyedBy (header_view header.now).rules (lent_view new.now) }
    requires texts { AreTexts (plain (lent_view new.now)) }

    // Over a sound archive the draft becomes the file of its versions and the new one. Whatever the
    // archive is, the files stay, and the draft only grows; and the new file is too long only where
    // a call of the writer does not fit that is given short parts, if the labels and bodies of the
    // version are short.
    ensures appended { OnOk result (Appended (header_view header.now) name.now
        (lent_view new.now) (F.files folder.old) (F.draft folder.old) (F.draft folder.new)) }
    ensures files { F.files folder.new ≡ F.files folder.old }
    ensures drafted { Lengthens (F.draft folder.old) (F.draft folder.new) }
    ensures too_long { (bytes : List ℕ) (rules : List PlainRule) (vs : List PlainKeyed)
        → TellsFront (F.files folder.old) name.now (header_view header.now).length bytes
        → IsHeaderOf (header_view header.now) bytes → SoundAs rules vs bytes
        → IfErr result (λ e. IfTooLong e ((file : List ℕ)
        → ¬ (FileOf rules (vs ++ lent_view new.now ∷ []) file))) }
    ensures no_room { (b : ℕ) → (header_view header.now).length + 12 ≤ b
        → IsShortTree b (lent_view new.now)
        → IfErr result (λ e. IfTooLong e (Overfull b
        (header_view header.now).rules ((header_view header.now).versions + 1)
        (F.draft folder.new))) }
    ensures undamaged { (bytes : List ℕ) (rules : List PlainRule) (vs : List PlainKeyed)
        → TellsFront (F.files folder.old) name.now (header_view header.now).length bytes
        → IsHeaderOf (header_view header.now) bytes → SoundAs rules vs bytes
        → IfErr result (λ e. e ≢ Damage) }

    ensures limit { (result ≡ Err Limit) ↔ ((header_view header.now).versions ≡ MOST_VERSIONS) }
    ensures later { F.faults folder.old ≤ F.faults folder.new }
    ensures cause { IfFailed result (Rose (F.faults folder.old) (F.faults folder.new)) }

    // The archive is read once, and over a sound one little of it is held.
    ensures pulls { PullsAndDrafts
        ((header_view header.now).length - (header_view header.now).first)
        (F.numbers folder.old) (F.numbers folder.new) }
    ensures gap { (bytes : List ℕ) (rules : List PlainRule) (vs : List PlainKeyed)
        (a : PlainArchive)
        → TellsFront (F.files folder.old) name.now (header_view header.now).length bytes
        → IsHeaderOf (header_view header.now) bytes → SoundAs rules vs bytes → ArchiveOf vs a
        → (F.numbers folder.new).gap ≤ max (F.numbers folder.old).gap
        (lead (F.numbers folder.old) - length (header_bytes rules a.n) + largest rules a) }
    ensures ahead { (bytes : List ℕ)
        → TellsFront (F.files folder.old) name.now (header_view header.now).length bytes
        → IsHeaderOf (header_view header.now) bytes
        → OnOk result (lead (F.numbers folder.new) ≤ lead (F.numbers folder.old)
        - (header_view header.now).first) }
{
    if header.versions >= MOST_VERSIONS {
        return Err(AddFault::Limit);
    }
    append_version(alloc, folder, header, cursor, new)?;
    Ok(())
}

// Appends the archive with one more version to the draft.
fn append_version<F: Folder>(
    alloc: Global,
    folder: &mut F,
    header: &Header,
    cursor: Cursor,
    new: &LentKeyed<'_, '_>,
) -> Result<(), MergeFault>
    requires room { (header_view header.now).versions < MOST_VERSIONS }
    requires within { (header_view header.now).first ≤ (header_view header.now).length }
    requires length { cursor.length ≡ (header_view header.now).length }
    requires standing { cursor.standing ≡ among_nodes 0 }
    requires first { cursor.at ≡ (header_view header.now).first }
    requires keyed { IsKeyedBy (header_view header.now).rules (lent_view new.now) }
    requires texts { AreTexts (plain (lent_view new.now)) }
    ensures { VersionAppended F.files F.draft F.numbers F.faults (header_view header.now)
        (lent_view new.now) folder.old folder.new cursor (fault_of result) }
{
    let number = header.versions + 1;
    let writer = Writer::start(alloc, folder, &header.spec, number)?;
    let from = Inherited {
        alloc,
        number,
        before: VersionSet::upto(alloc, header.versions),
        now: VersionSet::upto(alloc, number),
    };
    let mut cursor = cursor;
    append_nodes(folder, &mut cursor, writer, new, &from)
}

// Appends the nodes of the archive with one more version to the draft, and what stands behind them.
fn append_nodes<F: Folder>(
    folder: &mut F,
    cursor: &mut Cursor,
    writer: Writer,
    new: &LentKeyed<'_, '_>,
    from: &Inherited,
) -> Result<(), MergeFault>
    requires within { cursor.old.at ≤ cursor.old.length }
    requires no_leaf { (writer_view writer).leaf ≡ None }
    requires no_inner { (writer_view writer).inners ≡ [] }
    requires number { 1 ≤ (inherited_view from.now).number }
    requires ordered { IsOrdered (lent_view new.now) }
    requires shaped { IsShapedNode (fresh None (lent_view new.now)) }
    ensures { NodesAppended F.files F.draft F.numbers F.faults (inherited_view from.entry.now)
        (lent_view new.now) folder.old folder.new cursor.old writer (fault_of result) }
{
    let mut writer = writer;
    merge_row(folder, cursor, &mut writer, Kids::only(new), from)?;
    writer.finish(folder)?;
    match cursor.next(folder)? {
        Item::Finish => Ok(()),
        _ => Err(MergeFault::Damage),
    }
}

// Makes the draft the file of this name.
fn commit<F: Folder>(folder: &mut F, name: &str) -> Result<(), AddFault>
    ensures files { OnOk result (F.files folder.new
        ≡ committed (F.files folder.old) (F.draft folder.old) name.now) }
    ensures refused { OnErr result (F.files folder.new ≡ F.files folder.old) }
    ensures draft { OnOk result (F.draft folder.new ≡ emptied (F.draft folder.old)) }
    ensures kept { OnErr result (F.draft folder.new ≡ F.draft folder.old) }
    ensures numbers { F.numbers folder.new ≡ F.numbers folder.old }
    ensures later { F.faults folder.old ≤ F.faults folder.new }
    ensures fault { IfErr result (λ e. e ≡ AddFault.Folder) }
    ensures cause { OnErr result (Rose (F.faults folder.old) (F.faults folder.new)) }
{
    match folder.commit(name) {
        Ok(()) => Ok(()),
        Err(_) => Err(AddFault::Folder),
    }
}
