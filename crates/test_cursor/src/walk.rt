// An archive read and written record by record.
ghost use Rattle.std.specs.Prelude.{◌≡◌, ◌≢◌, ℕ, [], length, None, IfOk};
ghost use Rattle.record_writer.specs.View.{writer_view};
ghost use Rattle.test_cursor.specs.Agrees.{Agrees};
ghost use Rattle.test_cursor.specs.declared.stand.Stand.TheVariants.{Nodes, Leaf};

use crate::stand::Stand;
use crate::stopped::Stopped;
use archive_tree::effective;
use record_cursor::{Cursor, Item, read_header};
use record_format::{BodyView, LabelView, StampView};
use record_writer::{BodyFrom, LabelFrom, Writer};
use std::alloc::Global;
use version_set::VersionSet;
use xa_outside::Folder;

// The stored set, and the effective one.
fn sets_of(
    alloc: Global,
    stamp: StampView<'_>,
    sets: &[VersionSet],
) -> Result<(Option<VersionSet>, VersionSet), Stopped> {
    let Some(parent) = sets.last() else {
        return Err(Stopped);
    };
    let stored = stamp.copy(alloc)?;
    let set = effective(&stored, parent).copy()?;
    Ok((stored, set))
}

fn put_inner<F: Folder>(
    alloc: Global,
    folder: &mut F,
    writer: &mut Writer,
    sets: &mut Vec<VersionSet>,
    label: LabelView<'_>,
    stamp: StampView<'_>,
) -> Result<Stand, Stopped>
    requires { Agrees (writer_view writer.old) (length sets.old.items) Nodes }
    ensures { IfOk result (λ s. Agrees (writer_view writer.new) (length sets.new.items) s) }
{
    let (stored, set) = sets_of(alloc, stamp, sets)?;
    writer.inner(folder, LabelFrom::Old(label), &stored, &set)?;
    sets.push(set)?;
    Ok(Stand::Nodes)
}

fn put_leaf<F: Folder>(
    alloc: Global,
    folder: &mut F,
    writer: &mut Writer,
    sets: &[VersionSet],
    label: LabelView<'_>,
    stamp: StampView<'_>,
) -> Result<Stand, Stopped>
    requires { Agrees (writer_view writer.old) (length sets.now) Nodes }
    ensures { IfOk result (λ s. Agrees (writer_view writer.new) (length sets.now) s) }
{
    let (stored, set) = sets_of(alloc, stamp, sets)?;
    writer.leaf(folder, LabelFrom::Old(label), &stored, &set)?;
    Ok(Stand::Leaf)
}

fn put_alternative<F: Folder>(
    alloc: Global,
    folder: &mut F,
    writer: &mut Writer,
    stamp: StampView<'_>,
    body: BodyView<'_>,
) -> Result<Stand, Stopped>
    requires { (writer_view writer.old).leaf ≢ None }
    ensures { IfOk result (λ s. (n : ℕ) → Agrees (writer_view writer.old) n Leaf
        → Agrees (writer_view writer.new) n s) }
{
    let stored = stamp.copy(alloc)?;
    writer.alt(folder, &stored, BodyFrom::Old(body))?;
    Ok(Stand::Leaf)
}

fn end_leaf<F: Folder>(folder: &mut F, writer: &mut Writer) -> Result<Stand, Stopped>
    requires { (writer_view writer.old).leaf ≢ None }
    ensures { IfOk result (λ s. (n : ℕ) → Agrees (writer_view writer.old) n Leaf
        → Agrees (writer_view writer.new) n s) }
{
    writer.end_leaf(folder)?;
    Ok(Stand::Nodes)
}

// Behind the last child of the virtual root there is nothing more to close.
fn end_row<F: Folder>(
    folder: &mut F,
    writer: &mut Writer,
    sets: &mut Vec<VersionSet>,
) -> Result<Stand, Stopped>
    requires { Agrees (writer_view writer.old) (length sets.old.items) Nodes }
    ensures { IfOk result (λ s. Agrees (writer_view writer.new) (length sets.new.items) s) }
{
    if sets.len() < 2 {
        return Ok(Stand::Closed);
    }
    writer.end_inner(folder)?;
    sets.pop();
    Ok(Stand::Nodes)
}

fn put_among_nodes<F: Folder>(
    alloc: Global,
    folder: &mut F,
    writer: &mut Writer,
    sets: &mut Vec<VersionSet>,
    item: Item<'_>,
) -> Result<Stand, Stopped>
    requires { Agrees (writer_view writer.old) (length sets.old.items) Nodes }
    ensures { IfOk result (λ s. Agrees (writer_view writer.new) (length sets.new.items) s) }
{
    match item {
        Item::Inner { label, stamp } => put_inner(alloc, folder, writer, sets, label, stamp),
        Item::Leaf { label, stamp } => put_leaf(alloc, folder, writer, sets, label, stamp),
        Item::End { .. } => end_row(folder, writer, sets),
        _ => Err(Stopped),
    }
}

fn put_in_leaf<F: Folder>(
    alloc: Global,
    folder: &mut F,
    writer: &mut Writer,
    item: Item<'_>,
) -> Result<Stand, Stopped>
    requires { (writer_view writer.old).leaf ≢ None }
    ensures { IfOk result (λ s. (n : ℕ) → Agrees (writer_view writer.old) n Leaf
        → Agrees (writer_view writer.new) n s) }
{
    match item {
        Item::Alt { stamp, body } => put_alternative(alloc, folder, writer, stamp, body),
        Item::LeafEnd => end_leaf(folder, writer),
        _ => Err(Stopped),
    }
}

fn put_item<F: Folder>(
    alloc: Global,
    folder: &mut F,
    writer: &mut Writer,
    sets: &mut Vec<VersionSet>,
    stand: Stand,
    item: Item<'_>,
) -> Result<Stand, Stopped>
    requires { Agrees (writer_view writer.old) (length sets.old.items) stand }
    ensures { IfOk result (λ s. Agrees (writer_view writer.new) (length sets.new.items) s) }
{
    match stand {
        Stand::Nodes => put_among_nodes(alloc, folder, writer, sets, item),
        Stand::Leaf => put_in_leaf(alloc, folder, writer, item),
        Stand::Closed => Err(Stopped),
    }
}

// The last record was that of the virtual root, and the file ends.
fn finish<F: Folder>(folder: &mut F, cursor: &mut Cursor, writer: Writer) -> Result<(), Stopped>
    requires no_leaf { (writer_view writer).leaf ≡ None }
    requires no_inner { (writer_view writer).inners ≡ [] }
{
    match cursor.next(folder) {
        Ok(Item::Finish) => {
            writer.finish(folder)?;
            Ok(())
        }
        _ => Err(Stopped),
    }
}

// Each record, one after the other.
fn write_records<F: Folder>(
    alloc: Global,
    folder: &mut F,
    cursor: &mut Cursor,
    writer: Writer,
    all: VersionSet,
) -> Result<(), Stopped>
    requires no_leaf { (writer_view writer).leaf ≡ None }
    requires no_inner { (writer_view writer).inners ≡ [] }
{
    let mut writer = writer;
    let mut sets = Vec::new(alloc);
    sets.push(all)?;
    let mut stand = Stand::Nodes;
    for _ in 0..u64::MAX {
        let item = match cursor.next(folder) {
            Ok(item) => item,
            Err(_) => return Err(Stopped),
        };
        stand = put_item(alloc, folder, &mut writer, &mut sets, stand, item)?;
        if let Stand::Closed = stand {
            return finish(folder, cursor, writer);
        }
    }
    Err(Stopped)
}

/// Reads the archive record by record, and writes each again into the draft, which gets the other name.
pub fn write_again<F: Folder>(
    alloc: Global,
    folder: &mut F,
    name: &str,
    other: &str,
) -> Result<(), Stopped> {
    let Some(length) = folder.length(name)? else {
        return Err(Stopped);
    };
    let header = read_header(alloc, folder, name, length)?;
    let mut cursor = Cursor::start(alloc, name, &header)?;
    folder.begin()?;
    let writer = Writer::start(alloc, folder, &header.spec, header.versions)?;
    let all = VersionSet::upto(alloc, header.versions);
    write_records(alloc, folder, &mut cursor, writer, all)?;
    folder.commit(other)?;
    Ok(())
}
