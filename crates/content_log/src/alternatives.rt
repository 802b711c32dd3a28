// Writing the alternatives of a leaf, one after another.
ghost use Rattle.std.specs.Prelude.{◌≡◌, ◌≤◌, None};
ghost use Rattle.version_set.specs.View.{pairs_of};
ghost use Rattle.record_cursor.specs.View.{IsHeader, header_view};
ghost use Rattle.content_log.specs.Told.{fault_of};
ghost use Rattle.content_log.specs.Written.{AltsWritten, LeafWritten, RecordsWritten, may_come, seen};

use crate::entry::put_entry;
use crate::fault::LogFault;
use file_history::LeafAt;
use record_cursor::{Cursor, Header, Item};
use std::alloc::Global;
use version_set::VersionSet;
use xa_outside::{Folder, Sink};

/// Writes an entry for each alternative of a leaf in the file of this name, whose name is the tag.
///
/// The leaf is read once, record by record.
pub(crate) fn put_leaf<F: Folder, K: Sink>(
    alloc: Global,
    folder: &mut F,
    name: &str,
    header: &Header,
    leaf: &LeafAt,
    tag: &str,
    sink: &mut K,
) -> Result<(), LogFault>
    requires header { IsHeader (header_view header.now) }
    requires within { leaf.now.child.end ≤ (header_view header.now).length }
    ensures { LeafWritten name.now tag.now (header_view header.now).length leaf.now
        (seen F.files F.draft F.numbers F.faults K.taken K.faults folder.old sink.old)
        (seen F.files F.draft F.numbers F.faults K.taken K.faults folder.new sink.new)
        (fault_of result) }
{
    let mut cursor = Cursor::start(alloc, name, header)?;
    cursor.seek(0, leaf.child.first, leaf.child.end);
    put_records(alloc, folder, &mut cursor, &leaf.set, tag, sink)
}

// Writes the leaf that comes, which has this set.
fn put_records<F: Folder, K: Sink>(
    alloc: Global,
    folder: &mut F,
    cursor: &mut Cursor,
    set: &VersionSet,
    tag: &str,
    sink: &mut K,
) -> Result<(), LogFault>
    ensures { RecordsWritten tag.now (pairs_of set.now) cursor.old
        (seen F.files F.draft F.numbers F.faults K.taken K.faults folder.old sink.old)
        (seen F.files F.draft F.numbers F.faults K.taken K.faults folder.new sink.new)
        (fault_of result) }
{
    let item = match cursor.next(folder) {
        Ok(item) => item,
        Err(fault) => return Err(LogFault::from(fault)),
    };
    match item {
        Item::Leaf { .. } => put_alternatives(alloc, folder, cursor, set, tag, sink),
        _ => Err(LogFault::Damage),
    }
}

// Writes the alternatives that come, as far as the end of their leaf, which has this set. Where more
// than one come and one of them stores no set, that is damage; so the set of the leaf is written
// once at most.
fn put_alternatives<F: Folder, K: Sink>(
    alloc: Global,
    folder: &mut F,
    cursor: &mut Cursor,
    set: &VersionSet,
    tag: &str,
    sink: &mut K,
) -> Result<(), LogFault>
    ensures { AltsWritten None tag.now (pairs_of set.now) cursor.old
        (seen F.files F.draft F.numbers F.faults K.taken K.faults folder.old sink.old)
        (seen F.files F.draft F.numbers F.faults K.taken K.faults folder.new sink.new)
        (fault_of result) }
{
    let mut came = None;
    loop {
        let item = match cursor.next(folder) {
            Ok(item) => item,
            Err(fault) => return Err(LogFault::from(fault)),
        };
        match item {
            Item::Alt { stamp, body } => {
                let stored = stamp.is_stored();
                if !may_come(came, stored) {
                    return Err(LogFault::Damage);
                }
                put_entry(alloc, set, tag, stamp, body, sink)?;
                came = Some(stored);
            }
            Item::LeafEnd => return Ok(()),
            _ => return Err(LogFault::Damage),
        }
    }
}

// Whether an alternative may come that stores its set, or that stores none: behind none, or behind
// one of which it is said whether it stores its set.
fn may_come(came: Option<bool>, stored: bool) -> bool
    ensures { result ≡ may_come came stored }
{
    match came {
        Some(before) => before && stored,
        None => true,
    }
}
