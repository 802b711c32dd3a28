// The counts of an archive file in a folder.
ghost use Rattle.std.specs.Prelude.{◌≡◌, ◌≤◌, ◌-◌, ℕ, List, Some, None, IfOk, IfErr};
ghost use Rattle.key_spec.specs.Data.{PlainRule};
ghost use Rattle.keyed_tree.specs.Data.{PlainKeyed};
ghost use Rattle.archive_tree.specs.Data.{PlainArchive};
ghost use Rattle.archive_tree.specs.Stands.{ArchiveOf};
ghost use Rattle.archive_file.specs.Sound.{SoundAs};
ghost use Rattle.xa_outside.specs.Causes.{Rose};
ghost use Rattle.xa_outside.specs.Folder.{Files, front_of};
ghost use Rattle.xa_outside.specs.Numbers.{PullsAtMost};
ghost use Rattle.record_cursor.specs.View.{header_view};
ghost use Rattle.archive_stats.specs.Counted.{FileCounted, seen};
ghost use Rattle.archive_stats.specs.Counts.{counts, end_bodies};
ghost use Rattle.archive_stats.specs.Tally.{before_records};
ghost use Rattle.archive_stats.specs.View.{counts_view, IfDamage, IfFolder};

use crate::counts::Counts;
use crate::fault::StatsFault;
use crate::records::count_records;
use record_cursor::{Cursor, CursorFault, Header, read_header_in};
use std::alloc::Global;
use xa_outside::Folder;

/// What is counted of the archive that the first `length` bytes of a file are.
///
/// It reads the file record by record, and holds one of them and the counts. A file with fewer
/// bytes is damaged; other damage is noticed only where no record stands that may come there.
pub fn stats<F: Folder>(
    alloc: Global,
    folder: &mut F,
    name: &str,
    length: u64,
) -> Result<Counts, StatsFault>
    ensures files { F.files folder.new ≡ F.files folder.old }
    ensures draft { F.draft folder.new ≡ F.draft folder.old }
    ensures numbers { PullsAtMost length (F.numbers folder.old) (F.numbers folder.new) }
    ensures later { F.faults folder.old ≤ F.faults folder.new }
    ensures cause { IfErr result (λ e.
        IfFolder e (Rose (F.faults folder.old) (F.faults folder.new))) }

    // Where files are told, the counts of a sound archive are its own, and Damage is only for bytes
    // that are none.
    ensures counts { (files : Files) (bytes : List ℕ) (rules : List PlainRule)
        (vs : List PlainKeyed) (a : PlainArchive)
        → F.files folder.old ≡ Some files → front_of files name.now length ≡ Some bytes
        → SoundAs rules vs bytes → ArchiveOf vs a
        → IfOk result (λ c. counts_view c ≡ counts rules a) }
    ensures damage { (files : Files) (bytes : List ℕ)
        → F.files folder.old ≡ Some files → front_of files name.now length ≡ Some bytes
        → IfErr result (λ e. IfDamage e ((rules : List PlainRule) (vs : List PlainKeyed)
        → ¬ (SoundAs rules vs bytes))) }

    // Over a sound archive the bodies of its END records are not read, whatever is answered.
    ensures few { (files : Files) (bytes : List ℕ) (rules : List PlainRule)
        (vs : List PlainKeyed) (a : PlainArchive)
        → F.files folder.old ≡ Some files → front_of files name.now length ≡ Some bytes
        → SoundAs rules vs bytes → ArchiveOf vs a → PullsAtMost (length - end_bodies a)
        (F.numbers folder.old) (F.numbers folder.new) }

    // There are no counts of a file that has fewer bytes.
    ensures short { (files : Files) → F.files folder.old ≡ Some files
        → front_of files name.now length ≡ None → IfOk result (λ c. ⊥) }
{
    match count_file(alloc, folder, name, length) {
        Ok(counts) => Ok(counts),
        Err(fault) => Err(StatsFault::from(fault)),
    }
}

/// Counts the records of a file one after the other.
pub(crate) fn count_file<F: Folder>(
    alloc: Global,
    folder: &mut F,
    name: &str,
    length: u64,
) -> Result<Counts, CursorFault>
    ensures { FileCounted name.now length (seen F.files F.draft F.numbers F.faults folder.old)
        (seen F.files F.draft F.numbers F.faults folder.new) result }
{
    match read_header_in(alloc, folder, name, length) {
        Ok(header) => match Cursor::start(alloc, name, &header) {
            Ok(mut cursor) => count_records(folder, &mut cursor, none_counted(&header)),
            Err(_) => Err(CursorFault::Memory),
        },
        Err(fault) => Err(fault),
    }
}

// The counts of a file with this header, before its records.
fn none_counted(header: &Header) -> Counts
    ensures { counts_view result ≡ before_records (header_view header.now).versions
        (header_view header.now).first (header_view header.now).length }
{
    Counts {
        versions: header.versions,
        inner: 0,
        leaves: 0,
        alternatives: 0,
        stamps: 0,
        largest: header.first,
        bytes: header.length,
    }
}
