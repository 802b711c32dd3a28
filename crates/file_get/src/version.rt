// Writing a version.
ghost use Rattle.std.specs.Prelude.{◌≡◌, ◌≢◌, ◌+◌, ◌≤◌, ℕ, List, None, Some, IfErr, OnOk};
ghost use Rattle.key_spec.specs.Data.{PlainRule};
ghost use Rattle.keyed_tree.specs.Data.{PlainKeyed};
ghost use Rattle.keyed_print.specs.KeyedText.{keyed_text};
ghost use Rattle.archive_tree.specs.Data.{PlainArchive};
ghost use Rattle.archive_tree.specs.Stands.{ArchiveOf, version_of};
ghost use Rattle.archive_file.specs.Sound.{SoundAs};
ghost use Rattle.record_format.specs.Fronts.{fixed};
ghost use Rattle.record_format.specs.Seen.{seen, steps_for};
ghost use Rattle.record_cursor.specs.Moves.{TellsFront};
ghost use Rattle.xa_outside.specs.Folder.{Files, front_of};
ghost use Rattle.xa_outside.specs.Numbers.{PullsAtMost};
ghost use Rattle.xa_outside.specs.Taken.{Puts, Takes, TakesNone};
ghost use Rattle.jsonml_print.specs.Pen.{fresh};
ghost use Rattle.file_get.specs.Searched.{bytes_read};
ghost use Rattle.file_get.specs.State.{state};
ghost use Rattle.file_get.specs.Told.{IsCaused, IsRefused, Judges, fault_of, is_version};
ghost use Rattle.file_get.specs.Written.{IsUncounted, Written};
ghost use Rattle.file_get.specs.declared.fault.GetFault.TheVariants.{Damage, NoVersion};

use crate::fault::GetFault;
use crate::missing::judge_missing;
use crate::root::put_version;
use crate::span::Ask;
use record_cursor::read_fixed;
use std::alloc::Global;
use std::sync::ledger::Ledger;
use timestamp_tree::Steps;
use xa_outside::{Folder, Sink};

/// Writes a version of the archive in the first `size` bytes of a file: its text, and a line feed.
///
/// At each node the stored timestamp tree over its children is searched, which leads to the
/// children that the version has, in order; each visited tree node is a step. In the set of a tree
/// node and of an alternative the version is looked for by halving. Memory is taken for a record or
/// a value of more than 256 bytes. Of the header the fourteen bytes of fixed fields are read. Where
/// they count no such version, the last of the `size` bytes is read too, or the length is asked for
/// if the header has them all: a file with fewer is damaged.
pub fn get<F: Folder, O: Sink, L: Ledger>(
    alloc: Global,
    folder: &mut F,
    name: &str,
    size: u64,
    version: u32,
    out: &mut O,
    steps: &mut Steps<L>,
) -> Result<(), GetFault>
    // Where the file is told, it is judged by the number of versions that its header counts.
    ensures judges { (bytes : List ℕ) → TellsFront (F.files folder.old) name.now size bytes
        → Judges version (fixed bytes) (fault_of result) }
    ensures uncounted { (bytes : List ℕ) → TellsFront (F.files folder.old) name.now size bytes
        → IsUncounted version (fixed bytes) → TakesNone (O.taken out.old) (O.taken out.new) }
    ensures short { (files : Files) → F.files folder.old ≡ Some files
        → front_of files name.now size ≡ None → IsRefused (fault_of result) }
    ensures nothing { (n : ℕ) → fault_of result ≡ Some (NoVersion n)
        → TakesNone (O.taken out.old) (O.taken out.new) }

    // Of a sound archive the version's text is written, or a prefix of it on a fault.
    ensures text { (bytes : List ℕ) (rules : List PlainRule) (vs : List PlainKeyed) (k : PlainKeyed)
        → TellsFront (F.files folder.old) name.now size bytes → SoundAs rules vs bytes
        → version_of vs version ≡ Some k
        → Puts (O.taken out.old) (O.taken out.new) result (keyed_text k) }
    ensures undamaged { (bytes : List ℕ) (rules : List PlainRule) (vs : List PlainKeyed)
        → TellsFront (F.files folder.old) name.now size bytes → SoundAs rules vs bytes
        → IfErr result (λ e. e ≢ Damage) }

    // Whatever the file is.
    ensures gained { (bytes : List ℕ) × Takes (O.taken out.old) (O.taken out.new) bytes }
    ensures files { F.files folder.new ≡ F.files folder.old }
    ensures draft { F.draft folder.new ≡ F.draft folder.old }
    ensures later { F.faults folder.old ≤ F.faults folder.new }
    ensures out_later { O.faults out.old ≤ O.faults out.new }
    ensures cause { IsCaused (F.faults folder.old) (F.faults folder.new) (O.faults out.old)
        (O.faults out.new) (fault_of result) }

    // Whatever the file is, no more bytes are pulled than the part has. Over a sound archive only
    // what the search looks at is read, and of stored sets what halving asks for.
    ensures pulls { PullsAtMost size (F.numbers folder.old) (F.numbers folder.new) }
    ensures few { (bytes : List ℕ) (rules : List PlainRule) (vs : List PlainKeyed)
        (a : PlainArchive) → TellsFront (F.files folder.old) name.now size bytes
        → SoundAs rules vs bytes → ArchiveOf vs a
        → (is_version version a.n → PullsAtMost (22 + seen a version)
        (F.numbers folder.old) (F.numbers folder.new))
        × (¬ is_version version a.n
        → PullsAtMost 22 (F.numbers folder.old) (F.numbers folder.new)) }
    ensures halved { (bytes : List ℕ) (rules : List PlainRule) (vs : List PlainKeyed)
        (a : PlainArchive) → TellsFront (F.files folder.old) name.now size bytes
        → SoundAs rules vs bytes → ArchiveOf vs a → is_version version a.n
        → PullsAtMost (22 + bytes_read a version) (F.numbers folder.old) (F.numbers folder.new) }
    ensures steps { (bytes : List ℕ) (rules : List PlainRule) (vs : List PlainKeyed)
        (a : PlainArchive) → TellsFront (F.files folder.old) name.now size bytes
        → SoundAs rules vs bytes → ArchiveOf vs a → steps.new ≤ steps.old + steps_for a version }

    // Where it answers Ok, exactly the visited nodes are counted.
    ensures exactly { (bytes : List ℕ) (rules : List PlainRule) (vs : List PlainKeyed)
        (a : PlainArchive) → TellsFront (F.files folder.old) name.now size bytes
        → SoundAs rules vs bytes → ArchiveOf vs a
        → OnOk result (steps.new ≡ steps.old + steps_for a version) }
{
    write_version(
        Ask {
            alloc,
            name,
            version,
        },
        size,
        folder,
        out,
        steps,
    )
}

// Writes the version that is asked for of the archive in the first `size` bytes of a file.
fn write_version<F: Folder, O: Sink, L: Ledger>(
    ask: Ask<'_>,
    size: u64,
    folder: &mut F,
    out: &mut O,
    steps: &mut Steps<L>,
) -> Result<(), GetFault>
    ensures { Written ask.entry.version ask.entry.name.now size
        (state F.files F.draft F.numbers F.faults O.taken O.faults
        folder.old out.old fresh steps.old)
        (state F.files F.draft F.numbers F.faults O.taken O.faults
        folder.new out.new fresh steps.new) (fault_of result) }
{
    let fixed = read_fixed(folder, ask.name, size)?;
    if ask.version < 1 || fixed.versions < ask.version {
        judge_missing(folder, ask.name, fixed.first, size)?;
        return Err(GetFault::NoVersion { n: fixed.versions });
    }
    put_version(&ask, fixed.first, size, folder, out, steps)
}
