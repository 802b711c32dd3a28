// Judging an archive file in a folder.
ghost use Rattle.std.specs.Prelude.{◌≡◌, ◌≤◌, ◌<◌, ℕ, List, length, Some, None, Err, IfOk};
ghost use Rattle.std.specs.Prelude as prelude;
ghost use Rattle.key_spec.specs.Data.{PlainRule};
ghost use Rattle.keyed_tree.specs.Data.{PlainKeyed};
ghost use Rattle.archive_file.specs.Sound.{Sound, SoundAs};
ghost use Rattle.record_format.specs.Files.{longest};
ghost use Rattle.xa_outside.specs.Causes.{Rose};
ghost use Rattle.xa_outside.specs.Folder.{Files, front_of};
ghost use Rattle.xa_outside.specs.Numbers.{PullsAtMost};
ghost use Rattle.node_walk.specs.Nodes.{folder_seen};
ghost use Rattle.archive_check.specs.Judged.{FileJudged, PartsJudged};
ghost use Rattle.archive_check.specs.declared.fault.CheckFault.TheVariants.{Damage, Folder};

use crate::fault::CheckFault;
use node_judge::nodes_are_sound_in_their_place;
use node_walk::judge_nodes;
use record_cursor::{CursorFault, read_header_in};
use record_format::LONGEST;
use std::alloc::Global;
use xa_outside::Folder;

/// The number of versions of the archive that the first `length` bytes of a file are, or Damage
/// where they are no sound archive.
///
/// It reads the header, and then each record once, and judges each node where it is met. It holds
/// neither nodes nor the file nor its directories. A file that begins with no header is refused
/// after its first bytes, and one with fewer bytes is damaged.
pub fn check<F: Folder>(
    alloc: Global,
    folder: &mut F,
    name: &str,
    length: u64,
) -> Result<u32, CheckFault>
    ensures files { F.files folder.new ≡ F.files folder.old }
    ensures draft { F.draft folder.new ≡ F.draft folder.old }
    ensures pulls { PullsAtMost length (F.numbers folder.old) (F.numbers folder.new) }
    ensures later { F.faults folder.old ≤ F.faults folder.new }
    ensures cause { result ≡ Err Folder → Rose (F.faults folder.old) (F.faults folder.new) }

    // Where files are told, it answers for sound archives alone, with the number of their versions.
    ensures sound { (files : Files) (bytes : List ℕ)
        → F.files folder.old ≡ Some files → front_of files name.now length ≡ Some bytes
        → IfOk result (λ n. (s : Sound bytes) × (prelude.length s.versions ≡ n)) }
    ensures versions { (files : Files) (bytes : List ℕ) (rules : List PlainRule)
        (vs : List PlainKeyed)
        → F.files folder.old ≡ Some files → front_of files name.now length ≡ Some bytes
        → SoundAs rules vs bytes → IfOk result (λ n. n ≡ prelude.length vs) }
    ensures damage { (files : Files) (bytes : List ℕ)
        → F.files folder.old ≡ Some files → front_of files name.now length ≡ Some bytes
        → result ≡ Err Damage → ¬ (Sound bytes) }

    // A file that has fewer bytes is not sound.
    ensures short { (files : Files) → F.files folder.old ≡ Some files
        → front_of files name.now length ≡ None → IfOk result (λ n. ⊥) }

    // No archive is so long: that is told without a read, and takes no memory.
    ensures too_long { longest < length
        → (result ≡ Err Damage) × (F.numbers folder.new ≡ F.numbers folder.old) }
{
    if length > LONGEST {
        return Err(CheckFault::Damage);
    }
    judge_file(alloc, folder, name, length)
}

/// Judges the first bytes of a file, so many.
fn judge_file<F: Folder>(
    alloc: Global,
    folder: &mut F,
    name: &str,
    length: u64,
) -> Result<u32, CheckFault>
    requires { length ≤ longest }
    ensures { FileJudged name.now length
        (folder_seen F.files F.draft F.numbers F.faults folder.old)
        (folder_seen F.files F.draft F.numbers F.faults folder.new) result }
{
    // A law, for the proof: a file is sound exactly where nodes lie in it that are right.
    nodes_are_sound_in_their_place();
    match judge_parts(alloc, folder, name, length) {
        Ok(versions) => Ok(versions),
        Err(CursorFault::Damage) => Err(CheckFault::Damage),
        Err(CursorFault::Folder) => Err(CheckFault::Folder),
        Err(CursorFault::Memory) => Err(CheckFault::Memory),
    }
}

/// Judges the header and the nodes of the first bytes of a file, so many, and answers the number of
/// versions.
fn judge_parts<F: Folder>(
    alloc: Global,
    folder: &mut F,
    name: &str,
    length: u64,
) -> Result<u32, CursorFault>
    requires { length ≤ longest }
    ensures { PartsJudged name.now length
        (folder_seen F.files F.draft F.numbers F.faults folder.old)
        (folder_seen F.files F.draft F.numbers F.faults folder.new) result }
{
    // The same law: where a file is sound, its nodes are.
    nodes_are_sound_in_their_place();
    let header = read_header_in(alloc, folder, name, length)?;
    judge_nodes(alloc, folder, name, &header)?;
    Ok(header.versions)
}
