// Where the notes of a file stand.
ghost use Rattle.std.specs.Prelude.{◌≡◌, ◌≤◌, ◌-◌, ℕ, List, length, min, Some, IfOk, IfErr};
ghost use Rattle.xa_outside.specs.Causes.{Rose};
ghost use Rattle.xa_outside.specs.Folder.{Files, front_of};
ghost use Rattle.xa_outside.specs.Numbers.{PullsAtMost};
ghost use Rattle.version_notes.specs.Faults.{IfFailed};
ghost use Rattle.version_notes.specs.Parts.{AreParts, TellsParts, last, parts_in, parts_of_front};

use crate::fault::PartsFault;
use xa_fields::take_u64;
use xa_outside::{Folder, fill_at};

/// What a file with notes ends in.
pub(crate) const MARK: [u8; 8] = [0xff; 8];

/// The number of the notes' bytes, and the mark.
const ENDING: u64 = 16;

/// How many bytes of a file stand before its notes, and how many the notes have, if there are any.
#[derive(Clone, Copy, Debug, PartialEq, Eq)]
pub struct Parts {
    pub core: u64,
    pub notes: Option<u64>,
}

/// The parts of the first `length` bytes of a file.
///
/// It reads the last sixteen of these, or all where there are fewer. Where the file has fewer
/// bytes than `length` there are no notes.
pub fn parts_of<F: Folder>(folder: &mut F, name: &str, length: u64) -> Result<Parts, PartsFault>
    ensures make_up { IfOk result (λ parts. AreParts length parts) }
    ensures files { F.files folder.new ≡ F.files folder.old }
    ensures draft { F.draft folder.new ≡ F.draft folder.old }
    ensures pulls { PullsAtMost 16 (F.numbers folder.old) (F.numbers folder.new) }
    ensures later { F.faults folder.old ≤ F.faults folder.new }
    ensures cause { IfErr result (λ e.
        IfFailed e (Rose (F.faults folder.old) (F.faults folder.new))) }

    // Where files are told, these are the parts, and damage is for bytes that have none.
    ensures told { (files : Files) → F.files folder.old ≡ Some files
        → TellsParts result (parts_of_front length (front_of files name.now length)) }
{
    let mut ending = [0; ENDING as usize];
    let size = length.min(ENDING);
    let ending = &mut ending[..size as usize];
    match fill_at(folder, name, length - size, ending) {
        Ok(count) if count < ending.len() => Ok(Parts::without_notes(length)),
        Ok(_) => Parts::by_ending(ending, length),
        Err(_) => Err(PartsFault::Folder),
    }
}

impl Parts {
    ghost use Rattle.version_notes.specs.Parts.{no_notes};

    fn without_notes(length: u64) -> Parts
        ensures { result ≡ no_notes length }
    {
        Parts {
            core: length,
            notes: None,
        }
    }

    /// The parts of so many bytes, of which these are the last sixteen, or all.
    fn by_ending(ending: &[u8], total: u64) -> Result<Parts, PartsFault>
        requires { length ending.now ≡ min 16 total }
        ensures make_up { IfOk result (λ parts. AreParts total parts) }
        ensures cause { IfErr result (λ e. IfFailed e ⊥) }
        ensures told { (bytes : List ℕ) → length bytes ≡ total → ending.now ≡ last 16 bytes
            → TellsParts result (parts_in bytes) }
    {
        if !ending.ends_with(&MARK) {
            return Ok(Parts::without_notes(total));
        }
        let number = &ending[..ending.len() - MARK.len()];
        let Some((notes, _)) = take_u64(number, 0) else {
            return Err(PartsFault::Damage);
        };
        match (total - ENDING).checked_sub(notes) {
            Some(core) => Ok(Parts {
                core,
                notes: Some(notes),
            }),
            None => Err(PartsFault::Damage),
        }
    }
}
