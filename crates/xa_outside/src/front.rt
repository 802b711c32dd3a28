// Reading the front of a file.
ghost use Rattle.std.specs.Prelude.{◌≡◌, ◌≤◌, Some, IfOk, IfErr, take, vec_len};
ghost use Rattle.std.specs.FinMap as map;
ghost use Rattle.xa_outside.specs.Causes.{Rose};
ghost use Rattle.xa_outside.specs.Fault.{IfFolder, IfMemory};
ghost use Rattle.xa_outside.specs.Folder.{Files, bytes_or_none, front, front_of};
ghost use Rattle.xa_outside.specs.Numbers.{PullsAtMost, after_pull};

use crate::{Folder, fill_at};
use std::alloc::{AllocError, Global};

/// Why bytes of a file were not read: the folder failed, or there is no memory.
#[derive(Clone, Copy, Debug, PartialEq, Eq)]
pub enum ReadFault {
    Folder,
    Memory,
}

impl From<AllocError> for ReadFault {
    ghost use Rattle.std.specs.Prelude.{◌≡◌};
    ghost use Rattle.xa_outside.specs.declared.front.ReadFault.TheVariants.{Memory};

    ghost from_gives = { λ _ e. e ≡ Memory };

    fn from(_e: AllocError) -> ReadFault {
        ReadFault::Memory
    }
}

/// The first bytes of a file: so many, or all where it has fewer.
///
/// It makes room for `length` bytes before it reads, so give it a length that the folder answered.
#[tactic(auto, using(crate::proofs::Fronts::fronts))]
pub fn read_front<F: Folder>(
    alloc: Global,
    folder: &mut F,
    name: &str,
    length: u64,
) -> Result<Vec<u8>, ReadFault>
    ensures files { F.files folder.new ≡ F.files folder.old }
    ensures draft { F.draft folder.new ≡ F.draft folder.old }
    ensures numbers { IfOk result (λ v.
        F.numbers folder.new ≡ after_pull (F.numbers folder.old) (vec_len v)) }
    ensures pulls { PullsAtMost length (F.numbers folder.old) (F.numbers folder.new) }
    ensures later { F.faults folder.old ≤ F.faults folder.new }
    ensures cause { IfErr result (λ e.
        IfFolder e (Rose (F.faults folder.old) (F.faults folder.new))) }

    // Room is made before the folder is asked, so want of memory comes with the folder untouched.
    ensures memory { IfErr result (λ e. IfMemory e (folder.new ≡ folder.old)) }
    ensures short { IfOk result (λ v. vec_len v ≤ length) }

    // Where files are told, these are the bytes, and there are so many where the file has so many.
    ensures bytes { (files : Files) → F.files folder.old ≡ Some files
        → IfOk result (λ v. v.items ≡ take length (bytes_or_none (map.get files name.now))) }
    ensures front { (files : Files) → F.files folder.old ≡ Some files
        → IfOk result (λ v. front length v.items ≡ front_of files name.now length) }
{
    let mut bytes = vec![in alloc; 0u8; length as usize]?;
    match fill_at(folder, name, 0, &mut bytes) {
        Ok(count) => {
            bytes.truncate(count);
            Ok(bytes)
        }
        Err(_) => Err(ReadFault::Folder),
    }
}
