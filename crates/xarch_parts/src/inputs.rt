#![tactic(auto, using(crate::specs::EndLaws::endings), unfolding(crate::specs::Ends::IsInside, crate::specs::Ends::IsOfFolder, crate::specs::Ends::IsDefined))]

ghost use Rattle.std.specs.Prelude.{◌≡◌, ◌≤◌, Some, Ok, IfOk, IfErr, vec_len};
ghost use Rattle.xa_outside.specs.Folder.{Files};
ghost use Rattle.xarch_words.specs.Refusal as refusal;
ghost use Rattle.xarch_words.specs.View.{fault_view, quantity_view};
ghost use Rattle.xarch_parts.specs.Ends.{IsInside, Matches, fault_of};
ghost use Rattle.xarch_parts.specs.Folders.{ReadsOnly};
ghost use Rattle.xarch_parts.specs.Inputs;
ghost use Rattle.xarch_parts.specs.Inputs.{file_length, file_of, length_in, size_in};

use crate::names::no_file;
use std::alloc::Global;
use xa_outside::{Folder, ReadFault, read_front};
use xarch_words::{Fault, Quantity};

/// The length in bytes of a named file. It reads none of them.
pub fn length_of<F: Folder>(alloc: Global, folder: &mut F, name: &str) -> Result<u64, Fault>
    ensures reads { ReadsOnly F.files F.draft F.numbers F.faults 0 folder.old folder.new
        (fault_of result) }
    ensures told { (files : Files) → F.files folder.old ≡ Some files
        → Matches (λ n. n) (file_length files name.now) result }
    ensures size { IfOk result (λ n. n ≤ size_in (F.files folder.old) name.now) }
{
    match folder.length(name) {
        Ok(Some(length)) => Ok(length),
        Ok(None) => Err(no_file(alloc, name)),
        Err(_) => Err(Fault::FolderFault),
    }
}

/// The length in bytes of a named file, which is at most the limit. It reads none of them.
pub fn limited_length<F: Folder>(
    alloc: Global,
    folder: &mut F,
    name: &str,
    quantity: Quantity,
    most: u64,
) -> Result<u64, Fault>
    ensures reads { ReadsOnly F.files F.draft F.numbers F.faults 0 folder.old folder.new
        (fault_of result) }
    ensures bound { IfOk result (λ n. n ≤ most) }
    ensures told { (files : Files) → F.files folder.old ≡ Some files
        → Matches (λ n. n) (length_in files name.now (quantity_view quantity) most) result }
{
    let length = length_of(alloc, folder, name)?;
    at_most(length, quantity, most)
}

/// The number, where it is not above the limit. It takes no memory.
pub fn at_most(number: u64, quantity: Quantity, most: u64) -> Result<u64, Fault>
    ensures cause { IsInside (fault_of result) }
    ensures bound { IfOk result (λ n. n ≤ most) }
    ensures told { Matches (λ n. n) (Inputs.at_most (quantity_view quantity) most number) result }
    ensures refused { IfErr result
        (λ f. fault_view f ≡ refusal.refused (refusal.limit (quantity_view quantity) most)) }
{
    if number <= most {
        Ok(number)
    } else {
        Err(Fault::Limit {
            quantity,
            number: most,
        })
    }
}

/// The bytes of a file of this length, each read once, and all held in memory.
pub fn read_whole<F: Folder>(
    alloc: Global,
    folder: &mut F,
    name: &str,
    length: u64,
) -> Result<Vec<u8>, Fault>
    ensures reads { ReadsOnly F.files F.draft F.numbers F.faults length folder.old folder.new
        (fault_of result) }
    ensures short { IfOk result (λ v. vec_len v ≤ length) }
    ensures told { (files : Files) → F.files folder.old ≡ Some files
        → file_length files name.now ≡ Ok length
        → Matches (λ v. v.items) (file_of files name.now) result }
{
    match read_front(alloc, folder, name, length) {
        Ok(bytes) => Ok(bytes),
        Err(ReadFault::Folder) => Err(Fault::FolderFault),
        Err(ReadFault::Memory) => Err(Fault::Memory),
    }
}
