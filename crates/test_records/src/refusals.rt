// Calls that a writer refuses.
use crate::files::{SPECIFICATION, TINY, drafted, parsed, write_tiny};
use record_writer::WriteFault;
use std::alloc::Global;
use std::test::Fail;
use xa_outside::{Folder, FolderCall, FolderFail, MemFolder};

/// The number of an append, and how many bytes the records before it have.
const APPENDS: &[(u64, usize)] = &[(1, 0), (2, 28), (3, 49), (4, 68), (5, 77)];

// A folder that has begun a draft, and whose append of this number fails.
fn failing(alloc: Global, number: u64) -> Result<MemFolder, Fail> {
    let fail = FolderFail {
        call: FolderCall::Append,
        number,
    };
    let mut folder = MemFolder::new(alloc, vec![in alloc; fail]?);
    folder.begin()?;
    Ok(folder)
}

// Fails unless the append of this number is a fault, and the draft has the records before it.
fn stopped(alloc: Global, number: u64, held: usize) -> Result<(), Fail> {
    let spec = parsed(alloc, SPECIFICATION)?;
    let mut folder = failing(alloc, number)?;
    match write_tiny(alloc, &mut folder, &spec) {
        Err(WriteFault::Folder) => drafted(folder, TINY.get(..held).unwrap_or(&[])),
        _ => Err("no fault of the folder".into()),
    }
}

#[test]
fn a_failed_append_is_a_fault_of_the_folder(rt: HostRuntime) -> Result<(), Fail> {
    for (number, held) in APPENDS {
        stopped(rt.alloc(), *number, *held)?;
    }
    Ok(())
}
