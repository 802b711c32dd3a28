//! Joining archive files.
ghost use Rattle.std.specs.Prelude.{◌≡◌, IfOk, true};
ghost use Rattle.key_spec.specs.View.{spec_view};

use archive_join::{JoinFault, join};
use given_archives::Stopped;
use key_spec::Spec;
use record_cursor::{Cursor, read_header};
use std::alloc::{AllocError, Global};
use xa_outside::{Folder, MemFolder};

/// Whether the specifications have the same canonical text, and so the same rules.
fn are_same(alloc: Global, one: &Spec, two: &Spec) -> Result<bool, AllocError>
    ensures { IfOk result (λ same. same ≡ true → spec_view one.now ≡ spec_view two.now) }
{
    let text = one.text(alloc)?;
    let other = two.text(alloc)?;
    Ok(text.as_bytes() == other.as_bytes())
}

/// What is answered where the archives of these names, whose files have so many bytes, are joined
/// and appended to the draft.
pub(crate) fn joined(
    alloc: Global,
    folder: &mut MemFolder,
    names: (&str, &str),
    lengths: (usize, usize),
) -> Result<Result<(), JoinFault>, Stopped> {
    let one = read_header(alloc, folder, names.0, lengths.0 as u64)?;
    let two = read_header(alloc, folder, names.1, lengths.1 as u64)?;
    if !are_same(alloc, &one.spec, &two.spec)? || one.versions + two.versions > 999_999 {
        return Err(Stopped);
    }
    let left = Cursor::start(alloc, names.0, &one)?;
    let right = Cursor::start(alloc, names.1, &two)?;
    folder.begin()?;
    Ok(join(alloc, folder, &one, left, &two, right))
}
