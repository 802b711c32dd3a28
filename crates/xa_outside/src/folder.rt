ghost use Rattle.std.specs.Prelude.{◌≡◌, ◌+◌, ◌^◌, ◌<◌, ◌≤◌, List, [], ◌++◌, ℕ, Option, length, take, IfOk, OnOk, OnErr};
ghost use Rattle.std.specs.Io.{ReadsAtMost};
ghost use Rattle.xa_outside.specs.Causes.{HasCause};
ghost use Rattle.xa_outside.specs.Folder.{Files, TellsLength, Gives, FillsFrom, Drafts, DraftsPrefix, emptied, committed};
ghost use Rattle.xa_outside.specs.Numbers.{Numbers, IsMeter, Pulls, after_pull, after_begin};

use crate::Failed;

/// Files by name, and one draft that becomes a file.
pub trait Folder {
    /// The files, where the folder tells them.
    ghost files: { Self → Option Files };

    /// The draft, where the folder tells it.
    ghost draft: { Self → Option (List ℕ) };

    /// What has been pulled and drafted.
    ghost numbers: { Self → Numbers };

    /// How often it has failed.
    ghost faults: { Self → ℕ };

    /// The length of a file, or None where there is no such file.
    fn length(&mut self, name: &str) -> Result<Option<u64>, Failed>
        ensures told { IfOk result (λ r. TellsLength (files self.old) name.now r) }
        ensures files { files self.new ≡ files self.old }
        ensures draft { draft self.new ≡ draft self.old }
        ensures numbers { numbers self.new ≡ numbers self.old }
        ensures cause { HasCause (faults self.old) (faults self.new) result };

    /// Puts bytes of a file at the front of the buffer, and answers how many.
    fn read_at(&mut self, name: &str, at: u64, buf: &mut [u8]) -> Result<usize, Failed>
        ensures bound { ReadsAtMost result buf.new }
        ensures bytes { IfOk result (λ n.
            Gives (files self.old) name.now at (take n buf.new) (length buf.new)) }
        ensures files { files self.new ≡ files self.old }
        ensures draft { draft self.new ≡ draft self.old }
        ensures numbers { IfOk result (λ n. numbers self.new ≡ after_pull (numbers self.old) n) }
        ensures numbers_err { OnErr result (numbers self.new ≡ numbers self.old) }
        ensures cause { HasCause (faults self.old) (faults self.new) result };

    /// Empties the draft.
    fn begin(&mut self) -> Result<(), Failed>
        ensures files { files self.new ≡ files self.old }
        ensures draft { OnOk result (draft self.new ≡ emptied (draft self.old)) }
        ensures draft_err { OnErr result (draft self.new ≡ draft self.old) }
        ensures numbers { OnOk result (numbers self.new ≡ after_begin (numbers self.old)) }
        ensures numbers_err { OnErr result (numbers self.new ≡ numbers self.old) }
        ensures cause { HasCause (faults self.old) (faults self.new) result };

    /// Adds a piece to the draft, and on a failure a prefix of it.
    fn append(&mut self, piece: &[u8]) -> Result<(), Failed>
        ensures files { files self.new ≡ files self.old }
        ensures ok { OnOk result (Drafts (draft self.old) (draft self.new)
            (numbers self.old) (numbers self.new) piece.now) }
        ensures err { OnErr result (DraftsPrefix (draft self.old) (draft self.new)
            (numbers self.old) (numbers self.new) piece.now) }
        ensures cause { HasCause (faults self.old) (faults self.new) result };

    /// Makes the draft a file of this name, and empties the draft.
    fn commit(&mut self, name: &str) -> Result<(), Failed>
        ensures files { OnOk result (files self.new
            ≡ committed (files self.old) (draft self.old) name.now) }
        ensures draft { OnOk result (draft self.new ≡ emptied (draft self.old)) }
        ensures err { OnErr result ((files self.new ≡ files self.old)
            × (draft self.new ≡ draft self.old)) }
        ensures numbers { numbers self.new ≡ numbers self.old }
        ensures cause { HasCause (faults self.old) (faults self.new) result };

    /// The numbers are those of a meter.
    ghost metered: { (folder : Self) → IsMeter (numbers folder) };
}

/// Reads a file from an offset until the buffer is full or the file ends.
#[inline]
pub fn fill_at<F: Folder>(
    folder: &mut F,
    name: &str,
    at: u64,
    buf: &mut [u8],
) -> Result<usize, Failed>
    requires { at + length buf.old < 2 ^ 64 }
    ensures bound { ReadsAtMost result buf.new }
    ensures bytes { IfOk result (λ n.
        FillsFrom (F.files folder.old) name.now at (take n buf.new) (length buf.new)) }
    ensures files { F.files folder.new ≡ F.files folder.old }
    ensures draft { F.draft folder.new ≡ F.draft folder.old }
    ensures numbers { Pulls (F.numbers folder.old) (F.numbers folder.new) result (length buf.old) }
    ensures cause { HasCause (F.faults folder.old) (F.faults folder.new) result }
{
    if buf.is_empty() {
        return Ok(0);
    }
    let count = folder.read_at(name, at, buf)?;
    if count == 0 || count == buf.len() {
        return Ok(count);
    }
    let more = fill_rest(folder, name, at + count as u64, &mut buf[count..])?;
    Ok(count + more)
}

/// Reads on from an offset until the buffer is full or the file ends.
#[cold]
#[inline(never)]
fn fill_rest<F: Folder>(
    folder: &mut F,
    name: &str,
    at: u64,
    buf: &mut [u8],
) -> Result<usize, Failed>
    requires { at + length buf.old < 2 ^ 64 }
    ensures bound { ReadsAtMost result buf.new }
    ensures bytes { IfOk result (λ n.
        FillsFrom (F.files folder.old) name.now at (take n buf.new) (length buf.new)) }
    ensures files { F.files folder.new ≡ F.files folder.old }
    ensures draft { F.draft folder.new ≡ F.draft folder.old }
    ensures numbers { Pulls (F.numbers folder.old) (F.numbers folder.new) result (length buf.old) }
    ensures cause { HasCause (F.faults folder.old) (F.faults folder.new) result }
{
    let mut done = 0;
    while done < buf.len() {
        let count = folder.read_at(name, at + done as u64, &mut buf[done..])?;
        if count == 0 {
            break;
        }
        done += count;
    }
    Ok(done)
}
