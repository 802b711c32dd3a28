// What stands at the front of an archive file.
ghost use Rattle.std.specs.Prelude.{◌≡◌, ◌≤◌, length, drop, Some, None, IfOk, IfErr};
ghost use Rattle.key_spec.specs.View.{spec_view};
ghost use Rattle.record_parts.specs.declared.limits.TheConstants.{MOST_VERSIONS};
ghost use Rattle.record_format.specs.Fronts.{header, header_at};
ghost use Rattle.archive_file.specs.Faults.{IfDamage};
ghost use Rattle.archive_file.specs.Laid.{IsFront};

use crate::fault::FileFault;
use key_spec::Spec;
use record_format::{RecFault, take_header};
use std::alloc::Global;

/// The specification, the number of versions, and the offset behind the header.
pub fn read_header(alloc: Global, bytes: &[u8]) -> Result<(Spec, u32, usize), FileFault>
    ensures found { IfOk result (λ r. header_at bytes.now
        ≡ Some ((spec_view r.0, r.1), drop r.2 bytes.now)) }
    ensures spelled { IfOk result (λ r. IsFront (spec_view r.0) r.1
        (drop r.2 bytes.now) bytes.now) }
    ensures next { IfOk result (λ r. r.2 ≤ length bytes.now) }
    ensures few { IfOk result (λ r. r.1 ≤ MOST_VERSIONS) }
    ensures damage { IfErr result (λ e. IfDamage e (header_at bytes.now ≡ None)) }
{
    match take_header(alloc, bytes) {
        Ok(read) => Ok(read),
        Err(RecFault::Damage) => Err(FileFault::Damage),
        Err(RecFault::Memory) => Err(FileFault::Memory),
    }
}

/// The specification and the number of versions of the header in front.
pub fn header_of(alloc: Global, bytes: &[u8]) -> Result<(Spec, u32), FileFault>
    ensures found { IfOk result (λ r. header bytes.now ≡ Some (spec_view r.0, r.1)) }
    ensures damage { IfErr result (λ e. IfDamage e (header bytes.now ≡ None)) }
{
    match read_header(alloc, bytes) {
        Ok((spec, n, _)) => Ok((spec, n)),
        Err(fault) => Err(fault),
    }
}
