// The header of an archive file.
ghost use Rattle.std.specs.Prelude.{◌≡◌, ◌≤◌, ◌++◌, length, drop, Ok, option_map, nat_le, bytes_eq, IfOk, IfSome, OnOk};
ghost use Rattle.std.specs.Int.{w32};
ghost use Rattle.key_spec.specs.Canonical.{canonical, spelled_by};
ghost use Rattle.key_spec.specs.Closed.{closed};
ghost use Rattle.key_spec.specs.View.{spec_view};
ghost use Rattle.xa_fields.specs.Reading.{number_at, both_at, only_at};
ghost use Rattle.xa_fields.specs.Laws.{Grows};
ghost use Rattle.record_parts.specs.Bounds.{most};
ghost use Rattle.record_parts.specs.declared.limits.TheConstants.{MOST_VERSIONS};
ghost use Rattle.record_format.specs.Files.{magic, header_bytes};
ghost use Rattle.record_format.specs.Fronts.{bytes_at, front_at, fixed, header_at};
ghost use Rattle.record_parts.specs.Reading.{Gives};

use key_spec::Spec;
use record_parts::{MOST_VERSIONS, RecFault};
use std::alloc::{AllocError, Global};
use xa_fields::{append_text, append_u32, take_u32};

/// The first bytes of each archive file.
const MAGIC: [u8; 6] = *b"XARC1\n";

// The length at the offset, and that many bytes, with the offset behind them.
#[tactic(auto, unfolding(crate::specs::Fronts::bytes_at))]
fn take_bytes(bytes: &[u8], at: usize) -> Option<(&[u8], usize)>
    ensures found { option_map (λ r. (r.0.now, drop r.1 bytes.now)) result
        ≡ bytes_at (drop at bytes.now) }
    ensures next { IfSome result (λ r. r.1 ≤ length bytes.now) }
{
    let (len, start) = take_u32(bytes, at)?;
    let len = len as usize;
    let rest = &bytes[start..];
    if rest.len() < len {
        return None;
    }
    Some((&rest[..len], start + len))
}

fn is_magic(bytes: &[u8]) -> bool
    ensures { result ≡ bytes_eq bytes.now magic }
{
    bytes == MAGIC.as_slice()
}

// The bytes of the specification and the number of versions, with the offset behind them.
#[tactic(auto, unfolding(crate::specs::Fronts::front_at))]
fn take_front(bytes: &[u8]) -> Option<(&[u8], u32, usize)>
    ensures found { option_map (λ r. ((r.0.now, r.1), drop r.2 bytes.now)) result
        ≡ front_at bytes.now }
    ensures next { IfSome result (λ r. r.2 ≤ length bytes.now) }
    ensures few { IfSome result (λ r. r.1 ≤ MOST_VERSIONS) }
{
    if bytes.len() < 6 || !is_magic(&bytes[..6]) {
        return None;
    }
    take_fields(bytes)
}

#[tactic(auto, unfolding(xa_fields::specs::Reading::both_at, xa_fields::specs::Reading::only_at))]
fn take_fields(bytes: &[u8]) -> Option<(&[u8], u32, usize)>
    ensures found { option_map (λ r. ((r.0.now, r.1), drop r.2 bytes.now)) result
        ≡ both_at bytes_at (only_at (λ n. nat_le n most) (number_at w32)) (drop 6 bytes.now) }
    ensures next { IfSome result (λ r. r.2 ≤ length bytes.now) }
    ensures few { IfSome result (λ r. r.1 ≤ MOST_VERSIONS) }
{
    let (text, at) = take_bytes(bytes, 6)?;
    let (n, at) = take_u32(bytes, at)?;
    if n > MOST_VERSIONS {
        return None;
    }
    Some((text, n, at))
}

// The specification of which the bytes are the canonical text.
fn read_spec(alloc: Global, text: &[u8]) -> Result<Spec, RecFault>
    ensures { Gives spec_view result (spelled_by text.now (closed text.now)) }
{
    match Spec::read_canonical(alloc, text)? {
        Some(spec) => Ok(spec),
        None => Err(RecFault::Damage),
    }
}

/// The specification, the number of versions, and the offset behind the header.
#[tactic(auto, unfolding(crate::specs::Fronts::header_at))]
pub fn take_header(alloc: Global, bytes: &[u8]) -> Result<(Spec, u32, usize), RecFault>
    ensures found { Gives (λ r. ((spec_view r.0, r.1), drop r.2 bytes.now)) result
        (header_at bytes.now) }
    ensures next { IfOk result (λ r. r.2 ≤ length bytes.now) }
    ensures few { IfOk result (λ r. r.1 ≤ MOST_VERSIONS) }
{
    let Some((text, n, at)) = take_front(bytes) else {
        return Err(RecFault::Damage);
    };
    let spec = read_spec(alloc, text)?;
    Ok((spec, n, at))
}

/// The number of versions in the fixed fields of a header. It takes no memory and does not read the
/// specification.
pub fn fixed_of(bytes: &[u8]) -> Option<u32>
    ensures { result ≡ fixed bytes.now }
{
    let (_, n, _) = take_front(bytes)?;
    Some(n)
}

/// Appends the header of a file of so many versions. On a refusal what was there stays.
#[tactic(auto, using(xa_fields::proofs::Combinators::growth))]
pub fn put_header(alloc: Global, out: &mut Vec<u8>, spec: &Spec, n: u32) -> Result<(), AllocError>
    ensures ok { OnOk result (out.new.items
        ≡ out.old.items ++ header_bytes (spec_view spec.now) n) }
    ensures grows { Grows out.old.items out.new.items }

    // What is written of the specification specifies it again.
    ensures spec { OnOk result (closed (canonical (spec_view spec.now)) ≡ Ok (spec_view spec.now)) }
    ensures short { OnOk result (length (canonical (spec_view spec.now)) ≤ 1048576) }
{
    let text = spec.text(alloc)?;
    out.extend_from_slice(&MAGIC)?;
    append_text(out, text.as_str())?;
    append_u32(out, n)
}
