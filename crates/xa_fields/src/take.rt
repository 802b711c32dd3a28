// Reading numbers and texts.
ghost use Rattle.std.specs.Prelude.{◌≡◌, ℕ, ◌+◌, ◌<◌, ◌≤◌, ◌^◌, ◌++◌, ◌∷◌, ◌↔◌, List, length, drop, option_map, Some, None, IsNone, IfSome, IsSomeAnd, if◌then◌else◌};
ghost use Rattle.std.specs.Str.{is_utf8};
ghost use Rattle.std.specs.Int.{w32, w64};
ghost use Rattle.xa_fields.specs.Spelling.{u32_bytes, u64_bytes, text_bytes, IsText};
ghost use Rattle.xa_fields.specs.Reading.{byte_at, number_at, text_at};

/// The byte at the offset, and the offset behind it.
pub fn take_u8(bytes: &[u8], at: usize) -> Option<(u8, usize)>
    ensures found { option_map (λ r. (r.0, drop r.1 bytes.now)) result
        ≡ byte_at (drop at bytes.now) }
    ensures none { IsNone result ↔ (length bytes.now < at + 1) }
    ensures next { IfSome result (λ r. (r.1 ≡ at + 1) × (r.1 ≤ length bytes.now)) }
{
    let byte = *bytes.get(at)?;
    Some((byte, at + 1))
}

/// The number at the offset, and the offset behind it.
pub fn take_u32(bytes: &[u8], at: usize) -> Option<(u32, usize)>
    ensures found { option_map (λ r. (r.0, drop r.1 bytes.now)) result
        ≡ number_at w32 (drop at bytes.now) }
    ensures none { IsNone result ↔ (length bytes.now < at + 4) }
    ensures next { IfSome result (λ r. (r.1 ≡ at + 4) × (r.1 ≤ length bytes.now)) }

    // What `append_u32` wrote there is taken again, whatever follows.
    ensures again { (n : ℕ) (rest : List ℕ) → n < 2 ^ 32
        → drop at bytes.now ≡ u32_bytes n ++ rest → result ≡ Some (n, at + 4) }
{
    let front = bytes.get(at..)?.first_chunk::<4>()?;
    Some((u32::from_be_bytes(*front), at + 4))
}

/// The number at the offset, and the offset behind it.
pub fn take_u64(bytes: &[u8], at: usize) -> Option<(u64, usize)>
    ensures found { option_map (λ r. (r.0, drop r.1 bytes.now)) result
        ≡ number_at w64 (drop at bytes.now) }
    ensures none { IsNone result ↔ (length bytes.now < at + 8) }
    ensures next { IfSome result (λ r. (r.1 ≡ at + 8) × (r.1 ≤ length bytes.now)) }

    // What `append_u64` wrote there is taken again, whatever follows.
    ensures again { (n : ℕ) (rest : List ℕ) → n < 2 ^ 64
        → drop at bytes.now ≡ u64_bytes n ++ rest → result ≡ Some (n, at + 8) }
{
    let front = bytes.get(at..)?.first_chunk::<8>()?;
    Some((u64::from_be_bytes(*front), at + 8))
}

/// The text at the offset, and the offset behind it. None where bytes are missing or are no UTF-8.
#[tactic(auto, unfolding(crate::specs::Reading::text_at))]
pub fn take_text(bytes: &[u8], at: usize) -> Option<(&str, usize)>
    ensures found { option_map (λ r. (r.0.now, drop r.1 bytes.now)) result
        ≡ text_at (drop at bytes.now) }
    ensures none { IsNone result → text_at (drop at bytes.now) ≡ None }
    ensures next { IfSome result (λ r.
        (r.1 ≡ at + 4 + length r.0.now) × (r.1 ≤ length bytes.now)) }

    // What `append_text` wrote there is taken again, whatever follows.
    ensures again { (text rest : List ℕ) → IsText text
        → drop at bytes.now ≡ text_bytes text ++ rest
        → IsSomeAnd result (λ r. (r.0.now ≡ text) × (r.1 ≡ at + 4 + length text)) }
{
    let (len, start) = take_u32(bytes, at)?;
    let len = len as usize;
    let rest = &bytes[start..];
    if rest.len() < len {
        return None;
    }
    let text = as_text(&rest[..len])?;
    Some((text, start + len))
}

#[tactic(auto, using(crate::proofs::Utf8::utf8))]
fn as_text(bytes: &[u8]) -> Option<&str>
    ensures { option_map (λ s. s.now) result
        ≡ (if is_utf8 bytes.now then Some bytes.now else None) }
{
    std::str::from_utf8(bytes).ok()
}
