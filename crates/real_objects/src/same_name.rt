ghost use Rattle.std.specs.Prelude.{◌≡◌, ◌+◌, ◌≤◌, ◌↔◌, IsTrue, drop, length, take};
ghost use Rattle.std.specs.Int.{from_le_bytes, to_le_bytes, w64};

/// Eight bytes as one number.
#[inline]
fn word_of(bytes: [u8; 8]) -> u64
    ensures value { result ≡ from_le_bytes w64 bytes }
    ensures back { to_le_bytes w64 result ≡ bytes }
{
    u64::from_le_bytes(bytes)
}

/// The eight bytes from an index on, as one number.
#[inline]
fn word_at(bytes: &[u8], at: usize) -> u64
    requires { at + 8 ≤ length bytes.now }
    ensures value { result ≡ from_le_bytes w64 (take 8 (drop at bytes.now)) }
    ensures back { to_le_bytes w64 result ≡ take 8 (drop at bytes.now) }
{
    match bytes[at..].first_chunk::<8>() {
        Some(word) => word_of(*word),
        None => 0,
    }
}

/// Whether both have the same eight bytes from an index on.
#[inline]
#[tactic(auto, using(crate::proofs::NameLemmas::same_words))]
fn has_word(a: &[u8], b: &[u8], at: usize) -> bool
    requires { (at + 8 ≤ length a.now) × (at + 8 ≤ length b.now) }
    ensures { IsTrue result ↔ (take 8 (drop at a.now) ≡ take 8 (drop at b.now)) }
{
    word_at(a, at) == word_at(b, at)
}

/// Whether both are the same bytes, of which the first has eight or more. Eight are compared at a time: a file's name is compared
/// at each read.
#[inline]
#[tactic(auto, using(crate::proofs::NameLemmas::next, crate::proofs::NameLemmas::all))]
pub fn is_same(a: &[u8], b: &[u8]) -> bool
    requires { 8 ≤ length a.now }
    ensures { IsTrue result ↔ (a.now ≡ b.now) }
{
    if a.len() != b.len() {
        return false;
    }
    let last = a.len() - 8;
    let mut at = 0;
    while at < last {
        if !has_word(a, b, at) {
            return false;
        }
        at += 8;
    }
    has_word(a, b, last)
}
