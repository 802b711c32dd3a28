ghost use Rattle.std.specs.Prelude.{◌≡◌, min, length, take, drop};

/// Copies as much as there is, and as there is room for.
pub(crate) fn copy_front(from: &[u8], buf: &mut [u8]) -> usize
    ensures count { result ≡ min (length buf.old) (length from.now) }
    ensures front { take result buf.new ≡ take result from.now }
{
    let count = buf.len().min(from.len());
    buf[..count].copy_from_slice(&from[..count]);
    count
}

/// Copies what stands at the offset, as far as there is room.
pub(crate) fn copy_at(bytes: &[u8], at: u64, buf: &mut [u8]) -> usize
    ensures count { result ≡ min (length buf.old) (length (drop at bytes.now)) }
    ensures front { take result buf.new ≡ take result (drop at bytes.now) }
{
    if at >= bytes.len() as u64 {
        return 0;
    }
    copy_front(&bytes[at as usize..], buf)
}
