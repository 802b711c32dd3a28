ghost use Rattle.std.specs.Prelude.{◌≡◌, ◌==◌, ◌<◌, ◌≤◌, length, drop, IfSome, option_map};
ghost use Rattle.std.specs.List.{position};
ghost use Rattle.jsonml_lines.specs.Read.{cut};

/// What stands from an offset to the next line feed, and the offset behind that. None where no line feed follows.
pub(crate) fn split_line(bytes: &[u8], at: usize) -> Option<(&[u8], usize)>
    requires { at ≤ length bytes.now }
    ensures split { option_map (λ r. (r.0.now, drop r.1 bytes.now)) result
        ≡ option_map (cut (drop at bytes.now)) (position (λ b. b == 10) (drop at bytes.now)) }
    ensures further { IfSome result (λ r. at < r.1) }
    ensures within { IfSome result (λ r. r.1 ≤ length bytes.now) }
{
    let left = &bytes[at..];
    match feed_in(left) {
        Some(size) => Some((&left[..size], at + size + 1)),
        None => None,
    }
}

/// Where the first line feed stands.
fn feed_in(bytes: &[u8]) -> Option<usize>
    ensures place { result ≡ position (λ b. b == 10) bytes.now }
    ensures within { IfSome result (λ i. i < length bytes.now) }
{
    bytes.iter().position(|byte| *byte == b'\n')
}
