/// The number in front, which is numbers joined by `+` of which `#` is that of the round, and what stands behind it.
fn front_number(text: &[u8], round: u64) -> (u64, &[u8]) {
    let mut sum = 0u64;
    let mut part = 0u64;
    for (index, byte) in text.iter().enumerate() {
        match *byte {
            b'#' => part = round,
            b'+' => {
                sum = sum.saturating_add(part);
                part = 0;
            }
            b'0'..=b'9' => part = part
                .saturating_mul(10)
                .saturating_add(u64::from(*byte - b'0')),
            _ => return (sum.saturating_add(part), text.get(index..).unwrap_or(&[])),
        }
    }
    (sum.saturating_add(part), &[])
}

/// The first and the last of so many copies: `LAST`, or `FIRST..LAST`.
pub(crate) fn range_of(text: &[u8], round: u64) -> Option<(u64, u64)> {
    let (first, rest) = front_number(text, round);
    let (range, rest) = match rest {
        [b'.', b'.', rest @ ..] => {
            let (last, rest) = front_number(rest, round);
            ((first, last), rest)
        }
        _ => ((1, first), rest),
    };
    if text.is_empty() || !rest.is_empty() {
        return None;
    }
    Some(range)
}
