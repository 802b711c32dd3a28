//! What came, in a line that can be read.
use std::alloc::Global;

/// No more bytes than these are shown.
const MOST: usize = 160;

/// Some of the bytes from this place on.
pub(crate) fn part_of(bytes: &[u8], from: usize) -> &[u8] {
    let behind = bytes.get(from..).unwrap_or(&[]);
    behind.get(..MOST).unwrap_or(behind)
}

/// How many bytes the two begin with alike.
pub(crate) fn alike(one: &[u8], two: &[u8]) -> usize {
    for at in 0..one.len() {
        if one.get(at) != two.get(at) {
            return at;
        }
    }
    one.len()
}

/// What stands behind a front, where it is one.
pub(crate) fn behind<'a>(bytes: &'a [u8], front: &[u8]) -> Option<&'a [u8]> {
    match bytes.split_at_checked(front.len()) {
        Some((first, rest)) if first == front => Some(rest),
        _ => None,
    }
}

/// What was wanted and what came, from a little before the place where they part.
fn parting(alloc: Global, what: &str, wanted: &[u8], came: &[u8]) -> String {
    let from = alike(wanted, came).saturating_sub(40);
    let left = part_of(wanted, from).escape_ascii();
    let right = part_of(came, from).escape_ascii();
    let message = format!(in alloc;
        "{what}: from byte {from} on '{left}' was wanted, '{right}' came"
    );
    message.unwrap_or(String::new(alloc))
}

/// What to say of bytes that are not those that were wanted.
pub(crate) fn difference(alloc: Global, what: &str, wanted: &[u8], came: &[u8]) -> Option<String> {
    if wanted == came {
        None
    } else {
        Some(parting(alloc, what, wanted, came))
    }
}

/// What to say of a number that is not between these two.
pub(crate) fn beyond(
    alloc: Global,
    what: &str,
    least: u64,
    most: u64,
    came: u64,
) -> Option<String> {
    if least <= came && came <= most {
        return None;
    }
    let message = format!(in alloc; "{what}: {least} to {most} was wanted, {came} came");
    Some(message.unwrap_or(String::new(alloc)))
}
