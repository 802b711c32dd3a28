// Parts of known files.
use crate::damaged_files::written_again;
use archive_file::{FileFault, decode_file, fixed_of, header_of};
use archive_tree::{ANode, Alt, Archive};
use given_parts::all_told;
use given_parts::bytes::{COMPANY, TINY};
use key_spec::Spec;
use record_format::take_frame;
use std::alloc::{AllocError, Global};
use std::test::Fail;

/// The kinds and the sizes of the company's records.
const SIZES: &[(u8, usize)] = &[
    (1, 21),
    (1, 44),
    (1, 57),
    // first name
    (2, 21),
    (3, 28),
    (5, 9),
    // last name
    (2, 21),
    (3, 27),
    (5, 9),
    // salary
    (2, 22),
    (3, 47),
    (3, 39),
    (5, 9),
    // telephone
    (2, 44),
    (3, 32),
    (5, 9),
    (4, 249),
    // name of the department
    (2, 23),
    (3, 31),
    (5, 9),
    (4, 121),
    (4, 57),
    (4, 57),
];

// The kinds and the sizes of the records behind the header, up to the tail.
fn sizes(alloc: Global, file: &[u8], header: usize) -> Result<Vec<(u8, usize)>, AllocError> {
    let mut sizes = Vec::new(alloc);
    let mut at = header;
    for _ in 0..file.len() {
        let Some((kind, body, next)) = take_frame(file, at) else {
            break;
        };
        sizes.push((kind, 9 + body.len()))?;
        at = next;
    }
    Ok(sizes)
}

fn are_sizes(alloc: Global, file: &[u8]) -> bool {
    match sizes(alloc, file, 204) {
        Ok(sizes) => sizes.as_slice() == SIZES,
        Err(_) => false,
    }
}

fn are_companys_sizes(alloc: Global) -> bool {
    match written_again(alloc, COMPANY) {
        Some(file) => are_sizes(alloc, &file),
        None => false,
    }
}

// The alternatives of the node at these places.
fn alternatives<'a>(kids: &'a [ANode], places: &[usize]) -> &'a [Alt] {
    let mut nodes = kids;
    for place in places {
        match nodes.get(*place) {
            Some(ANode::Inner { kids, .. }) => nodes = kids,
            Some(ANode::Leaf { alts, .. }) => return alts,
            None => return &[],
        }
    }
    &[]
}

/// Whether there are two alternatives with sets of these intervals.
fn are_two(alts: &[Alt], first: &[(u32, u32)], second: &[(u32, u32)]) -> bool {
    match alts {
        [one, other] => match (&one.stamp, &other.stamp) {
            (Some(one), Some(other)) => one.pairs() == first && other.pairs() == second,
            _ => false,
        },
        _ => false,
    }
}

fn is_salary_one(archive: &Archive) -> bool {
    let salary = alternatives(archive.kids(), &[0, 0, 0, 2]);
    archive.n() == 3 && are_two(salary, &[(1, 1), (3, 3)], &[(2, 2)])
}

fn is_companys_salary_one(alloc: Global) -> bool {
    match decode_file(alloc, COMPANY) {
        Ok((_, archive)) => is_salary_one(&archive),
        Err(_) => false,
    }
}

fn is_text(alloc: Global, spec: &Spec, text: &str) -> bool {
    match spec.text(alloc) {
        Ok(found) => found.as_str() == text,
        Err(_) => false,
    }
}

/// Whether the bytes begin with the header of this specification and so many versions.
fn is_header(alloc: Global, bytes: &[u8], text: &str, n: u32) -> bool {
    match header_of(alloc, bytes) {
        Ok((spec, versions)) => {
            is_text(alloc, &spec, text) && versions == n && fixed_of(bytes) == Some(n)
        }
        Err(_) => false,
    }
}

/// Whether a byte less than a header is none.
fn is_no_header(alloc: Global, front: &[u8]) -> bool {
    matches!(header_of(alloc, front), Err(FileFault::Damage)) && fixed_of(front).is_none()
}

#[test]
fn known_files_have_their_parts(rt: HostRuntime) -> Result<(), Fail> {
    let alloc = rt.alloc();
    all_told(&[
        ("the sizes of records", are_companys_sizes(alloc)),
        ("a salary that returns", is_companys_salary_one(alloc)),
        ("a header", is_header(alloc, TINY, "(/, (db, {}))\n", 1)),
        ("a byte less", is_no_header(alloc, &TINY[..27])),
    ])
}
