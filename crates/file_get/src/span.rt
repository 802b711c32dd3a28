// Parts of rows, and places in them.
ghost use Rattle.std.specs.Prelude.{◌≡◌, ◌+◌, ◌*◌, ◌≤◌};
ghost use Rattle.file_rows.specs.View.{row_view};
ghost use Rattle.file_get.specs.Stands.{whole_of};

use file_rows::{Row, tree_of};
use std::alloc::Global;

/// What is asked for: a version, by its number, of the archive in the file of this name.
#[derive(Clone, Copy)]
pub(crate) struct Ask<'a> {
    pub(crate) alloc: Global,
    pub(crate) name: &'a str,
    pub(crate) version: u32,
}

/// So many children of a row from a position on, and the offsets between which the stored tree over
/// their sets stands.
#[derive(Clone, Copy)]
pub(crate) struct Span {
    pub(crate) at: u64,
    pub(crate) limit: u64,
    pub(crate) position: u32,
    pub(crate) count: u32,
}

/// A place in a row that is printed: how many elements are open, the offset behind the child that
/// was printed last, and whether an element was printed.
#[derive(Clone, Copy)]
pub(crate) struct Place {
    pub(crate) depth: u32,
    pub(crate) after: u64,
    pub(crate) has_item: bool,
}

/// The whole of a row of so many children.
pub(crate) fn whole_of(row: Row, count: u32) -> Span
    requires { 4 + 24 * count ≤ row.dir }
    ensures is { result ≡ whole_of (row_view row) count }
    ensures at { result.at ≡ row.end + (13 + 24 * count) }
    ensures limit { result.limit ≡ row.end + (9 + row.dir) }
    ensures position { result.position ≡ 0 }
    ensures count { result.count ≡ count }
{
    let (at, limit) = tree_of(row, count);
    Span {
        at,
        limit,
        position: 0,
        count,
    }
}
