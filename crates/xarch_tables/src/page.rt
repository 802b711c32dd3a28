//! The printed document of a table, in memory that is taken at once.

ghost use Rattle.std.specs.Prelude.{◌≡◌, ◌++◌, ◌∷◌, [], IfOk, OnOk};
ghost use Rattle.std.specs.List.{All, flat_map};
ghost use Rattle.json.specs.Print.{quoted};
ghost use Rattle.jsonml_print.specs.Printed.{document_text};
ghost use Rattle.jsonml_tree.specs.Fits.{IsElement};
ghost use Rattle.jsonml_tree.specs.View.{tree_view};
ghost use Rattle.csv_tables.specs.Documents.{table_tree};
ghost use Rattle.csv_tables.specs.Records.{IsRegular};
ghost use Rattle.csv_tables.specs.View.{table_view};
ghost use Rattle.xarch_tables.specs.Rows.{item_text, row_text};

use csv_tables::{Table, table_tree};
use jsonml_print::{write_scalar, write_tree};
use jsonml_tree::{Scalar, Tree};
use std::alloc::{AllocError, Global};
use xa_outside::{Failed, Sink, put_all};

/// How many rows are made elements at a time.
const PART: usize = 1024;

/// Takes bytes into memory, and fails where there is no more of it.
#[derive(Drop)]
struct Page {
    bytes: Vec<u8>,
    starved: u64,
}

impl Page {
    /// An empty page with room for so many bytes.
    fn of(alloc: Global, room: usize) -> Result<Page, AllocError>
        ensures { IfOk result (λ page. page.bytes.items ≡ []) }
    {
        Ok(Page {
            bytes: Vec::with_capacity(alloc, room)?,
            starved: 0,
        })
    }
}

impl Sink for Page {
    ghost use Rattle.std.specs.Prelude.{Some};
    ghost use Rattle.xa_outside.specs.Taken.{plainly};

    ghost taken = { λ page. plainly (Some page.bytes.items) };

    ghost faults = { λ page. page.starved };

    /// Takes the whole piece.
    fn write(&mut self, piece: &[u8]) -> Result<usize, Failed> {
        match self.bytes.extend_from_slice(piece) {
            Ok(()) => Ok(piece.len()),
            Err(_) => {
                self.starved = self.starved.saturating_add(1);
                Err(Failed)
            }
        }
    }
}

/// The printed document of a table, whose text is so long.
///
/// A part of the rows at a time is made elements, and let go when these are printed. So besides the table and the text there is
/// never more than such a part.
pub(crate) fn print(
    alloc: Global,
    tag: &str,
    table: Table,
    length: usize,
) -> Result<Vec<u8>, AllocError>
    requires { IsRegular (table_view table) }
    ensures { IfOk result
        (λ text. text.items ≡ document_text (table_tree (table_view table) tag.now)) }
{
    let mut page = Page::of(alloc, length)?;
    put_tag(alloc, tag, &mut page)?;
    put_rows(alloc, table, &mut page)?;
    put(b"]\n", &mut page)?;
    Ok(page.bytes)
}

/// Puts the bytes behind what is there.
fn put(piece: &[u8], page: &mut Page) -> Result<(), AllocError>
    ensures { OnOk result (page.new.bytes.items ≡ page.old.bytes.items ++ piece.now) }
{
    match put_all(page, piece) {
        Ok(()) => Ok(()),
        Err(_) => Err(AllocError),
    }
}

/// Puts the beginning of the outermost element.
fn put_tag(alloc: Global, tag: &str, page: &mut Page) -> Result<(), AllocError>
    ensures { OnOk result (page.new.bytes.items
        ≡ page.old.bytes.items ++ (91 ∷ quoted tag.now)) }
{
    let name = Scalar::Text(String::from_str(alloc, tag)?);
    put(b"[", page)?;
    match write_scalar(&name, page) {
        Ok(()) => Ok(()),
        Err(_) => Err(AllocError),
    }
}

/// Puts the rows of a table, each behind a comma.
fn put_rows(alloc: Global, table: Table, page: &mut Page) -> Result<(), AllocError>
    requires { IsRegular (table_view table) }
    ensures { OnOk result (page.new.bytes.items ≡ page.old.bytes.items
        ++ flat_map (row_text (table_view table).heading) (table_view table).rows) }
{
    let Table { heading, rows } = table;
    let mut part = Table {
        heading,
        rows: Vec::new(alloc),
    };
    for row in rows {
        make_room(alloc, &mut part, page)?;
        part.rows.push(row)?;
    }
    put_part(alloc, &part, page)
}

/// Puts the rows of a part that is full, and lets them go.
fn make_room(alloc: Global, part: &mut Table, page: &mut Page) -> Result<(), AllocError>
    requires { IsRegular (table_view part.old) }
    ensures heading { OnOk result
        ((table_view part.new).heading ≡ (table_view part.old).heading) }
    ensures regular { OnOk result (IsRegular (table_view part.new)) }
    ensures text { OnOk result (page.new.bytes.items
        ++ flat_map (row_text (table_view part.old).heading) (table_view part.new).rows
        ≡ page.old.bytes.items
        ++ flat_map (row_text (table_view part.old).heading) (table_view part.old).rows) }
{
    if part.rows.len() < PART {
        return Ok(());
    }
    put_part(alloc, part, page)?;
    part.rows.clear();
    Ok(())
}

/// Puts the rows of a part of a table.
fn put_part(alloc: Global, part: &Table, page: &mut Page) -> Result<(), AllocError>
    requires { IsRegular (table_view part.now) }
    ensures { OnOk result (page.new.bytes.items ≡ page.old.bytes.items
        ++ flat_map (row_text (table_view part.now).heading) (table_view part.now).rows) }
{
    match table_tree(alloc, part, "")? {
        Tree::Elem { content, .. } => put_items(&content.items, page),
        Tree::Text(_) => unreachable!(),
    }
}

/// Puts items that are elements.
fn put_items(items: &[Tree], page: &mut Page) -> Result<(), AllocError>
    requires { All (λ t. IsElement (tree_view t)) items.now }
    ensures { OnOk result (page.new.bytes.items ≡ page.old.bytes.items
        ++ flat_map (λ t. item_text (tree_view t)) items.now) }
{
    for item in items {
        put_item(item, page)?;
    }
    Ok(())
}

/// Puts an item that is an element.
fn put_item(item: &Tree, page: &mut Page) -> Result<(), AllocError>
    requires { IsElement (tree_view item.now) }
    ensures { OnOk result (page.new.bytes.items
        ≡ page.old.bytes.items ++ item_text (tree_view item.now)) }
{
    put(b",", page)?;
    match write_tree(item, page) {
        Ok(()) => Ok(()),
        Err(_) => Err(AllocError),
    }
}
