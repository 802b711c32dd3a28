// Documents of tables.
#![tactic(auto, using(jsonml_tree::proofs::Trees::trees))]

ghost use Rattle.std.specs.Prelude.{◌≡◌, ◌≤◌, IfOk, length, map, codes};
ghost use Rattle.jsonml_tree.specs.Data.{element, content, no_trees, tree_depth};
ghost use Rattle.jsonml_tree.specs.Fits.{IsElement, ItemsFit};
ghost use Rattle.jsonml_tree.specs.View.{tree_view, attr_view, items_view};
ghost use Rattle.jsonml_tree.specs.WellFormed.{IsWellFormed};
ghost use Rattle.jsonml_text.specs.Texts.{AreTexts};
ghost use Rattle.key_spec.specs.View.{names_view};
ghost use Rattle.csv_tables.specs.Columns.{column_view, cell_at};
ghost use Rattle.csv_tables.specs.Documents.{table_tree};
ghost use Rattle.csv_tables.specs.Records.{IsRegular};
ghost use Rattle.csv_tables.specs.View.{table_view};

use crate::column::Column;
use crate::columns::columns_of;
use crate::table::Table;
use jsonml_tree::{Attr, Content, Scalar, Tree};
use std::alloc::{AllocError, Global};

/// The document of a table: an element of this tag with an element `row` for each row, in order, which has the row's field
/// in each column as an attribute of that name.
///
/// The columns are put in order once. Each name is copied for each row.
pub fn table_tree(alloc: Global, table: &Table, tag: &str) -> Result<Tree, AllocError>
    requires { IsRegular (table_view table.now) }
    ensures tree { IfOk result (λ t. tree_view t ≡ table_tree (table_view table.now) tag.now) }

    // What every such document is.
    ensures element { IfOk result (λ t. IsElement (tree_view t)) }
    ensures well_formed { IfOk result (λ t. IsWellFormed (tree_view t)) }
    ensures shallow { IfOk result (λ t. tree_depth (tree_view t) ≤ 2) }
    ensures texts { IfOk result (λ t. AreTexts (tree_view t)) }
    ensures items_fit { length (table_view table.now).rows ≤ 4294967295
        → IfOk result (λ t. ItemsFit (tree_view t)) }
{
    let Some(columns) = columns_of(alloc, &table.heading)? else {
        unreachable!();
    };
    let mut items = Vec::with_capacity(alloc, table.rows.len())?;
    for row in &table.rows {
        items.push_reserved(row_of(alloc, &columns, row)?);
    }
    element(alloc, tag, Vec::new(alloc), items)
}

/// The element of a row.
fn row_of(alloc: Global, columns: &[Column<'_>], fields: &[String]) -> Result<Tree, AllocError>
    ensures { IfOk result (λ t. tree_view t ≡ element (codes "row")
        (content (map (cell_at (names_view fields.now)) (map column_view columns.now)) no_trees)) }
{
    let attrs = attributes(alloc, columns, fields)?;
    element(alloc, "row", attrs, Vec::new(alloc))
}

/// The element of this tag with these attributes and items.
fn element(alloc: Global, tag: &str, attrs: Vec<Attr>, items: Vec<Tree>) -> Result<Tree, AllocError>
    ensures { IfOk result (λ t. tree_view t
        ≡ element tag.now (content (map attr_view attrs.items) (items_view items.items))) }
{
    let content = Content { attrs, items };
    Ok(Tree::Elem {
        tag: String::from_str(alloc, tag)?,
        content,
    })
}

/// The row's field in each column.
fn attributes(
    alloc: Global,
    columns: &[Column<'_>],
    fields: &[String],
) -> Result<Vec<Attr>, AllocError>
    ensures { IfOk result (λ attrs. map attr_view attrs.items
        ≡ map (cell_at (names_view fields.now)) (map column_view columns.now)) }
{
    let mut attrs = Vec::with_capacity(alloc, columns.len())?;
    for column in columns {
        attrs.push_reserved(attribute(alloc, column, fields)?);
    }
    Ok(attrs)
}

/// The row's field in a column.
fn attribute(alloc: Global, column: &Column<'_>, fields: &[String]) -> Result<Attr, AllocError>
    ensures { IfOk result (λ a. attr_view a
        ≡ cell_at (names_view fields.now) (column_view column.now)) }
{
    let field = match fields.get(column.at) {
        Some(field) => field.as_str(),
        None => "",
    };
    Ok(Attr {
        name: String::from_str(alloc, column.name)?,
        value: Scalar::Text(String::from_str(alloc, field)?),
    })
}
