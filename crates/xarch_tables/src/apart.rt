// Whether the key columns of a table tell its rows apart.
ghost use Rattle.std.specs.Prelude.{◌≡◌, IsTrue, IfOk, map, string_bytes};
ghost use Rattle.key_spec.specs.View.{names_view};
ghost use Rattle.csv_tables.specs.Keys.{cell, AreApart};
ghost use Rattle.csv_tables.specs.View.{table_view};
ghost use Rattle.xarch_tables.specs.Rows.{key_of};

use csv_tables::Table;
use std::alloc::{AllocError, Global};
use std::collections::BTreeSet;

/// Whether no two rows agree in all key columns. Where it denies it, nothing is said.
///
/// The fields of each row in these columns are looked for among those of the rows before. None is copied.
pub(crate) fn are_apart(alloc: Global, table: &Table, names: &[String]) -> Result<bool, AllocError>
    ensures { IfOk result (λ apart. IsTrue apart
        → AreApart (table_view table.now) (names_view names.now)) }
{
    let mut seen = BTreeSet::new(alloc);
    for row in &table.rows {
        if !seen.insert(key_of(alloc, &table.heading, names, row)?)? {
            return Ok(false);
        }
    }
    Ok(true)
}

/// The row's fields in the key columns.
fn key_of<'a>(
    alloc: Global,
    heading: &[String],
    names: &[String],
    row: &'a [String],
) -> Result<Vec<&'a str>, AllocError>
    ensures { IfOk result (λ key. map (λ field. field.now) key.items
        ≡ key_of (names_view heading.now) (names_view names.now) (names_view row.now)) }
{
    let mut key = Vec::with_capacity(alloc, names.len())?;
    for name in names {
        key.push_reserved(cell(heading, row, name));
    }
    Ok(key)
}

/// The row's field in the column of this name.
fn cell<'a>(heading: &[String], row: &'a [String], name: &String) -> &'a str
    ensures { result.now
        ≡ cell (names_view heading.now) (names_view row.now) (string_bytes name.now) }
{
    let mut fields = row.iter();
    for column in heading {
        let Some(field) = fields.next() else {
            return "";
        };
        if column == name {
            return field.as_str();
        }
    }
    ""
}
