// The columns of a heading, in the order of their names.
ghost use Rattle.std.specs.Prelude.{◌≡◌, [], true, false, map, IfOk, IfSome, IfNone};
ghost use Rattle.key_spec.specs.View.{names_view};
ghost use Rattle.csv_tables.specs.Columns.{column_view, columns_of};
ghost use Rattle.csv_tables.specs.Records.{repeats};

use crate::column::Column;
use std::alloc::{AllocError, Global};
use std::collections::BTreeSet;

/// The columns in the order of their names; none where two have one name.
pub(crate) fn columns_of(
    alloc: Global,
    heading: &[String],
) -> Result<Option<Vec<Column<'_>>>, AllocError>
    ensures columns { IfOk result (λ found. IfSome found
        (λ columns. map column_view columns.items ≡ columns_of (names_view heading.now))) }
    ensures different { IfOk result
        (λ found. IfSome found (λ _. repeats [] (names_view heading.now) ≡ false)) }
    ensures none { IfOk result
        (λ found. IfNone found (repeats [] (names_view heading.now) ≡ true)) }
{
    let mut columns = BTreeSet::new(alloc);
    for (at, name) in heading.iter().enumerate() {
        let column = Column {
            name: name.as_str(),
            at,
        };
        if columns.replace(column)?.is_some() {
            return Ok(None);
        }
    }
    Ok(Some(in_order(alloc, columns)?))
}

/// The columns of the set, from the first to the last.
fn in_order<'a>(alloc: Global, columns: BTreeSet<Column<'a>>) -> Result<Vec<Column<'a>>, AllocError>
    ensures { IfOk result (λ all. map column_view all.items ≡ map column_view columns.entry.keys) }
{
    let mut all = Vec::with_capacity(alloc, columns.len())?;
    for column in columns {
        all.push(column)?;
    }
    Ok(all)
}
