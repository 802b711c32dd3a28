//! Tables that are made of texts.
ghost use Rattle.std.specs.Prelude.{◌≤◌, length, IfOk};
ghost use Rattle.csv_tables.specs.Records.{IsRegular};
ghost use Rattle.csv_tables.specs.View.{table_view};

use csv_tables::{Table, TableFault, read_table};
use std::alloc::Global;

/// The table of a text.
pub(crate) fn read(alloc: Global, text: &[u8]) -> Result<Table, TableFault>
    ensures regular { IfOk result (λ t. IsRegular (table_view t)) }
    ensures few { IfOk result (λ t. length (table_view t).rows ≤ 67108864) }
{
    if text.len() > 67_108_864 {
        return Err(TableFault::Memory);
    }
    read_table(alloc, text)
}
