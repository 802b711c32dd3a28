// Tables out of bytes.
ghost use Rattle.std.specs.Prelude.{◌≡◌, ℕ, ◌≤◌, List, [], ◌∷◌, Option, None, Some, Ok, IfOk, IfErr, length};
ghost use Rattle.csv.specs.Reading.{strip_bom};
ghost use Rattle.csv.specs.Records.{fields_of};
ghost use Rattle.csv_tables.specs.Records.{heading_why, table_of, IsRegular};
ghost use Rattle.csv_tables.specs.Steps.{Stands, Steps, Owns, ReadsHeading, ReadsRows};
ghost use Rattle.csv_tables.specs.View.{table_view, IsBad};

use crate::columns::columns_of;
use crate::fault::TableFault;
use crate::table::Table;
use csv::{ByteRecord, ErrorKind, Reader, ReaderBuilder};
use std::alloc::Global;
use std::io::Read;

/// The table that a text of comma-separated fields gives: its first record is the heading, and the others are the rows.
///
/// The records are those that `csv` reads with its usual settings, behind a byte order mark, if the text begins with one.
/// The text is gone over once, and ends with the first bad record. Each field is copied into a text of its own.
pub fn read_table(alloc: Global, bytes: &[u8]) -> Result<Table, TableFault>
    requires { length bytes.now ≤ 67108864 }
    ensures table { IfOk result (λ t. table_of bytes.now ≡ Ok (table_view t)) }
    ensures bad { IfErr result (λ e. IsBad e (table_of bytes.now)) }

    // What every such table is.
    ensures regular { IfOk result (λ t. IsRegular (table_view t)) }
    ensures few { IfOk result (λ t. length (table_view t).rows ≤ 67108864) }
{
    let mut reader = records_in(alloc, bytes);
    let heading = read_heading(alloc, &mut reader)?;
    let rows = read_rows(alloc, &mut reader)?;
    Ok(Table { heading, rows })
}

/// A reader of the records of these bytes, none of which it takes as headers.
fn records_in<'a>(alloc: Global, bytes: &'a [u8]) -> Reader<&'a [u8]>
    ensures { Stands (λ s. Some s.now) result (strip_bom bytes.now) [] None }
{
    ReaderBuilder::new()
        .has_headers(false)
        .from_reader(alloc, bytes)
}

/// Reads the heading, which is the first record.
fn read_heading<R: Read>(alloc: Global, reader: &mut Reader<R>) -> Result<Vec<String>, TableFault>
    ensures { (text : List ℕ) → Stands R.remaining reader.old text [] None
        → ReadsHeading R.remaining reader.new text result }
{
    let mut record = ByteRecord::new(alloc);
    if !next(reader, &mut record, 1)? {
        return Err(TableFault::Bad { row: 0, why: 1 });
    }
    let heading = own_fields(alloc, &record, 1)?;
    if columns_of(alloc, &heading)?.is_none() {
        return Err(TableFault::Bad { row: 1, why: 4 });
    }
    Ok(heading)
}

/// Reads the rows behind a heading.
fn read_rows<R: Read>(alloc: Global, reader: &mut Reader<R>) -> Result<Vec<Vec<String>>, TableFault>
    ensures { (text : List ℕ) (heading : List (List ℕ)) → heading_why heading ≡ None
        → Stands R.remaining reader.old text (heading ∷ []) (Some (length heading))
        → ReadsRows text heading result }
{
    let mut record = ByteRecord::new(alloc);
    let mut rows = Vec::new(alloc);
    for number in 2..u64::MAX {
        if !next(reader, &mut record, number)? {
            return Ok(rows);
        }
        rows.push(own_fields(alloc, &record, number)?)?;
    }
    Err(TableFault::Memory)
}

/// Reads the record of this number, and says whether there is one.
///
/// The bytes lie in memory, so that a failure to read them is taken for want of memory.
fn next<R: Read>(
    reader: &mut Reader<R>,
    row: &mut ByteRecord,
    number: u64,
) -> Result<bool, TableFault>
    ensures { (text : List ℕ) (done : List (List (List ℕ))) (columns : Option ℕ)
        → Stands R.remaining reader.old text done columns
        → Steps R.remaining reader.new text done columns (fields_of row.new) number result }
{
    match reader.read_byte_record(row) {
        Ok(found) => Ok(found),
        Err(error) => match error.kind() {
            ErrorKind::UnequalLengths { .. } => Err(TableFault::Bad {
                row: number,
                why: 2,
            }),
            _ => Err(TableFault::Memory),
        },
    }
}

/// The fields of the record of this number, as texts.
fn own_fields(alloc: Global, row: &ByteRecord, number: u64) -> Result<Vec<String>, TableFault>
    ensures { Owns (fields_of row.now) number result }
{
    let mut texts = Vec::with_capacity(alloc, row.len())?;
    for field in row {
        match str::from_utf8(field) {
            Ok(text) => texts.push(String::from_str(alloc, text)?)?,
            Err(_) => {
                return Err(TableFault::Bad {
                    row: number,
                    why: 3,
                });
            }
        }
    }
    Ok(texts)
}
