#![tactic(auto, using(xarch_parts::specs::EndLaws::endings), unfolding(xarch_parts::specs::Ends::IsInside, xarch_parts::specs::Ends::IsDefined))]

ghost use Rattle.std.specs.Prelude.{◌≡◌, ◌≤◌, ℕ, Some, Ok, IfOk, length};
ghost use Rattle.xa_outside.specs.Folder.{Files};
ghost use Rattle.xa_outside.specs.Taken.{Taken};
ghost use Rattle.jsonml_print.specs.Printed.{document_text};
ghost use Rattle.csv_tables.specs.Records.{IsRegular};
ghost use Rattle.csv_tables.specs.View.{table_view};
ghost use Rattle.xarch_words.specs.Commands.{key_names, table, AreForTable};
ghost use Rattle.xarch_words.specs.declared.limits.TheConstants.{DOCUMENT};
ghost use Rattle.xarch_parts.specs.Ends.{IsInside, Matches, fault_of};
ghost use Rattle.xarch_parts.specs.Folders.{ReadsOnly};
ghost use Rattle.xarch_parts.specs.Inputs.{file_length, read_in};
ghost use Rattle.xarch_parts.specs.Outcome.{and_then};
ghost use Rattle.xarch_meanings.specs.Performs.{Performs};
ghost use Rattle.xarch_meanings.specs.Table.{document_for, rows_of, table_input};

use crate::document::printed;
use crate::keys::key_names;
use csv_tables::{Table, TableFault, read_table};
use std::alloc::Global;
use xa_outside::Folder;
use xarch_parts::{begin, check_free, limited_length, read_whole, store};
use xarch_words::{Fault, Quantity, limits};

/// Makes the document of a table.
///
/// The bytes of the file are let go as soon as the table is read, and its rows, some at a time, as they
/// are printed.
pub fn run_table<F: Folder>(
    alloc: Global,
    csv: &str,
    tag: &str,
    keys: &str,
    doc: &str,
    folder: &mut F,
) -> Result<(), Fault>
    requires { AreForTable tag.now keys.now }
    ensures { (t : Taken) (n : ℕ) → Performs F.files F.draft F.numbers F.faults
        (table csv.now tag.now keys.now doc.now) folder.old folder.new t t n n
        (fault_of result) }
{
    begin(folder)?;
    let table = input_table(alloc, csv, doc, folder)?;
    let text = keyed_text(alloc, tag, keys, table)?;
    store(folder, doc, &text)
}

/// The table, whose document has no file yet.
fn input_table<F: Folder>(
    alloc: Global,
    csv: &str,
    doc: &str,
    folder: &mut F,
) -> Result<Table, Fault>
    ensures reads { ReadsOnly F.files F.draft F.numbers F.faults DOCUMENT folder.old folder.new
        (fault_of result) }
    ensures told { (files : Files) → F.files folder.old ≡ Some files
        → Matches table_view (table_input files csv.now doc.now) result }
    ensures regular { IfOk result (λ t. IsRegular (table_view t)) }
    ensures few { IfOk result (λ t. length (table_view t).rows ≤ DOCUMENT) }
{
    let length = limited_length(alloc, folder, csv, Quantity::Document, limits::DOCUMENT)?;
    check_free(alloc, folder, doc)?;
    table_in(alloc, folder, csv, length)
}

/// The table in a file of this size.
fn table_in<F: Folder>(alloc: Global, folder: &mut F, name: &str, size: u64) -> Result<Table, Fault>
    requires { size ≤ DOCUMENT }
    ensures reads { ReadsOnly F.files F.draft F.numbers F.faults size folder.old folder.new
        (fault_of result) }
    ensures told { (files : Files) → F.files folder.old ≡ Some files
        → file_length files name.now ≡ Ok size
        → Matches table_view (read_in files name.now rows_of) result }
    ensures regular { IfOk result (λ t. IsRegular (table_view t)) }
    ensures few { IfOk result (λ t. length (table_view t).rows ≤ DOCUMENT) }
{
    let bytes = read_whole(alloc, folder, name, size)?;
    table_from(alloc, &bytes)
}

/// The table that some bytes spell.
#[tactic(auto, using(xarch_parts::specs::EndLaws::endings), unfolding(xarch_parts::specs::Ends::IsInside, xarch_parts::specs::Ends::IsDefined, xarch_meanings::specs::Table::rows_of))]
fn table_from(alloc: Global, bytes: &[u8]) -> Result<Table, Fault>
    requires { length bytes.now ≤ DOCUMENT }
    ensures cause { IsInside (fault_of result) }
    ensures told { Matches table_view (rows_of bytes.now) result }
    ensures regular { IfOk result (λ t. IsRegular (table_view t)) }
    ensures few { IfOk result (λ t. length (table_view t).rows ≤ DOCUMENT) }
{
    match read_table(alloc, bytes) {
        Ok(table) => Ok(table),
        Err(TableFault::Bad { row, why }) => Err(Fault::BadCsv { row, why }),
        Err(TableFault::Memory) => Err(Fault::Memory),
    }
}

/// The text of the document of a table, whose keys a word spells.
fn keyed_text(alloc: Global, tag: &str, keys: &str, table: Table) -> Result<Vec<u8>, Fault>
    requires words { AreForTable tag.now keys.now }
    requires regular { IsRegular (table_view table) }
    requires few { length (table_view table).rows ≤ DOCUMENT }
    ensures cause { IsInside (fault_of result) }
    ensures told { Matches (λ text. text.items)
        (and_then (document_for tag.now (key_names keys.now) (table_view table))
        (λ doc. Ok (document_text doc))) result }
{
    let names = key_names(alloc, keys)?;
    printed(alloc, tag, &names, table)
}
