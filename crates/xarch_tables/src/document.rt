// The document of a table, judged and printed.
#![tactic(auto, using(xarch_parts::specs::EndLaws::endings), unfolding(xarch_parts::specs::Ends::IsInside, xarch_parts::specs::Ends::IsDefined))]

ghost use Rattle.std.specs.Prelude.{◌≡◌, ◌≤◌, true, IfOk, OnOk, Ok, length};
ghost use Rattle.std.specs.List.{list_all};
ghost use Rattle.jsonml_print.specs.Printed.{document_text};
ghost use Rattle.key_spec.specs.Names.{is_name};
ghost use Rattle.key_spec.specs.View.{names_view, spec_view};
ghost use Rattle.csv_tables.specs.Documents.{table_tree};
ghost use Rattle.csv_tables.specs.Keys.{table_rules, AreKeys};
ghost use Rattle.csv_tables.specs.Records.{has_field, IsRegular};
ghost use Rattle.csv_tables.specs.View.{table_view};
ghost use Rattle.xarch_parts.specs.Ends.{IsInside, Matches, fault_of};
ghost use Rattle.xarch_parts.specs.Outcome.{and_then};
ghost use Rattle.xarch_meanings.specs.Table.{document_for, having, short_document, short_rules};
ghost use Rattle.xarch_tables.specs.Rows.{keyed_doc};

use crate::apart::are_apart;
use crate::keys::short_text;
use crate::page::print;
use csv_tables::{
    Table, has_columns, table_spec, table_tree, tables_satisfy_their_keys, text_length,
};
use key_rules::first_fault;
use key_spec::Spec;
use std::alloc::Global;
use xarch_words::{Fault, Quantity, limits};

/// The printed document of a table, which satisfies its keys.
pub(crate) fn printed(
    alloc: Global,
    tag: &str,
    names: &[String],
    table: Table,
) -> Result<Vec<u8>, Fault>
    requires named { is_name tag.now ≡ true }
    requires keys { AreKeys (names_view names.now) }
    requires regular { IsRegular (table_view table) }
    requires few { length (table_view table).rows ≤ 4294967295 }
    ensures cause { IsInside (fault_of result) }
    ensures told { Matches (λ text. text.items)
        (and_then (document_for tag.now (names_view names.now) (table_view table))
        (λ doc. Ok (document_text doc))) result }
{
    check_columns(&table, names)?;
    let length = short_length(&table, tag)?;
    let spec = short_spec(alloc, tag, names)?;
    check_keys(alloc, &spec, tag, names, &table)?;
    Ok(print(alloc, tag, table, length)?)
}

/// Nothing, where each of the keys is a column of the table.
fn check_columns(table: &Table, names: &[String]) -> Result<(), Fault>
    ensures cause { IsInside (fault_of result) }
    ensures told { Matches (λ _. table_view table.now)
        (having (names_view names.now) (table_view table.now)) result }
    ensures there { OnOk result
        (list_all (has_field (table_view table.now).heading) (names_view names.now) ≡ true) }
{
    if has_columns(table, names) {
        Ok(())
    } else {
        Err(Fault::BadCsv { row: 1, why: 5 })
    }
}

/// The length of the printed document, which is not longer than a document may be.
fn short_length(table: &Table, tag: &str) -> Result<usize, Fault>
    requires { IsRegular (table_view table.now) }
    ensures cause { IsInside (fault_of result) }
    ensures told { Matches (λ _. table_tree (table_view table.now) tag.now)
        (short_document tag.now (table_view table.now)) result }
{
    let length = text_length(table, tag);
    if length <= limits::DOCUMENT as u128 {
        Ok(length as usize)
    } else {
        Err(Fault::Limit {
            quantity: Quantity::Document,
            number: limits::DOCUMENT,
        })
    }
}

/// The specification for the document, whose text is not longer than that of one may be.
fn short_spec(alloc: Global, tag: &str, names: &[String]) -> Result<Spec, Fault>
    requires named { is_name tag.now ≡ true }
    requires keys { AreKeys (names_view names.now) }
    ensures cause { IsInside (fault_of result) }
    ensures told { Matches spec_view (short_rules tag.now (names_view names.now)) result }
    ensures rules { IfOk result (λ s. spec_view s ≡ table_rules tag.now (names_view names.now)) }
{
    short_text(alloc, tag, names)?;
    Ok(table_spec(alloc, tag, names)?)
}

/// Nothing, where the document of a table satisfies the keys.
///
/// Only where its rows may not be told apart is the document made, for its first fault.
fn check_keys(
    alloc: Global,
    spec: &Spec,
    tag: &str,
    names: &[String],
    table: &Table,
) -> Result<(), Fault>
    requires regular { IsRegular (table_view table.now) }
    requires few { length (table_view table.now).rows ≤ 4294967295 }
    requires columns { list_all (has_field (table_view table.now).heading) (names_view names.now)
        ≡ true }
    requires rules { spec_view spec.now ≡ table_rules tag.now (names_view names.now) }
    ensures cause { IsInside (fault_of result) }
    ensures told { Matches (λ _. table_tree (table_view table.now) tag.now)
        (keyed_doc (spec_view spec.now) (table_tree (table_view table.now) tag.now)) result }
{
    // A law, for the proof of what may come where the rows are told apart.
    tables_satisfy_their_keys();
    if are_apart(alloc, table, names)? {
        return Ok(());
    }
    let doc = table_tree(alloc, table, tag)?;
    match first_fault(alloc, spec, &doc)? {
        None => Ok(()),
        Some(fault) => Err(Fault::KeyFault(fault)),
    }
}
