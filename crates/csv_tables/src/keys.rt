// Specifications of tables.
ghost use Rattle.std.specs.Prelude.{◌≡◌, ◌≤◌, ◌++◌, ◌↔◌, [], true, not, Ok, IsTrue, IfOk, OnOk, length, map, codes, string_bytes};
ghost use Rattle.std.specs.List.{list_all};
ghost use Rattle.key_spec.specs.Canonical.{canonical, paths_text};
ghost use Rattle.key_spec.specs.Closed.{closed};
ghost use Rattle.key_spec.specs.Names.{is_name};
ghost use Rattle.key_spec.specs.View.{names_view, spec_view};
ghost use Rattle.csv_tables.specs.Keys.{table_rules, attribute_path, AreKeys};
ghost use Rattle.csv_tables.specs.Records.{repeats};

use crate::table::has_field;
use key_spec::{Spec, SpecFault, is_name};
use std::alloc::{AllocError, Global};

/// The most key columns.
const MOST: usize = 16;

/// Whether these may be the names of key columns: from 1 to 16 of them, each a name, and all different. It takes no memory.
pub fn are_keys(keys: &[String]) -> bool
    ensures { IsTrue result ↔ AreKeys (names_view keys.now) }
{
    if keys.is_empty() {
        return false;
    }
    if keys.len() > MOST {
        return false;
    }
    are_names(keys) && are_different(keys)
}

fn are_names(keys: &[String]) -> bool
    ensures { result ≡ list_all is_name (names_view keys.now) }
{
    for key in keys {
        if !is_name(key.as_str()) {
            return false;
        }
    }
    true
}

/// Whether no two are the same. There are few of them, so each is compared with those before it.
fn are_different(keys: &[String]) -> bool
    ensures { repeats [] (names_view keys.now) ≡ not result }
{
    for (at, key) in keys.iter().enumerate() {
        if has_field(&keys[..at], key) {
            return false;
        }
    }
    true
}

/// The canonical text of a table's specification: three lines, as
/// `(/, (t, {}))`, `(/t, (row, {@id}))` and `(/t/row, (cell, {}))`.
pub fn keys_text(alloc: Global, tag: &str, keys: &[String]) -> Result<String, AllocError>
    ensures { IfOk result (λ text. string_bytes text
        ≡ canonical (table_rules tag.now (names_view keys.now))) }
{
    let mut text = String::new(alloc);
    push_root(&mut text, tag)?;
    push_rows(&mut text, tag, keys)?;
    push_cells(&mut text, tag)?;
    Ok(text)
}

/// Writes the line for the root.
fn push_root(text: &mut String, tag: &str) -> Result<(), AllocError>
    ensures { OnOk result (string_bytes text.new
        ≡ string_bytes text.old ++ (codes "(/, (" ++ (tag.now ++ codes ", {}))\n"))) }
{
    text.push_str("(/, (")?;
    text.push_str(tag)?;
    text.push_str(", {}))\n")
}

/// Writes the line for the rows.
fn push_rows(text: &mut String, tag: &str, keys: &[String]) -> Result<(), AllocError>
    ensures { OnOk result (string_bytes text.new
        ≡ string_bytes text.old ++ (codes "(/" ++ (tag.now ++ (codes ", (row, {"
        ++ (paths_text (map attribute_path (names_view keys.now)) ++ codes "}))\n"))))) }
{
    text.push_str("(/")?;
    text.push_str(tag)?;
    text.push_str(", (row, {")?;
    push_keys(text, keys)?;
    text.push_str("}))\n")
}

/// Writes the line for the fields of a row.
fn push_cells(text: &mut String, tag: &str) -> Result<(), AllocError>
    ensures { OnOk result (string_bytes text.new
        ≡ string_bytes text.old ++ (codes "(/" ++ (tag.now ++ codes "/row, (cell, {}))\n"))) }
{
    text.push_str("(/")?;
    text.push_str(tag)?;
    text.push_str("/row, (cell, {}))\n")
}

/// Writes the key paths.
fn push_keys(text: &mut String, keys: &[String]) -> Result<(), AllocError>
    ensures { OnOk result (string_bytes text.new
        ≡ string_bytes text.old ++ paths_text (map attribute_path (names_view keys.now))) }
{
    let Some((first, others)) = keys.split_first() else {
        return Ok(());
    };
    push_key(text, "@", first)?;
    for key in others {
        push_key(text, ", @", key)?;
    }
    Ok(())
}

/// Writes a key path behind what stands before it.
fn push_key(text: &mut String, before: &str, key: &String) -> Result<(), AllocError>
    ensures { OnOk result (string_bytes text.new
        ≡ string_bytes text.old ++ (before.now ++ string_bytes key.now)) }
{
    text.push_str(before)?;
    text.push_str(key.as_str())
}

/// The specification of a table's document, in which the rows are keyed by these columns.
pub fn table_spec(alloc: Global, tag: &str, keys: &[String]) -> Result<Spec, AllocError>
    requires tag { is_name tag.now ≡ true }
    requires keys { AreKeys (names_view keys.now) }
    requires short { length (canonical (table_rules tag.now (names_view keys.now))) ≤ 1048576 }
    ensures rules { IfOk result (λ s. spec_view s ≡ table_rules tag.now (names_view keys.now)) }

    // The canonical text specifies these rules.
    ensures closed { closed (canonical (table_rules tag.now (names_view keys.now)))
        ≡ Ok (table_rules tag.now (names_view keys.now)) }
{
    let text = keys_text(alloc, tag, keys)?;
    match Spec::parse(alloc, text.as_bytes()) {
        Ok(spec) => Ok(spec),
        Err(SpecFault::Memory) => Err(AllocError),
        Err(SpecFault::Bad { .. }) => unreachable!(),
    }
}
