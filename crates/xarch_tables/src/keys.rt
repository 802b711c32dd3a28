// The names of key columns, and the specification that they make.
#![tactic(auto, using(xarch_parts::specs::EndLaws::endings), unfolding(xarch_parts::specs::Ends::IsInside, xarch_parts::specs::Ends::IsDefined))]

ghost use Rattle.std.specs.Prelude.{◌≡◌, ◌⊎◌, ◌≤◌, ℕ, IfOk, IfErr, length, string_bytes};
ghost use Rattle.xa_outside.specs.Taken.{Taken};
ghost use Rattle.key_spec.specs.Canonical.{canonical};
ghost use Rattle.key_spec.specs.View.{names_view};
ghost use Rattle.csv_tables.specs.Keys.{table_rules};
ghost use Rattle.xarch_words.specs.Commands.{key_names, tablekeys};
ghost use Rattle.xarch_words.specs.Refusal as refusal;
ghost use Rattle.xarch_words.specs.Refusal.{memory, refused};
ghost use Rattle.xarch_words.specs.View.{fault_view};
ghost use Rattle.xarch_words.specs.declared.limits.TheConstants.{SPECIFICATION};
ghost use Rattle.xarch_parts.specs.Ends.{IsInside, Matches, fault_of};
ghost use Rattle.xarch_meanings.specs.Performs.{Performs};
ghost use Rattle.xarch_meanings.specs.Table.{short_rules};

use csv_tables::keys_text;
use std::alloc::{AllocError, Global};
use xa_outside::Folder;
use xarch_parts::{at_most, begin, check_free, store};
use xarch_words::{Fault, Quantity, limits};

/// Makes the specification for the document of a table.
pub fn run_tablekeys<F: Folder>(
    alloc: Global,
    tag: &str,
    keys: &str,
    spec: &str,
    folder: &mut F,
) -> Result<(), Fault>
    ensures { (t : Taken) (n : ℕ) → Performs F.files F.draft F.numbers F.faults
        (tablekeys tag.now keys.now spec.now) folder.old folder.new t t n n (fault_of result) }
{
    let text = spelled_text(alloc, tag, keys)?;
    begin(folder)?;
    check_free(alloc, folder, spec)?;
    store(folder, spec, text.as_bytes())
}

/// The names between the commas of a word.
pub(crate) fn key_names(alloc: Global, word: &str) -> Result<Vec<String>, AllocError>
    ensures { IfOk result (λ names. names_view names.items ≡ key_names word.now) }
{
    let mut names = Vec::new(alloc);
    for part in word.split(',') {
        names.push(String::from_str(alloc, part)?)?;
    }
    Ok(names)
}

/// The canonical text of the specification whose keys a word spells.
fn spelled_text(alloc: Global, tag: &str, keys: &str) -> Result<String, Fault>
    ensures cause { IsInside (fault_of result) }
    ensures told { Matches (λ _. table_rules tag.now (key_names keys.now))
        (short_rules tag.now (key_names keys.now)) result }
    ensures text { IfOk result
        (λ text. string_bytes text ≡ canonical (table_rules tag.now (key_names keys.now))) }
    ensures short { IfOk result (λ _.
        length (canonical (table_rules tag.now (key_names keys.now))) ≤ SPECIFICATION) }
    ensures long { IfErr result (λ f. (fault_view f
        ≡ refused (refusal.limit refusal.specification SPECIFICATION)) ⊎ (fault_view f ≡ memory)) }
{
    let names = key_names(alloc, keys)?;
    short_text(alloc, tag, &names)
}

/// The canonical text of the specification, which is not longer than that of one may be.
pub(crate) fn short_text(alloc: Global, tag: &str, names: &[String]) -> Result<String, Fault>
    ensures cause { IsInside (fault_of result) }
    ensures told { Matches (λ _. table_rules tag.now (names_view names.now))
        (short_rules tag.now (names_view names.now)) result }
    ensures text { IfOk result
        (λ text. string_bytes text ≡ canonical (table_rules tag.now (names_view names.now))) }
    ensures short { IfOk result
        (λ _. length (canonical (table_rules tag.now (names_view names.now))) ≤ SPECIFICATION) }
    ensures long { IfErr result (λ f. (fault_view f
        ≡ refused (refusal.limit refusal.specification SPECIFICATION)) ⊎ (fault_view f ≡ memory)) }
{
    let text = keys_text(alloc, tag, names)?;
    at_most(
        text.as_str().len() as u64,
        Quantity::Specification,
        limits::SPECIFICATION,
    )?;
    Ok(text)
}
