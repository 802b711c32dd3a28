ghost use Rattle.std.specs.Prelude.{ℕ, List};
ghost use Rattle.csv_tables.specs.Data.{PlainTable};
ghost use Rattle.csv_tables.specs.Keys.{IsFaultlessByItsKeys, SatisfiesItsKeys};
ghost use Rattle.csv_tables.specs.Laws.{ReadsRegular, TableReadsBack, KeysReadBack};

use jsonml_text::printed_documents_read_back;

/// The document of a table satisfies the keys of its specification exactly where no two rows have the same fields in all
/// key columns, and exactly there it has no first fault.
pub fn tables_satisfy_their_keys()
    ensures satisfies { (table : PlainTable) (tag : List ℕ) (keys : List (List ℕ))
        → SatisfiesItsKeys table tag keys }
    ensures faultless { (table : PlainTable) (tag : List ℕ) (keys : List (List ℕ))
        → IsFaultlessByItsKeys table tag keys }
{}

/// Each table that is read is regular, what is printed for its document reads back as it, and the canonical text of its
/// specification specifies it again.
pub fn tables_read_back()
    ensures regular { (bytes : List ℕ) (table : PlainTable) → ReadsRegular bytes table }
    ensures document { (bytes : List ℕ) (table : PlainTable) (tag : List ℕ)
        → TableReadsBack bytes table tag }
    ensures specification { (tag : List ℕ) (keys : List (List ℕ)) → KeysReadBack tag keys }
{
    printed_documents_read_back();
}
