ghost use Rattle.std.specs.Prelude.{◌≡◌, string_bytes};
ghost use Rattle.std.specs.List.{list_all};
ghost use Rattle.key_spec.specs.View.{names_view};
ghost use Rattle.csv_tables.specs.Records.{has_field};
ghost use Rattle.csv_tables.specs.View.{table_view};

/// A heading, and the rows behind it. In a regular table the fields of the heading are pairwise different, and each row has
/// as many fields; the type itself holds more.
#[derive(Debug, Drop)]
pub struct Table {
    pub heading: Vec<String>,
    pub rows: Vec<Vec<String>>,
}

/// Whether each of the keys is a field of the heading. It takes no memory, and looks through the heading once for each key.
pub fn has_columns(table: &Table, keys: &[String]) -> bool
    ensures { result ≡ list_all (has_field (table_view table.now).heading) (names_view keys.now) }
{
    for key in keys {
        if !has_field(&table.heading, key) {
            return false;
        }
    }
    true
}

/// Whether a field of the heading is this name.
pub(crate) fn has_field(heading: &[String], name: &String) -> bool
    ensures { result ≡ has_field (names_view heading.now) (string_bytes name.now) }
{
    for field in heading {
        if name == field {
            return true;
        }
    }
    false
}
