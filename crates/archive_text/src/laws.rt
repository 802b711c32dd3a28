// What follows from the definitions.
ghost use Rattle.std.specs.Prelude.{◌≡◌, ℕ, List};
ghost use Rattle.noted_file.specs.Contents.{Contents};
ghost use Rattle.noted_file.specs.Full.{FullAs};
ghost use Rattle.archive_text.specs.Export.{ExportOf};
ghost use Rattle.archive_text.specs.Reading.{ArePartsOf};

use archive_file::{keyed_versions_can_be_merged, sound_archives_have_one_reading};
use archive_tree::archives_stand_for_one_list;
use jsonml_lines::printed_lines_read_back;

/// An archive has one text, and different archives have different texts.
pub fn texts_have_one_reading()
    ensures text { (c : Contents) (a b : List ℕ) → ExportOf c a → ExportOf c b → a ≡ b }
    ensures reading { (c d : Contents) (file other text : List ℕ)
        → FullAs c file → FullAs d other → ExportOf c text → ExportOf d text → c ≡ d }
{
    printed_lines_read_back();
    archives_stand_for_one_list();
    sound_archives_have_one_reading();
    keyed_versions_can_be_merged();
}

/// The text of an archive with notes that has a file can be read: its specification is short, its names are names, its stamps
/// are sets, its texts UTF-8, and its nodes nest no deeper than elements may.
pub(crate) fn texts_can_be_read()
    ensures { (c : Contents) (file text : List ℕ) → FullAs c file → (e : ExportOf c text)
        → ArePartsOf c.rules e.archive c.notes text }
{
    archives_stand_for_one_list();
    sound_archives_have_one_reading();
    keyed_versions_can_be_merged();
}
