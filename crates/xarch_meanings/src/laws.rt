ghost use Rattle.std.specs.Prelude.{◌≡◌, ℕ, List, Some, Result, Err};
ghost use Rattle.xa_outside.specs.Folder.{Files};
ghost use Rattle.keyed_tree.specs.Data.{PlainKeyed};
ghost use Rattle.archive_tree.specs.Data.{PlainArchive};
ghost use Rattle.xarch_words.specs.Commands.{PlainCommand};
ghost use Rattle.xarch_words.specs.Refusal.{Refusal};
ghost use Rattle.xarch_parts.specs.Outcome.{Outcome, Step};
ghost use Rattle.xarch_meanings.specs.Plausible.{Plausible};
ghost use Rattle.xarch_meanings.specs.Meanings.{MayBe, MayDo, ShouldSucceed};
ghost use Rattle.xarch_meanings.specs.Step.{Defines, StepIs, alone, single_of};
ghost use Rattle.xarch_meanings.specs.Texts.{TellsArchives, TellsTexts, TellsVersions};

use archive_rekey::versions_have_one_rekeying;
use archive_text::texts_have_one_reading;
use archive_tree::archives_stand_for_one_list;
use noted_file::full_files_have_one_reading;
use record_cursor::files_give_their_items;
use record_format::{records_are_read_as_spelled, versions_have_one_file};

/// A command that should succeed is one by itself, and has no refusal that it may be answered with.
/// It does nothing.
pub fn what_should_succeed_is_not_refused()
    ensures never { (files : Files) (command : PlainCommand) (r : Refusal)
        → ShouldSucceed files command → ¬ MayBe files command (Err r) }
    ensures single { (files : Files) (command : PlainCommand)
        → ShouldSucceed files command → alone (Some command) ≡ Some command }
{
    versions_have_one_rekeying();
}

/// What words may do is what is defined, where that is: one outcome, and one step. It does nothing.
pub fn commands_take_one_step()
    ensures outcome { (files : Files) (words : List (List ℕ)) (r s : Result Outcome Refusal)
        → Defines files words r → MayDo files (single_of words) s → s ≡ r }
    ensures step { (files : Files) (words : List (List ℕ)) (s t : Step)
        → StepIs files words s → Plausible files words t → s ≡ t }
{
    archives_stand_for_one_list();
    versions_have_one_file();
    versions_have_one_rekeying();
    full_files_have_one_reading();
    texts_have_one_reading();
}

/// The bytes of a sound archive tell the archive and its versions. It does nothing.
pub fn archives_tell_their_versions()
    ensures archive { (read : List ℕ → PlainArchive) × TellsArchives read }
    ensures versions { (read : List ℕ → List PlainKeyed) × TellsVersions read }
{
    records_are_read_as_spelled();
    files_give_their_items();
    archives_stand_for_one_list();
}

/// The bytes of a sound archive tell the text of each of its versions. It does nothing.
pub fn archives_tell_their_texts()
    ensures { (text : List ℕ → ℕ → List ℕ) × TellsTexts text }
{
    records_are_read_as_spelled();
    files_give_their_items();
    archives_stand_for_one_list();
}
