// What follows for the archives in a folder.
ghost use Rattle.std.specs.Prelude.{◌≡◌, ◌≤◌, ◌↔◌, ℕ, IsUtf8, List, length, None, Option, Some};
ghost use Rattle.std.specs.List.{AllByRecursion};
ghost use Rattle.csv_tables.specs.Data.{PlainTable};
ghost use Rattle.csv_tables.specs.Keys.{AreApart};
ghost use Rattle.std.specs.FinMap as finite;
ghost use Rattle.xa_outside.specs.Folder.{Files};
ghost use Rattle.keyed_tree.specs.Data.{PlainKeyed};
ghost use Rattle.keyed_tree.specs.Kids.{IsOrdered};
ghost use Rattle.archive_tree.specs.Stands.{version_of};
ghost use Rattle.archive_file.specs.KeyedBy.{IsKeyedBy};
ghost use Rattle.xarch_words.specs.Commands.{AreForTable, PlainCommand, add, check, cut, export, get, history, import, join, key_names, log, rekey, stats, table, tablekeys, versions};
ghost use Rattle.xarch_words.specs.Refusal as refusal;
ghost use Rattle.xarch_words.specs.Refusal.{PlainFault};
ghost use Rattle.xarch_words.specs.declared.limits.TheConstants.{DOCUMENT};
ghost use Rattle.xarch_meanings.specs.Check.{checked};
ghost use Rattle.xarch_meanings.specs.Meanings.{IsLimited, ShouldSucceed};
ghost use Rattle.xarch_meanings.specs.Add.{IsHandedIn};
ghost use Rattle.xarch_meanings.specs.Rekey.{IsRekeyed};
ghost use Rattle.xarch_meanings.specs.Import.{IsTextOf};
ghost use Rattle.xarch_meanings.specs.Get.{version_text};
ghost use Rattle.xarch_meanings.specs.History.{history_text};
ghost use Rattle.xarch_meanings.specs.Log.{logged};
ghost use Rattle.xarch_meanings.specs.Ran.{outside_of, status_after};
ghost use Rattle.xarch_meanings.specs.Table.{keys_tabled, tabled};
ghost use Rattle.xarch_meanings.specs.Versions.{listed};
ghost use Rattle.xarch_parts.specs.Outcome.{Step, step_from};
ghost use Rattle.xarch_meanings.specs.Plausible.{Plausible};
ghost use Rattle.xarch_meanings.specs.Step.{single_of};
ghost use Rattle.xarch_run.specs.Calls.{Call, CallsDid, CommandMay, CommandsDid, CommandsLead};
ghost use Rattle.xarch_run.specs.Held.{Accepted, Begun, ChangesOrTells, CutsOrTells, GoesOver, HandedIn, Held, Holds, HoldsBehind, HoldsExactly, ImportsOrTells, JoinsOrTells, MakesArchive, NoneMakes, RefusalsKeep, TakesKeys, TellsSoundness, WritesCounts, WritesText};
ghost use Rattle.xarch_run.specs.Steps.{LineMay, files_after, line_command};
ghost use Rattle.xarch_run.specs.Tabled.{HasDocument, HasKeys, IsForKeys};

use archive_rekey::versions_have_one_rekeying;
use archive_text::texts_have_one_reading;
use csv_tables::{tables_read_back, tables_satisfy_their_keys};
use noted_file::{full_files_have_one_reading, sound_files_are_full};
use xarch_meanings::what_should_succeed_is_not_refused;

/// After any list of commands, an archive's file is exactly the encoding of the handed-in documents
/// that satisfied its keys, in order, and refused commands changed no file; `get` of a number
/// writes that version with keyed siblings in key order; and `history` writes exactly the versions
/// that hold the element. An archive that a `cut`, a `join` or an `import` made goes on from the
/// versions that it was given.
///
/// The encoding is that of the versions, and behind it of their notes, where one is not empty.
///
/// The commands are those of calls of `run`, one after another, and of the lines of their batches.
/// They may name other archives, sound or not. That merging all of the versions gives the bytes of
/// the file is clause `held` of `file_of_versions`.
pub fn archives_hold_what_was_handed_in()
    // The file is exactly the encoding of the documents that were handed in since its `init`, or of
    // those of its `demo` and of the documents handed in since then. A document of an `add` is
    // handed in exactly where it satisfies the keys within the limits (`HeldAfter`). The keys are
    // those of the last `rekey` that was not refused, and before it those of `init` or `demo`; such
    // a `rekey` gives its keys to the versions that stand, too.
    ensures headline { (files : Files) (commands : List (Option PlainCommand)) (steps : List Step)
        (name : List ℕ) (held : Held)
        → CommandsDid files commands steps → HandedIn files name commands steps held
        → HoldsExactly (files_after files steps) name held }

    // An `init`, a `demo`, an `import`, a `cut` of a sound archive, or a `join` of two, that was not
    // refused made such an archive, and an archive that stands goes on from what it holds. A name that
    // has no file gets one only by a command that makes a new file.
    ensures made { (files : Files) (name : List ℕ) (command : Option PlainCommand) (s : Step)
        → CommandMay files command s → s.status ≡ 0 → MakesArchive name command
        → GoesOver files command → Begun files name command s.files }
    ensures kept { (files : Files) (name : List ℕ) (commands : List (Option PlainCommand))
        (steps : List Step) (held : Held) → Holds files name held → CommandsDid files commands steps
        → HoldsBehind files name commands steps held }
    ensures exactly { (files : Files) (name : List ℕ) (held : Held)
        → Holds files name held → HoldsExactly files name held }
    ensures only { (files : Files) (name : List ℕ) (held other : Held)
        → Holds files name held → Holds files name other → held ≡ other }
    ensures absent { (files : Files) (name : List ℕ) (commands : List (Option PlainCommand))
        (steps : List Step) → finite.get files name ≡ None → CommandsDid files commands steps
        → NoneMakes name commands steps → finite.get (files_after files steps) name ≡ None }

    // Refused commands changed no file.
    ensures refused { (files : Files) (commands : List (Option PlainCommand)) (steps : List Step)
        → CommandsDid files commands steps → RefusalsKeep files steps }

    // An `add` is not refused exactly where its document satisfies the keys within the limits, its
    // note is short enough, and the versions with it have a file.
    ensures satisfied { (files : Files) (name doc note : List ℕ) (held : Held) (s : Step)
        (tree : PlainKeyed)
        → Holds files name held → CommandMay files (Some (add name doc note)) s
        → IsHandedIn files doc note held tree → s.status ≡ 0 }
    ensures accepted { (files : Files) (name doc note : List ℕ) (held : Held) (s : Step)
        → Holds files name held → CommandMay files (Some (add name doc note)) s → s.status ≡ 0
        → Accepted files name doc note held s.files }

    // A `rekey` is not refused exactly where each version satisfies the keys of the specification,
    // and the versions under them have a file; else the first that does not is told.
    ensures rekeyed { (files : Files) (name spec : List ℕ) (held under : Held) (s : Step)
        → Holds files name held → CommandMay files (Some (rekey name spec)) s
        → IsRekeyed files name spec held under → s.status ≡ 0 }
    ensures keys_taken { (files : Files) (name spec : List ℕ) (held : Held) (s : Step)
        → Holds files name held → CommandMay files (Some (rekey name spec)) s → s.status ≡ 0
        → TakesKeys files name spec held s.files }
    ensures keys_told { (files : Files) (name spec : List ℕ) (held : Held) (s : Step)
        → Holds files name held → CommandMay files (Some (rekey name spec)) s
        → ChangesOrTells files name spec held s }

    // What should succeed is not refused, and so not in a batch.
    ensures should { (files : Files) (command : PlainCommand) (s : Step)
        → CommandMay files (Some command) s → ShouldSucceed files command → s.status ≡ 0 }

    // What is written of an archive. Siblings with keys stand in key order in each of its versions.
    ensures gets { (files : Files) (name : List ℕ) (held : Held) (s : Step) (i : ℕ)
        → Holds files name held → CommandMay files (Some (get name i)) s
        → s ≡ step_from files (version_text files held.versions i) }
    ensures in_order { (files : Files) (name : List ℕ) (held : Held) (i : ℕ) (tree : PlainKeyed)
        → Holds files name held → version_of held.versions i ≡ Some tree
        → IsOrdered tree × IsKeyedBy held.rules tree }
    ensures tells { (files : Files) (name : List ℕ) (held : Held) (s : Step) (path : List ℕ)
        → Holds files name held → CommandMay files (Some (history name path)) s
        → s ≡ step_from files (history_text files held.rules held.versions path) }
    ensures counts { (files : Files) (name : List ℕ) (held : Held) (s : Step)
        → Holds files name held → CommandMay files (Some (stats name)) s
        → WritesCounts files held s }

    // Each content that an element or attribute has had is written with its versions, and the archive
    // as text.
    ensures logs { (files : Files) (name : List ℕ) (held : Held) (s : Step) (path : List ℕ)
        → Holds files name held → CommandMay files (Some (log name path)) s
        → s ≡ step_from files (logged files held.rules held.versions path) }
    ensures exports { (files : Files) (name : List ℕ) (held : Held) (s : Step)
        → Holds files name held → CommandMay files (Some (export name)) s
        → WritesText files held s }

    // A `cut` makes the archive of the versions from one to another with their notes, or tells why
    // there is none.
    ensures cuts { (files : Files) (name new : List ℕ) (i j : ℕ) (held : Held) (s : Step)
        → Holds files name held → CommandMay files (Some (cut name new i j)) s
        → CutsOrTells files new i j held s }

    // A `join` makes the archive of the versions of two archives, those of the second behind those of
    // the first, with their notes, or tells why there is none.
    ensures joins { (files : Files) (one two new : List ℕ) (first second : Held) (s : Step)
        → Holds files one first → Holds files two second
        → CommandMay files (Some (join one two new)) s
        → JoinsOrTells files one two new first second s }

    // An `import` makes the archive whose text a file is, or tells why there is none. So what an
    // `export` wrote gives the same file again, where it is short enough, and no other text is taken.
    ensures imports { (files : Files) (text new : List ℕ) (s : Step)
        → CommandMay files (Some (import text new)) s → ImportsOrTells files text new s }
    ensures imported { (files : Files) (text new : List ℕ) (held : Held) (s : Step)
        → IsTextOf files text held → CommandMay files (Some (import text new)) s → s.status ≡ 0
        → Holds s.files new held }
    ensures spelled { (files : Files) (text new : List ℕ) (s : Step)
        → CommandMay files (Some (import text new)) s → s.status ≡ 0
        → (held : Held) × IsTextOf files text held }

    ensures restores { (files later : Files) (name text new : List ℕ) (held : Held) (s t : Step)
        → Holds files name held → CommandMay files (Some (export name)) s
        → finite.get later text ≡ Some s.output → length s.output ≤ DOCUMENT
        → finite.get later new ≡ None → CommandMay later (Some (import text new)) t
        → (t.status ≡ 0) × (finite.get t.files new ≡ finite.get files name) }

    // The numbers of the versions are listed, each with its note.
    ensures lists { (files : Files) (name : List ℕ) (held : Held) (s : Step)
        → Holds files name held → CommandMay files (Some (versions name)) s
        → s ≡ step_from files (listed files held.notes) }

    // A check of an archive writes `ok` and the number of its versions. Of any file its status says
    // whether it is a sound archive.
    ensures checks { (files : Files) (name : List ℕ) (held : Held) (s : Step)
        → Holds files name held → CommandMay files (Some (check name)) s
        → s ≡ step_from files (checked files held.versions) }
    ensures judges { (files : Files) (name : List ℕ) (s : Step)
        → CommandMay files (Some (check name)) s → TellsSoundness files name s }

    // The commands are those that calls of `run` did, one after another, as its clause `did` says.
    // Those of a batch are the ones that its lines spell, and that of any other call is the one that
    // its words spell.
    ensures calls { (files now : Files) (calls : List Call) (commands : List (Option PlainCommand))
        (steps : List Step)
        → CallsDid files calls now commands steps → CommandsLead files commands steps now }
    ensures line { (files : Files) (line : List ℕ) (s : Step)
        → LineMay files line s → CommandMay files (line_command line) s }
    ensures words { (files : Files) (words : List (List ℕ)) (s : Step)
        → Plausible files words s → CommandMay files (single_of words) s }
{
    full_files_have_one_reading();
    sound_files_are_full();
    what_should_succeed_is_not_refused();
    versions_have_one_rekeying();
    texts_have_one_reading();
}

/// What `table` makes is a document that satisfies the keys which `tablekeys` writes for the same tag
/// and columns, and it is made exactly where no two rows have the same fields in all key columns. So an
/// archive under that specification takes the document, within its limits.
pub fn tables_make_documents_by_their_keys()
    // What the commands do, over any files.
    ensures tables { (files : Files) (csv tag keys doc : List ℕ) (s : Step)
        → CommandMay files (Some (table csv tag keys doc)) s
        → s ≡ step_from files (tabled files csv tag keys doc) }
    ensures specifies { (files : Files) (tag keys spec : List ℕ) (s : Step)
        → CommandMay files (Some (tablekeys tag keys spec)) s
        → s ≡ step_from files (keys_tabled files tag keys spec) }

    // Where `table` answers 0 the file is the printed document of the table, which reads back as it
    // and satisfies the keys; nothing but rows that agree in their keys stands against it then.
    ensures made { (files : Files) (csv tag keys doc : List ℕ) (s : Step)
        → CommandMay files (Some (table csv tag keys doc)) s → s.status ≡ 0 → IsUtf8 tag
        → HasDocument files csv tag keys doc s.files }
    ensures apart { (files : Files) (csv tag keys doc : List ℕ) (table_read : PlainTable) (s : Step)
        → CommandMay files (Some (table csv tag keys doc)) s
        → IsForKeys files csv tag keys doc table_read
        → (s.status ≡ 0) ↔ AreApart table_read (key_names keys) }

    // Where `tablekeys` answers 0 the file is the canonical text of the keys, which reads back as them.
    ensures specified { (files : Files) (tag keys spec : List ℕ) (s : Step)
        → CommandMay files (Some (tablekeys tag keys spec)) s → s.status ≡ 0
        → AreForTable tag keys → IsUtf8 tag → AllByRecursion IsUtf8 (key_names keys)
        → HasKeys tag keys spec s.files }
{
    tables_read_back();
    tables_satisfy_their_keys();
}

/// Which faults a status tells: 2 that the words are no command, 12 a limit, and each from 13 to 16
/// one fault of the outside, or want of memory. It does nothing.
pub fn statuses_tell_faults()
    ensures usage { (ended : Option PlainFault) → status_after ended ≡ 2
        → ended ≡ Some (refusal.refused refusal.usage) }
    ensures limit { (ended : Option PlainFault) → status_after ended ≡ 12 → IsLimited ended }
    ensures outside { (ended : Option PlainFault) (fault : PlainFault)
        → outside_of (status_after ended) ≡ Some fault → ended ≡ Some fault }
{}
