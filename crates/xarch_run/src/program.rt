ghost use Rattle.std.specs.Prelude.{◌≡◌, ◌≢◌, ◌≤◌, ◌↔◌, ◌⊎◌, IsTrue, ℕ, List, length, Some, None};
ghost use Rattle.xa_outside.specs.Causes.{Rose};
ghost use Rattle.xa_outside.specs.Folder.{Files};
ghost use Rattle.xarch_words.specs.Commands.{batch, command_of};
ghost use Rattle.xarch_words.specs.View.{words_view};
ghost use Rattle.xarch_words.specs.declared.limits.TheConstants.{BATCH};
ghost use Rattle.xarch_parts.specs.Folders.{IsTold};
ghost use Rattle.xarch_run.specs.Batch.{BatchEnds, IsAnswer, ReadsAsSaid, shown};
ghost use Rattle.xarch_run.specs.Calls.{DidCommands, call_of};
ghost use Rattle.xarch_run.specs.StepTaken.{StepTaken};

use crate::batch::run_batch;
use crate::step::take_step;
use std::alloc::Global;
use xa_outside::{Folder, Sink, Source};
use xarch_words::{Command, read_words};

/// Does what the words of a command line say, and answers the status.
///
/// The words are those after the program's name. A batch takes its commands from the lines of
/// `input`, which no other command reads. Every fault writes one line to `err`; a failure of `err`
/// changes no status. Input files are read directly before the first step that judges their bytes:
/// whole, but the archives of `add`, `check`, `cut`, `join` and `stats`, which are read record by
/// record, those of `get`, `history` and `log`, of which only what their searches look at and a
/// `log`'s leaf is read, and that of `versions`, of which its header and its notes are read.
pub fn run<F: Folder, S: Source, O: Sink, E: Sink>(
    alloc: Global,
    words: &[String],
    folder: &mut F,
    input: &mut S,
    out: &mut O,
    err: &mut E,
) -> u8
    // Words that are no batch: one command is done, or refused.
    ensures step { command_of (words_view words.now) ≢ Some batch
        → StepTaken F.files F.draft F.numbers F.faults O.taken O.faults E.taken E.faults
        (words_view words.now) folder.old folder.new out.old out.new err.old err.new result }
    ensures input { command_of (words_view words.now) ≢ Some batch
        → S.rest input.new ≡ S.rest input.old }

    // What a batch does where the input is told: its lines are run in order, each as a command of
    // its own, up to the end that the answer names. Where files are told, each is run from the
    // files that the one before left.
    ensures batch { (bytes : List ℕ) → command_of (words_view words.now) ≡ Some batch
        → S.rest input.old ≡ Some bytes
        → BatchEnds (shown F.files O.taken E.taken E.faults folder.old folder.new
        out.old out.new err.old err.new) bytes (S.rest input.new) result }

    // Where nothing fails, a batch whose input is not too long runs all of its lines. That what
    // should succeed among them does is clause `should` of `archives_hold_what_was_handed_in`.
    ensures batch_complete { (bytes : List ℕ) → command_of (words_view words.now) ≡ Some batch
        → S.rest input.old ≡ Some bytes → length bytes ≤ BATCH
        → ¬ Rose (F.faults folder.old) (F.faults folder.new)
        → ¬ Rose (S.faults input.old) (S.faults input.new)
        → ¬ Rose (O.faults out.old) (O.faults out.new) → (result ≡ 0) ⊎ (result ≡ 16) }
    ensures batch_answer { command_of (words_view words.now) ≡ Some batch
        → IsAnswer (F.faults folder.old) (F.faults folder.new) (S.faults input.old)
        (S.faults input.new) (O.faults out.old) (O.faults out.new) result }
    ensures batch_reads { (bytes : List ℕ) → command_of (words_view words.now) ≡ Some batch
        → S.rest input.old ≡ Some bytes → ReadsAsSaid bytes (S.rest input.new) result }

    // What any call does where files are told, before and now: some commands, in order, each from
    // the files that the one before left. What they come to is said by
    // `archives_hold_what_was_handed_in`.
    ensures did { (before now : Files) (bytes : List ℕ)
        → F.files folder.old ≡ Some before → F.files folder.new ≡ Some now
        → (command_of (words_view words.now) ≡ Some batch → S.rest input.old ≡ Some bytes)
        → DidCommands before (call_of (words_view words.now) bytes result) now }

    // When a fault comes, whatever is told.
    ensures usage { (result ≡ 2) ↔ (command_of (words_view words.now) ≡ None) }
    ensures folder_fault { result ≡ 13 → Rose (F.faults folder.old) (F.faults folder.new) }
    ensures out_fault { result ≡ 14 → Rose (O.faults out.old) (O.faults out.new) }
    ensures input_fault { result ≡ 15
        → (command_of (words_view words.now) ≡ Some batch)
        × Rose (S.faults input.old) (S.faults input.new) }

    // Files and draft that are told stay told, what is not told stays untold, and no count of
    // faults falls.
    ensures told { IsTold (F.files folder.old) (F.draft folder.old)
        → IsTold (F.files folder.new) (F.draft folder.new) }
    ensures untold { F.files folder.old ≡ None → F.files folder.new ≡ None }
    ensures draft_untold { F.draft folder.old ≡ None → F.draft folder.new ≡ None }
    ensures folder_later { F.faults folder.old ≤ F.faults folder.new }
    ensures input_later { S.faults input.old ≤ S.faults input.new }
    ensures out_later { O.faults out.old ≤ O.faults out.new }
    ensures err_later { E.faults err.old ≤ E.faults err.new }
{
    if is_batch(words) {
        run_batch(alloc, folder, input, out, err)
    } else {
        take_step(alloc, words, folder, out, err)
    }
}

fn is_batch(words: &[String]) -> bool
    ensures { IsTrue result ↔ (command_of (words_view words.now) ≡ Some batch) }
{
    matches!(read_words(words), Some(Command::Batch))
}
