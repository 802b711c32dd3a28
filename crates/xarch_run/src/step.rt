#![tactic(auto, using(xarch_parts::specs::EndLaws::endings))]

ghost use Rattle.std.specs.Prelude.{◌≡◌, ◌≢◌, ◌≤◌, Some, IfSome, option_map};
ghost use Rattle.xarch_words.specs.Commands.{IsSpelled};
ghost use Rattle.xarch_words.specs.Refusal.{out_fault};
ghost use Rattle.xarch_words.specs.View.{command_view, words_view};
ghost use Rattle.xarch_parts.specs.Ends.{fault_of};
ghost use Rattle.xarch_meanings.specs.Meanings.{FillsUp, IsLimited, IsSilent};
ghost use Rattle.xarch_meanings.specs.Performs.{Performs};
ghost use Rattle.xarch_meanings.specs.Ran.{line_after, Says, status_after};
ghost use Rattle.xarch_meanings.specs.Step.{alone, single_of};
ghost use Rattle.xarch_run.specs.Obeys.{Obeys};
ghost use Rattle.xarch_run.specs.StepTaken.{StepTaken};

use std::alloc::Global;
use xa_outside::{Folder, Sink};
use xarch_copies::{run_cut, run_join};
use xarch_meanings::{commands_take_one_step, what_should_succeed_is_not_refused};
use xarch_reads::{run_check, run_get, run_history, run_log, run_norm, run_stats, run_versions};
use xarch_tables::{run_table, run_tablekeys};
use xarch_texts::{run_export, run_import};
use xarch_words::{Command, Fault, read_words, status, write_fault};
use xarch_writes::{run_add, run_demo, run_init, run_rekey};

/// Takes the step of one command, and answers its status.
///
/// Words that are no command, and `batch`, are refused. Every fault writes one line to `err`; a
/// failure of `err` changes no status. Input files are read directly before the first step that
/// judges their bytes: whole, but the archives of `add`, `check`, `cut`, `join` and `stats`, which
/// are read record by record, those of `get`, `history` and `log`, of which only what their searches
/// look at and a `log`'s leaf is read, and that of `versions`, of which its header and its notes are
/// read.
pub fn take_step<F: Folder, O: Sink, E: Sink>(
    alloc: Global,
    words: &[String],
    folder: &mut F,
    out: &mut O,
    err: &mut E,
) -> u8
    ensures step { StepTaken F.files F.draft F.numbers F.faults O.taken O.faults E.taken E.faults
        (words_view words.now) folder.old folder.new out.old out.new err.old err.new result }
{
    // Laws, for the proofs of `tried`, `wrote`, `steady` and `succeeds`.
    commands_take_one_step();
    what_should_succeed_is_not_refused();
    let ended = command_words(alloc, words, folder, out);
    finish(&ended, err)
}

/// Does the command that the words spell.
fn command_words<F: Folder, O: Sink>(
    alloc: Global,
    words: &[String],
    folder: &mut F,
    out: &mut O,
) -> Result<(), Fault>
    ensures obeys { Obeys F.files F.draft F.numbers F.faults (single_of (words_view words.now))
        folder.old folder.new (O.taken out.old) (O.taken out.new)
        (O.faults out.old) (O.faults out.new) (fault_of result) }
    ensures untouched { IsSilent (single_of (words_view words.now)) → out.new ≡ out.old }
{
    match single_command(words) {
        None => Err(Fault::Usage),
        Some(command) => run_command(alloc, command, folder, out),
    }
}

/// The command that the words spell by themselves.
fn single_command(words: &[String]) -> Option<Command<'_>>
    ensures is { option_map command_view result ≡ single_of (words_view words.now) }
    ensures alone { alone (option_map command_view result) ≡ option_map command_view result }
    ensures spelled { IfSome result (λ command. IsSpelled (command_view command)) }
{
    match read_words(words)? {
        Command::Batch => None,
        command => Some(command),
    }
}

/// Does the command.
fn run_command<F: Folder, O: Sink>(
    alloc: Global,
    command: Command<'_>,
    folder: &mut F,
    out: &mut O,
) -> Result<(), Fault>
    requires alone { alone (Some (command_view command)) ≡ Some (command_view command) }
    requires spelled { IsSpelled (command_view command) }
    ensures performs { Performs F.files F.draft F.numbers F.faults (command_view command.entry)
        folder.old folder.new (O.taken out.old) (O.taken out.new)
        (O.faults out.old) (O.faults out.new) (fault_of result) }
    ensures fills { FillsUp (Some (command_view command.entry)) (F.files folder.old)
        (F.draft folder.new) (IsLimited (fault_of result)) }
    ensures silent { IsSilent (Some (command_view command.entry))
        → fault_of result ≢ Some out_fault }
    ensures untouched { IsSilent (Some (command_view command.entry)) → out.new ≡ out.old }
{
    match command {
        Command::Norm { spec, doc } => run_norm(alloc, spec, doc, folder, out),
        Command::Init { archive, spec } => run_init(alloc, archive, spec, folder),
        Command::Add { archive, doc, note } => run_add(alloc, archive, doc, note, folder),
        Command::Rekey { archive, spec } => run_rekey(alloc, archive, spec, folder),
        Command::Get { archive, version } => run_get(alloc, archive, version, folder, out),
        Command::History { archive, path } => run_history(alloc, archive, path, folder, out),
        Command::Log { archive, path } => run_log(alloc, archive, path, folder, out),
        Command::Check { archive } => run_check(alloc, archive, folder, out),
        Command::Stats { archive } => run_stats(alloc, archive, folder, out),
        Command::Versions { archive } => run_versions(alloc, archive, folder, out),
        Command::Export { archive } => run_export(alloc, archive, folder, out),
        Command::Import { text, new } => run_import(alloc, text, new, folder),
        Command::Cut {
            archive,
            new,
            first,
            last,
        } => run_cut(alloc, archive, new, first, last, folder),
        Command::Join { one, two, new } => run_join(alloc, one, two, new, folder),
        Command::Table {
            csv,
            tag,
            keys,
            doc,
        } => run_table(alloc, csv, tag, keys, doc, folder),
        Command::TableKeys { tag, keys, spec } => run_tablekeys(alloc, tag, keys, spec, folder),
        Command::Demo {
            seed,
            count,
            archive,
        } => run_demo(alloc, seed, count, archive, folder, out),
        Command::Batch => unreachable!(),
    }
}

/// Says how a command ended, and answers its status.
fn finish<E: Sink>(ended: &Result<(), Fault>, err: &mut E) -> u8
    ensures status { result ≡ status_after (fault_of ended.now) }
    ensures line { Says (E.taken err.old) (E.taken err.new) (E.faults err.old) (E.faults err.new)
        (line_after (fault_of ended.now)) }
    ensures later { E.faults err.old ≤ E.faults err.new }
{
    match ended {
        Ok(()) => 0,
        Err(fault) => {
            let _ = write_fault(fault, err);
            status(fault)
        }
    }
}
