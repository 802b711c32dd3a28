#![tactic(auto, using(xarch_parts::specs::EndLaws::endings), unfolding(xarch_parts::specs::Ends::IsInside, xarch_parts::specs::Ends::IsDefined))]

ghost use Rattle.std.specs.Prelude.{◌≡◌, ℕ, Some, true, IfOk, MatchResult, OnOk};
ghost use Rattle.std.specs.Str.{bytes_eq};
ghost use Rattle.xa_outside.specs.Taken.{Taken};
ghost use Rattle.key_spec.specs.Canonical.{canonical};
ghost use Rattle.key_spec.specs.View.{spec_view};
ghost use Rattle.record_cursor.specs.View.{header_view, IsHeader};
ghost use Rattle.xarch_words.specs.Commands as command;
ghost use Rattle.xarch_words.specs.Refusal as refusal;
ghost use Rattle.xarch_words.specs.View.{fault_view};
ghost use Rattle.xarch_parts.specs.Archives.{IsRefusal};
ghost use Rattle.xarch_parts.specs.Ends.{IsInside, Matches, fault_of};
ghost use Rattle.xarch_meanings.specs.Meanings.{FillsUp, IsLimited};
ghost use Rattle.xarch_meanings.specs.Join.{are_joinable, join_input};
ghost use Rattle.xarch_meanings.specs.Performs.{Performs};
ghost use Rattle.xarch_copies.specs.Joining.{Assembles, Fronts, GoTogether, IsSize, IsToldAs, Joins, Unjoined, fronts_in};
ghost use Rattle.xa_outside.specs.Folder.{IsBlank};

use crate::notes::append_both;
use archive_join::JoinFault;
use key_spec::Spec;
use noted_file::{full_files_are_read_note_by_note, full_files_have_parts};
use record_cursor::{Cursor, Header};
use record_format::{LONGEST, versions_have_one_file};
use record_parts::MOST_VERSIONS;
use std::alloc::{AllocError, Global};
use xa_outside::Folder;
use xarch_parts::{Front, begin, check_free, commit, damaged, length_of, read_front};
use xarch_words::{Fault, Quantity};

/// Makes an archive of the versions of one archive and behind them those of another, with the notes
/// of both.
///
/// Both have one specification, and may be the same archive. Each is read once, side by side with
/// the other, and what was read is written before the next is read, but for the next node of each
/// and the alternatives of one leaf.
pub fn run_join<F: Folder>(
    alloc: Global,
    one: &str,
    two: &str,
    new: &str,
    folder: &mut F,
) -> Result<(), Fault>
    ensures performs { (t : Taken) (n : ℕ) → Performs F.files F.draft F.numbers F.faults
        (command.join one.now two.now new.now)
        folder.old folder.new t t n n (fault_of result) }
    ensures fills { FillsUp (Some (command.join one.now two.now new.now))
        (F.files folder.old) (F.draft folder.new) (IsLimited (fault_of result)) }
{
    // Laws, for the proof of what may come of it.
    versions_have_one_file();
    full_files_have_parts();
    full_files_are_read_note_by_note();
    begin(folder)?;
    let both = find_archives(alloc, one, two, new, folder)?;
    make_archive(alloc, one, two, new, &both, folder)
}

/// What stands in front of two archives.
#[derive(Drop)]
pub(crate) struct Both {
    pub(crate) one: Front,
    pub(crate) two: Front,
}

// What stands in front of both archives, where the new name is free and they go together.
fn find_archives<F: Folder>(
    alloc: Global,
    one: &str,
    two: &str,
    new: &str,
    folder: &mut F,
) -> Result<Both, Fault>
    ensures { Fronts F.files F.draft F.numbers F.faults one.now two.now
        (λ files. join_input files one.now two.now new.now) folder.old folder.new result }
{
    let size = length_of(alloc, folder, one)?;
    let other = length_of(alloc, folder, two)?;
    check_free(alloc, folder, new)?;
    read_fronts(alloc, one, size, two, other, folder)
}

// What stands in front of both archives, whose files have these sizes, where they go together.
fn read_fronts<F: Folder>(
    alloc: Global,
    one: &str,
    size: u64,
    two: &str,
    other: u64,
    folder: &mut F,
) -> Result<Both, Fault>
    requires first { IsSize (F.files folder.old) one.now size }
    requires second { IsSize (F.files folder.old) two.now other }
    ensures { Fronts F.files F.draft F.numbers F.faults one.now two.now
        (λ files. fronts_in files one.now two.now) folder.old folder.new result }
{
    let first = read_front(alloc, folder, one, size)?;
    let second = read_front(alloc, folder, two, other)?;
    match check_joinable(alloc, one, &first.header, two, &second.header) {
        Ok(()) => Ok(Both {
            one: first,
            two: second,
        }),
        Err(fault) => Err(fault),
    }
}

// Nothing, where both archives have one specification and there is room for the versions of both.
fn check_joinable(
    alloc: Global,
    one: &str,
    first: &Header,
    two: &str,
    second: &Header,
) -> Result<(), Fault>
    requires first { IsHeader (header_view first.now) }
    requires second { IsHeader (header_view second.now) }
    ensures cause { IsInside (fault_of result) }
    ensures told { Matches (λ _. tt) (are_joinable one.now two.now
        ((header_view first.now).rules, (header_view first.now).versions)
        ((header_view second.now).rules, (header_view second.now).versions)) result }
    ensures together { OnOk result (GoTogether (header_view first.now) (header_view second.now)) }
{
    if !are_same(alloc, &first.spec, &second.spec)? {
        return Err(spec_differs(alloc, one, two));
    }
    if first.versions + second.versions > MOST_VERSIONS {
        return Err(Fault::Limit {
            quantity: Quantity::Versions,
            number: u64::from(MOST_VERSIONS),
        });
    }
    Ok(())
}

// Whether the specifications have the same canonical text, and so the same rules.
fn are_same(alloc: Global, one: &Spec, two: &Spec) -> Result<bool, AllocError>
    ensures value { IfOk result (λ same. same
        ≡ bytes_eq (canonical (spec_view one.now)) (canonical (spec_view two.now))) }
    ensures rules { IfOk result (λ same. same ≡ true → spec_view one.now ≡ spec_view two.now) }
{
    let text = one.text(alloc)?;
    let other = two.text(alloc)?;
    Ok(text.as_bytes() == other.as_bytes())
}

// The fault that the archives of these names have different specifications.
fn spec_differs(alloc: Global, one: &str, two: &str) -> Fault
    ensures inside { IsInside (Some (fault_view result)) }
    ensures only { IsRefusal (refusal.spec_differs one.now two.now) (fault_view result) }
{
    match String::from_str(alloc, one) {
        Ok(one) => match String::from_str(alloc, two) {
            Ok(two) => Fault::SpecDiffers { one, two },
            Err(_) => Fault::Memory,
        },
        Err(_) => Fault::Memory,
    }
}

// Makes the new archive: its records, its notes, and then the file is there.
fn make_archive<F: Folder>(
    alloc: Global,
    one: &str,
    two: &str,
    new: &str,
    both: &Both,
    folder: &mut F,
) -> Result<(), Fault>
    requires together { GoTogether (header_view both.now.one.header)
        (header_view both.now.two.header) }
    requires blank { IsBlank (F.draft folder.old) }
    ensures { Assembles F.files F.draft F.numbers F.faults one.now two.now new.now both.now
        folder.old folder.new (fault_of result) }
{
    append_records(alloc, one, &both.one.header, two, &both.two.header, folder)?;
    append_both(alloc, one, &both.one, two, &both.two, folder)?;
    commit(folder, new)
}

// Appends the records of the versions of both archives.
fn append_records<F: Folder>(
    alloc: Global,
    one: &str,
    first: &Header,
    two: &str,
    second: &Header,
    folder: &mut F,
) -> Result<(), Fault>
    requires first { IsHeader (header_view first.now) }
    requires second { IsHeader (header_view second.now) }
    requires together { GoTogether (header_view first.now) (header_view second.now) }
    requires blank { IsBlank (F.draft folder.old) }
    ensures { MatchResult result
        (λ _. Joins F.files F.draft F.numbers F.faults one.now (header_view first.now)
        two.now (header_view second.now) folder.old folder.new)
        (λ f. Unjoined F.files F.draft F.numbers F.faults one.now (header_view first.now)
        two.now (header_view second.now) folder.old folder.new (fault_view f)) }
{
    let Ok(left) = Cursor::start(alloc, one, first) else {
        return Err(Fault::Memory);
    };
    let Ok(right) = Cursor::start(alloc, two, second) else {
        return Err(Fault::Memory);
    };
    match archive_join::join(alloc, folder, first, left, second, right) {
        Ok(()) => Ok(()),
        Err(fault) => Err(told_fault(alloc, one, two, fault)),
    }
}

// What is said of the fault, where it befell the archives of these names.
fn told_fault(alloc: Global, one: &str, two: &str, fault: JoinFault) -> Fault
    ensures { IsToldAs one.now two.now fault (fault_view result) }
{
    match fault {
        JoinFault::Damage { second: false } => damaged(alloc, one),
        JoinFault::Damage { second: true } => damaged(alloc, two),
        JoinFault::TooLong => Fault::Limit {
            quantity: Quantity::Archive,
            number: LONGEST,
        },
        JoinFault::Folder => Fault::FolderFault,
        JoinFault::Memory => Fault::Memory,
    }
}
