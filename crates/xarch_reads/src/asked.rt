// What is asked of an archive by a path.
#![tactic(auto, using(xarch_parts::specs::EndLaws::endings), unfolding(xarch_parts::specs::Ends::IsInside, xarch_parts::specs::Ends::IsDefined, xarch_meanings::specs::History::labels_of))]

ghost use Rattle.std.specs.Prelude.{◌≡◌, ◌≤◌, ◌+◌, Some, IfOk, map};
ghost use Rattle.xa_outside.specs.Folder.{Files};
ghost use Rattle.xa_outside.specs.Numbers.{PullsAtMost};
ghost use Rattle.key_spec.specs.View.{spec_view};
ghost use Rattle.keyed_tree.specs.View.{label_view};
ghost use Rattle.record_cursor.specs.View.{header_view, IsHeader};
ghost use Rattle.noted_file.specs.Contents.{Contents};
ghost use Rattle.xarch_parts.specs.Archives.{ArchiveIs, IsFrontOf};
ghost use Rattle.xarch_parts.specs.Ends.{IsInside, Matches, fault_of};
ghost use Rattle.xarch_parts.specs.Folders.{ReadsOnly};
ghost use Rattle.xarch_parts.specs.Inputs.{size_in};
ghost use Rattle.xarch_meanings.specs.History.{front_size, history_input, labels_of};
ghost use Rattle.xarch_reads.specs.Searched.{asked_view};

use crate::fronts::front_of;
use key_rules::{PathFault, read_path};
use key_spec::Spec;
use keyed_tree::Label;
use record_cursor::Header;
use std::alloc::Global;
use xa_outside::Folder;
use xarch_words::Fault;

/// A path that is searched for in the archive of this name, which has this header.
#[derive(Clone, Copy)]
pub(crate) struct Search<'a> {
    pub(crate) archive: &'a str,
    pub(crate) header: &'a Header,
    pub(crate) path: &'a [Label],
}

/// The header of the archive, and the labels that the path spells under its rules.
pub(crate) fn read_asked<F: Folder>(
    alloc: Global,
    archive: &str,
    path: &str,
    folder: &mut F,
) -> Result<(Header, Vec<Label>), Fault>
    ensures header { IfOk result (λ r. IsHeader (header_view r.0)) }
    ensures reads { ReadsOnly F.files F.draft F.numbers F.faults
        (16 + size_in (F.files folder.old) archive.now)
        folder.old folder.new (fault_of result) }
    ensures told { (files : Files) → F.files folder.old ≡ Some files
        → Matches (λ r. asked_view r.0 r.1.items) (history_input files archive.now path.now)
        result }
    ensures front { (files : Files) → F.files folder.old ≡ Some files
        → IfOk result (λ r. IsFrontOf files archive.now (header_view r.0)) }
    ensures once { IfOk result (λ r.
        ((header_view r.0).length ≤ size_in (F.files folder.old) archive.now)
        × PullsAtMost (16 + (header_view r.0).first)
        (F.numbers folder.old) (F.numbers folder.new)) }
    ensures few { (files : Files) (c : Contents)
        → F.files folder.old ≡ Some files → ArchiveIs files archive.now c
        → PullsAtMost (16 + front_size c.rules c.versions)
        (F.numbers folder.old) (F.numbers folder.new) }
{
    let front = front_of(alloc, archive, folder)?;
    let labels = labels_from(alloc, &front.header.spec, path)?;
    Ok((front.header, labels))
}

fn labels_from(alloc: Global, spec: &Spec, path: &str) -> Result<Vec<Label>, Fault>
    ensures cause { IsInside (fault_of result) }
    ensures told { Matches (λ ls. map label_view ls.items)
        (labels_of (spec_view spec.now) path.now) result }
{
    match read_path(alloc, spec, path) {
        Ok(labels) => Ok(labels),
        Err(PathFault::Bad { step }) => Err(Fault::BadPath { step }),
        Err(PathFault::Memory) => Err(Fault::Memory),
    }
}
