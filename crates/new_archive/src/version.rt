// An archive with one more version.
ghost use Rattle.std.specs.Prelude.{◌≡◌, ◌+◌, ◌<◌, ◌++◌, List, [], ◌∷◌, IfOk};
ghost use Rattle.keyed_tree.specs.Data.{PlainKeyed};
ghost use Rattle.keyed_tree.specs.Kids.{IsOrdered};
ghost use Rattle.keyed_tree.specs.Proper.{IsElement};
ghost use Rattle.key_annotate.specs.LentView.{lent_view};
ghost use Rattle.archive_tree.specs.Stands.{ArchiveOf};
ghost use Rattle.nested_merge.specs.Alike.{AlikeAll};
ghost use Rattle.nested_merge.specs.Merged.{with_version};
ghost use Rattle.new_archive.specs.ArchiveView.{new_archive_view};

use crate::node::NewArchive;
use crate::row::merge_kids;
use archive_tree::archives_stand_for_one_list;
use key_annotate::LentKeyed;
use keyed_parts::Kids;
use std::alloc::{AllocError, Global};

/// The archive of the old versions followed by the new one, which a document lends. Where memory
/// runs out, the archive is given up.
///
/// Each node of the version is looked up by halving among the nodes beside it, and nodes that the
/// version does not have are not touched. Nodes that are not there yet take their places in a row
/// all at once: those behind the first of them move once. It recurses as deep as nodes nest. Only
/// what is new is copied, and contents that are looked up in a map.
pub fn merge_lent(
    alloc: Global,
    old: NewArchive,
    new: &LentKeyed<'_, '_>,
) -> Result<NewArchive, AllocError>
    requires room { (new_archive_view old).n < 4294967295 }
    requires element { IsElement (lent_view new.now) }
    requires ordered { IsOrdered (lent_view new.now) }
    requires alike { (vs : List PlainKeyed) → ArchiveOf vs (new_archive_view old)
        → AlikeAll vs (lent_view new.now) }
    ensures archive { IfOk result (λ a. (vs : List PlainKeyed)
        → ArchiveOf vs (new_archive_view old)
        → ArchiveOf (vs ++ lent_view new.now ∷ []) (new_archive_view a)) }
    ensures merged { IfOk result (λ a. new_archive_view a
        ≡ with_version (new_archive_view old) (lent_view new.now)) }
    ensures count { IfOk result
        (λ a. (new_archive_view a).n ≡ (new_archive_view old).n + 1) }
{
    // A law, for the proof of what `merge_kids` requires.
    archives_stand_for_one_list();
    let (n, kids) = old.into_parts();
    let mut kids = kids;
    merge_kids(alloc, n + 1, &mut kids, Kids::only(new))?;
    Ok(NewArchive::new(n + 1, kids))
}
