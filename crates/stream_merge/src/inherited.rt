// The sets that nodes inherit, before the new version and with it.
ghost use Rattle.std.specs.Prelude.{◌≡◌, ◌≢◌, ◌≤◌, length, IfOk, IfErr, IsTrue};
ghost use Rattle.archive_tree.specs.View.{stamp_view};
ghost use Rattle.version_set.specs.View.{pairs_of};
ghost use Rattle.nested_merge.specs.Below.{is_stamp_below};
ghost use Rattle.nested_merge.specs.Merged.{grown, kept, started};
ghost use Rattle.record_parts.specs.Spelling.{stamp_bytes};
ghost use Rattle.record_parts.specs.ShownViews.{shown_stamp};
ghost use Rattle.stream_merge.specs.Beside.{inherited_with};
ghost use Rattle.stream_merge.specs.Meets.{turned};
ghost use Rattle.stream_merge.specs.View.{inherited_view, own_view};
ghost use Rattle.stream_merge.specs.declared.fault.MergeFault.TheVariants.{Damage, Folder, TooLong};

use crate::fault::MergeFault;
use archive_tree::effective;
use record_format::StampView;
use std::alloc::Global;
use version_set::VersionSet;

/// What the kids of a node inherit: its set before the new version, and with it.
#[derive(Drop)]
pub(crate) struct Inherited {
    pub(crate) alloc: Global,
    /// The number of the new version.
    pub(crate) number: u32,
    pub(crate) before: VersionSet,
    pub(crate) now: VersionSet,
}

/// What the kids of a node inherit: what the node inherited itself, or sets of its own.
#[derive(Drop)]
pub(crate) enum Own<'p> {
    Same(&'p Inherited),
    New(Inherited),
}

impl Own<'_> {
    pub(crate) fn get(&self) -> &Inherited
        ensures { inherited_view result.now ≡ own_view self.now }
    {
        match self {
            Own::Same(from) => from,
            Own::New(own) => own,
        }
    }
}

/// The stamp that a node of the archive gets under a parent that the new version has, and what its
/// kids inherit then. A stored number that is not below the new one is damage.
///
/// No set is copied where the version has the node too and its stamp is inherited.
pub(crate) fn turned_node<'p>(
    stamp: &StampView<'_>,
    has: bool,
    from: &'p Inherited,
) -> Result<(Option<VersionSet>, Own<'p>), MergeFault>
    ensures stamp { IfOk result (λ r. stamp_view r.0
        ≡ turned (inherited_view from.entry.now).number
        (inherited_view from.entry.now).before has (shown_stamp stamp.entry.now)) }
    ensures own { IfOk result (λ r. own_view r.1
        ≡ inherited_with (inherited_view from.entry.now) has (shown_stamp stamp.entry.now)) }
    ensures no_shorter { IfOk result (λ r. length (stamp_bytes (shown_stamp stamp.entry.now))
        ≤ length (stamp_bytes (stamp_view r.0))) }
    ensures inside { IfErr result (λ e. (e ≢ Folder) × (e ≢ TooLong)) }
    ensures damage { IsTrue (is_stamp_below (inherited_view from.entry.now).number
        (shown_stamp stamp.entry.now)) → IfErr result (λ e. e ≢ Damage) }
{
    if has && !stamp.is_stored() {
        return Ok((None, Own::Same(from)));
    }
    let stored = stamp.copy(from.alloc)?;
    let before = effective(&stored, &from.before).copy()?;
    let turned = turn(stored, has, from)?;
    let now = effective(&turned, &from.now).copy()?;
    let own = Inherited {
        alloc: from.alloc,
        number: from.number,
        before,
        now,
    };
    Ok((turned, Own::New(own)))
}

/// The stamp that an alternative of the archive gets in a leaf that the new version has: with the
/// new version where that has its body, and else stored. A stored number that is not below the new
/// one is damage.
pub(crate) fn turned_stamp(
    stamp: &StampView<'_>,
    has: bool,
    from: &Inherited,
) -> Result<Option<VersionSet>, MergeFault>
    ensures stamp { IfOk result (λ s. stamp_view s
        ≡ turned (inherited_view from.entry.now).number
        (inherited_view from.entry.now).before has (shown_stamp stamp.entry.now)) }
    ensures no_shorter { IfOk result (λ s. length (stamp_bytes (shown_stamp stamp.entry.now))
        ≤ length (stamp_bytes (stamp_view s))) }
    ensures inside { IfErr result (λ e. (e ≢ Folder) × (e ≢ TooLong)) }
    ensures damage { IsTrue (is_stamp_below (inherited_view from.entry.now).number
        (shown_stamp stamp.entry.now)) → IfErr result (λ e. e ≢ Damage) }
{
    let stored = stamp.copy(from.alloc)?;
    turn(stored, has, from)
}

// The stamp under a parent that the new version has: with the version where that has what is
// stamped, and else stored.
fn turn(
    stored: Option<VersionSet>,
    has: bool,
    from: &Inherited,
) -> Result<Option<VersionSet>, MergeFault>
    ensures turned { IfOk result (λ s. stamp_view s
        ≡ turned (inherited_view from.entry.now).number
        (inherited_view from.entry.now).before has (stamp_view stored)) }
    ensures no_shorter { IfOk result (λ s.
        length (stamp_bytes (stamp_view stored)) ≤ length (stamp_bytes (stamp_view s))) }
    ensures inside { IfErr result (λ e. (e ≢ Folder) × (e ≢ TooLong)) }
    ensures damage { IsTrue (is_stamp_below (inherited_view from.entry.now).number
        (stamp_view stored)) → IfErr result (λ e. e ≢ Damage) }
{
    if has {
        grown_stamp(stored, from.number)
    } else {
        kept_stamp(stored, &from.before)
    }
}

// The stamp of what the new version does not have, under a parent whose set was this.
fn kept_stamp(
    stored: Option<VersionSet>,
    before: &VersionSet,
) -> Result<Option<VersionSet>, MergeFault>
    ensures kept { IfOk result (λ s.
        stamp_view s ≡ kept (pairs_of before.now) (stamp_view stored)) }
    ensures inside { IfErr result (λ e. e ≡ MergeFault.Memory) }
{
    match stored {
        Some(set) => Ok(Some(set)),
        None => Ok(Some(before.copy()?)),
    }
}

// The stamp of what the new version has too.
fn grown_stamp(stored: Option<VersionSet>, number: u32) -> Result<Option<VersionSet>, MergeFault>
    ensures grown { IfOk result (λ s. stamp_view s ≡ grown number (stamp_view stored)) }
    ensures no_shorter { IfOk result (λ s.
        length (stamp_bytes (stamp_view stored)) ≤ length (stamp_bytes (stamp_view s))) }
    ensures inside { IfErr result (λ e. (e ≢ Folder) × (e ≢ TooLong)) }
    ensures damage { IsTrue (is_stamp_below number (stamp_view stored))
        → IfErr result (λ e. e ≢ Damage) }
{
    match stored {
        Some(mut set) => {
            if set.last() >= number {
                return Err(MergeFault::Damage);
            }
            set.reserve_one()?;
            set.add_last(number);
            Ok(Some(set))
        }
        None => Ok(None),
    }
}

/// The stamp of what begins with the new version, under a parent whose set was this.
pub(crate) fn started_stamp(alloc: Global, number: u32, before: &VersionSet) -> Option<VersionSet>
    requires { 1 ≤ number }
    ensures { stamp_view result ≡ started number (pairs_of before.now) }
{
    if before.pairs().is_empty() {
        None
    } else {
        Some(VersionSet::single(alloc, number))
    }
}
