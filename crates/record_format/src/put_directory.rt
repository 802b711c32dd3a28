// Appending directories.
ghost use Rattle.std.specs.Prelude.{◌≡◌, ◌++◌, ◌<◌, ◌^◌, length, OnOk, map};
ghost use Rattle.std.specs.List.{flat_map};
ghost use Rattle.version_set.specs.View.{pairs_of};
ghost use Rattle.xa_fields.specs.Laws.{Grows};
ghost use Rattle.record_format.specs.View.{entry_view};
ghost use Rattle.record_format.specs.Spelling.{entry_bytes, sets_bytes, dir_bytes};

use crate::rec::Entry;
use std::alloc::AllocError;
use timestamp_tree::put_tree;
use version_set::VersionSet;
use xa_fields::append_u32;

fn spell_entry(entry: &Entry) -> [u8; 24]
    ensures { result ≡ entry_bytes (entry_view entry.now) }
{
    let mut bytes = [0; 24];
    bytes[..8].copy_from_slice(&entry.start.to_be_bytes());
    bytes[8..16].copy_from_slice(&entry.length.to_be_bytes());
    bytes[16..].copy_from_slice(&entry.dir.to_be_bytes());
    bytes
}

#[tactic(auto, using(xa_fields::proofs::Combinators::growth))]
fn put_entry(out: &mut Vec<u8>, entry: &Entry) -> Result<(), AllocError>
    ensures ok { OnOk result (out.new.items
        ≡ out.old.items ++ entry_bytes (entry_view entry.now)) }
    ensures grows { Grows out.old.items out.new.items }
{
    out.extend_from_slice(&spell_entry(entry))
}

/// Appends the entries of kids, and on a refusal some of them.
#[tactic(auto, using(xa_fields::proofs::Combinators::growth))]
pub fn put_entries(out: &mut Vec<u8>, entries: &[Entry]) -> Result<(), AllocError>
    ensures ok { OnOk result (out.new.items
        ≡ out.old.items ++ flat_map entry_bytes (map entry_view entries.now)) }
    ensures grows { Grows out.old.items out.new.items }
{
    for entry in entries {
        put_entry(out, entry)?;
    }
    Ok(())
}

#[tactic(auto, using(xa_fields::proofs::Combinators::growth))]
fn put_sets(out: &mut Vec<u8>, sets: &[&VersionSet]) -> Result<(), AllocError>
    ensures ok { OnOk result (out.new.items
        ≡ out.old.items ++ sets_bytes (map (λ s. pairs_of s.now) sets.now)) }
    ensures grows { Grows out.old.items out.new.items }
{
    if sets.is_empty() {
        return Ok(());
    }
    put_tree(out, sets)
}

/// Appends a directory: the number of children, their entries, and the timestamp tree over their
/// sets where there are any. On a refusal what was there stays.
#[tactic(auto, using(xa_fields::proofs::Combinators::growth))]
pub fn put_directory(
    out: &mut Vec<u8>,
    entries: &[Entry],
    sets: &[&VersionSet],
) -> Result<(), AllocError>
    requires few { length entries.now < 2 ^ 32 }
    requires paired { length sets.now ≡ length entries.now }
    ensures ok { OnOk result (out.new.items ≡ out.old.items ++ dir_bytes (record {
      entries = map entry_view entries.now;
      sets = map (λ s. pairs_of s.now) sets.now;
    })) }
    ensures grows { Grows out.old.items out.new.items }
{
    append_u32(out, entries.len() as u32)?;
    put_entries(out, entries)?;
    put_sets(out, sets)
}
