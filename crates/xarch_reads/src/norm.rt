#![tactic(auto)]

ghost use Rattle.std.specs.Prelude.{◌≡◌, ◌+◌, ◌≤◌, ℕ, Some, IfOk, Result, length, vec_len};
ghost use Rattle.xa_outside.specs.Folder.{Files};
ghost use Rattle.jsonml_tree.specs.Fits.{IsElement, ItemsFit};
ghost use Rattle.jsonml_tree.specs.LentView.{lent_tree_view};
ghost use Rattle.jsonml_tree.specs.WellFormed.{IsWellFormed};
ghost use Rattle.key_spec.specs.View.{spec_view};
ghost use Rattle.xarch_words.specs.Commands.{norm};
ghost use Rattle.xarch_words.specs.declared.limits.TheConstants.{DOCUMENT, SPECIFICATION};
ghost use Rattle.xarch_parts.specs.Ends.{IsCaused, Matches, fault_of};
ghost use Rattle.xarch_parts.specs.Folders.{ReadsOnly};
ghost use Rattle.xarch_meanings.specs.Norm.{norm_from, norm_input, norm_of_tree};
ghost use Rattle.xarch_parts.specs.Allowed.{MayEnd};
ghost use Rattle.xarch_meanings.specs.Performs.{Performs};

use jsonml_tree::LentTree;
use key_spec::Spec;
use std::alloc::Global;
use xa_outside::{Folder, Sink};
use xarch_parts::{doc_from, keyed_from, limited_length, read_spec, read_whole, write_keyed};
use xarch_words::{Fault, Quantity, limits};

/// Writes a document in the order of its keys.
pub fn run_norm<F: Folder, O: Sink>(
    alloc: Global,
    spec: &str,
    doc: &str,
    folder: &mut F,
    out: &mut O,
) -> Result<(), Fault>
    ensures { Performs F.files F.draft F.numbers F.faults (norm spec.now doc.now)
        folder.old folder.new (O.taken out.old) (O.taken out.new)
        (O.faults out.old) (O.faults out.new) (fault_of result) }
{
    let (spec, bytes) = read_both(alloc, spec, doc, folder)?;
    write_ordered(alloc, &spec, &bytes, out)
}

// The specification, and the bytes of the document. Both lengths are judged before either is read.
fn read_both<F: Folder>(
    alloc: Global,
    spec: &str,
    doc: &str,
    folder: &mut F,
) -> Result<(Spec, Vec<u8>), Fault>
    ensures reads { ReadsOnly F.files F.draft F.numbers F.faults (SPECIFICATION + DOCUMENT)
        folder.old folder.new (fault_of result) }
    ensures short { IfOk result (λ r. vec_len r.1 ≤ DOCUMENT) }
    ensures told { (files : Files) → F.files folder.old ≡ Some files
        → Matches (λ r. (spec_view r.0, r.1.items)) (norm_input files spec.now doc.now) result }
{
    let spec_length = limited_length(
        alloc,
        folder,
        spec,
        Quantity::Specification,
        limits::SPECIFICATION,
    )?;
    let doc_length = limited_length(alloc, folder, doc, Quantity::Document, limits::DOCUMENT)?;
    let spec = read_spec(alloc, folder, spec, spec_length)?;
    let bytes = read_whole(alloc, folder, doc, doc_length)?;
    Ok((spec, bytes))
}

// Writes the document that these bytes spell in the order of its keys.
fn write_ordered<O: Sink>(
    alloc: Global,
    spec: &Spec,
    bytes: &[u8],
    out: &mut O,
) -> Result<(), Fault>
    requires { length bytes.now ≤ DOCUMENT }
    ensures caused { (before now : ℕ) → before ≤ now
        → IsCaused before now (O.faults out.old) (O.faults out.new) (fault_of result) }
    ensures may { (files : Files) → MayEnd (λ r. r ≡ norm_from files (spec_view spec.now) bytes.now)
        (fault_of result) (Some files) (O.taken out.old) (O.taken out.new) }
{
    let doc = doc_from(alloc, bytes)?;
    write_tree(alloc, spec, &doc, out)
}

fn write_tree<O: Sink>(
    alloc: Global,
    spec: &Spec,
    doc: &LentTree<'_>,
    out: &mut O,
) -> Result<(), Fault>
    requires element { IsElement (lent_tree_view doc.now) }
    requires items_fit { ItemsFit (lent_tree_view doc.now) }
    requires well_formed { IsWellFormed (lent_tree_view doc.now) }
    ensures caused { (before now : ℕ) → before ≤ now
        → IsCaused before now (O.faults out.old) (O.faults out.new) (fault_of result) }
    ensures may { (files : Files)
        → MayEnd (λ r. r ≡ norm_of_tree files (spec_view spec.now) (lent_tree_view doc.now))
        (fault_of result) (Some files) (O.taken out.old) (O.taken out.new) }
{
    match keyed_from(alloc, spec, doc) {
        Ok(keyed) => write_keyed(&keyed, out),
        Err(fault) => Err(fault),
    }
}
