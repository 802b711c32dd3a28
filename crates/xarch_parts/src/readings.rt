#![tactic(auto, using(crate::specs::EndLaws::endings), unfolding(crate::specs::Ends::IsInside, crate::specs::Ends::IsDefined, crate::specs::Readings::rules_of, crate::specs::Readings::document_of, crate::specs::Readings::keyed_of))]

ghost use Rattle.std.specs.Prelude.{◌≡◌, ◌≤◌, Some, Ok, IfOk, length};
ghost use Rattle.xa_outside.specs.Folder.{Files};
ghost use Rattle.jsonml_text.specs.Texts.{AreTexts};
ghost use Rattle.jsonml_tree.specs.Data.{tree_depth};
ghost use Rattle.jsonml_tree.specs.Fits.{IsElement, ItemsFit};
ghost use Rattle.jsonml_tree.specs.LentView.{lent_tree_view};
ghost use Rattle.jsonml_tree.specs.WellFormed.{IsWellFormed};
ghost use Rattle.jsonml_tree.specs.declared.limits.TheConstants.{GREATEST_DEPTH};
ghost use Rattle.key_annotate.specs.LentView.{lent_view};
ghost use Rattle.key_annotate.specs.Stands.{Stands};
ghost use Rattle.key_spec.specs.View.{spec_view};
ghost use Rattle.xarch_words.specs.declared.limits.TheConstants.{DOCUMENT, SPECIFICATION};
ghost use Rattle.xarch_parts.specs.Ends.{IsInside, Matches, fault_of};
ghost use Rattle.xarch_parts.specs.Folders.{ReadsOnly};
ghost use Rattle.xarch_parts.specs.Inputs.{file_length, read_in};
ghost use Rattle.xarch_parts.specs.Readings.{document_of, keyed_of, rules_of};

use crate::inputs::read_whole;
use jsonml_text::{DocFault, lend_document};
use jsonml_tree::{GREATEST_DEPTH, LentTree};
use key_annotate::{AnnotateFault, LentKeyed, lent_keyed};
use key_spec::{Spec, SpecFault};
use std::alloc::Global;
use xa_outside::Folder;
use xarch_words::{Fault, Quantity};

/// The specification in a file of this length.
#[tactic(auto, using(crate::specs::EndLaws::endings))]
pub fn read_spec<F: Folder>(
    alloc: Global,
    folder: &mut F,
    name: &str,
    length: u64,
) -> Result<Spec, Fault>
    requires { length ≤ SPECIFICATION }
    ensures reads { ReadsOnly F.files F.draft F.numbers F.faults length folder.old folder.new
        (fault_of result) }
    ensures told { (files : Files) → F.files folder.old ≡ Some files
        → file_length files name.now ≡ Ok length
        → Matches spec_view (read_in files name.now rules_of) result }
{
    let bytes = read_whole(alloc, folder, name, length)?;
    spec_from(alloc, &bytes)
}

fn spec_from(alloc: Global, bytes: &[u8]) -> Result<Spec, Fault>
    requires { length bytes.now ≤ SPECIFICATION }
    ensures cause { IsInside (fault_of result) }
    ensures told { Matches spec_view (rules_of bytes.now) result }
{
    match Spec::parse(alloc, bytes) {
        Ok(spec) => Ok(spec),
        Err(SpecFault::Bad { line, why }) => Err(Fault::BadSpec { line, why }),
        Err(SpecFault::Memory) => Err(Fault::Memory),
    }
}

/// The document that some bytes spell. They lend its texts.
pub fn doc_from<'a>(alloc: Global, bytes: &'a [u8]) -> Result<LentTree<'a>, Fault>
    requires { length bytes.now ≤ DOCUMENT }
    ensures cause { IsInside (fault_of result) }
    ensures told { Matches lent_tree_view (document_of bytes.now) result }
    ensures element { IfOk result (λ t. IsElement (lent_tree_view t)) }
    ensures items_fit { IfOk result (λ t. ItemsFit (lent_tree_view t)) }
    ensures well_formed { IfOk result (λ t. IsWellFormed (lent_tree_view t)) }
    ensures shallow { IfOk result (λ t. tree_depth (lent_tree_view t) ≤ GREATEST_DEPTH) }
    ensures texts { IfOk result (λ t. AreTexts (lent_tree_view t)) }
{
    match lend_document(alloc, bytes) {
        Ok(tree) => Ok(tree),
        Err(DocFault::BadJson) => Err(Fault::BadJson),
        Err(DocFault::BadShape { place, why }) => Err(Fault::BadShape { place, why }),
        Err(DocFault::TooDeep { .. }) => Err(Fault::Limit {
            quantity: Quantity::Depth,
            number: u64::from(GREATEST_DEPTH),
        }),
        Err(DocFault::Memory) => Err(Fault::Memory),
    }
}

/// The keyed tree of a document that satisfies the keys.
pub fn keyed_from<'a, 'b>(
    alloc: Global,
    spec: &'a Spec,
    doc: &'a LentTree<'b>,
) -> Result<LentKeyed<'a, 'b>, Fault>
    requires element { IsElement (lent_tree_view doc.now) }
    requires items_fit { ItemsFit (lent_tree_view doc.now) }
    requires well_formed { IsWellFormed (lent_tree_view doc.now) }
    ensures cause { IsInside (fault_of result) }
    ensures told { Matches lent_view
        (keyed_of (spec_view spec.now) (lent_tree_view doc.now)) result }
    ensures stands { IfOk result
        (λ k. Stands (spec_view spec.now) (lent_tree_view doc.now) (lent_view k)) }
{
    match lent_keyed(alloc, spec, doc) {
        Ok(keyed) => Ok(keyed),
        Err(AnnotateFault::Key(fault)) => Err(Fault::KeyFault(fault)),
        Err(AnnotateFault::Memory) => Err(Fault::Memory),
    }
}
