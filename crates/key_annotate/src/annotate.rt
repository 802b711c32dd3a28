#![tactic(auto, using(jsonml_tree::proofs::Trees::trees, keyed_tree::proofs::Views::views, crate::proofs::LentViews::lent_views))]

ghost use Rattle.std.specs.Prelude.{◌≡◌, [], Some, IfOk, IfErr, IfSome};
ghost use Rattle.jsonml_tree.specs.Data.{PlainTree};
ghost use Rattle.jsonml_tree.specs.Fits.{IsElement, ItemsFit};
ghost use Rattle.jsonml_tree.specs.WellFormed.{IsWellFormed};
ghost use Rattle.jsonml_tree.specs.LentView.{lent_tree_view};
ghost use Rattle.jsonml_tree.specs.View.{tree_view};
ghost use Rattle.keyed_tree.specs.View.{keyed_view};
ghost use Rattle.key_spec.specs.View.{spec_view};
ghost use Rattle.key_rules.specs.Faults.{first_fault};
ghost use Rattle.key_annotate.specs.Laws.{KeyedLaws};
ghost use Rattle.key_annotate.specs.LentView.{lent_view};
ghost use Rattle.key_annotate.specs.Stands.{Stands};
ghost use Rattle.key_annotate.specs.View.{key_fault};

use crate::build::build;
use crate::fault::AnnotateFault;
use crate::lent::LentKeyed;
use jsonml_tree::{LentTree, Tree};
use key_rules::first_lent_fault;
use key_spec::Spec;
use keyed_tree::Keyed;
use std::alloc::Global;

/// The keyed tree of a document, or its first key fault.
///
/// It is a copy of what `lent_keyed` gives, and recurses as deep as elements nest.
pub fn keyed(alloc: Global, spec: &Spec, doc: &Tree) -> Result<Keyed, AnnotateFault>
    requires element { IsElement (tree_view doc.now) }
    requires items_fit { ItemsFit (tree_view doc.now) }
    requires well_formed { IsWellFormed (tree_view doc.now) }
    ensures stands { IfOk result
        (λ k. Stands (spec_view spec.now) (tree_view doc.now) (keyed_view k)) }
    ensures key { IfErr result
        (λ e. IfSome (key_fault e)
        (λ f. first_fault (spec_view spec.now) (tree_view doc.now) ≡ Some f)) }
    ensures laws { KeyedLaws (spec_view spec.now) (tree_view doc.now) }
{
    let lent = LentTree::lend(alloc, doc)?;
    own_keyed(alloc, spec, &lent)
}

/// The keyed tree of a lent document as a value of its own, or its first key fault.
fn own_keyed(alloc: Global, spec: &Spec, doc: &LentTree<'_>) -> Result<Keyed, AnnotateFault>
    requires element { IsElement (lent_tree_view doc.now) }
    requires items_fit { ItemsFit (lent_tree_view doc.now) }
    requires well_formed { IsWellFormed (lent_tree_view doc.now) }
    ensures stands { IfOk result
        (λ k. Stands (spec_view spec.now) (lent_tree_view doc.now) (keyed_view k)) }
    ensures key { IfErr result
        (λ e. IfSome (key_fault e)
        (λ f. first_fault (spec_view spec.now) (lent_tree_view doc.now) ≡ Some f)) }
{
    let tree = lent_keyed(alloc, spec, doc)?;
    Ok(tree.own(alloc)?)
}

/// The keyed tree of a document, lent by the document, or its first key fault.
///
/// It is built in one pass, which looks each rule up once and reads each label once, copies nothing of the document, and
/// sorts the kids of each node once; the first fault is looked for only where that pass meets one.
/// Recursion is as deep as elements nest.
#[tactic(auto, using(crate::proofs::Documents::documents))]
pub fn lent_keyed<'a, 't>(
    alloc: Global,
    spec: &'a Spec,
    doc: &'a LentTree<'t>,
) -> Result<LentKeyed<'a, 't>, AnnotateFault>
    requires element { IsElement (lent_tree_view doc.now) }
    requires items_fit { ItemsFit (lent_tree_view doc.now) }
    requires well_formed { IsWellFormed (lent_tree_view doc.now) }
    ensures stands { IfOk result
        (λ k. Stands (spec_view spec.now) (lent_tree_view doc.now) (lent_view k)) }
    ensures key { IfErr result
        (λ e. IfSome (key_fault e)
        (λ f. first_fault (spec_view spec.now) (lent_tree_view doc.now) ≡ Some f)) }
    ensures laws { KeyedLaws (spec_view spec.now) (lent_tree_view doc.now) }
{
    if let Some(tree) = build(alloc, spec.root(), doc)? {
        return Ok(tree);
    }
    match first_lent_fault(alloc, spec, doc)? {
        Some(fault) => Err(AnnotateFault::Key(fault)),
        None => unreachable!(),
    }
}

/// The laws of all documents under a specification, for proofs. It does nothing.
pub fn keyed_laws(spec: &Spec)
    ensures { (t : PlainTree) → IsElement t → IsWellFormed t → KeyedLaws (spec_view spec.now) t }
{}
