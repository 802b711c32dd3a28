// The documents of the generator.
ghost use Rattle.std.specs.Prelude.{◌≡◌, ◌<◌, ◌≤◌, IfOk};
ghost use Rattle.jsonml_tree.specs.Data.{tree_depth};
ghost use Rattle.jsonml_tree.specs.Fits.{IsElement, ItemsFit};
ghost use Rattle.jsonml_tree.specs.View.{tree_view};
ghost use Rattle.jsonml_tree.specs.WellFormed.{IsWellFormed};
ghost use Rattle.jsonml_tree.specs.declared.limits.TheConstants.{GREATEST_DEPTH};
ghost use Rattle.key_rules.specs.Satisfies.{Satisfies};
ghost use Rattle.xarch_gen.specs.Company.{company_rules};
ghost use Rattle.xarch_gen.specs.Sample.{department_of, sample_of};

use crate::elements::{element, field, numbered};
use crate::employee::{draw, employee_of, is_present};
use jsonml_tree::Tree;
use std::alloc::{AllocError, Global};

const DEPARTMENTS: u32 = 4;

/// A department has at most so many employees.
const EMPLOYEES: u32 = 16;

/// The document of this number under a seed.
///
/// It has those of 64 possible employees whose turn it is: each is left out of every eighth document, and earns more every
/// 16 documents.
pub fn sample(alloc: Global, seed: u32, document: u32) -> Result<Tree, AllocError>
    requires first { 1 ≤ document }
    requires last { document ≤ 1000 }
    ensures document { IfOk result (λ t. tree_view t ≡ sample_of seed document) }
    ensures satisfies { IfOk result (λ t. Satisfies company_rules (tree_view t)) }
    ensures element { IfOk result (λ t. IsElement (tree_view t)) }
    ensures items_fit { IfOk result (λ t. ItemsFit (tree_view t)) }
    ensures well_formed { IfOk result (λ t. IsWellFormed (tree_view t)) }
    ensures shallow { IfOk result (λ t. tree_depth (tree_view t) ≤ GREATEST_DEPTH) }
{
    let mut departments = Vec::with_capacity(alloc, DEPARTMENTS as usize)?;
    for department in 0..DEPARTMENTS {
        departments.push(department_of(alloc, seed, document, department)?)?;
    }
    element(alloc, "db", departments)
}

// A department with those of its employees that are in the document.
fn department_of(
    alloc: Global,
    seed: u32,
    document: u32,
    department: u32,
) -> Result<Tree, AllocError>
    requires document { document ≤ 1000 }
    requires department { department < 4 }
    ensures { IfOk result (λ t. tree_view t ≡ department_of seed document department) }
{
    let name = numbered(alloc, "D", department)?;
    let mut items = vec![in alloc; field(alloc, "name", name)?]?;
    for employee in 0..EMPLOYEES {
        let drawn = draw(seed, department, employee);
        if is_present(document, drawn) {
            items.push(employee_of(alloc, document, drawn, department, employee)?)?;
        }
    }
    element(alloc, "dept", items)
}
