use given_parts::documents::{is_read, read};
use given_parts::told;
use jsonml_tree::Tree;
use key_spec::Spec;
use std::alloc::Global;
use std::test::Fail;
use xarch_gen::{company_spec, sample};

const COMPANY_TEXT: &str = "(/, (db, {}))
(/db, (dept, {name}))
(/db/dept, (emp, {fn, ln}))
(/db/dept, (name, {}))
(/db/dept/emp, (fn, {}))
(/db/dept/emp, (ln, {}))
(/db/dept/emp, (sal, {}))
(/db/dept/emp, (tel, {.}))
";

fn items(tree: &Tree) -> &[Tree] {
    match tree {
        Tree::Text(_) => &[],
        Tree::Elem { content, .. } => &content.items,
    }
}

/// The employee of this first name in the first department of a document, if it is there.
fn employee<'a>(document: &'a Tree, first_name: &Tree) -> Option<&'a Tree> {
    let department = items(document).first()?;
    for item in items(department) {
        if let Some(name) = items(item).first() {
            if name.same(first_name) {
                return Some(item);
            }
        }
    }
    None
}

/// The first employee of the first department.
enum First {
    Is(&'static [u8]),
    /// Whoever it is.
    IsThere,
    IsAbsent,
}

/// A document of seed 0, and its first employee.
const EMPLOYEES: &[(&str, u32, First)] = &[
    (
        "document 1",
        1,
        First::Is(br#"["emp",["fn","F0"],["ln","L0"],["sal","47K"],["tel","5550000"]]"#),
    ),
    ("document 4", 4, First::IsAbsent),
    ("document 5", 5, First::IsThere),
    ("document 12", 12, First::IsAbsent),
    (
        "document 13",
        13,
        First::Is(br#"["emp",["fn","F0"],["ln","L0"],["sal","48K"],["tel","5550000"]]"#),
    ),
];

/// The first employee, if there is one.
fn first_employee<'a>(alloc: Global, tree: &'a Tree) -> Option<&'a Tree> {
    match read(alloc, br#"["fn","F0"]"#) {
        Some(first_name) => employee(tree, &first_name),
        None => None,
    }
}

/// Whether this is the first employee of a document.
fn is_first(alloc: Global, tree: &Tree, wanted: &First) -> bool {
    match (first_employee(alloc, tree), wanted) {
        (Some(found), First::Is(text)) => is_read(alloc, found, text),
        (Some(_), First::IsThere) => true,
        (None, First::IsAbsent) => true,
        _ => false,
    }
}

fn sampled(alloc: Global, document: u32) -> Option<Tree> {
    if document < 1 || document > 1000 {
        return None;
    }
    sample(alloc, 0, document).ok()
}

fn is_employee(alloc: Global, document: u32, wanted: &First) -> bool {
    match sampled(alloc, document) {
        Some(tree) => is_first(alloc, &tree, wanted),
        None => false,
    }
}

#[test]
fn a_salary_rises_and_an_employee_is_absent_from_each_eighth_document(
    rt: HostRuntime,
) -> Result<(), Fail> {
    for (name, document, wanted) in EMPLOYEES {
        told(is_employee(rt.alloc(), *document, wanted), name)?;
    }
    Ok(())
}

fn has_text(alloc: Global, spec: &Spec, wanted: &str) -> bool {
    match spec.text(alloc) {
        Ok(text) => text.as_str() == wanted,
        Err(_) => false,
    }
}

fn is_company_text(alloc: Global, wanted: &str) -> bool {
    match company_spec(alloc) {
        Ok(spec) => has_text(alloc, &spec, wanted),
        Err(_) => false,
    }
}

#[test]
fn the_company_specification_has_its_canonical_text(rt: HostRuntime) {
    assert!(rt; COMPANY_TEXT.len() == 190 && is_company_text(rt.alloc(), COMPANY_TEXT));
}
