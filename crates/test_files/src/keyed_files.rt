ghost use Rattle.std.specs.Prelude.{◌≤◌, IsTrue, IfOk, map};
ghost use Rattle.jsonml_tree.specs.View.{content_view, tree_view};
ghost use Rattle.jsonml_tree.specs.WellFormed.{is_content_well_formed, is_well_formed};
ghost use Rattle.keyed_tree.specs.View.{key_view, label_view};
ghost use Rattle.keyed_tree.specs.WellFormed.{IsKeyWellFormed, IsLabelWellFormed};
ghost use Rattle.archive_tree.specs.WellFormed.{are_alts_well_formed, IsNodeWellFormed, AreNodesWellFormed};
ghost use Rattle.archive_tree.specs.View.{alt_view, node_view, nodes_view};

use archive_file::is_keyed;
use archive_tree::{ANode, Alt, Archive};
use given_parts::shapes::{
    COMPANY, DATABASE, EMPLOYEE, FINANCE, FIRST_NAME, LAST_NAME, NAME, Named, SALARY_90, Shape,
    TELEPHONE, Value, archive_of, label, nodes,
};
use given_parts::told;
use jsonml_tree::{Content, Tree};
use key_spec::Spec;
use keyed_tree::{Body, Label};
use std::alloc::{AllocError, Global};
use std::test::Fail;

const COMPANY_KEYS: &str = "(/, (db, {}))
(/db, (dept, {name}))
(/db/dept, (emp, {fn, ln}))
(/db/dept/emp, (sal, {}))
(/db/dept/emp, (tel, {.}))
";

const STARS: &str = "(/, (db, {}))
(/db, (star, {@id}))
(/db/star, (name, {}))
";

/// Three versions in which the first name changes.
const CHANGING_KEY: Shape = Shape::Inner(
    DATABASE,
    &[],
    &[Shape::Inner(
        FINANCE,
        &[],
        &[
            Shape::Inner(
                EMPLOYEE,
                &[],
                &[
                    Shape::Leaf(
                        Named("fn", &[]),
                        &[],
                        &[
                            (&[(1, 1), (3, 3)], Value::Text("John")),
                            (&[(2, 2)], Value::Text("Jane")),
                        ],
                    ),
                    LAST_NAME,
                    SALARY_90,
                    TELEPHONE,
                ],
            ),
            NAME,
        ],
    )],
);

/// The label of the department has another name than the department.
const OTHER_KEY: Shape = Shape::Inner(
    DATABASE,
    &[],
    &[Shape::Inner(
        Named("dept", &[Value::Text("sales")]),
        &[],
        &[
            Shape::Inner(
                EMPLOYEE,
                &[],
                &[FIRST_NAME, LAST_NAME, SALARY_90, TELEPHONE],
            ),
            NAME,
        ],
    )],
);

const WITHOUT_RULE: Shape = Shape::Inner(
    DATABASE,
    &[],
    &[Shape::Inner(
        FINANCE,
        &[],
        &[
            Shape::Inner(
                EMPLOYEE,
                &[],
                &[
                    FIRST_NAME,
                    LAST_NAME,
                    Shape::Leaf(Named("pay", &[]), &[], &[(&[], Value::Text("90K"))]),
                    TELEPHONE,
                ],
            ),
            NAME,
        ],
    )],
);

const VEGA: Shape = Shape::Leaf(Named("name", &[]), &[], &[(&[], Value::Text("Vega"))]);

/// A specification, nodes, a number of versions, and whether the archive is keyed.
const KEYED: &[(&str, &str, u32, &[Shape], bool)] = &[
    (
        "the company with a salary that returns",
        COMPANY_KEYS,
        3,
        &[COMPANY],
        true,
    ),
    (
        "a key that changes",
        COMPANY_KEYS,
        3,
        &[CHANGING_KEY],
        false,
    ),
    (
        "a label with another key",
        COMPANY_KEYS,
        3,
        &[OTHER_KEY],
        false,
    ),
    (
        "an element without a rule",
        COMPANY_KEYS,
        3,
        &[WITHOUT_RULE],
        false,
    ),
    (
        "an attribute is the key of its element",
        STARS,
        2,
        &[Shape::Inner(
            DATABASE,
            &[],
            &[Shape::Inner(
                Named("star", &[Value::Whole(172)]),
                &[],
                &[
                    Shape::Leaf(Named("@id", &[]), &[], &[(&[], Value::Whole(172))]),
                    VEGA,
                ],
            )],
        )],
        true,
    ),
    (
        "an attribute with another value",
        STARS,
        2,
        &[Shape::Inner(
            DATABASE,
            &[],
            &[Shape::Inner(
                Named("star", &[Value::Whole(172)]),
                &[],
                &[
                    Shape::Leaf(Named("@id", &[]), &[], &[(&[], Value::Whole(173))]),
                    VEGA,
                ],
            )],
        )],
        false,
    ),
    (
        "another attribute",
        STARS,
        2,
        &[Shape::Inner(
            DATABASE,
            &[],
            &[Shape::Inner(
                Named("star", &[Value::Whole(172)]),
                &[],
                &[
                    Shape::Leaf(Named("@hd", &[]), &[], &[(&[], Value::Whole(172))]),
                    VEGA,
                ],
            )],
        )],
        false,
    ),
];

// Whether the archive is keyed, or is not, as it should.
fn is_archive_judged(alloc: Global, spec: &Spec, archive: &Archive, wanted: bool) -> bool {
    match is_keyed(alloc, spec, archive) {
        Ok(found) => found == wanted,
        Err(_) => false,
    }
}

// The same for the archive with these nodes.
fn are_nodes_judged(alloc: Global, spec: &Spec, n: u32, kids: Vec<ANode>, wanted: bool) -> bool
    requires { AreNodesWellFormed (nodes_view kids.items) }
{
    match archive_of(alloc, n, kids) {
        Some(archive) => is_archive_judged(alloc, spec, &archive, wanted),
        None => false,
    }
}

fn spec_of(alloc: Global, text: &str) -> Option<Spec> {
    if text.len() > 1_048_576 {
        return None;
    }
    match Spec::parse(alloc, text.as_bytes()) {
        Ok(spec) => Some(spec),
        Err(_) => None,
    }
}

fn are_judged(alloc: Global, spec: &Spec, n: u32, shapes: &[Shape], wanted: bool) -> bool {
    match nodes(alloc, shapes) {
        Ok(kids) => are_nodes_judged(alloc, spec, n, kids, wanted),
        Err(_) => false,
    }
}

fn is_judged(alloc: Global, spec: &str, n: u32, shapes: &[Shape], wanted: bool) -> bool {
    match spec_of(alloc, spec) {
        Some(spec) => are_judged(alloc, &spec, n, shapes, wanted),
        None => false,
    }
}

#[test]
fn an_archive_is_keyed_or_not(rt: HostRuntime) -> Result<(), Fail> {
    for (name, spec, n, shapes, wanted) in KEYED {
        told(is_judged(rt.alloc(), spec, *n, shapes, *wanted), name)?;
    }
    Ok(())
}

// So many elements, each in the one before it.
#[tactic(auto, using(jsonml_tree::proofs::Trees::trees))]
fn nested(alloc: Global, depth: u32) -> Result<Tree, AllocError>
    ensures { IfOk result (λ t. IsTrue (is_well_formed (tree_view t))) }
{
    let mut tree = Tree::Text(String::from_str(alloc, "end")?);
    for _ in 0..depth {
        tree = around(alloc, tree)?;
    }
    Ok(tree)
}

#[tactic(auto, using(jsonml_tree::proofs::Trees::trees))]
fn around(alloc: Global, tree: Tree) -> Result<Tree, AllocError>
    requires { IsTrue (is_well_formed (tree_view tree)) }
    ensures { IfOk result (λ t. IsTrue (is_well_formed (tree_view t))) }
{
    Ok(Tree::Elem {
        tag: String::from_str(alloc, "in")?,
        content: alone(alloc, tree)?,
    })
}

// The content of one item.
#[tactic(auto, using(jsonml_tree::proofs::Trees::trees))]
fn alone(alloc: Global, item: Tree) -> Result<Content, AllocError>
    requires { IsTrue (is_well_formed (tree_view item)) }
    ensures { IfOk result (λ c. IsTrue (is_content_well_formed (content_view c))) }
{
    Ok(Content {
        attrs: Vec::new(alloc),
        items: vec![in alloc; item]?,
    })
}

#[tactic(auto, using(archive_tree::proofs::NodeViews::nodes))]
fn leaf(label: Label, alts: Vec<Alt>) -> ANode
    requires label { IsLabelWellFormed (label_view label) }
    requires alts { IsTrue (are_alts_well_formed (map alt_view alts.items)) }
    ensures { IsNodeWellFormed (node_view result) }
{
    ANode::Leaf {
        label,
        stamp: None,
        alts,
    }
}

// A leaf with one body in all versions of its parent.
fn constant(alloc: Global, label: Label, body: Body) -> Result<ANode, AllocError>
    requires label { IsLabelWellFormed (label_view label) }
    requires body { IsKeyWellFormed (key_view body) }
    ensures { IfOk result (λ k. IsNodeWellFormed (node_view k)) }
{
    let alt = Alt { stamp: None, body };
    Ok(leaf(label, vec![in alloc; alt]?))
}

// The nodes of a document of that depth, of which all but its root is below the frontier.
#[tactic(auto, using(jsonml_tree::proofs::Trees::trees))]
fn deep_nodes(alloc: Global, depth: u32) -> Result<Vec<ANode>, AllocError>
    requires { 1 ≤ depth }
    ensures { IfOk result (λ v. AreNodesWellFormed (nodes_view v.items)) }
{
    let content = alone(alloc, nested(alloc, depth - 1)?)?;
    let db = constant(alloc, label(alloc, &DATABASE)?, Body::Content(content))?;
    let kids = vec![in alloc; db]?;
    Ok(kids)
}

// Whether such a document is keyed, or is not, as it should.
fn is_depth_judged(alloc: Global, spec: &Spec, depth: u32, wanted: bool) -> bool
    requires { 1 ≤ depth }
{
    match deep_nodes(alloc, depth) {
        Ok(kids) => are_nodes_judged(alloc, spec, 1, kids, wanted),
        Err(_) => false,
    }
}

fn is_level_120_the_deepest(alloc: Global) -> bool {
    match spec_of(alloc, "(/, (db, {}))") {
        Some(spec) => {
            is_depth_judged(alloc, &spec, 120, true) && is_depth_judged(alloc, &spec, 121, false)
        }
        None => false,
    }
}

#[test]
fn level_120_is_the_deepest(rt: HostRuntime) {
    assert!(rt; is_level_120_the_deepest(rt.alloc()));
}
