//! Nodes, labels and keyed trees that are made of tables.
ghost use Rattle.std.specs.Prelude.{IsTrue, IfOk, map};
ghost use Rattle.keyed_tree.specs.Data.{kids_from};
ghost use Rattle.keyed_tree.specs.View.{key_view, keyed_view, label_view};
ghost use Rattle.keyed_tree.specs.WellFormed.{are_keys_well_formed, IsKeyWellFormed, IsLabelWellFormed, IsKeyedWellFormed, are_kids_well_formed};
ghost use Rattle.archive_tree.specs.WellFormed.{are_alts_well_formed, IsNodeWellFormed, AreNodesWellFormed};
ghost use Rattle.archive_tree.specs.View.{alt_view, node_view, nodes_view};

use archive_tree::{ANode, Alt, Archive};
use jsonml_tree::{Content, Scalar};
use keyed_tree::{Body, KeyVal, Keyed, Label, Name};
use std::alloc::{AllocError, Global};
use version_set::VersionSet;

/// A key value or a body.
pub enum Value {
    /// The content of one text.
    Text(&'static str),
    Whole(u32),
    /// A content without attributes and items.
    Nothing,
}

/// A label: the name, with `@` before that of an attribute, and the key values.
pub struct Named(pub &'static str, pub &'static [Value]);

/// The intervals of a stored set; none where the set is the parent's.
pub type Stamp = &'static [(u32, u32)];

/// A node: its label, its set, and what is below it.
pub enum Shape {
    Inner(Named, Stamp, &'static [Shape]),
    Leaf(Named, Stamp, &'static [(Stamp, Value)]),
}

pub fn body(alloc: Global, value: &Value) -> Result<Body, AllocError>
    ensures { IfOk result (λ b. IsKeyWellFormed (key_view b)) }
{
    match value {
        Value::Text(text) => Ok(Body::Content(Content::of_text(alloc, text)?)),
        Value::Whole(number) => Ok(Body::Scalar(Scalar::Whole(*number as i128))),
        Value::Nothing => Ok(Body::Content(Content {
            attrs: Vec::new(alloc),
            items: Vec::new(alloc),
        })),
    }
}

fn name(alloc: Global, text: &str) -> Result<Name, AllocError> {
    match text.strip_prefix("@") {
        Some(attr) => Ok(Name::Attr(String::from_str(alloc, attr)?)),
        None => Ok(Name::Tag(String::from_str(alloc, text)?)),
    }
}

fn keys(alloc: Global, values: &[Value]) -> Result<Vec<KeyVal>, AllocError>
    ensures { IfOk result (λ v. IsTrue (are_keys_well_formed (map key_view v.items))) }
{
    let mut keys = Vec::new(alloc);
    for value in values {
        keys.push(body(alloc, value)?)?;
    }
    Ok(keys)
}

pub fn label(alloc: Global, named: &Named) -> Result<Label, AllocError>
    ensures { IfOk result (λ l. IsLabelWellFormed (label_view l)) }
{
    let keys = keys(alloc, named.1)?;
    let name = name(alloc, named.0)?;
    Ok(Label { name, keys })
}

pub fn labels(alloc: Global, path: &[Named]) -> Result<Vec<Label>, AllocError> {
    let mut labels = Vec::new(alloc);
    for named in path {
        labels.push(label(alloc, named)?)?;
    }
    Ok(labels)
}

fn set(alloc: Global, pairs: Stamp) -> Result<Option<VersionSet>, AllocError> {
    if pairs.is_empty() {
        return Ok(None);
    }
    VersionSet::from_pairs(alloc, pairs)
}

fn alt(alloc: Global, pairs: Stamp, value: &Value) -> Result<Alt, AllocError>
    ensures { IfOk result (λ a. IsKeyWellFormed (alt_view a).body) }
{
    let stamp = set(alloc, pairs)?;
    let body = body(alloc, value)?;
    Ok(Alt { stamp, body })
}

fn alts(alloc: Global, rows: &[(Stamp, Value)]) -> Result<Vec<Alt>, AllocError>
    ensures { IfOk result (λ v. IsTrue (are_alts_well_formed (map alt_view v.items))) }
{
    let mut alts = Vec::new(alloc);
    for (pairs, value) in rows {
        alts.push(alt(alloc, pairs, value)?)?;
    }
    Ok(alts)
}

#[cycle(nodes)]
#[tactic(auto, using(archive_tree::proofs::NodeViews::nodes))]
fn node(alloc: Global, shape: &Shape) -> Result<ANode, AllocError>
    ensures { IfOk result (λ k. IsNodeWellFormed (node_view k)) }
{
    match shape {
        Shape::Inner(named, pairs, below) => {
            let kids = nodes(alloc, below)?;
            let stamp = set(alloc, pairs)?;
            let label = label(alloc, named)?;
            Ok(ANode::Inner { label, stamp, kids })
        }
        Shape::Leaf(named, pairs, rows) => {
            let alts = alts(alloc, rows)?;
            let stamp = set(alloc, pairs)?;
            let label = label(alloc, named)?;
            Ok(ANode::Leaf { label, stamp, alts })
        }
    }
}

#[cycle(nodes)]
pub fn nodes(alloc: Global, shapes: &[Shape]) -> Result<Vec<ANode>, AllocError>
    ensures { IfOk result (λ v. AreNodesWellFormed (nodes_view v.items)) }
{
    let mut kids = Vec::new(alloc);
    for shape in shapes {
        kids.push(node(alloc, shape)?)?;
    }
    Ok(kids)
}

/// The archive of so many versions with these nodes, if they are its parts.
pub fn archive_of(alloc: Global, n: u32, kids: Vec<ANode>) -> Option<Archive>
    requires { AreNodesWellFormed (nodes_view kids.items) }
{
    match Archive::of_parts(alloc, n, kids) {
        Ok(found) => found,
        Err(_) => None,
    }
}

/// The archive of so many versions whose root has nodes of these shapes.
pub fn archive(alloc: Global, n: u32, shapes: &[Shape]) -> Option<Archive> {
    match nodes(alloc, shapes) {
        Ok(kids) => archive_of(alloc, n, kids),
        Err(_) => None,
    }
}

/// The keyed tree of this shape, where each leaf has its first body.
#[cycle(trees)]
#[tactic(auto, using(keyed_tree::proofs::Views::views))]
pub fn tree(alloc: Global, shape: &Shape) -> Result<Keyed, AllocError>
    ensures { IfOk result (λ k. IsKeyedWellFormed (keyed_view k)) }
{
    match shape {
        Shape::Inner(named, _, below) => {
            let kids = trees(alloc, below)?;
            let label = label(alloc, named)?;
            Ok(Keyed::Inner { label, kids })
        }
        Shape::Leaf(named, _, rows) => {
            let body = match rows.first() {
                Some((_, value)) => body(alloc, value)?,
                None => body(alloc, &Value::Nothing)?,
            };
            let label = label(alloc, named)?;
            Ok(Keyed::Leaf { label, body })
        }
    }
}

#[cycle(trees)]
fn trees(alloc: Global, shapes: &[Shape]) -> Result<Vec<Keyed>, AllocError>
    ensures { IfOk result
        (λ v. IsTrue (are_kids_well_formed (kids_from (map keyed_view v.items)))) }
{
    let mut kids = Vec::new(alloc);
    for shape in shapes {
        kids.push(tree(alloc, shape)?)?;
    }
    Ok(kids)
}

/// Whether this is the keyed tree of this shape.
pub fn is_tree(alloc: Global, found: &Keyed, shape: &Shape) -> bool {
    match tree(alloc, shape) {
        Ok(wanted) => found.same(&wanted),
        Err(_) => false,
    }
}

/// Whether the archive has this version.
pub fn has_version(alloc: Global, archive: &Archive, i: u32, shape: &Shape) -> bool {
    match archive.version(alloc, i) {
        Ok(Some(version)) => is_tree(alloc, &version, shape),
        _ => false,
    }
}

/// What companies of one department and one employee are made of.
pub const NAME: Shape = Shape::Leaf(Named("name", &[]), &[], &[(&[], Value::Text("finance"))]);

pub const FIRST_NAME: Shape = Shape::Leaf(Named("fn", &[]), &[], &[(&[], Value::Text("John"))]);

pub const LAST_NAME: Shape = Shape::Leaf(Named("ln", &[]), &[], &[(&[], Value::Text("Doe"))]);

pub const TELEPHONE: Shape = Shape::Leaf(
    Named("tel", &[Value::Text("123-4567")]),
    &[],
    &[(&[], Value::Text("123-4567"))],
);

pub const EMPLOYEE: Named = Named("emp", &[Value::Text("John"), Value::Text("Doe")]);

pub const FINANCE: Named = Named("dept", &[Value::Text("finance")]);

pub const DATABASE: Named = Named("db", &[]);

/// One salary in all versions.
pub const SALARY_90: Shape = Shape::Leaf(Named("sal", &[]), &[], &[(&[], Value::Text("90K"))]);

pub const SALARY_95: Shape = Shape::Leaf(Named("sal", &[]), &[], &[(&[], Value::Text("95K"))]);

/// The salary 90K in the versions 1 and 3, and 95K in version 2.
pub const SALARIES: Shape = Shape::Leaf(
    Named("sal", &[]),
    &[],
    &[
        (&[(1, 1), (3, 3)], Value::Text("90K")),
        (&[(2, 2)], Value::Text("95K")),
    ],
);

pub const COMPANY_OF_90: Shape = Shape::Inner(
    DATABASE,
    &[],
    &[Shape::Inner(
        FINANCE,
        &[],
        &[
            Shape::Inner(
                EMPLOYEE,
                &[],
                &[FIRST_NAME, LAST_NAME, SALARY_90, TELEPHONE],
            ),
            NAME,
        ],
    )],
);

pub const COMPANY_OF_95: Shape = Shape::Inner(
    DATABASE,
    &[],
    &[Shape::Inner(
        FINANCE,
        &[],
        &[
            Shape::Inner(
                EMPLOYEE,
                &[],
                &[FIRST_NAME, LAST_NAME, SALARY_95, TELEPHONE],
            ),
            NAME,
        ],
    )],
);

/// The company without the employee.
pub const COMPANY_OF_NONE: Shape = Shape::Inner(
    DATABASE,
    &[],
    &[Shape::Inner(FINANCE, &[], &[NAME])],
);

/// The three versions of the company in which the salary changes and returns.
pub const COMPANY: Shape = Shape::Inner(
    DATABASE,
    &[],
    &[Shape::Inner(
        FINANCE,
        &[],
        &[
            Shape::Inner(EMPLOYEE, &[], &[FIRST_NAME, LAST_NAME, SALARIES, TELEPHONE]),
            NAME,
        ],
    )],
);
