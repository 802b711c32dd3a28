// Files that are written record by record. The bytes are those of the format.
ghost use Rattle.std.specs.Prelude.{◌≡◌, ◌≢◌, [], None, IfOk, OnOk};
ghost use Rattle.keyed_tree.specs.View.{key_view, label_view};
ghost use Rattle.record_parts.specs.Shapes.{IsShapedLabel, IsShapedValue};
ghost use Rattle.record_writer.specs.View.{writer_view};

use jsonml_tree::{Content, Tree};
use key_spec::Spec;
use keyed_tree::{Body, Label, Name};
use record_format::{BodyView, LabelView, View, view};
use record_writer::{BodyFrom, LabelFrom, WriteFault, Writer};
use std::alloc::{AllocError, Global};
use std::test::Fail;
use version_set::VersionSet;
use xa_outside::{Folder, MemFolder};

pub(crate) const SPECIFICATION: &[u8] = b"(/, (db, {}))\n";

/// One version, an empty element `db`, whose body is a content.
pub(crate) const TINY: &[u8] = b"\
    XARC1\n\0\0\0\x0e(/, (db, {}))\n\0\0\0\x01\x02\0\0\0\0\0\0\0\x0c\x01\0\0\0\x02db\0\0\0\0\0\x03\
    \0\0\0\0\0\0\0\n\0\x01\0\0\0\0\0\0\0\0\x05\0\0\0\0\0\0\0\0\x04\0\0\0\0\0\0\00\0\0\0\x01\0\0\0\
    \0\0\0\0\0\0\0\0\0\0\0\01\0\0\0\0\0\0\0\0\0\0\0\x01\0\0\0\x01\0\0\0\x01\0\0\0\0\0\0\0\0\0\0\0\
    \0\0\0\00";

/// A leaf `emp` with the key values false, -2 and the text `Doe`.
const LEAF: &[u8] = b"\
    \x02\0\0\0\0\0\0\0*\x01\0\0\0\x03emp\0\0\0\x03\0\x01\0\x04\0\0\0\0\0\0\0\x01\x01\0\0\0\0\0\
    \0\0\x01\0\0\0\0\x03Doe\0";

/// The attributes `id` and `up`, a text, and an element `y` with one in it.
const ALT: &[u8] = b"\
    \x03\0\0\0\0\0\0\07\0\x01\0\0\0\x02\0\0\0\x02id\x05\0\0\0\x017\0\0\0\x02up\x02\0\0\0\x02\0\
    \0\0\0\x01x\x01\0\0\0\x01y\0\0\0\0\0\0\0\x01\0\0\0\0\x01z";

/// One version of that leaf with that body.
const LENT: &[u8] = b"\
    XARC1\n\0\0\0\x0e(/, (db, {}))\n\0\0\0\x01\x02\0\0\0\0\0\0\0*\x01\0\0\0\x03emp\0\0\0\x03\0\
    \x01\0\x04\0\0\0\0\0\0\0\x01\x01\0\0\0\0\0\0\0\x01\0\0\0\0\x03Doe\0\x03\0\0\0\0\0\0\07\0\
    \x01\0\0\0\x02\0\0\0\x02id\x05\0\0\0\x017\0\0\0\x02up\x02\0\0\0\x02\0\0\0\0\x01x\x01\0\0\0\
    \x01y\0\0\0\0\0\0\0\x01\0\0\0\0\x01z\x05\0\0\0\0\0\0\0\0\x04\0\0\0\0\0\0\00\0\0\0\x01\0\0\0\
    \0\0\0\0\0\0\0\0\0\0\0\0|\0\0\0\0\0\0\0\0\0\0\0\x01\0\0\0\x01\0\0\0\x01\0\0\0\0\0\0\0\0\0\0\
    \0\0\0\0\00";

/// Two versions of an element `db`: in its child `a`, which the second alone has, the text `x`, and
/// in its child `b` first the text `y` and then `z`.
const NESTED: &[u8] = b"\
    XARC1\n\0\0\0,(/, (db, {}))\n(/db, (a, {}))\n(/db, (b, {}))\n\0\0\0\x02\x01\0\0\0\0\0\0\0\
    \x0c\x01\0\0\0\x02db\0\0\0\0\0\x02\0\0\0\0\0\0\0\x17\x01\0\0\0\x01a\0\0\0\0\x01\0\0\0\x01\0\
    \0\0\x02\0\0\0\x02\x03\0\0\0\0\0\0\0\x10\0\x01\0\0\0\0\0\0\0\x01\0\0\0\0\x01x\x05\0\0\0\0\0\
    \0\0\0\x02\0\0\0\0\0\0\0\x0b\x01\0\0\0\x01b\0\0\0\0\0\x03\0\0\0\0\0\0\0\x1c\x01\0\0\0\x01\0\
    \0\0\x01\0\0\0\x01\x01\0\0\0\0\0\0\0\x01\0\0\0\0\x01y\x03\0\0\0\0\0\0\0\x1c\x01\0\0\0\x01\0\
    \0\0\x02\0\0\0\x02\x01\0\0\0\0\0\0\0\x01\0\0\0\0\x01z\x05\0\0\0\0\0\0\0\0\x04\0\0\0\0\0\0\0p\
    \0\0\0\x02\0\0\0\0\0\0\0\0\0\0\0\0\0\0\0B\0\0\0\0\0\0\0\0\0\0\0\0\0\0\0B\0\0\0\0\0\0\0g\0\0\
    \0\0\0\0\0\0\0\0\0\x01\0\0\0\x01\0\0\0\x02\0\0\0\0\0\0\0\x14\0\0\0\x01\0\0\0\x02\0\0\0\x02\0\
    \0\0\0\0\0\0\0\0\0\0\x01\0\0\0\x01\0\0\0\x02\0\0\0\0\0\0\0\0\x04\0\0\0\0\0\0\00\0\0\0\x01\0\
    \0\0\0\0\0\0\0\0\0\0\0\0\0\x017\0\0\0\0\0\0\0p\0\0\0\x01\0\0\0\x01\0\0\0\x02\0\0\0\0\0\0\0\0\
    \0\0\0\0\0\0\00";

/// Two versions of an element `db` with six empty leaves: `a` and `d` inherit, the second version
/// alone has `b`, `c` and `f`, and the first `e`.
const WIDE: &[u8] = b"\
    XARC1\n\0\0\0h(/, (db, {}))\n(/db, (a, {}))\n(/db, (b, {}))\n(/db, (c, {}))\n(/db, (d, {}))\n(\
    /db, (e, {}))\n(/db, (f, {}))\n\0\0\0\x02\x01\0\0\0\0\0\0\0\x0c\x01\0\0\0\x02db\0\0\0\0\0\x02\
    \0\0\0\0\0\0\0\x0b\x01\0\0\0\x01a\0\0\0\0\0\x03\0\0\0\0\0\0\0\n\0\x01\0\0\0\0\0\0\0\0\x05\0\0\
    \0\0\0\0\0\0\x02\0\0\0\0\0\0\0\x17\x01\0\0\0\x01b\0\0\0\0\x01\0\0\0\x01\0\0\0\x02\0\0\0\x02\
    \x03\0\0\0\0\0\0\0\n\0\x01\0\0\0\0\0\0\0\0\x05\0\0\0\0\0\0\0\0\x02\0\0\0\0\0\0\0\x17\x01\0\0\0\
    \x01c\0\0\0\0\x01\0\0\0\x01\0\0\0\x02\0\0\0\x02\x03\0\0\0\0\0\0\0\n\0\x01\0\0\0\0\0\0\0\0\x05\
    \0\0\0\0\0\0\0\0\x02\0\0\0\0\0\0\0\x0b\x01\0\0\0\x01d\0\0\0\0\0\x03\0\0\0\0\0\0\0\n\0\x01\0\0\
    \0\0\0\0\0\0\x05\0\0\0\0\0\0\0\0\x02\0\0\0\0\0\0\0\x17\x01\0\0\0\x01e\0\0\0\0\x01\0\0\0\x01\0\
    \0\0\x01\0\0\0\x01\x03\0\0\0\0\0\0\0\n\0\x01\0\0\0\0\0\0\0\0\x05\0\0\0\0\0\0\0\0\x02\0\0\0\0\0\
    \0\0\x17\x01\0\0\0\x01f\0\0\0\0\x01\0\0\0\x01\0\0\0\x02\0\0\0\x02\x03\0\0\0\0\0\0\0\n\0\x01\0\
    \0\0\0\0\0\0\0\x05\0\0\0\0\0\0\0\0\x04\0\0\0\0\0\0\x01p\0\0\0\x06\0\0\0\0\0\0\0\0\0\0\0\0\0\0\
    \00\0\0\0\0\0\0\0\0\0\0\0\0\0\0\00\0\0\0\0\0\0\0<\0\0\0\0\0\0\0\0\0\0\0\0\0\0\0l\0\0\0\0\0\0\0\
    <\0\0\0\0\0\0\0\0\0\0\0\0\0\0\0\xa8\0\0\0\0\0\0\00\0\0\0\0\0\0\0\0\0\0\0\0\0\0\0\xd8\0\0\0\0\0\
    \0\0<\0\0\0\0\0\0\0\0\0\0\0\0\0\0\x01\x14\0\0\0\0\0\0\0<\0\0\0\0\0\0\0\0\0\0\0\x01\0\0\0\x01\0\
    \0\0\x02\0\0\0\0\0\0\0d\0\0\0\x01\0\0\0\x01\0\0\0\x02\0\0\0\0\0\0\0<\0\0\0\x01\0\0\0\x01\0\0\0\
    \x02\0\0\0\0\0\0\0\x14\0\0\0\x01\0\0\0\x01\0\0\0\x02\0\0\0\0\0\0\0\0\0\0\0\x01\0\0\0\x02\0\0\0\
    \x02\0\0\0\0\0\0\0\0\0\0\0\x01\0\0\0\x02\0\0\0\x02\0\0\0\0\0\0\0\0\0\0\0\x01\0\0\0\x01\0\0\0\
    \x02\0\0\0\0\0\0\0<\0\0\0\x01\0\0\0\x01\0\0\0\x02\0\0\0\0\0\0\0\x14\0\0\0\x01\0\0\0\x01\0\0\0\
    \x02\0\0\0\0\0\0\0\0\0\0\0\x01\0\0\0\x01\0\0\0\x01\0\0\0\0\0\0\0\0\0\0\0\x01\0\0\0\x02\0\0\0\
    \x02\0\0\0\0\0\0\0\0\x04\0\0\0\0\0\0\00\0\0\0\x01\0\0\0\0\0\0\0\0\0\0\0\0\0\0\x02\xde\0\0\0\0\
    \0\0\x01p\0\0\0\x01\0\0\0\x01\0\0\0\x02\0\0\0\0\0\0\0\0\0\0\0\0\0\0\00";

/// The first version alone, the second alone, or both.
#[derive(Clone, Copy, Drop)]
pub(crate) enum Versions {
    First,
    Second,
    Both,
}

/// A node: its name, its set where one is stored, the versions that it is in, and what is below it.
#[cycle(tree)]
pub(crate) struct Node(
    pub(crate) &'static str,
    pub(crate) Option<Versions>,
    pub(crate) Versions,
    pub(crate) Below,
);

/// Nodes, or alternatives: the set of each where one is stored, and its text, if it has one.
#[cycle(tree)]
pub(crate) enum Below {
    Nodes(&'static [Node]),
    Alternatives(&'static [(Option<Versions>, Option<&'static str>)]),
}

/// The only node of the file of one version.
const EMPTY: &[Node] = &[Node(
    "db",
    None,
    Versions::First,
    Below::Alternatives(&[(None, None)]),
)];

/// The nodes of two versions.
const CHILDREN: &[Node] = &[Node(
    "db",
    None,
    Versions::Both,
    Below::Nodes(&[
        Node(
            "a",
            Some(Versions::Second),
            Versions::Second,
            Below::Alternatives(&[(None, Some("x"))]),
        ),
        Node(
            "b",
            None,
            Versions::Both,
            Below::Alternatives(&[
                (Some(Versions::First), Some("y")),
                (Some(Versions::Second), Some("z")),
            ]),
        ),
    ]),
)];

/// Children that inherit between those that store, and neighbours with the same set.
const SIBLINGS: &[Node] = &[Node(
    "db",
    None,
    Versions::Both,
    Below::Nodes(&[
        Node(
            "a",
            None,
            Versions::Both,
            Below::Alternatives(&[(None, None)]),
        ),
        Node(
            "b",
            Some(Versions::Second),
            Versions::Second,
            Below::Alternatives(&[(None, None)]),
        ),
        Node(
            "c",
            Some(Versions::Second),
            Versions::Second,
            Below::Alternatives(&[(None, None)]),
        ),
        Node(
            "d",
            None,
            Versions::Both,
            Below::Alternatives(&[(None, None)]),
        ),
        Node(
            "e",
            Some(Versions::First),
            Versions::First,
            Below::Alternatives(&[(None, None)]),
        ),
        Node(
            "f",
            Some(Versions::Second),
            Versions::Second,
            Below::Alternatives(&[(None, None)]),
        ),
    ]),
)];

fn tag(alloc: Global, name: &str) -> Result<Label, AllocError>
    ensures { IfOk result (λ l. IsShapedLabel (label_view l)) }
{
    Ok(Label {
        name: Name::Tag(String::from_str(alloc, name)?),
        keys: Vec::new(alloc),
    })
}

// The content of this text, or of nothing.
fn body(alloc: Global, text: Option<&str>) -> Result<Body, AllocError>
    ensures { IfOk result (λ b. IsShapedValue (key_view b)) }
{
    let mut items = Vec::new(alloc);
    if let Some(text) = text {
        items.push(Tree::Text(String::from_str(alloc, text)?))?;
    }
    Ok(Body::Content(Content {
        attrs: Vec::new(alloc),
        items,
    }))
}

fn set(alloc: Global, versions: Versions) -> VersionSet {
    match versions {
        Versions::First => VersionSet::single(alloc, 1),
        Versions::Second => VersionSet::single(alloc, 2),
        Versions::Both => VersionSet::upto(alloc, 2),
    }
}

fn stamp(alloc: Global, stored: Option<Versions>) -> Option<VersionSet> {
    match stored {
        Some(versions) => Some(set(alloc, versions)),
        None => None,
    }
}

fn write_alternative(
    alloc: Global,
    folder: &mut MemFolder,
    writer: &mut Writer,
    stored: Option<Versions>,
    text: Option<&str>,
) -> Result<(), WriteFault>
    requires { (writer_view writer.old).leaf ≢ None }
    ensures leaf { OnOk result ((writer_view writer.new).leaf ≢ None) }
    ensures inners { OnOk result
        ((writer_view writer.new).inners ≡ (writer_view writer.old).inners) }
{
    let content = body(alloc, text)?;
    let stamp = stamp(alloc, stored);
    writer.alt(folder, &stamp, BodyFrom::New(&content))
}

fn write_alternatives(
    alloc: Global,
    folder: &mut MemFolder,
    writer: &mut Writer,
    alternatives: &[(Option<Versions>, Option<&str>)],
) -> Result<(), WriteFault>
    requires { (writer_view writer.old).leaf ≢ None }
    ensures leaf { OnOk result ((writer_view writer.new).leaf ≡ None) }
    ensures inners { OnOk result
        ((writer_view writer.new).inners ≡ (writer_view writer.old).inners) }
{
    for (stored, text) in alternatives {
        write_alternative(alloc, folder, writer, *stored, *text)?;
    }
    writer.end_leaf(folder)
}

fn write_leaf(
    alloc: Global,
    folder: &mut MemFolder,
    writer: &mut Writer,
    begin: (&Label, &Option<VersionSet>, &VersionSet),
    alternatives: &[(Option<Versions>, Option<&str>)],
) -> Result<(), WriteFault>
    requires label { IsShapedLabel (label_view begin.0.now) }
    requires leaf { (writer_view writer.old).leaf ≡ None }
    ensures leaf { OnOk result ((writer_view writer.new).leaf ≡ None) }
    ensures inners { OnOk result
        ((writer_view writer.new).inners ≡ (writer_view writer.old).inners) }
{
    let (label, stamp, set) = begin;
    writer.leaf(folder, LabelFrom::New(label), stamp, set)?;
    write_alternatives(alloc, folder, writer, alternatives)
}

#[cycle(nodes)]
fn write_inner(
    alloc: Global,
    folder: &mut MemFolder,
    writer: &mut Writer,
    begin: (&Label, &Option<VersionSet>, &VersionSet),
    nodes: &[Node],
) -> Result<(), WriteFault>
    requires label { IsShapedLabel (label_view begin.0.now) }
    requires leaf { (writer_view writer.old).leaf ≡ None }
    ensures leaf { OnOk result ((writer_view writer.new).leaf ≡ None) }
    ensures inners { OnOk result
        ((writer_view writer.new).inners ≡ (writer_view writer.old).inners) }
{
    let (label, stamp, set) = begin;
    writer.inner(folder, LabelFrom::New(label), stamp, set)?;
    write_nodes(alloc, folder, writer, nodes)?;
    writer.end_inner(folder)
}

#[cycle(nodes)]
fn write_node(
    alloc: Global,
    folder: &mut MemFolder,
    writer: &mut Writer,
    node: &Node,
) -> Result<(), WriteFault>
    requires { (writer_view writer.old).leaf ≡ None }
    ensures leaf { OnOk result ((writer_view writer.new).leaf ≡ None) }
    ensures inners { OnOk result
        ((writer_view writer.new).inners ≡ (writer_view writer.old).inners) }
{
    let label = tag(alloc, node.0)?;
    let (stamp, set) = (stamp(alloc, node.1), set(alloc, node.2));
    let begin = (&label, &stamp, &set);
    match &node.3 {
        Below::Nodes(nodes) => write_inner(alloc, folder, writer, begin, nodes),
        Below::Alternatives(rows) => write_leaf(alloc, folder, writer, begin, rows),
    }
}

#[cycle(nodes)]
fn write_nodes(
    alloc: Global,
    folder: &mut MemFolder,
    writer: &mut Writer,
    nodes: &[Node],
) -> Result<(), WriteFault>
    requires { (writer_view writer.old).leaf ≡ None }
    ensures leaf { OnOk result ((writer_view writer.new).leaf ≡ None) }
    ensures inners { OnOk result
        ((writer_view writer.new).inners ≡ (writer_view writer.old).inners) }
{
    for node in nodes {
        write_node(alloc, folder, writer, node)?;
    }
    Ok(())
}

// A file of so many versions with these nodes.
fn write_file(
    alloc: Global,
    folder: &mut MemFolder,
    spec: &Spec,
    n: u32,
    nodes: &[Node],
) -> Result<(), WriteFault> {
    let mut writer = Writer::start(alloc, folder, spec, n)?;
    write_nodes(alloc, folder, &mut writer, nodes)?;
    writer.finish(folder)
}

// The five records of the file of one version.
pub(crate) fn write_tiny(
    alloc: Global,
    folder: &mut MemFolder,
    spec: &Spec,
) -> Result<(), WriteFault> {
    write_file(alloc, folder, spec, 1, EMPTY)
}

pub(crate) fn parsed(alloc: Global, text: &[u8]) -> Result<Spec, Fail> {
    if text.len() > 1_048_576 {
        return Err("too long".into());
    }
    Ok(Spec::parse(alloc, text)?)
}

fn begun(alloc: Global) -> Result<MemFolder, Fail> {
    let mut folder = MemFolder::new(alloc, Vec::new(alloc));
    folder.begin()?;
    Ok(folder)
}

/// Fails unless the draft has these bytes. It is committed.
pub(crate) fn drafted(mut folder: MemFolder, bytes: &[u8]) -> Result<(), Fail> {
    if folder.commit("a.xar").is_ok() && folder.file("a.xar") == Some(bytes) {
        Ok(())
    } else {
        Err("the draft has other bytes".into())
    }
}

/// Fails unless these nodes make this file, of so many versions.
pub(crate) fn made(
    alloc: Global,
    rules: &[u8],
    n: u32,
    nodes: &[Node],
    file: &[u8],
) -> Result<(), Fail> {
    let spec = parsed(alloc, rules)?;
    let mut folder = begun(alloc)?;
    write_file(alloc, &mut folder, &spec, n, nodes)?;
    drafted(folder, file)
}

#[test]
fn five_records_make_the_file_of_one_version(rt: HostRuntime) -> Result<(), Fail> {
    made(rt.alloc(), SPECIFICATION, 1, EMPTY, TINY)
}

// A leaf with one alternative, whose parts are lent.
fn write_lent_leaf(
    folder: &mut MemFolder,
    writer: &mut Writer,
    label: LabelView<'_>,
    body: BodyView<'_>,
    set: &VersionSet,
) -> Result<(), WriteFault>
    requires { (writer_view writer.old).leaf ≡ None }
    ensures leaf { OnOk result ((writer_view writer.new).leaf ≡ None) }
    ensures inners { OnOk result
        ((writer_view writer.new).inners ≡ (writer_view writer.old).inners) }
{
    writer.leaf(folder, LabelFrom::Old(label), &None, set)?;
    writer.alt(folder, &None, BodyFrom::Old(body))?;
    writer.end_leaf(folder)
}

// The file of one version of that leaf.
fn write_lent(
    alloc: Global,
    folder: &mut MemFolder,
    spec: &Spec,
    label: LabelView<'_>,
    body: BodyView<'_>,
) -> Result<(), WriteFault> {
    let mut writer = Writer::start(alloc, folder, spec, 1)?;
    let all = VersionSet::single(alloc, 1);
    write_lent_leaf(folder, &mut writer, label, body, &all)?;
    writer.finish(folder)
}

fn lent(alloc: Global, label: LabelView<'_>, body: BodyView<'_>) -> Result<(), Fail> {
    let spec = parsed(alloc, SPECIFICATION)?;
    let mut folder = begun(alloc)?;
    write_lent(alloc, &mut folder, &spec, label, body)?;
    drafted(folder, LENT)
}

#[test]
fn lent_parts_are_written_as_they_stand(rt: HostRuntime) -> Result<(), Fail> {
    match (view(LEAF), view(ALT)) {
        (Some(View::Leaf { label, .. }), Some(View::Alt { body, .. })) => {
            lent(rt.alloc(), label, body)
        }
        _ => Err("no LEAF and no ALT".into()),
    }
}

#[test]
fn children_stand_in_the_directory_of_their_parent(rt: HostRuntime) -> Result<(), Fail> {
    let rules = b"(/, (db, {}))\n(/db, (a, {}))\n(/db, (b, {}))\n".as_slice();
    made(rt.alloc(), rules, 2, CHILDREN, NESTED)
}

#[test]
fn each_child_has_its_own_set_in_the_directory(rt: HostRuntime) -> Result<(), Fail> {
    let rules = b"\
        (/, (db, {}))\n(/db, (a, {}))\n(/db, (b, {}))\n(/db, (c, {}))\n(/db, (d, {}))\n\
        (/db, (e, {}))\n(/db, (f, {}))\n"
        .as_slice();
    made(rt.alloc(), rules, 2, SIBLINGS, WIDE)
}
