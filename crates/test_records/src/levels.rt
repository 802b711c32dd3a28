// A file of three levels. The bytes are those of the format.
use crate::files::{Below, Node, Versions, made};
use std::test::Fail;

const RULES: &[u8] = b"(/, (db, {}))\n(/db, (a, {}))\n(/db, (c, {}))\n(/db/a, (b, {}))\n";

/// Two versions of an element `db`: in its child `a`, which the second alone has, a child `b` with
/// the text `x`, and behind `a` a child `c` with the text `y`.
const LEVELS: &[u8] = b"\
    XARC1\n\0\0\0=(/, (db, {}))\n(/db, (a, {}))\n(/db, (c, {}))\n(/db/a, (b, {}))\n\0\0\0\x02\
    \x01\0\0\0\0\0\0\0\x0c\x01\0\0\0\x02db\0\0\0\0\0\x01\0\0\0\0\0\0\0\x17\x01\0\0\0\x01a\0\0\0\
    \0\x01\0\0\0\x01\0\0\0\x02\0\0\0\x02\x02\0\0\0\0\0\0\0\x0b\x01\0\0\0\x01b\0\0\0\0\0\x03\0\0\
    \0\0\0\0\0\x10\0\x01\0\0\0\0\0\0\0\x01\0\0\0\0\x01x\x05\0\0\0\0\0\0\0\0\x04\0\0\0\0\0\0\00\
    \0\0\0\x01\0\0\0\0\0\0\0\0\0\0\0\0\0\0\06\0\0\0\0\0\0\0\0\0\0\0\x01\0\0\0\x02\0\0\0\x02\0\0\
    \0\0\0\0\0\0\x02\0\0\0\0\0\0\0\x0b\x01\0\0\0\x01c\0\0\0\0\0\x03\0\0\0\0\0\0\0\x10\0\x01\0\0\
    \0\0\0\0\0\x01\0\0\0\0\x01y\x05\0\0\0\0\0\0\0\0\x04\0\0\0\0\0\0\0p\0\0\0\x02\0\0\0\0\0\0\0\
    \0\0\0\0\0\0\0\0\x8f\0\0\0\0\0\0\00\0\0\0\0\0\0\0\x8f\0\0\0\0\0\0\06\0\0\0\0\0\0\0\0\0\0\0\
    \x01\0\0\0\x01\0\0\0\x02\0\0\0\0\0\0\0\x14\0\0\0\x01\0\0\0\x02\0\0\0\x02\0\0\0\0\0\0\0\0\0\
    \0\0\x01\0\0\0\x01\0\0\0\x02\0\0\0\0\0\0\0\0\x04\0\0\0\0\0\0\00\0\0\0\x01\0\0\0\0\0\0\0\0\0\
    \0\0\0\0\0\x01S\0\0\0\0\0\0\0p\0\0\0\x01\0\0\0\x01\0\0\0\x02\0\0\0\0\0\0\0\0\0\0\0\0\0\0\00";

/// Its nodes.
const NODES: &[Node] = &[Node(
    "db",
    None,
    Versions::Both,
    Below::Nodes(&[
        Node(
            "a",
            Some(Versions::Second),
            Versions::Second,
            Below::Nodes(&[Node(
                "b",
                None,
                Versions::Second,
                Below::Alternatives(&[(None, Some("x"))]),
            )]),
        ),
        Node(
            "c",
            None,
            Versions::Both,
            Below::Alternatives(&[(None, Some("y"))]),
        ),
    ]),
)];

#[test]
fn rows_go_on_behind_an_inner_node(rt: HostRuntime) -> Result<(), Fail> {
    made(rt.alloc(), RULES, 2, NODES, LEVELS)
}
