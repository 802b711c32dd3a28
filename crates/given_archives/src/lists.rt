//! Lists of small documents, each of which makes versions by its keys.

/// One element, of whatever content.
pub const TINY: &str = "(/, (db, {}))\n";

pub const COMPANY: &str = "(/, (db, {}))
(/db, (dept, {name}))
(/db/dept, (emp, {fn, ln}))
(/db/dept/emp, (sal, {}))
(/db/dept/emp, (tel, {.}))
";

/// Elements with a number.
pub const NUMBERED: &str = "(/, (db, {}))
(/db, (e, {@id}))
";

pub const GOODS: &str = "(/, (goods, {}))
(/goods, (item, {@id}))
(/goods/item, (name, {}))
(/goods/item, (price, {}))
";

/// The company with a salary, with another, and without the employee.
pub const PAID_90: &str =
    r#"["db",["dept",["emp",["fn","John"],["ln","Doe"],["sal","90K"],["tel","123-4567"]],["name","finance"]]]"#;

pub const PAID_95: &str =
    r#"["db",["dept",["emp",["fn","John"],["ln","Doe"],["sal","95K"],["tel","123-4567"]],["name","finance"]]]"#;

pub const UNPAID: &str = r#"["db",["dept",["name","finance"]]]"#;

/// The salary changes, and comes back.
pub const SALARIES: &[&str] = &[PAID_90, PAID_95, PAID_90];

/// The employee goes, and comes back.
pub const RETURN: &[&str] = &[PAID_90, UNPAID, PAID_90];

/// An attribute that is a text, and then a number.
pub const FLOORS: &[&str] = &[FLOOR_TEXT, FLOOR_3];

const FLOOR_TEXT: &str = r#"["db",["dept",{"floor":"3"},["name","finance"]]]"#;

const FLOOR_3: &str = r#"["db",["dept",{"floor":3},["name","finance"]]]"#;

/// Elements 1, 2 and 4; 3; 5 and 6; 7 and 8; 3; and none.
pub const SIX: &[&str] = &[
    r#"["db",["e",{"id":1}],["e",{"id":2}],["e",{"id":4}]]"#,
    r#"["db",["e",{"id":3}]]"#,
    r#"["db",["e",{"id":5}],["e",{"id":6}]]"#,
    r#"["db",["e",{"id":7}],["e",{"id":8}]]"#,
    r#"["db",["e",{"id":3}]]"#,
    r#"["db"]"#,
];

const ONE: &str = r#"["db",["e",{"id":1},"x"]]"#;

const NONE: &str = r#"["db"]"#;

const BELL: &str = r#"["goods",["item",{"id":"b"},["name","bell"],["price","7"]]]"#;

const ANVIL_BELL_CORD: &str =
    r#"["goods",["item",{"id":"a"},["name","anvil"],["price","10"]],["item",{"id":"b"},["name","bell"],["price","7"]],["item",{"id":"c"},["name","cord"],["price","2"]]]"#;

const ANVIL_CORD: &str =
    r#"["goods",["item",{"id":"a"},["name","anvil"],["price","12"]],["item",{"id":"c","new":true},["name","cord"],["price","2"]]]"#;

const NO_GOODS: &str = r#"["goods"]"#;

/// A name, keys, and documents that satisfy them.
pub type List = (&'static str, &'static str, &'static [&'static str]);

pub const LISTS: &[List] = &[
    ("an element that stays", TINY, &[NONE, NONE, NONE]),
    (
        "a content that changes and comes back",
        TINY,
        &[
            r#"["db","x"]"#,
            r#"["db","y"]"#,
            r#"["db","x"]"#,
            r#"["db"]"#,
            r#"["db","y"]"#,
            r#"["db","w"]"#,
            r#"["db","v"]"#,
        ],
    ),
    (
        "a salary that returns",
        COMPANY,
        &[PAID_90, PAID_95, PAID_90, PAID_90],
    ),
    (
        "an employee who goes and comes back",
        COMPANY,
        &[PAID_90, UNPAID, UNPAID, PAID_95],
    ),
    (
        "an attribute that changes, goes and comes back",
        COMPANY,
        &[FLOOR_TEXT, FLOOR_3, UNPAID, FLOOR_TEXT],
    ),
    ("elements that come and go", NUMBERED, SIX),
    (
        "an element that is there, and there now and then",
        NUMBERED,
        &[ONE, ONE, NONE, ONE, ONE, ONE],
    ),
    (
        "elements that come in turn",
        NUMBERED,
        &[
            r#"["db",["e",{"id":1}],["e",{"id":2}],["e",{"id":4}],["e",{"id":5}],["e",{"id":7}]]"#,
            r#"["db",["e",{"id":2}],["e",{"id":3}],["e",{"id":5}],["e",{"id":6}],["e",{"id":8}]]"#,
        ],
    ),
    (
        "kids before and behind, and none",
        GOODS,
        &[
            BELL,
            ANVIL_BELL_CORD,
            BELL,
            ANVIL_CORD,
            NO_GOODS,
            ANVIL_BELL_CORD,
        ],
    ),
    (
        "kids where there were none",
        GOODS,
        &[NO_GOODS, ANVIL_CORD, BELL],
    ),
];
