// Which paths end where contents are, and copies of what a record of a leaf shows.
use content_log::at_frontier;
use given_archives::lists::{COMPANY, SALARIES};
use given_archives::{NAME, NEVER, file, folder, specification};
use given_parts::told;
use jsonml_tree::Tree;
use key_rules::read_path;
use key_spec::Spec;
use keyed_tree::{KeyVal, Label, Name};
use record_cursor::{Cursor, Item, read_header};
use std::alloc::Global;
use std::test::Fail;
use xa_outside::MemFolder;

/// Paths, and whether they end in an attribute or at the frontier.
const ENDS: &[(&str, bool)] = &[
    (
        r#"["db",["dept","finance"],["emp","John","Doe"],"sal"]"#,
        true,
    ),
    (r#"["db",["dept","finance"],"@floor"]"#, true),
    (r#"["db",["dept","finance"]]"#, false),
    (r#"["db"]"#, false),
    ("[]", false),
];

fn is_end(alloc: Global, spec: &Spec, path: &str, ends: bool) -> bool {
    match read_path(alloc, spec, path) {
        Ok(labels) => at_frontier(alloc, spec, &labels) == Ok(ends),
        Err(_) => false,
    }
}

fn are_ends(alloc: Global) -> bool {
    match specification(alloc, COMPANY) {
        Some(spec) => ENDS
            .iter()
            .all(|(path, ends)| is_end(alloc, &spec, path, *ends)),
        None => false,
    }
}

/// Whether the label is that of the salary.
fn is_salary(label: &Label) -> bool {
    match &label.name {
        Name::Tag(tag) => tag.as_str() == "sal" && label.keys.is_empty(),
        Name::Attr(_) => false,
    }
}

/// Whether the body is a content of this one text.
fn is_text(body: &KeyVal, text: &str) -> bool {
    match body {
        KeyVal::Content(content) => match content.items.get(0) {
            Some(Tree::Text(found)) => {
                found.as_str() == text && content.items.len() == 1 && content.attrs.is_empty()
            }
            _ => false,
        },
        KeyVal::Scalar(_) => false,
    }
}

/// Whether copies of the label and of the first body are those of the leaf, in the file.
fn are_copied(alloc: Global, folder: &mut MemFolder, size: u64) -> Option<bool> {
    let header = read_header(alloc, folder, NAME, size).ok()?;
    let mut cursor = Cursor::start(alloc, NAME, &header).ok()?;
    let mut is_open = false;
    for _ in 0..100 {
        match cursor.next(folder).ok()? {
            Item::Leaf { label, .. } => is_open = is_salary(&label.copy(alloc).ok()?),
            Item::Alt { body, .. } if is_open => {
                return Some(is_text(&body.copy(alloc).ok()?, "90K"));
            }
            Item::Finish => return None,
            _ => {}
        }
    }
    None
}

fn are_parts_copied(alloc: Global) -> bool {
    let Some(bytes) = file(alloc, COMPANY, SALARIES) else {
        return false;
    };
    match folder(alloc, &[(NAME, &bytes)], NEVER) {
        Some(mut folder) => are_copied(alloc, &mut folder, bytes.len() as u64) == Some(true),
        None => false,
    }
}

#[test]
fn paths_end_somewhere_and_parts_are_copied(rt: HostRuntime) -> Result<(), Fail> {
    told(are_ends(rt.alloc()), "the frontier")?;
    told(are_parts_copied(rt.alloc()), "a label and a body")
}
