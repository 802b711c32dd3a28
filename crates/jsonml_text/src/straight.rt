ghost use Rattle.std.specs.Prelude.{◌≡◌, ◌+◌, ◌≤◌, IfSome, IsTrue, length, map, Ok};
ghost use Rattle.std.specs.Cow.{cow_str_bytes};
ghost use Rattle.json.specs.Lex.{token};
ghost use Rattle.json.specs.Token.{begin_array};
ghost use Rattle.serde_json.specs.Read.{read};
ghost use Rattle.jsonml_tree.specs.Fits.{IsElement};
ghost use Rattle.jsonml_tree.specs.LentAttrs.{lent_attr_view};
ghost use Rattle.jsonml_tree.specs.LentView.{lent_tree_view, lent_row_view};
ghost use Rattle.jsonml_text.specs.Document.{of_value};
ghost use Rattle.jsonml_text.specs.Kept.{IsDocument};
ghost use Rattle.jsonml_text.specs.Objects.{ReadsAlone, ReadsFront};
ghost use Rattle.jsonml_text.specs.Pushed.{ReadsContent, ReadsItems, ReadsTree};
ghost use Rattle.jsonml_text.specs.Straight.{HasLexeme};

use crate::object::read_attributes;
use crate::room::Room;
use crate::scan::{is_sign, skip_blanks};
use crate::string::read_text;
use json::Scratch;
use jsonml_tree::{GREATEST_DEPTH, LentAttr, LentRow, LentTree};
use std::alloc::Global;
use std::borrow::CowStr;

/// The tree of a whole document, in one pass over its text and with no value in between.
///
/// Nothing where the text is no document, and where it is one that is written in a rare way: a number in another form
/// than it is printed in, or an object with a name twice.
pub(crate) fn read_straight<'a>(alloc: Global, text: &'a str) -> Option<LentTree<'a>>
    ensures tree { IfSome result (λ t. of_value (read text.now) ≡ Ok (lent_tree_view t)) }
    ensures kept { IfSome result (λ t. IsDocument (lent_tree_view t)) }
{
    let begun = skip_blanks(text, 0);
    let levels = GREATEST_DEPTH as usize;
    let read = read_tree(alloc, text, begun, levels, &mut Room::new(alloc));
    let (tree, end) = read?;
    if is_whole(text, &tree, end) {
        Some(tree)
    } else {
        None
    }
}

/// Whether this tree is an element, and nothing stands behind it.
#[tactic(auto, using(jsonml_tree::proofs::LentTrees::lent_trees))]
fn is_whole(text: &str, tree: &LentTree<'_>, end: usize) -> bool
    ensures { IsTrue result → IsElement (lent_tree_view tree.now) × (length text.now ≤ end) }
{
    match tree {
        LentTree::Text(_) => false,
        LentTree::Leaf { .. } | LentTree::Elem { .. } => end >= text.len(),
    }
}

/// The text or the element at an offset, and where the text goes on behind it and its blanks.
#[cycle(straight)]
fn read_tree<'a>(
    alloc: Global,
    text: &'a str,
    at: usize,
    levels: usize,
    room: &mut Room<'a>,
) -> Option<(LentTree<'a>, usize)>
    ensures { IfSome result (λ r. ReadsTree levels text.now at
        room.old.trees.items room.new.trees.items (lent_tree_view r.0) r.1) }
{
    if is_sign(text, at, b'[') {
        return read_element(alloc, text, at, levels, room);
    }
    let (string, next) = read_text(alloc, text, at, b']', &mut room.scratch)?;
    Some((LentTree::Text(string), next))
}

/// The same for an element. Elements nest in it at most so many levels deep, itself among them.
#[cycle(straight)]
fn read_element<'a>(
    alloc: Global,
    text: &'a str,
    at: usize,
    levels: usize,
    room: &mut Room<'a>,
) -> Option<(LentTree<'a>, usize)>
    requires { HasLexeme text.now at (token begin_array) (at + 1) }
    ensures { IfSome result (λ r. ReadsTree levels text.now at
        room.old.trees.items room.new.trees.items (lent_tree_view r.0) r.1) }
{
    if levels == 0 {
        return None;
    }
    let named = skip_blanks(text, at + 1);
    let (tag, inside) = read_text(alloc, text, named, b']', &mut room.scratch)?;
    if let Some((held, next)) = text_alone(alloc, text, inside, &mut room.scratch) {
        return Some((LentTree::Leaf { tag, text: held }, next));
    }
    let (row, next) = read_row(alloc, text, inside, levels - 1, room)?;
    Some((LentTree::Elem { tag, row }, next))
}

/// What stands behind the tag of an element, and where the text goes on behind the element and its blanks.
#[cycle(straight)]
fn read_row<'a>(
    alloc: Global,
    text: &'a str,
    at: usize,
    levels: usize,
    room: &mut Room<'a>,
) -> Option<(LentRow<'a>, usize)>
    ensures { IfSome result (λ r. ReadsContent levels text.now at
        room.old.trees.items room.new.trees.items (lent_row_view r.0) r.1) }
{
    let (attrs, begun) = attributes_behind(alloc, text, at, &mut room.scratch)?;
    let (items, next) = read_items(alloc, text, begun, levels, room)?;
    Some((LentRow { attrs, items }, next))
}

/// The text behind a tag, if it is all that its element holds, and where the text goes on behind the element and its blanks.
fn text_alone<'a>(
    alloc: Global,
    text: &'a str,
    at: usize,
    scratch: &mut Scratch,
) -> Option<(CowStr<'a, Global>, usize)>
    ensures { IfSome result (λ r. ReadsAlone text.now at (cow_str_bytes r.0) r.1) }
{
    if !is_sign(text, at, b',') {
        return None;
    }
    let begun = skip_blanks(text, at + 1);
    let (held, end) = read_text(alloc, text, begun, b']', scratch)?;
    if is_sign(text, end, b']') {
        Some((held, skip_blanks(text, end + 1)))
    } else {
        None
    }
}

/// The attributes behind a tag, if there are any, and where the text goes on behind them and their blanks.
fn attributes_behind<'a>(
    alloc: Global,
    text: &'a str,
    at: usize,
    scratch: &mut Scratch,
) -> Option<(Vec<LentAttr<'a>>, usize)>
    ensures { IfSome result (λ r. ReadsFront text.now at (map lent_attr_view r.0.items) r.1) }
{
    if is_sign(text, at, b',') {
        let begun = skip_blanks(text, at + 1);
        if is_sign(text, begun, b'{') {
            let (attrs, end) = read_attributes(alloc, text, begun, scratch)?;
            return Some((attrs, skip_blanks(text, end)));
        }
    }
    Some((Vec::new(alloc), at))
}

/// The items up to the end of their element, and where the text goes on behind that and its blanks.
#[cycle(straight)]
fn read_items<'a>(
    alloc: Global,
    text: &'a str,
    at: usize,
    levels: usize,
    room: &mut Room<'a>,
) -> Option<(Vec<LentTree<'a>>, usize)>
    ensures { IfSome result (λ r. ReadsItems levels text.now at
        room.old.trees.items room.new.trees.items r.0.items r.1) }
{
    let waiting = room.trees.len();
    let mut end = at;
    'items: while is_sign(text, end, b',') {
        let (item, next) = read_tree(alloc, text, skip_blanks(text, end + 1), levels, room)?;
        room.trees.push(item).ok()?;
        end = next;
    }
    if !is_sign(text, end, b']') {
        return None;
    }
    Some((room.take_from(alloc, waiting)?, skip_blanks(text, end + 1)))
}
