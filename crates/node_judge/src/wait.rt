// What a node waits for, as it is lent.
ghost use Rattle.std.specs.Prelude.{◌≡◌, ◌++◌, [], is_none, map, string_bytes, IfOk, OnOk};
ghost use Rattle.std.specs.List.{list_all};
ghost use Rattle.std.specs.Option.{option_map};
ghost use Rattle.std.specs.Ordering.{is_eq};
ghost use Rattle.key_spec.specs.View.{names_view, path_view};
ghost use Rattle.keyed_tree.specs.Order.{label_cmp};
ghost use Rattle.record_parts.specs.ShownViews.{shown_label, shown_body};
ghost use Rattle.archive_file.specs.NodeFits.{attr_label, bare_label};
ghost use Rattle.node_judge.specs.Awaited.{handed, all_handed, awaited_by, leads};
ghost use Rattle.node_judge.specs.View.{wait_view};

use key_spec::KeyPath;
use record_parts::{BodyView, LabelView, NameView};
use std::alloc::{AllocError, Global};

/// A key value that is awaited: at the end of the tags and the attribute that are left of a key
/// path, or as the bodies of a leaf.
#[derive(Clone, Copy)]
pub enum Wait<'a> {
    Leads {
        tags: &'a [String],
        attr: &'a Option<String>,
        value: BodyView<'a>,
    },
    Equals {
        value: BodyView<'a>,
    },
}

impl<'a> Wait<'a> {
    /// What a kid with this label is handed of it. It takes no memory, and compares the label once.
    pub fn hand(self, label: &LabelView<'_>) -> Option<Wait<'a>>
        ensures { option_map wait_view result
            ≡ handed (shown_label label.now) (wait_view self.entry) }
    {
        match self {
            Wait::Leads { tags, attr, value } => hand_leads(tags, attr, value, label),
            Wait::Equals { .. } => None,
        }
    }
}

fn hand_leads<'a>(
    tags: &'a [String],
    attr: &'a Option<String>,
    value: BodyView<'a>,
    label: &LabelView<'_>,
) -> Option<Wait<'a>>
    ensures { option_map wait_view result ≡ handed (shown_label label.now)
        (leads (names_view tags.now) (option_map string_bytes attr.now) (shown_body value.entry)) }
{
    let Some((tag, rest)) = tags.split_first() else {
        return hand_attr(attr, value, label);
    };
    if !is_bare(label, tag.as_str()) {
        return None;
    }
    Some(Wait::Leads {
        tags: rest,
        attr,
        value,
    })
}

// The same where no tags are left.
fn hand_attr<'a>(
    attr: &Option<String>,
    value: BodyView<'a>,
    label: &LabelView<'_>,
) -> Option<Wait<'a>>
    ensures { option_map wait_view result ≡ handed (shown_label label.now)
        (leads [] (option_map string_bytes attr.now) (shown_body value.entry)) }
{
    match attr {
        Some(name) => {
            if is_attr(label, name.as_str()) {
                Some(Wait::Equals { value })
            } else {
                None
            }
        }
        None => None,
    }
}

// Whether the label is that of an element with this tag and without key values.
fn is_bare(label: &LabelView<'_>, tag: &str) -> bool
    ensures { result ≡ is_eq (label_cmp (shown_label label.now) (bare_label tag.now)) }
{
    label.order_lent(NameView::Tag(tag), &[]).is_eq()
}

// Whether the label is that of an attribute with this name.
fn is_attr(label: &LabelView<'_>, name: &str) -> bool
    ensures { result ≡ is_eq (label_cmp (shown_label label.now) (attr_label name.now)) }
{
    label.order_lent(NameView::Attr(name), &[]).is_eq()
}

/// What a kid with this label is handed of all that its parent waits for, in the same order. It
/// compares the label once for each.
pub fn hand_all<'a>(
    alloc: Global,
    waits: &[Wait<'a>],
    label: &LabelView<'_>,
) -> Result<Vec<Wait<'a>>, AllocError>
    ensures { IfOk result (λ v. map wait_view v.items
        ≡ all_handed (shown_label label.now) (map wait_view waits.now)) }
{
    let mut all = Vec::new(alloc);
    hand_onto(&mut all, waits, label)?;
    Ok(all)
}

// The same, behind what is there.
pub(crate) fn hand_onto<'a>(
    all: &mut Vec<Wait<'a>>,
    waits: &[Wait<'a>],
    label: &LabelView<'_>,
) -> Result<(), AllocError>
    ensures { OnOk result (map wait_view all.new.items ≡ map wait_view all.old.items
        ++ all_handed (shown_label label.now) (map wait_view waits.now)) }
{
    for wait in waits {
        if let Some(next) = wait.hand(label) {
            all.push(next)?;
        }
    }
    Ok(())
}

// Whether a kid with this label is handed nothing. It takes no memory.
pub(crate) fn hands_nothing(waits: &[Wait<'_>], label: &LabelView<'_>) -> bool
    ensures { result ≡ list_all (λ w. is_none (handed (shown_label label.now) w))
        (map wait_view waits.now) }
{
    for wait in waits {
        if wait.hand(label).is_some() {
            return false;
        }
    }
    true
}

/// What a node waits for by a rule with these key paths, if it has as many key values.
#[tactic(auto, using(crate::proofs::Waits::one_more, crate::proofs::Waits::none_more))]
pub fn waits_of<'a>(
    alloc: Global,
    paths: &'a [KeyPath],
    keys: &[BodyView<'a>],
) -> Result<Option<Vec<Wait<'a>>>, AllocError>
    ensures { IfOk result (λ o. option_map (λ v. map wait_view v.items) o
        ≡ awaited_by (map path_view paths.now) (map shown_body keys.now)) }
{
    let mut all = Vec::new(alloc);
    let mut values = keys.iter();
    for path in paths {
        let Some(value) = values.next() else {
            return Ok(None);
        };
        all.push(wait_for(path, *value))?;
    }
    match values.next() {
        Some(_) => Ok(None),
        None => Ok(Some(all)),
    }
}

fn wait_for<'a>(path: &'a KeyPath, value: BodyView<'a>) -> Wait<'a>
    ensures { wait_view result
        ≡ leads (path_view path.now).tags (path_view path.now).attr (shown_body value.entry) }
{
    Wait::Leads {
        tags: &path.tags,
        attr: &path.attr,
        value,
    }
}
