ghost use Rattle.std.specs.Prelude.{◌≡◌, ◌++◌, IfOk, OnOk, string_bytes, map, codes};
ghost use Rattle.key_spec.specs.Names.{slashed, tags_text, path_text, context_text};
ghost use Rattle.key_spec.specs.Canonical.{rule_text, paths_text};
ghost use Rattle.key_spec.specs.View.{names_view, path_view, rule_view};

use crate::copies::{copy_name, copy_names};
use std::alloc::{AllocError, Global};

/// A key path: the tags from element to child element, and then an attribute of the last one where one is given.
///
/// The path `.`, which stands for the target's own content, has no tags and no attribute.
#[derive(Debug, Drop)]
pub struct KeyPath {
    pub tags: Vec<String>,
    pub attr: Option<String>,
}

/// Under each node at the context, the elements of the tag are told apart by their values at the key paths.
///
/// The context is the list of tags from the root down; it is empty for the root itself.
#[derive(Debug, Drop)]
pub struct Rule {
    pub context: Vec<String>,
    pub tag: String,
    pub paths: Vec<KeyPath>,
}

impl KeyPath {
    /// The path as it is written in a specification, as `name/first` or `@id`.
    pub fn text(&self, alloc: Global) -> Result<String, AllocError>
        ensures { IfOk result (λ text. string_bytes text ≡ path_text (path_view self.now)) }
    {
        let mut text = String::new(alloc);
        push_path(&mut text, self)?;
        Ok(text)
    }

    pub fn copy(&self, alloc: Global) -> Result<KeyPath, AllocError>
        ensures { IfOk result (λ copy. path_view copy ≡ path_view self.now) }
    {
        let attr = match &self.attr {
            None => None,
            Some(name) => Some(copy_name(alloc, name)?),
        };
        Ok(KeyPath {
            tags: copy_names(alloc, &self.tags)?,
            attr,
        })
    }
}

/// Writes a rule as `(/db/dept, (emp, {fn, ln}))` at the end of the text.
pub(crate) fn push_rule(text: &mut String, rule: &Rule) -> Result<(), AllocError>
    ensures { OnOk result (string_bytes text.new
        ≡ string_bytes text.old ++ rule_text (rule_view rule.now)) }
{
    text.push_str("(")?;
    push_context(text, &rule.context)?;
    text.push_str(", (")?;
    text.push_str(rule.tag.as_str())?;
    text.push_str(", {")?;
    push_paths(text, &rule.paths)?;
    text.push_str("}))")
}

fn push_context(text: &mut String, context: &[String]) -> Result<(), AllocError>
    ensures { OnOk result (string_bytes text.new
        ≡ string_bytes text.old ++ context_text (names_view context.now)) }
{
    if context.is_empty() {
        text.push_str("/")
    } else {
        push_slashed(text, context)
    }
}

/// Writes each name behind a slash of its own at the end of the text.
pub(crate) fn push_slashed(text: &mut String, names: &[String]) -> Result<(), AllocError>
    ensures { OnOk result (string_bytes text.new
        ≡ string_bytes text.old ++ slashed (names_view names.now)) }
{
    for name in names {
        push_step(text, name.as_str())?;
    }
    Ok(())
}

/// Writes a slash and the name at the end of the text.
pub(crate) fn push_step(text: &mut String, name: &str) -> Result<(), AllocError>
    ensures { OnOk result (string_bytes text.new
        ≡ string_bytes text.old ++ (codes "/" ++ name.now)) }
{
    text.push_str("/")?;
    text.push_str(name)
}

fn push_paths(text: &mut String, paths: &[KeyPath]) -> Result<(), AllocError>
    ensures { OnOk result (string_bytes text.new
        ≡ string_bytes text.old ++ paths_text (map path_view paths.now)) }
{
    let Some((first, others)) = paths.split_first() else {
        return Ok(());
    };
    push_path(text, first)?;
    for path in others {
        text.push_str(", ")?;
        push_path(text, path)?;
    }
    Ok(())
}

fn push_path(text: &mut String, path: &KeyPath) -> Result<(), AllocError>
    ensures { OnOk result (string_bytes text.new
        ≡ string_bytes text.old ++ path_text (path_view path.now)) }
{
    match &path.attr {
        None => push_tags(text, &path.tags),
        Some(name) => {
            if path.tags.is_empty() {
                text.push_str("@")?;
            } else {
                push_tags(text, &path.tags)?;
                text.push_str("/@")?;
            }
            text.push_str(name.as_str())
        }
    }
}

fn push_tags(text: &mut String, tags: &[String]) -> Result<(), AllocError>
    ensures { OnOk result (string_bytes text.new
        ≡ string_bytes text.old ++ tags_text (names_view tags.now)) }
{
    match tags.split_first() {
        None => text.push_str("."),
        Some((first, others)) => {
            text.push_str(first.as_str())?;
            push_slashed(text, others)
        }
    }
}
