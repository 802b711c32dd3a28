#![tactic(auto, using(jsonml_tree::proofs::Trees::trees))]

ghost use Rattle.std.specs.Prelude.{◌≡◌, [], ◌∷◌, Ok, Err, Some, None, IfOk, IfErr, IfSome, IsTrue, OnOk, map, if◌then◌else◌};
ghost use Rattle.std.specs.List.{AllByRecursion};
ghost use Rattle.std.specs.Option.{option_map, option_and_then};
ghost use Rattle.serde_json.specs.Read.{read};
ghost use Rattle.serde_json.specs.View.{view as data_of, items_view};
ghost use Rattle.jsonml_tree.specs.View.{content_view};
ghost use Rattle.jsonml_tree.specs.WellFormed.{is_content_well_formed};
ghost use Rattle.keyed_tree.specs.View.{name_view, key_view, label_view};
ghost use Rattle.keyed_tree.specs.WellFormed.{IsKeyWellFormed, IsLabelWellFormed};
ghost use Rattle.key_spec.specs.View.{names_view, path_view, spec_view};
ghost use Rattle.key_rules.specs.UserPaths.{content_value, value_by, values_by, has_sign, behind_sign, element_step, attr_step, word_step, list_step, step_label, onward, labels_from, user_path, HaveRules};
ghost use Rattle.key_rules.specs.View.{path_fault_view, here_view, NamesSteps};

use crate::fault::PathFault;
use jsonml_text::{content_of, scalar_of};
use jsonml_tree::Content;
use key_spec::{KeyPath, Spec};
use keyed_tree::{KeyVal, Label, Name};
use serde_json::Value;
use std::alloc::{AllocError, Global};

/// The labels that a user's path names, from the root element on: a JSON array of steps.
///
/// A step is the tag of an element, as `"db"`; an array of the tag and the key values in the order of its rule, as
/// `["dept", "finance"]`; or `@` and the name of an attribute. A key value is a scalar for a key path that ends in an
/// attribute, else a string, or an array of items, in front of which an object of attributes may stand.
pub fn read_path(alloc: Global, spec: &Spec, text: &str) -> Result<Vec<Label>, PathFault>
    ensures labels { IfOk result
        (λ ls. user_path (spec_view spec.now) text.now ≡ Ok (map label_view ls.items)) }
    ensures fault { IfErr result
        (λ e. IfSome (path_fault_view e)
        (λ step. user_path (spec_view spec.now) text.now ≡ Err step)) }

    // What every path that is read is.
    ensures well_formed { IfOk result
        (λ ls. AllByRecursion IsLabelWellFormed (map label_view ls.items)) }
    ensures rules { IfOk result
        (λ ls. HaveRules (spec_view spec.now) [] (map label_view ls.items)) }
{
    match path_value(alloc, text)? {
        Value::Array(steps) => read_steps(alloc, spec, &steps),
        _ => Err(PathFault::Bad { step: 0 }),
    }
}

/// The JSON value of the text.
fn path_value(alloc: Global, text: &str) -> Result<Value, PathFault>
    ensures value { IfOk result (λ v. read text.now ≡ Some (data_of v)) }
    ensures fault { IfErr result
        (λ e. IfSome (path_fault_view e) (λ step. (step ≡ 0) × (read text.now ≡ None))) }
{
    match Value::from_str(alloc, text) {
        Ok(value) => Ok(value),
        Err(error) => if error.is_memory() {
            Err(PathFault::Memory)
        } else {
            Err(PathFault::Bad { step: 0 })
        },
    }
}

#[tactic(auto, using(crate::proofs::UserPathLemmas::one_on))]
fn read_steps(alloc: Global, spec: &Spec, steps: &[Value]) -> Result<Vec<Label>, PathFault>
    ensures labels { IfOk result
        (λ ls. labels_from (spec_view spec.now) 1 (Some []) (items_view steps.now)
        ≡ Ok (map label_view ls.items)) }
    ensures fault { IfErr result
        (λ e. IfSome (path_fault_view e)
        (λ step. labels_from (spec_view spec.now) 1 (Some []) (items_view steps.now) ≡ Err step)) }
    ensures well_formed { IfOk result
        (λ ls. AllByRecursion IsLabelWellFormed (map label_view ls.items)) }
{
    let mut labels = Vec::new(alloc);
    let mut here = Some(Vec::new(alloc));
    add_steps(alloc, spec, steps, &mut here, &mut labels)?;
    Ok(labels)
}

/// Adds the label of each step, and goes on to its element.
#[tactic(auto, using(crate::proofs::UserPathLemmas::one_on))]
fn add_steps(
    alloc: Global,
    spec: &Spec,
    steps: &[Value],
    here: &mut Option<Vec<String>>,
    labels: &mut Vec<Label>,
) -> Result<(), PathFault>
    requires empty { labels.old.items ≡ [] }
    ensures { NamesSteps (labels_from (spec_view spec.now) 1 (here_view here.old)
        (items_view steps.now)) labels.new result }
{
    let mut number: u32 = 0;
    for step in steps {
        let Some(next) = number.checked_add(1) else {
            return Err(PathFault::Memory);
        };
        number = next;
        let Some(label) = read_next(alloc, spec, here, step)? else {
            return Err(PathFault::Bad { step: number });
        };
        go_on(alloc, here, &label.name)?;
        labels.push(label)?;
    }
    Ok(())
}

/// Goes on to the element of this name, if all steps so far are elements and this is one too.
fn go_on(alloc: Global, here: &mut Option<Vec<String>>, name: &Name) -> Result<(), AllocError>
    ensures { OnOk result (here_view here.new ≡ onward (here_view here.old) (name_view name.now)) }
{
    let Name::Tag(tag) = name else {
        *here = None;
        return Ok(());
    };
    if let Some(path) = here {
        path.push(String::from_str(alloc, tag.as_str())?)?;
    }
    Ok(())
}

/// The label that a step names, if it is good there.
fn read_next(
    alloc: Global,
    spec: &Spec,
    here: &Option<Vec<String>>,
    step: &Value,
) -> Result<Option<Label>, AllocError>
    ensures label { IfOk result
        (λ l. option_map label_view l
        ≡ option_and_then
        (λ path. step_label (spec_view spec.now) path (data_of step.now)) (here_view here.now)) }
    ensures well_formed { IfOk result (λ l. IfSome l (λ l. IsLabelWellFormed (label_view l))) }
{
    match here {
        Some(path) => read_step(alloc, spec, path, step),
        None => Ok(None),
    }
}

fn read_step(
    alloc: Global,
    spec: &Spec,
    path: &[String],
    step: &Value,
) -> Result<Option<Label>, AllocError>
    ensures label { IfOk result
        (λ l. option_map label_view l
        ≡ step_label (spec_view spec.now) (names_view path.now) (data_of step.now)) }
    ensures well_formed { IfOk result (λ l. IfSome l (λ l. IsLabelWellFormed (label_view l))) }
{
    match step {
        Value::String(word) => read_word(alloc, spec, path, word.as_str()),
        Value::Array(values) => read_list(alloc, spec, path, values),
        _ => Ok(None),
    }
}

fn read_word(
    alloc: Global,
    spec: &Spec,
    path: &[String],
    word: &str,
) -> Result<Option<Label>, AllocError>
    ensures label { IfOk result
        (λ l. option_map label_view l
        ≡ word_step (spec_view spec.now) (names_view path.now) word.now) }
    ensures well_formed { IfOk result (λ l. IfSome l (λ l. IsLabelWellFormed (label_view l))) }
{
    match attr_name(word) {
        Some(name) => read_attr(alloc, spec, path, name),
        None => read_element(alloc, spec, path, word, &[]),
    }
}

/// What stands behind an `@` in front.
fn attr_name(word: &str) -> Option<&str>
    ensures { option_map (λ name. name.now) result
        ≡ (if has_sign word.now then Some (behind_sign word.now) else None) }
{
    word.strip_prefix('@')
}

fn read_attr(
    alloc: Global,
    spec: &Spec,
    path: &[String],
    name: &str,
) -> Result<Option<Label>, AllocError>
    ensures label { IfOk result
        (λ l. option_map label_view l
        ≡ attr_step (spec_view spec.now) (names_view path.now) name.now) }
    ensures well_formed { IfOk result (λ l. IfSome l (λ l. IsLabelWellFormed (label_view l))) }
{
    if path.is_empty() || spec.is_frontier(path) {
        return Ok(None);
    }
    Ok(Some(Label {
        name: Name::Attr(String::from_str(alloc, name)?),
        keys: Vec::new(alloc),
    }))
}

fn read_list(
    alloc: Global,
    spec: &Spec,
    path: &[String],
    values: &[Value],
) -> Result<Option<Label>, AllocError>
    ensures label { IfOk result
        (λ l. option_map label_view l
        ≡ list_step (spec_view spec.now) (names_view path.now) (items_view values.now)) }
    ensures well_formed { IfOk result (λ l. IfSome l (λ l. IsLabelWellFormed (label_view l))) }
{
    let Some((first, others)) = values.split_first() else {
        return Ok(None);
    };
    let Value::String(word) = first else {
        return Ok(None);
    };
    if attr_name(word.as_str()).is_some() {
        return Ok(None);
    }
    read_element(alloc, spec, path, word.as_str(), others)
}

fn read_element(
    alloc: Global,
    spec: &Spec,
    path: &[String],
    tag: &str,
    values: &[Value],
) -> Result<Option<Label>, AllocError>
    ensures label { IfOk result
        (λ l. option_map label_view l
        ≡ element_step (spec_view spec.now) (names_view path.now) tag.now (items_view values.now)) }
    ensures well_formed { IfOk result (λ l. IfSome l (λ l. IsLabelWellFormed (label_view l))) }
{
    let Some(rule) = spec.rule(path, tag) else {
        return Ok(None);
    };
    let Some(keys) = read_values(alloc, &rule.paths, values)? else {
        return Ok(None);
    };
    Ok(Some(Label {
        name: Name::Tag(String::from_str(alloc, tag)?),
        keys,
    }))
}

/// One key value for each key path.
#[tactic(auto, using(crate::proofs::UserPathLemmas::one_on))]
fn read_values(
    alloc: Global,
    paths: &[KeyPath],
    values: &[Value],
) -> Result<Option<Vec<KeyVal>>, AllocError>
    ensures keys { IfOk result
        (λ ks. option_map (λ ks. map key_view ks.items) ks
        ≡ values_by (map path_view paths.now) (items_view values.now)) }
    ensures well_formed { IfOk result
        (λ ks. IfSome ks (λ ks. AllByRecursion IsKeyWellFormed (map key_view ks.items))) }
{
    if values.len() != paths.len() {
        return Ok(None);
    }
    let mut keys = Vec::with_capacity(alloc, paths.len())?;
    for (number, path) in paths.iter().enumerate() {
        let Some(key) = read_value(alloc, path, &values[number])? else {
            return Ok(None);
        };
        keys.push_reserved(key);
    }
    Ok(Some(keys))
}

/// The value for a key path: a scalar where it names an attribute, else a content.
fn read_value(alloc: Global, path: &KeyPath, value: &Value) -> Result<Option<KeyVal>, AllocError>
    ensures key { IfOk result
        (λ k. option_map key_view k ≡ value_by (path_view path.now).attr (data_of value.now)) }
    ensures well_formed { IfOk result (λ k. IfSome k (λ k. IsKeyWellFormed (key_view k))) }
{
    match path.attr {
        Some(_) => Ok(scalar_of(alloc, value)?.map(KeyVal::Scalar)),
        None => Ok(read_content(alloc, value)?.map(KeyVal::Content)),
    }
}

fn read_content(alloc: Global, value: &Value) -> Result<Option<Content>, AllocError>
    ensures content { IfOk result
        (λ c. option_map content_view c ≡ content_value (data_of value.now)) }
    ensures well_formed { IfOk result
        (λ c. IfSome c (λ c. IsTrue (is_content_well_formed (content_view c)))) }
{
    match value {
        Value::String(word) => Ok(Some(Content::of_text(alloc, word.as_str())?)),
        Value::Array(values) => content_of(alloc, values),
        _ => Ok(None),
    }
}
