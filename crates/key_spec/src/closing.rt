// The second pass: how the rules of all lines fit together.
ghost use Rattle.std.specs.Prelude.{◌≡◌, [], ◌∷◌, true, None, IfOk, IfErr, OnOk, map, string_bytes};
ghost use Rattle.std.specs.BTreeSet.{contains_text};
ghost use Rattle.std.specs.List.{list_all, list_any};
ghost use Rattle.key_spec.specs.Names.{slashed, is_named};
ghost use Rattle.key_spec.specs.Closed.{closing_fault};
ghost use Rattle.key_spec.specs.Marks.{HoldMarks, AddMarks, GoesAlong};
ghost use Rattle.key_spec.specs.Texts.{Holds, Adds, target_text, texts_along, contexts_along, implied_texts, end_text, end_texts, text_lacks_context, text_passes_end, text_why};
ghost use Rattle.key_spec.specs.View.{names_view, path_view, rule_view, given_view, rules_view, IsFault};

use crate::fault::SpecFault;
use crate::given::Given;
use crate::rule::{KeyPath, Rule, push_slashed, push_step};
use crate::texts::{add_text, has_text, no_texts};
use std::alloc::{AllocError, Global};
use std::collections::BTreeSet;

/// Paths by their texts, as `/db/dept`: the targets of the given rules and of the implied ones, and the frontier ends.
#[derive(Drop)]
struct Marks {
    given: BTreeSet<String>,
    implied: BTreeSet<String>,
    ends: BTreeSet<String>,
}

/// Whether the rules fit together, or the first fault of a line among the others.
pub(crate) fn check_closing(alloc: Global, given: &[Given]) -> Result<(), SpecFault>
    requires { list_all is_named (rules_view given.now) ≡ true }
    ensures none { OnOk result
        (closing_fault (rules_view given.now) [] (map given_view given.now) ≡ None) }
    ensures fault { IfErr result
        (λ e. IsFault e (closing_fault (rules_view given.now) [] (map given_view given.now))) }
{
    let marks = read_marks(alloc, given)?;
    check_each(alloc, &marks, &mut no_texts(alloc), given)
}

fn read_marks(alloc: Global, given: &[Given]) -> Result<Marks, AllocError>
    ensures { IfOk result (λ marks. HoldMarks marks (rules_view given.now)) }
{
    let mut marks = no_marks(alloc);
    for one in given {
        add_marks(alloc, &mut marks, &one.rule)?;
    }
    Ok(marks)
}

fn no_marks(alloc: Global) -> Marks
    ensures { HoldMarks result [] }
{
    let given = no_texts(alloc);
    let implied = no_texts(alloc);
    let ends = no_texts(alloc);
    Marks {
        given,
        implied,
        ends,
    }
}

/// Takes in the target of a rule, those of the rules that it implies, and its frontier ends.
fn add_marks(alloc: Global, marks: &mut Marks, rule: &Rule) -> Result<(), AllocError>
    ensures { OnOk result (AddMarks marks.old marks.new (target_text (rule_view rule.now) ∷ [])
        (implied_texts (rule_view rule.now)) (end_texts (rule_view rule.now))) }
{
    let target = target_text(alloc, rule)?;
    for path in &rule.paths {
        add_way(alloc, marks, target.as_str(), path)?;
    }
    add_text(&mut marks.given, target)?;
    Ok(())
}

/// Checks one rule after the other, and takes in their targets.
fn check_each(
    alloc: Global,
    marks: &Marks,
    earlier: &mut BTreeSet<String>,
    given: &[Given],
) -> Result<(), SpecFault>
    requires named { list_all is_named (rules_view given.now) ≡ true }
    requires marks { HoldMarks marks.now (rules_view given.now) }
    requires earlier { Holds earlier.old [] }
    ensures none { OnOk result
        (closing_fault (rules_view given.now) [] (map given_view given.now) ≡ None) }
    ensures fault { IfErr result
        (λ e. IsFault e (closing_fault (rules_view given.now) [] (map given_view given.now))) }
{
    for one in given {
        if let Some(why) = closing_why(alloc, marks, earlier, &one.rule)? {
            return Err(SpecFault::Bad {
                line: one.line,
                why,
            });
        }
        add_target(alloc, earlier, &one.rule)?;
    }
    Ok(())
}

/// What is wrong with a rule among the others, behind earlier ones.
fn closing_why(
    alloc: Global,
    marks: &Marks,
    earlier: &BTreeSet<String>,
    rule: &Rule,
) -> Result<Option<u8>, AllocError>
    ensures { IfOk result (λ why.
        why ≡ text_why marks.now.given marks.now.implied marks.now.ends earlier.now
        (rule_view rule.now)) }
{
    let context = path_text(alloc, &rule.context)?;
    let target = target_text(alloc, rule)?;
    why_at(
        alloc,
        marks,
        earlier,
        rule,
        context.as_str(),
        target.as_str(),
    )
}

/// The same, by the texts of the rule's context and target.
fn why_at(
    alloc: Global,
    marks: &Marks,
    earlier: &BTreeSet<String>,
    rule: &Rule,
    context: &str,
    target: &str,
) -> Result<Option<u8>, AllocError>
    requires context { context.now ≡ slashed (rule_view rule.now).context }
    requires target { target.now ≡ target_text (rule_view rule.now) }
    ensures { IfOk result (λ why.
        why ≡ text_why marks.now.given marks.now.implied marks.now.ends earlier.now
        (rule_view rule.now)) }
{
    if lacks_context(marks, rule, context) {
        return Ok(Some(2));
    }
    if has_text(earlier, target) {
        return Ok(Some(3));
    }
    if !rule.paths.is_empty() && has_text(&marks.implied, target) {
        return Ok(Some(5));
    }
    if passes_end(alloc, &marks.ends, rule, context, target)? {
        return Ok(Some(6));
    }
    Ok(None)
}

/// Whether the context is not `/` and no rule's target.
fn lacks_context(marks: &Marks, rule: &Rule, context: &str) -> bool
    requires { context.now ≡ slashed (rule_view rule.now).context }
    ensures { result ≡ text_lacks_context marks.now.given marks.now.implied (rule_view rule.now) }
{
    !rule.context.is_empty()
        && !(has_text(&marks.given, context) || has_text(&marks.implied, context))
}

/// Whether the rule or one that it implies has a frontier end as its context.
fn passes_end(
    alloc: Global,
    ends: &BTreeSet<String>,
    rule: &Rule,
    context: &str,
    target: &str,
) -> Result<bool, AllocError>
    requires context { context.now ≡ slashed (rule_view rule.now).context }
    requires target { target.now ≡ target_text (rule_view rule.now) }
    ensures { IfOk result (λ yes. yes ≡ text_passes_end ends.now (rule_view rule.now)) }
{
    if has_text(ends, context) {
        return Ok(true);
    }
    for path in &rule.paths {
        if leads_past(alloc, ends, target, &path.tags)? {
            return Ok(true);
        }
    }
    Ok(false)
}

/// Whether the way through the tags goes on behind a frontier end.
fn leads_past(
    alloc: Global,
    ends: &BTreeSet<String>,
    target: &str,
    tags: &[String],
) -> Result<bool, AllocError>
    ensures { IfOk result (λ yes.
        yes ≡ list_any (contains_text ends.now) (contexts_along target.now (names_view tags.now))) }
{
    let mut here = String::from_str(alloc, target)?;
    for tag in tags {
        if has_text(ends, here.as_str()) {
            return Ok(true);
        }
        push_step(&mut here, tag.as_str())?;
    }
    Ok(false)
}

fn add_target(alloc: Global, texts: &mut BTreeSet<String>, rule: &Rule) -> Result<(), AllocError>
    ensures { OnOk result (Adds texts.old texts.new (target_text (rule_view rule.now) ∷ [])) }
{
    let text = target_text(alloc, rule)?;
    add_text(texts, text)?;
    Ok(())
}

/// Takes in each element on the way of a key path, and the last one as an end where no attribute follows.
fn add_way(alloc: Global, marks: &mut Marks, target: &str, path: &KeyPath) -> Result<(), AllocError>
    ensures { OnOk result (AddMarks marks.old marks.new []
        (texts_along target.now (path_view path.now).tags)
        (end_text target.now (path_view path.now))) }
{
    let mut here = String::from_str(alloc, target)?;
    add_along(alloc, &mut marks.implied, &mut here, &path.tags)?;
    if path.attr.is_some() {
        return Ok(());
    }
    add_text(&mut marks.ends, here)?;
    Ok(())
}

/// Goes through the tags, and takes in each element on the way.
fn add_along(
    alloc: Global,
    texts: &mut BTreeSet<String>,
    here: &mut String,
    tags: &[String],
) -> Result<(), AllocError>
    ensures { OnOk result (GoesAlong texts.old texts.new
        (string_bytes here.old) (string_bytes here.new) (names_view tags.now)) }
{
    for tag in tags {
        push_step(here, tag.as_str())?;
        add_text(texts, String::from_str(alloc, here.as_str())?)?;
    }
    Ok(())
}

/// The text of a rule's target.
fn target_text(alloc: Global, rule: &Rule) -> Result<String, AllocError>
    ensures { IfOk result (λ text. string_bytes text ≡ target_text (rule_view rule.now)) }
{
    let mut text = path_text(alloc, &rule.context)?;
    push_step(&mut text, rule.tag.as_str())?;
    Ok(text)
}

/// A slash and a name for each step.
fn path_text(alloc: Global, path: &[String]) -> Result<String, AllocError>
    ensures { IfOk result (λ text. string_bytes text ≡ slashed (names_view path.now)) }
{
    let mut text = String::new(alloc);
    push_slashed(&mut text, path)?;
    Ok(text)
}
