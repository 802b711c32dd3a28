// The first pass: the rules that the lines give.
ghost use Rattle.std.specs.Prelude.{◌≡◌, ◌+◌, ◌≤◌, ◌<◌, ◌^◌, true, None, Some, [], IfOk, IfErr, length, map};
ghost use Rattle.std.specs.List.{list_all, list_any};
ghost use Rattle.key_spec.specs.Names.{is_named_path};
ghost use Rattle.key_spec.specs.Lines.{lines};
ghost use Rattle.key_spec.specs.Closed.{numbered, given_rules, given_by, line_fault, first_of_all, repeats, clashes, exceeds, paths_why, is_dot};
ghost use Rattle.key_spec.specs.View.{given_view, path_view, IsFault};

use crate::fault::SpecFault;
use crate::form::read_rule;
use crate::line::{first_line, is_skipped};
use crate::rule::{KeyPath, Rule};
use crate::texts::{add_text, no_texts};
use std::alloc::{AllocError, Global};

/// At most so many key paths in a rule, and so many tags in a key path.
const MAX_PATHS: usize = 16;

const MAX_TAGS: usize = 8;

/// The rule of a line, with the line's number.
#[derive(Drop)]
pub(crate) struct Given {
    pub line: u32,
    pub rule: Rule,
}

/// The rules that the lines of the text give, or the first fault of a line for itself.
pub(crate) fn read_lines(alloc: Global, text: &[u8]) -> Result<Vec<Given>, SpecFault>
    requires { length text.now < 2 ^ 32 }
    ensures none { IfOk result
        (λ given. first_of_all line_fault (numbered 1 (lines text.now)) ≡ None) }
    ensures all { IfOk result (λ given. map given_view given.items
        ≡ given_rules (numbered 1 (lines text.now))) }
    ensures fault { IfErr result
        (λ e. IsFault e (first_of_all line_fault (numbered 1 (lines text.now)))) }
{
    let mut given = Vec::new(alloc);
    let mut rest = text;
    let mut number = 0;
    while !rest.is_empty() {
        let (line, behind) = first_line(rest);
        number += 1;
        if !is_skipped(line) {
            given.push(read_line(alloc, number, line)?)?;
        }
        rest = behind;
    }
    Ok(given)
}

fn read_line(alloc: Global, number: u32, line: &[u8]) -> Result<Given, SpecFault>
    ensures none { IfOk result (λ given. line_fault (number, line.now) ≡ None) }
    ensures rule { IfOk result (λ given. given_by (number, line.now) ≡ Some (given_view given)) }
    ensures fault { IfErr result (λ e. IsFault e (line_fault (number, line.now))) }
{
    let Some(rule) = read_rule(alloc, line)? else {
        return Err(SpecFault::Bad {
            line: number,
            why: 1,
        });
    };
    if let Some(why) = paths_why(alloc, &rule.paths)? {
        return Err(SpecFault::Bad { line: number, why });
    }
    Ok(Given { line: number, rule })
}

/// What is wrong with a rule's key paths for themselves.
fn paths_why(alloc: Global, paths: &[KeyPath]) -> Result<Option<u8>, AllocError>
    requires { list_all is_named_path (map path_view paths.now) ≡ true }
    ensures { IfOk result (λ why. why ≡ paths_why (map path_view paths.now)) }
{
    if clashes(alloc, paths)? {
        return Ok(Some(4));
    }
    if exceeds(paths) {
        return Ok(Some(7));
    }
    Ok(None)
}

/// Whether a key path stands twice, or `.` beside another.
fn clashes(alloc: Global, paths: &[KeyPath]) -> Result<bool, AllocError>
    requires { list_all is_named_path (map path_view paths.now) ≡ true }
    ensures { IfOk result (λ yes. yes ≡ clashes (map path_view paths.now)) }
{
    if repeats(alloc, paths)? {
        return Ok(true);
    }
    Ok(paths.len() > 1 && has_target(paths))
}

fn repeats(alloc: Global, paths: &[KeyPath]) -> Result<bool, AllocError>
    requires { list_all is_named_path (map path_view paths.now) ≡ true }
    ensures { IfOk result (λ yes. yes ≡ repeats [] (map path_view paths.now)) }
{
    let mut texts = no_texts(alloc);
    for path in paths {
        let new = add_text(&mut texts, path.text(alloc)?)?;
        if !new {
            return Ok(true);
        }
    }
    Ok(false)
}

/// Whether `.` is one of the key paths.
fn has_target(paths: &[KeyPath]) -> bool
    ensures { result ≡ list_any is_dot (map path_view paths.now) }
{
    for path in paths {
        if path.tags.is_empty() && path.attr.is_none() {
            return true;
        }
    }
    false
}

/// Whether there are too many key paths, or one has too many tags.
fn exceeds(paths: &[KeyPath]) -> bool
    ensures { result ≡ exceeds (map path_view paths.now) }
{
    if paths.len() > MAX_PATHS {
        return true;
    }
    for path in paths {
        if path.tags.len() > MAX_TAGS {
            return true;
        }
    }
    false
}
