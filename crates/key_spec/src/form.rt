// The rule that a line gives.
ghost use Rattle.std.specs.Prelude.{◌≡◌, IfOk, map, option_map, string_bytes};
ghost use Rattle.key_spec.specs.Names.{context_of, path_of};
ghost use Rattle.key_spec.specs.Form.{tokens, first_as, name_of, head_of, paths_of, some_paths, spelled, line_rule, is_end};
ghost use Rattle.key_spec.specs.View.{names_view, path_view, rule_view};

use crate::name::{is_name, read_context, read_path};
use crate::rule::{KeyPath, Rule};
use crate::token::{behind, behind_both, first_word, trimmed};
use std::alloc::{AllocError, Global};

/// The rule that a line gives, where it is UTF-8 and of the form of a rule.
pub(crate) fn read_rule(alloc: Global, line: &[u8]) -> Result<Option<Rule>, AllocError>
    ensures { IfOk result (λ rule. option_map rule_view rule ≡ line_rule line.now) }
{
    match str::from_utf8(line) {
        Err(_) => Ok(None),
        Ok(text) => read_text(alloc, text),
    }
}

fn read_text(alloc: Global, line: &str) -> Result<Option<Rule>, AllocError>
    ensures { IfOk result (λ rule. option_map rule_view rule ≡ spelled (tokens line.now)) }
{
    let Some((context, tag, rest)) = read_place(alloc, line)? else {
        return Ok(None);
    };
    let Some((paths, rest)) = read_paths(alloc, rest)? else {
        return Ok(None);
    };
    if !ends(rest) {
        return Ok(None);
    }
    Ok(Some(Rule {
        context,
        tag,
        paths,
    }))
}

/// The context and the tag, and what stands behind the brace after them.
fn read_place(alloc: Global, line: &str) -> Result<Option<(Vec<String>, String, &str)>, AllocError>
    ensures { IfOk result (λ found.
        option_map (λ f. ((names_view f.0.items, string_bytes f.1), tokens f.2.now)) found
        ≡ head_of (tokens line.now)) }
{
    let Some(rest) = behind(line, '(') else {
        return Ok(None);
    };
    let Some((context, rest)) = read_context_word(alloc, rest)? else {
        return Ok(None);
    };
    let Some(rest) = behind_both(rest, ',', '(') else {
        return Ok(None);
    };
    let Some((tag, rest)) = read_tag_word(alloc, rest)? else {
        return Ok(None);
    };
    let Some(rest) = behind_both(rest, ',', '{') else {
        return Ok(None);
    };
    Ok(Some((context, tag, rest)))
}

fn read_context_word(alloc: Global, line: &str) -> Result<Option<(Vec<String>, &str)>, AllocError>
    ensures { IfOk result (λ found. option_map (λ f. (names_view f.0.items, tokens f.1.now)) found
        ≡ first_as context_of (tokens line.now)) }
{
    let Some((text, rest)) = first_word(line) else {
        return Ok(None);
    };
    let Some(context) = read_context(alloc, text)? else {
        return Ok(None);
    };
    Ok(Some((context, rest)))
}

fn read_tag_word(alloc: Global, line: &str) -> Result<Option<(String, &str)>, AllocError>
    ensures { IfOk result (λ found. option_map (λ f. (string_bytes f.0, tokens f.1.now)) found
        ≡ first_as name_of (tokens line.now)) }
{
    let Some((text, rest)) = first_word(line) else {
        return Ok(None);
    };
    if !is_name(text) {
        return Ok(None);
    }
    Ok(Some((String::from_str(alloc, text)?, rest)))
}

/// The key paths up to the closing brace, and what stands behind it.
fn read_paths(alloc: Global, line: &str) -> Result<Option<(Vec<KeyPath>, &str)>, AllocError>
    ensures { IfOk result (λ found.
        option_map (λ f. (map path_view f.0.items, tokens f.1.now)) found
        ≡ paths_of (tokens line.now)) }
{
    if let Some(rest) = behind(line, '}') {
        return Ok(Some((Vec::new(alloc), rest)));
    }
    read_some_paths(alloc, line)
}

/// One key path or more with commas between them, up to the closing brace.
fn read_some_paths(alloc: Global, line: &str) -> Result<Option<(Vec<KeyPath>, &str)>, AllocError>
    ensures { IfOk result (λ found.
        option_map (λ f. (map path_view f.0.items, tokens f.1.now)) found
        ≡ some_paths (tokens line.now)) }
{
    let mut paths = Vec::new(alloc);
    let mut left = line;
    loop {
        let Some((path, rest)) = read_path_word(alloc, left)? else {
            return Ok(None);
        };
        paths.push(path)?;
        if let Some(rest) = behind(rest, '}') {
            return Ok(Some((paths, rest)));
        }
        let Some(rest) = behind(rest, ',') else {
            return Ok(None);
        };
        left = rest;
    }
}

fn read_path_word(alloc: Global, line: &str) -> Result<Option<(KeyPath, &str)>, AllocError>
    ensures { IfOk result (λ found. option_map (λ f. (path_view f.0, tokens f.1.now)) found
        ≡ first_as path_of (tokens line.now)) }
{
    let Some((text, rest)) = first_word(line) else {
        return Ok(None);
    };
    let Some(path) = read_path(alloc, text)? else {
        return Ok(None);
    };
    Ok(Some((path, rest)))
}

/// Whether the two closing parentheses and nothing more are left.
fn ends(line: &str) -> bool
    ensures { result ≡ is_end (tokens line.now) }
{
    let Some(rest) = behind_both(line, ')', ')') else {
        return false;
    };
    trimmed(rest).is_empty()
}
