#![tactic(auto, using(xa_outside::specs::TakenLaws::outputs))]

ghost use Rattle.std.specs.Prelude.{[], ◌∷◌, ◌++◌, codes, option_map, string_bytes};
ghost use Rattle.std.specs.Fmt.{decimal};
ghost use Rattle.std.specs.List.{flat_map};
ghost use Rattle.xa_outside.specs.Taken.{Puts};
ghost use Rattle.xa_outside.specs.Causes.{HasCause};
ghost use Rattle.jsonml_tree.specs.View.{place_view};
ghost use Rattle.key_spec.specs.Names.{ends_text, path_text, slashed};
ghost use Rattle.key_spec.specs.View.{names_view, path_view};
ghost use Rattle.xarch_words.specs.Lines.{fault_line, fault_text, key_path_text, no_version_text};
ghost use Rattle.xarch_words.specs.Lines.{place_text, quantity_text, step_text, why_text};
ghost use Rattle.xarch_words.specs.View.{fault_view, quantity_view};

use crate::fault::{Fault, Quantity};
use itoa::{Buffer, Integer};
use key_rules::KeyFault;
use key_spec::KeyPath;
use xa_outside::{Buffered, Failed, Sink, put_all};

/// Writes the line of a fault, with its LF, in one write where the sink takes it whole. It takes
/// no memory.
pub fn write_fault<E: Sink>(fault: &Fault, err: &mut E) -> Result<(), Failed>
    ensures bytes { Puts (E.taken err.old) (E.taken err.new) result
        (fault_line (fault_view fault.now)) }
    ensures cause { HasCause (E.faults err.old) (E.faults err.new) result }
{
    let mut line = Buffered::new(err);
    put_fault(&mut line, fault)?;
    line.flush()
}

#[tactic(auto, unfolding(crate::specs::Lines::fault_line))]
fn put_fault<E: Sink>(err: &mut E, fault: &Fault) -> Result<(), Failed>
    ensures bytes { Puts (E.taken err.old) (E.taken err.new) result
        (fault_line (fault_view fault.now)) }
    ensures cause { HasCause (E.faults err.old) (E.faults err.new) result }
{
    put_framed(err, b"xarch: ", fault, b"\n")
}

fn put_framed<E: Sink>(
    err: &mut E,
    before: &[u8],
    fault: &Fault,
    behind: &[u8],
) -> Result<(), Failed>
    ensures bytes { Puts (E.taken err.old) (E.taken err.new) result
        (before.now ++ fault_text (fault_view fault.now) ++ behind.now) }
    ensures cause { HasCause (E.faults err.old) (E.faults err.new) result }
{
    put_all(err, before)?;
    put_text(err, fault)?;
    put_all(err, behind)
}

#[tactic(auto, unfolding(crate::specs::Lines::fault_text, crate::specs::Lines::refusal_text, crate::specs::Lines::key_path_text))]
fn put_text<E: Sink>(err: &mut E, fault: &Fault) -> Result<(), Failed>
    ensures bytes { Puts (E.taken err.old) (E.taken err.new) result
        (fault_text (fault_view fault.now)) }
    ensures cause { HasCause (E.faults err.old) (E.faults err.new) result }
{
    match fault {
        Fault::Usage => put_all(err, b"these words are no command"),
        Fault::NoFile { name } => put_both(err, b"no file ", name.as_bytes()),
        Fault::Exists { name } => put_both(err, name.as_bytes(), b" exists"),
        Fault::BadSpec { line, why } => put_line(err, b"bad specification, line ", *line, *why),
        Fault::BadJson => put_all(err, b"bad json"),
        Fault::BadShape { place, why } => put_at(err, b"bad shape at ", &place.steps, *why),
        Fault::KeyFault(fault) => put_key_fault(err, b"key fault at ", fault),
        Fault::KeyFaultIn { version, fault } => {
            put_key_fault_in(err, b"key fault in version ", *version, b" at ", fault)
        }
        Fault::NoVersion { i, n } => put_no_version(err, *i, *n),
        Fault::BadPath { step } => put_number(err, b"bad path, step ", *step),
        Fault::Damaged { name } => put_both(err, b"damaged archive ", name.as_bytes()),
        Fault::Limit { quantity, number } => put_limit(err, *quantity, *number),
        Fault::NotFrontier => put_all(err, b"path is not at the frontier"),
        Fault::SpecDiffers { one, two } => put_names(err, one.as_bytes(), two.as_bytes()),
        Fault::BadCsv { row, why } => put_line(err, b"bad table, record ", *row, *why),
        Fault::BadText => put_all(err, b"bad text"),
        Fault::FolderFault => put_all(err, b"folder fault"),
        Fault::OutFault => put_all(err, b"output fault"),
        Fault::InFault => put_all(err, b"input fault"),
        Fault::Memory => put_all(err, b"out of memory"),
    }
}

fn put_both<E: Sink>(err: &mut E, first: &[u8], second: &[u8]) -> Result<(), Failed>
    ensures bytes { Puts (E.taken err.old) (E.taken err.new) result (first.now ++ second.now) }
    ensures cause { HasCause (E.faults err.old) (E.faults err.new) result }
{
    put_all(err, first)?;
    put_all(err, second)
}

/// That the keys of two archives differ.
fn put_names<E: Sink>(err: &mut E, one: &[u8], two: &[u8]) -> Result<(), Failed>
    ensures bytes { Puts (E.taken err.old) (E.taken err.new) result
        (codes "keys of " ++ one.now ++ (codes " and " ++ two.now ++ codes " differ")) }
    ensures cause { HasCause (E.faults err.old) (E.faults err.new) result }
{
    put_both(err, b"keys of ", one)?;
    put_both(err, b" and ", two)?;
    put_all(err, b" differ")
}

/// A number behind a text.
fn put_number<E: Sink, N: Integer>(err: &mut E, before: &[u8], number: N) -> Result<(), Failed>
    ensures bytes { Puts (E.taken err.old) (E.taken err.new) result (before.now ++ N.text number) }
    ensures cause { HasCause (E.faults err.old) (E.faults err.new) result }
{
    let mut buffer = Buffer::new();
    put_both(err, before, buffer.format(number).as_bytes())
}

#[tactic(auto, unfolding(crate::specs::Lines::why_text))]
fn put_why<E: Sink>(err: &mut E, why: u8) -> Result<(), Failed>
    ensures bytes { Puts (E.taken err.old) (E.taken err.new) result (why_text why) }
    ensures cause { HasCause (E.faults err.old) (E.faults err.new) result }
{
    put_number(err, b", why ", why)
}

fn put_line<E: Sink, N: Integer>(err: &mut E, before: &[u8], line: N, why: u8) -> Result<(), Failed>
    ensures bytes { Puts (E.taken err.old) (E.taken err.new) result
        (before.now ++ N.text line ++ why_text why) }
    ensures cause { HasCause (E.faults err.old) (E.faults err.new) result }
{
    put_number(err, before, line)?;
    put_why(err, why)
}

fn put_at<E: Sink>(err: &mut E, before: &[u8], place: &[u32], why: u8) -> Result<(), Failed>
    ensures bytes { Puts (E.taken err.old) (E.taken err.new) result
        (before.now ++ place_text place.now ++ why_text why) }
    ensures cause { HasCause (E.faults err.old) (E.faults err.new) result }
{
    put_all(err, before)?;
    put_place(err, place)?;
    put_why(err, why)
}

#[tactic(auto, unfolding(crate::specs::Lines::place_text))]
fn put_place<E: Sink>(err: &mut E, place: &[u32]) -> Result<(), Failed>
    ensures bytes { Puts (E.taken err.old) (E.taken err.new) result (place_text place.now) }
    ensures cause { HasCause (E.faults err.old) (E.faults err.new) result }
{
    match place {
        [] => put_all(err, b"/"),
        steps => put_steps(err, steps),
    }
}

fn put_steps<E: Sink>(err: &mut E, steps: &[u32]) -> Result<(), Failed>
    ensures bytes { Puts (E.taken err.old) (E.taken err.new) result (flat_map step_text steps.now) }
    ensures cause { HasCause (E.faults err.old) (E.faults err.new) result }
{
    for step in steps {
        put_number(err, b"/", *step)?;
    }
    Ok(())
}

#[tactic(auto, unfolding(crate::specs::Lines::no_version_text))]
fn put_no_version<E: Sink>(err: &mut E, i: u32, n: u32) -> Result<(), Failed>
    ensures bytes { Puts (E.taken err.old) (E.taken err.new) result (no_version_text i n) }
    ensures cause { HasCause (E.faults err.old) (E.faults err.new) result }
{
    put_numbers(err, b"no version ", i, b" of ", n)
}

/// Two numbers, each behind a text.
fn put_numbers<E: Sink>(
    err: &mut E,
    before: &[u8],
    first: u32,
    between: &[u8],
    second: u32,
) -> Result<(), Failed>
    ensures bytes { Puts (E.taken err.old) (E.taken err.new) result
        (before.now ++ decimal first ++ (between.now ++ decimal second)) }
    ensures cause { HasCause (E.faults err.old) (E.faults err.new) result }
{
    put_number(err, before, first)?;
    put_number(err, between, second)
}

fn put_limit<E: Sink>(err: &mut E, quantity: Quantity, number: u64) -> Result<(), Failed>
    ensures bytes { Puts (E.taken err.old) (E.taken err.new) result
        (codes "limit " ++ quantity_text (quantity_view quantity) ++ decimal number) }
    ensures cause { HasCause (E.faults err.old) (E.faults err.new) result }
{
    let before: &[u8] = match quantity {
        Quantity::Document => b"limit document ",
        Quantity::Depth => b"limit depth ",
        Quantity::Versions => b"limit versions ",
        Quantity::Specification => b"limit specification ",
        Quantity::Archive => b"limit archive ",
        Quantity::Line => b"limit line ",
        Quantity::Batch => b"limit batch ",
        Quantity::Demo => b"limit demo ",
        Quantity::Note => b"limit note ",
        Quantity::Text => b"limit text ",
    };
    put_number(err, before, number)
}

fn put_key_fault<E: Sink>(err: &mut E, before: &[u8], fault: &KeyFault) -> Result<(), Failed>
    ensures bytes { Puts (E.taken err.old) (E.taken err.new) result
        (before.now ++ place_text (place_view fault.now.place) ++ why_text fault.now.why
        ++ key_path_text (option_map path_view fault.now.key_path)) }
    ensures cause { HasCause (E.faults err.old) (E.faults err.new) result }
{
    put_at(err, before, &fault.place.steps, fault.why)?;
    put_key_path(err, &fault.key_path)
}

/// The fault of a version of an archive.
fn put_key_fault_in<E: Sink>(
    err: &mut E,
    before: &[u8],
    version: u32,
    between: &[u8],
    fault: &KeyFault,
) -> Result<(), Failed>
    ensures bytes { Puts (E.taken err.old) (E.taken err.new) result
        (before.now ++ decimal version ++ (between.now
        ++ place_text (place_view fault.now.place) ++ why_text fault.now.why
        ++ key_path_text (option_map path_view fault.now.key_path))) }
    ensures cause { HasCause (E.faults err.old) (E.faults err.new) result }
{
    put_number(err, before, version)?;
    put_key_fault(err, between, fault)
}

#[tactic(auto, unfolding(crate::specs::Lines::key_path_text))]
fn put_key_path<E: Sink>(err: &mut E, path: &Option<KeyPath>) -> Result<(), Failed>
    ensures bytes { Puts (E.taken err.old) (E.taken err.new) result
        (key_path_text (option_map path_view path.now)) }
    ensures cause { HasCause (E.faults err.old) (E.faults err.new) result }
{
    match path {
        Some(path) => put_path(err, b", key path ", path),
        None => Ok(()),
    }
}

fn put_path<E: Sink>(err: &mut E, before: &[u8], path: &KeyPath) -> Result<(), Failed>
    ensures bytes { Puts (E.taken err.old) (E.taken err.new) result
        (before.now ++ path_text (path_view path.now)) }
    ensures cause { HasCause (E.faults err.old) (E.faults err.new) result }
{
    put_all(err, before)?;
    match path.tags.split_first() {
        None => put_short_path(err, &path.attr),
        Some((first, rest)) => put_long_path(err, first, rest, &path.attr),
    }
}

/// A path without tags.
fn put_short_path<E: Sink>(err: &mut E, attr: &Option<String>) -> Result<(), Failed>
    ensures bytes { Puts (E.taken err.old) (E.taken err.new) result
        (ends_text [] (option_map string_bytes attr.now)) }
    ensures cause { HasCause (E.faults err.old) (E.faults err.new) result }
{
    match attr {
        None => put_all(err, b"."),
        Some(attr) => put_both(err, b"@", attr.as_bytes()),
    }
}

/// A path that has a tag at least.
fn put_long_path<E: Sink>(
    err: &mut E,
    first: &str,
    rest: &[String],
    attr: &Option<String>,
) -> Result<(), Failed>
    ensures bytes { Puts (E.taken err.old) (E.taken err.new) result
        (ends_text (first.now ∷ names_view rest.now) (option_map string_bytes attr.now)) }
    ensures cause { HasCause (E.faults err.old) (E.faults err.new) result }
{
    put_all(err, first.as_bytes())?;
    put_tags(err, rest)?;
    match attr {
        None => Ok(()),
        Some(attr) => put_both(err, b"/@", attr.as_bytes()),
    }
}

fn put_tags<E: Sink>(err: &mut E, tags: &[String]) -> Result<(), Failed>
    ensures bytes { Puts (E.taken err.old) (E.taken err.new) result
        (slashed (names_view tags.now)) }
    ensures cause { HasCause (E.faults err.old) (E.faults err.new) result }
{
    for tag in tags {
        put_both(err, b"/", tag.as_bytes())?;
    }
    Ok(())
}
