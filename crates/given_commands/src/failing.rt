//! A run in which each call of each object fails in turn.
use crate::calls::{Fails, OBJECTS, Object};
use crate::runs::Runs;
use crate::shown::part_of;
use crate::stopped::{Held, is_cut, is_whole};
use crate::tried::{Trial, Tried};
use std::alloc::Global;

/// More calls of one object than any case makes.
const MANY: u64 = 20_000;

/// What comes of failed calls.
#[derive(Drop)]
pub(crate) enum Verdict {
    /// Each that was made came to what it should.
    Holds,
    /// The call is not made.
    Unmade,
    Differs(String),
}

pub(crate) fn is_batch(words: &[String]) -> bool {
    match words {
        [word, ..] => word.as_str() == "batch",
        [] => false,
    }
}

/// Adds a batch with this front of its input.
fn add_stage<R: Runs>(runs: &mut R, trial: &Trial, input: &[u8], stages: &mut Vec<Tried>) -> bool {
    let fails = Fails::none(trial.alloc);
    stages.push(Tried::of(runs, trial, input, fails)).is_ok()
}

/// Whether this is the front of a batch before its first line, or up to a line feed.
fn is_front(input: &[u8]) -> bool {
    input.is_empty() || input.ends_with(b"\n")
}

/// Adds a batch before its first line, and after each that a line feed ends.
fn add_stages<R: Runs>(runs: &mut R, trial: &Trial, stages: &mut Vec<Tried>) -> bool {
    for end in 0..=trial.input.len() {
        let input = trial.input.get(..end).unwrap_or(&[]);
        if is_front(input) && !add_stage(runs, trial, input, stages) {
            return false;
        }
    }
    true
}

fn differing(alloc: Global, name: &str, number: u64, tried: &Tried) -> Verdict {
    let status = tried.status;
    let said = part_of(tried.said(), 0).escape_ascii();
    let written = part_of(tried.written(), 0).escape_ascii();
    let message = format!(in alloc;
        "where {name} {number} fails, status {status} came with '{said}' and '{written}'"
    );
    Verdict::Differs(message.unwrap_or(String::new(alloc)))
}

/// What comes of a run whose call of this number fails.
fn verdict_of(held: &Held, tried: &mut Tried, failing: &(&str, Object), number: u64) -> Verdict {
    let (name, object) = *failing;
    if is_whole(held, tried) && tried.has_to_come(object, number) {
        Verdict::Unmade
    } else if is_cut(held, tried, object) {
        Verdict::Holds
    } else {
        differing(held.trial.alloc, name, number, tried)
    }
}

/// Lets the call of this number fail.
fn try_call<R: Runs>(runs: &mut R, held: &Held, failing: &(&str, Object), number: u64) -> Verdict {
    let trial = held.trial;
    let fails = Fails::one(trial.alloc, failing.1, number);
    let mut tried = Tried::of(runs, trial, trial.input, fails);
    verdict_of(held, &mut tried, failing, number)
}

/// Lets each call of the object fail, until one is not made.
fn try_object<R: Runs>(runs: &mut R, held: &Held, failing: &(&str, Object)) -> Verdict {
    for number in 1..MANY {
        match try_call(runs, held, failing, number) {
            Verdict::Holds => {}
            verdict => return verdict,
        }
    }
    differing(held.trial.alloc, "each call up to", MANY, held.whole)
}

/// Lets each call of each object fail in turn.
fn try_objects<R: Runs>(runs: &mut R, held: &Held) -> Verdict {
    for failing in OBJECTS {
        match try_object(runs, held, failing) {
            Verdict::Unmade => {}
            verdict => return verdict,
        }
    }
    Verdict::Holds
}

/// Lets each call of each object fail in turn.
pub(crate) fn try_each_call<R: Runs>(runs: &mut R, trial: &Trial, whole: &Tried) -> Verdict {
    let mut stages = Vec::new(trial.alloc);
    if is_batch(trial.words) && !add_stages(runs, trial, &mut stages) {
        return differing(trial.alloc, "no call", 0, whole);
    }
    let held = Held {
        trial,
        whole,
        stages: &stages,
    };
    try_objects(runs, &held)
}
