// Sets of runs, spread to the numbers of the runs.
ghost use Rattle.std.specs.Prelude.{◌≡◌, ◌≤◌, IfOk, length};
ghost use Rattle.version_set.specs.Pairs.{last_of};
ghost use Rattle.version_set.specs.View.{pairs_of};
ghost use Rattle.version_runs.specs.Runs.{AreStarts, end_of};
ghost use Rattle.version_runs.specs.Spread.{spread_pair, spread_pairs};

use std::alloc::{AllocError, Global};
use version_set::VersionSet;

/// The numbers up to the last one whose runs are in the set.
pub fn spread_set(
    alloc: Global,
    starts: &[u32],
    last: u32,
    set: &VersionSet,
) -> Result<VersionSet, AllocError>
    requires starts { AreStarts starts.now last }
    requires within { last_of (pairs_of set.now) ≤ length starts.now }
    ensures { IfOk result (λ s. pairs_of s ≡ spread_pairs starts.now last (pairs_of set.now)) }
{
    let mut numbers = VersionSet::empty(alloc);
    for pair in set.pairs() {
        numbers.push_pair(spread_pair(starts, last, *pair))?;
    }
    Ok(numbers)
}

// An interval of runs, as one of numbers.
fn spread_pair(starts: &[u32], last: u32, pair: (u32, u32)) -> (u32, u32)
    requires starts { AreStarts starts.now last }
    requires some { 1 ≤ pair.0 }
    requires order { pair.0 ≤ pair.1 }
    requires within { pair.1 ≤ length starts.now }
    ensures { result ≡ spread_pair starts.now last pair }
{
    let (from, to) = pair;
    (starts[from as usize - 1], end_of(starts, last, to))
}

// The last number of a run.
fn end_of(starts: &[u32], last: u32, run: u32) -> u32
    requires { AreStarts starts.now last }
    ensures { result ≡ end_of starts.now last run }
{
    match starts.get(run as usize) {
        Some(next) => *next - 1,
        None => last,
    }
}
