//! Tests of archives under other keys.
#![tactic(auto)]

#[cfg(test)]
mod archives;
#[cfg(test)]
mod refusals;
#[cfg(test)]
mod rekeyed;
#[cfg(test)]
mod wide;
