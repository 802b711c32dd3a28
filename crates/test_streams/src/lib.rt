//! Tests of the streaming merge.
#![tactic(auto)]

#[cfg(test)]
mod archives;
#[cfg(test)]
mod damaged;
#[cfg(test)]
mod growing;
#[cfg(test)]
mod refusals;
