//! Tests of the crates that know documents: each public call with ample memory, and each refusal.
#![tactic(auto)]

#[cfg(test)]
mod asked;
#[cfg(test)]
mod samples;
#[cfg(test)]
mod texts;
#[cfg(test)]
mod trees;
#[cfg(test)]
mod wide;
