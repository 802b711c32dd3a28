//! Tests of archives as text.
#![tactic(auto)]

#[cfg(test)]
mod contents;
#[cfg(test)]
mod read;
#[cfg(test)]
mod written;
