//! Tests of the outside, of the words of a command line and the lines of faults, and of the notes behind an archive.
#![tactic(auto)]

#[cfg(test)]
mod found;
#[cfg(test)]
mod given;
#[cfg(test)]
mod kept;
#[cfg(test)]
mod outside;
#[cfg(test)]
mod walked;
#[cfg(test)]
mod words;
