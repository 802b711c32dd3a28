//! Tests of whole archive files, and of what holds of their nodes.
#![tactic(auto)]

#[cfg(test)]
mod checks;
#[cfg(test)]
mod counts;
#[cfg(test)]
mod damaged_files;
#[cfg(test)]
mod files;
#[cfg(test)]
mod keyed_files;
#[cfg(test)]
mod large;
#[cfg(test)]
mod waits;
