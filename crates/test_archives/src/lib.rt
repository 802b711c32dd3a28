//! Tests of archives in memory, of merges into them, and of the sets of versions, the timestamp trees and the fields in them.
#![tactic(auto)]

#[cfg(test)]
mod archives;
#[cfg(test)]
mod fields;
#[cfg(test)]
mod known;
#[cfg(test)]
mod merges;
#[cfg(test)]
mod nodes;
#[cfg(test)]
mod searches;
#[cfg(test)]
mod sets;
