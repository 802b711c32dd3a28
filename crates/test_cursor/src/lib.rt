//! Tests of archive files that are read record by record: their headers, their records, and the ENDs of their rows.
#![tactic(auto)]

#[cfg(test)]
mod again;
#[cfg(test)]
mod bodies;
#[cfg(test)]
mod closed_rows;
#[cfg(test)]
mod cursors;
#[cfg(test)]
mod headers;
#[cfg(test)]
mod kids;
#[cfg(test)]
mod long_row;
#[cfg(test)]
mod nested;
mod stand;
#[cfg(test)]
mod stopped;
#[cfg(test)]
mod walk;

pub use stand::Stand;
