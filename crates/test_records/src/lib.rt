//! Tests of records and their parts, and of files that are written record by record.
#![tactic(auto)]

#[cfg(test)]
mod damaged_records;
#[cfg(test)]
mod files;
#[cfg(test)]
mod lent_labels;
#[cfg(test)]
mod levels;
#[cfg(test)]
mod records;
#[cfg(test)]
mod refusals;
