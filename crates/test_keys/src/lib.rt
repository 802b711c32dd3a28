//! Tests of keys, and of tables as documents that satisfy them: each public call with ample memory, and each refusal.
#![tactic(auto)]

#[cfg(test)]
mod annotations;
#[cfg(test)]
mod keyed_trees;
#[cfg(test)]
mod reading;
#[cfg(test)]
mod rules;
#[cfg(test)]
mod specifications;
#[cfg(test)]
mod table_keys;
#[cfg(test)]
mod table_texts;
#[cfg(test)]
mod tables;
