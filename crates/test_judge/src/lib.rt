//! Tests of rows whose kids are opened one after another, and of leaves whose alternatives are held.
#![tactic(auto)]

#[cfg(test)]
mod leaves;
#[cfg(test)]
mod rows;
