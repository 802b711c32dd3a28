//! Generated documents: the company specification, and documents that satisfy it.
#![tactic(auto)]

mod company;
mod document;
mod elements;
mod employee;

pub use company::company_spec;
pub use document::sample;
