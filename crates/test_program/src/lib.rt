//! Tests of whole commands that are no lines of text, over any objects and over the real folder, and of the program.
#![tactic(auto)]

#[cfg(test)]
mod merged;
#[cfg(test)]
mod over_memory;
#[cfg(test)]
mod program;
#[cfg(test)]
mod real_folder;
#[cfg(test)]
mod surely;
