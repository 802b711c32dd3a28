//! Tests of the real folder and streams: on the real disk, and over a disk in memory, whatever comes.
#![tactic(auto)]

#[cfg(test)]
mod cases;
#[cfg(test)]
mod changes;
#[cfg(test)]
mod names;
#[cfg(test)]
mod over_memory;
#[cfg(test)]
mod real;
#[cfg(test)]
mod streams;
#[cfg(test)]
mod turns;
