//! Tests of what is searched in an archive file: its rows, a version, a history and a log.
#![tactic(auto)]

#[cfg(test)]
mod bounds;
#[cfg(test)]
mod deep;
#[cfg(test)]
mod files;
#[cfg(test)]
mod gets;
#[cfg(test)]
mod histories;
#[cfg(test)]
mod log_worked;
#[cfg(test)]
mod logs;
#[cfg(test)]
mod parts;
#[cfg(test)]
mod rows;
#[cfg(test)]
mod turns;
