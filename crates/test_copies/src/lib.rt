//! Tests of cutting versions out of archives, and of joining archives.
#![tactic(auto)]

#[cfg(test)]
mod cut_files;
#[cfg(test)]
mod cut_refusals;
#[cfg(test)]
mod join_refusals;
#[cfg(test)]
mod joined_files;
#[cfg(test)]
mod slices;
#[cfg(test)]
mod whole;
