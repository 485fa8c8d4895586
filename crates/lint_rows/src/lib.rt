//! Tests of the lint: what of an INF no clause tells, and faults of files and of the sink. There is no other code here.
#![tactic(auto)]

#[cfg(test)]
mod faults;
#[cfg(test)]
mod lints;
#[cfg(test)]
mod over;
#[cfg(test)]
mod warnings;
