//! Tests of the explorer, by calls of `explore` alone. There is no other code here.
#![tactic(auto)]

#[cfg(test)]
mod faults;
#[cfg(test)]
mod parts;
#[cfg(test)]
mod rows;
#[cfg(test)]
mod runs;
#[cfg(test)]
mod words;
