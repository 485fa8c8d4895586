//! Tests of the machine: a step that is refused for memory is done again, and its driver was asked once; and a run that is told by its lines. There is
//! no other code here.
#![tactic(auto)]

#[cfg(test)]
mod device;
#[cfg(test)]
mod lines;
#[cfg(test)]
mod steps;
