//! Tests of single public calls, with values from outside: small ones that no whole script shows. There is no other code here.
#![tactic(auto)]

#[cfg(test)]
mod bridges;
#[cfg(test)]
mod bytes;
#[cfg(test)]
mod files;
#[cfg(test)]
mod handles;
#[cfg(test)]
mod pages;
#[cfg(test)]
mod places;
#[cfg(test)]
mod pools;
#[cfg(test)]
mod ports;
#[cfg(test)]
mod reading;
#[cfg(test)]
mod searches;
#[cfg(test)]
mod sizes;
#[cfg(test)]
mod trees;
#[cfg(test)]
mod trials;
