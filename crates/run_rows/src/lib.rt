//! Tests of whole runs, by calls of `settings`, `run` and the generated texts alone: tables of worked scripts, and what no table has. There is no other code here.
#![tactic(auto)]

#[cfg(test)]
mod board;
#[cfg(test)]
mod changes;
#[cfg(test)]
mod checks;
#[cfg(test)]
mod choices;
#[cfg(test)]
mod clients;
#[cfg(test)]
mod faults;
#[cfg(test)]
mod fronts;
#[cfg(test)]
mod generated;
#[cfg(test)]
mod infs;
#[cfg(test)]
mod large_runs;
#[cfg(test)]
mod live;
#[cfg(test)]
mod needs;
#[cfg(test)]
mod rebalances;
#[cfg(test)]
mod removals;
#[cfg(test)]
mod rows;
#[cfg(test)]
mod runs;
#[cfg(test)]
mod scripts;
#[cfg(test)]
mod small_scripts;
#[cfg(test)]
mod starts;
#[cfg(test)]
mod surprises;
#[cfg(test)]
mod tables;
#[cfg(test)]
mod words;
