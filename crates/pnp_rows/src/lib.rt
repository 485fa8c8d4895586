//! Tests that cross crates: tables over what users write and read. There is no other code here.
#![tactic(auto)]

#[cfg(test)]
mod inf_boards;
#[cfg(test)]
mod inf_encodings;
#[cfg(test)]
mod inf_lines;
#[cfg(test)]
mod inf_models;
#[cfg(test)]
mod inf_told;
#[cfg(test)]
mod inf_vendors;
#[cfg(test)]
mod inf_versions;
#[cfg(test)]
mod script_bytes;
#[cfg(test)]
mod script_clients;
#[cfg(test)]
mod script_handles;
#[cfg(test)]
mod script_limits;
#[cfg(test)]
mod script_lines;
#[cfg(test)]
mod script_shown;
#[cfg(test)]
mod script_wants;
#[cfg(test)]
mod script_whole;
