//! What a run of the machine is in which some drivers are live: their answers come from elsewhere. There is no code here.
#![tactic(auto)]
