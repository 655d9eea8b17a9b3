#![tactic(auto)]
// What the collection of events keeps in the work area: what a step weighs, and the least weight that is still needed to come back to a state.
pub mod schedule;
pub mod tables;
