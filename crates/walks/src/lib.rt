#![tactic(auto)]
// This crate holds the frame for walks by hand; it has no code.
