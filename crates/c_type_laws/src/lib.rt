//! What is true of each accepted program.
#![tactic(auto)]
