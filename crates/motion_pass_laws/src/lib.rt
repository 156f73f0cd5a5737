//! That lazy code motion keeps what a unit does.
#![tactic(auto)]
