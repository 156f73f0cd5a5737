//! That the words of instructions do the unit's steps.
#![tactic(auto)]
