//! That the removal keeps what can be seen of a unit.
#![tactic(auto)]
