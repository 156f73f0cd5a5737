//! That the machine over the code shows what is seen of the unit.
#![tactic(auto)]
