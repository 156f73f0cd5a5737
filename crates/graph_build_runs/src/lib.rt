//! That the code of expressions and statements does what these mean.
#![tactic(auto)]
