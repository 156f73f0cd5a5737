//! Small lemmas over the words of std: options, Booleans, numbers and lists. It has no code.
#![tactic(auto)]
