//! Tests of the front: texts with their tokens, their refusals, their places and their runs. It has no code of its own.
#![tactic(auto)]

#[cfg(test)]
mod defined_tests;
#[cfg(test)]
mod flow_tests;
#[cfg(test)]
mod refusal_tests;
#[cfg(test)]
mod run_tests;
#[cfg(test)]
mod texts;
#[cfg(test)]
mod token_tests;
