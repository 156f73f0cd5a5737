//! Tests of the middle: graphs, facts at their blocks, lists of passes and the paths of places. It has no code of its
//! own.
#![tactic(auto)]

#[cfg(test)]
mod count_tests;
#[cfg(test)]
mod graph_tests;
#[cfg(test)]
mod pass_tests;
#[cfg(test)]
mod place_tests;
#[cfg(test)]
mod solve_tests;
