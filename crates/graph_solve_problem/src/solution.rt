//! What solves a problem.

use crate::facts::Facts;

/// For each block the facts at its start and at its end.
#[derive(Drop)]
pub struct Solution {
    pub starts: Vec<Facts>,
    pub ends: Vec<Facts>,
}
