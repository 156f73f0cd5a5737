//! What is told of a scalar where it is hidden.

use crate::causes::Cause;
use debug_records::Place;

/// What hides a scalar at a place, and where the least quiet path to there begins, if there is one: a way on which
/// nothing disturbs the scalar's home.
#[derive(Clone, Copy)]
pub struct Hiding {
    pub cause: Cause,
    pub quiet: Option<Place>,
}
