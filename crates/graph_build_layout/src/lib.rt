//! Where the values of expressions stand.
#![tactic(auto)]

mod chains;
mod joining;
mod laid;
mod layout;
mod renewing;

pub use chains::lefts_laid;
pub use joining::{
    after_pair, as_value, at_laid, behind_move, behind_own, behind_top, compared_laid,
    converted_laid, greater, joined_laid, leaf_laid, moved_laid, operation_laid, standing,
    steps_laid, truth_laid, unused_laid, use_for, worked,
};
pub use laid::{Laid, Pair, PassedLaid, PlaceLaid, Use};
pub use layout::{pair_behind, passed_laid, place_laid, value_laid};
pub use renewing::{
    behind_two, called_laid, left_memory_laid, left_scalar_laid, object_laid, renewed_memory_laid,
    renewed_scalar_laid,
};
