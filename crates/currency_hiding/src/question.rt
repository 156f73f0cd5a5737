//! What is asked for one scalar.

use crate::changes::Changes;
use crate::function::Function;
use currency_writers::Search;

/// What hides one scalar of a function is asked with: the changes of its unit, the flow of its program, and the
/// function.
#[derive(Clone, Copy)]
pub struct Question<'q> {
    pub changes: &'q Changes<'q>,
    pub search: &'q Search<'q>,
    pub function: &'q Function<'q>,
}
