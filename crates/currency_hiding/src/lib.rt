//! What hides scalars that their homes do not show: the changes that passes made, and what writes the homes for other
//! names, on the ways on which a value may come.
#![tactic(auto)]

mod causes;
mod changes;
mod function;
mod hiding;
mod question;
mod quiet;
mod teller;

pub use causes::Cause;
pub use function::Function;
pub use hiding::Hiding;
pub use teller::Teller;
