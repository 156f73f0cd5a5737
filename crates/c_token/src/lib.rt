//! The tokens of a C source.
#![tactic(auto)]

mod bytes;
mod comment;
mod constant;
mod context;
mod directive;
mod escape;
mod fault;
mod item;
mod laws;
mod literal;
mod punctuator;
mod text;
mod token;
mod word;

pub use laws::{a_text_has_one_reading, each_token_is_the_longest, texts_are_worked};
pub use text::tokens;
pub use token::{Constant, Header, Keyword, Kind, Punctuator, Token};
