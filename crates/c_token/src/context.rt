//! What the tokens before a byte say of a line that begins with `#` there.

ghost use Rattle.std.specs.Prelude.{◌≡◌, ◌<◌, ◌≤◌, ◌+◌, ◌-◌, ◌^◌, true};
ghost use Rattle.c_token.specs.Includes.{behind_close_brace, behind_open_brace, behind_other, behind_punctuator, behind_word, is_inside, context_at_start};
ghost use Rattle.c_token.specs.Lexemes.{word_view};

use crate::token::{Kind, Punctuator};

/// What stands before a byte.
#[derive(Clone, Copy, PartialEq, Eq)]
pub struct Context {
    /// On its line, only white space and comments.
    pub starts_line: bool,
    /// The last token is `)`.
    pub after_parenthesis: bool,
    /// How many braces are open.
    pub depth: u32,
    /// The outermost open brace stands behind `)`, so it begins the body of a function.
    pub in_function: bool,
}

impl Context {
    /// The context at the beginning of a text.
    pub fn start() -> Context
        ensures { result ≡ context_at_start }
    {
        Context {
            starts_line: true,
            after_parenthesis: false,
            depth: 0,
            in_function: false,
        }
    }

    /// The byte stands inside a function.
    #[tactic(auto, unfolding(crate::specs::Includes::is_inside))]
    pub fn is_inside(self) -> bool
        ensures { result ≡ is_inside self }
    {
        self.depth > 0 && self.in_function
    }

    /// The context behind a line feed.
    pub fn behind_line_feed(self) -> Context
        ensures { result ≡ record self { starts_line = true } }
    {
        Context {
            starts_line: true,
            ..self
        }
    }

    /// The context behind a token that is no brace and no `)`.
    fn behind_other(self) -> Context
        ensures { result ≡ behind_other self }
    {
        Context {
            starts_line: false,
            after_parenthesis: false,
            ..self
        }
    }

    /// The context behind `{`.
    fn behind_open_brace(self) -> Context
        requires { self.depth < 2 ^ 32 - 1 }
        ensures { result ≡ behind_open_brace self }
    {
        let in_function = if self.depth == 0 {
            self.after_parenthesis
        } else {
            self.in_function
        };
        Context {
            depth: self.depth + 1,
            in_function,
            ..self.behind_other()
        }
    }

    /// The context behind `}`.
    fn behind_close_brace(self) -> Context
        ensures { result ≡ behind_close_brace self }
    {
        Context {
            depth: self.depth.saturating_sub(1),
            ..self.behind_other()
        }
    }

    /// The context behind a punctuator.
    fn behind_punctuator(self, mark: Punctuator) -> Context
        requires { self.depth < 2 ^ 32 - 1 }
        ensures exact { result ≡ behind_punctuator self mark }
        ensures within { result.depth ≤ self.depth + 1 }
    {
        match mark {
            Punctuator::CloseParenthesis => Context {
                after_parenthesis: true,
                ..self.behind_other()
            },
            Punctuator::OpenBrace => self.behind_open_brace(),
            Punctuator::CloseBrace => self.behind_close_brace(),
            _ => self.behind_other(),
        }
    }

    /// The context behind a token.
    pub fn behind_token(self, kind: &Kind) -> Context
        requires { self.depth < 2 ^ 32 - 1 }
        ensures exact { result ≡ behind_word self (word_view kind.now) }
        ensures within { result.depth ≤ self.depth + 1 }
    {
        match kind {
            Kind::Punctuator(mark) => self.behind_punctuator(*mark),
            _ => self.behind_other(),
        }
    }
}
