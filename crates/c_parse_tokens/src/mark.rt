//! Tokens that a construct asks for by themselves.

ghost use Rattle.std.specs.Prelude.{◌≡◌};
ghost use Rattle.c_token.specs.Lexemes.{word_view};
ghost use Rattle.c_parse_tokens.specs.Front.{is, is_punctuator, is_keyword};

use c_token::{Keyword, Kind, Punctuator};

/// A punctuator or keyword that a construct has at a fixed place.
#[derive(Clone, Copy)]
pub enum Mark {
    OpenParenthesis,
    CloseParenthesis,
    OpenBracket,
    CloseBracket,
    OpenBrace,
    CloseBrace,
    Comma,
    Semicolon,
    Colon,
    Question,
    Equal,
    If,
    Else,
    While,
    Void,
}

impl Mark {
    /// The token is this mark.
    pub fn is(self, kind: &Kind) -> bool
        ensures { result ≡ is self (word_view kind.now) }
    {
        match kind {
            Kind::Punctuator(punctuator) => self.is_punctuator(*punctuator),
            Kind::Keyword(keyword) => self.is_keyword(*keyword),
            _ => false,
        }
    }

    /// The punctuator is this mark.
    fn is_punctuator(self, punctuator: Punctuator) -> bool
        ensures { result ≡ is_punctuator self punctuator }
    {
        match self {
            Mark::OpenParenthesis => matches!(punctuator, Punctuator::OpenParenthesis),
            Mark::CloseParenthesis => matches!(punctuator, Punctuator::CloseParenthesis),
            Mark::OpenBracket => matches!(punctuator, Punctuator::OpenBracket),
            Mark::CloseBracket => matches!(punctuator, Punctuator::CloseBracket),
            Mark::OpenBrace => matches!(punctuator, Punctuator::OpenBrace),
            Mark::CloseBrace => matches!(punctuator, Punctuator::CloseBrace),
            Mark::Comma => matches!(punctuator, Punctuator::Comma),
            Mark::Semicolon => matches!(punctuator, Punctuator::Semicolon),
            Mark::Colon => matches!(punctuator, Punctuator::Colon),
            Mark::Question => matches!(punctuator, Punctuator::Question),
            Mark::Equal => matches!(punctuator, Punctuator::Equal),
            Mark::If | Mark::Else | Mark::While | Mark::Void => false,
        }
    }

    /// The keyword is this mark.
    fn is_keyword(self, keyword: Keyword) -> bool
        ensures { result ≡ is_keyword self keyword }
    {
        match self {
            Mark::If => matches!(keyword, Keyword::If),
            Mark::Else => matches!(keyword, Keyword::Else),
            Mark::While => matches!(keyword, Keyword::While),
            Mark::Void => matches!(keyword, Keyword::Void),
            _ => false,
        }
    }
}
