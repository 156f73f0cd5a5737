//! SpecifierList of types (ISO/IEC 9899:2011, 6.7.2).

ghost use Rattle.std.specs.Prelude.{◌≡◌, ◌<◌, ◌≤◌, length, IfOk, IfSome};
ghost use Rattle.std.specs.Option.{option_map};
ghost use Rattle.c_token.specs.Lexemes.{word_view, lexemes};
ghost use Rattle.c_parse_tokens.specs.Outcome.{Gives};
ghost use Rattle.c_parse_tokens.specs.Specifiers.{no_specifiers, is_type, with_specifier, with_static, with_void, with_int, with_sign, with_char, with_width, integer_type, base_of, specifiers, is_type_word, begins_type, is_void_word, names_type, is_parenthesis, type_behind, stars};

use crate::fault::ParseErr;
use crate::front::stuck;
use c_token::{Keyword, Kind, Punctuator, Token};
use c_tree::{Base, IntegerType};
use debug_records::Spot;

/// Where specifiers stand, which says whether `static` and `void` may be among them.
#[derive(Clone, Copy)]
pub enum Place {
    /// At file scope: both.
    File,
    /// In a cast: `void`.
    Cast,
    /// In a block, in a parameter, in `sizeof`: neither.
    Object,
}

/// A word for the sign, if one stood.
#[derive(Clone, Copy)]
pub enum Sign {
    Unstated,
    Signed,
    Unsigned,
}

/// A word for the width, if one stood.
#[derive(Clone, Copy)]
pub enum Width {
    Unstated,
    Char,
    Short,
    Long,
}

/// Which specifiers stood.
#[derive(Clone, Copy)]
pub struct SpecifierList {
    pub is_static: bool,
    pub is_void: bool,
    pub is_int: bool,
    pub sign: Sign,
    pub width: Width,
}

impl SpecifierList {
    /// No specifier.
    fn none() -> SpecifierList
        ensures { result ≡ no_specifiers }
    {
        SpecifierList {
            is_static: false,
            is_void: false,
            is_int: false,
            sign: Sign::Unstated,
            width: Width::Unstated,
        }
    }

    /// A word of a type stood.
    #[tactic(auto, unfolding(crate::specs::Specifiers::is_type))]
    fn is_type(&self) -> bool
        ensures { result ≡ is_type self.now }
    {
        self.is_void
            || self.is_int
            || !matches!(self.sign, Sign::Unstated)
            || !matches!(self.width, Width::Unstated)
    }

    /// With one word more, if it may stand behind these.
    #[tactic(auto, unfolding(crate::specs::Specifiers::with_specifier))]
    fn with(&self, place: Place, word: Keyword) -> Option<SpecifierList>
        ensures { result ≡ with_specifier place word self.now }
    {
        match word {
            Keyword::Static => self.with_static(place),
            Keyword::Void => self.with_void(place),
            Keyword::Int => self.with_int(),
            Keyword::Signed => self.with_sign(Sign::Signed),
            Keyword::Unsigned => self.with_sign(Sign::Unsigned),
            Keyword::Char => self.with_char(),
            Keyword::Short => self.with_width(Width::Short),
            Keyword::Long => self.with_width(Width::Long),
            _ => None,
        }
    }

    /// With `static`, which stands once, and at file scope only.
    #[tactic(auto, unfolding(crate::specs::Specifiers::with_static))]
    fn with_static(&self, place: Place) -> Option<SpecifierList>
        ensures { result ≡ with_static place self.now }
    {
        if self.is_static || !matches!(place, Place::File) {
            return None;
        }
        Some(SpecifierList {
            is_static: true,
            ..*self
        })
    }

    /// With `void`, beside which no other word of a type stands.
    #[tactic(auto, unfolding(crate::specs::Specifiers::with_void))]
    fn with_void(&self, place: Place) -> Option<SpecifierList>
        ensures { result ≡ with_void place self.now }
    {
        if self.is_type() || matches!(place, Place::Object) {
            return None;
        }
        Some(SpecifierList {
            is_void: true,
            ..*self
        })
    }

    /// With `int`, which stands once, and not beside `char`.
    #[tactic(auto, unfolding(crate::specs::Specifiers::with_int))]
    fn with_int(&self) -> Option<SpecifierList>
        ensures { result ≡ with_int self.now }
    {
        if self.is_void || self.is_int || matches!(self.width, Width::Char) {
            return None;
        }
        Some(SpecifierList {
            is_int: true,
            ..*self
        })
    }

    /// With `signed` or `unsigned`, one of which stands once.
    #[tactic(auto, unfolding(crate::specs::Specifiers::with_sign))]
    fn with_sign(&self, sign: Sign) -> Option<SpecifierList>
        ensures { result ≡ with_sign sign self.now }
    {
        if self.is_void || !matches!(self.sign, Sign::Unstated) {
            return None;
        }
        Some(SpecifierList { sign, ..*self })
    }

    /// With `char`, which stands once, and not beside `int`, `short` or `long`.
    #[tactic(auto, unfolding(crate::specs::Specifiers::with_char))]
    fn with_char(&self) -> Option<SpecifierList>
        ensures { result ≡ with_char self.now }
    {
        if self.is_int {
            return None;
        }
        self.with_width(Width::Char)
    }

    /// With one of `char`, `short` and `long`, which stands once.
    #[tactic(auto, unfolding(crate::specs::Specifiers::with_width))]
    fn with_width(&self, width: Width) -> Option<SpecifierList>
        ensures { result ≡ with_width width self.now }
    {
        if self.is_void || !matches!(self.width, Width::Unstated) {
            return None;
        }
        Some(SpecifierList { width, ..*self })
    }

    /// The integer type that the words name.
    #[tactic(auto, unfolding(crate::specs::Specifiers::integer_type))]
    pub fn integer_type(&self) -> IntegerType
        ensures { result ≡ integer_type self.now }
    {
        match (self.width, self.sign) {
            (Width::Char, Sign::Unstated) => IntegerType::Char,
            (Width::Char, Sign::Signed) => IntegerType::SignedChar,
            (Width::Char, Sign::Unsigned) => IntegerType::UnsignedChar,
            (Width::Short, Sign::Unsigned) => IntegerType::UnsignedShort,
            (Width::Short, _) => IntegerType::Short,
            (Width::Long, Sign::Unsigned) => IntegerType::UnsignedLong,
            (Width::Long, _) => IntegerType::Long,
            (Width::Unstated, Sign::Unsigned) => IntegerType::UnsignedInt,
            (Width::Unstated, _) => IntegerType::Int,
        }
    }

    /// What the words name, `void` or an integer type.
    #[tactic(auto, unfolding(crate::specs::Specifiers::base_of))]
    pub fn base(&self) -> Base
        ensures { result ≡ base_of self.now }
    {
        if self.is_void {
            return Base::Void;
        }
        Base::Integer(self.integer_type())
    }
}

/// The specifiers at the front, and the tokens behind them.
#[tactic(auto, unfolding(crate::specs::Specifiers::specifiers))]
pub fn specifiers(place: Place, tokens: &[Token]) -> Result<(SpecifierList, &[Token]), ParseErr>
    ensures reads { Gives (λ x. (x.0, lexemes x.1.now)) result (specifiers place (lexemes tokens.now)) }
    ensures shorter { IfOk result (λ x. length x.1.now < length tokens.now) }
{
    let mut found = SpecifierList::none();
    let mut rest = tokens;
    while let [
        Token {
            kind: Kind::Keyword(word),
            ..
        },
        behind @ ..,
    ] = rest
    {
        let Some(more) = found.with(place, *word) else {
            return Err(ParseErr::Stuck(stuck(rest)));
        };
        found = more;
        rest = behind;
    }
    if !found.is_type() {
        return Err(ParseErr::Stuck(stuck(rest)));
    }
    Ok((found, rest))
}

/// The token is a word of an integer type.
fn is_type_word(kind: &Kind) -> bool
    ensures { result ≡ is_type_word (word_view kind.now) }
{
    match kind {
        Kind::Keyword(word) => matches!(
            word,
            Keyword::Char
                | Keyword::Short
                | Keyword::Int
                | Keyword::Long
                | Keyword::Signed
                | Keyword::Unsigned
        ),
        _ => false,
    }
}

/// The first token is a word of an integer type.
#[tactic(auto, unfolding(crate::specs::Specifiers::begins_type))]
pub fn begins_type(tokens: &[Token]) -> bool
    ensures { result ≡ begins_type (lexemes tokens.now) }
{
    match tokens {
        [] => false,
        [first, ..] => is_type_word(&first.kind),
    }
}

/// The token is the word `void`.
fn is_void_word(kind: &Kind) -> bool
    ensures { result ≡ is_void_word (word_view kind.now) }
{
    matches!(kind, Kind::Keyword(Keyword::Void))
}

/// The first token names a type, `void` or an integer type.
#[tactic(auto, unfolding(crate::specs::Specifiers::names_type))]
fn names_type(tokens: &[Token]) -> bool
    ensures { result ≡ names_type (lexemes tokens.now) }
{
    match tokens {
        [] => false,
        [first, ..] => is_void_word(&first.kind) || is_type_word(&first.kind),
    }
}

/// The token is an opening parenthesis.
fn is_parenthesis(kind: &Kind) -> bool
    ensures { result ≡ is_parenthesis (word_view kind.now) }
{
    matches!(kind, Kind::Punctuator(Punctuator::OpenParenthesis))
}

/// The tokens behind a parenthesis, if one stands at the front and a type behind it.
#[tactic(auto, unfolding(crate::specs::Specifiers::type_behind))]
pub fn type_behind(tokens: &[Token]) -> Option<&[Token]>
    ensures reads { option_map (λ x. lexemes x.now) result ≡ type_behind (lexemes tokens.now) }
    ensures shorter { IfSome result (λ x. length x.now < length tokens.now) }
{
    let [first, inside @ ..] = tokens else {
        return None;
    };
    if is_parenthesis(&first.kind) && names_type(inside) {
        Some(inside)
    } else {
        None
    }
}

/// How many `*` stand at the front, and the tokens behind them.
#[tactic(auto, unfolding(crate::specs::Specifiers::stars))]
pub fn stars(tokens: &[Token]) -> (usize, &[Token])
    ensures reads { (result.0, lexemes result.1.now) ≡ stars (lexemes tokens.now) }
    ensures not_longer { length result.1.now ≤ length tokens.now }
{
    let mut count = 0;
    let mut rest = tokens;
    while let [
        Token {
            kind: Kind::Punctuator(Punctuator::Star),
            ..
        },
        behind @ ..,
    ] = rest
    {
        count += 1;
        rest = behind;
    }
    (count, rest)
}
