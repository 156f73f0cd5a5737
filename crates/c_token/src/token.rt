//! Tokens of C (ISO/IEC 9899:2011, 6.4), as far as the language takes them.

use debug_records::Spot;

/// A token, and where its first byte stands.
#[derive(Drop)]
pub struct Token {
    pub kind: Kind,
    pub spot: Spot,
}

/// What a token is.
#[derive(Drop)]
pub enum Kind {
    /// An identifier that is no keyword, of 1 to 63 bytes.
    Name(String),
    /// A keyword.
    Keyword(Keyword),
    /// An integer or character constant.
    Constant(Constant),
    /// The bytes of one string literal, its escapes resolved, without the final zero.
    Literal(Vec<u8>),
    /// A punctuator.
    Punctuator(Punctuator),
    /// A line that includes a header.
    Include(Header),
}

/// The keywords (6.4.1).
#[derive(Clone, Copy, PartialEq, Eq)]
pub enum Keyword {
    Auto,
    Break,
    Case,
    Char,
    Const,
    Continue,
    Default,
    Do,
    Double,
    Else,
    Enum,
    Extern,
    Float,
    For,
    Goto,
    If,
    Inline,
    Int,
    Long,
    Register,
    Restrict,
    Return,
    Short,
    Signed,
    Sizeof,
    Static,
    Struct,
    Switch,
    Typedef,
    Union,
    Unsigned,
    Void,
    Volatile,
    While,
    Alignas,
    Alignof,
    Atomic,
    Bool,
    Complex,
    Generic,
    Imaginary,
    Noreturn,
    StaticAssert,
    ThreadLocal,
}

/// The value of a constant and its type: `int`, `unsigned int`, `long` or `unsigned long` (6.4.4.1), which all have 32
/// bits.
#[derive(Clone, Copy, PartialEq, Eq)]
pub struct Constant {
    pub value: u32,
    pub is_unsigned: bool,
    pub is_long: bool,
}

/// The headers that a line may include.
#[derive(Clone, Copy, PartialEq, Eq)]
pub enum Header {
    /// `<stdio.h>`
    Stdio,
    /// `<stdlib.h>`
    Stdlib,
}

/// The punctuators (6.4.6) but for the digraphs.
#[derive(Clone, Copy, PartialEq, Eq)]
pub enum Punctuator {
    OpenBracket,
    CloseBracket,
    OpenParenthesis,
    CloseParenthesis,
    OpenBrace,
    CloseBrace,
    Dot,
    Arrow,
    Increment,
    Decrement,
    Ampersand,
    Star,
    Plus,
    Minus,
    Tilde,
    Exclamation,
    Slash,
    Percent,
    ShiftLeft,
    ShiftRight,
    Less,
    Greater,
    LessEqual,
    GreaterEqual,
    EqualEqual,
    NotEqual,
    Caret,
    Bar,
    AndAnd,
    OrOr,
    Question,
    Colon,
    Semicolon,
    Ellipsis,
    Equal,
    StarEqual,
    SlashEqual,
    PercentEqual,
    PlusEqual,
    MinusEqual,
    ShiftLeftEqual,
    ShiftRightEqual,
    AmpersandEqual,
    CaretEqual,
    BarEqual,
    Comma,
    Hash,
    HashHash,
}
