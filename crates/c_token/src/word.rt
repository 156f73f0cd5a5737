//! Identifiers and keywords (6.4.1, 6.4.2).

ghost use Rattle.std.specs.Prelude.{◌≡◌, ◌≤◌, ◌<◌, length, slice_index, IfOk, IsTrue, true};
ghost use Rattle.std.specs.List.{list_all, prefix_len};
ghost use Rattle.c_token.specs.Bytes.{is_word_byte};
ghost use Rattle.c_token.specs.Lexemes.{word_view};
ghost use Rattle.c_token.specs.Reading.{GivesItem};
ghost use Rattle.c_token.specs.Words.{find_keyword, keyword_of, word_at, keyword_or_name};
ghost use Rattle.c_token.specs.Tables.{spelled};

use crate::bytes::is_word_byte;
use crate::fault::{Fault, TokenErr};
use crate::token::{Keyword, Kind};
use debug_records::Code;
use std::alloc::Global;
use std::str::from_utf8;

static KEYWORDS: [(&[u8], Keyword); 44] = [
    (b"auto", Keyword::Auto),
    (b"break", Keyword::Break),
    (b"case", Keyword::Case),
    (b"char", Keyword::Char),
    (b"const", Keyword::Const),
    (b"continue", Keyword::Continue),
    (b"default", Keyword::Default),
    (b"do", Keyword::Do),
    (b"double", Keyword::Double),
    (b"else", Keyword::Else),
    (b"enum", Keyword::Enum),
    (b"extern", Keyword::Extern),
    (b"float", Keyword::Float),
    (b"for", Keyword::For),
    (b"goto", Keyword::Goto),
    (b"if", Keyword::If),
    (b"inline", Keyword::Inline),
    (b"int", Keyword::Int),
    (b"long", Keyword::Long),
    (b"register", Keyword::Register),
    (b"restrict", Keyword::Restrict),
    (b"return", Keyword::Return),
    (b"short", Keyword::Short),
    (b"signed", Keyword::Signed),
    (b"sizeof", Keyword::Sizeof),
    (b"static", Keyword::Static),
    (b"struct", Keyword::Struct),
    (b"switch", Keyword::Switch),
    (b"typedef", Keyword::Typedef),
    (b"union", Keyword::Union),
    (b"unsigned", Keyword::Unsigned),
    (b"void", Keyword::Void),
    (b"volatile", Keyword::Volatile),
    (b"while", Keyword::While),
    (b"_Alignas", Keyword::Alignas),
    (b"_Alignof", Keyword::Alignof),
    (b"_Atomic", Keyword::Atomic),
    (b"_Bool", Keyword::Bool),
    (b"_Complex", Keyword::Complex),
    (b"_Generic", Keyword::Generic),
    (b"_Imaginary", Keyword::Imaginary),
    (b"_Noreturn", Keyword::Noreturn),
    (b"_Static_assert", Keyword::StaticAssert),
    (b"_Thread_local", Keyword::ThreadLocal),
];

/// The keyword of the table that the word is.
fn find_keyword(table: &[(&[u8], Keyword)], word: &[u8]) -> Option<Keyword>
    ensures { result ≡ find_keyword (spelled table.now) word.now }
{
    for entry in table {
        if word == entry.0 {
            return Some(entry.1);
        }
    }
    None
}

/// The keyword that the word is.
#[tactic(auto, unfolding(crate::specs::Words::keyword_of))]
fn keyword_of(word: &[u8]) -> Option<Keyword>
    ensures { result ≡ keyword_of word.now }
{
    find_keyword(&KEYWORDS, word)
}

/// How many bytes of an identifier stand at the front.
fn word_len(text: &[u8]) -> usize
    ensures len { result ≡ prefix_len is_word_byte text.now }
    ensures within { result ≤ length text.now }
{
    for (i, byte) in text.iter().enumerate() {
        if !is_word_byte(*byte) {
            return i;
        }
    }
    text.len()
}

/// The keyword or the name that a word is, which stands at an offset.
#[tactic(auto, unfolding(crate::specs::Words::keyword_or_name))]
fn word_in(alloc: Global, word: &[u8], at: usize) -> Result<Kind, TokenErr>
    requires { list_all is_word_byte word.now ≡ true }
    ensures { GivesItem word_view result (keyword_or_name at word.now) }
{
    if let Some(keyword) = keyword_of(word) {
        return Ok(Kind::Keyword(keyword));
    }
    if word.len() > 63 {
        return Err(TokenErr::Broken(Fault {
            code: Code::NAME_SIZE,
            at,
        }));
    }
    let name = from_utf8(word).unwrap();
    Ok(Kind::Name(String::from_str(alloc, name)?))
}

/// The keyword or the name at an offset, and where it ends.
#[tactic(auto, unfolding(crate::specs::Words::word_at))]
pub fn word_at(alloc: Global, text: &[u8], at: usize) -> Result<(Kind, usize), TokenErr>
    requires inside { at < length text.now }
    requires word { IsTrue (is_word_byte (slice_index text.now at)) }
    ensures exact { GivesItem (λ x. (word_view x.0, x.1)) result (word_at text.now at) }
    ensures within { IfOk result (λ x. (at < x.1) × (x.1 ≤ length text.now)) }
{
    let rest = &text[at..];
    let size = word_len(rest);
    let kind = word_in(alloc, &rest[..size], at)?;
    Ok((kind, at + size))
}
