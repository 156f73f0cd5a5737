//! Bytes of a text.

ghost use Rattle.std.specs.Prelude.{◌≡◌, ◌≤◌, ◌+◌, IsTrue, length, slice_index};
ghost use Rattle.c_token.specs.Bytes.{is_blank, is_digit, is_letter, is_replaced, is_trigraph_end, is_word_byte, text_has};

/// The byte at an offset; 0 behind the end.
pub fn byte_at(text: &[u8], at: usize) -> u8
    ensures { result ≡ slice_index text.now at }
{
    if at < text.len() { text[at] } else { 0 }
}

/// These bytes stand at the offset.
#[tactic(auto, unfolding(crate::specs::Bytes::text_has))]
pub fn stands(text: &[u8], at: usize, word: &[u8]) -> bool
    requires { at ≤ length text.now }
    ensures exact { result ≡ text_has text.now at word.now }
    ensures within { IsTrue result → at + length word.now ≤ length text.now }
{
    text[at..].starts_with(word)
}

/// A letter or the underscore (6.4.2.1).
#[tactic(auto, unfolding(crate::specs::Bytes::is_letter))]
pub fn is_letter(byte: u8) -> bool
    ensures { result ≡ is_letter byte }
{
    (b'A' <= byte && byte <= b'Z') || (b'a' <= byte && byte <= b'z') || byte == b'_'
}

/// A decimal digit.
#[tactic(auto, unfolding(crate::specs::Bytes::is_digit))]
pub fn is_digit(byte: u8) -> bool
    ensures { result ≡ is_digit byte }
{
    b'0' <= byte && byte <= b'9'
}

/// A byte of an identifier.
#[tactic(auto, unfolding(crate::specs::Bytes::is_word_byte))]
pub fn is_word_byte(byte: u8) -> bool
    ensures { result ≡ is_word_byte byte }
{
    is_letter(byte) || is_digit(byte)
}

/// White space within a line: space, tab, vertical tab, form feed and carriage return.
#[tactic(auto, unfolding(crate::specs::Bytes::is_blank))]
pub fn is_blank(byte: u8) -> bool
    ensures { result ≡ is_blank byte }
{
    byte == b' ' || byte == 9 || (11 <= byte && byte <= 13)
}

/// The third byte of a trigraph.
#[tactic(auto, unfolding(crate::specs::Bytes::is_trigraph_end))]
fn is_trigraph_end(byte: u8) -> bool
    ensures { result ≡ is_trigraph_end byte }
{
    byte == b'='
        || byte == b'/'
        || byte == b'\''
        || byte == b'('
        || byte == b')'
        || byte == b'!'
        || byte == b'<'
        || byte == b'>'
        || byte == b'-'
}

/// A spliced line or a trigraph begins at the offset: what C replaces before it reads tokens (5.1.1.2).
#[tactic(auto, unfolding(crate::specs::Bytes::is_replaced))]
pub fn is_replaced(text: &[u8], at: usize) -> bool
    requires { at ≤ length text.now }
    ensures { result ≡ is_replaced text.now at }
{
    stands(text, at, b"\\\n") || (stands(text, at, b"??") && is_trigraph_end(byte_at(text, at + 2)))
}
