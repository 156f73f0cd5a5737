//! The words of a line.

ghost use Rattle.std.specs.Prelude.{◌≡◌, not, [], ◌∷◌, IfNone, IfSome, position};
ghost use Rattle.std.specs.List.{list_all};
ghost use Rattle.script_form.specs.Script.{begins_name, is_name, is_name_byte};
ghost use Rattle.script_form.specs.Words.{is_space_or_tab, words};
ghost use Rattle.script_form.specs.Reading.{only_word};

/// A space or a tab.
fn is_blank(byte: u8) -> bool
    ensures { result ≡ is_space_or_tab byte }
{
    byte == b' ' || byte == b'\t'
}

/// How many blanks stand before the first word, if there is one.
fn blank_length(line: &[u8]) -> Option<usize>
    ensures { result ≡ position (λ byte. not (is_space_or_tab byte)) line.now }
{
    line.iter().position(|byte| !is_blank(*byte))
}

/// How many bytes stand before the first blank, if there is one.
fn word_length(line: &[u8]) -> Option<usize>
    ensures { result ≡ position is_space_or_tab line.now }
{
    line.iter().position(|byte| is_blank(*byte))
}

/// The first word of a line, and what stands behind it.
#[tactic(auto, using(crate::proofs::FirstWord::no_words, crate::proofs::FirstWord::word_before_blank, crate::proofs::FirstWord::word_at_end))]
pub fn first_word(line: &[u8]) -> Option<(&[u8], &[u8])>
    ensures none { IfNone result (words line.now ≡ []) }
    ensures some { IfSome result (λ parts. words line.now ≡ parts.0.now ∷ words parts.1.now) }
{
    let start = blank_length(line)?;
    let text = &line[start..];
    match word_length(text) {
        Some(end) => Some((&text[..end], &text[end..])),
        None => Some((text, &[])),
    }
}

/// The one word of a line, which is empty where the line has none. There is no such word where it has several.
pub fn only_word(line: &[u8]) -> Option<&[u8]>
    ensures none { IfNone result (only_word (words line.now) ≡ None) }
    ensures some { IfSome result (λ word. only_word (words line.now) ≡ Some word.now) }
{
    let Some((word, rest)) = first_word(line) else {
        return Some(&[]);
    };
    match first_word(rest) {
        Some(_) => None,
        None => Some(word),
    }
}

/// Whether a word is a name: a letter or `_`, and then letters, digits and `_`.
pub fn is_name(word: &[u8]) -> bool
    ensures { result ≡ is_name word.now }
{
    match word.split_first() {
        Some((first, others)) => begins_name(*first) && has_name_bytes(others),
        None => false,
    }
}

fn begins_name(byte: u8) -> bool
    ensures { result ≡ begins_name byte }
{
    byte.is_ascii_alphabetic() || byte == b'_'
}

fn has_name_bytes(bytes: &[u8]) -> bool
    ensures { result ≡ list_all is_name_byte bytes.now }
{
    bytes
        .iter()
        .all(|byte| byte.is_ascii_alphanumeric() || *byte == b'_')
}
