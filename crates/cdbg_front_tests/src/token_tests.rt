//! What the tokens of a text say, by ISO/IEC 9899:2011, 6.4: its lexical grammar, the types of constants (6.4.4.1) and
//! the longest token (6.4p4).

use c_token::{Constant, Header, Keyword, Kind, Punctuator, Token, tokens};
use std::alloc::Global;
use std::process::Abort;
use std::test::Fail;

/// The constant that a text is.
fn constant(alloc: Global, text: &[u8]) -> Option<Constant> {
    let list = tokens(alloc, text).ok()?;
    match list.first()?.kind {
        Kind::Constant(constant) => Some(constant),
        _ => None,
    }
}

/// Constants, with their values, and whether each is unsigned, and long.
static CONSTANTS: [(&[u8], u32, bool, bool); 8] = [
    (b"2147483647", 2147483647, false, false),
    (b"4294967295u", 4294967295, true, false),
    (b"0x7fffffff", 2147483647, false, false),
    (b"020000000000", 2147483648, true, false),
    (b"0XFfL", 255, false, true),
    (b"1LU", 1, true, true),
    (b"'\\x41'", 65, false, false),
    (b"'\\377'", 255, false, false),
];

#[test]
fn constants_have_their_values_and_types(rt: HostRuntime) {
    for (text, value, is_unsigned, is_long) in &CONSTANTS {
        let wanted = Constant {
            value: *value,
            is_unsigned: *is_unsigned,
            is_long: *is_long,
        };
        assert!(rt; constant(rt.alloc(), *text) == Some(wanted), "{text:?}");
    }
}

/// A punctuator that begins at an offset, on a line.
fn is_punctuator(token: &Token, mark: Punctuator, at: u32, line: u32) -> bool {
    match token.kind {
        Kind::Punctuator(found) => found == mark && token.spot.at == at && token.spot.line == line,
        _ => false,
    }
}

/// The punctuators of `+++ <<=>` and `..`, each with its offset and its line.
static PUNCTUATORS: [(Punctuator, u32, u32); 6] = [
    (Punctuator::Increment, 0, 1),
    (Punctuator::Plus, 2, 1),
    (Punctuator::ShiftLeftEqual, 10, 2),
    (Punctuator::Greater, 13, 2),
    (Punctuator::Dot, 15, 3),
    (Punctuator::Dot, 16, 3),
];

#[test]
fn punctuators_are_the_longest(rt: HostRuntime) -> Result<(), Fail> {
    let list = tokens(rt.alloc(), b"+++/* \n */<<=>\n..")?;
    assert!(rt; list.len() == 6);
    for (token, (mark, at, line)) in list.iter().zip(&PUNCTUATORS) {
        assert!(rt; is_punctuator(token, *mark, *at, *line), "at {at}");
    }
    Ok(())
}

/// Whether tokens are a header, a keyword, a name of 63 bytes and a literal.
fn are_of_four_kinds(list: &[Token]) -> bool {
    let [header, keyword, name, literal] = list else {
        return false;
    };
    matches!(header.kind, Kind::Include(Header::Stdlib))
        && matches!(keyword.kind, Kind::Keyword(Keyword::Static))
        && matches!(&name.kind, Kind::Name(name) if name.len() == 63)
        && matches!(&literal.kind, Kind::Literal(bytes) if bytes.as_slice() == b"a\nA\0\"".as_slice())
}

#[test]
fn words_literals_and_headers_are_read(rt: HostRuntime) -> Result<(), Fail> {
    let list = tokens(
        rt.alloc(),
        b"#include <stdlib.h> // h\nstatic static_89012345678901234567890123456789012345678901234567890123 \"a\\n\\x41\\0\\\"\"",
    )?;
    assert!(rt; are_of_four_kinds(&list));
    Ok(())
}
