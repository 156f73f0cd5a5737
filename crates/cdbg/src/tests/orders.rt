//! Which of two faults of a source is told.

use super::status_of;
use debug_records::Code;
use line_form::Status;
use std::alloc::{AllocError, Global};
use std::test::Fail;

/// Sources with two faults, the one that is told, and its line.
static PAIRS: [(&[u8], Code, u32); 8] = [
    // Tokens are read before the grammar, and the grammar before names and types, wherever the faults stand.
    (b"int main(void){return 0}\n@", Code::UNKNOWN_BYTE, 2),
    (b"int main(void){return n;}\n/*", Code::UNENDED_COMMENT, 2),
    (
        b"int main(void){return n;}\nint f(void){return 1}",
        Code::UNEXPECTED_TOKEN,
        2,
    ),
    (
        b"int main(void){int a[1024];}\nint f(void){goto a;}",
        Code::UNEXPECTED_KEYWORD,
        2,
    ),
    // Names and types come before functions that are never defined, those before a missing `main`, and that before the limits.
    (
        b"int f(void);int g(void){f();\nreturn n;}",
        Code::UNDECLARED,
        2,
    ),
    (
        b"int f(void);int g(void){\nreturn f();}",
        Code::UNDECLARED,
        2,
    ),
    (b"\nint f(void){int a[1024];}", Code::NO_MAIN, 1),
    (
        b"int main(void){return 1+\n2147483648+'';}",
        Code::MALFORMED_CONSTANT,
        2,
    ),
];

fn pairs() -> &'static [(&'static [u8], Code, u32)] {
    &PAIRS
}

#[test]
fn tokens_come_before_the_grammar_and_that_before_types(rt: HostRuntime) -> Result<(), Fail> {
    for (source, code, line) in pairs() {
        assert!(rt; status_of(rt.alloc(), *source)? == Status::SourceRefused(*code, *line));
    }
    Ok(())
}

/// Appends so many empty statements between two texts.
fn push_statements(
    text: &mut Vec<u8>,
    before: &[u8],
    count: u32,
    behind: &[u8],
) -> Result<(), AllocError> {
    text.extend_from_slice(before)?;
    for _ in 0..count {
        text.push(b';')?;
    }
    text.extend_from_slice(behind)
}

/// A text of two functions with so many empty statements.
fn functions(
    alloc: Global,
    first: &[u8],
    first_count: u32,
    second: &[u8],
    second_count: u32,
) -> Result<Vec<u8>, AllocError> {
    let mut text = Vec::new(alloc);
    push_statements(&mut text, first, first_count, b"}")?;
    push_statements(&mut text, second, second_count, b"}")?;
    Ok(text)
}

/// Two functions with so many empty statements each that break limits, the limit that is told, and its line.
static LIMITS: [(&[u8], u32, &[u8], u32, Code, u32); 6] = [
    // In one function weight comes first, then objects, then parameters.
    (
        b"\nint main(void){int a[1024];",
        3000,
        b"int f(void){",
        0,
        Code::FUNCTION_WEIGHT,
        2,
    ),
    (
        b"\nint f(int a,int b,int c,int d,int e,int g,int h,int i,int j){",
        3000,
        b"int main(void){",
        0,
        Code::FUNCTION_WEIGHT,
        2,
    ),
    // The limits of an earlier function come before those of a later one.
    (
        b"\nint main(void){int a[1024];",
        0,
        b"\nint f(void){",
        3000,
        Code::FUNCTION_OBJECTS,
        2,
    ),
    (
        b"\nint f(int a,int b,int c,int d,int e,int g,int h,int i,int j){",
        0,
        b"\nint main(void){",
        3000,
        Code::FUNCTION_COUNT,
        2,
    ),
    // The limits of functions come before those of the program.
    (
        b"\nint main(void){",
        4000,
        b"int f(void){",
        0,
        Code::FUNCTION_WEIGHT,
        2,
    ),
    (
        b"char s[1048576];\nint main(void){int a[1024];",
        0,
        b"int f(void){",
        0,
        Code::FUNCTION_OBJECTS,
        2,
    ),
];

fn limits() -> &'static [(&'static [u8], u32, &'static [u8], u32, Code, u32)] {
    &LIMITS
}

#[test]
fn limits_are_looked_at_in_their_order(rt: HostRuntime) -> Result<(), Fail> {
    for (first, first_count, second, second_count, code, line) in limits() {
        let source = functions(rt.alloc(), *first, *first_count, *second, *second_count)?;
        assert!(rt; status_of(rt.alloc(), &source)? == Status::SourceRefused(*code, *line));
    }
    Ok(())
}

/// Appends so many functions with so many empty statements each.
fn push_functions(
    alloc: Global,
    text: &mut Vec<u8>,
    functions: u32,
    count: u32,
) -> Result<(), AllocError> {
    for number in 0..functions {
        text.extend_from_slice(b"int f")?;
        text.extend_from_slice(format!(in alloc; "{number}")?.as_bytes())?;
        push_statements(text, b"(void){", count, b"}")?;
    }
    Ok(())
}

#[test]
fn the_weight_of_a_program_comes_before_its_static_objects(rt: HostRuntime) -> Result<(), Fail> {
    let mut source = Vec::from_slice(rt.alloc(), b"char s[1048576];\nint main(void){}")?;
    push_functions(rt.alloc(), &mut source, 16, 2500)?;
    assert!(rt; status_of(rt.alloc(), &source)? == Status::SourceRefused(Code::PROGRAM_WEIGHT, 1));
    Ok(())
}

/// A text before a `main` in which 900 variables are visible at 700 places, and so many functions behind it with so many
/// empty statements each.
fn with_many_pairs(
    alloc: Global,
    before: &[u8],
    functions: u32,
    count: u32,
) -> Result<Vec<u8>, AllocError> {
    let mut text = Vec::from_slice(alloc, before)?;
    text.extend_from_slice(b"int main(void){int n")?;
    for number in 0..899 {
        text.extend_from_slice(format!(in alloc; ",n{number}")?.as_bytes())?;
    }
    push_statements(&mut text, b";", 700, b"}")?;
    push_functions(alloc, &mut text, functions, count)?;
    Ok(text)
}

#[test]
fn visible_pairs_are_the_last_limit(rt: HostRuntime) -> Result<(), Fail> {
    let cases: [(&[u8], u32, Code); 3] = [
        (b"", 1, Code::VISIBLE_PAIRS),
        (b"char s[1048576];", 1, Code::STATIC_OBJECTS),
        (b"char s[1048576];", 15, Code::PROGRAM_WEIGHT),
    ];
    for (before, functions, code) in cases {
        let source = with_many_pairs(rt.alloc(), before, functions, 2600)?;
        assert!(rt; status_of(rt.alloc(), &source)? == Status::SourceRefused(code, 1));
    }
    Ok(())
}

#[test]
fn a_text_that_is_too_long_is_refused_for_that(rt: HostRuntime) -> Result<(), Fail> {
    let mut source = Vec::new(rt.alloc());
    push_statements(&mut source, b"@", 1_048_576, b"")?;
    assert!(rt; status_of(rt.alloc(), &source)? == Status::SourceRefused(Code::TEXT_SIZE, 1));
    Ok(())
}
