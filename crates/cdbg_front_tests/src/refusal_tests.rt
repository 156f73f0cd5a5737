//! What sources are refused for, and which are accepted, from their texts on. The codes and lines follow from
//! docs/refusals.md and, where it tells what a construct is, from ISO/IEC 9899:2011; they were worked out by hand.

use crate::texts::{Piece, text_of};
use c_parse::parse;
use c_token::tokens;
use c_tree::Program;
use c_type::check;
use debug_records::{Code, SourceErr};
use std::alloc::Global;
use std::process::Abort;
use std::test::Fail;

/// A text, and the code and the line that it is refused by.
struct Row(&'static [u8], Code, u32);

/// The program of a text, or why there is none.
fn checked(alloc: Global, text: &[u8]) -> Result<Program, SourceErr> {
    let tokens = tokens(alloc, text)?;
    check(alloc, parse(alloc, &tokens)?)
}

/// A text is refused as it should be, or accepted.
fn assert_told(rt: &impl Abort, alloc: Global, text: &[u8], wanted: Option<(Code, u32)>) {
    let wanted = match wanted {
        Some((code, line)) => Some(SourceErr::Refused(code, line)),
        None => None,
    };
    let beginning = &text[..text.len().min(100)];
    assert!(rt; checked(alloc, text).err() == wanted, "{beginning:?}");
}

/// Texts that have no tokens (E01 to E06, L01, L09), the last eight with more than one fault: the first one is told.
static TOKENS: [Row; 25] = [
    Row(b"int x;\n@", Code::UNKNOWN_BYTE, 2),
    Row(b"a\n<: 0 :>", Code::UNKNOWN_BYTE, 2),
    Row(b"a\n\\\nb", Code::UNKNOWN_BYTE, 2),
    Row(b"/*\n??=\n*/", Code::UNKNOWN_BYTE, 2),
    Row(b"\"\\??=\"", Code::UNKNOWN_BYTE, 1),
    Row(b"\n/* a\nb", Code::UNENDED_COMMENT, 2),
    Row(b"\n\"abc\n\"", Code::MALFORMED_LITERAL, 2),
    Row(b"''", Code::MALFORMED_LITERAL, 1),
    Row(b"'ab'", Code::MALFORMED_LITERAL, 1),
    Row(
        b"int main(void){return 2147483648;}",
        Code::MALFORMED_CONSTANT,
        1,
    ),
    Row(b"\n\n037777777778", Code::MALFORMED_CONSTANT, 3),
    Row(b"1ll", Code::MALFORMED_CONSTANT, 1),
    Row(b"\n'\\400'", Code::MALFORMED_CONSTANT, 2),
    Row(b"\n'\\q'", Code::UNKNOWN_ESCAPE, 2),
    Row(b"#define N 3", Code::UNKNOWN_DIRECTIVE, 1),
    Row(
        b"int main(void){\n#include <stdio.h>\n}",
        Code::UNKNOWN_DIRECTIVE,
        2,
    ),
    Row(
        b"\n_234567890123456789012345678901234567890123456789012345678901234",
        Code::NAME_SIZE,
        2,
    ),
    Row(b"@ /*", Code::UNKNOWN_BYTE, 1),
    Row(b"/* @", Code::UNENDED_COMMENT, 1),
    Row(b"/* \n ??=", Code::UNKNOWN_BYTE, 2),
    Row(b"\"??=", Code::UNKNOWN_BYTE, 1),
    Row(b"'a\\q'", Code::UNKNOWN_ESCAPE, 1),
    Row(b"'\\400\\q", Code::MALFORMED_CONSTANT, 1),
    Row(b"1ll\n'", Code::MALFORMED_CONSTANT, 1),
    Row(b"#include <stdio.h> /* \\\n", Code::UNKNOWN_BYTE, 1),
];

/// Texts with a token that no construct takes (E10, E11).
static GRAMMAR: [Row; 12] = [
    Row(
        b"int main(void){goto a;a:return 0;}",
        Code::UNEXPECTED_KEYWORD,
        1,
    ),
    Row(
        b"int main(void){int x\n;goto y;}",
        Code::UNEXPECTED_KEYWORD,
        2,
    ),
    Row(b"union u;\n", Code::UNEXPECTED_KEYWORD, 1),
    Row(b"long long x;\n", Code::UNEXPECTED_KEYWORD, 1),
    Row(b"int main(void){if(1) int x;}", Code::UNEXPECTED_KEYWORD, 1),
    Row(
        b"int main(void){switch(1){int x;}}",
        Code::UNEXPECTED_KEYWORD,
        1,
    ),
    Row(b"int main(void){return 0;\n", Code::UNEXPECTED_TOKEN, 1),
    Row(b"int main(void){return 1}", Code::UNEXPECTED_TOKEN, 1),
    Row(b"x;\n", Code::UNEXPECTED_TOKEN, 1),
    Row(b"int a[2][2];\n", Code::UNEXPECTED_TOKEN, 1),
    Row(b"int f(int a, ...);\n", Code::UNEXPECTED_TOKEN, 1),
    Row(b"int main(void){int a[];}", Code::UNEXPECTED_TOKEN, 1),
];

/// Texts that break a rule of names or types, or have no `main` of its type (E11, E20 to E29).
static RULES: [Row; 32] = [
    Row(b"", Code::NO_MAIN, 1),
    Row(b"int main(void){return n;}", Code::UNDECLARED, 1),
    Row(b"int main(void){putchar(65);}", Code::UNDECLARED, 1),
    Row(
        b"int main(void){int n;int a[n];}",
        Code::UNEXPECTED_KEYWORD,
        1,
    ),
    Row(
        b"int main(void){int n;\nreturn (int *)&n==&n;}",
        Code::UNEXPECTED_KEYWORD,
        2,
    ),
    Row(
        b"int f(void);int main(void){\nreturn f;}",
        Code::UNEXPECTED_KEYWORD,
        2,
    ),
    Row(b"int main(void){int n;\nint n;}", Code::REDECLARED, 2),
    Row(
        b"int main(void){int n;\nreturn &n*2;}",
        Code::OPERAND_TYPES,
        2,
    ),
    Row(b"int main(void){\n1=2;}", Code::NOT_AN_LVALUE, 2),
    Row(
        b"int f(int n){return n;}\nint main(void){return f();}",
        Code::ARGUMENTS,
        2,
    ),
    Row(
        b"void f(void){\nreturn 1;}int main(void){}",
        Code::RETURN_MISMATCH,
        2,
    ),
    Row(b"int main(void){\n\nbreak;}", Code::MISPLACED_JUMP, 3),
    Row(b"int n={1,2};int main(void){}", Code::INITIALIZER, 1),
    Row(
        b"int main(void){switch(1){case 1:;\ncase 1:;}}",
        Code::REPEATED_LABEL,
        2,
    ),
    Row(b"int f(void){}\n", Code::NO_MAIN, 1),
    Row(
        b"int f(void);long f(void);int main(void){}",
        Code::REDECLARED,
        1,
    ),
    Row(
        b"int f(int n);\nint f(int *n);int main(void){}",
        Code::REDECLARED,
        2,
    ),
    Row(
        b"int f(int n){return n;}\nint f(int n){return n;}int main(void){}",
        Code::REDECLARED,
        2,
    ),
    Row(
        b"int f;\nint f(void){}int main(void){}",
        Code::REDECLARED,
        2,
    ),
    Row(b"int f(void);\nint f;int main(void){}", Code::REDECLARED, 2),
    Row(b"int f(int n,int n);int main(void){}", Code::REDECLARED, 1),
    Row(b"int f(int n){int n;}int main(void){}", Code::REDECLARED, 1),
    Row(
        b"int putchar(int c){return c;}int main(void){}",
        Code::REDECLARED,
        1,
    ),
    Row(
        b"int getchar;\n#include <stdio.h>\nint main(void){}",
        Code::REDECLARED,
        2,
    ),
    Row(
        b"#include <stdio.h>\nint EOF;int main(void){}",
        Code::REDECLARED,
        2,
    ),
    Row(
        b"void putchar(int c);\n#include <stdio.h>\nint main(void){}",
        Code::REDECLARED,
        2,
    ),
    Row(b"\nvoid main(void){}", Code::NO_MAIN, 2),
    Row(b"\n\nint main(int n){return n;}", Code::NO_MAIN, 3),
    Row(b"int f(void){}\nlong main(void);", Code::NO_MAIN, 2),
    Row(b"int f(void){}\n\nint main;", Code::NO_MAIN, 3),
    Row(b"int f(void);int main(void);", Code::NO_MAIN, 1),
    Row(b"int f(void){return 0;}", Code::NO_MAIN, 1),
];

/// Texts that break several rules: the one of the construct that ends first is told; where two end together, that of
/// the lesser code or of the smaller construct; and the rules of each step before those of the next.
static ORDER: [Row; 16] = [
    Row(b"int main(void){\nreturn m\n+n;}", Code::UNDECLARED, 2),
    Row(
        b"int main(void){int n;\nn;int n;\nn=m;}",
        Code::REDECLARED,
        2,
    ),
    Row(b"int main(void){return m+\n&2;}", Code::UNDECLARED, 1),
    Row(
        b"int main(void){int n;return (&n*2)\n+m;}",
        Code::OPERAND_TYPES,
        1,
    ),
    Row(
        b"int f(int n){return n;}int main(void){return\nf(m,1);}",
        Code::UNDECLARED,
        2,
    ),
    Row(
        b"int main(void){int n;\nbreak;return m;}",
        Code::MISPLACED_JUMP,
        2,
    ),
    Row(b"int main(void){int n;int n=\n&2;}", Code::REDECLARED, 1),
    Row(b"int main(void){int n=\n&2;}", Code::NOT_AN_LVALUE, 2),
    Row(b"int main(void){1=\n&2;}", Code::NOT_AN_LVALUE, 2),
    Row(b"int main(void){1=\nm;}", Code::UNDECLARED, 2),
    Row(
        b"int f(void);int main(void){f();\nreturn m;}",
        Code::UNDECLARED,
        2,
    ),
    Row(b"int f(void);int main(void){\nf();}", Code::UNDECLARED, 2),
    Row(
        b"int f(void);int g(void);int main(void){\ng();\nf();}",
        Code::UNDECLARED,
        2,
    ),
    Row(
        b"int f(void);int g(void){\nreturn f();}",
        Code::UNDECLARED,
        2,
    ),
    Row(
        b"int f(int a,int b,int c,int d,int e,int g,int h,int i,int j){return a;}\nvoid main(void){}",
        Code::NO_MAIN,
        2,
    ),
    Row(
        b"char a[1048576];\nint main(void){int b[1024];}",
        Code::FUNCTION_OBJECTS,
        2,
    ),
];

/// Texts over a limit of objects or functions (L05, L06, L07).
static LIMITS: [Row; 6] = [
    Row(b"\nint main(void){int a[1024];}", Code::FUNCTION_OBJECTS, 2),
    Row(
        b"int main(void){}\nint f(int a,int b,int c,int d,int e,int g,int h,int i,int j){return a;}",
        Code::FUNCTION_COUNT,
        2,
    ),
    Row(
        b"int main(void){}\nint f(int a,int b,int c,int d,int e,int g,int h,int i,int j){int k[1024];}",
        Code::FUNCTION_OBJECTS,
        2,
    ),
    Row(
        b"int main(void){}\nint f(int a,int b,int c,int d,int e,int g,int h,int i,int j){return a;}\nint g(void){int k[1024];}",
        Code::FUNCTION_COUNT,
        2,
    ),
    Row(
        b"char a[1048573];\nint main(void){}",
        Code::STATIC_OBJECTS,
        1,
    ),
    Row(
        b"char a[1048557];int main(void){char *b=\"x\";char c[]=\"x\";}",
        Code::STATIC_OBJECTS,
        1,
    ),
];

/// Texts that keep each rule, some of them just within a limit.
static ACCEPTED: [&[u8]; 13] = [
    b"int main(){}",
    b"#include <stdio.h>\nint main(void){int x=2; x=x+3; putchar(65); return x;}\n",
    b"int main(void){int n=2; switch(n){case 1: n=10; break; case 2: n=20; default: n=n+1;} return n;}",
    b"int g=3; char *s=\"hi\" \"ho\"; int f(int n){if(n==0)return 0;else return f(n-1)+1;} int main(void){for(int i=0;i<2;++i) g+=sizeof(int)*f(i); do ; while(0); return g?(unsigned)g:1;}",
    b"int putchar(int c);\n#include <stdio.h>\n#include <stdio.h>\nint main(void){putchar(EOF);}",
    b"int f(int a[2],int n);int f(int *b,int n){return *b+n;}int f(int a[],int m);int main(void){int n=f(&n,1);}",
    b"#include <stdlib.h>\nint main(void){exit(0);}\n#include <stdlib.h>\n",
    b"int main(void);int main(void){}",
    b"int main(void){int a[1022];}",
    b"int main(void){\nint a[1023];}",
    b"int main(void){}\nint f(int a,int b,int c,int d,int e,int g,int h,int i){return a;}",
    b"char a[1048572];int main(void){}",
    b"char a[1048556];int main(void){char *b=\"x\";char c[]=\"x\";}",
];

/// Texts at a limit of sizes, nesting, weights, visible variables or functions, and just over it.
static LONG: [(&[Piece], Option<(Code, u32)>); 13] = [
    (&[Piece::Times(b"@", 1_048_577)], Some((Code::TEXT_SIZE, 1))),
    (
        &[Piece::Times(b"@", 1_048_576)],
        Some((Code::UNKNOWN_BYTE, 1)),
    ),
    (
        &[
            Piece::Once(b"int main(void){return "),
            Piece::Times(b"(", 62),
            Piece::Once(b"1"),
            Piece::Times(b")", 62),
            Piece::Once(b";}"),
        ],
        None,
    ),
    (
        &[
            Piece::Once(b"int main(void){return "),
            Piece::Times(b"(", 63),
            Piece::Once(b"1"),
            Piece::Times(b")", 63),
            Piece::Once(b";}"),
        ],
        None,
    ),
    (
        &[
            Piece::Once(b"int main(void){return "),
            Piece::Times(b"(", 64),
            Piece::Once(b"1"),
            Piece::Times(b")", 64),
            Piece::Once(b";}"),
        ],
        Some((Code::NESTING, 1)),
    ),
    (
        &[
            Piece::Once(b"\nint main(void){"),
            Piece::Times(b";", 2998),
            Piece::Once(b"}"),
        ],
        None,
    ),
    (
        &[
            Piece::Once(b"\nint main(void){"),
            Piece::Times(b";", 2999),
            Piece::Once(b"}"),
        ],
        Some((Code::FUNCTION_WEIGHT, 2)),
    ),
    (
        &[
            Piece::Once(b"\nint a(void){"),
            Piece::Times(b";", 2996),
            Piece::Once(b"}int b(void){"),
            Piece::Times(b";", 2996),
            Piece::Once(b"}int c(void){"),
            Piece::Times(b";", 2996),
            Piece::Once(b"}int d(void){"),
            Piece::Times(b";", 2996),
            Piece::Once(b"}int e(void){"),
            Piece::Times(b";", 2996),
            Piece::Once(b"}int f(void){"),
            Piece::Times(b";", 2996),
            Piece::Once(b"}int g(void){"),
            Piece::Times(b";", 2996),
            Piece::Once(b"}int h(void){"),
            Piece::Times(b";", 2996),
            Piece::Once(b"}int i(void){"),
            Piece::Times(b";", 2996),
            Piece::Once(b"}int j(void){"),
            Piece::Times(b";", 2996),
            Piece::Once(b"}int k(void){"),
            Piece::Times(b";", 2996),
            Piece::Once(b"}int l(void){"),
            Piece::Times(b";", 2996),
            Piece::Once(b"}int m(void){"),
            Piece::Times(b";", 2996),
            Piece::Once(b"}int main(void){"),
            Piece::Times(b";", 1024),
            Piece::Once(b"}"),
        ],
        None,
    ),
    (
        &[
            Piece::Once(b"\nint a(void){"),
            Piece::Times(b";", 2996),
            Piece::Once(b"}int b(void){"),
            Piece::Times(b";", 2996),
            Piece::Once(b"}int c(void){"),
            Piece::Times(b";", 2996),
            Piece::Once(b"}int d(void){"),
            Piece::Times(b";", 2996),
            Piece::Once(b"}int e(void){"),
            Piece::Times(b";", 2996),
            Piece::Once(b"}int f(void){"),
            Piece::Times(b";", 2996),
            Piece::Once(b"}int g(void){"),
            Piece::Times(b";", 2996),
            Piece::Once(b"}int h(void){"),
            Piece::Times(b";", 2996),
            Piece::Once(b"}int i(void){"),
            Piece::Times(b";", 2996),
            Piece::Once(b"}int j(void){"),
            Piece::Times(b";", 2996),
            Piece::Once(b"}int k(void){"),
            Piece::Times(b";", 2996),
            Piece::Once(b"}int l(void){"),
            Piece::Times(b";", 2996),
            Piece::Once(b"}int m(void){"),
            Piece::Times(b";", 2996),
            Piece::Once(b"}int main(void){"),
            Piece::Times(b";", 1025),
            Piece::Once(b"}"),
        ],
        Some((Code::PROGRAM_WEIGHT, 1)),
    ),
    (
        &[
            Piece::Once(b"\nint main(void){int n"),
            Piece::Numbered(b",n", b"", 899),
            Piece::Times(b";", 661),
            Piece::Once(b"}"),
        ],
        None,
    ),
    (
        &[
            Piece::Once(b"\nint main(void){int n"),
            Piece::Numbered(b",n", b"", 899),
            Piece::Times(b";", 662),
            Piece::Once(b"}"),
        ],
        Some((Code::VISIBLE_PAIRS, 1)),
    ),
    (
        &[
            Piece::Once(b"int main(void){}\n"),
            Piece::Numbered(b"int f", b"(void){}", 255),
        ],
        None,
    ),
    (
        &[
            Piece::Once(b"int main(void){}\n"),
            Piece::Numbered(b"int f", b"(void){}", 256),
        ],
        Some((Code::FUNCTION_COUNT, 2)),
    ),
];

#[test]
fn texts_are_refused_by_their_codes_on_their_lines(rt: HostRuntime) {
    for table in [TOKENS.as_slice(), &GRAMMAR, &RULES, &ORDER, &LIMITS] {
        for row in table {
            assert_told(&rt, rt.alloc(), row.0, Some((row.1, row.2)));
        }
    }
}

#[test]
fn texts_that_keep_the_rules_are_accepted(rt: HostRuntime) {
    for text in &ACCEPTED {
        assert_told(&rt, rt.alloc(), *text, None);
    }
}

#[test]
fn long_texts_keep_the_limits(rt: HostRuntime) -> Result<(), Fail> {
    for (pieces, wanted) in &LONG {
        let text = text_of(rt.alloc(), *pieces)?;
        assert_told(&rt, rt.alloc(), &text, *wanted);
    }
    Ok(())
}
