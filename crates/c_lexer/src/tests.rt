//! Tests: values of each class of tokens, where parts end, and refusals with their places.

use crate::characters::{character_of, literal_of};
use crate::fault::LexFault;
use crate::lexer::{Lexer, lex};
use crate::number::number_of;
use crate::place::behind;
use crate::pragma::is_directive;
use crate::punct::Punct;
use crate::spelling::token_of;
use crate::token::Body;
use crate::tokens::Tokens;
use crate::units::Units;
use crate::word::{Word, is_outside, word_of};
use critical_table::{Pos, Refusal};
use std::alloc::Global;
use std::test::Fail;

#[test]
fn words(rt: HostRuntime) {
    assert_eq!(rt; word_of(b"_Static_assert"), Some(Word::StaticAssert));
    assert_eq!(rt; word_of(b"integer"), None);
    assert!(rt; is_outside(b"goto"));
    assert!(rt; !is_outside(b"int"));
}

// Expected values as gcc 13 and 6.4.4.1 have them.
#[test]
fn numbers(rt: HostRuntime) {
    let all: [(&[u8], Option<u64>); 12] = [
        (b"0", Some(0)),
        (b"017", Some(15)),
        (b"0xfF", Some(255)),
        (b"1uL", Some(1)),
        (b"18446744073709551615", Some(18446744073709551615)),
        (b"18446744073709551616", None),
        (b"0x", None),
        (b"09", None),
        (b"1ulu", None),
        (b"1lL", None),
        (b"1.5", None),
        (b"", None),
    ];
    for (text, value) in all {
        assert_eq!(rt; number_of(text).map(|number| number.value), value);
    }
}

#[test]
fn characters(rt: HostRuntime) {
    let all: [(&[u8], Option<(i32, bool)>); 10] = [
        (b"'a'", Some((97, false))),
        (b"'\\377'", Some((-1, false))),
        (b"'\xc3'", Some((-61, false))),
        (b"L'\\xffffffff'", Some((-1, true))),
        (b"L'\\400'", Some((256, true))),
        (b"'\\x100'", None),
        (b"'\\400'", None),
        (b"'ab'", None),
        (b"''", None),
        (b"L'\xc3'", None),
    ];
    for (text, value) in all {
        assert_eq!(rt; character_of(text), value);
    }
}

#[test]
fn literals(rt: HostRuntime) -> Result<(), Fail> {
    let alloc = rt.alloc();
    let found = literal_of(alloc, b"\"a\\1234\\n\"")?;
    match found {
        Some((units, wide)) => {
            assert_eq!(rt; units.as_slice(), [97, 83, 52, 10].as_slice());
            assert!(rt; !wide);
        }
        None => assert!(rt; false),
    }
    assert!(rt; literal_of(alloc, b"\"\\q\"")?.is_none());
    assert!(rt; literal_of(alloc, b"\"\\400\"")?.is_none());
    Ok(())
}

#[test]
fn directives(rt: HostRuntime) {
    let all: [(&[u8], bool); 14] = [
        (b"#include <stdio.h>", true),
        (b"#\tinclude<errno.h> ", true),
        (b"#include <locale.h>", false),
        (b"#define __STDC_WANT_LIB_EXT1__ 1", true),
        (b"#define __STDC_WANT_LIB_EXT1__1", false),
        (b"#define __STDC_WANT_LIB_EXT1__ 0", false),
        (b"# 12 \"a\\\"b.c\" 1 3 4", true),
        (b"# 12 \"a.c", false),
        (b"#pragma STDC /* on */ // and /* so on", true),
        (b"#pragma \"/*\"", true),
        (b"#pragma /* on", false),
        (b"#pragmatic", false),
        (b"#if 1", false),
        (b"#", false),
    ];
    for (line, taken) in all {
        assert_eq!(rt; is_directive(line), taken);
    }
}

#[test]
fn tokens(rt: HostRuntime) -> Result<(), Fail> {
    let alloc = rt.alloc();
    assert!(rt; matches!(token_of(alloc, b"while")?, Some(Body::Word(Word::While))));
    assert!(rt; matches!(token_of(alloc, b"whiles")?, Some(Body::Name(_))));
    assert!(rt; matches!(token_of(alloc, b"L\"a\"")?, Some(Body::Literal(_, true))));
    assert!(rt;
        matches!(
            token_of(alloc, b"<<=")?,
            Some(Body::Mark(Punct::ShiftLeftAssign))
        )
    );
    assert!(rt; token_of(alloc, b"double")?.is_none());
    assert!(rt; token_of(alloc, b"a b")?.is_none());
    Ok(())
}

#[test]
fn places(rt: HostRuntime) {
    let place = behind(Pos { line: 1, column: 1 }, b"ab\n\ncd");
    assert_eq!(rt; place, Pos { line: 3, column: 3 });
}

/// The bytes of each token, each behind a stroke.
fn cut(alloc: Global, bytes: &[u8], tokens: &Tokens) -> Result<Vec<u8>, Fail> {
    let mut all = Vec::new(alloc);
    for index in 0..tokens.len() {
        if let Some(token) = tokens.get(index) {
            all.push(b'|')?;
            if let Some(text) = bytes.get(token.from as usize..token.to as usize) {
                all.extend_from_slice(text)?;
            }
        }
    }
    Ok(all)
}

/// What lex answers, from pieces of one byte.
fn lex_by_bytes(alloc: Global, bytes: &[u8]) -> Result<Tokens, LexFault> {
    let mut lexer = Lexer::new(alloc)?;
    for byte in bytes {
        lexer.feed(&[*byte])?;
    }
    lexer.finish()
}

/// Where one part ends and the next begins: 6.4p4 and its example, 6.4.9p3, and the rules of directive lines.
const PARTS: [(&[u8], &[u8]); 22] = [
    (b"", b""),
    (b"a+++b", b"|a|++|+|b"),
    (b"x>>=1", b"|x|>>=|1"),
    (b"x+++++y", b"|x|++|++|+|y"),
    (b"...", b"|..."),
    (b"..a", b"|.|.|a"),
    (b"..", b"|.|."),
    (b"a->b.c", b"|a|->|b|.|c"),
    (b"1uL+0x1F", b"|1uL|+|0x1F"),
    (b"L'a'L\"b\"L", b"|L'a'|L\"b\"|L"),
    (b"\"a\" L\"b\"", b"|\"a\"|L\"b\""),
    (b"m = n//**/o\n+ p;", b"|m|=|n|+|p|;"),
    (b"a/*\"*/b\"/*\"c", b"|a|b|\"/*\"|c"),
    (b"a/=/**/b/c", b"|a|/=|b|/|c"),
    (b"/* **/a", b"|a"),
    (b"'\\''\"\\\"\"", b"|'\\''|\"\\\"\""),
    (b"# 1 \"a.c\"\nb", b"|b"),
    (b" /**/ #include <stdio.h>\na", b"|a"),
    (b"a\n#pragma once", b"|a"),
    (b"#define __STDC_WANT_LIB_EXT1__ 1\n;", b"|;"),
    (b"'\xe9'/*\xe9*/a", b"|'\xe9'|a"),
    (b"_Bool b1", b"|_Bool|b1"),
];

#[test]
fn parts(rt: HostRuntime) -> Result<(), Fail> {
    let alloc = rt.alloc();
    for (bytes, parts) in PARTS {
        match lex(alloc, bytes) {
            Ok(tokens) => {
                let found = cut(alloc, bytes, &tokens)?;
                assert_eq!(rt; found.as_slice(), parts);
            }
            Err(_) => assert!(rt; false),
        }
        match lex_by_bytes(alloc, bytes) {
            Ok(tokens) => {
                let found = cut(alloc, bytes, &tokens)?;
                assert_eq!(rt; found.as_slice(), parts);
            }
            Err(_) => assert!(rt; false),
        }
    }
    Ok(())
}

fn refusal(answer: Result<Tokens, LexFault>) -> Option<(Refusal, Pos)> {
    match answer {
        Err(LexFault::Refused(why, pos)) => Some((why, pos)),
        _ => None,
    }
}

#[test]
fn refusals(rt: HostRuntime) {
    let alloc = rt.alloc();
    let all: [(&[u8], Refusal, u32, u32); 24] = [
        (b"x = 09;", Refusal::Literal, 1, 5),
        (b"1.5", Refusal::Literal, 1, 1),
        (b"'ab'", Refusal::Literal, 1, 1),
        (b"/* a", Refusal::Unclosed, 1, 1),
        (b"\"a", Refusal::Unclosed, 1, 1),
        (b"#if 1", Refusal::Directive, 1, 1),
        (b"int double", Refusal::Profile, 1, 5),
        (b"a$", Refusal::Char, 1, 2),
        (b".5", Refusal::Literal, 1, 1),
        (b"..5", Refusal::Literal, 1, 2),
        (b"0x", Refusal::Literal, 1, 1),
        (b"1ulu", Refusal::Literal, 1, 1),
        (b"\n '\\x100'", Refusal::Literal, 2, 2),
        (b"\"\\400\"", Refusal::Literal, 1, 1),
        (b"L\"\xe9\"", Refusal::Literal, 1, 1),
        (b"L'a\n'", Refusal::Unclosed, 1, 1),
        (b"a\n\n  \"\\\"", Refusal::Unclosed, 3, 3),
        (b"/*/", Refusal::Unclosed, 1, 1),
        (b"a #include <stdio.h>", Refusal::Char, 1, 3),
        (b"a\n\t#define A 1", Refusal::Directive, 2, 2),
        (b"#pragma /*\n*/", Refusal::Directive, 1, 1),
        (b"\xe9", Refusal::Char, 1, 1),
        (b"a\\\nb", Refusal::Char, 1, 2),
        (b"goto", Refusal::Profile, 1, 1),
    ];
    for (bytes, why, line, column) in all {
        let expected = Some((why, Pos { line, column }));
        assert_eq!(rt; refusal(lex(alloc, bytes)), expected);
        assert_eq!(rt; refusal(lex_by_bytes(alloc, bytes)), expected);
    }
}

#[test]
fn ends(rt: HostRuntime) {
    let alloc = rt.alloc();
    match lex(alloc, b"a\n b") {
        Ok(tokens) => assert_eq!(rt; tokens.end(), Pos { line: 2, column: 3 }),
        Err(_) => assert!(rt; false),
    }
}

#[test]
fn sizes(rt: HostRuntime) -> Result<(), Fail> {
    let alloc = rt.alloc();
    let bytes = vec![in alloc; b' '; 4_194_304]?;
    assert!(rt; lex(alloc, &bytes).is_ok());
    let mut lexer = Lexer::new(alloc)?;
    assert!(rt; lexer.feed(&bytes).is_ok());
    assert!(rt; lexer.feed(b"").is_ok());
    assert!(rt; lexer.feed(b" ").is_err());
    assert!(rt; lexer.feed(b"").is_err());
    assert_eq!(rt;
        refusal(lexer.finish()),
        Some((Refusal::Size, Pos { line: 1, column: 1 }))
    );
    Ok(())
}

#[test]
fn units(rt: HostRuntime) -> Result<(), Fail> {
    let made = Units::from_slice(rt.alloc(), &[97, -1])?;
    assert_eq!(rt; made.as_slice(), [97, -1].as_slice());
    assert_eq!(rt; made.get(1), Some(-1));
    assert_eq!(rt; made.get(2), None);
    Ok(())
}
