//! Reads the directive lines that are taken, but for pragmas (6.10.2, 6.10.3).

ghost use Rattle.std.specs.Prelude.{◌≡◌, ◌↔◌, option_copied, IsTrue};
ghost use Rattle.c_lexer.specs.Directives.{is_header, IsInclude, IsDefine, IsMarker};
ghost use Rattle.c_lexer.specs.ReadDirective as spec;

use crate::bytes::{Class, all_in, past, run_len};
use crate::comment::past_quote;
use crate::table::contains;

const HEADERS: [&[u8]; 9] = [
    b"<stddef.h>",
    b"<stdint.h>",
    b"<stdbool.h>",
    b"<limits.h>",
    b"<stdlib.h>",
    b"<string.h>",
    b"<wchar.h>",
    b"<stdio.h>",
    b"<errno.h>",
];

/// What follows the word, where it stands at the front.
pub(crate) fn strip<'a>(text: &'a [u8], word: &[u8]) -> Option<&'a [u8]>
    ensures { option_copied result ≡ spec.strip word.now text.now }
{
    text.strip_prefix(word)
}

#[tactic(auto, unfolding(crate::specs::Directives::is_header))]
fn is_header(text: &[u8]) -> bool
    ensures { result ≡ is_header text.now }
{
    contains(&HEADERS, text)
}

fn ends_include(rest: &[u8]) -> bool
    ensures { result ≡ spec.ends_include rest.now }
{
    let (header, last) = rest.split_at(run_len(Class::Solid, rest));
    is_header(header) && all_in(Class::Blank, last)
}

#[tactic(auto, unfolding(crate::specs::ReadDirective::is_include))]
fn read_include(text: &[u8]) -> bool
    ensures { result ≡ spec.is_include text.now }
{
    match strip(text, b"include") {
        None => false,
        Some(after) => ends_include(past(Class::Blank, after)),
    }
}

fn begins_blank(text: &[u8]) -> bool
    ensures { result ≡ spec.begins_blank text.now }
{
    run_len(Class::Blank, text) != 0
}

fn ends_define(after: &[u8]) -> bool
    ensures { result ≡ spec.ends_define after.now }
{
    if !begins_blank(after) {
        return false;
    }
    match strip(past(Class::Blank, after), b"1") {
        None => false,
        Some(last) => all_in(Class::Blank, last),
    }
}

fn names_extension(after: &[u8]) -> bool
    ensures { result ≡ spec.names_extension after.now }
{
    if !begins_blank(after) {
        return false;
    }
    match strip(past(Class::Blank, after), b"__STDC_WANT_LIB_EXT1__") {
        None => false,
        Some(rest) => ends_define(rest),
    }
}

#[tactic(auto, unfolding(crate::specs::ReadDirective::is_define))]
fn read_define(text: &[u8]) -> bool
    ensures { result ≡ spec.is_define text.now }
{
    match strip(text, b"define") {
        None => false,
        Some(after) => names_extension(after),
    }
}

fn ends_marker(after: &[u8]) -> bool
    ensures { result ≡ spec.ends_marker after.now }
{
    match past_quote(b'"', after) {
        None => false,
        Some(last) => all_in(Class::Spaced, last),
    }
}

#[tactic(auto, unfolding(crate::specs::ReadDirective::is_marker))]
fn read_marker(text: &[u8]) -> bool
    ensures { result ≡ spec.is_marker text.now }
{
    let count = run_len(Class::Decimal, text);
    if count == 0 {
        return false;
    }
    match strip(past(Class::Blank, &text[count..]), b"\"") {
        None => false,
        Some(after) => ends_marker(after),
    }
}

/// Whether the text behind `#` and blanks is an include of a header that is known (6.10.2).
pub(crate) fn is_include(text: &[u8]) -> bool
    ensures { IsTrue result ↔ IsInclude text.now }
{
    read_include(text)
}

/// Whether the text behind `#` and blanks asks for the bounds-checking interfaces (K.3.1.1).
pub(crate) fn is_define(text: &[u8]) -> bool
    ensures { IsTrue result ↔ IsDefine text.now }
{
    read_define(text)
}

/// Whether the text behind `#` and blanks is a number, a file name and numbers, as a preprocessor leaves them.
pub(crate) fn is_marker(text: &[u8]) -> bool
    ensures { IsTrue result ↔ IsMarker text.now }
{
    read_marker(text)
}
