//! The words of the language, and the table of their spellings (6.4.1).

ghost use Rattle.std.specs.Prelude.{◌≡◌, IfSome, IfNone};
ghost use Rattle.c_lexer.specs.Words as spec;
ghost use Rattle.c_lexer.specs.declared.word.Word.{Word};

use crate::table::{contains, lookup};

/// The words of the language (6.4.1) that are taken.
#[derive(Clone, Copy, Debug, PartialEq, Eq)]
pub enum Word {
    /// `auto`
    Auto,
    /// `break`
    Break,
    /// `case`
    Case,
    /// `char`
    Char,
    /// `const`
    Const,
    /// `continue`
    Continue,
    /// `default`
    Default,
    /// `do`
    Do,
    /// `else`
    Else,
    /// `enum`
    Enum,
    /// `extern`
    Extern,
    /// `for`
    For,
    /// `if`
    If,
    /// `inline`
    Inline,
    /// `int`
    Int,
    /// `long`
    Long,
    /// `register`
    Register,
    /// `restrict`
    Restrict,
    /// `return`
    Return,
    /// `short`
    Short,
    /// `signed`
    Signed,
    /// `sizeof`
    Sizeof,
    /// `static`
    Static,
    /// `struct`
    Struct,
    /// `switch`
    Switch,
    /// `typedef`
    Typedef,
    /// `union`
    Union,
    /// `unsigned`
    Unsigned,
    /// `void`
    Void,
    /// `volatile`
    Volatile,
    /// `while`
    While,
    /// `_Alignof`
    Alignof,
    /// `_Bool`
    Bool,
    /// `_Static_assert`
    StaticAssert,
}

/// Each word of the language that is taken, and its spelling.
const WORDS: [(&[u8], Word); 34] = [
    (b"auto", Word::Auto),
    (b"break", Word::Break),
    (b"case", Word::Case),
    (b"char", Word::Char),
    (b"const", Word::Const),
    (b"continue", Word::Continue),
    (b"default", Word::Default),
    (b"do", Word::Do),
    (b"else", Word::Else),
    (b"enum", Word::Enum),
    (b"extern", Word::Extern),
    (b"for", Word::For),
    (b"if", Word::If),
    (b"inline", Word::Inline),
    (b"int", Word::Int),
    (b"long", Word::Long),
    (b"register", Word::Register),
    (b"restrict", Word::Restrict),
    (b"return", Word::Return),
    (b"short", Word::Short),
    (b"signed", Word::Signed),
    (b"sizeof", Word::Sizeof),
    (b"static", Word::Static),
    (b"struct", Word::Struct),
    (b"switch", Word::Switch),
    (b"typedef", Word::Typedef),
    (b"union", Word::Union),
    (b"unsigned", Word::Unsigned),
    (b"void", Word::Void),
    (b"volatile", Word::Volatile),
    (b"while", Word::While),
    (b"_Alignof", Word::Alignof),
    (b"_Bool", Word::Bool),
    (b"_Static_assert", Word::StaticAssert),
];

/// The words of the language that are not taken.
const OUTSIDE: [&[u8]; 10] = [
    b"double",
    b"float",
    b"goto",
    b"_Alignas",
    b"_Atomic",
    b"_Complex",
    b"_Generic",
    b"_Imaginary",
    b"_Noreturn",
    b"_Thread_local",
];

/// The word of the language that is spelled so (6.4.1).
pub(crate) fn word_of(text: &[u8]) -> Option<Word>
    ensures found { IfSome result (λ word. text.now ≡ spec.word_text word) }
    ensures none { IfNone result ((word : Word) → text.now ≡ spec.word_text word → ⊥) }
{
    lookup(&WORDS, text)
}

/// Whether this spells a word of the language that is not taken (6.4.1).
#[tactic(auto, unfolding(crate::specs::Words::is_outside))]
pub(crate) fn is_outside(text: &[u8]) -> bool
    ensures { result ≡ spec.is_outside text.now }
{
    contains(&OUTSIDE, text)
}
