//! The punctuators, and the table of their spellings (6.4.6).

ghost use Rattle.std.specs.Prelude.{◌≡◌, IfSome, IfNone};
ghost use Rattle.c_lexer.specs.Lookup.{lookup};
ghost use Rattle.c_lexer.specs.Marks.{mark_text, marks};
ghost use Rattle.c_lexer.specs.ReadPart.{extends};
ghost use Rattle.c_lexer.specs.declared.punct.Punct.{Punct};

use crate::table::lookup;

/// The punctuators (6.4.6) that are taken.
#[derive(Clone, Copy, Debug, PartialEq, Eq)]
pub enum Punct {
    /// `[`
    OpenBracket,
    /// `]`
    CloseBracket,
    /// `(`
    OpenParen,
    /// `)`
    CloseParen,
    /// `{`
    OpenBrace,
    /// `}`
    CloseBrace,
    /// `.`
    Dot,
    /// `->`
    Arrow,
    /// `++`
    Increment,
    /// `--`
    Decrement,
    /// `&`
    Ampersand,
    /// `*`
    Star,
    /// `+`
    Plus,
    /// `-`
    Minus,
    /// `~`
    Tilde,
    /// `!`
    Exclamation,
    /// `/`
    Slash,
    /// `%`
    Percent,
    /// `<<`
    ShiftLeft,
    /// `>>`
    ShiftRight,
    /// `<`
    Less,
    /// `>`
    Greater,
    /// `<=`
    LessEqual,
    /// `>=`
    GreaterEqual,
    /// `==`
    Equal,
    /// `!=`
    NotEqual,
    /// `^`
    Caret,
    /// `|`
    Bar,
    /// `&&`
    AndAnd,
    /// `||`
    OrOr,
    /// `?`
    Question,
    /// `:`
    Colon,
    /// `;`
    Semicolon,
    /// `...`
    Ellipsis,
    /// `=`
    Assign,
    /// `*=`
    StarAssign,
    /// `/=`
    SlashAssign,
    /// `%=`
    PercentAssign,
    /// `+=`
    PlusAssign,
    /// `-=`
    MinusAssign,
    /// `<<=`
    ShiftLeftAssign,
    /// `>>=`
    ShiftRightAssign,
    /// `&=`
    AmpersandAssign,
    /// `^=`
    CaretAssign,
    /// `|=`
    BarAssign,
    /// `,`
    Comma,
}

/// Each punctuator and its spelling.
const MARKS: [(&[u8], Punct); 46] = [
    (b"...", Punct::Ellipsis),
    (b"<<=", Punct::ShiftLeftAssign),
    (b">>=", Punct::ShiftRightAssign),
    (b"->", Punct::Arrow),
    (b"++", Punct::Increment),
    (b"--", Punct::Decrement),
    (b"<<", Punct::ShiftLeft),
    (b">>", Punct::ShiftRight),
    (b"<=", Punct::LessEqual),
    (b">=", Punct::GreaterEqual),
    (b"==", Punct::Equal),
    (b"!=", Punct::NotEqual),
    (b"&&", Punct::AndAnd),
    (b"||", Punct::OrOr),
    (b"*=", Punct::StarAssign),
    (b"/=", Punct::SlashAssign),
    (b"%=", Punct::PercentAssign),
    (b"+=", Punct::PlusAssign),
    (b"-=", Punct::MinusAssign),
    (b"&=", Punct::AmpersandAssign),
    (b"^=", Punct::CaretAssign),
    (b"|=", Punct::BarAssign),
    (b"[", Punct::OpenBracket),
    (b"]", Punct::CloseBracket),
    (b"(", Punct::OpenParen),
    (b")", Punct::CloseParen),
    (b"{", Punct::OpenBrace),
    (b"}", Punct::CloseBrace),
    (b".", Punct::Dot),
    (b"&", Punct::Ampersand),
    (b"*", Punct::Star),
    (b"+", Punct::Plus),
    (b"-", Punct::Minus),
    (b"~", Punct::Tilde),
    (b"!", Punct::Exclamation),
    (b"/", Punct::Slash),
    (b"%", Punct::Percent),
    (b"<", Punct::Less),
    (b">", Punct::Greater),
    (b"^", Punct::Caret),
    (b"|", Punct::Bar),
    (b"?", Punct::Question),
    (b":", Punct::Colon),
    (b";", Punct::Semicolon),
    (b"=", Punct::Assign),
    (b",", Punct::Comma),
];

fn read_mark(text: &[u8]) -> Option<Punct>
    ensures { result ≡ lookup marks text.now }
{
    lookup(&MARKS, text)
}

/// The punctuator that the whole text spells, if it spells one (6.4.6).
pub(crate) fn mark_of(text: &[u8]) -> Option<Punct>
    ensures found { IfSome result (λ mark. text.now ≡ mark_text mark) }
    ensures none { IfNone result ((mark : Punct) → text.now ≡ mark_text mark → ⊥) }
{
    read_mark(text)
}

/// Whether the text and the byte behind it spell a punctuator.
#[tactic(auto, unfolding(crate::specs::ReadPart::extends))]
pub(crate) fn extends(text: &[u8], byte: u8) -> bool
    ensures { result ≡ extends text.now byte }
{
    match text {
        [] => read_mark(&[byte]).is_some(),
        [first] => read_mark(&[*first, byte]).is_some(),
        [first, second] => read_mark(&[*first, *second, byte]).is_some(),
        _ => false,
    }
}
