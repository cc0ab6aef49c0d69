//! A tree as text: each node in parentheses, its operator or word first.
use crate::tests::word::{
    access, basic, compound, infix, measure, postfix, prefix, qualifier, storage,
};
use c_syntax::{
    Constant, Declarator, Enumerator, Expr, Literals, MemberDeclaration, Parameter, Qualifier,
    Specifier, Tag, TypeName,
};
use critical_table::Name;
use std::alloc::{AllocError, Global};

pub type Shown = Result<(), AllocError>;

/// The text so far. A blank stands before each word that doesn't follow an opening bracket.
#[derive(Drop)]
pub struct Text {
    pub alloc: Global,
    pub text: String,
    begins: bool,
    /// Whether parentheses of the unit are shown.
    parens: bool,
}

impl Text {
    pub fn new(alloc: Global, parens: bool) -> Text {
        Text {
            alloc,
            text: String::new(alloc),
            begins: true,
            parens,
        }
    }

    fn blank(&mut self) -> Shown {
        if !self.begins {
            self.text.push_str(" ")?;
        }
        self.begins = false;
        Ok(())
    }

    pub fn word(&mut self, word: &str) -> Shown {
        self.blank()?;
        self.text.push_str(word)
    }

    pub fn open(&mut self, bracket: &str) -> Shown {
        self.blank()?;
        self.begins = true;
        self.text.push_str(bracket)
    }

    /// An opening parenthesis, and the operator or word behind it.
    pub fn begin(&mut self, word: &str) -> Shown {
        self.open("(")?;
        self.word(word)
    }

    pub fn close(&mut self, bracket: &str) -> Shown {
        self.begins = false;
        self.text.push_str(bracket)
    }

    /// What stands directly behind a word.
    pub fn more(&mut self, text: &str) -> Shown {
        self.text.push_str(text)
    }

    pub fn name(&mut self, name: &Name) -> Shown {
        self.blank()?;
        self.letters(name)
    }

    pub fn letters(&mut self, name: &Name) -> Shown {
        for byte in name.bytes() {
            self.text.push(char::from(*byte))?;
        }
        Ok(())
    }

    fn tag(&mut self, tag: &Option<Tag>) -> Shown {
        match tag {
            None => self.word("_"),
            Some(tag) => self.name(&tag.name),
        }
    }

    fn constant(&mut self, constant: Constant) -> Shown {
        let text = match constant {
            Constant::Number(number) => format!(in self.alloc; "{}", number.value)?,
            Constant::Character(value, false) => format!(in self.alloc; "'{value}")?,
            Constant::Character(value, true) => format!(in self.alloc; "L'{value}")?,
        };
        self.word(text.as_str())
    }

    /// The units of each literal in decimal.
    pub fn literals(&mut self, text: &Literals) -> Shown {
        self.blank()?;
        for units in &text.units {
            self.more(if text.wide { "L<" } else { "<" })?;
            self.begins = true;
            for unit in units.as_slice() {
                let unit = format!(in self.alloc; "{unit}")?;
                self.word(unit.as_str())?;
            }
            self.close(">")?;
        }
        Ok(())
    }
}

#[cycle(show)]
pub fn expr(out: &mut Text, expr: &Expr) -> Shown {
    match expr {
        Expr::Const(_, constant) => out.constant(*constant),
        Expr::Id(_, name) => out.name(name),
        Expr::Text(_, text) => out.literals(text),
        Expr::Paren(inner) if out.parens => {
            out.begin("paren")?;
            self::expr(out, inner)?;
            out.close(")")
        }
        Expr::Paren(inner) => self::expr(out, inner),
        Expr::Index(_, array, index) => {
            out.begin("[]")?;
            self::expr(out, array)?;
            self::expr(out, index)?;
            out.close(")")
        }
        Expr::Call(_, function, all) => {
            out.begin("call")?;
            self::expr(out, function)?;
            arguments(out, all)?;
            out.close(")")
        }
        Expr::Member(_, operator, whole, name) => {
            out.begin(access(*operator))?;
            self::expr(out, whole)?;
            out.name(name)?;
            out.close(")")
        }
        Expr::Postfix(_, operator, operand) => {
            out.begin(postfix(*operator))?;
            self::expr(out, operand)?;
            out.close(")")
        }
        Expr::Prefix(_, operator, operand) => {
            out.begin(prefix(*operator))?;
            self::expr(out, operand)?;
            out.close(")")
        }
        Expr::Measure(_, operator, of) => {
            out.begin(measure(*operator))?;
            type_name(out, of)?;
            out.close(")")
        }
        Expr::Cast(_, to, operand) => {
            out.begin("cast")?;
            type_name(out, to)?;
            self::expr(out, operand)?;
            out.close(")")
        }
        Expr::Infix(_, operator, left, right) => {
            out.begin(infix(*operator))?;
            self::expr(out, left)?;
            self::expr(out, right)?;
            out.close(")")
        }
        Expr::Cond(_, test, then, otherwise) => {
            out.begin("?")?;
            self::expr(out, test)?;
            self::expr(out, then)?;
            self::expr(out, otherwise)?;
            out.close(")")
        }
    }
}

#[cycle(show)]
fn arguments(out: &mut Text, all: &[Expr]) -> Shown {
    for argument in all {
        expr(out, argument)?;
    }
    Ok(())
}

#[cycle(show)]
fn type_name(out: &mut Text, of: &TypeName) -> Shown {
    out.open("(")?;
    specifiers(out, &of.specifiers)?;
    declarator(out, &of.declarator)?;
    out.close(")")
}

#[cycle(show)]
pub fn specifiers(out: &mut Text, all: &[Specifier]) -> Shown {
    out.open("[")?;
    for one in all {
        specifier(out, one)?;
    }
    out.close("]")
}

#[cycle(show)]
fn specifier(out: &mut Text, one: &Specifier) -> Shown {
    match one {
        Specifier::Storage(_, word) => out.word(storage(*word)),
        Specifier::Qualifier(_, word) => out.word(qualifier(*word)),
        Specifier::Inline(_) => out.word("inline"),
        Specifier::BasicWord(_, word) => out.word(basic(*word)),
        Specifier::CompoundTag(_, word, tag) => {
            out.word(compound(*word))?;
            out.more(":")?;
            out.letters(&tag.name)
        }
        Specifier::Compound(_, word, tag, all) => {
            out.open("{")?;
            out.word(compound(*word))?;
            out.tag(tag)?;
            members(out, all)?;
            out.close("}")
        }
        Specifier::EnumTag(_, tag) => {
            out.word("enum:")?;
            out.letters(&tag.name)
        }
        Specifier::Enum(_, tag, all, comma) => {
            out.open("{")?;
            out.word("enum")?;
            out.tag(tag)?;
            enumerators(out, all)?;
            if *comma {
                out.word(",")?;
            }
            out.close("}")
        }
        Specifier::TypedefName(_, name) => out.name(name),
    }
}

#[cycle(show)]
fn members(out: &mut Text, all: &[MemberDeclaration]) -> Shown {
    for one in all {
        out.open("(")?;
        specifiers(out, &one.specifiers)?;
        declarators(out, &one.declarators)?;
        out.close(")")?;
    }
    Ok(())
}

#[cycle(show)]
fn declarators(out: &mut Text, all: &[Declarator]) -> Shown {
    for one in all {
        declarator(out, one)?;
    }
    Ok(())
}

#[cycle(show)]
fn enumerators(out: &mut Text, all: &[Enumerator]) -> Shown {
    for one in all {
        match &one.value {
            None => out.name(&one.name)?,
            Some(value) => {
                out.begin("=")?;
                out.name(&one.name)?;
                expr(out, value)?;
                out.close(")")?;
            }
        }
    }
    Ok(())
}

#[cycle(show)]
pub fn declarator(out: &mut Text, of: &Declarator) -> Shown {
    match of {
        Declarator::Omitted => out.word("_"),
        Declarator::Name(_, name) => out.name(name),
        Declarator::DParen(inner) if !out.parens => declarator(out, inner),
        Declarator::DParen(inner) => {
            out.begin("paren")?;
            declarator(out, inner)?;
            out.close(")")
        }
        Declarator::PointerTo(words, inner) => {
            out.begin("pointer")?;
            qualifiers(out, words)?;
            declarator(out, inner)?;
            out.close(")")
        }
        Declarator::ArrayOf(inner, length) => {
            out.begin("array")?;
            declarator(out, inner)?;
            if let Some(length) = length {
                expr(out, length)?;
            }
            out.close(")")
        }
        Declarator::FunctionOf(inner, all, variadic) => {
            out.begin("function")?;
            declarator(out, inner)?;
            parameters(out, all)?;
            if *variadic {
                out.word("...")?;
            }
            out.close(")")
        }
    }
}

fn qualifiers(out: &mut Text, words: &[Qualifier]) -> Shown {
    for word in words {
        out.word(qualifier(*word))?;
    }
    Ok(())
}

#[cycle(show)]
fn parameters(out: &mut Text, all: &[Parameter]) -> Shown {
    for one in all {
        out.open("(")?;
        specifiers(out, &one.specifiers)?;
        declarator(out, &one.declarator)?;
        out.close(")")?;
    }
    Ok(())
}
