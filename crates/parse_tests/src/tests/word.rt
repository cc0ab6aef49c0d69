//! The words and marks of operators and specifiers.
use c_syntax::{
    Access, Arithmetic, BasicWord, Comparison, CompoundWord, Infix, Measure, Postfix, Prefix,
    Qualifier, Storage,
};

pub fn access(operator: Access) -> &'static str {
    match operator {
        Access::Dot => ".",
        Access::Arrow => "->",
    }
}

pub fn postfix(operator: Postfix) -> &'static str {
    match operator {
        Postfix::PostInc => "post++",
        Postfix::PostDec => "post--",
    }
}

pub fn prefix(operator: Prefix) -> &'static str {
    match operator {
        Prefix::PreInc => "pre++",
        Prefix::PreDec => "pre--",
        Prefix::AddressOf => "&",
        Prefix::Deref => "*",
        Prefix::Plus => "+",
        Prefix::Minus => "-",
        Prefix::Flip => "~",
        Prefix::Not => "!",
        Prefix::SizeExpr => "sizeof",
    }
}

pub fn measure(operator: Measure) -> &'static str {
    match operator {
        Measure::SizeType => "sizeof-type",
        Measure::AlignType => "_Alignof",
    }
}

fn arithmetic(operator: Arithmetic) -> &'static str {
    match operator {
        Arithmetic::Multiply => "*",
        Arithmetic::Divide => "/",
        Arithmetic::Remainder => "%",
        Arithmetic::Add => "+",
        Arithmetic::Subtract => "-",
        Arithmetic::ShiftLeft => "<<",
        Arithmetic::ShiftRight => ">>",
        Arithmetic::BitAnd => "&",
        Arithmetic::BitXor => "^",
        Arithmetic::BitOr => "|",
    }
}

fn assignment(operator: Arithmetic) -> &'static str {
    match operator {
        Arithmetic::Multiply => "*=",
        Arithmetic::Divide => "/=",
        Arithmetic::Remainder => "%=",
        Arithmetic::Add => "+=",
        Arithmetic::Subtract => "-=",
        Arithmetic::ShiftLeft => "<<=",
        Arithmetic::ShiftRight => ">>=",
        Arithmetic::BitAnd => "&=",
        Arithmetic::BitXor => "^=",
        Arithmetic::BitOr => "|=",
    }
}

fn comparison(operator: Comparison) -> &'static str {
    match operator {
        Comparison::Less => "<",
        Comparison::Greater => ">",
        Comparison::LessEqual => "<=",
        Comparison::GreaterEqual => ">=",
        Comparison::Equal => "==",
        Comparison::NotEqual => "!=",
    }
}

pub fn infix(operator: Infix) -> &'static str {
    match operator {
        Infix::Arithmetic(operator) => arithmetic(operator),
        Infix::Comparison(operator) => comparison(operator),
        Infix::AndAlso => "&&",
        Infix::OrElse => "||",
        Infix::Assign => "=",
        Infix::AssignOp(operator) => assignment(operator),
        Infix::Comma => ",",
    }
}

pub fn storage(word: Storage) -> &'static str {
    match word {
        Storage::Typedef => "typedef",
        Storage::Extern => "extern",
        Storage::Static => "static",
        Storage::Auto => "auto",
        Storage::Register => "register",
    }
}

pub fn qualifier(word: Qualifier) -> &'static str {
    match word {
        Qualifier::Const => "const",
        Qualifier::Restrict => "restrict",
        Qualifier::Volatile => "volatile",
    }
}

pub fn basic(word: BasicWord) -> &'static str {
    match word {
        BasicWord::Void => "void",
        BasicWord::Char => "char",
        BasicWord::Short => "short",
        BasicWord::Int => "int",
        BasicWord::Long => "long",
        BasicWord::Signed => "signed",
        BasicWord::Unsigned => "unsigned",
        BasicWord::Bool => "_Bool",
    }
}

pub fn compound(word: CompoundWord) -> &'static str {
    match word {
        CompoundWord::Struct => "struct",
        CompoundWord::Union => "union",
    }
}
