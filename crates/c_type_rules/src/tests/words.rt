//! Lists of words of basic types against the list of 6.7.2p2.

use crate::basic_type;
use c_core::TypeFault;
use c_syntax::BasicWord;
use c_types::{Basic, Shape, TypeTable};
use critical_table::Pos;
use std::alloc::{AllocError, Global};
use std::test::Fail;

const HERE: Pos = Pos { line: 3, column: 7 };

fn word_of(text: &str) -> Option<BasicWord> {
    match text {
        "void" => Some(BasicWord::Void),
        "char" => Some(BasicWord::Char),
        "short" => Some(BasicWord::Short),
        "int" => Some(BasicWord::Int),
        "long" => Some(BasicWord::Long),
        "signed" => Some(BasicWord::Signed),
        "unsigned" => Some(BasicWord::Unsigned),
        "_Bool" => Some(BasicWord::Bool),
        _ => None,
    }
}

fn words_of(alloc: Global, text: &str) -> Result<Vec<BasicWord>, AllocError> {
    let mut words = Vec::new(alloc);
    for part in text.split(' ') {
        if let Some(word) = word_of(part) {
            words.push(word)?;
        }
    }
    Ok(words)
}

// The standard's rows, some in another order, and lists that are none; gcc and clang refuse these.
const LISTS: [(&str, Option<Basic>); 46] = [
    ("void", Some(Basic::Void)),
    ("char", Some(Basic::Char)),
    ("signed char", Some(Basic::SChar)),
    ("char signed", Some(Basic::SChar)),
    ("unsigned char", Some(Basic::UChar)),
    ("short", Some(Basic::Short)),
    ("signed short", Some(Basic::Short)),
    ("short int", Some(Basic::Short)),
    ("signed short int", Some(Basic::Short)),
    ("int short signed", Some(Basic::Short)),
    ("unsigned short", Some(Basic::UShort)),
    ("unsigned short int", Some(Basic::UShort)),
    ("int", Some(Basic::Int)),
    ("signed", Some(Basic::Int)),
    ("signed int", Some(Basic::Int)),
    ("unsigned", Some(Basic::UInt)),
    ("unsigned int", Some(Basic::UInt)),
    ("int unsigned", Some(Basic::UInt)),
    ("long", Some(Basic::Long)),
    ("signed long", Some(Basic::Long)),
    ("long int", Some(Basic::Long)),
    ("signed long int", Some(Basic::Long)),
    ("unsigned long", Some(Basic::ULong)),
    ("unsigned long int", Some(Basic::ULong)),
    ("long unsigned int", Some(Basic::ULong)),
    ("long long", Some(Basic::LongLong)),
    ("signed long long", Some(Basic::LongLong)),
    ("long long int", Some(Basic::LongLong)),
    ("signed long long int", Some(Basic::LongLong)),
    ("long signed int long", Some(Basic::LongLong)),
    ("unsigned long long", Some(Basic::ULongLong)),
    ("unsigned long long int", Some(Basic::ULongLong)),
    ("long int unsigned long", Some(Basic::ULongLong)),
    ("_Bool", Some(Basic::Bool)),
    ("long long long", None),
    ("short short", None),
    ("short long", None),
    ("int int", None),
    ("long char", None),
    ("short char", None),
    ("signed unsigned int", None),
    ("signed signed", None),
    ("unsigned _Bool", None),
    ("long void", None),
    ("void int", None),
    ("char int", None),
];

#[test]
fn names_the_types_of_the_standard(rt: HostRuntime) -> Result<(), Fail> {
    let alloc = rt.alloc();
    let types = TypeTable::new(alloc)?;
    for (text, want) in LISTS {
        let words = words_of(alloc, text)?;
        match (basic_type(&types, HERE, &words), want) {
            (Ok(id), Some(basic)) => assert_eq!(rt; types.shape(id), Shape::Basic(basic), "{text}"),
            (Err(TypeFault::Constraint(number, at)), None) => {
                assert_eq!(rt; number, 4, "{text}");
                assert_eq!(rt; at, HERE, "{text}");
            }
            _ => assert!(rt; false, "{text}"),
        }
    }
    Ok(())
}
