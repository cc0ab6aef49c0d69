//! What the printer makes of a unit's tree.
use c_lexer::{Body, Tokens, Units};
use c_syntax::{Tree, spelling};
use std::alloc::{AllocError, Global};

fn same_units(printed: &Units, read: &Units) -> bool {
    for i in 0..read.len() {
        if printed.get(i) != read.get(i) {
            return false;
        }
    }
    printed.len() == read.len()
}

fn same(printed: &Body, read: &Body) -> bool {
    match (printed, read) {
        (Body::Word(printed), Body::Word(read)) => printed == read,
        (Body::Name(printed), Body::Name(read)) => printed.bytes() == read.bytes(),
        (Body::Number(printed), Body::Number(read)) => {
            printed.value == read.value
                && printed.decimal == read.decimal
                && printed.unsigned == read.unsigned
                && printed.longs == read.longs
        }
        (Body::Character(printed, wide), Body::Character(read, is_wide)) => {
            printed == read && wide == is_wide
        }
        (Body::Literal(printed, wide), Body::Literal(read, is_wide)) => {
            same_units(printed, read) && wide == is_wide
        }
        (Body::Mark(printed), Body::Mark(read)) => printed == read,
        _ => false,
    }
}

/// Whether the printer gives the tokens of the unit back, each at its place where it tells one.
pub fn gives_back(alloc: Global, tokens: &Tokens, tree: &Tree) -> Result<bool, AllocError> {
    let printed = spelling(alloc, tree)?;
    for (printed, token) in printed.iter().zip(tokens.as_slice()) {
        let is_there = match printed.place {
            Some(place) => place == token.pos,
            None => true,
        };
        if !is_there || !same(&printed.body, &token.body) {
            return Ok(false);
        }
    }
    Ok(printed.len() == tokens.len())
}
