//! The message object.
ghost use Rattle.std.specs.Prelude.{◌≡◌, IfOk, map};
ghost use Rattle.object_store.specs.Messages.{message_object, literal_cell};

use crate::cell::Cell;
use crate::class::Class;
use crate::mark::Mark;
use crate::slot::Slot;
use std::alloc::{AllocError, Global};

/// The texts that a handler of runtime-constraints is told, each with its null.
const MESSAGES: [u8; 131] =
    *b"null pointer\0size above RSIZE_MAX\0size is zero\0does not fit\0destination not ended\0\
       objects overlap\0token not ended\0size is not zero\0";

/// The object of these texts, sealed as a string literal is.
pub(crate) fn messages(alloc: Global) -> Result<Slot, AllocError>
    ensures { IfOk result (λ slot. slot ≡ message_object) }
{
    let cells = literal_cells(alloc, &MESSAGES)?;
    Ok(Slot {
        class: Class::Static,
        live: true,
        cells,
    })
}

fn literal_cells(alloc: Global, bytes: &[u8]) -> Result<Vec<Cell>, AllocError>
    ensures { IfOk result (λ cells. cells.items ≡ map literal_cell bytes.now) }
{
    bytes
        .iter()
        .map(|byte| Cell {
            byte: Some(*byte),
            mark: Mark::Literal,
        })
        .collect(alloc)
}
